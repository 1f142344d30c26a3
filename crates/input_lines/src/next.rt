ghost use Rattle.std.specs.Prelude.{◌≡◌};
ghost use Rattle.input_lines.specs.ShortestRest.{next_behind, next_in_line, next_in_act, next_in_value, next_in_text, rest_of};

/// What comes next in a line, as far as the fewest bytes to its end depend on it.
#[derive(Clone, Copy)]
pub(crate) enum Next {
    /// The first byte of a line.
    Line,
    /// The bytes of a comment.
    Comment,
    /// A seat's further digit, or the space behind it.
    Seat,
    /// `show`, or a path.
    Command,
    /// A path's further letter, or the space behind it.
    Path,
    /// The first byte of an act.
    Act,
    /// So many letters, and then a value.
    Value(u8),
    /// What stands behind a pair's opening bracket.
    Pair,
    /// What stands behind a list's opening bracket.
    List,
    /// So many letters of a word, and then what follows a whole value or a whole line.
    Word(u8),
    /// So many bytes of a character, and then what goes on with a text.
    Text(u8),
    /// What stands behind a text's backslash.
    Escape,
}

impl Next {
    /// The fewest bytes with which a line can end, besides those that its open brackets owe.
    pub(crate) fn rest(self) -> usize
        ensures { result ≡ rest_of self }
    {
        match self {
            Next::Line | Next::Comment => 0,
            Next::Seat | Next::Path => 5,
            Next::Command | Next::Act => 4,
            Next::Value(letters) => usize::from(letters) + 1,
            Next::Pair | Next::List => 1,
            Next::Word(letters) => usize::from(letters),
            Next::Text(bytes) => usize::from(bytes) + 1,
            Next::Escape => 2,
        }
    }

    /// What comes next behind this byte.
    pub(crate) fn behind(self, byte: u8) -> Next
        ensures { result ≡ next_behind self byte }
    {
        match self {
            Next::Line => next_in_line(byte),
            Next::Comment => Next::Comment,
            Next::Seat if byte == b' ' => Next::Command,
            Next::Seat => Next::Seat,
            Next::Command if byte == b's' => Next::Word(3),
            Next::Command => Next::Path,
            Next::Path if byte == b' ' => Next::Act,
            Next::Path => Next::Path,
            Next::Act => next_in_act(byte),
            Next::Value(0) => next_in_value(byte),
            Next::Value(letters) => Next::Value(letters - 1),
            Next::Pair | Next::List if byte == b' ' => self,
            Next::Pair if byte == b')' => Next::Word(0),
            Next::List if byte == b']' => Next::Word(0),
            Next::Pair | Next::List => next_in_value(byte),
            Next::Word(0) if byte == b',' => Next::Value(0),
            Next::Word(0) => Next::Word(0),
            Next::Word(letters) => Next::Word(letters - 1),
            Next::Text(0) => next_in_text(byte),
            Next::Text(bytes) => Next::Text(bytes - 1),
            Next::Escape if byte == b'x' => Next::Text(2),
            Next::Escape => Next::Text(0),
        }
    }
}

fn next_in_line(byte: u8) -> Next
    ensures { result ≡ next_in_line byte }
{
    match byte {
        b'#' => Next::Comment,
        b'\r' => Next::Word(0),
        _ => Next::Seat,
    }
}

fn next_in_act(byte: u8) -> Next
    ensures { result ≡ next_in_act byte }
{
    match byte {
        b'r' => Next::Word(4),
        b's' => Next::Value(3),
        _ => Next::Word(3),
    }
}

fn next_in_value(byte: u8) -> Next
    ensures { result ≡ next_in_value byte }
{
    match byte {
        b' ' => Next::Value(0),
        b'(' => Next::Pair,
        b'[' => Next::List,
        b'"' => Next::Text(0),
        b'-' => Next::Word(1),
        b't' => Next::Word(3),
        b'f' => Next::Word(4),
        _ => Next::Word(0),
    }
}

fn next_in_text(byte: u8) -> Next
    ensures { result ≡ next_in_text byte }
{
    match byte {
        b'"' => Next::Word(0),
        b'\\' => Next::Escape,
        0..192 => Next::Text(0),
        192..224 => Next::Text(1),
        224..240 => Next::Text(2),
        _ => Next::Text(3),
    }
}
