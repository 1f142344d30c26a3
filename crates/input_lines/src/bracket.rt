ghost use Rattle.std.specs.Prelude.{◌≡◌};
ghost use Rattle.input_lines.specs.OpenBrackets.{owed_to};

/// A bracket that is open: a pair's in its first part, or a pair's in its second part or a list's.
#[derive(Clone, Copy)]
pub(crate) enum Bracket {
    First,
    Last,
}

impl Bracket {
    /// The fewest bytes with which it is closed.
    pub(crate) fn owed(self) -> usize
        ensures { result ≡ owed_to self }
    {
        match self {
            Bracket::First => 3,
            Bracket::Last => 1,
        }
    }
}
