/// What is wrong with a source.
#[derive(Clone, Copy, Debug, PartialEq, Eq)]
pub enum LexKind {
    /// No token begins with this character, or it doesn't stand raw in a text.
    BadChar,
    /// The source ends within a text.
    OpenText,
    /// A backslash in a text begins no escape.
    BadEscape,
    /// A text has more than 65,536 bytes of content.
    LongText,
    /// A number is over 9,223,372,036,854,775,807.
    WideNumber,
}

/// Why there are no tokens.
#[derive(Clone, Copy, Debug, PartialEq, Eq)]
pub enum LexStop {
    Fault { place: u64, kind: LexKind },
    Memory,
}

/// What is wrong with a source.
#[derive(Clone, Copy, Debug, PartialEq, Eq)]
pub enum ReadKind {
    /// It has more than 1,048,576 bytes.
    TooLong,
    /// It isn't in UTF-8.
    NotUtf8,
    /// No token stands here.
    Lex(LexKind),
    /// No program goes on with this token, by its number, or ends where the tokens do.
    Unexpected { token: u64 },
    /// Programs go on with this token, but none of at most 200 levels.
    TooNested,
}

/// Why no program was read.
#[derive(Clone, Copy, Debug, PartialEq, Eq)]
pub enum ReadStop {
    /// The fault at this byte of the source.
    Fault { place: u64, kind: ReadKind },
    /// Memory ran out.
    Memory,
}

/// Why there is no token: a fault with what stands from its place on, or want of memory.
#[derive(Clone, Copy)]
pub(crate) enum Stop<'s> {
    Fault { kind: LexKind, rest: &'s str },
    Memory,
}
