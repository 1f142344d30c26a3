/// Bytes that are no literal: the length of their longest prefix that begins one.
#[derive(Clone, Copy, Debug, PartialEq, Eq)]
pub struct BadLiteral {
    pub place: u64,
}

/// Why nothing was read.
#[derive(Clone, Copy, Debug, PartialEq, Eq)]
pub enum LiteralStop {
    Bad(BadLiteral),
    Memory,
}
