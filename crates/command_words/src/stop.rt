/// Why words give no command.
#[derive(Clone, Copy, Debug, PartialEq, Eq)]
pub enum WordStop {
    /// They are outside the grammar.
    Outside,
    /// Memory ran out.
    Memory,
}
