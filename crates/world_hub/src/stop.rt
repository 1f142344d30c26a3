/// Why worlds weren't opened.
#[derive(Clone, Copy, Debug, PartialEq, Eq)]
pub enum HubStop {
    /// The opening of the world of this number has no state within the budget, and each one before it has.
    Over { world: u8 },
    /// Memory ran out.
    Memory,
}
