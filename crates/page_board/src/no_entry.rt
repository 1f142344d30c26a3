/// The board refused a reader's entry.
#[derive(Clone, Copy, Debug, PartialEq, Eq, Drop)]
pub struct NoEntry;
