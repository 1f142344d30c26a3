/// The first part of a task that is made of two, as of a pair, of `if` or of `case`: how many `edit` and `share` nodes it has, and how
/// many tasks of two parts stand in it.
#[derive(Clone, Copy, Drop)]
pub struct FirstPart {
    pub nodes: u64,
    pub parted: usize,
}
