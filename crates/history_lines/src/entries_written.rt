/// How entries were written: all of them, or up to the write that failed, or up to the entry for whose line memory ran out.
#[derive(Clone, Copy, Debug, PartialEq, Eq)]
pub enum EntriesWritten {
    Whole,
    Failed,
    Memory,
}
