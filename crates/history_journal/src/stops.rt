/// Why no journal was made. The disk is handed back.
#[derive(Drop)]
pub enum MakeStop<D> {
    /// It has bytes.
    NotEmpty(D),
    /// The opening has no state within the budget.
    Over(D),
    /// The text of the program has more than 1,048,576 bytes.
    LongProgram(D),
    DiskFault(D),
    Memory,
}

/// Why an entry wasn't taken by a journal.
#[derive(Clone, Copy, Debug, PartialEq, Eq)]
pub enum KeepStop {
    NotOffered,
    Over,
    /// Its record has so many bytes, which are too many.
    LongEntry { length: u64 },
    DiskFault,
    /// An earlier entry met a fault of the disk.
    Closed,
    Memory,
}

/// Why no journal was restarted. The disk is handed back.
#[derive(Drop)]
pub enum RestartStop<D> {
    /// Its bytes are no journal of a legal history. At this byte stands the first gate whose record is bad, or one is missing there.
    BadJournal { place: u64, disk: D },
    DiskFault(D),
    Memory,
}
