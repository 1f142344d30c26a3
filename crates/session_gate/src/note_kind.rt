/// How a request was answered (docs/RULES.md, "Connections").
#[derive(Clone, Copy, Debug, PartialEq, Eq)]
pub enum NoteKind {
    /// By a page.
    Page,
    /// The input was taken.
    Taken,
    /// The input isn't offered.
    NotOffered,
    /// The input went over the budget.
    Over,
    /// The page that was asked for is ahead of what there is.
    Ahead,
    /// The request was refused with this status.
    Refused(u16),
    /// Memory ran out.
    Memory,
}
