/// Why a connection ended (docs/RULES.md, "Connections").
#[derive(Clone, Copy, Debug, PartialEq, Eq)]
pub enum Ending {
    /// The link ended between two requests.
    Ended,
    /// A request asked for the close, and was answered.
    Parted,
    /// 100 requests were answered.
    Spent,
    /// The link ended within a request.
    Cut,
    /// A request was refused with this closing status.
    Refused(u16),
    /// A read failed.
    ReadFault,
    /// A write failed.
    WriteFault,
    /// Memory ran out.
    Memory,
}
