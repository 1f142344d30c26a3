/// What one read behind the bytes of a client came to.
#[derive(Clone, Copy, Debug, PartialEq, Eq)]
pub(crate) enum Filling {
    /// There are more bytes, or a signal interrupted the read.
    More,
    /// None are there now.
    Waits,
    /// There are no more.
    Ended,
    /// The read failed, or memory ran out.
    Failed,
}
