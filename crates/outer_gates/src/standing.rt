/// How the bytes of a client stand.
#[derive(Clone, Copy, Debug, PartialEq, Eq)]
pub(crate) enum Standing {
    /// They begin with no whole request, and more bytes can make one.
    Part,
    /// They begin with a whole request.
    Whole,
    /// No request comes of them: they have ended.
    Never,
}
