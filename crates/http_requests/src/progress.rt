use crate::request::Request;

/// How far the bytes of a connection are (docs/FORMATS.md, "HTTP").
#[derive(Drop)]
pub enum Progress {
    /// They begin with this request.
    Request(Request),
    /// They begin with no whole request, and more bytes can make one.
    More,
    /// There is no further request: they are blank lines alone, and have ended.
    Nothing,
}
