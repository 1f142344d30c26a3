use crate::request::Request;

/// What stands behind a head that has ended.
#[derive(Drop)]
pub(crate) enum Found {
    /// The whole request.
    Request(Request),
    /// A part of a body: with it the request has so many bytes.
    Wanted(usize),
}
