use http_requests::Request;

/// What the reading of a request came to.
#[derive(Drop)]
pub(crate) enum Next {
    /// The kept bytes begin with this request.
    Request(Request),
    /// The link ended between two requests.
    Ended,
    /// The link ended within a request.
    Cut,
    /// A read failed.
    Failed,
    /// Memory ran out.
    Memory,
}
