use std::time::Duration;

/// How long a client may take: until the first byte of a request, from there to its last byte, and
/// for a reply (docs/FORMATS.md, "Times").
#[derive(Clone, Copy, Debug, PartialEq, Eq)]
pub struct LinkTimes {
    pub idle: Duration,
    pub request: Duration,
    pub reply: Duration,
}
