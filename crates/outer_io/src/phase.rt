use std::time::Instant;

/// What a client is at, and when its time for that ends. None: no clock told that, and no time is left.
#[derive(Clone, Copy, Debug, PartialEq, Eq)]
pub(crate) enum Phase {
    Idle,
    Asking(Option<Instant>),
    Replying(Option<Instant>),
}
