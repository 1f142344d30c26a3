use crate::mark::Mark;
use crate::session::Session;
use crate::shared::Shared;
use std::sync::Wait;

/// A seat that is not among the sessions, and all that was handed in.
#[derive(Drop)]
pub struct Missing<M: Mark, R: Wait + Copy> {
    /// The lowest one that is missing.
    pub seat: u8,
    /// What was shared.
    pub shared: Shared<M, R>,
    /// The sessions.
    pub sessions: Vec<Session<M>>,
}
