use crate::later_bodies::LaterBodies;
use crate::task::Body;

/// A body, and those that it may name.
#[derive(Drop)]
pub struct NumberedBody<'p> {
    pub body: &'p Body,
    pub later: LaterBodies<'p>,
}
