ghost use Rattle.std.specs.Prelude.{◌≡◌, ◌≤◌, [], vec_capacity};

use crate::mark::Mark;
use crate::shared_world::SharedWorld;
use std::sync::{Mutex, Wait};

/// A world that is shared, with how many seats it was opened, and the room for their numbers.
#[derive(Drop)]
pub struct Shared<M: Mark, R: Wait + Copy> {
    pub(crate) world: Mutex<SharedWorld<M, R>>,
    pub(crate) seats: u8,
    pub(crate) taken: Vec<u64>,
    pub ghost seats_are: { (seats ≡ M.seats) × (1 ≤ seats) × (seats ≤ 64) },
    pub ghost room: { (taken.items ≡ []) × (seats ≤ vec_capacity taken) },
}
