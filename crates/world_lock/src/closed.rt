use task_model::Row;
use world_core::World;

/// A world that was closed, and the number of entries of each seat, from seat 1 on.
#[derive(Drop)]
pub struct Closed {
    /// The world, where nothing is prepared.
    pub world: World,
    /// The numbers of entries.
    pub taken: Row<u64>,
}
