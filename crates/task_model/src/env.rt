use crate::row::Row;
use crate::text::TaskText;
use crate::value::Value;

/// What a name stands for: a value, or a place of the store.
#[derive(Drop)]
pub enum Slot {
    Plain(Value),
    Place(u64),
}

/// Names with their slots, outermost first, and the number of `edit` and `share` nodes of the program
/// that stand before the task which is evaluated.
#[derive(Drop)]
pub struct Env {
    pub names: Row<TaskText>,
    pub slots: Row<Slot>,
    pub first: u64,
}
