use crate::first_part::FirstPart;
use task_model::{Param, Task};

/// A task that is called: its parameters, its body, how many `edit` and `share` nodes stand before the body, and the first parts in it.
#[derive(Clone, Copy)]
pub struct Callee<'c> {
    pub params: &'c [Param],
    pub task: &'c Task,
    pub first: u64,
    pub parts: &'c [FirstPart],
}
