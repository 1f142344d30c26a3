use crate::input::Entry;
use crate::program::Program;
use std::sync::Arc;

/// An item of a history: the program was opened with a budget of units, or an input was taken.
#[derive(Drop)]
pub enum Item {
    Opened { program: Arc<Program>, budget: u32 },
    Took(Entry),
}
