use crate::basic::Basic;
use crate::env::Slot;
use crate::row::Row;
use crate::value::Value;
use std::sync::Arc;

/// The right side of a step: a body of the program, by its number, with a slot for each name of its scope.
#[derive(Drop)]
pub struct Cont {
    pub body: u32,
    pub slots: Arc<Row<Slot>>,
}

/// A side of an external choice: a body of the program, by its number, with a slot for each name of its scope.
#[derive(Drop)]
pub struct Delay {
    pub body: u32,
    pub slots: Arc<Row<Slot>>,
}

/// A task that is under way. Its copies share their parts.
#[derive(Drop)]
pub enum Tree {
    Edit(Basic, Value),
    Enter(Basic),
    Share(Basic, u64),
    Then(Arc<Tree>, Cont),
    Next(Arc<Tree>, Cont),
    Fail,
    And(Arc<Tree>, Arc<Tree>),
    Or(Arc<Tree>, Arc<Tree>),
    Xor(Delay, Delay),
}
