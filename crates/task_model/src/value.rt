use crate::elements::Elements;
use crate::text::TaskText;
use std::sync::Arc;

/// A value that a task gives or that a person enters. Its copies share their parts.
#[derive(Drop)]
pub enum Value {
    Unit,
    Bool(bool),
    Int(i64),
    Text(TaskText),
    Pair(Arc<Value>, Arc<Value>),
    List(Elements<Value>),
}
