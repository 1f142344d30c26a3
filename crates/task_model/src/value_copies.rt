ghost use Rattle.std.specs.Prelude.{◌≡◌, IfOk, IsOk, map};
ghost use Rattle.task_model.specs.Terms.Basic.{basic_term};
ghost use Rattle.task_model.specs.Terms.Value.{value_term, IsImmediate};
ghost use Rattle.task_model.specs.Terms.Env.{slot_term};

use crate::basic::Basic;
use crate::env::Slot;
use crate::memory::{OutOfMemory, share};
use crate::row::Row;
use crate::text::{TaskText, copy_text};
use crate::value::Value;
use std::alloc::Global;

/// An equal type, in the same memory.
pub fn copy_basic(b: &Basic) -> Result<Basic, OutOfMemory>
    ensures { IfOk result (λ copy. basic_term copy ≡ basic_term b.now) }
{
    match b {
        Basic::Unit => Ok(Basic::Unit),
        Basic::Bool => Ok(Basic::Bool),
        Basic::Int => Ok(Basic::Int),
        Basic::Text => Ok(Basic::Text),
        Basic::Pair(first, second) => {
            let first = share(first)?;
            Ok(Basic::Pair(first, share(second)?))
        }
        Basic::List(item) => Ok(Basic::List(share(item)?)),
    }
}

/// An equal value, in the same memory.
pub fn copy_value(v: &Value) -> Result<Value, OutOfMemory>
    ensures copy { IfOk result (λ copy. value_term copy ≡ value_term v.now) }
    ensures immediate { IsImmediate (value_term v.now) → IsOk result }
{
    match v {
        Value::Unit => Ok(Value::Unit),
        Value::Bool(b) => Ok(Value::Bool(*b)),
        Value::Int(i) => Ok(Value::Int(*i)),
        Value::Text(text) => Ok(Value::Text(copy_text(text)?)),
        Value::Pair(first, second) => {
            let first = share(first)?;
            Ok(Value::Pair(first, share(second)?))
        }
        Value::List(items) => Ok(Value::List(items.copy()?)),
    }
}

/// Equal texts, in order.
pub fn copy_texts(alloc: Global, texts: &[TaskText]) -> Result<Row<TaskText>, OutOfMemory>
    ensures { IfOk result (λ copies. copies.list ≡ texts.now) }
{
    let mut copies = Row::new(alloc);
    copies.reserve(texts.len())?;
    for text in texts {
        copies.push(copy_text(text)?)?;
    }
    Ok(copies)
}

fn copy_slot(slot: &Slot) -> Result<Slot, OutOfMemory>
    ensures { IfOk result (λ copy. slot_term copy ≡ slot_term slot.now) }
{
    match slot {
        Slot::Plain(v) => Ok(Slot::Plain(copy_value(v)?)),
        Slot::Place(place) => Ok(Slot::Place(*place)),
    }
}

/// Equal slots, in order.
pub fn copy_slots(alloc: Global, slots: &[Slot]) -> Result<Row<Slot>, OutOfMemory>
    ensures { IfOk result (λ copies. map slot_term copies.list ≡ map slot_term slots.now) }
{
    let mut copies = Row::new(alloc);
    copies.reserve(slots.len())?;
    for slot in slots {
        copies.push(copy_slot(slot)?)?;
    }
    Ok(copies)
}
