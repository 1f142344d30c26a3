ghost use Rattle.std.specs.Prelude.{◌≡◌, true, map};
ghost use Rattle.task_model.specs.Terms.Basic.{basic_term};
ghost use Rattle.task_model.specs.Terms.Value.{value_term, as_values};
ghost use Rattle.task_model.specs.Terms.Held.{IsHeld, AreHeld};
ghost use Rattle.task_model.specs.Terms.Value as values;

use crate::basic::Basic;
use crate::limits::{LIST_ELEMENT_LIMIT, TEXT_BYTE_LIMIT};
use crate::value::Value;

/// Whether a value has a type. It takes no memory.
#[cycle(has)]
pub fn value_has(v: &Value, b: &Basic) -> bool
    ensures has { result ≡ values.value_has (value_term v.now) (basic_term b.now) }
    ensures held { result ≡ true → IsHeld (value_term v.now) }
{
    match (v, b) {
        (Value::Unit, Basic::Unit) => true,
        (Value::Bool(_), Basic::Bool) => true,
        (Value::Int(i), Basic::Int) => {
            // It is read, which shows that it has 64 bits.
            let _bits = *i;
            true
        }
        (Value::Text(text), Basic::Text) => text.as_str().len() <= TEXT_BYTE_LIMIT,
        (Value::Pair(first, second), Basic::Pair(a, b)) => {
            value_has(first, a) && value_has(second, b)
        }
        (Value::List(items), Basic::List(item)) => {
            let items = items.as_slice();
            items.len() <= LIST_ELEMENT_LIMIT && values_have(items, item)
        }
        _ => false,
    }
}

// Whether each of these values has a type.
#[cycle(has)]
fn values_have(items: &[Value], b: &Basic) -> bool
    ensures has { result ≡ values.values_have (as_values (map value_term items.now)) (basic_term b.now) }
    ensures held { result ≡ true → AreHeld (as_values (map value_term items.now)) }
{
    for item in items {
        if !value_has(item, b) {
            return false;
        }
    }
    true
}
