ghost use Rattle.std.specs.Prelude.{◌≡◌, ◌↔◌, IsTrue, map};
ghost use Rattle.task_model.specs.Terms.Basic.{basic_term};
ghost use Rattle.task_model.specs.Terms.Value.{value_term};

use crate::basic::Basic;
use crate::value::Value;

/// Whether two types are the same. It stops at the first difference, and takes no memory.
pub fn same_basic(a: &Basic, b: &Basic) -> bool
    ensures { IsTrue result ↔ (basic_term a.now ≡ basic_term b.now) }
{
    match (a, b) {
        (Basic::Unit, Basic::Unit) => true,
        (Basic::Bool, Basic::Bool) => true,
        (Basic::Int, Basic::Int) => true,
        (Basic::Text, Basic::Text) => true,
        (Basic::Pair(a, b), Basic::Pair(c, d)) => same_basic(a, c) && same_basic(b, d),
        (Basic::List(a), Basic::List(b)) => same_basic(a, b),
        _ => false,
    }
}

/// Whether two values are equal. It stops at the first difference, and takes no memory.
#[cycle(same)]
pub fn same_value(a: &Value, b: &Value) -> bool
    ensures { IsTrue result ↔ (value_term a.now ≡ value_term b.now) }
{
    match (a, b) {
        (Value::Unit, Value::Unit) => true,
        (Value::Bool(x), Value::Bool(y)) => x == y,
        (Value::Int(x), Value::Int(y)) => x == y,
        (Value::Text(x), Value::Text(y)) => x.as_str() == y.as_str(),
        (Value::Pair(a, b), Value::Pair(c, d)) => same_value(a, c) && same_value(b, d),
        (Value::List(xs), Value::List(ys)) => same_values(xs.as_slice(), ys.as_slice()),
        _ => false,
    }
}

// Whether two lists have equal values, one by one.
#[cycle(same)]
fn same_values(xs: &[Value], ys: &[Value]) -> bool
    ensures { IsTrue result ↔ (map value_term xs.now ≡ map value_term ys.now) }
{
    if xs.len() != ys.len() {
        return false;
    }
    for (i, x) in xs.iter().enumerate() {
        if !same_value(x, &ys[i]) {
            return false;
        }
    }
    true
}
