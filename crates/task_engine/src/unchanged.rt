ghost use Rattle.std.specs.Prelude.{◌≡◌, ◌↔◌, ◌<◌, List, map, length, slice_get, IfOk, IsTrue, Some, nat_eq};
ghost use Rattle.std.specs.HashSet.{contains};
ghost use Rattle.task_model.specs.Terms.Value.{value_term};
ghost use Rattle.task_model.specs.declared.value.Value.{Value};
ghost use Rattle.shared_store.specs.Log.{rewound};
ghost use Rattle.task_engine.specs.Writes.{IsAsBefore, IsRight};

use shared_store::{Overwritten, Store};
use std::alloc::Global;
use std::collections::HashSet;
use task_model::{OutOfMemory, Value, same_value};

/// Whether the values are those of the newest layer. It looks at each write of the layer once.
pub(crate) fn is_unchanged(alloc: Global, store: &Store<Value>) -> Result<bool, OutOfMemory>
    requires { 0 < length store.now.layers }
    ensures { IfOk result (λ same. (σ : List Value) → slice_get store.now.layers 0 ≡ Some σ → IsTrue same
        ↔ (map value_term store.now.list ≡ map value_term σ)) }
{
    let changes = store.changes();
    let values = store.as_slice();
    if changes.count != values.len() as u64 {
        return Ok(false);
    }
    are_as_before(alloc, changes.overwritten, values)
}

// Whether the values are as before these were overwritten: of each place the first one tells.
fn are_as_before(
    alloc: Global,
    overwritten: &[Overwritten<Value>],
    values: &[Value],
) -> Result<bool, OutOfMemory>
    ensures { IfOk result (λ same. IsTrue same
        ↔ (map value_term (rewound overwritten.now values.now) ≡ map value_term values.now)) }
{
    let mut told = HashSet::new(alloc);
    let mut i = 0;
    while i < overwritten.len() {
        let entry = &overwritten[i];
        if !is_right(entry, &told, values) {
            return Ok(false);
        }
        told.insert(entry.place)?;
        i += 1;
    }
    Ok(true)
}

// Whether an entry tells nothing new: an earlier one told of its place, or its value stands there.
fn is_right(entry: &Overwritten<Value>, told: &HashSet<usize>, values: &[Value]) -> bool
    ensures { IsTrue result ↔ IsRight entry.now (contains nat_eq told.now entry.now.place) values.now }
{
    if is_as_before(entry, values) {
        return true;
    }
    told.contains(&entry.place)
}

fn is_as_before(entry: &Overwritten<Value>, values: &[Value]) -> bool
    ensures { IsTrue result ↔ IsAsBefore entry.now values.now }
{
    match values.get(entry.place) {
        Some(v) => same_value(v, &entry.value),
        None => true,
    }
}
