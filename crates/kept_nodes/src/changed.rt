ghost use Rattle.std.specs.Prelude.{◌≡◌, ◌↔◌, ℕ, ◌<◌, false, List, map, length, slice_get, IfOk, IsTrue, Some, nat_eq};
ghost use Rattle.std.specs.HashSet.{contains};
ghost use Rattle.task_model.specs.Terms.Value.{value_term};
ghost use Rattle.task_model.specs.declared.value.Value.{Value};
ghost use Rattle.shared_store.specs.Log.{rewound};
ghost use Rattle.kept_nodes.specs.Changed.{AreChanges, is_changed};
ghost use Rattle.kept_nodes.specs.Along.{ChangesNoValue};
ghost use Rattle.kept_nodes.specs.There.{IsThere};

use shared_store::{Overwritten, Store};
use std::alloc::Global;
use std::collections::HashSet;
use task_model::{OutOfMemory, Value, same_value};

/// Which places of the store have another value than in an earlier list, and how many places that one has.
#[derive(Drop)]
pub struct Changed {
    count_before: u64,
    places: HashSet<u64>,
}

impl Changed {
    /// Whether it tells of no place that it has another value.
    pub(crate) fn is_none(&self) -> bool
        ensures { IsTrue result ↔ ChangesNoValue self.now }
    {
        self.places.is_empty()
    }

    /// Whether a place is new or has another value.
    pub(crate) fn has(&self, place: u64) -> bool
        ensures { result ≡ is_changed self.now place }
    {
        self.count_before <= place || self.places.contains(&place)
    }
}

/// What differs between the list of the newest layer and the present one. It looks at each write of the layer once.
pub fn changed_places(alloc: Global, store: &Store<Value>) -> Result<Changed, OutOfMemory>
    requires { 0 < length store.now.layers }
    ensures { IfOk result (λ c. (σ : List Value) → slice_get store.now.layers 0 ≡ Some σ
        → AreChanges (map value_term σ) (map value_term store.now.list) c) }
{
    let changes = store.changes();
    let values = store.as_slice();
    let count = changes.count as usize;
    let places = overwritten_places(alloc, changes.overwritten, &values[..count])?;
    Ok(Changed {
        count_before: changes.count,
        places,
    })
}

// The places where the values differ from those before these were overwritten. The last write is looked at first, so that of each place
// the first one decides.
fn overwritten_places(
    alloc: Global,
    overwritten: &[Overwritten<Value>],
    values: &[Value],
) -> Result<HashSet<u64>, OutOfMemory>
    ensures { IfOk result (λ places. (n : ℕ) → (contains nat_eq places n ≡ false)
        ↔ (slice_get (map value_term (rewound overwritten.now values.now)) n ≡ slice_get (map value_term values.now) n)) }
{
    let mut places = HashSet::new(alloc);
    let mut i = overwritten.len();
    while i > 0 {
        i -= 1;
        let entry = &overwritten[i];
        if is_there(entry, values) {
            places.remove(&(entry.place as u64));
        } else {
            places.insert(entry.place as u64)?;
        }
    }
    Ok(places)
}

// Whether an overwritten value stands at its place again, or there is no such place.
fn is_there(entry: &Overwritten<Value>, values: &[Value]) -> bool
    ensures { IsTrue result ↔ IsThere entry.now values.now }
{
    match values.get(entry.place) {
        Some(v) => same_value(v, &entry.value),
        None => true,
    }
}
