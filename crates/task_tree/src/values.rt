ghost use Rattle.std.specs.Prelude.{◌≡◌, slice_get, IfOk, IsOk};
ghost use Rattle.std.specs.Option.{is_some, option_map};
ghost use Rattle.task_model.specs.Terms.Basic.{BasicTerm};
ghost use Rattle.task_model.specs.Terms.Value as terms;
ghost use Rattle.task_model.specs.Terms.Value.{ValueTerm, value_term, IsImmediate};
ghost use Rattle.task_model.specs.Terms.Tree.{tree_term, edit_tree};
ghost use Rattle.task_model.specs.Running.Rules as rules;

use std::alloc::Global;
use task_model::{OutOfMemory, Reads, Tree, Value, copy_value, shared};

/// Whether a tree has a value over a store. It takes no memory.
pub fn has_value<R: Reads>(t: &Tree, store: &R) -> bool
    ensures { result ≡ is_some (rules.value_of (tree_term t.now) (R.values store.now)) }
{
    match t {
        Tree::Edit(..) => true,
        Tree::Share(_, place) => *place < store.count(),
        Tree::And(a, b) => has_value(a, store) && has_value(b, store),
        Tree::Or(a, b) => has_value(a, store) || has_value(b, store),
        Tree::Enter(_) => false,
        Tree::Then(..) => false,
        Tree::Next(..) => false,
        Tree::Fail => false,
        Tree::Xor(..) => false,
    }
}

/// The value that a tree has over a store. Its parts are shared, so only pairs take memory, and an editor of unit, bool or int
/// always has one.
pub fn value<R: Reads>(alloc: Global, t: &Tree, store: &R) -> Result<Option<Value>, OutOfMemory>
    ensures value { IfOk result (λ v. option_map value_term v ≡ rules.value_of (tree_term t.now) (R.values store.now)) }
    ensures immediate { (b : BasicTerm) (v : ValueTerm) → tree_term t.now ≡ edit_tree b v → IsImmediate v → IsOk result }
{
    match t {
        Tree::Edit(_, v) => Ok(Some(copy_value(v)?)),
        Tree::Share(_, place) => value_at(*place, store),
        Tree::And(a, b) => {
            let Some(v) = value(alloc, a, store)? else {
                return Ok(None);
            };
            let Some(w) = value(alloc, b, store)? else {
                return Ok(None);
            };
            Ok(Some(pair(alloc, v, w)?))
        }
        Tree::Or(a, b) => {
            if let Some(v) = value(alloc, a, store)? {
                return Ok(Some(v));
            }
            value(alloc, b, store)
        }
        Tree::Enter(_) => Ok(None),
        Tree::Then(..) => Ok(None),
        Tree::Next(..) => Ok(None),
        Tree::Fail => Ok(None),
        Tree::Xor(..) => Ok(None),
    }
}

fn value_at<R: Reads>(place: u64, store: &R) -> Result<Option<Value>, OutOfMemory>
    ensures { IfOk result (λ v. option_map value_term v ≡ slice_get (R.values store.now) place) }
{
    if place < store.count() {
        Ok(Some(copy_value(store.at(place))?))
    } else {
        Ok(None)
    }
}

fn pair(alloc: Global, v: Value, w: Value) -> Result<Value, OutOfMemory>
    ensures { IfOk result (λ p. value_term p ≡ terms.pair_value (value_term v) (value_term w)) }
{
    let v = shared(alloc, v)?;
    Ok(Value::Pair(v, shared(alloc, w)?))
}
