ghost use Rattle.std.specs.Prelude.{◌≡◌, List, Some, IfOk};
ghost use Rattle.task_model.specs.Terms.Value.{ValueTerm};
ghost use Rattle.task_model.specs.Terms.Tree.{tree_term};
ghost use Rattle.task_laws.specs.TreePlaces.{HasPlaces};
ghost use Rattle.kept_nodes.specs.Changed.{AreChanges};
ghost use Rattle.kept_nodes.specs.Along.{ChangesNoValue, DiffersAlong};
ghost use Rattle.kept_nodes.specs.KeptMarks.{TellsKept};

use crate::changed::Changed;
use crate::marks::Marks;
use crate::parts::{Parts, parts_of};
use crate::walk::kept;
use std::alloc::Global;
use task_laws::foot_is_in_order;
use task_model::{OutOfMemory, Tree, Turn};

/// What is kept of a tree that differs from another one along a path alone, where these places of the store changed since then. Where no place
/// that was there has another value, all beside the path is kept: only the nodes of the path, and all that stands behind its last turn, are looked at.
pub fn kept_along(
    alloc: Global,
    old: &Tree,
    new: &Tree,
    path: &[Turn],
    changed: &Changed,
) -> Result<Marks, OutOfMemory>
    requires { DiffersAlong path.now (tree_term old.now) (tree_term new.now) }
    ensures { IfOk result (λ m. (σ τ : List ValueTerm) → AreChanges σ τ changed.now → HasPlaces σ (tree_term old.now)
        → TellsKept σ τ (Some (tree_term old.now)) (tree_term new.now) m) }
{
    if changed.is_none() {
        marks_along(alloc, old, new, path, changed)
    } else {
        kept(alloc, Some(old), new, changed)
    }
}

// The same where no place that was there has another value. Behind the last turn the path may go on through steps, so all that is left there is looked at.
fn marks_along(
    alloc: Global,
    old: &Tree,
    new: &Tree,
    path: &[Turn],
    changed: &Changed,
) -> Result<Marks, OutOfMemory>
    requires none { ChangesNoValue changed.now }
    requires along { DiffersAlong path.now (tree_term old.now) (tree_term new.now) }
    ensures { IfOk result (λ m. (σ τ : List ValueTerm) → AreChanges σ τ changed.now → HasPlaces σ (tree_term old.now)
        → TellsKept σ τ (Some (tree_term old.now)) (tree_term new.now) m) }
{
    let Some((turn, rest)) = path.split_first() else {
        return kept(alloc, Some(old), new, changed);
    };
    foot_is_in_order();
    match (turn, parts_of(old), parts_of(new)) {
        (_, Parts::Step(was), Parts::Step(left)) => {
            let part = marks_along(alloc, was, left, path, changed)?;
            Marks::of_step(alloc, true, part)
        }
        (Turn::First, Parts::Pair(was, _), Parts::Pair(part, _)) => {
            let first = marks_along(alloc, was, part, rest, changed)?;
            Marks::of_pair(alloc, true, first, Marks::Whole)
        }
        (Turn::Second, Parts::Pair(_, was), Parts::Pair(_, part)) => {
            let second = marks_along(alloc, was, part, rest, changed)?;
            Marks::of_pair(alloc, true, Marks::Whole, second)
        }
        _ => unreachable!(),
    }
}
