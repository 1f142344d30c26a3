ghost use Rattle.std.specs.Prelude.{List, IfOk};
ghost use Rattle.std.specs.Option.{option_map};
ghost use Rattle.task_model.specs.Terms.Value.{ValueTerm};
ghost use Rattle.task_model.specs.Terms.Tree.{tree_term};
ghost use Rattle.kept_nodes.specs.Changed.{AreChanges};
ghost use Rattle.kept_nodes.specs.KeptMarks.{TellsKept};

use crate::alone::stays_alone;
use crate::changed::Changed;
use crate::marks::Marks;
use crate::parts::{Parts, first_part, left_part, parts_of, second_part};
use std::alloc::Global;
use task_laws::foot_is_in_order;
use task_model::{OutOfMemory, Tree};

/// What is kept of a tree, where another one or none stood in its place and these places of the store changed since then. It goes down both
/// at once and compares each node once.
pub fn kept(
    alloc: Global,
    old: Option<&Tree>,
    new: &Tree,
    changed: &Changed,
) -> Result<Marks, OutOfMemory>
    ensures { IfOk result (λ m. (σ τ : List ValueTerm) → AreChanges σ τ changed.now
        → TellsKept σ τ (option_map (λ t. tree_term t.now) old.entry) (tree_term new.now) m) }
{
    let Some(there) = old else {
        return Ok(Marks::Bare);
    };
    foot_is_in_order();
    let stays = stays_alone(there, new, changed);
    match parts_of(new) {
        Parts::Leaf => Ok(if stays { Marks::Whole } else { Marks::Bare }),
        Parts::Step(left) => {
            let part = kept(alloc, left_part(old), left, changed)?;
            Marks::of_step(alloc, stays, part)
        }
        Parts::Pair(a, b) => {
            let first = kept(alloc, first_part(old), a, changed)?;
            let second = kept(alloc, second_part(old), b, changed)?;
            Marks::of_pair(alloc, stays, first, second)
        }
    }
}
