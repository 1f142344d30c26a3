ghost use Rattle.std.specs.Prelude.{◌≡◌, ◌+◌, ◌≤◌, map, IfOk, OnOk};
ghost use Rattle.task_model.specs.Terms.Value.{value_term};
ghost use Rattle.task_model.specs.Terms.Tree.{tree_term, at};
ghost use Rattle.task_model.specs.Running.Checked.{checked_term};
ghost use Rattle.task_model.specs.Checking.Fits.{Fits};
ghost use Rattle.task_model.specs.Showing.Widget.{shape_term};
ghost use Rattle.kept_rows.specs.Shapes.{IsShape};

use crate::signs::{choice_signs, step_sign};
use interface::{edit_shape, share_shape};
use shared_store::Store;
use std::sync::ledger::Ledger;
use task_evaluation::Engine;
use task_model::{OutOfMemory, Shape, Steps, Tree, Value, copy_basic};

/// What is shown of a node itself: a user step is tested at most once and an external choice twice, within the budget. The store stays.
pub(crate) fn shape_of<L: Ledger>(
    engine: &Engine,
    t: &Tree,
    store: &mut Store<Value>,
    budget: u32,
    steps: &mut Steps<L>,
) -> Result<Shape, OutOfMemory>
    requires fits { Fits (checked_term engine.now) (at (tree_term t.now) (map value_term store.old.list)) }
    ensures store { store.new ≡ store.old }
    ensures steps { OnOk result (steps.new ≤ steps.old + 2) }
    ensures shape { IfOk result (λ s. IsShape (checked_term engine.now) budget (tree_term t.now) (map value_term store.old.list)
        (shape_term s)) }
{
    match t {
        Tree::Edit(b, v) => edit_shape(b, v),
        Tree::Enter(b) => Ok(Shape::Enter(copy_basic(b)?)),
        Tree::Share(b, place) => share_shape(b, *place, &*store),
        Tree::Then(..) => Ok(Shape::Then),
        Tree::Next(left, k) => {
            let sign = step_sign(engine, left, k, store, budget, steps)?;
            Ok(Shape::Step(sign))
        }
        Tree::Fail => Ok(Shape::Fail),
        Tree::And(..) => Ok(Shape::And),
        Tree::Or(..) => Ok(Shape::Or),
        Tree::Xor(j, k) => {
            let (left, right) = choice_signs(engine, j, k, store, budget, steps)?;
            Ok(Shape::Pick(left, right))
        }
    }
}
