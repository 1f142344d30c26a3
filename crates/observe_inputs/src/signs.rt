ghost use Rattle.std.specs.Prelude.{◌≡◌, ◌+◌, map, IfOk, OnOk};
ghost use Rattle.task_model.specs.Terms.Value.{value_term};
ghost use Rattle.task_model.specs.Terms.Tree.{next_tree, cont_term, tree_term, at};
ghost use Rattle.task_model.specs.Running.Checked.{checked_term};
ghost use Rattle.task_model.specs.Checking.Fits.{Fits};
ghost use Rattle.task_model.specs.Running.Rules.{value_of};
ghost use Rattle.task_model.specs.Running.Sign.{IsStepSign};
ghost use Rattle.observe_inputs.specs.TestsIn.{step_tests};

use shared_store::Store;
use std::sync::ledger::Ledger;
use task_engine::test_next;
use task_evaluation::Engine;
use task_model::{Cont, OutOfMemory, Sign, Steps, Tree, Value};
use task_tree::value;

/// The sign of a user step: No where its left part has no value, and else that of its test.
pub(crate) fn step_sign<L: Ledger>(
    engine: &Engine,
    left: &Tree,
    k: &Cont,
    store: &mut Store<Value>,
    budget: u32,
    steps: &mut Steps<L>,
) -> Result<Sign, OutOfMemory>
    requires fits { Fits (checked_term engine.now) (at (next_tree (tree_term left.now) (cont_term k.now)) (map value_term store.old.list)) }
    ensures store { store.new ≡ store.old }
    ensures steps { OnOk result (steps.new ≡ steps.old + step_tests (value_of (tree_term left.now) (map value_term store.old.list))) }
    ensures sign { IfOk result (λ s. IsStepSign (checked_term engine.now) budget
        (value_of (tree_term left.now) (map value_term store.old.list)) (cont_term k.now) (map value_term store.old.list) s) }
{
    let Some(v) = value(engine.alloc(), left, store)? else {
        return Ok(Sign::No);
    };
    test_next(engine, k, v, store, budget, steps)
}
