ghost use Rattle.std.specs.Prelude.{◌≡◌, ◌+◌, map, IfOk};
ghost use Rattle.task_model.specs.Terms.Value.{value_term};
ghost use Rattle.task_model.specs.Terms.Tree.{cont_term, delay_term};
ghost use Rattle.task_model.specs.Running.Checked.{checked_term};
ghost use Rattle.task_model.specs.Running.Rules.{trial};
ghost use Rattle.task_model.specs.Running.Sign.{IsSign, IsSideSign, Test};
ghost use Rattle.task_engine.specs.Fitting.{ContFits, SideFits};
ghost use Rattle.task_engine.specs.TestAnswers.{TellsSign};

use crate::tree_rules::{side_fails, step_fails};
use shared_store::Store;
use std::sync::ledger::Ledger;
use task_evaluation::Engine;
use task_model::{Cont, Delay, OutOfMemory, Purse, Sign, Steps, Stop, Value};

/// The sign of a user step whose left has this value: Yes where its cont isn't failing at the value, No where it is, and Over
/// where neither shows within a purse of the budget. It counts a step, and the store stays.
pub fn test_next<L: Ledger>(
    engine: &Engine,
    k: &Cont,
    v: Value,
    store: &mut Store<Value>,
    budget: u32,
    steps: &mut Steps<L>,
) -> Result<Sign, OutOfMemory>
    requires fits { ContFits (checked_term engine.now) (cont_term k.now) (value_term v) (map value_term store.old.list) }
    ensures store { store.new ≡ store.old }
    ensures steps { steps.new ≡ steps.old + 1 }
    ensures sign { IfOk result
        (λ s. IsSign budget
        (Test (checked_term engine.now) (trial (checked_term engine.now) (cont_term k.now) (value_term v) (map value_term store.old.list)))
        s) }
{
    // The program of an engine is accepted.
    let _accepted = engine.checked().program();
    steps.tick();
    sign_of(step_fails(engine, k, v, store, &mut Purse::new(budget)))
}

/// The same of a side of an external choice.
pub fn test_side<L: Ledger>(
    engine: &Engine,
    k: &Delay,
    store: &mut Store<Value>,
    budget: u32,
    steps: &mut Steps<L>,
) -> Result<Sign, OutOfMemory>
    requires fits { SideFits (checked_term engine.now) (delay_term k.now) (map value_term store.old.list) }
    ensures store { store.new ≡ store.old }
    ensures steps { steps.new ≡ steps.old + 1 }
    ensures sign { IfOk result (λ s. IsSideSign (checked_term engine.now) budget (delay_term k.now) (map value_term store.old.list) s) }
{
    // The program of an engine is accepted.
    let _accepted = engine.checked().program();
    steps.tick();
    sign_of(side_fails(engine, k, store, &mut Purse::new(budget)))
}

// What a test tells.
fn sign_of(failing: Result<bool, Stop>) -> Result<Sign, OutOfMemory>
    ensures { TellsSign failing result }
{
    match failing {
        Ok(true) => Ok(Sign::No),
        Ok(false) => Ok(Sign::Yes),
        Err(Stop::Over) => Ok(Sign::Over),
        Err(Stop::Memory) => Err(OutOfMemory),
    }
}
