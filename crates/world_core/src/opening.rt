ghost use Rattle.std.specs.Prelude.{◌≡◌, [], ◌∷◌, map, IfOk, IfErr};
ghost use Rattle.task_model.specs.Terms.Value.{value_term};
ghost use Rattle.task_model.specs.Terms.Task.{task_term, call_task};
ghost use Rattle.task_model.specs.Terms.Tree.{tree_term, State, at};
ghost use Rattle.task_model.specs.Terms.Item.{opened, history_term};
ghost use Rattle.task_model.specs.Running.Checked.{checked_term};
ghost use Rattle.task_model.specs.Terms.Program.{main_name};
ghost use Rattle.task_model.specs.Running.State.{IsOpening};
ghost use Rattle.live_tree.specs.Live.{IsLive, QuietAsTold};

use crate::answers::OpenStop;
use host_eval::Names;
use live_tree::LiveTree;
use shared_store::Store;
use std::alloc::Global;
use task_engine::normalise;
use task_evaluation::Engine;
use task_model::{Checked, Item, OutOfMemory, Purse, Row, Stop, Task, TaskText, Value};

/// The history at the opening. It shares the program.
pub(crate) fn opened_history(
    alloc: Global,
    c: &Checked,
    budget: u32,
) -> Result<Row<Item>, OutOfMemory>
    ensures { IfOk result (λ row. history_term row.list ≡ opened (checked_term c.now).program budget ∷ []) }
{
    let program = c.share_program()?;
    let mut history = Row::new(alloc);
    history.push(Item::Opened { program, budget })?;
    Ok(history)
}

/// The tree at the opening: `main()`, evaluated and settled within the budget, with its effects on the empty store.
pub(crate) fn opened_tree(
    engine: &Engine,
    budget: u32,
    store: &mut Store<Value>,
) -> Result<LiveTree, OpenStop>
    requires { store.old.list ≡ [] }
    ensures layers { store.new.layers ≡ store.old.layers }
    ensures ok { IfOk result (λ live. IsOpening (checked_term engine.now) budget
        (at (tree_term live.tree) (map value_term store.new.list))) }
    ensures rows { IfOk result (λ live. IsLive (checked_term engine.now) budget (map value_term store.new.list) live) }
    ensures quiet { IfOk result (QuietAsTold (map value_term store.new.list)) }
    ensures over { IfErr result (λ stop. stop ≡ OpenStop.Over → (s : State) → IsOpening (checked_term engine.now) budget s → ⊥) }
{
    let call = call_of_main(engine.alloc())?;
    evaluated(engine, &call, budget, store)
}

fn call_of_main(alloc: Global) -> Result<Task, OutOfMemory>
    ensures { IfOk result (λ t. task_term t ≡ call_task main_name []) }
{
    let name = TaskText::of(alloc, "main")?;
    Ok(Task::Call {
        name,
        args: Row::new(alloc),
    })
}

fn evaluated(
    engine: &Engine,
    call: &Task,
    budget: u32,
    store: &mut Store<Value>,
) -> Result<LiveTree, OpenStop>
    requires empty { store.old.list ≡ [] }
    requires main { task_term call.now ≡ call_task main_name [] }
    ensures layers { store.new.layers ≡ store.old.layers }
    ensures ok { IfOk result (λ live. IsOpening (checked_term engine.now) budget
        (at (tree_term live.tree) (map value_term store.new.list))) }
    ensures rows { IfOk result (λ live. IsLive (checked_term engine.now) budget (map value_term store.new.list) live) }
    ensures quiet { IfOk result (QuietAsTold (map value_term store.new.list)) }
    ensures over { IfErr result (λ stop. stop ≡ OpenStop.Over → (s : State) → IsOpening (checked_term engine.now) budget s → ⊥) }
{
    // The program of an engine is accepted.
    let _accepted = engine.checked().program();
    let names = Names::of_params(&[], &[], 0);
    match normalise(engine, call, &names, store, &mut Purse::new(budget)) {
        Ok(tree) => Ok(LiveTree::of(tree)),
        Err(Stop::Over) => Err(OpenStop::Over),
        Err(Stop::Memory) => Err(OpenStop::Memory),
    }
}
