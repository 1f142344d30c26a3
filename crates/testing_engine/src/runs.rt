//! The calls of the engine, at states that fit: what they lead to fits, too.
ghost use Rattle.std.specs.Prelude.{◌≡◌, [], map, IfOk, IfSome};
ghost use Rattle.task_model.specs.Terms.Value.{value_term};
ghost use Rattle.task_model.specs.Terms.Env.{empty_env};
ghost use Rattle.task_model.specs.Terms.Task.{task_term, call_task};
ghost use Rattle.task_model.specs.Terms.Tree.{cont_term, tree_term, at};
ghost use Rattle.task_model.specs.Running.Checked.{checked_term};
ghost use Rattle.task_model.specs.Checking.Fits.{Fits};
ghost use Rattle.task_model.specs.Running.Plan.{normal};
ghost use Rattle.task_model.specs.Terms.Program.{main_name};
ghost use Rattle.typing_laws.specs.Well.{MayAsk};
ghost use Rattle.host_eval.specs.NamesTerm.{names_term};
ghost use Rattle.task_engine.specs.Fitting.{ContFits};

use crate::parts::step_in;
use host_eval::Names;
use shared_store::Store;
use std::alloc::Global;
use task_engine::{apply, normalise, settle, stride};
use task_evaluation::{Engine, evaluate};
use task_model::{
    Checked, Cont, DefBody, OutOfMemory, Purse, Row, Stop, Task, TaskText, Tree, Value, copy_value,
    value_has,
};

/// The task of the first definition, where it has no parameters.
pub(crate) fn first_task(checked: &Checked) -> Option<&Task>
    ensures { IfSome result (λ t. MayAsk (checked_term checked.now) (normal (task_term t.now) empty_env [])) }
{
    match checked.program().defs.as_slice() {
        [] => None,
        [def, ..] => match def.params.as_slice() {
            [] => match &def.what {
                DefBody::Fun(_) => None,
                DefBody::Task(t) => Some(t),
            },
            _ => None,
        },
    }
}

pub(crate) fn call_of_main(alloc: Global) -> Result<Task, OutOfMemory>
    ensures { IfOk result (λ t. task_term t ≡ call_task main_name []) }
{
    let name = TaskText::of(alloc, "main")?;
    Ok(Task::Call {
        name,
        args: Row::new(alloc),
    })
}

/// A task is evaluated, and normalised where that is asked for.
pub(crate) fn started(
    engine: &Engine,
    is_normal: bool,
    t: &Task,
    names: &Names,
    store: &mut Store<Value>,
    purse: &mut Purse,
) -> Result<Tree, Stop>
    requires { MayAsk (checked_term engine.now) (normal (task_term t.now) (names_term names.now) (map value_term store.old.list)) }
    ensures { IfOk result (λ u. Fits (checked_term engine.now) (at (tree_term u) (map value_term store.new.list))) }
{
    // The program of an engine is accepted.
    let _accepted = engine.checked().program();
    if is_normal {
        normalise(engine, t, names, store, purse)
    } else {
        evaluate(engine, t, names, store, purse)
    }
}

pub(crate) fn main_started(
    engine: &Engine,
    is_normal: bool,
    store: &mut Store<Value>,
    purse: &mut Purse,
) -> Result<Tree, Stop>
    requires { store.old.list ≡ [] }
    ensures { IfOk result (λ u. Fits (checked_term engine.now) (at (tree_term u) (map value_term store.new.list))) }
{
    // The program of an engine is accepted.
    let _accepted = engine.checked().program();
    let call = call_of_main(engine.alloc())?;
    let names = Names::of_params(&[], &[], 0);
    started(engine, is_normal, &call, &names, store, purse)
}

pub(crate) fn first_started(
    engine: &Engine,
    is_normal: bool,
    store: &mut Store<Value>,
    purse: &mut Purse,
) -> Option<Result<Tree, Stop>>
    requires { store.old.list ≡ [] }
    ensures { IfSome result (λ r. IfOk r (λ u. Fits (checked_term engine.now) (at (tree_term u) (map value_term store.new.list)))) }
{
    match first_task(engine.checked()) {
        None => None,
        Some(t) => {
            let names = Names::of_params(&[], &[], 0);
            Some(started(engine, is_normal, t, &names, store, purse))
        }
    }
}

pub(crate) fn strode(
    engine: &Engine,
    t: Tree,
    store: &mut Store<Value>,
    purse: &mut Purse,
) -> Result<Tree, Stop>
    requires { Fits (checked_term engine.now) (at (tree_term t) (map value_term store.old.list)) }
    ensures { IfOk result (λ u. Fits (checked_term engine.now) (at (tree_term u) (map value_term store.new.list))) }
{
    // The program of an engine is accepted.
    let _accepted = engine.checked().program();
    match stride(engine, &t, store, purse) {
        Ok(Some(u)) => Ok(u),
        Ok(None) => Ok(t),
        Err(stop) => Err(stop),
    }
}

pub(crate) fn settled(
    engine: &Engine,
    t: Tree,
    store: &mut Store<Value>,
    purse: &mut Purse,
) -> Result<Tree, Stop>
    requires { Fits (checked_term engine.now) (at (tree_term t) (map value_term store.old.list)) }
    ensures { IfOk result (λ u. Fits (checked_term engine.now) (at (tree_term u) (map value_term store.new.list))) }
{
    // The program of an engine is accepted.
    let _accepted = engine.checked().program();
    settle(engine, t, store, purse)
}

fn applied(
    engine: &Engine,
    k: &Cont,
    v: Value,
    store: &mut Store<Value>,
    purse: &mut Purse,
) -> Result<Tree, Stop>
    requires { ContFits (checked_term engine.now) (cont_term k.now) (value_term v) (map value_term store.old.list) }
    ensures { IfOk result (λ u. Fits (checked_term engine.now) (at (tree_term u) (map value_term store.new.list))) }
{
    // The program of an engine is accepted.
    let _accepted = engine.checked().program();
    apply(engine, k, v, store, purse)
}

/// The cont of the first step of a tree whose left part is an editor, applied to a copy of a value. None where there is no such step, the
/// value has another type, or there is no memory for the copy.
pub(crate) fn first_applied(
    engine: &Engine,
    t: &Tree,
    v: &Value,
    store: &mut Store<Value>,
    purse: &mut Purse,
) -> Option<Result<Tree, Stop>>
    requires { Fits (checked_term engine.now) (at (tree_term t.now) (map value_term store.old.list)) }
    ensures { IfSome result (λ r. IfOk r (λ u. Fits (checked_term engine.now) (at (tree_term u) (map value_term store.new.list)))) }
{
    let step = step_in(t)?;
    let v = copy_value(v).ok()?;
    if !value_has(&v, step.takes) {
        return None;
    }
    Some(applied(engine, step.cont, v, store, purse))
}
