ghost use Rattle.std.specs.Prelude.{◌≡◌, ◌-◌, ◌≤◌, [], length, map, slice_get, IfOk, IsSome, OnOk, Some};
ghost use Rattle.task_model.specs.Terms.Value.{value_term};
ghost use Rattle.task_model.specs.Terms.Env.{slot_term};
ghost use Rattle.task_model.specs.Terms.Host.{host_term};
ghost use Rattle.task_model.specs.Terms.Program.{param_term};
ghost use Rattle.task_model.specs.Terms.Task as tasks;
ghost use Rattle.task_model.specs.Terms.Task.{task_term};
ghost use Rattle.task_model.specs.Terms.Tree.{tree_term, at};
ghost use Rattle.task_model.specs.Checking.Accepted.{IsAccepted};
ghost use Rattle.task_model.specs.Running.Checked.{checked_term};
ghost use Rattle.task_model.specs.Running.Plan.{gives_value, evaluates};
ghost use Rattle.task_model.specs.Running.Rules.{evaluate_rule, later_by, slots_for};
ghost use Rattle.task_model.specs.Running.Judgements.{Evaluates};
ghost use Rattle.task_model.specs.Running.Spends.{Spends};
ghost use Rattle.task_model.specs.Syntax.Calls.{RunsJudgement, RunsPlan};
ghost use Rattle.typing_laws.specs.Well.{MayAsk, Well};
ghost use Rattle.host_eval.specs.NamesTerm.{IsPaired, names_term};
ghost use Rattle.task_evaluation.specs.Called.{task_call_plan, seen_callee};
ghost use Rattle.task_evaluation.specs.FirstParts.{parts_at};
ghost use Rattle.task_evaluation.specs.Kinds.{step_task, pair_task};
ghost use Rattle.task_evaluation.specs.Steps.{share_tree_at};
ghost use Rattle.task_evaluation.specs.Stores.{values_in, state_in, MayEvaluate, RunsEvaluation};

use crate::callee::Callee;
use crate::engine::Engine;
use crate::first_part::FirstPart;
use crate::kept::{enter_tree, paired, step_later, xor_later};
use crate::kinds::StepKind::{Next, Then};
use crate::kinds::{PairKind, StepKind};
use crate::two_parts::TwoParts;
use host_eval::{HeadAndTail, Names, place_named, slots_at, truth, value_at};
use shared_store::Store;
use task_model::{Host, OutOfMemory, Param, Purse, Row, Slot, Stop, Task, TaskText, Tree, Value};

/// The tree of a task, with the task's effects on the store. `Over` comes where no derivation is within the purse. After a
/// stop the layers stand as before.
pub fn evaluate(
    engine: &Engine,
    t: &Task,
    names: &Names,
    store: &mut Store<Value>,
    purse: &mut Purse,
) -> Result<Tree, Stop>
    requires may { MayAsk (checked_term engine.now) (evaluates (task_term t.now) (names_term names.now) (map value_term store.old.list)) }
    ensures layers { store.new.layers ≡ store.old.layers }
    ensures spends { Spends (Evaluates (checked_term engine.now) (task_term t.now) (names_term names.now) (map value_term store.old.list))
        (λ u. at (tree_term u) (map value_term store.new.list)) purse.old purse.new result }
{
    // The program of an engine is accepted.
    let _accepted = engine.checked().program();
    let parts = engine.parts_of(t)?;
    evaluate_at(engine, t, parts.as_slice(), names, store, purse)
}

/// The same where the first parts in the task are at hand. The purse has its height again where it succeeds.
#[cycle(evaluate)]
pub fn evaluate_at(
    engine: &Engine,
    t: &Task,
    parts: &[FirstPart],
    names: &Names,
    store: &mut Store<Value>,
    purse: &mut Purse,
) -> Result<Tree, Stop>
    requires accepted { IsAccepted (checked_term engine.now) }
    requires may { MayEvaluate engine.now (task_term t.now) names.now store.old }
    requires parts { parts.now ≡ parts_at engine.now (task_term t.now) }
    ensures height { OnOk result (purse.new.height ≡ purse.old.height) }
    ensures layers { store.new.layers ≡ store.old.layers }
    ensures asked { RunsJudgement (checked_term engine.now) (evaluates (task_term t.now) (names_term names.now) (values_in store.old))
        (state_in store.new) purse.old purse.new result }
{
    let height = purse.height_left();
    purse.enter()?;
    let u = evaluate_form(engine, t, parts, names, store, purse)?;
    purse.leave(height);
    Ok(u)
}

// One form, under its rule.
#[cycle(evaluate)]
fn evaluate_form(
    engine: &Engine,
    t: &Task,
    parts: &[FirstPart],
    names: &Names,
    store: &mut Store<Value>,
    purse: &mut Purse,
) -> Result<Tree, Stop>
    requires accepted { IsAccepted (checked_term engine.now) }
    requires may { MayEvaluate engine.now (task_term t.now) names.now store.old }
    requires parts { parts.now ≡ parts_at engine.now (task_term t.now) }
    ensures height { OnOk result (purse.new.height ≡ purse.old.height) }
    ensures layers { store.new.layers ≡ store.old.layers }
    ensures ran { RunsEvaluation engine.now (task_term t.now) names.now store.old store.new purse.old purse.new result }
{
    match t {
        Task::Edit(e) => edit_form(engine, e, names, store, purse),
        Task::Enter(b) => Ok(enter_tree(b)?),
        Task::Share(name) => Ok(share_form(engine, name, names)?),
        Task::Fail(_) => Ok(Tree::Fail),
        Task::Call { name, args } => {
            call_form(engine, name, args.as_slice(), names, store, purse)
        }
        Task::Then { left, body } => {
            step_form(engine, Then, left, *body, parts, names, store, purse)
        }
        Task::Next { left, body } => {
            step_form(engine, Next, left, *body, parts, names, store, purse)
        }
        Task::And(a, b) => pair_form(engine, PairKind::And, a, b, parts, names, store, purse),
        Task::Or(a, b) => pair_form(engine, PairKind::Or, a, b, parts, names, store, purse),
        Task::Xor { left, right } => Ok(xor_later(engine.alloc(), *left, *right, names)?),
        Task::Let { name, bound, rest } => let_form(
            engine, name, bound, rest, parts, names, store, purse,
        ),
        Task::If { test, yes, no } => if_form(engine, test, yes, no, parts, names, store, purse),
        Task::Case {
            list,
            empty,
            head,
            tail,
            more,
        } => case_form(
            engine, list, empty, head, tail, more, parts, names, store, purse,
        ),
        Task::New { name, init, rest } => new_form(
            engine, name, init, rest, parts, names, store, purse,
        ),
        Task::Put { name, value, rest } => put_form(
            engine, name, value, rest, parts, names, store, purse,
        ),
    }
}

// The value of an expression.
fn host_value(
    engine: &Engine,
    e: &Host,
    names: &Names,
    store: &Store<Value>,
    purse: &mut Purse,
) -> Result<Value, Stop>
    requires accepted { IsAccepted (checked_term engine.now) }
    requires may { MayAsk (checked_term engine.now) (gives_value (host_term e.now) (names_term names.now) (values_in store.now)) }
    ensures height { OnOk result (purse.new.height ≡ purse.old.height) }
    ensures asked { RunsJudgement (checked_term engine.now) (gives_value (host_term e.now) (names_term names.now) (values_in store.now))
        value_term purse.old purse.new result }
{
    value_at(engine.alloc(), engine.definitions(), e, names, store, purse)
}

// The slots of arguments.
fn argument_slots(
    engine: &Engine,
    args: &[Host],
    params: &[Param],
    names: &Names,
    store: &Store<Value>,
    purse: &mut Purse,
) -> Result<Row<Slot>, Stop>
    requires accepted { IsAccepted (checked_term engine.now) }
    requires well { Well (checked_term engine.now)
        (slots_for (names_term names.now) (values_in store.now) [] (map host_term args.now) (map param_term params.now)) }
    requires paired { IsPaired (names_term names.now) }
    ensures height { OnOk result (purse.new.height ≡ purse.old.height) }
    ensures ran { RunsPlan (checked_term engine.now)
        (slots_for (names_term names.now) (values_in store.now) [] (map host_term args.now) (map param_term params.now))
        (λ r. map slot_term r.list) purse.old purse.new result }
{
    slots_at(
        engine.alloc(),
        engine.definitions(),
        args,
        params,
        names,
        store,
        purse,
    )
}

// The environment of what follows so many nodes.
fn names_after<'e>(engine: &Engine, nodes: u64, names: &Names<'e>) -> Names<'e>
    requires within { nodes ≤ length (checked_term engine.now).types - (names_term names.now).first }
    ensures { names_term result ≡ later_by nodes (names_term names.now) }
{
    // So many types fit 64 bits.
    let _types = engine.checked().types().len();
    Names {
        links: names.links,
        first: names.first + nodes,
    }
}

fn edit_form(
    engine: &Engine,
    e: &Host,
    names: &Names,
    store: &Store<Value>,
    purse: &mut Purse,
) -> Result<Tree, Stop>
    requires accepted { IsAccepted (checked_term engine.now) }
    requires may { MayEvaluate engine.now (tasks.edit (host_term e.now)) names.now store.now }
    ensures height { OnOk result (purse.new.height ≡ purse.old.height) }
    ensures ran { RunsEvaluation engine.now (tasks.edit (host_term e.now)) names.now store.now store.now purse.old purse.new result }
{
    let b = engine.node_type(names.first)?;
    let v = host_value(engine, e, names, store, purse)?;
    Ok(Tree::Edit(b, v))
}

fn share_form(engine: &Engine, name: &TaskText, names: &Names) -> Result<Tree, OutOfMemory>
    requires paired { IsPaired (names_term names.now) }
    requires known { IsSome
        (share_tree_at (slice_get (checked_term engine.now).types (names_term names.now).first) (names_term names.now) name.now) }
    ensures { IfOk result
        (λ t. share_tree_at (slice_get (checked_term engine.now).types (names_term names.now).first) (names_term names.now) name.now
        ≡ Some (tree_term t)) }
{
    let b = engine.node_type(names.first)?;
    Ok(Tree::Share(b, place_named(names, name)))
}

// A step of a kind.
#[cycle(evaluate)]
fn step_form(
    engine: &Engine,
    kind: StepKind,
    left: &Task,
    body: u32,
    parts: &[FirstPart],
    names: &Names,
    store: &mut Store<Value>,
    purse: &mut Purse,
) -> Result<Tree, Stop>
    requires accepted { IsAccepted (checked_term engine.now) }
    requires may { MayEvaluate engine.now (step_task kind (task_term left.now) body) names.now store.old }
    requires parts { parts.now ≡ parts_at engine.now (step_task kind (task_term left.now) body) }
    ensures height { OnOk result (purse.new.height ≡ purse.old.height) }
    ensures layers { store.new.layers ≡ store.old.layers }
    ensures ran { RunsEvaluation engine.now (step_task kind (task_term left.now) body) names.now store.old store.new purse.old purse.new
        result }
{
    let left = evaluate_at(engine, left, parts, names, store, purse)?;
    Ok(step_later(engine.alloc(), kind, left, body, names)?)
}

// A pair of a kind.
#[cycle(evaluate)]
fn pair_form(
    engine: &Engine,
    kind: PairKind,
    a: &Task,
    b: &Task,
    parts: &[FirstPart],
    names: &Names,
    store: &mut Store<Value>,
    purse: &mut Purse,
) -> Result<Tree, Stop>
    requires accepted { IsAccepted (checked_term engine.now) }
    requires may { MayEvaluate engine.now (pair_task kind (task_term a.now) (task_term b.now)) names.now store.old }
    requires parts { parts.now ≡ parts_at engine.now (pair_task kind (task_term a.now) (task_term b.now)) }
    ensures height { OnOk result (purse.new.height ≡ purse.old.height) }
    ensures layers { store.new.layers ≡ store.old.layers }
    ensures ran { RunsEvaluation engine.now (pair_task kind (task_term a.now) (task_term b.now)) names.now store.old store.new purse.old
        purse.new result }
{
    let two = TwoParts::of(parts);
    let after = names_after(engine, two.nodes, names);
    let t = evaluate_at(engine, a, two.first, names, store, purse)?;
    let u = evaluate_at(engine, b, two.second, &after, store, purse)?;
    Ok(paired(engine.alloc(), kind, t, u)?)
}

#[cycle(evaluate)]
fn let_form(
    engine: &Engine,
    name: &TaskText,
    e: &Host,
    rest: &Task,
    parts: &[FirstPart],
    names: &Names,
    store: &mut Store<Value>,
    purse: &mut Purse,
) -> Result<Tree, Stop>
    requires accepted { IsAccepted (checked_term engine.now) }
    requires may { MayEvaluate engine.now (tasks.let_task name.now (host_term e.now) (task_term rest.now)) names.now store.old }
    requires parts { parts.now ≡ parts_at engine.now (task_term rest.now) }
    ensures height { OnOk result (purse.new.height ≡ purse.old.height) }
    ensures layers { store.new.layers ≡ store.old.layers }
    ensures ran { RunsEvaluation engine.now (tasks.let_task name.now (host_term e.now) (task_term rest.now)) names.now store.old store.new
        purse.old purse.new result }
{
    let v = host_value(engine, e, names, store, purse)?;
    let slot = Slot::Plain(v);
    let inner = (&*names).with(&*name, &slot);
    evaluate_at(engine, rest, parts, &inner, store, purse)
}

#[cycle(evaluate)]
fn if_form(
    engine: &Engine,
    test: &Host,
    yes: &Task,
    no: &Task,
    parts: &[FirstPart],
    names: &Names,
    store: &mut Store<Value>,
    purse: &mut Purse,
) -> Result<Tree, Stop>
    requires accepted { IsAccepted (checked_term engine.now) }
    requires may { MayEvaluate engine.now (tasks.if_task (host_term test.now) (task_term yes.now) (task_term no.now)) names.now store.old }
    requires parts { parts.now ≡ parts_at engine.now (tasks.if_task (host_term test.now) (task_term yes.now) (task_term no.now)) }
    ensures height { OnOk result (purse.new.height ≡ purse.old.height) }
    ensures layers { store.new.layers ≡ store.old.layers }
    ensures ran { RunsEvaluation engine.now (tasks.if_task (host_term test.now) (task_term yes.now) (task_term no.now)) names.now store.old
        store.new purse.old purse.new result }
{
    let v = host_value(engine, test, names, store, purse)?;
    let holds = truth(&v);
    let two = TwoParts::of(parts);
    if holds {
        evaluate_at(engine, yes, two.first, names, store, purse)
    } else {
        let after = names_after(engine, two.nodes, names);
        evaluate_at(engine, no, two.second, &after, store, purse)
    }
}

#[cycle(evaluate)]
fn case_form(
    engine: &Engine,
    list: &Host,
    empty: &Task,
    head: &TaskText,
    tail: &TaskText,
    more: &Task,
    parts: &[FirstPart],
    names: &Names,
    store: &mut Store<Value>,
    purse: &mut Purse,
) -> Result<Tree, Stop>
    requires accepted { IsAccepted (checked_term engine.now) }
    requires may { MayEvaluate engine.now
        (tasks.case_task (host_term list.now) (task_term empty.now) head.now tail.now (task_term more.now)) names.now store.old }
    requires parts { parts.now ≡ parts_at engine.now
        (tasks.case_task (host_term list.now) (task_term empty.now) head.now tail.now (task_term more.now)) }
    ensures height { OnOk result (purse.new.height ≡ purse.old.height) }
    ensures layers { store.new.layers ≡ store.old.layers }
    ensures ran { RunsEvaluation engine.now
        (tasks.case_task (host_term list.now) (task_term empty.now) head.now tail.now (task_term more.now)) names.now store.old store.new
        purse.old purse.new result }
{
    let v = host_value(engine, list, names, store, purse)?;
    let ends = HeadAndTail::of(&v)?;
    let two = TwoParts::of(parts);
    match ends {
        None => evaluate_at(engine, empty, two.first, names, store, purse),
        Some(ends) => {
            let first = Slot::Plain(ends.head);
            let rest = Slot::Plain(ends.tail);
            let after = names_after(engine, two.nodes, names);
            let outer = after.with(&*head, &first);
            let inner = outer.with(&*tail, &rest);
            evaluate_at(engine, more, two.second, &inner, store, purse)
        }
    }
}

#[cycle(evaluate)]
fn new_form(
    engine: &Engine,
    name: &TaskText,
    e: &Host,
    rest: &Task,
    parts: &[FirstPart],
    names: &Names,
    store: &mut Store<Value>,
    purse: &mut Purse,
) -> Result<Tree, Stop>
    requires accepted { IsAccepted (checked_term engine.now) }
    requires may { MayEvaluate engine.now (tasks.new_task name.now (host_term e.now) (task_term rest.now)) names.now store.old }
    requires parts { parts.now ≡ parts_at engine.now (task_term rest.now) }
    ensures height { OnOk result (purse.new.height ≡ purse.old.height) }
    ensures layers { store.new.layers ≡ store.old.layers }
    ensures ran { RunsEvaluation engine.now (tasks.new_task name.now (host_term e.now) (task_term rest.now)) names.now store.old store.new
        purse.old purse.new result }
{
    let v = host_value(engine, e, names, store, purse)?;
    let place = store.grow(v)?;
    let slot = Slot::Place(place);
    let inner = (&*names).with(&*name, &slot);
    evaluate_at(engine, rest, parts, &inner, store, purse)
}

#[cycle(evaluate)]
fn put_form(
    engine: &Engine,
    name: &TaskText,
    e: &Host,
    rest: &Task,
    parts: &[FirstPart],
    names: &Names,
    store: &mut Store<Value>,
    purse: &mut Purse,
) -> Result<Tree, Stop>
    requires accepted { IsAccepted (checked_term engine.now) }
    requires may { MayEvaluate engine.now (tasks.put_task name.now (host_term e.now) (task_term rest.now)) names.now store.old }
    requires parts { parts.now ≡ parts_at engine.now (task_term rest.now) }
    ensures height { OnOk result (purse.new.height ≡ purse.old.height) }
    ensures layers { store.new.layers ≡ store.old.layers }
    ensures ran { RunsEvaluation engine.now (tasks.put_task name.now (host_term e.now) (task_term rest.now)) names.now store.old store.new
        purse.old purse.new result }
{
    let place = place_named(names, name);
    let v = host_value(engine, e, names, store, purse)?;
    store.set(place, v)?;
    evaluate_at(engine, rest, parts, names, store, purse)
}

#[cycle(evaluate)]
fn call_form(
    engine: &Engine,
    name: &TaskText,
    args: &[Host],
    names: &Names,
    store: &mut Store<Value>,
    purse: &mut Purse,
) -> Result<Tree, Stop>
    requires accepted { IsAccepted (checked_term engine.now) }
    requires may { MayEvaluate engine.now (tasks.call_task name.now (map host_term args.now)) names.now store.old }
    ensures height { OnOk result (purse.new.height ≡ purse.old.height) }
    ensures layers { store.new.layers ≡ store.old.layers }
    ensures ran { RunsEvaluation engine.now (tasks.call_task name.now (map host_term args.now)) names.now store.old store.new purse.old
        purse.new result }
{
    let callee = engine.task_named(name);
    call_at(engine, &callee, args, names, store, purse)
}

// A call of a task, for one unit.
#[cycle(evaluate)]
fn call_at(
    engine: &Engine,
    callee: &Callee,
    args: &[Host],
    names: &Names,
    store: &mut Store<Value>,
    purse: &mut Purse,
) -> Result<Tree, Stop>
    requires accepted { IsAccepted (checked_term engine.now) }
    requires well { Well (checked_term engine.now)
        (task_call_plan (seen_callee callee.now) (map host_term args.now) (names_term names.now) (values_in store.old)) }
    requires paired { IsPaired (names_term names.now) }
    requires parts { callee.now.parts.now ≡ parts_at engine.now (task_term callee.now.task.now) }
    ensures height { OnOk result (purse.new.height ≡ purse.old.height) }
    ensures layers { store.new.layers ≡ store.old.layers }
    ensures ran { RunsPlan (checked_term engine.now)
        (task_call_plan (seen_callee callee.now) (map host_term args.now) (names_term names.now) (values_in store.old)) (state_in store.new)
        purse.old purse.new result }
{
    purse.spend()?;
    let params = callee.params;
    let slots = argument_slots(engine, args, params, names, store, purse)?;
    let inner = Names::of_params(params, slots.as_slice(), callee.first);
    evaluate_at(engine, callee.task, callee.parts, &inner, store, purse)
}
