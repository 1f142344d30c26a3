ghost use Rattle.std.specs.Prelude.{◌≡◌, ◌↔◌, ◌<◌, ℕ, suc, true, ◌∷◌, List, length, map, slice_get, IfOk, IfSome, IsTrue, None, OnOk, Some};
ghost use Rattle.std.specs.Arc.{arc_value};
ghost use Rattle.task_model.specs.declared.value.Value as values;
ghost use Rattle.task_model.specs.Terms.Value.{value_term};
ghost use Rattle.task_model.specs.Terms.Task.{task_term};
ghost use Rattle.task_model.specs.Terms.Tree as trees;
ghost use Rattle.task_model.specs.Terms.Tree.{cont_term, delay_term, tree_term, at};
ghost use Rattle.task_model.specs.Checking.Accepted.{IsAccepted};
ghost use Rattle.task_model.specs.Running.Checked.{checked_term};
ghost use Rattle.task_model.specs.Running.Plan.{evaluates, fails, normal, settles, strides, give, ask, stride_on};
ghost use Rattle.task_model.specs.Running.Rules as rules;
ghost use Rattle.task_model.specs.Syntax.Calls.{RunsJudgement, RunsPlan};
ghost use Rattle.typing_laws.specs.Well.{MayAsk, Well};
ghost use Rattle.host_eval.specs.NamesTerm.{names_term};
ghost use Rattle.task_evaluation.specs.FirstParts.{parts_at};
ghost use Rattle.task_evaluation.specs.Stores.{values_in, state_in};
ghost use Rattle.task_engine.specs.Quiet.{IsQuiet, IsQuietBeside};
ghost use Rattle.task_engine.specs.Strides.{
  after_stride,
  TellsValue,
  state_at,
  state_after,
  attempt,
  Binds,
  BindsNone,
  AnswersStride,
  MayStride,
  RunsStride,
};

use crate::beside::is_quiet;
use crate::settled::Settled;
use crate::strode::{Strode, and_of, or_of, step_of, still, strode_tree, strode_value};
use crate::unchanged::is_unchanged;
use host_eval::Names;
use shared_store::Store;
use std::alloc::Global;
use std::sync::Arc;
use task_evaluation::{Engine, FirstPart, StepKind, binder_of, evaluate_at};
use task_model::{Cont, Delay, OutOfMemory, Purse, Slot, Stop, Task, Tree, Turn, Value};
use task_tree::{has_value, same};

/// Whether a tree is failing. The store stays.
#[cycle(engine)]
pub(crate) fn fails_at(
    engine: &Engine,
    t: &Tree,
    store: &mut Store<Value>,
    purse: &mut Purse,
) -> Result<bool, Stop>
    requires accepted { IsAccepted (checked_term engine.now) }
    requires may { MayAsk (checked_term engine.now) (fails (state_in store.old t.now)) }
    ensures height { OnOk result (purse.new.height ≡ purse.old.height) }
    ensures store { store.new ≡ store.old }
    ensures asked { RunsJudgement (checked_term engine.now) (fails (state_in store.old t.now)) (λ b. b) purse.old purse.new result }
{
    let height = purse.height_left();
    purse.enter()?;
    let no = fails_form(engine, t, store, purse)?;
    purse.leave(height);
    Ok(no)
}

// One form, under its rule.
#[cycle(engine)]
fn fails_form(
    engine: &Engine,
    t: &Tree,
    store: &mut Store<Value>,
    purse: &mut Purse,
) -> Result<bool, Stop>
    requires accepted { IsAccepted (checked_term engine.now) }
    requires may { MayAsk (checked_term engine.now) (fails (state_in store.old t.now)) }
    ensures height { OnOk result (purse.new.height ≡ purse.old.height) }
    ensures store { store.new ≡ store.old }
    ensures ran { RunsPlan (checked_term engine.now) (rules.fail_rule (checked_term engine.now) (tree_term t.now) (values_in store.old))
        (λ b. b) purse.old purse.new result }
{
    match t {
        Tree::Edit(..) => Ok(false),
        Tree::Enter(_) => Ok(false),
        Tree::Share(..) => Ok(false),
        Tree::Then(left, _) => fails_at(engine, left, store, purse),
        Tree::Next(left, _) => fails_at(engine, left, store, purse),
        Tree::Fail => Ok(true),
        Tree::And(a, b) => both_fail(engine, a, b, store, purse),
        Tree::Or(a, b) => both_fail(engine, a, b, store, purse),
        Tree::Xor(a, b) => sides_fail(engine, a, b, store, purse),
    }
}

#[cycle(engine)]
fn both_fail(
    engine: &Engine,
    a: &Tree,
    b: &Tree,
    store: &mut Store<Value>,
    purse: &mut Purse,
) -> Result<bool, Stop>
    requires accepted { IsAccepted (checked_term engine.now) }
    requires well { Well (checked_term engine.now)
        (rules.fail_rule (checked_term engine.now) (trees.and_tree (tree_term a.now) (tree_term b.now)) (values_in store.old)) }
    ensures height { OnOk result (purse.new.height ≡ purse.old.height) }
    ensures store { store.new ≡ store.old }
    ensures ran { RunsPlan (checked_term engine.now)
        (rules.fail_rule (checked_term engine.now) (trees.and_tree (tree_term a.now) (tree_term b.now)) (values_in store.old)) (λ b. b)
        purse.old purse.new result }
{
    let first = fails_at(engine, a, store, purse)?;
    if first {
        fails_at(engine, b, store, purse)
    } else {
        Ok(false)
    }
}

#[cycle(engine)]
fn sides_fail(
    engine: &Engine,
    a: &Delay,
    b: &Delay,
    store: &mut Store<Value>,
    purse: &mut Purse,
) -> Result<bool, Stop>
    requires accepted { IsAccepted (checked_term engine.now) }
    requires well { Well (checked_term engine.now)
        (rules.fail_rule (checked_term engine.now) (trees.xor_tree (delay_term a.now) (delay_term b.now)) (values_in store.old)) }
    requires first { BindsNone (checked_term engine.now) (delay_term a.now).body }
    requires second { BindsNone (checked_term engine.now) (delay_term b.now).body }
    ensures height { OnOk result (purse.new.height ≡ purse.old.height) }
    ensures store { store.new ≡ store.old }
    ensures ran { RunsPlan (checked_term engine.now)
        (rules.fail_rule (checked_term engine.now) (trees.xor_tree (delay_term a.now) (delay_term b.now)) (values_in store.old)) (λ b. b)
        purse.old purse.new result }
{
    let first = side_fails(engine, a, store, purse)?;
    if first {
        side_fails(engine, b, store, purse)
    } else {
        Ok(false)
    }
}

/// Whether a side of a choice is failing. The store stays.
#[cycle(engine)]
pub(crate) fn side_fails(
    engine: &Engine,
    k: &Delay,
    store: &mut Store<Value>,
    purse: &mut Purse,
) -> Result<bool, Stop>
    requires accepted { IsAccepted (checked_term engine.now) }
    requires well { Well (checked_term engine.now) (rules.side (checked_term engine.now) (delay_term k.now) (values_in store.old)) }
    requires unbound { BindsNone (checked_term engine.now) (delay_term k.now).body }
    ensures height { OnOk result (purse.new.height ≡ purse.old.height) }
    ensures store { store.new ≡ store.old }
    ensures ran { RunsPlan (checked_term engine.now) (rules.side (checked_term engine.now) (delay_term k.now) (values_in store.old))
        (λ b. b) purse.old purse.new result }
{
    let own = engine.body(k.body);
    let names = Names::of_scope(&own.scope, k.slots.as_slice(), engine.body_first(k.body));
    tested(
        engine,
        &own.task,
        engine.parts_of_body(k.body),
        &names,
        store,
        purse,
    )
}

/// Whether a cont at a value is failing. The store stays.
pub(crate) fn step_fails(
    engine: &Engine,
    k: &Cont,
    v: Value,
    store: &mut Store<Value>,
    purse: &mut Purse,
) -> Result<bool, Stop>
    requires accepted { IsAccepted (checked_term engine.now) }
    requires well { Well (checked_term engine.now)
        (rules.trial (checked_term engine.now) (cont_term k.now) (value_term v) (values_in store.old)) }
    requires bound { Binds (checked_term engine.now) (cont_term k.now).body }
    ensures height { OnOk result (purse.new.height ≡ purse.old.height) }
    ensures store { store.new ≡ store.old }
    ensures ran { RunsPlan (checked_term engine.now)
        (rules.trial (checked_term engine.now) (cont_term k.now) (value_term v) (values_in store.old)) (λ b. b) purse.old purse.new result }
{
    let own = engine.body(k.body);
    let slot = Slot::Plain(v);
    let outer = Names::of_scope(&own.scope, k.slots.as_slice(), engine.body_first(k.body));
    let names = outer.with(binder_of(own), &slot);
    tested(
        engine,
        &own.task,
        engine.parts_of_body(k.body),
        &names,
        store,
        purse,
    )
}

// Whether what a task normalises to is failing, under a layer that is dropped.
#[cycle(engine)]
fn tested(
    engine: &Engine,
    t: &Task,
    parts: &[FirstPart],
    names: &Names,
    store: &mut Store<Value>,
    purse: &mut Purse,
) -> Result<bool, Stop>
    requires accepted { IsAccepted (checked_term engine.now) }
    requires well { Well (checked_term engine.now)
        (ask (normal (task_term t.now) (names_term names.now) (values_in store.old)) (λ s. ask (fails s) give)) }
    requires parts { parts.now ≡ parts_at engine.now (task_term t.now) }
    ensures height { OnOk result (purse.new.height ≡ purse.old.height) }
    ensures store { store.new ≡ store.old }
    ensures ran { RunsPlan (checked_term engine.now)
        (ask (normal (task_term t.now) (names_term names.now) (values_in store.old)) (λ s. ask (fails s) give)) (λ b. b)
        purse.old purse.new result }
{
    store.begin()?;
    let failing = normal_fails(engine, t, parts, names, store, purse);
    store.drop_layer();
    failing
}

#[cycle(engine)]
fn normal_fails(
    engine: &Engine,
    t: &Task,
    parts: &[FirstPart],
    names: &Names,
    store: &mut Store<Value>,
    purse: &mut Purse,
) -> Result<bool, Stop>
    requires accepted { IsAccepted (checked_term engine.now) }
    requires well { Well (checked_term engine.now)
        (ask (normal (task_term t.now) (names_term names.now) (values_in store.old)) (λ s. ask (fails s) give)) }
    requires parts { parts.now ≡ parts_at engine.now (task_term t.now) }
    ensures height { OnOk result (purse.new.height ≡ purse.old.height) }
    ensures layers { store.new.layers ≡ store.old.layers }
    ensures ran { RunsPlan (checked_term engine.now)
        (ask (normal (task_term t.now) (names_term names.now) (values_in store.old)) (λ s. ask (fails s) give)) (λ b. b)
        purse.old purse.new result }
{
    let u = normal_at(engine, t, parts, names, store, purse)?;
    fails_at(engine, &u, store, purse)
}

#[cycle(engine)]
pub(crate) fn normal_at(
    engine: &Engine,
    t: &Task,
    parts: &[FirstPart],
    names: &Names,
    store: &mut Store<Value>,
    purse: &mut Purse,
) -> Result<Tree, Stop>
    requires accepted { IsAccepted (checked_term engine.now) }
    requires may { MayAsk (checked_term engine.now) (normal (task_term t.now) (names_term names.now) (values_in store.old)) }
    requires parts { parts.now ≡ parts_at engine.now (task_term t.now) }
    ensures height { OnOk result (purse.new.height ≡ purse.old.height) }
    ensures layers { store.new.layers ≡ store.old.layers }
    ensures asked { RunsJudgement (checked_term engine.now) (normal (task_term t.now) (names_term names.now) (values_in store.old))
        (state_in store.new) purse.old purse.new result }
{
    let height = purse.height_left();
    purse.enter()?;
    let u = normal_form(engine, t, parts, names, store, purse)?;
    purse.leave(height);
    Ok(u)
}

#[cycle(engine)]
fn normal_form(
    engine: &Engine,
    t: &Task,
    parts: &[FirstPart],
    names: &Names,
    store: &mut Store<Value>,
    purse: &mut Purse,
) -> Result<Tree, Stop>
    requires accepted { IsAccepted (checked_term engine.now) }
    requires well { Well (checked_term engine.now)
        (ask (evaluates (task_term t.now) (names_term names.now) (values_in store.old)) (λ s. stride_on s give)) }
    requires parts { parts.now ≡ parts_at engine.now (task_term t.now) }
    ensures height { OnOk result (purse.new.height ≡ purse.old.height) }
    ensures layers { store.new.layers ≡ store.old.layers }
    ensures ran { RunsPlan (checked_term engine.now)
        (ask (evaluates (task_term t.now) (names_term names.now) (values_in store.old)) (λ s. stride_on s give)) (state_in store.new)
        purse.old purse.new result }
{
    let u = evaluate_at(engine, t, parts, names, store, purse)?;
    let settled = stride_all(engine, u, None, store, purse)?;
    Ok(settled.tree)
}

/// Strides until one changes nothing, each for one unit besides its own. A tree in which nothing fires is looked through without the rules, and
/// where nothing fires beside a path, if there is one, no more than what stands along it.
#[cycle(engine)]
fn stride_all(
    engine: &Engine,
    t: Tree,
    beside: Option<&[Turn]>,
    store: &mut Store<Value>,
    purse: &mut Purse,
) -> Result<Settled, Stop>
    requires accepted { IsAccepted (checked_term engine.now) }
    requires may { MayStride engine.now (tree_term t) store.old }
    requires beside { IfSome beside (λ path. IsQuietBeside path.now (tree_term t) (values_in store.old) purse.old.height) }
    ensures height { OnOk result (purse.new.height ≡ purse.old.height) }
    ensures layers { store.new.layers ≡ store.old.layers }
    ensures ran { RunsPlan (checked_term engine.now) (stride_on (state_in store.old t) give) (λ s. state_in store.new s.tree)
        purse.old purse.new result }
    ensures quiet { IfOk result (λ s. s.quiet ≡ true → IsQuiet (tree_term s.tree) (values_in store.new) purse.new.height) }
{
    let mut tree = t;
    let mut known = beside;
    'strides: loop {
        purse.spend()?;
        if is_quiet(&tree, known, store, purse.height_left()) {
            return Ok(Settled { tree, quiet: true });
        }
        known = None;
        let changed = changing(engine, &tree, store, purse)?;
        match changed {
            None => return Ok(Settled { tree, quiet: false }),
            Some(next) => tree = next,
        }
    }
}

/// The same under the rule of settling.
pub(crate) fn settle_at(
    engine: &Engine,
    t: Tree,
    beside: Option<&[Turn]>,
    store: &mut Store<Value>,
    purse: &mut Purse,
) -> Result<Settled, Stop>
    requires accepted { IsAccepted (checked_term engine.now) }
    requires may { MayAsk (checked_term engine.now) (settles (state_in store.old t)) }
    requires beside { IfSome beside (λ path. (below : ℕ) → purse.old.height ≡ suc below
        → IsQuietBeside path.now (tree_term t) (values_in store.old) below) }
    ensures height { OnOk result (purse.new.height ≡ purse.old.height) }
    ensures layers { store.new.layers ≡ store.old.layers }
    ensures asked { RunsJudgement (checked_term engine.now) (settles (state_in store.old t)) (λ s. state_in store.new s.tree)
        purse.old purse.new result }
    ensures quiet { IfOk result (λ s. s.quiet ≡ true → (below : ℕ) → purse.old.height ≡ suc below
        → IsQuiet (tree_term s.tree) (values_in store.new) below) }
{
    let height = purse.height_left();
    purse.enter()?;
    let settled = stride_all(engine, t, beside, store, purse)?;
    purse.leave(height);
    Ok(settled)
}

// One stride by the rules, under a layer, which answers nothing where it changes neither tree nor store.
#[cycle(engine)]
fn changing(
    engine: &Engine,
    t: &Tree,
    store: &mut Store<Value>,
    purse: &mut Purse,
) -> Result<Option<Tree>, Stop>
    requires accepted { IsAccepted (checked_term engine.now) }
    requires may { MayStride engine.now (tree_term t.now) store.old }
    ensures height { OnOk result (purse.new.height ≡ purse.old.height) }
    ensures layers { store.new.layers ≡ store.old.layers }
    ensures none { IfOk result (λ o. o ≡ None → values_in store.new ≡ values_in store.old) }
    ensures other { IfOk result
        (λ o. IfSome o (λ u. at (tree_term u) (values_in store.new) ≡ at (tree_term t.now) (values_in store.old) → ⊥)) }
    ensures asked { RunsJudgement (checked_term engine.now) (strides (state_in store.old t.now)) (state_after (tree_term t.now) store.new)
        purse.old purse.new result }
{
    store.begin()?;
    let strode = stride_at(engine, t, store, purse);
    judged(engine.alloc(), t, strode, store)
}

/// One stride. Nothing is answered where nothing fires: the tree and the store are as they were.
#[cycle(engine)]
pub(crate) fn stride_at(
    engine: &Engine,
    t: &Tree,
    store: &mut Store<Value>,
    purse: &mut Purse,
) -> Result<Option<Tree>, Stop>
    requires accepted { IsAccepted (checked_term engine.now) }
    requires may { MayStride engine.now (tree_term t.now) store.old }
    ensures height { OnOk result (purse.new.height ≡ purse.old.height) }
    ensures layers { store.new.layers ≡ store.old.layers }
    ensures kept { IfOk result (λ o. o ≡ None → store.new.list ≡ store.old.list) }
    ensures asked { RunsJudgement (checked_term engine.now) (strides (state_in store.old t.now)) (state_after (tree_term t.now) store.new)
        purse.old purse.new result }
{
    let strode = strode_at(engine, t, store, purse)?;
    Ok(strode.tree)
}

// The same, with whether the tree after the stride has a value: each form knows it from its parts, so no tree is walked for it but the
// one that a step puts in.
#[cycle(engine)]
fn strode_at(
    engine: &Engine,
    t: &Tree,
    store: &mut Store<Value>,
    purse: &mut Purse,
) -> Result<Strode, Stop>
    requires accepted { IsAccepted (checked_term engine.now) }
    requires may { MayStride engine.now (tree_term t.now) store.old }
    ensures height { OnOk result (purse.new.height ≡ purse.old.height) }
    ensures layers { store.new.layers ≡ store.old.layers }
    ensures kept { IfOk result (λ s. s.tree ≡ None → store.new.list ≡ store.old.list) }
    ensures valued { IfOk result (TellsValue (tree_term t.now) (values_in store.new)) }
    ensures asked { RunsJudgement (checked_term engine.now) (strides (state_in store.old t.now))
        (λ s. state_after (tree_term t.now) store.new s.tree) purse.old purse.new result }
{
    let height = purse.height_left();
    purse.enter()?;
    let u = stride_form(engine, t, store, purse)?;
    purse.leave(height);
    Ok(u)
}

// One form, under its rule.
#[cycle(engine)]
fn stride_form(
    engine: &Engine,
    t: &Tree,
    store: &mut Store<Value>,
    purse: &mut Purse,
) -> Result<Strode, Stop>
    requires accepted { IsAccepted (checked_term engine.now) }
    requires may { MayStride engine.now (tree_term t.now) store.old }
    ensures height { OnOk result (purse.new.height ≡ purse.old.height) }
    ensures layers { store.new.layers ≡ store.old.layers }
    ensures kept { IfOk result (λ s. s.tree ≡ None → store.new.list ≡ store.old.list) }
    ensures valued { IfOk result (TellsValue (tree_term t.now) (values_in store.new)) }
    ensures ran { RunsStride engine.now (tree_term t.now) store.old store.new purse.old purse.new result }
{
    match t {
        Tree::Edit(..) => Ok(still(true)),
        Tree::Enter(_) => Ok(still(false)),
        Tree::Share(..) => Ok(still(true)),
        Tree::Fail => Ok(still(false)),
        Tree::Xor(..) => Ok(still(false)),
        Tree::Then(left, k) => then_form(engine, left, k, store, purse),
        Tree::Next(left, k) => next_form(engine, left, k, store, purse),
        Tree::And(a, b) => and_form(engine, a, b, store, purse),
        Tree::Or(a, b) => or_form(engine, a, b, store, purse),
    }
}

#[cycle(engine)]
fn next_form(
    engine: &Engine,
    left: &Tree,
    k: &Cont,
    store: &mut Store<Value>,
    purse: &mut Purse,
) -> Result<Strode, Stop>
    requires accepted { IsAccepted (checked_term engine.now) }
    requires may { MayStride engine.now (trees.next_tree (tree_term left.now) (cont_term k.now)) store.old }
    ensures height { OnOk result (purse.new.height ≡ purse.old.height) }
    ensures layers { store.new.layers ≡ store.old.layers }
    ensures kept { IfOk result (λ s. s.tree ≡ None → store.new.list ≡ store.old.list) }
    ensures valued { IfOk result (TellsValue (trees.next_tree (tree_term left.now) (cont_term k.now)) (values_in store.new)) }
    ensures ran { RunsStride engine.now (trees.next_tree (tree_term left.now) (cont_term k.now))
        store.old store.new purse.old purse.new result }
{
    let strode = strode_at(engine, left, store, purse)?;
    Ok(step_of(engine.alloc(), StepKind::Next, strode.tree, k)?)
}

#[cycle(engine)]
fn and_form(
    engine: &Engine,
    a: &Arc<Tree>,
    b: &Arc<Tree>,
    store: &mut Store<Value>,
    purse: &mut Purse,
) -> Result<Strode, Stop>
    requires accepted { IsAccepted (checked_term engine.now) }
    requires may { MayStride engine.now (trees.and_tree (tree_term (arc_value a.now)) (tree_term (arc_value b.now))) store.old }
    ensures height { OnOk result (purse.new.height ≡ purse.old.height) }
    ensures layers { store.new.layers ≡ store.old.layers }
    ensures kept { IfOk result (λ s. s.tree ≡ None → store.new.list ≡ store.old.list) }
    ensures valued { IfOk result
        (TellsValue (trees.and_tree (tree_term (arc_value a.now)) (tree_term (arc_value b.now))) (values_in store.new)) }
    ensures ran { RunsStride engine.now (trees.and_tree (tree_term (arc_value a.now)) (tree_term (arc_value b.now)))
        store.old store.new purse.old purse.new result }
{
    let t = strode_at(engine, a, store, purse)?;
    let u = strode_at(engine, b, store, purse)?;
    Ok(and_of(engine.alloc(), t, a, u, b)?)
}

#[cycle(engine)]
fn or_form(
    engine: &Engine,
    a: &Arc<Tree>,
    b: &Arc<Tree>,
    store: &mut Store<Value>,
    purse: &mut Purse,
) -> Result<Strode, Stop>
    requires accepted { IsAccepted (checked_term engine.now) }
    requires may { MayStride engine.now (trees.or_tree (tree_term (arc_value a.now)) (tree_term (arc_value b.now))) store.old }
    ensures height { OnOk result (purse.new.height ≡ purse.old.height) }
    ensures layers { store.new.layers ≡ store.old.layers }
    ensures kept { IfOk result (λ s. s.tree ≡ None → store.new.list ≡ store.old.list) }
    ensures valued { IfOk result
        (TellsValue (trees.or_tree (tree_term (arc_value a.now)) (tree_term (arc_value b.now))) (values_in store.new)) }
    ensures ran { RunsStride engine.now (trees.or_tree (tree_term (arc_value a.now)) (tree_term (arc_value b.now)))
        store.old store.new purse.old purse.new result }
{
    let t = strode_at(engine, a, store, purse)?;
    if t.valued {
        let tree = strode_tree(t.tree, a)?;
        Ok(Strode {
            tree: Some(tree),
            valued: true,
        })
    } else {
        let u = strode_at(engine, b, store, purse)?;
        Ok(or_of(engine.alloc(), t.tree, a, u, b)?)
    }
}

#[cycle(engine)]
fn then_form(
    engine: &Engine,
    left: &Tree,
    k: &Cont,
    store: &mut Store<Value>,
    purse: &mut Purse,
) -> Result<Strode, Stop>
    requires accepted { IsAccepted (checked_term engine.now) }
    requires may { MayStride engine.now (trees.then_tree (tree_term left.now) (cont_term k.now)) store.old }
    ensures height { OnOk result (purse.new.height ≡ purse.old.height) }
    ensures layers { store.new.layers ≡ store.old.layers }
    ensures kept { IfOk result (λ s. s.tree ≡ None → store.new.list ≡ store.old.list) }
    ensures valued { IfOk result (TellsValue (trees.then_tree (tree_term left.now) (cont_term k.now)) (values_in store.new)) }
    ensures ran { RunsStride engine.now (trees.then_tree (tree_term left.now) (cont_term k.now))
        store.old store.new purse.old purse.new result }
{
    let strode = strode_at(engine, left, store, purse)?;
    fired(engine, left, strode, k, store, purse)
}

// An internal step whose left was strided.
#[cycle(engine)]
fn fired(
    engine: &Engine,
    left: &Tree,
    strode: Strode,
    k: &Cont,
    store: &mut Store<Value>,
    purse: &mut Purse,
) -> Result<Strode, Stop>
    requires accepted { IsAccepted (checked_term engine.now) }
    requires well { Well (checked_term engine.now)
        (rules.fired (checked_term engine.now) (rules.value_of (after_stride (tree_term left.now) strode.tree) (values_in store.old))
        (cont_term k.now) (at (after_stride (tree_term left.now) strode.tree) (values_in store.old))) }
    requires bound { Binds (checked_term engine.now) (cont_term k.now).body }
    requires valued { TellsValue (tree_term left.now) (values_in store.old) strode }
    ensures height { OnOk result (purse.new.height ≡ purse.old.height) }
    ensures layers { store.new.layers ≡ store.old.layers }
    ensures kept { IfOk result (λ s. s.tree ≡ None → (strode.tree ≡ None) × (store.new.list ≡ store.old.list)) }
    ensures valued { IfOk result (TellsValue (trees.then_tree (tree_term left.now) (cont_term k.now)) (values_in store.new)) }
    ensures ran { RunsPlan (checked_term engine.now)
        (rules.fired (checked_term engine.now) (rules.value_of (after_stride (tree_term left.now) strode.tree) (values_in store.old))
        (cont_term k.now) (at (after_stride (tree_term left.now) strode.tree) (values_in store.old)))
        (λ s. state_after (trees.then_tree (tree_term left.now) (cont_term k.now)) store.new s.tree) purse.old purse.new result }
{
    if !strode.valued {
        return Ok(step_of(engine.alloc(), StepKind::Then, strode.tree, k)?);
    }
    let value = strode_value(engine.alloc(), &strode.tree, left, store)?;
    match value {
        None => unreachable!(),
        Some(v) => fired_at(engine, left, strode.tree, v, k, store, purse),
    }
}

// An internal step whose left has a value.
#[cycle(engine)]
fn fired_at(
    engine: &Engine,
    left: &Tree,
    strode: Option<Tree>,
    v: Value,
    k: &Cont,
    store: &mut Store<Value>,
    purse: &mut Purse,
) -> Result<Strode, Stop>
    requires accepted { IsAccepted (checked_term engine.now) }
    requires well { Well (checked_term engine.now)
        (rules.fired (checked_term engine.now) (Some (value_term v)) (cont_term k.now)
        (at (after_stride (tree_term left.now) strode) (values_in store.old))) }
    requires bound { Binds (checked_term engine.now) (cont_term k.now).body }
    ensures height { OnOk result (purse.new.height ≡ purse.old.height) }
    ensures layers { store.new.layers ≡ store.old.layers }
    ensures kept { IfOk result (λ s. s.tree ≡ None → (strode ≡ None) × (store.new.list ≡ store.old.list)) }
    ensures valued { IfOk result (TellsValue (trees.then_tree (tree_term left.now) (cont_term k.now)) (values_in store.new)) }
    ensures ran { RunsPlan (checked_term engine.now)
        (rules.fired (checked_term engine.now) (Some (value_term v)) (cont_term k.now)
        (at (after_stride (tree_term left.now) strode) (values_in store.old)))
        (λ s. state_after (trees.then_tree (tree_term left.now) (cont_term k.now)) store.new s.tree) purse.old purse.new result }
{
    let tried = tried(engine, k, v, store, purse)?;
    match tried {
        Some(t) => {
            let valued = has_value(&t, store);
            Ok(Strode {
                tree: Some(t),
                valued,
            })
        }
        None => Ok(step_of(engine.alloc(), StepKind::Then, strode, k)?),
    }
}

// The cont at a value under a layer, which is kept unless the cont fails or stops.
#[cycle(engine)]
fn tried(
    engine: &Engine,
    k: &Cont,
    v: Value,
    store: &mut Store<Value>,
    purse: &mut Purse,
) -> Result<Option<Tree>, Stop>
    requires accepted { IsAccepted (checked_term engine.now) }
    requires well { Well (checked_term engine.now)
        (attempt (checked_term engine.now) (cont_term k.now) (value_term v) (values_in store.old)) }
    requires bound { Binds (checked_term engine.now) (cont_term k.now).body }
    ensures height { OnOk result (purse.new.height ≡ purse.old.height) }
    ensures layers { store.new.layers ≡ store.old.layers }
    ensures dropped { IfOk result (λ o. o ≡ None → store.new.list ≡ store.old.list) }
    ensures ran { RunsPlan (checked_term engine.now)
        (attempt (checked_term engine.now) (cont_term k.now) (value_term v) (values_in store.old)) (state_at (values_in store.new))
        purse.old purse.new result }
{
    store.begin()?;
    let attempted = attempted(engine, k, v, store, purse);
    end_trial(&attempted, store);
    attempted
}

#[cycle(engine)]
fn attempted(
    engine: &Engine,
    k: &Cont,
    v: Value,
    store: &mut Store<Value>,
    purse: &mut Purse,
) -> Result<Option<Tree>, Stop>
    requires accepted { IsAccepted (checked_term engine.now) }
    requires well { Well (checked_term engine.now)
        (attempt (checked_term engine.now) (cont_term k.now) (value_term v) (values_in store.old)) }
    requires bound { Binds (checked_term engine.now) (cont_term k.now).body }
    ensures height { OnOk result (purse.new.height ≡ purse.old.height) }
    ensures layers { store.new.layers ≡ store.old.layers }
    ensures ran { RunsPlan (checked_term engine.now)
        (attempt (checked_term engine.now) (cont_term k.now) (value_term v) (values_in store.old)) (state_at (values_in store.new))
        purse.old purse.new result }
{
    let t = apply_at(engine, k, v, store, purse)?;
    let failing = fails_at(engine, &t, store, purse)?;
    if failing { Ok(None) } else { Ok(Some(t)) }
}

/// A cont at a value.
pub(crate) fn apply_at(
    engine: &Engine,
    k: &Cont,
    v: Value,
    store: &mut Store<Value>,
    purse: &mut Purse,
) -> Result<Tree, Stop>
    requires accepted { IsAccepted (checked_term engine.now) }
    requires well { Well (checked_term engine.now)
        (rules.applied (checked_term engine.now) (cont_term k.now) (value_term v) (values_in store.old) give) }
    requires bound { Binds (checked_term engine.now) (cont_term k.now).body }
    ensures height { OnOk result (purse.new.height ≡ purse.old.height) }
    ensures layers { store.new.layers ≡ store.old.layers }
    ensures ran { RunsPlan (checked_term engine.now)
        (rules.applied (checked_term engine.now) (cont_term k.now) (value_term v) (values_in store.old) give) (state_in store.new)
        purse.old purse.new result }
{
    let own = engine.body(k.body);
    let slot = Slot::Plain(v);
    let outer = Names::of_scope(&own.scope, k.slots.as_slice(), engine.body_first(k.body));
    let names = outer.with(binder_of(own), &slot);
    evaluate_at(
        engine,
        &own.task,
        engine.parts_of_body(k.body),
        &names,
        store,
        purse,
    )
}

// The end of a stride's layer: nothing is answered where tree and values are as they were. After a stop what it wrote is undone.
fn judged(
    alloc: Global,
    t: &Tree,
    strode: Result<Option<Tree>, Stop>,
    store: &mut Store<Value>,
) -> Result<Option<Tree>, Stop>
    requires { 0 < length store.old.layers }
    ensures layers { (σ : List values.Value) (below : List (List values.Value)) → store.old.layers ≡ σ ∷ below → store.new.layers ≡ below }
    ensures list { IfOk result (λ o. store.new.list ≡ store.old.list) }
    ensures judged { (σ : List values.Value) (below : List (List values.Value)) → store.old.layers ≡ σ ∷ below
        → AnswersStride (tree_term t.now) σ store.old.list strode result }
{
    match strode {
        Ok(None) => {
            store.keep();
            Ok(None)
        }
        Ok(Some(u)) => {
            let same = is_same_state(alloc, t, &u, store);
            store.keep();
            if same? { Ok(None) } else { Ok(Some(u)) }
        }
        Err(stop) => {
            store.drop_layer();
            Err(stop)
        }
    }
}

// The end of a trial's layer, which is kept where the trial led to a tree.
fn end_trial(attempted: &Result<Option<Tree>, Stop>, store: &mut Store<Value>)
    requires { 0 < length store.old.layers }
    ensures layers { (σ : List values.Value) (below : List (List values.Value)) → store.old.layers ≡ σ ∷ below → store.new.layers ≡ below }
    ensures kept { IfOk attempted.now (λ o. IfSome o (λ u. store.new.list ≡ store.old.list)) }
    ensures dropped { (σ : List values.Value) (below : List (List values.Value)) → store.old.layers ≡ σ ∷ below
        → IfOk attempted.now (λ o. o ≡ None → store.new.list ≡ σ) }
{
    match attempted {
        Ok(Some(_)) => store.keep(),
        Ok(None) => store.drop_layer(),
        Err(_) => store.drop_layer(),
    }
}

fn is_same_state(
    alloc: Global,
    t: &Tree,
    u: &Tree,
    store: &Store<Value>,
) -> Result<bool, OutOfMemory>
    requires { 0 < length store.now.layers }
    ensures { IfOk result (λ same. (σ : List values.Value) → slice_get store.now.layers 0 ≡ Some σ → IsTrue same
        ↔ (at (tree_term u.now) (values_in store.now) ≡ at (tree_term t.now) (map value_term σ))) }
{
    let unchanged = is_unchanged(alloc, store)?;
    Ok(unchanged && same(u, t))
}
