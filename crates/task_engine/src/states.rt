ghost use Rattle.std.specs.Prelude.{◌≡◌, ℕ, suc, true, map, slice_get, IfOk, IfSome, IsSome, None};
ghost use Rattle.task_model.specs.Terms.Value.{value_term};
ghost use Rattle.task_model.specs.Terms.Task.{task_term};
ghost use Rattle.task_model.specs.Terms.Tree.{cont_term, tree_term, at};
ghost use Rattle.task_model.specs.Running.Checked.{checked_term};
ghost use Rattle.task_model.specs.Running.Plan.{fails, strides, settles, normal};
ghost use Rattle.task_model.specs.Running.Judgements as judgements;
ghost use Rattle.task_model.specs.Running.Spends.{Spends};
ghost use Rattle.typing_laws.specs.Well.{MayAsk};
ghost use Rattle.host_eval.specs.NamesTerm.{names_term};
ghost use Rattle.task_engine.specs.Fitting.{ContFits};
ghost use Rattle.task_engine.specs.Quiet.{IsQuiet, IsQuietBeside};
ghost use Rattle.task_engine.specs.Strides.{after_stride};

use crate::settled::Settled;
use crate::tree_rules::{apply_at, fails_at, normal_at, settle_at, stride_at};
use host_eval::Names;
use shared_store::Store;
use task_evaluation::Engine;
use task_model::{Cont, Purse, Stop, Task, Tree, Turn, Value};

/// Whether a tree is failing. The store stays, after a stop too.
pub fn failing(
    engine: &Engine,
    t: &Tree,
    store: &mut Store<Value>,
    purse: &mut Purse,
) -> Result<bool, Stop>
    requires may { MayAsk (checked_term engine.now) (fails (at (tree_term t.now) (map value_term store.old.list))) }
    ensures store { store.new ≡ store.old }
    ensures spends { Spends (judgements.Fails (checked_term engine.now) (at (tree_term t.now) (map value_term store.old.list))) (λ b. b)
        purse.old purse.new result }
{
    // The program of an engine is accepted.
    let _accepted = engine.checked().program();
    fails_at(engine, t, store, purse)
}

/// One stride. Nothing is answered where nothing fires: tree and store are as they were.
pub fn stride(
    engine: &Engine,
    t: &Tree,
    store: &mut Store<Value>,
    purse: &mut Purse,
) -> Result<Option<Tree>, Stop>
    requires may { MayAsk (checked_term engine.now) (strides (at (tree_term t.now) (map value_term store.old.list))) }
    ensures layers { store.new.layers ≡ store.old.layers }
    ensures kept { IfOk result (λ o. o ≡ None → store.new.list ≡ store.old.list) }
    ensures spends { Spends (judgements.Strides (checked_term engine.now) (at (tree_term t.now) (map value_term store.old.list)))
        (λ o. at (after_stride (tree_term t.now) o) (map value_term store.new.list)) purse.old purse.new result }
{
    // The program of an engine is accepted.
    let _accepted = engine.checked().program();
    stride_at(engine, t, store, purse)
}

/// Strides until one changes nothing.
pub fn settle(
    engine: &Engine,
    t: Tree,
    store: &mut Store<Value>,
    purse: &mut Purse,
) -> Result<Tree, Stop>
    requires may { MayAsk (checked_term engine.now) (settles (at (tree_term t) (map value_term store.old.list))) }
    ensures layers { store.new.layers ≡ store.old.layers }
    ensures spends { Spends (judgements.Settles (checked_term engine.now) (at (tree_term t) (map value_term store.old.list)))
        (λ u. at (tree_term u) (map value_term store.new.list)) purse.old purse.new result }
{
    let settled = settle_beside(engine, t, None, store, purse)?;
    Ok(settled.tree)
}

/// The same, and whether it is known of the tree that it leads to that nothing fires in it. Where nothing fires beside a path, if there is one,
/// no more than what stands along the path is looked at, unless something fires there.
pub fn settle_beside(
    engine: &Engine,
    t: Tree,
    beside: Option<&[Turn]>,
    store: &mut Store<Value>,
    purse: &mut Purse,
) -> Result<Settled, Stop>
    requires may { MayAsk (checked_term engine.now) (settles (at (tree_term t) (map value_term store.old.list))) }
    requires beside { IfSome beside (λ path. (below : ℕ) → purse.old.height ≡ suc below
        → IsQuietBeside path.now (tree_term t) (map value_term store.old.list) below) }
    ensures layers { store.new.layers ≡ store.old.layers }
    ensures spends { Spends (judgements.Settles (checked_term engine.now) (at (tree_term t) (map value_term store.old.list)))
        (λ s. at (tree_term s.tree) (map value_term store.new.list)) purse.old purse.new result }
    ensures quiet { IfOk result (λ s. s.quiet ≡ true → (below : ℕ) → purse.old.height ≡ suc below
        → IsQuiet (tree_term s.tree) (map value_term store.new.list) below) }
{
    // The program of an engine is accepted.
    let _accepted = engine.checked().program();
    settle_at(engine, t, beside, store, purse)
}

/// A task is evaluated, and its state settles.
pub fn normalise(
    engine: &Engine,
    t: &Task,
    names: &Names,
    store: &mut Store<Value>,
    purse: &mut Purse,
) -> Result<Tree, Stop>
    requires may { MayAsk (checked_term engine.now) (normal (task_term t.now) (names_term names.now) (map value_term store.old.list)) }
    ensures layers { store.new.layers ≡ store.old.layers }
    ensures spends { Spends
        (judgements.Normal (checked_term engine.now) (task_term t.now) (names_term names.now) (map value_term store.old.list))
        (λ u. at (tree_term u) (map value_term store.new.list)) purse.old purse.new result }
{
    // The program of an engine is accepted.
    let _accepted = engine.checked().program();
    let parts = engine.parts_of(t)?;
    normal_at(engine, t, parts.as_slice(), names, store, purse)
}

/// The task of a body, normalised.
pub fn normalise_body(
    engine: &Engine,
    body: u32,
    names: &Names,
    store: &mut Store<Value>,
    purse: &mut Purse,
) -> Result<Tree, Stop>
    requires body { IsSome (slice_get (checked_term engine.now).program.bodies body) }
    requires may { IfSome (slice_get (checked_term engine.now).program.bodies body)
        (λ own. MayAsk (checked_term engine.now) (normal own.task (names_term names.now) (map value_term store.old.list))) }
    ensures layers { store.new.layers ≡ store.old.layers }
    ensures spends { IfSome (slice_get (checked_term engine.now).program.bodies body)
        (λ own. Spends (judgements.Normal (checked_term engine.now) own.task (names_term names.now) (map value_term store.old.list))
        (λ u. at (tree_term u) (map value_term store.new.list)) purse.old purse.new result) }
{
    // The program of an engine is accepted.
    let _accepted = engine.checked().program();
    let own = engine.body(body);
    let parts = engine.parts_of_body(body);
    normal_at(engine, &own.task, parts, names, store, purse)
}

/// A cont at a value: its body's task with its slots and the value, evaluated.
pub fn apply(
    engine: &Engine,
    k: &Cont,
    v: Value,
    store: &mut Store<Value>,
    purse: &mut Purse,
) -> Result<Tree, Stop>
    requires fits { ContFits (checked_term engine.now) (cont_term k.now) (value_term v) (map value_term store.old.list) }
    ensures layers { store.new.layers ≡ store.old.layers }
    ensures spends { Spends (judgements.Applies (checked_term engine.now) (cont_term k.now) (value_term v) (map value_term store.old.list))
        (λ u. at (tree_term u) (map value_term store.new.list)) purse.old purse.new result }
{
    // The program of an engine is accepted.
    let _accepted = engine.checked().program();
    apply_at(engine, k, v, store, purse)
}
