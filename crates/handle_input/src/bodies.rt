ghost use Rattle.std.specs.Prelude.{◌≡◌, ◌++◌, ◌∷◌, [], map, slice_get, IfSome, IsSome, None, OnOk, Some};
ghost use Rattle.std.specs.Option.{option_map};
ghost use Rattle.task_model.specs.Terms.Value.{value_term};
ghost use Rattle.task_model.specs.Terms.Env.{plain_slot};
ghost use Rattle.task_model.specs.Terms.Task.{body_term};
ghost use Rattle.task_model.specs.Terms.Tree.{cont_term, delay_term, tree_term, at};
ghost use Rattle.task_model.specs.Checking.Accepted.{IsAccepted};
ghost use Rattle.task_model.specs.Running.Checked.{checked_term};
ghost use Rattle.task_model.specs.Running.Plan.{fails, normal, ask, give};
ghost use Rattle.task_model.specs.Running.Rules.{branch};
ghost use Rattle.task_model.specs.Running.Handling as model;
ghost use Rattle.task_model.specs.Syntax.Calls.{RunsPlan};
ghost use Rattle.typing_laws.specs.Well.{Well};
ghost use Rattle.host_eval.specs.NamesTerm.{names_term};
ghost use Rattle.task_engine.specs.Fitting.{ContFits, SideFits};
ghost use Rattle.task_evaluation.specs.Stores.{values_in, state_in};

use host_eval::Names;
use shared_store::Store;
use task_engine::{failing, normalise_body};
use task_evaluation::{Engine, binder_of};
use task_model::{Cont, Delay, Purse, Slot, Stop, Tree, Value};

/// A user step goes on with its cont at the value of its left, unless that is failing.
pub(crate) fn stepped(
    engine: &Engine,
    k: &Cont,
    v: Value,
    store: &mut Store<Value>,
    purse: &mut Purse,
) -> Result<Option<Tree>, Stop>
    requires accepted { IsAccepted (checked_term engine.now) }
    requires fits { ContFits (checked_term engine.now) (cont_term k.now) (value_term v) (values_in store.old) }
    ensures height { OnOk result (purse.new.height ≡ purse.old.height) }
    ensures layers { store.new.layers ≡ store.old.layers }
    ensures ran { RunsPlan (checked_term engine.now)
        (model.unless_failing (checked_term engine.now) (cont_term k.now).body ((cont_term k.now).slots ++ plain_slot (value_term v) ∷ [])
        (values_in store.old)) (option_map (state_in store.new)) purse.old purse.new result }
{
    let own = engine.body(k.body);
    let slot = Slot::Plain(v);
    let outer = Names::of_scope(&own.scope, k.slots.as_slice(), engine.body_first(k.body));
    let names = outer.with(binder_of(own), &slot);
    unless_failing(engine, k.body, &names, store, purse)
}

/// A side of a choice, unless it is failing.
pub(crate) fn side_taken(
    engine: &Engine,
    k: &Delay,
    store: &mut Store<Value>,
    purse: &mut Purse,
) -> Result<Option<Tree>, Stop>
    requires accepted { IsAccepted (checked_term engine.now) }
    requires fits { SideFits (checked_term engine.now) (delay_term k.now) (values_in store.old) }
    ensures height { OnOk result (purse.new.height ≡ purse.old.height) }
    ensures layers { store.new.layers ≡ store.old.layers }
    ensures ran { RunsPlan (checked_term engine.now)
        (model.unless_failing (checked_term engine.now) (delay_term k.now).body (delay_term k.now).slots (values_in store.old))
        (option_map (state_in store.new)) purse.old purse.new result }
{
    let own = engine.body(k.body);
    let names = Names::of_scope(&own.scope, k.slots.as_slice(), engine.body_first(k.body));
    unless_failing(engine, k.body, &names, store, purse)
}

// The task of a body, normalised, unless what it leads to is failing.
fn unless_failing(
    engine: &Engine,
    body: u32,
    names: &Names,
    store: &mut Store<Value>,
    purse: &mut Purse,
) -> Result<Option<Tree>, Stop>
    requires accepted { IsAccepted (checked_term engine.now) }
    requires body { IsSome (slice_get (checked_term engine.now).program.bodies body) }
    requires well { IfSome (slice_get (checked_term engine.now).program.bodies body)
        (λ own. Well (checked_term engine.now) (ask (normal own.task (names_term names.now) (values_in store.old))
        (λ s. ask (fails s) (λ no. branch no (give None) (give (Some s)))))) }
    ensures height { OnOk result (purse.new.height ≡ purse.old.height) }
    ensures layers { store.new.layers ≡ store.old.layers }
    ensures ran { IfSome (slice_get (checked_term engine.now).program.bodies body)
        (λ own. RunsPlan (checked_term engine.now) (ask (normal own.task (names_term names.now) (values_in store.old))
        (λ s. ask (fails s) (λ no. branch no (give None) (give (Some s))))) (option_map (state_in store.new)) purse.old purse.new result) }
{
    let u = normalise_body(engine, body, names, store, purse)?;
    let no = failing(engine, &u, store, purse)?;
    if no { Ok(None) } else { Ok(Some(u)) }
}
