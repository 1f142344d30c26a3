ghost use Rattle.std.specs.Prelude.{◌≡◌, ◌↔◌, ◌<◌, true, suc, length, map, slice_get, IfOk, IfSome, IsTrue, OnErr, OnOk, Some};
ghost use Rattle.std.specs.Option.{option_map};
ghost use Rattle.task_model.specs.Terms.Value.{value_term};
ghost use Rattle.task_model.specs.Terms.Tree.{tree_term, at};
ghost use Rattle.task_model.specs.Terms.Input.{input_term};
ghost use Rattle.task_model.specs.Running.Handling as model;
ghost use Rattle.task_model.specs.Terms.Held.{IsHeldAct};
ghost use Rattle.task_model.specs.Checking.Accepted.{IsAccepted};
ghost use Rattle.task_model.specs.Running.Checked.{checked_term};
ghost use Rattle.task_model.specs.Checking.Fits.{Fits};
ghost use Rattle.task_model.specs.Running.Spends.{Spends};
ghost use Rattle.task_model.specs.Syntax.Calls.{RunsPlan};
ghost use Rattle.typing_laws.specs.Well.{Well};
ghost use Rattle.task_engine.specs.Quiet.{FiresNothing};
ghost use Rattle.kept_nodes.specs.Along.{DiffersAlong};
ghost use Rattle.handle_input.specs.Answers.{plan_answer, told_tree, TellsOutcome};
ghost use Rattle.handle_input.specs.Beside.{FiresNothingBeside};

use crate::ending::ended;
use crate::handling::handled;
use crate::led::Led;
use shared_store::Store;
use task_engine::settle_beside;
use task_evaluation::Engine;
use task_laws::inputs_act_at_their_address;
use task_model::{ActStop, Input, Purse, Stop, Tree, Turn, Value};
use typing_laws::fitting_trees_have_their_places;

/// Handles an input: the tree that it leads to, over the values that it leaves in the store. `NotOffered` comes where the input is
/// lacking, and `Over` where neither shows within the purse. A refusal leaves the values as they were.
pub fn handle(
    engine: &Engine,
    t: &Tree,
    store: &mut Store<Value>,
    input: &Input,
    purse: &mut Purse,
) -> Result<Tree, ActStop>
    requires fits { Fits (checked_term engine.now) (at (tree_term t.now) (map value_term store.old.list)) }
    ensures layers { store.new.layers ≡ store.old.layers }
    ensures refused { OnErr result (store.new.list ≡ store.old.list) }
    ensures held { OnOk result (IsHeldAct (input_term input.now).act) }
    ensures handles { Spends
        (model.Handled (checked_term engine.now) (at (tree_term t.now) (map value_term store.old.list)) (input_term input.now))
        (option_map (λ u. at (tree_term u) (map value_term store.new.list))) purse.old purse.new (plan_answer result) }
{
    // The program of an engine is accepted.
    let _accepted = engine.checked().program();
    store.begin()?;
    let turns = input.path.turns.as_slice();
    let answer = handled(engine, t, store, turns, &input.act, purse);
    ended(answer, store)
}

/// Handles an input and settles the state that it leads to, with a purse of so many units and the full height. `Ok` has the tree,
/// over the values that the store has then. A refusal leaves the values as they were. Where it is known that nothing fires in the tree (`quiet`), no
/// more than what stands along the input's path is looked at for what fires, unless something does: from then on all of the tree is.
pub fn interact(
    engine: &Engine,
    t: &Tree,
    quiet: bool,
    store: &mut Store<Value>,
    input: &Input,
    budget: u32,
) -> Result<Led, ActStop>
    requires fits { Fits (checked_term engine.now) (at (tree_term t.now) (map value_term store.old.list)) }
    requires quiet { quiet ≡ true → FiresNothing (tree_term t.now) (map value_term store.old.list) }
    ensures layers { store.new.layers ≡ store.old.layers }
    ensures refused { OnErr result (store.new.list ≡ store.old.list) }
    ensures held { OnOk result (IsHeldAct (input_term input.now).act) }
    ensures outcome { TellsOutcome (checked_term engine.now) budget (at (tree_term t.now) (map value_term store.old.list))
        (input_term input.now) (map value_term store.new.list) (told_tree result) }
    ensures along { IfOk result (λ led. led.along_path ≡ true → DiffersAlong (input_term input.now).path (tree_term t.now) (tree_term led.tree)) }
    ensures quiet { IfOk result (λ led. led.quiet ≡ true → FiresNothing (tree_term led.tree) (map value_term store.new.list)) }
{
    // The program of an engine is accepted.
    let _accepted = engine.checked().program();
    store.begin()?;
    let answer = interacted(engine, t, quiet, store, input, &mut Purse::new(budget));
    ended(answer, store)
}

// An input is handled, and the state that it leads to settles.
fn interacted(
    engine: &Engine,
    t: &Tree,
    quiet: bool,
    store: &mut Store<Value>,
    input: &Input,
    purse: &mut Purse,
) -> Result<Option<Led>, Stop>
    requires accepted { IsAccepted (checked_term engine.now) }
    requires fits { Fits (checked_term engine.now) (at (tree_term t.now) (map value_term store.old.list)) }
    requires quiet { quiet ≡ true → FiresNothing (tree_term t.now) (map value_term store.old.list) }
    requires height { purse.old.height ≡ 1000 }
    ensures held { IfOk result (λ o. IfSome o (λ led. IsHeldAct (input_term input.now).act)) }
    ensures layers { store.new.layers ≡ store.old.layers }
    ensures ran { RunsPlan (checked_term engine.now)
        (model.interacts (checked_term engine.now) (at (tree_term t.now) (map value_term store.old.list)) (input_term input.now))
        (option_map (λ led. at (tree_term led.tree) (map value_term store.new.list))) purse.old purse.new result }
    ensures along { IfOk result (λ o. IfSome o
        (λ led. led.along_path ≡ true → DiffersAlong (input_term input.now).path (tree_term t.now) (tree_term led.tree))) }
    ensures quiet { IfOk result (λ o. IfSome o (λ led. led.quiet ≡ true → FiresNothing (tree_term led.tree) (map value_term store.new.list))) }
{
    inputs_act_at_their_address();
    fitting_trees_have_their_places();
    let turns = input.path.turns.as_slice();
    let led = handled(engine, t, store, turns, &input.act, purse)?;
    match led {
        None => Ok(None),
        Some(u) => {
            // Whether a part beside the path has a value depends on no value of the store, which has all its places.
            let beside = quiet.then_some(turns);
            settled(engine, u, beside, store, purse)
        }
    }
}

// The state settles. Where that takes one unit its one stride changes nothing.
fn settled(
    engine: &Engine,
    t: Tree,
    beside: Option<&[Turn]>,
    store: &mut Store<Value>,
    purse: &mut Purse,
) -> Result<Option<Led>, Stop>
    requires well { Well (checked_term engine.now) (model.settled (Some (at (tree_term t) (map value_term store.old.list)))) }
    requires beside { IfSome beside (λ path. FiresNothingBeside path.now (tree_term t) (map value_term store.old.list)) }
    requires height { purse.old.height ≡ 1000 }
    ensures layers { store.new.layers ≡ store.old.layers }
    ensures ran { RunsPlan (checked_term engine.now) (model.settled (Some (at (tree_term t) (map value_term store.old.list))))
        (option_map (λ led. at (tree_term led.tree) (map value_term store.new.list))) purse.old purse.new result }
    ensures same { IfOk result (λ o. IfSome o (λ led. led.along_path ≡ true → tree_term led.tree ≡ tree_term t)) }
    ensures quiet { IfOk result (λ o. IfSome o (λ led. led.quiet ≡ true → FiresNothing (tree_term led.tree) (map value_term store.new.list))) }
{
    let units = purse.units_left();
    let settled = settle_beside(engine, t, beside, store, purse)?;
    Ok(Some(Led {
        tree: settled.tree,
        along_path: took_one_unit(units, purse.units_left()),
        quiet: settled.quiet,
    }))
}

// Whether so many units are one more than those that are left.
fn took_one_unit(units: u32, left: u32) -> bool
    ensures { IsTrue result ↔ (units ≡ suc left) }
{
    units.checked_sub(left) == Some(1)
}
