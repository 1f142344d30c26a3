ghost use Rattle.std.specs.Prelude.{◌≡◌, ◌<◌, length, map, IfErr, IfOk, IfSome};
ghost use Rattle.std.specs.Option.{option_map};
ghost use Rattle.task_model.specs.Terms.Basic.{basic_term};
ghost use Rattle.task_model.specs.Terms.Value.{value_term};
ghost use Rattle.task_model.specs.Terms.Tree.{tree_term, at};
ghost use Rattle.task_model.specs.Terms.Input.{act_term};
ghost use Rattle.task_model.specs.Terms.Held.{IsHeld, IsHeldAct};
ghost use Rattle.handle_input.specs.Editing as words;

use shared_store::Store;
use task_model::{Act, Basic, Stop, Tree, Turn, Value, copy_basic, copy_value, value_has};

/// The value that an input puts into an editor of this type.
fn value_put<'a>(b: &Basic, path: &[Turn], act: &'a Act) -> Option<&'a Value>
    ensures put { option_map (λ v. value_term v.now) result ≡ words.value_put (basic_term b.now) path.now (act_term act.now) }
    ensures held { IfSome result (λ v. IsHeldAct (act_term act.now)) }
{
    match (path, act) {
        ([], Act::Set(v)) => typed(b, v),
        _ => None,
    }
}

fn typed<'a>(b: &Basic, v: &'a Value) -> Option<&'a Value>
    ensures put { option_map (λ w. value_term w.now) result ≡ words.typed_value (basic_term b.now) (value_term v.now) }
    ensures held { IfSome result (λ w. IsHeld (value_term v.now)) }
{
    if value_has(v, b) { Some(v) } else { None }
}

/// An editor with the value that an input puts into it. It fails only where memory runs out.
#[inline(never)]
pub(crate) fn edited(b: &Basic, path: &[Turn], act: &Act) -> Result<Option<Tree>, Stop>
    ensures memory { IfErr result (λ stop. stop ≡ Stop.Memory) }
    ensures held { IfOk result (λ o. IfSome o (λ t. IsHeldAct (act_term act.now))) }
    ensures edited { IfOk result
        (λ o. option_map tree_term o
        ≡ words.edited_tree (basic_term b.now) (words.value_put (basic_term b.now) path.now (act_term act.now))) }
{
    let Some(v) = value_put(b, path, act) else {
        return Ok(None);
    };
    let b = copy_basic(b)?;
    Ok(Some(Tree::Edit(b, copy_value(v)?)))
}

/// A shared editor, whose value is written into the store. It fails only where memory runs out.
#[inline(never)]
pub(crate) fn edited_place(
    b: &Basic,
    place: u64,
    store: &mut Store<Value>,
    path: &[Turn],
    act: &Act,
) -> Result<Option<Tree>, Stop>
    requires within { place < length store.old.list }
    ensures held { IfOk result (λ o. IfSome o (λ t. IsHeldAct (act_term act.now))) }
    ensures memory { IfErr result (λ stop. stop ≡ Stop.Memory) }
    ensures layers { store.new.layers ≡ store.old.layers }
    ensures written { IfOk result (λ o. option_map (λ u. at (tree_term u) (map value_term store.new.list)) o
        ≡ words.edited_state (basic_term b.now) place (map value_term store.old.list)
        (words.value_put (basic_term b.now) path.now (act_term act.now))) }
{
    let Some(v) = value_put(b, path, act) else {
        return Ok(None);
    };
    let b = copy_basic(b)?;
    store.set(place, copy_value(v)?)?;
    Ok(Some(Tree::Share(b, place)))
}
