ghost use Rattle.std.specs.Prelude.{◌≡◌, ◌∷◌, suc, true, IfSome};
ghost use Rattle.std.specs.Arc.{arc_value};
ghost use Rattle.task_model.specs.Terms.Tree as trees;
ghost use Rattle.task_model.specs.Terms.Tree.{cont_term, tree_term};
ghost use Rattle.task_engine.specs.Quiet.{IsQuiet, IsQuietBeside, TellsQuiet};
ghost use Rattle.task_evaluation.specs.Stores.{values_in};

use crate::quiet::quiet_value;
use shared_store::Store;
use std::sync::Arc;
use task_model::{Cont, Tree, Turn, Value};
use task_tree::has_value;

/// Whether it is known that nothing fires in a tree within a height. Where nothing fires beside a path, if there is one, no more than what stands
/// along it is looked at. It takes no memory.
pub(crate) fn is_quiet(t: &Tree, beside: Option<&[Turn]>, store: &Store<Value>, height: u32) -> bool
    requires { IfSome beside (λ path. IsQuietBeside path.now (tree_term t.now) (values_in store.now) height) }
    ensures { result ≡ true → IsQuiet (tree_term t.now) (values_in store.now) height }
{
    match beside {
        None => quiet_value(t, store, height).is_some(),
        Some(path) => quiet_along(t, path, store, height).is_some(),
    }
}

// Whether a tree has a value, where it is known that nothing fires in it: only the nodes of the path are looked at, what stands behind its
// last turn, and whether a part beside it has a value where that decides.
#[cycle(along)]
fn quiet_along(t: &Tree, path: &[Turn], store: &Store<Value>, height: u32) -> Option<bool>
    requires { IsQuietBeside path.now (tree_term t.now) (values_in store.now) height }
    ensures { IfSome result (TellsQuiet (tree_term t.now) (values_in store.now) height) }
{
    let Some((turn, rest)) = path.split_first() else {
        return quiet_value(t, store, height);
    };
    let Some(below) = height.checked_sub(1) else {
        return None;
    };
    match t {
        Tree::Then(left, k) => along_then(left, k, path, store, below),
        Tree::Next(left, k) => along_next(left, k, path, store, below),
        Tree::And(a, b) => along_and(*turn, a, b, rest, store, below),
        Tree::Or(a, b) => along_or(*turn, a, b, rest, store, below),
        _ => quiet_value(t, store, height),
    }
}

#[cycle(along)]
fn along_then(
    left: &Tree,
    k: &Cont,
    path: &[Turn],
    store: &Store<Value>,
    below: u32,
) -> Option<bool>
    requires { IsQuietBeside path.now (tree_term left.now) (values_in store.now) below }
    ensures { IfSome result (TellsQuiet (trees.then_tree (tree_term left.now) (cont_term k.now)) (values_in store.now) (suc below)) }
{
    let valued = quiet_along(left, path, store, below)?;
    if valued { None } else { Some(false) }
}

#[cycle(along)]
fn along_next(
    left: &Tree,
    k: &Cont,
    path: &[Turn],
    store: &Store<Value>,
    below: u32,
) -> Option<bool>
    requires { IsQuietBeside path.now (tree_term left.now) (values_in store.now) below }
    ensures { IfSome result (TellsQuiet (trees.next_tree (tree_term left.now) (cont_term k.now)) (values_in store.now) (suc below)) }
{
    quiet_along(left, path, store, below)?;
    Some(false)
}

#[cycle(along)]
fn along_and(
    turn: Turn,
    a: &Arc<Tree>,
    b: &Arc<Tree>,
    rest: &[Turn],
    store: &Store<Value>,
    below: u32,
) -> Option<bool>
    requires { IsQuietBeside (turn ∷ rest.now) (trees.and_tree (tree_term (arc_value a.now)) (tree_term (arc_value b.now)))
        (values_in store.now) (suc below) }
    ensures { IfSome result
        (TellsQuiet (trees.and_tree (tree_term (arc_value a.now)) (tree_term (arc_value b.now))) (values_in store.now) (suc below)) }
{
    match turn {
        Turn::First => {
            let first = quiet_along(a, rest, store, below)?;
            Some(first && has_value(b, store))
        }
        Turn::Second => {
            let second = quiet_along(b, rest, store, below)?;
            Some(second && has_value(a, store))
        }
    }
}

// The other part has no value where nothing fires in a choice.
#[cycle(along)]
fn along_or(
    turn: Turn,
    a: &Arc<Tree>,
    b: &Arc<Tree>,
    rest: &[Turn],
    store: &Store<Value>,
    below: u32,
) -> Option<bool>
    requires { IsQuietBeside (turn ∷ rest.now) (trees.or_tree (tree_term (arc_value a.now)) (tree_term (arc_value b.now)))
        (values_in store.now) (suc below) }
    ensures { IfSome result
        (TellsQuiet (trees.or_tree (tree_term (arc_value a.now)) (tree_term (arc_value b.now))) (values_in store.now) (suc below)) }
{
    match turn {
        Turn::First => {
            let first = quiet_along(a, rest, store, below)?;
            if first { None } else { Some(false) }
        }
        Turn::Second => {
            let second = quiet_along(b, rest, store, below)?;
            if second { None } else { Some(false) }
        }
    }
}
