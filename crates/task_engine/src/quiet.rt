ghost use Rattle.std.specs.Prelude.{suc, IfSome};
ghost use Rattle.std.specs.Arc.{arc_value};
ghost use Rattle.task_model.specs.Terms.Tree as trees;
ghost use Rattle.task_model.specs.Terms.Tree.{cont_term, tree_term};
ghost use Rattle.task_engine.specs.Quiet.{TellsQuiet};
ghost use Rattle.task_evaluation.specs.Stores.{values_in};

use shared_store::Store;
use std::sync::Arc;
use task_model::{Cont, Tree, Value};
use task_tree::has_value;

/// Whether a tree has a value, where it is known that nothing fires in it within a height. It takes no memory.
#[cycle(quiet)]
pub(crate) fn quiet_value(t: &Tree, store: &Store<Value>, height: u32) -> Option<bool>
    ensures { IfSome result (TellsQuiet (tree_term t.now) (values_in store.now) height) }
{
    match height.checked_sub(1) {
        Some(below) => quiet_form(t, store, below),
        None => None,
    }
}

// One form, with the height that its parts may have.
#[cycle(quiet)]
fn quiet_form(t: &Tree, store: &Store<Value>, below: u32) -> Option<bool>
    ensures { IfSome result (TellsQuiet (tree_term t.now) (values_in store.now) (suc below)) }
{
    match t {
        Tree::Edit(..) => Some(true),
        Tree::Enter(_) => Some(false),
        Tree::Share(..) => Some(has_value(t, store)),
        Tree::Fail => Some(false),
        Tree::Xor(..) => Some(false),
        Tree::Then(left, k) => quiet_then(left, k, store, below),
        Tree::Next(left, k) => quiet_next(left, k, store, below),
        Tree::And(a, b) => quiet_and(a, b, store, below),
        Tree::Or(a, b) => quiet_or(a, b, store, below),
    }
}

#[cycle(quiet)]
fn quiet_then(left: &Tree, k: &Cont, store: &Store<Value>, below: u32) -> Option<bool>
    ensures { IfSome result (TellsQuiet (trees.then_tree (tree_term left.now) (cont_term k.now)) (values_in store.now) (suc below)) }
{
    let valued = quiet_value(left, store, below)?;
    if valued { None } else { Some(false) }
}

#[cycle(quiet)]
fn quiet_next(left: &Tree, k: &Cont, store: &Store<Value>, below: u32) -> Option<bool>
    ensures { IfSome result (TellsQuiet (trees.next_tree (tree_term left.now) (cont_term k.now)) (values_in store.now) (suc below)) }
{
    quiet_value(left, store, below)?;
    Some(false)
}

#[cycle(quiet)]
fn quiet_and(a: &Arc<Tree>, b: &Arc<Tree>, store: &Store<Value>, below: u32) -> Option<bool>
    ensures { IfSome result
        (TellsQuiet (trees.and_tree (tree_term (arc_value a.now)) (tree_term (arc_value b.now))) (values_in store.now) (suc below)) }
{
    let first = quiet_value(a, store, below)?;
    let second = quiet_value(b, store, below)?;
    Some(first && second)
}

#[cycle(quiet)]
fn quiet_or(a: &Arc<Tree>, b: &Arc<Tree>, store: &Store<Value>, below: u32) -> Option<bool>
    ensures { IfSome result
        (TellsQuiet (trees.or_tree (tree_term (arc_value a.now)) (tree_term (arc_value b.now))) (values_in store.now) (suc below)) }
{
    let first = quiet_value(a, store, below)?;
    if first {
        return None;
    }
    let second = quiet_value(b, store, below)?;
    if second { None } else { Some(false) }
}
