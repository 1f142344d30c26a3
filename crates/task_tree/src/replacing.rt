ghost use Rattle.std.specs.Prelude.{◌≡◌, ◌∷◌, IfOk, IsSome};
ghost use Rattle.std.specs.Arc.{arc_value};
ghost use Rattle.std.specs.Option.{option_map};
ghost use Rattle.task_model.specs.Terms.Tree.{tree_term};
ghost use Rattle.task_model.specs.Running.Address.{with_node, into_left, into_first, into_second};
ghost use Rattle.task_model.specs.Running.Address as addresses;
ghost use Rattle.task_tree.specs.Down.{address_term};

use crate::down::Down;
use std::alloc::Global;
use std::sync::Arc;
use task_model::{OutOfMemory, Tree, copy_cont, share, shared};

/// The node at an address, if there is one.
pub fn node_at<'t>(t: &'t Tree, address: &[Down]) -> Option<&'t Tree>
    ensures { option_map (λ u. tree_term u.now) result ≡ addresses.node_at (tree_term t.now) (address_term address.now) }
{
    match address {
        [] => Some(t),
        [Down::Step, rest @ ..] => match t {
            Tree::Then(left, _) => node_at(left, rest),
            Tree::Next(left, _) => node_at(left, rest),
            _ => None,
        },
        [Down::First, rest @ ..] => match t {
            Tree::And(a, _) => node_at(a, rest),
            Tree::Or(a, _) => node_at(a, rest),
            _ => None,
        },
        [Down::Second, rest @ ..] => match t {
            Tree::And(_, b) => node_at(b, rest),
            Tree::Or(_, b) => node_at(b, rest),
            _ => None,
        },
    }
}

/// The tree with another node in place of the one at an address, or none exactly where there is no such node. The nodes of the
/// address are made anew, and all that stands beside it is shared.
pub fn replace(
    alloc: Global,
    t: &Tree,
    address: &[Down],
    node: Arc<Tree>,
) -> Result<Option<Arc<Tree>>, OutOfMemory>
    ensures { IfOk result (λ o. option_map (λ u. tree_term (arc_value u)) o ≡ option_map (λ _. with_node (tree_term t.now) (address_term address.now)
        (tree_term (arc_value node)))
        (addresses.node_at (tree_term t.now) (address_term address.now))) }
{
    if node_at(t, address).is_none() {
        return Ok(None);
    }
    Ok(Some(with_node_at(alloc, t, address, node)?))
}

#[cycle(replace)]
fn with_node_at(
    alloc: Global,
    t: &Tree,
    address: &[Down],
    node: Arc<Tree>,
) -> Result<Arc<Tree>, OutOfMemory>
    requires { IsSome (addresses.node_at (tree_term t.now) (address_term address.now)) }
    ensures { IfOk result (λ u. tree_term (arc_value u) ≡ with_node (tree_term t.now) (address_term address.now) (tree_term (arc_value node))) }
{
    match address {
        [] => Ok(node),
        [Down::Step, rest @ ..] => in_left(alloc, t, rest, node),
        [Down::First, rest @ ..] => in_first(alloc, t, rest, node),
        [Down::Second, rest @ ..] => in_second(alloc, t, rest, node),
    }
}

// A step with another node below its left part.
#[cycle(replace)]
fn in_left(
    alloc: Global,
    t: &Tree,
    rest: &[Down],
    node: Arc<Tree>,
) -> Result<Arc<Tree>, OutOfMemory>
    requires { IsSome (addresses.node_at (tree_term t.now) (into_left ∷ address_term rest.now)) }
    ensures { IfOk result (λ u. tree_term (arc_value u) ≡ with_node (tree_term t.now) (into_left ∷ address_term rest.now) (tree_term (arc_value node))) }
{
    match t {
        Tree::Then(left, k) => {
            let left = with_node_at(alloc, left, rest, node)?;
            shared(alloc, Tree::Then(left, copy_cont(k)?))
        }
        Tree::Next(left, k) => {
            let left = with_node_at(alloc, left, rest, node)?;
            shared(alloc, Tree::Next(left, copy_cont(k)?))
        }
        _ => unreachable!(),
    }
}

// A pair or an internal choice with another node below its first part.
#[cycle(replace)]
fn in_first(
    alloc: Global,
    t: &Tree,
    rest: &[Down],
    node: Arc<Tree>,
) -> Result<Arc<Tree>, OutOfMemory>
    requires { IsSome (addresses.node_at (tree_term t.now) (into_first ∷ address_term rest.now)) }
    ensures { IfOk result (λ u. tree_term (arc_value u) ≡ with_node (tree_term t.now) (into_first ∷ address_term rest.now) (tree_term (arc_value node))) }
{
    match t {
        Tree::And(a, b) => {
            let a = with_node_at(alloc, a, rest, node)?;
            shared(alloc, Tree::And(a, share(b)?))
        }
        Tree::Or(a, b) => {
            let a = with_node_at(alloc, a, rest, node)?;
            shared(alloc, Tree::Or(a, share(b)?))
        }
        _ => unreachable!(),
    }
}

// The same below its second part.
#[cycle(replace)]
fn in_second(
    alloc: Global,
    t: &Tree,
    rest: &[Down],
    node: Arc<Tree>,
) -> Result<Arc<Tree>, OutOfMemory>
    requires { IsSome (addresses.node_at (tree_term t.now) (into_second ∷ address_term rest.now)) }
    ensures { IfOk result (λ u. tree_term (arc_value u) ≡ with_node (tree_term t.now) (into_second ∷ address_term rest.now) (tree_term (arc_value node))) }
{
    match t {
        Tree::And(a, b) => {
            let b = with_node_at(alloc, b, rest, node)?;
            shared(alloc, Tree::And(share(a)?, b))
        }
        Tree::Or(a, b) => {
            let b = with_node_at(alloc, b, rest, node)?;
            shared(alloc, Tree::Or(share(a)?, b))
        }
        _ => unreachable!(),
    }
}
