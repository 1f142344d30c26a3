ghost use Rattle.std.specs.Prelude.{◌≡◌, List, IfOk, None};
ghost use Rattle.std.specs.Option.{option_map};
ghost use Rattle.std.specs.Arc.{arc_value};
ghost use Rattle.task_model.specs.Terms.Value.{ValueTerm, value_term};
ghost use Rattle.task_model.specs.Terms.Tree as trees;
ghost use Rattle.task_model.specs.Terms.Tree.{TreeTerm, cont_term, tree_term};
ghost use Rattle.task_model.specs.Running.Rules as rules;
ghost use Rattle.task_evaluation.specs.Kinds as kinds;
ghost use Rattle.task_evaluation.specs.Stores.{values_in};
ghost use Rattle.task_engine.specs.Strides.{after_stride, TellsValue};

use shared_store::Store;
use std::alloc::Global;
use std::sync::Arc;
use task_evaluation::{PairKind, StepKind, pair_tree, step_tree};
use task_model::{Cont, OutOfMemory, Tree, Value, copy_cont, copy_tree, share, shared};
use task_tree::value;

/// What a stride leads to.
#[derive(Drop)]
pub struct Strode {
    /// The tree after it, or nothing where nothing fired: the tree is as it was.
    pub tree: Option<Tree>,
    /// Whether the tree after the stride has a value.
    pub valued: bool,
}

/// A stride in which nothing fired, of a tree that has a value or none.
pub(crate) fn still(valued: bool) -> Strode
    ensures { result ≡ record { tree = None; valued = valued } }
{
    Strode { tree: None, valued }
}

/// The tree after a stride.
pub(crate) fn strode_tree(strode: Option<Tree>, old: &Tree) -> Result<Tree, OutOfMemory>
    ensures { IfOk result (λ t. tree_term t ≡ after_stride (tree_term old.now) strode) }
{
    match strode {
        Some(t) => Ok(t),
        None => copy_tree(old),
    }
}

// The same as a part of a tree: where nothing changed it is shared.
fn strode_part(
    alloc: Global,
    strode: Option<Tree>,
    old: &Arc<Tree>,
) -> Result<Arc<Tree>, OutOfMemory>
    ensures { IfOk result (λ t. tree_term (arc_value t) ≡ after_stride (tree_term (arc_value old.now)) strode) }
{
    match strode {
        Some(t) => shared(alloc, t),
        None => share(old),
    }
}

/// The value of the tree after a stride.
pub(crate) fn strode_value(
    alloc: Global,
    strode: &Option<Tree>,
    old: &Tree,
    store: &Store<Value>,
) -> Result<Option<Value>, OutOfMemory>
    ensures { IfOk result
        (λ v. option_map value_term v ≡ rules.value_of (after_stride (tree_term old.now) strode.now) (values_in store.now)) }
{
    match strode {
        Some(t) => value(alloc, t, store),
        None => value(alloc, old, store),
    }
}

/// A step whose left was strided. It has no value.
pub(crate) fn step_of(
    alloc: Global,
    kind: StepKind,
    left: Option<Tree>,
    k: &Cont,
) -> Result<Strode, OutOfMemory>
    ensures tree { IfOk result (λ s. (t : TreeTerm) → after_stride (kinds.step_tree kind t (cont_term k.now)) s.tree
        ≡ kinds.step_tree kind (after_stride t left) (cont_term k.now)) }
    ensures none { IfOk result (λ s. s.tree ≡ None → left ≡ None) }
    ensures valued { IfOk result
        (λ s. (t : TreeTerm) (σ : List ValueTerm) → TellsValue (kinds.step_tree kind t (cont_term k.now)) σ s) }
{
    match left {
        None => Ok(still(false)),
        Some(t) => {
            let left = shared(alloc, t)?;
            Ok(Strode {
                tree: Some(step_tree(kind, left, copy_cont(k)?)),
                valued: false,
            })
        }
    }
}

// A pair whose parts were both strided.
fn pair_of(
    alloc: Global,
    kind: PairKind,
    t: Option<Tree>,
    a: &Arc<Tree>,
    u: Option<Tree>,
    b: &Arc<Tree>,
) -> Result<Option<Tree>, OutOfMemory>
    ensures tree { IfOk result (λ o. after_stride (kinds.pair_tree kind (tree_term (arc_value a.now)) (tree_term (arc_value b.now))) o
        ≡ kinds.pair_tree kind (after_stride (tree_term (arc_value a.now)) t) (after_stride (tree_term (arc_value b.now)) u)) }
    ensures none { IfOk result (λ o. o ≡ None → (t ≡ None) × (u ≡ None)) }
{
    match (t, u) {
        (None, None) => Ok(None),
        (t, u) => {
            let a = strode_part(alloc, t, a)?;
            Ok(Some(pair_tree(kind, a, strode_part(alloc, u, b)?)))
        }
    }
}

/// A conjunction whose parts were both strided. It has a value where both have one.
pub(crate) fn and_of(
    alloc: Global,
    t: Strode,
    a: &Arc<Tree>,
    u: Strode,
    b: &Arc<Tree>,
) -> Result<Strode, OutOfMemory>
    ensures tree { IfOk result (λ s. after_stride (trees.and_tree (tree_term (arc_value a.now)) (tree_term (arc_value b.now))) s.tree
        ≡ trees.and_tree (after_stride (tree_term (arc_value a.now)) t.tree) (after_stride (tree_term (arc_value b.now)) u.tree)) }
    ensures none { IfOk result (λ s. s.tree ≡ None → (t.tree ≡ None) × (u.tree ≡ None)) }
    ensures valued { IfOk result
        (λ s. (σ : List ValueTerm) → TellsValue (tree_term (arc_value a.now)) σ t → TellsValue (tree_term (arc_value b.now)) σ u
        → TellsValue (trees.and_tree (tree_term (arc_value a.now)) (tree_term (arc_value b.now))) σ s) }
{
    let valued = t.valued && u.valued;
    let tree = pair_of(alloc, PairKind::And, t.tree, a, u.tree, b)?;
    Ok(Strode { tree, valued })
}

/// An internal choice whose parts were both strided, the first of which has no value: the second alone where it has a value, and else
/// both.
pub(crate) fn or_of(
    alloc: Global,
    t: Option<Tree>,
    a: &Arc<Tree>,
    u: Strode,
    b: &Arc<Tree>,
) -> Result<Strode, OutOfMemory>
    ensures tree { IfOk result (λ s. (σ : List ValueTerm) → TellsValue (tree_term (arc_value b.now)) σ u
        → after_stride (trees.or_tree (tree_term (arc_value a.now)) (tree_term (arc_value b.now))) s.tree
        ≡ rules.or_of (rules.value_of (after_stride (tree_term (arc_value b.now)) u.tree) σ)
        (after_stride (tree_term (arc_value a.now)) t) (after_stride (tree_term (arc_value b.now)) u.tree)) }
    ensures none { IfOk result (λ s. s.tree ≡ None → (t ≡ None) × (u.tree ≡ None)) }
    ensures valued { IfOk result
        (λ s. (σ : List ValueTerm) → rules.value_of (after_stride (tree_term (arc_value a.now)) t) σ ≡ None
        → TellsValue (tree_term (arc_value b.now)) σ u
        → TellsValue (trees.or_tree (tree_term (arc_value a.now)) (tree_term (arc_value b.now))) σ s) }
{
    if u.valued {
        let tree = strode_tree(u.tree, b)?;
        Ok(Strode {
            tree: Some(tree),
            valued: true,
        })
    } else {
        let tree = pair_of(alloc, PairKind::Or, t, a, u.tree, b)?;
        Ok(Strode {
            tree,
            valued: false,
        })
    }
}
