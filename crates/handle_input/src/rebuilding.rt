ghost use Rattle.std.specs.Prelude.{◌≡◌, IfOk};
ghost use Rattle.std.specs.Option.{option_map};
ghost use Rattle.std.specs.Arc.{arc_value};
ghost use Rattle.task_model.specs.Terms.Tree.{cont_term, tree_term};
ghost use Rattle.task_evaluation.specs.Kinds as kinds;

use std::alloc::Global;
use std::sync::Arc;
use task_evaluation::{PairKind, StepKind, pair_tree, step_tree};
use task_model::{Cont, OutOfMemory, Tree, copy_cont, share, shared};

/// What an input led to, in memory of its own.
pub(crate) fn in_memory(alloc: Global, led: Option<Tree>) -> Result<Option<Arc<Tree>>, OutOfMemory>
    ensures { IfOk result (λ o. option_map (λ u. tree_term (arc_value u)) o ≡ option_map tree_term led) }
{
    match led {
        None => Ok(None),
        Some(t) => Ok(Some(shared(alloc, t)?)),
    }
}

/// A step over the part that an input led to.
pub(crate) fn in_step(
    kind: StepKind,
    led: Option<Arc<Tree>>,
    k: &Cont,
) -> Result<Option<Tree>, OutOfMemory>
    ensures { IfOk result
        (λ o. option_map tree_term o ≡ option_map (λ t. kinds.step_tree kind (tree_term (arc_value t)) (cont_term k.now)) led) }
{
    match led {
        None => Ok(None),
        Some(left) => Ok(Some(step_tree(kind, left, copy_cont(k)?))),
    }
}

/// A pair whose first part an input led to.
pub(crate) fn in_first(
    kind: PairKind,
    led: Option<Arc<Tree>>,
    other: &Arc<Tree>,
) -> Result<Option<Tree>, OutOfMemory>
    ensures { IfOk result
        (λ o. option_map tree_term o ≡ option_map (λ t. kinds.pair_tree kind (tree_term (arc_value t)) (tree_term (arc_value other.now))) led) }
{
    match led {
        None => Ok(None),
        Some(part) => Ok(Some(pair_tree(kind, part, share(other)?))),
    }
}

/// The same, in memory of its own.
pub(crate) fn first_in_memory(
    alloc: Global,
    kind: PairKind,
    led: Option<Arc<Tree>>,
    other: &Arc<Tree>,
) -> Result<Option<Arc<Tree>>, OutOfMemory>
    ensures { IfOk result (λ o. option_map (λ u. tree_term (arc_value u)) o
        ≡ option_map (λ t. kinds.pair_tree kind (tree_term (arc_value t)) (tree_term (arc_value other.now))) led) }
{
    match led {
        None => Ok(None),
        Some(part) => {
            let other = share(other)?;
            Ok(Some(shared(alloc, pair_tree(kind, part, other))?))
        }
    }
}

/// A pair whose second part an input led to.
pub(crate) fn in_second(
    kind: PairKind,
    other: &Arc<Tree>,
    led: Option<Arc<Tree>>,
) -> Result<Option<Tree>, OutOfMemory>
    ensures { IfOk result
        (λ o. option_map tree_term o ≡ option_map (λ t. kinds.pair_tree kind (tree_term (arc_value other.now)) (tree_term (arc_value t))) led) }
{
    match led {
        None => Ok(None),
        Some(part) => Ok(Some(pair_tree(kind, share(other)?, part))),
    }
}

/// The same, in memory of its own.
pub(crate) fn second_in_memory(
    alloc: Global,
    kind: PairKind,
    other: &Arc<Tree>,
    led: Option<Arc<Tree>>,
) -> Result<Option<Arc<Tree>>, OutOfMemory>
    ensures { IfOk result (λ o. option_map (λ u. tree_term (arc_value u)) o
        ≡ option_map (λ t. kinds.pair_tree kind (tree_term (arc_value other.now)) (tree_term (arc_value t))) led) }
{
    match led {
        None => Ok(None),
        Some(part) => {
            let other = share(other)?;
            Ok(Some(shared(alloc, pair_tree(kind, other, part))?))
        }
    }
}
