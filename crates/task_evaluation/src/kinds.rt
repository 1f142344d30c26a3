ghost use Rattle.std.specs.Prelude.{◌≡◌};
ghost use Rattle.std.specs.Arc.{arc_value};
ghost use Rattle.task_model.specs.Terms.Tree.{cont_term, tree_term};
ghost use Rattle.task_evaluation.specs.Kinds as kinds;

use std::sync::Arc;
use task_model::{Cont, Tree};

/// The kinds of steps.
#[derive(Clone, Copy)]
pub enum StepKind {
    Then,
    Next,
}

/// The kinds of pairs of trees.
#[derive(Clone, Copy)]
pub enum PairKind {
    And,
    Or,
}

/// A step of a kind.
pub fn step_tree(kind: StepKind, left: Arc<Tree>, k: Cont) -> Tree
    ensures { tree_term result ≡ kinds.step_tree kind (tree_term (arc_value left)) (cont_term k) }
{
    match kind {
        StepKind::Then => Tree::Then(left, k),
        StepKind::Next => Tree::Next(left, k),
    }
}

/// A pair of a kind.
pub fn pair_tree(kind: PairKind, a: Arc<Tree>, b: Arc<Tree>) -> Tree
    ensures { tree_term result ≡ kinds.pair_tree kind (tree_term (arc_value a)) (tree_term (arc_value b)) }
{
    match kind {
        PairKind::And => Tree::And(a, b),
        PairKind::Or => Tree::Or(a, b),
    }
}
