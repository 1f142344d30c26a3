//! Parts of trees: a step, and the type of what its cont takes.
ghost use Rattle.std.specs.Prelude.{◌≡◌, List, IfSome};
ghost use Rattle.task_model.specs.Terms.Basic.{BasicTerm, basic_term};
ghost use Rattle.task_model.specs.Terms.Value.{ValueTerm};
ghost use Rattle.task_model.specs.Terms.Tree.{cont_term, tree_term, at};
ghost use Rattle.task_model.specs.Running.Checked.{CheckedTerm};
ghost use Rattle.task_model.specs.Checking.Fits.{Fits, TreeHas};
ghost use Rattle.testing_engine.specs.StepFits.{StepFits};

use task_model::{Basic, Cont, Tree};

/// A step's cont, and the type of what it takes.
#[derive(Clone, Copy)]
pub(crate) struct Step<'t> {
    pub cont: &'t Cont,
    pub takes: &'t Basic,
}

// The type of an editor.
fn edited(t: &Tree) -> Option<&Basic>
    ensures { IfSome result
        (λ b. (c : CheckedTerm) (Σ : List BasicTerm) (a : BasicTerm) → TreeHas c Σ (tree_term t.now) a → a ≡ basic_term b.now) }
{
    match t {
        Tree::Edit(b, _) => Some(b),
        Tree::Enter(b) => Some(b),
        Tree::Share(b, _) => Some(b),
        _ => None,
    }
}

/// The first step of a tree, in pre-order, whose left part is an editor.
#[cycle(steps)]
pub(crate) fn step_in(t: &Tree) -> Option<Step<'_>>
    ensures { IfSome result
        (λ s. (c : CheckedTerm) (σ : List ValueTerm) → Fits c (at (tree_term t.now) σ) → StepFits c (cont_term s.cont.now)
        (basic_term s.takes.now) σ) }
{
    match t {
        Tree::Then(left, cont) => match edited(left) {
            Some(takes) => Some(Step { cont, takes }),
            None => step_in(left),
        },
        Tree::Next(left, cont) => match edited(left) {
            Some(takes) => Some(Step { cont, takes }),
            None => step_in(left),
        },
        Tree::And(a, b) => match step_in(a) {
            Some(step) => Some(step),
            None => step_in(b),
        },
        Tree::Or(a, b) => match step_in(a) {
            Some(step) => Some(step),
            None => step_in(b),
        },
        _ => None,
    }
}
