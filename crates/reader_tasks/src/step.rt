ghost use Rattle.std.specs.Prelude.{◌≡◌, ℕ, List, ◌∷◌, MatchOption};
ghost use Rattle.task_model.specs.Syntax.Lexemes as terms;
ghost use Rattle.reader_grammar.specs.Parts.{lexemes};
ghost use Rattle.reader_tasks.specs.TaskOperators.{step_symbol};
ghost use Rattle.reader_tasks.specs.declared.step.Step as codes;

use reader_grammar::{PositionedToken, strip_symbol};
use task_model::Symbol;

/// How a task goes on: by itself once it has a value, or as the user says.
#[derive(Clone, Copy, Debug, PartialEq, Eq)]
pub enum Step {
    /// `>>=`
    ByItself,
    /// `>>?`
    ByUser,
}

/// The step that stands first, if one does, its place, and what stands after it.
pub fn step_sign<'t>(
    tokens: &'t [PositionedToken<'t>],
) -> Option<(Step, u64, &'t [PositionedToken<'t>])>
    ensures { MatchOption result
        ((o : codes.Step) (p : ℕ) (rest : List terms.Lexeme) → lexemes tokens.now ≡ terms.symbol (step_symbol o) p ∷ rest → ⊥)
        (λ r. lexemes tokens.now ≡ terms.symbol (step_symbol r.0) r.1 ∷ lexemes r.2.now) }
{
    if let Some((place, rest)) = strip_symbol(tokens, Symbol::InternalStep) {
        return Some((Step::ByItself, place, rest));
    }
    if let Some((place, rest)) = strip_symbol(tokens, Symbol::UserStep) {
        return Some((Step::ByUser, place, rest));
    }
    None
}
