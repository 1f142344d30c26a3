ghost use Rattle.std.specs.Prelude.{◌≡◌, ℕ, List, ◌∷◌, MatchOption};
ghost use Rattle.task_model.specs.Syntax.Lexemes as terms;
ghost use Rattle.reader_grammar.specs.Parts.{lexemes};
ghost use Rattle.reader_tasks.specs.TaskOperators.{binding_keyword};
ghost use Rattle.reader_tasks.specs.declared.binding.Binding as codes;

use reader_grammar::{PositionedToken, strip_keyword};
use task_model::Keyword;

/// What a task binds a name to.
#[derive(Clone, Copy, Debug, PartialEq, Eq)]
pub enum Binding {
    /// `let`: a value.
    Let,
    /// `new`: a new place, with this content.
    New,
}

/// The binding whose keyword stands first, if one does, its place, and what stands after it.
pub fn binding_word<'t>(
    tokens: &'t [PositionedToken<'t>],
) -> Option<(Binding, u64, &'t [PositionedToken<'t>])>
    ensures { MatchOption result
        ((b : codes.Binding) (p : ℕ) (rest : List terms.Lexeme) → lexemes tokens.now ≡ terms.keyword (binding_keyword b) p ∷ rest → ⊥)
        (λ r. lexemes tokens.now ≡ terms.keyword (binding_keyword r.0) r.1 ∷ lexemes r.2.now) }
{
    if let Some((place, rest)) = strip_keyword(tokens, Keyword::Let) {
        return Some((Binding::Let, place, rest));
    }
    if let Some((place, rest)) = strip_keyword(tokens, Keyword::New) {
        return Some((Binding::New, place, rest));
    }
    None
}
