ghost use Rattle.std.specs.Prelude.{◌≡◌, ℕ, List, ◌∷◌, MatchOption};
ghost use Rattle.task_model.specs.Syntax.Lexemes as terms;
ghost use Rattle.reader_grammar.specs.Parts.{lexemes};
ghost use Rattle.reader_programs.specs.DefinitionKeywords.{word_of};
ghost use Rattle.reader_programs.specs.declared.definition_words.DefinitionWord as codes;

use reader_grammar::{PositionedToken, strip_keyword};
use task_model::Keyword;

/// The word that a definition begins with.
#[derive(Clone, Copy, Debug, PartialEq, Eq)]
pub(crate) enum DefinitionWord {
    Function,
    Task,
}

/// The word of a definition that stands first, if one does, its place, and what stands after it.
pub(crate) fn definition_word<'t>(
    tokens: &'t [PositionedToken<'t>],
) -> Option<(DefinitionWord, u64, &'t [PositionedToken<'t>])>
    ensures { MatchOption result
        ((k : codes.DefinitionWord) (p : ℕ) (rest : List terms.Lexeme) → lexemes tokens.now ≡ terms.keyword (word_of k) p ∷ rest → ⊥)
        (λ r. lexemes tokens.now ≡ terms.keyword (word_of r.0) r.1 ∷ lexemes r.2.now) }
{
    if let Some((place, rest)) = strip_keyword(tokens, Keyword::Fun) {
        return Some((DefinitionWord::Function, place, rest));
    }
    if let Some((place, rest)) = strip_keyword(tokens, Keyword::Task) {
        return Some((DefinitionWord::Task, place, rest));
    }
    None
}
