ghost use Rattle.std.specs.Prelude.{◌≡◌, MatchOption, false, map};
ghost use Rattle.std.specs.List.{list_any};
ghost use Rattle.task_model.specs.Terms.Text.{same_text};
ghost use Rattle.task_model.specs.Terms.Token.{is_keyword};
ghost use Rattle.task_model.specs.Syntax.Spelling.{keyword_spelling};

use task_model::Keyword;

const KEYWORDS: &[Keyword] = &[
    Keyword::Fun,
    Keyword::Task,
    Keyword::Unit,
    Keyword::Bool,
    Keyword::Int,
    Keyword::Text,
    Keyword::Ref,
    Keyword::Let,
    Keyword::In,
    Keyword::If,
    Keyword::Then,
    Keyword::Else,
    Keyword::Case,
    Keyword::Of,
    Keyword::New,
    Keyword::Edit,
    Keyword::Enter,
    Keyword::Share,
    Keyword::Fail,
    Keyword::True,
    Keyword::False,
    Keyword::Not,
    Keyword::Fst,
    Keyword::Snd,
    Keyword::Len,
    Keyword::Quot,
    Keyword::Rem,
    Keyword::Nil,
];

/// The keyword with this spelling.
pub(crate) fn keyword_spelled(word: &[u8]) -> Option<Keyword>
    ensures { MatchOption result
        (is_keyword word.now ≡ false)
        (λ k. word.now ≡ keyword_spelling k) }
{
    first_of(KEYWORDS, word)
}

/// The first of these keywords that has this spelling.
fn first_of(keywords: &[Keyword], word: &[u8]) -> Option<Keyword>
    ensures { MatchOption result
        (list_any (same_text word.now) (map keyword_spelling keywords.now) ≡ false)
        (λ k. word.now ≡ keyword_spelling k) }
{
    for keyword in keywords {
        if word == keyword.spelling().as_bytes() {
            return Some(*keyword);
        }
    }
    None
}
