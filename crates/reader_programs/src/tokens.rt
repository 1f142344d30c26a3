ghost use Rattle.std.specs.Prelude.{◌≡◌, ◌<◌, ◌≤◌, length, List, IfOk, IfErr};
ghost use Rattle.task_model.specs.Terms.Token.{TokenTerm};
ghost use Rattle.task_syntax.specs.Tokens.{IsToken, AreTokens, AreSpans};
ghost use Rattle.reader_grammar.specs.Faults.{IsSpelled, AreSpelled};
ghost use Rattle.task_model.specs.Syntax.Lexemes.{token_term, token_terms};
ghost use Rattle.reader_grammar.specs.Parts.{lexeme, lexemes};

use exact_reading::ParseStop;
use reader_grammar::{Digits, Lexeme, PositionedToken, QuotedText};
use std::alloc::Global;
use std::str;
use task_syntax::{Token, TokenKind};

/// A token of a source, as the grammar takes it.
fn lexeme_of<'s>(source: &'s str, token: &'s Token) -> PositionedToken<'s>
    requires spelled { (term : TokenTerm) × IsToken source.now token.now term × IsSpelled term }
    requires some { token.now.from < token.now.to }
    requires within { token.now.to ≤ length source.now }
    ensures { (term : TokenTerm) → IsToken source.now token.now term → IsSpelled term → term ≡ token_term (lexeme result) }
{
    let from = token.from;
    let spelling = &source.as_bytes()[token.from as usize..token.to as usize];
    match &token.kind {
        TokenKind::Name => {
            let Ok(name) = str::from_utf8(spelling) else {
                unreachable!();
            };
            let lexeme = Lexeme::Name(name);
            PositionedToken { lexeme, from }
        }
        TokenKind::Keyword(keyword) => {
            let lexeme = Lexeme::Keyword(*keyword);
            PositionedToken { lexeme, from }
        }
        TokenKind::Number(value) => {
            let lexeme = Lexeme::Number(Digits {
                digits: spelling,
                value: *value,
            });
            PositionedToken { lexeme, from }
        }
        TokenKind::Text(content) => {
            let lexeme = Lexeme::Text(QuotedText { spelling, content });
            PositionedToken { lexeme, from }
        }
        TokenKind::Symbol(symbol) => {
            let lexeme = Lexeme::Symbol(*symbol);
            PositionedToken { lexeme, from }
        }
    }
}

/// The tokens of a source, as the grammar takes them.
pub(crate) fn lexemes_of<'s>(
    alloc: Global,
    source: &'s str,
    tokens: &'s [Token],
) -> Result<Vec<PositionedToken<'s>>, ParseStop>
    requires are { (ts : List TokenTerm) × AreTokens source.now tokens.now ts × AreSpelled ts }
    requires spans { AreSpans 0 tokens.now (length source.now) }
    ensures terms { IfOk result (λ r. (ts : List TokenTerm) → AreTokens source.now tokens.now ts → AreSpelled ts → ts
        ≡ token_terms (lexemes r.items)) }
    ensures memory { IfErr result (λ e. e ≡ ParseStop.Memory) }
{
    let mut all = Vec::with_capacity(alloc, tokens.len())?;
    let mut rest = tokens;
    while let Some((token, more)) = rest.split_first() {
        all.push(lexeme_of(source, token))?;
        rest = more;
    }
    Ok(all)
}
