ghost use Rattle.std.specs.Prelude.{◌≡◌, ◌++◌, ◌<◌, ◌≤◌, ℕ, List, length, MatchOption, IfSome};
ghost use Rattle.std.specs.Prelude.{map};
ghost use Rattle.task_model.specs.Syntax.Spelling.{symbol_spelling};
ghost use Rattle.task_syntax.specs.Runs.{BeginsWithCharacter};
ghost use Rattle.task_syntax.specs.Table.{NoneBegins, FirstBegins, symbols_with};

use task_model::Symbol;

/// What stands after this symbol, if a text begins with it.
fn strip_symbol(symbol: Symbol, text: &str) -> Option<&str>
    ensures { MatchOption result
        ((rest : List ℕ) → text.now ≡ symbol_spelling symbol ++ rest → ⊥)
        (λ rest. text.now ≡ symbol_spelling symbol ++ rest.now) }
{
    text.strip_prefix(symbol.spelling())
}

/// The symbols that begin with this character, longer ones first.
fn symbols_with(first: char) -> &'static [Symbol]
    ensures { result.now ≡ symbols_with first }
{
    match first {
        '(' => &[Symbol::Open],
        ')' => &[Symbol::Close],
        '[' => &[Symbol::OpenBracket],
        ']' => &[Symbol::CloseBracket],
        ',' => &[Symbol::Comma],
        ':' => &[Symbol::Assign, Symbol::Cons, Symbol::Colon],
        ';' => &[Symbol::Semicolon],
        '.' => &[Symbol::Dot],
        '=' => &[Symbol::Equal, Symbol::Define],
        '!' => &[Symbol::NotEqual, Symbol::Bang],
        '<' => &[
            Symbol::Pair,
            Symbol::InternalChoice,
            Symbol::ExternalChoice,
            Symbol::LessEqual,
            Symbol::Less,
        ],
        '>' => &[
            Symbol::InternalStep,
            Symbol::UserStep,
            Symbol::GreaterEqual,
            Symbol::Greater,
        ],
        '+' => &[Symbol::Join, Symbol::Plus],
        '-' => &[Symbol::Arrow, Symbol::Minus],
        '*' => &[Symbol::Star],
        '|' => &[Symbol::Or, Symbol::Bar],
        '&' => &[Symbol::And],
        _ => &[],
    }
}

/// The first of these symbols that a text begins with, and what stands after it.
fn first_of<'s>(symbols: &[Symbol], text: &'s str) -> Option<(Symbol, &'s str)>
    ensures { MatchOption result
        (NoneBegins text.now (map symbol_spelling symbols.now))
        (λ r. FirstBegins text.now (map symbol_spelling symbols.now) (symbol_spelling r.0) r.1.now) }
{
    for symbol in symbols {
        if let Some(rest) = strip_symbol(*symbol, text) {
            return Some((*symbol, rest));
        }
    }
    None
}

/// The longest symbol at the front of a text, and what stands after it.
pub(crate) fn symbol_at(text: &str, first: char) -> Option<(Symbol, &str)>
    requires { (more : List ℕ) × BeginsWithCharacter text.now first more }
    ensures { MatchOption result
        ((s : _) (rest : List ℕ) → text.now ≡ symbol_spelling s ++ rest → ⊥)
        (λ r. (text.now ≡ symbol_spelling r.0 ++ r.1.now)
        × ((s : _) (rest : List ℕ) → text.now ≡ symbol_spelling s ++ rest → length (symbol_spelling s) ≤ length (symbol_spelling r.0))) }
{
    first_of(symbols_with(first), text)
}
