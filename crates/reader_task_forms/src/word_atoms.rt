ghost use Rattle.std.specs.Prelude.{◌≡◌, ◌∷◌, ℕ, List};
ghost use Rattle.exact_reading.specs.Reading.{seen};
ghost use Rattle.task_model.specs.Terms.Text.{Text};
ghost use Rattle.task_model.specs.declared.symbol.Symbol.TheVariants as signs;
ghost use Rattle.task_model.specs.Syntax.Grammar as grammar;
ghost use Rattle.reader_grammar.specs.Languages.{Reads};
ghost use Rattle.reader_grammar.specs.Parts.{lexemes};
ghost use Rattle.reader_tasks.specs.Tasks.{parsed_task, shown_atom, NoSign};

use exact_reading::{ParseStop, too_nested, unexpected};
use reader_expressions::{atom, enclosed};
use reader_grammar::{Parsed, PositionedToken, basic, expect_name, strip_keyword, strip_name};
use reader_tasks::{call_task, edit_task, enter_task, fail_task, share_task};
use std::alloc::Global;
use task_model::{Keyword, Task};

/// A task of one word and its part, or a call: it has no bodies.
pub(crate) fn word_atom<'t>(
    alloc: Global,
    room: usize,
    tokens: &'t [PositionedToken<'t>],
) -> Result<(Parsed<Task>, &'t [PositionedToken<'t>]), ParseStop>
    requires { NoSign signs.Open (lexemes tokens.now) }
    ensures { (scope : List Text) (next : ℕ) → Reads grammar.task_atom (shown_atom scope next) room (lexemes tokens.now)
        (seen (λ r. (parsed_task r.0, lexemes r.1.now)) result) }
{
    if let Some((place, rest)) = strip_keyword(tokens, Keyword::Edit) {
        if room < 2 {
            return Err(too_nested(tokens));
        }
        let (value, rest) = atom(alloc, room - 1, rest)?;
        return Ok((edit_task(alloc, place, value)?, rest));
    }
    if let Some((place, rest)) = strip_keyword(tokens, Keyword::Enter) {
        if room < 2 {
            return Err(too_nested(tokens));
        }
        let (item, rest) = basic(alloc, room - 1, rest)?;
        return Ok((enter_task(alloc, place, item)?, rest));
    }
    if let Some((place, rest)) = strip_keyword(tokens, Keyword::Share) {
        if room < 1 {
            return Err(too_nested(tokens));
        }
        let (name, _, rest) = expect_name(rest)?;
        return Ok((share_task(alloc, place, name)?, rest));
    }
    if let Some((place, rest)) = strip_keyword(tokens, Keyword::Fail) {
        if room < 2 {
            return Err(too_nested(tokens));
        }
        let (item, rest) = basic(alloc, room - 1, rest)?;
        return Ok((fail_task(alloc, place, item)?, rest));
    }
    if let Some((name, place, rest)) = strip_name(tokens) {
        if room < 1 {
            return Err(too_nested(tokens));
        }
        let (items, rest) = enclosed(alloc, room - 1, rest)?;
        return Ok((call_task(alloc, place, name, items)?, rest));
    }
    Err(unexpected(tokens))
}
