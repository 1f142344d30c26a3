ghost use Rattle.std.specs.Prelude.{◌+◌, ◌<◌, ◌≤◌, ◌^◌, length};
ghost use Rattle.exact_reading.specs.Reading.{seen};
ghost use Rattle.task_model.specs.Terms.Scope.{scope_names};
ghost use Rattle.task_model.specs.Syntax.Grammar as grammar;
ghost use Rattle.reader_grammar.specs.Languages.{Reads};
ghost use Rattle.reader_grammar.specs.Parts.{lexemes};
ghost use Rattle.reader_tasks.specs.Tasks.{parsed_task, shown_atom};

use crate::tasks::task;
use crate::word_atoms::word_atom;
use exact_reading::{ParseStop, too_nested};
use reader_grammar::{Parsed, PositionedToken, expect_symbol, strip_symbol};
use reader_tasks::grouped_task;
use std::alloc::Global;
use task_model::{Scope, Symbol, Task};

/// A task of one word and its part, a call, or a task in parentheses.
#[cycle(task)]
pub(crate) fn task_atom<'t>(
    alloc: Global,
    room: usize,
    scope: &Scope,
    next: u32,
    tokens: &'t [PositionedToken<'t>],
) -> Result<(Parsed<Task>, &'t [PositionedToken<'t>]), ParseStop>
    requires { next + length (lexemes tokens.now) < 2 ^ 32 }
    ensures { Reads grammar.task_atom (shown_atom (scope_names scope.now) next) room (lexemes tokens.now)
        (seen (λ r. (parsed_task r.0, lexemes r.1.now)) result) }
{
    if let Some((place, rest)) = strip_symbol(tokens, Symbol::Open) {
        if room < 2 {
            return Err(too_nested(tokens));
        }
        let (inner, rest) = task(alloc, room - 1, scope, next, rest)?;
        let (_, rest) = expect_symbol(rest, Symbol::Close)?;
        return Ok((grouped_task(place, inner), rest));
    }
    word_atom(alloc, room, tokens)
}
