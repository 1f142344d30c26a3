ghost use Rattle.std.specs.Prelude.{◌+◌, ◌<◌, ◌≤◌, ◌^◌, ◌∷◌, length};
ghost use Rattle.exact_reading.specs.Reading.{seen};
ghost use Rattle.task_model.specs.declared.keyword.Keyword.TheVariants as words;
ghost use Rattle.task_model.specs.Syntax.Lexemes as terms;
ghost use Rattle.task_model.specs.Terms.Scope.{scope_names};
ghost use Rattle.task_model.specs.Syntax.Grammar as grammar;
ghost use Rattle.reader_grammar.specs.Languages.{Reads};
ghost use Rattle.reader_grammar.specs.Parts.{lexemes};
ghost use Rattle.reader_tasks.specs.Tasks.{parsed_task, shown_task};

use crate::tasks::task;
use exact_reading::ParseStop;
use reader_expressions::expression;
use reader_grammar::{
    Parsed, PositionedToken, expect_keyword, expect_name, expect_symbol, name_text,
};
use reader_tasks::{case_task, if_task, inner_scope, number_behind};
use std::alloc::Global;
use task_model::{Keyword, Scope, Symbol, Task};

/// What stands behind `if`.
#[cycle(task)]
pub(crate) fn task_if<'t>(
    alloc: Global,
    room: usize,
    scope: &Scope,
    next: u32,
    place: u64,
    tokens: &'t [PositionedToken<'t>],
) -> Result<(Parsed<Task>, &'t [PositionedToken<'t>]), ParseStop>
    requires room { 2 ≤ room }
    requires numbers { next + length (lexemes tokens.now) < 2 ^ 32 }
    ensures { Reads grammar.task (shown_task (scope_names scope.now) next) room (terms.keyword words.If place ∷ lexemes tokens.now)
        (seen (λ r. (parsed_task r.0, lexemes r.1.now)) result) }
{
    let (test, rest) = expression(alloc, room - 1, tokens)?;
    let (_, rest) = expect_keyword(rest, Keyword::Then)?;
    let (yes, rest) = task(alloc, room - 1, scope, next, rest)?;
    let after = number_behind(next, &yes);
    let (_, rest) = expect_keyword(rest, Keyword::Else)?;
    let (no, rest) = task(alloc, room - 1, scope, after, rest)?;
    Ok((if_task(alloc, place, test, yes, no)?, rest))
}

/// What stands behind `case`.
#[cycle(task)]
pub(crate) fn task_case<'t>(
    alloc: Global,
    room: usize,
    scope: &Scope,
    next: u32,
    place: u64,
    tokens: &'t [PositionedToken<'t>],
) -> Result<(Parsed<Task>, &'t [PositionedToken<'t>]), ParseStop>
    requires room { 2 ≤ room }
    requires numbers { next + length (lexemes tokens.now) < 2 ^ 32 }
    ensures { Reads grammar.task (shown_task (scope_names scope.now) next) room (terms.keyword words.Case place ∷ lexemes tokens.now)
        (seen (λ r. (parsed_task r.0, lexemes r.1.now)) result) }
{
    let (list, rest) = expression(alloc, room - 1, tokens)?;
    let (_, rest) = expect_keyword(rest, Keyword::Of)?;
    let (_, rest) = expect_symbol(rest, Symbol::OpenBracket)?;
    let (_, rest) = expect_symbol(rest, Symbol::CloseBracket)?;
    let (_, rest) = expect_symbol(rest, Symbol::Arrow)?;
    let (empty, rest) = task(alloc, room - 1, scope, next, rest)?;
    let after = number_behind(next, &empty);
    let (_, rest) = expect_symbol(rest, Symbol::Bar)?;
    let (head, _, rest) = expect_name(rest)?;
    let (_, rest) = expect_symbol(rest, Symbol::Cons)?;
    let (tail, _, rest) = expect_name(rest)?;
    let (_, rest) = expect_symbol(rest, Symbol::Arrow)?;
    let head = name_text(alloc, head)?;
    let tail = name_text(alloc, tail)?;
    let behind = inner_scope(alloc, scope, &head)?;
    let inside = inner_scope(alloc, &behind, &tail)?;
    let (more, rest) = task(alloc, room - 1, &inside, after, rest)?;
    Ok((
        case_task(alloc, place, list, empty, (head, tail), more)?,
        rest,
    ))
}
