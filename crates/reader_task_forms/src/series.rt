ghost use Rattle.std.specs.Prelude.{◌+◌, ◌<◌, ◌≤◌, ◌^◌, length};
ghost use Rattle.exact_reading.specs.Reading.{seen};
ghost use Rattle.task_model.specs.Terms.Scope.{scope_names};
ghost use Rattle.task_model.specs.Syntax.Grammar as grammar;
ghost use Rattle.reader_grammar.specs.Languages.{Reads};
ghost use Rattle.reader_grammar.specs.Parts.{lexemes};
ghost use Rattle.reader_tasks.specs.Tasks.{parsed_task, shown_chain, shown_choice, Steps};

use crate::atoms::task_atom;
use crate::tasks::task;
use exact_reading::{ParseStop, too_nested};
use reader_grammar::{
    Parsed, PositionedToken, expect_name, expect_symbol, name_text, strip_symbol,
};
use reader_tasks::{
    and_task, choice_sign, choice_task, inner_scope, number_behind, number_of_choice,
    number_of_step, step_sign, step_task,
};
use std::alloc::Global;
use task_model::{Scope, Symbol, Task};

/// A choice, and perhaps what comes next.
#[cycle(task)]
pub(crate) fn steps<'t>(
    alloc: Global,
    room: usize,
    scope: &Scope,
    next: u32,
    tokens: &'t [PositionedToken<'t>],
) -> Result<(Parsed<Task>, &'t [PositionedToken<'t>]), ParseStop>
    requires { next + length (lexemes tokens.now) < 2 ^ 32 }
    ensures { Steps (scope_names scope.now) next room (lexemes tokens.now) (seen (λ r. (parsed_task r.0, lexemes r.1.now)) result) }
{
    let (left, rest) = choice(alloc, room, scope, next, tokens)?;
    let Some((step, _, after)) = step_sign(rest) else {
        return Ok((left, rest));
    };
    if left.levels >= room {
        return Err(too_nested(rest));
    }
    let (name, _, after) = expect_name(after)?;
    let (_, after) = expect_symbol(after, Symbol::Dot)?;
    let number = number_of_step(next, &left);
    let name = name_text(alloc, name)?;
    let inside = inner_scope(alloc, scope, &name)?;
    let (right, after) = task(alloc, room - 1, &inside, number, after)?;
    Ok((
        step_task(alloc, scope, next, left, step, name, right)?,
        after,
    ))
}

/// Chains with choices between them.
#[cycle(task)]
pub(crate) fn choice<'t>(
    alloc: Global,
    room: usize,
    scope: &Scope,
    next: u32,
    tokens: &'t [PositionedToken<'t>],
) -> Result<(Parsed<Task>, &'t [PositionedToken<'t>]), ParseStop>
    requires { next + length (lexemes tokens.now) < 2 ^ 32 }
    ensures { Reads (grammar.series grammar.choice) (shown_choice (scope_names scope.now) next) room (lexemes tokens.now)
        (seen (λ r. (parsed_task r.0, lexemes r.1.now)) result) }
{
    let (mut left, mut rest) = chain(alloc, room, scope, next, tokens)?;
    while let Some((choice, _, after)) = choice_sign(rest) {
        if left.levels >= room {
            return Err(too_nested(rest));
        }
        let number = number_of_choice(next, &left, choice);
        let (right, after) = chain(alloc, room - 1, scope, number, after)?;
        left = choice_task(alloc, scope, next, left, choice, right)?;
        rest = after;
    }
    Ok((left, rest))
}

/// Atoms of tasks with `<&>` between them.
#[cycle(task)]
fn chain<'t>(
    alloc: Global,
    room: usize,
    scope: &Scope,
    next: u32,
    tokens: &'t [PositionedToken<'t>],
) -> Result<(Parsed<Task>, &'t [PositionedToken<'t>]), ParseStop>
    requires { next + length (lexemes tokens.now) < 2 ^ 32 }
    ensures { Reads (grammar.series grammar.chain) (shown_chain (scope_names scope.now) next) room (lexemes tokens.now)
        (seen (λ r. (parsed_task r.0, lexemes r.1.now)) result) }
{
    let (mut left, mut rest) = task_atom(alloc, room, scope, next, tokens)?;
    while let Some((_, after)) = strip_symbol(rest, Symbol::Pair) {
        if left.levels >= room {
            return Err(too_nested(rest));
        }
        let number = number_behind(next, &left);
        let (right, after) = task_atom(alloc, room - 1, scope, number, after)?;
        left = and_task(alloc, left, right)?;
        rest = after;
    }
    Ok((left, rest))
}
