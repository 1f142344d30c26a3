ghost use Rattle.std.specs.Prelude.{◌≡◌, ◌+◌, ◌<◌, ◌≤◌, ◌^◌, ◌∷◌, length};
ghost use Rattle.exact_reading.specs.Reading.{seen};
ghost use Rattle.task_model.specs.declared.symbol.Symbol.TheVariants as signs;
ghost use Rattle.task_model.specs.Syntax.Lexemes as terms;
ghost use Rattle.task_model.specs.Terms.Scope.{scope_names};
ghost use Rattle.task_model.specs.Syntax.Grammar as grammar;
ghost use Rattle.reader_grammar.specs.Languages.{Reads};
ghost use Rattle.reader_grammar.specs.Parts.{lexemes};
ghost use Rattle.reader_tasks.specs.TaskOperators.{binding_keyword};
ghost use Rattle.reader_tasks.specs.Tasks.{parsed_task, shown_task, StartsWith};

use crate::tasks::task;
use exact_reading::ParseStop;
use reader_expressions::expression;
use reader_grammar::{
    Parsed, PositionedToken, expect_keyword, expect_name, expect_symbol, name_text,
};
use reader_tasks::{Binding, binding_task, inner_scope, put_task};
use std::alloc::Global;
use task_model::{Keyword, Scope, Symbol, Task};

/// What stands behind `let` or `new`.
#[cycle(task)]
pub(crate) fn task_binding<'t>(
    alloc: Global,
    room: usize,
    scope: &Scope,
    next: u32,
    binding: Binding,
    place: u64,
    tokens: &'t [PositionedToken<'t>],
) -> Result<(Parsed<Task>, &'t [PositionedToken<'t>]), ParseStop>
    requires room { 2 ≤ room }
    requires numbers { next + length (lexemes tokens.now) < 2 ^ 32 }
    ensures { Reads grammar.task (shown_task (scope_names scope.now) next) room
        (terms.keyword (binding_keyword binding) place ∷ lexemes tokens.now) (seen (λ r. (parsed_task r.0, lexemes r.1.now)) result) }
{
    let (name, _, rest) = expect_name(tokens)?;
    let (_, rest) = expect_symbol(rest, Symbol::Define)?;
    let (value, rest) = expression(alloc, room - 1, rest)?;
    let (_, rest) = expect_keyword(rest, Keyword::In)?;
    let name = name_text(alloc, name)?;
    let inside = inner_scope(alloc, scope, &name)?;
    let (body, rest) = task(alloc, room - 1, &inside, next, rest)?;
    Ok((
        binding_task(alloc, place, binding, name, value, body)?,
        rest,
    ))
}

/// What stands behind a name, where `:=` does.
#[cycle(task)]
pub(crate) fn task_put<'t>(
    alloc: Global,
    room: usize,
    scope: &Scope,
    next: u32,
    name: (&'t str, u64),
    tokens: &'t [PositionedToken<'t>],
) -> Result<(Parsed<Task>, &'t [PositionedToken<'t>]), ParseStop>
    requires room { 2 ≤ room }
    requires assigned { StartsWith signs.Assign (lexemes tokens.now) }
    requires numbers { next + length (lexemes tokens.now) < 2 ^ 32 }
    ensures { Reads grammar.task (shown_task (scope_names scope.now) next) room
        (terms.name name.entry.0.now name.entry.1 ∷ lexemes tokens.now) (seen (λ r. (parsed_task r.0, lexemes r.1.now)) result) }
{
    let (_, rest) = expect_symbol(tokens, Symbol::Assign)?;
    let (value, rest) = expression(alloc, room - 1, rest)?;
    let (_, rest) = expect_symbol(rest, Symbol::Semicolon)?;
    let (body, rest) = task(alloc, room - 1, scope, next, rest)?;
    let (name, place) = name;
    let name = name_text(alloc, name)?;
    Ok((put_task(alloc, place, name, value, body)?, rest))
}
