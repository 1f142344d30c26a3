ghost use Rattle.std.specs.Prelude.{◌≡◌, ◌+◌, ◌<◌, ◌≤◌, ◌^◌, ◌∷◌, length};
ghost use Rattle.exact_reading.specs.Reading.{seen};
ghost use Rattle.task_model.specs.declared.keyword.Keyword.TheVariants as words;
ghost use Rattle.task_model.specs.Terms.Scope.{scope_names};
ghost use Rattle.task_model.specs.Syntax.Grammar as grammar;
ghost use Rattle.reader_grammar.specs.Languages.{Reads};
ghost use Rattle.reader_grammar.specs.Parts.{lexemes};
ghost use Rattle.reader_tasks.specs.declared.binding.Binding.{Binding};
ghost use Rattle.reader_tasks.specs.TaskOperators.{binding_keyword};
ghost use Rattle.reader_tasks.specs.Tasks.{parsed_task, shown_task, NoWord};

use crate::binders::{task_binding, task_put};
use crate::branches::{task_case, task_if};
use crate::series::steps;
use exact_reading::{ParseStop, too_nested};
use reader_grammar::{Parsed, PositionedToken, strip_keyword, strip_name, strip_symbol};
use reader_tasks::binding_word;
use std::alloc::Global;
use task_model::{Keyword, Scope, Symbol, Task};

/// A task of at most so many levels. Its first body has the number `next`.
#[cycle(task)]
pub fn task<'t>(
    alloc: Global,
    room: usize,
    scope: &Scope,
    next: u32,
    tokens: &'t [PositionedToken<'t>],
) -> Result<(Parsed<Task>, &'t [PositionedToken<'t>]), ParseStop>
    requires { next + length (lexemes tokens.now) < 2 ^ 32 }
    ensures { Reads grammar.task (shown_task (scope_names scope.now) next) room (lexemes tokens.now)
        (seen (λ r. (parsed_task r.0, lexemes r.1.now)) result) }
{
    if let Some((binding, place, rest)) = binding_word(tokens) {
        if room < 2 {
            return Err(too_nested(tokens));
        }
        return task_binding(alloc, room, scope, next, binding, place, rest);
    }
    if let Some((place, rest)) = strip_keyword(tokens, Keyword::If) {
        if room < 2 {
            return Err(too_nested(tokens));
        }
        return task_if(alloc, room, scope, next, place, rest);
    }
    if let Some((place, rest)) = strip_keyword(tokens, Keyword::Case) {
        if room < 2 {
            return Err(too_nested(tokens));
        }
        return task_case(alloc, room, scope, next, place, rest);
    }
    wordless(alloc, room, scope, next, tokens)
}

/// A task that begins with none of the words of tasks.
#[cycle(task)]
fn wordless<'t>(
    alloc: Global,
    room: usize,
    scope: &Scope,
    next: u32,
    tokens: &'t [PositionedToken<'t>],
) -> Result<(Parsed<Task>, &'t [PositionedToken<'t>]), ParseStop>
    requires no_binding { (b : Binding) → NoWord (binding_keyword b) (lexemes tokens.now) }
    requires no_if { NoWord words.If (lexemes tokens.now) }
    requires no_case { NoWord words.Case (lexemes tokens.now) }
    requires numbers { next + length (lexemes tokens.now) < 2 ^ 32 }
    ensures { Reads grammar.task (shown_task (scope_names scope.now) next) room (lexemes tokens.now)
        (seen (λ r. (parsed_task r.0, lexemes r.1.now)) result) }
{
    let Some((name, place, rest)) = strip_name(tokens) else {
        return steps(alloc, room, scope, next, tokens);
    };
    if room < 1 {
        return Err(too_nested(tokens));
    }
    let Some(_) = strip_symbol(rest, Symbol::Assign) else {
        return steps(alloc, room, scope, next, tokens);
    };
    if room < 2 {
        return Err(too_nested(rest));
    }
    task_put(alloc, room, scope, next, (name, place), rest)
}
