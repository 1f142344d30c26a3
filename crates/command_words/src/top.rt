ghost use Rattle.std.specs.Prelude.{◌≡◌, ◌∷◌, IfErr, IfOk};
ghost use Rattle.std.specs.List.{All};
ghost use Rattle.std.specs.Str.{IsUtf8};
ghost use Rattle.clap.specs.Walk.{texts};
ghost use Rattle.command_words.specs.Commands.{IsAsked, IsInRange, command_of, command_term};

use crate::command::Command;
use crate::reading::{bound, check, drill, json, run, serve, soak};
use crate::stop::WordStop;
use std::alloc::Global;
use task_model::TaskText;

/// The command that the words ask for (docs/FORMATS.md, "Words"), with its numbers within their ranges; or they are outside the grammar.
pub fn read_command(alloc: Global, words: &[TaskText]) -> Result<Command, WordStop>
    ensures asked { IsAsked (command_of words.now) result }
    ensures ranges { IfOk result (λ command. IsInRange (command_term command)) }
{
    match words {
        [] => Err(WordStop::Outside),
        [name, rest @ ..] => named(alloc, name.as_str(), rest),
    }
}

// The command of this name, with the words behind it.
fn named(alloc: Global, name: &str, words: &[TaskText]) -> Result<Command, WordStop>
    ensures asked { IsAsked (command_of (name.now ∷ words.now)) result }
    ensures ranges { IfOk result (λ command. IsInRange (command_term command)) }
{
    match texts_of(alloc, words) {
        Ok(words) => by_name(alloc, name, words.as_slice()),
        Err(stop) => Err(stop),
    }
}

fn by_name(alloc: Global, name: &str, words: &[&str]) -> Result<Command, WordStop>
    requires { All (λ w. IsUtf8 w.now) words.now }
    ensures { IsAsked (command_of (name.now ∷ texts words.now)) result }
{
    match name {
        "run" => run(alloc, words),
        "check" => check(alloc, words),
        "soak" => soak(alloc, words),
        "drill" => drill(alloc, words),
        "serve" => serve(alloc, words),
        "json" => json(alloc, words),
        "bound" => bound(alloc, words),
        _ => Err(WordStop::Outside),
    }
}

fn texts_of(alloc: Global, words: &[TaskText]) -> Result<Vec<&str>, WordStop>
    ensures same { IfOk result (λ list. texts list.items ≡ words.now) }
    ensures texts { IfOk result (λ list. All (λ w. IsUtf8 w.now) list.items) }
    ensures memory { IfErr result (λ e. e ≡ WordStop.Memory) }
{
    let mut list = Vec::new(alloc);
    for word in words {
        match list.push(word.as_str()) {
            Ok(()) => {}
            Err(_) => return Err(WordStop::Memory),
        }
    }
    Ok(list)
}
