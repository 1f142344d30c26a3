ghost use Rattle.std.specs.Prelude.{◌≡◌, IfOk, None, codes, true};
ghost use Rattle.std.specs.List.{All};
ghost use Rattle.std.specs.Str.{IsUtf8};
ghost use Rattle.clap.specs.Words.{app_of};
ghost use Rattle.clap.specs.Walk.{texts};
ghost use Rattle.command_words.specs.ClapReading.{clap_read};
ghost use Rattle.command_words.specs.CommandTables.{Finds, app_with, is_table, rules_for};

use crate::stop::WordStop;
use clap::error::ErrorKind;
use clap::{Arg, ArgMatches, Command};
use std::alloc::{AllocError, Global};

// A command that needs a value at each argument, and takes options with a value each.
fn parser<'a>(
    alloc: Global,
    arguments: &[&'a str],
    options: &[&'a str],
) -> Result<Command<'a>, AllocError>
    ensures { IfOk result (λ command. app_of command ≡ app_with (codes "tophat") (rules_for (texts arguments.now) (texts options.now))) }
{
    let mut command = Command::new(alloc, "tophat")
        .no_binary_name(true)
        .disable_help_flag(true);
    for argument in arguments {
        command = command.arg(Arg::new(alloc, argument).required(true))?;
    }
    for option in options {
        command = command.arg(Arg::new(alloc, option).long(option))?;
    }
    Ok(command)
}

/// What `clap` finds in the words.
pub(crate) fn matches<'a>(
    alloc: Global,
    arguments: &[&'a str],
    options: &[&'a str],
    words: &'a [&'a str],
) -> Result<ArgMatches<'a>, WordStop>
    requires table { is_table (texts arguments.now) (texts options.now) ≡ true }
    requires texts { All (λ w. IsUtf8 w.now) words.now }
    ensures { Finds (clap_read (texts words.now) (texts arguments.now) (texts options.now) None) result }
{
    let command = match parser(alloc, arguments, options) {
        Ok(command) => command,
        Err(_) => return Err(WordStop::Memory),
    };
    match command.try_get_matches_from(words) {
        Ok(matches) => Ok(matches),
        Err(error) => match error.kind() {
            ErrorKind::OutOfMemory => Err(WordStop::Memory),
            _ => Err(WordStop::Outside),
        },
    }
}
