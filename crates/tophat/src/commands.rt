ghost use Rattle.std.specs.Prelude.{◌≡◌, ◌↔◌, None, IfErr, IfOk, IfSome, IsTrue, MatchOption, Option, Some};
ghost use Rattle.command_words.specs.Commands.{CommandTerm, IsAsked, IsInRange, command_of, command_term};
ghost use Rattle.tophat.specs.Top.{limits, NeedsMore};
ghost use Rattle.tophat.specs.Ending.{status_of};
ghost use Rattle.tophat.specs.Worked.{word_ending};
ghost use Rattle.tophat.specs.Objects.{around};
ghost use Rattle.tophat.specs.Fulfils.{Fulfils};

use crate::work::{named_file, work};
use command_words::{Command, WordStop, read_command};
use outer_io::{Files, Sink, Source};
use std::alloc::Global;
use std::marker::Brand;
use std::sync::ledger::Blank;
use task_model::TaskText;

/// Does what the words of a command line ask for, without the program's own name, where that needs no threads and no sockets, and answers
/// the status. It always returns.
///
/// `run FILE` reads the program in FILE, opens it, and runs the script on the input; `json FILE` does so with JSON lines (docs/FORMATS.md,
/// "JSON"); `check FILE` writes the program's text again;
/// `soak N SEED` runs inputs of its own; `bound FILE` writes what the program costs at most (docs/FORMATS.md, "Words" and "Statuses"). A
/// fault of `err` changes no status.
/// Where the words ask for a `drill` or to `serve`, nothing is answered: whoever has threads and sockets does that.
pub fn plain<F: Files, I: Source, O: Sink, E: Sink>(
    alloc: Global,
    words: &[TaskText],
    files: &mut F,
    input: &mut I,
    out: &mut O,
    err: &mut E,
) -> Option<u8>
    // Nothing is answered exactly where the words ask for a command that needs more than these objects; all is then untouched. Only where
    // memory ran out while the words were read is such a command answered, too: by status 8, and only `err` is touched.
    ensures other { MatchOption result (NeedsMore (command_of words.now)) (λ status. NeedsMore (command_of words.now)
        → (status ≡ 8) × (files.new ≡ files.old) × (input.new ≡ input.old) × (out.new ≡ out.old)) }
    ensures untouched { result ≡ None → (files.new ≡ files.old) × (input.new ≡ input.old) × (out.new ≡ out.old) × (err.new ≡ err.old) }

    // Else the status, what the objects tell before and after, and their counts of faults keep the promise, whose parts have names of
    // their own.
    ensures answered { IfSome result (Fulfils limits (command_of words.now) (record {
      files = around F.holds F.faults files.old files.new;
      input = around I.left I.faults input.old input.new;
      out = around O.taken O.faults out.old out.new;
      err = around E.taken E.faults err.old err.new;
    })) }
{
    let asked = read_command(alloc, words);
    if is_plain(&asked) {
        Some(perform(alloc, &asked, files, input, out, err))
    } else {
        None
    }
}

// Whether no command that needs more was read.
fn is_plain(asked: &Result<Command, WordStop>) -> bool
    ensures { IsTrue result ↔ IfOk asked.now (λ c. NeedsMore (Some (command_term c)) → ⊥) }
{
    match asked {
        Ok(Command::Run { .. }) => true,
        Ok(Command::Check { .. }) => true,
        Ok(Command::Soak { .. }) => true,
        Ok(Command::Drill { .. }) => false,
        Ok(Command::Serve { .. }) => false,
        Ok(Command::Json { .. }) => true,
        Ok(Command::Bound { .. }) => true,
        Err(_) => true,
    }
}

/// Does what a plain command asks for, or tells that the words ask for none, and answers the status (docs/FORMATS.md, "Statuses"). It always
/// returns.
pub fn perform<F: Files, I: Source, O: Sink, E: Sink>(
    alloc: Global,
    asked: &Result<Command, WordStop>,
    files: &mut F,
    input: &mut I,
    out: &mut O,
    err: &mut E,
) -> u8
    requires ranges { IfOk asked.now (λ c. IsInRange (command_term c)) }
    requires plain { IfOk asked.now (λ c. NeedsMore (Some (command_term c)) → ⊥) }
    ensures fulfils { (command : Option CommandTerm) → IsAsked command asked.now → Fulfils limits command (record {
      files = around F.holds F.faults files.old files.new;
      input = around I.left I.faults input.old input.new;
      out = around O.taken O.faults out.old out.new;
      err = around E.taken E.faults err.old err.new;
    }) result }
    ensures unasked { IfErr asked.now (λ stop. (result ≡ status_of (word_ending stop)) × (files.new ≡ files.old) × (input.new ≡ input.old)
        × (out.new ≡ out.old)) }
{
    let ending = work::<F, I, O, Brand>(alloc, asked, files, input, out, Blank::new(1));
    let _ = ending.tell(err, named_file(asked));
    ending.status()
}
