ghost use Rattle.std.specs.Prelude.{◌≡◌, ◌<◌, Some, Option, IfErr, IfOk};
ghost use Rattle.task_model.specs.Running.State.{IsBudget};
ghost use Rattle.command_words.specs.Commands.{CommandTerm, command_term, check, soak, IsAsked, IsInRange, bound};
ghost use Rattle.tophat.specs.Top.{limits, named, runs, NeedsMore};
ghost use Rattle.tophat.specs.Worked.{Worked, IfNotRun, IfSilent, RunsBytes, HasVerdictAfter, IsTextEnd, IsRunEnd, word_ending};
ghost use Rattle.tophat.specs.Sources.{TellsText, ReportsCheck, ReportsBounded};
ghost use Rattle.task_model.specs.Terms.Text.{Text};
ghost use Rattle.tophat.specs.Objects.{around};
ghost use Rattle.tophat.specs.Asks.{AsksFor, AsksOnce};
ghost use Rattle.tophat.specs.Ended.{file_faults_after, input_faults_after, output_faults_after};
ghost use Rattle.line_frame.specs.RunFaults.{read_faults_after_run, write_faults_after_run};
ghost use Rattle.tophat.specs.declared.ending.CommandEnding.TheVariants as endings;

use crate::ending::CommandEnding;
use crate::no_world::NoWorld;
use crate::opening::open_bytes;
use crate::program_file::read_file;
use crate::runner::Runner;
use crate::soak::soaked_text;
use crate::texts::{bound_text, write_text};
use crate::verdict::verdict_on;
use command_words::{Command, WordStop};
use line_frame::{Finish, run_script};
use outer_io::{Files, Sink, Source};
use std::alloc::Global;
use std::sync::ledger::{Blank, Ledger};
use task_model::{SCRIPT_BYTE_LIMIT, Steps, TaskText};
use task_reader::print_program;
use world_answers::LineForm;

/// Does what a plain command asks for, but for the text on the error sink.
pub(crate) fn work<F: Files, I: Source, O: Sink, L: Ledger>(
    alloc: Global,
    asked: &Result<Command, WordStop>,
    files: &mut F,
    input: &mut I,
    out: &mut O,
    blank: Blank,
) -> CommandEnding
    requires budget { IfOk asked.now (λ c. IsInRange (command_term c)) }
    requires plain { IfOk asked.now (λ c. NeedsMore (Some (command_term c)) → ⊥) }
    requires name { blank.name ≡ L.name }
    requires parts { blank.parts ≡ L.parts }
    requires some { 0 < blank.parts }
    ensures worked { (command : Option CommandTerm) → IsAsked command asked.now → Worked limits command (F.holds files.old (named command))
        (I.left input.old) (I.left input.new) (O.taken out.old) (O.taken out.new) result }
    ensures usage { IfOk asked.now (λ _. result ≡ endings.Usage → ⊥) }
    ensures no_command { IfErr asked.now (λ stop. result ≡ word_ending stop) }
    ensures no_request { IfErr asked.now (λ _. files.new ≡ files.old) }
    ensures asks { IfOk asked.now (λ c. AsksFor limits (command_term c) (around F.holds F.faults files.old files.new)
        (around I.left I.faults input.old input.new)) }
    ensures not_run { IfNotRun result (input.new ≡ input.old) }
    ensures silent { IfSilent result (out.new ≡ out.old) }
    ensures file_count { F.faults files.new ≡ file_faults_after (F.faults files.old) result }
    ensures input_count { I.faults input.new ≡ input_faults_after (I.faults input.old) result }
    ensures output_count { O.faults out.new ≡ output_faults_after (O.faults out.old) result }
{
    match asked {
        Ok(Command::Run { file, budget }) => {
            run_file(
                alloc,
                LineForm::Script,
                file,
                *budget,
                files,
                input,
                out,
                Steps::<L>::new(blank),
            )
        }
        Ok(Command::Check { file }) => check_file(alloc, file, files, out),
        Ok(Command::Soak { count, seed }) => soak(alloc, *count, *seed, out),
        Ok(Command::Drill { .. }) => unreachable!(),
        Ok(Command::Serve { .. }) => unreachable!(),
        Ok(Command::Json { file, budget }) => {
            run_file(
                alloc,
                LineForm::Json,
                file,
                *budget,
                files,
                input,
                out,
                Steps::<L>::new(blank),
            )
        }
        Ok(Command::Bound { file }) => bound_file(alloc, file, files, out),
        Err(stop) => unasked(*stop),
    }
}

// How it ends where the words ask for no command.
fn unasked(stop: WordStop) -> CommandEnding
    ensures { result ≡ word_ending stop }
{
    match stop {
        WordStop::Outside => CommandEnding::Usage,
        WordStop::Memory => CommandEnding::Unopened(NoWorld::Memory),
    }
}

/// The name of the file that a command asks for.
pub(crate) fn named_file(asked: &Result<Command, WordStop>) -> &[u8]
    ensures { IfOk asked.now (λ c. result.now ≡ named (Some (command_term c))) }
{
    match asked {
        Ok(Command::Run { file, .. }) => file.as_str().as_bytes(),
        Ok(Command::Check { file }) => file.as_str().as_bytes(),
        Ok(Command::Soak { .. }) => b"",
        Ok(Command::Drill { .. }) => b"",
        Ok(Command::Serve { file, .. }) => file.as_str().as_bytes(),
        Ok(Command::Json { file, .. }) => file.as_str().as_bytes(),
        Ok(Command::Bound { file }) => file.as_str().as_bytes(),
        Err(_) => b"",
    }
}

// Reads a program, opens it, and runs the script on it, whose lines are of this form.
fn run_file<F: Files, I: Source, O: Sink, L: Ledger>(
    alloc: Global,
    form: LineForm,
    name: &TaskText,
    budget: u32,
    files: &mut F,
    input: &mut I,
    out: &mut O,
    steps: Steps<L>,
) -> CommandEnding
    requires { IsBudget budget }
    ensures worked { Worked limits (Some (runs form name.now budget)) (F.holds files.old name.now)
        (I.left input.old) (I.left input.new) (O.taken out.old) (O.taken out.new) result }
    ensures usage { result ≡ endings.Usage → ⊥ }
    ensures not_run { IfNotRun result ((input.new ≡ input.old) × (out.new ≡ out.old)) }
    ensures no_text { IsTextEnd result → ⊥ }
    ensures asked { AsksOnce limits.file name.now (around F.holds F.faults files.old files.new) }
    ensures file_count { F.faults files.new ≡ file_faults_after (F.faults files.old) result }
    ensures input_count { I.faults input.new ≡ input_faults_after (I.faults input.old) result }
    ensures output_count { O.faults out.new ≡ output_faults_after (O.faults out.old) result }
{
    match read_file(alloc, name, files) {
        Ok(bytes) => match run_bytes(alloc, form, bytes.as_slice(), budget, input, out, steps) {
            Ok(finish) => CommandEnding::Ran(finish),
            Err(why) => CommandEnding::Unopened(why),
        },
        Err(ending) => ending,
    }
}

// Opens the program of these bytes, and runs the script on it.
fn run_bytes<I: Source, O: Sink, L: Ledger>(
    alloc: Global,
    form: LineForm,
    bytes: &[u8],
    budget: u32,
    input: &mut I,
    out: &mut O,
    steps: Steps<L>,
) -> Result<Finish, NoWorld>
    requires { IsBudget budget }
    ensures ran { RunsBytes form limits budget bytes.now (I.left input.old) (I.left input.new) (O.taken out.old) (O.taken out.new) result }
    ensures verdict_is { HasVerdictAfter result bytes.now }
    ensures not_run { IfErr result (λ _. (input.new ≡ input.old) × (out.new ≡ out.old)) }
    ensures read_count { IfOk result (λ finish. I.faults input.new ≡ read_faults_after_run (I.faults input.old) finish) }
    ensures write_count { IfOk result (λ finish. O.faults out.new ≡ write_faults_after_run (O.faults out.old) finish) }
{
    match open_bytes(alloc, bytes, budget) {
        Ok(world) => {
            let mut runner = Runner::new(form, world, steps);
            Ok(run_script(alloc, &mut runner, input, out, SCRIPT_BYTE_LIMIT))
        }
        Err(why) => Err(why),
    }
}

// Reads a program, and writes its text again where it is accepted.
fn check_file<F: Files, O: Sink>(
    alloc: Global,
    name: &TaskText,
    files: &mut F,
    out: &mut O,
) -> CommandEnding
    ensures worked { (left : Option Text) → Worked limits (Some (check name.now)) (F.holds files.old name.now)
        left left (O.taken out.old) (O.taken out.new) result }
    ensures ends { IsRunEnd result → ⊥ }
    ensures silent { IfSilent result (out.new ≡ out.old) }
    ensures asked { AsksOnce limits.file name.now (around F.holds F.faults files.old files.new) }
    ensures file_count { F.faults files.new ≡ file_faults_after (F.faults files.old) result }
    ensures output_count { O.faults out.new ≡ output_faults_after (O.faults out.old) result }
{
    match read_file(alloc, name, files) {
        Ok(bytes) => match checked_text(alloc, bytes.as_slice()) {
            Ok(text) => write_text(out, &text),
            Err(why) => CommandEnding::Unopened(why),
        },
        Err(ending) => ending,
    }
}

// The text of the accepted program of these bytes, or why there is none.
fn checked_text(alloc: Global, bytes: &[u8]) -> Result<TaskText, NoWorld>
    ensures text { TellsText (ReportsCheck bytes.now) result }
    ensures verdict_is { HasVerdictAfter result bytes.now }
{
    match verdict_on(alloc, bytes) {
        Ok(checked) => Ok(print_program(alloc, checked.program())?),
        Err(why) => Err(why),
    }
}

// Reads a program, and writes its bound where it is accepted.
fn bound_file<F: Files, O: Sink>(
    alloc: Global,
    name: &TaskText,
    files: &mut F,
    out: &mut O,
) -> CommandEnding
    ensures worked { (left : Option Text) → Worked limits (Some (bound name.now)) (F.holds files.old name.now)
        left left (O.taken out.old) (O.taken out.new) result }
    ensures ends { IsRunEnd result → ⊥ }
    ensures silent { IfSilent result (out.new ≡ out.old) }
    ensures asked { AsksOnce limits.file name.now (around F.holds F.faults files.old files.new) }
    ensures file_count { F.faults files.new ≡ file_faults_after (F.faults files.old) result }
    ensures output_count { O.faults out.new ≡ output_faults_after (O.faults out.old) result }
{
    match read_file(alloc, name, files) {
        Ok(bytes) => match bounded_text(alloc, bytes.as_slice()) {
            Ok(text) => write_text(out, &text),
            Err(why) => CommandEnding::Unopened(why),
        },
        Err(ending) => ending,
    }
}

// The line on the bound of the accepted program of these bytes, or why there is none.
fn bounded_text(alloc: Global, bytes: &[u8]) -> Result<TaskText, NoWorld>
    ensures text { TellsText (ReportsBounded bytes.now) result }
    ensures verdict_is { HasVerdictAfter result bytes.now }
{
    match verdict_on(alloc, bytes) {
        Ok(checked) => {
            let found = stride_bound::bound(alloc, &checked)?;
            Ok(bound_text(alloc, found)?)
        }
        Err(why) => Err(why),
    }
}

// Runs so many inputs of the generator on its program, and writes what became of them.
fn soak<O: Sink>(alloc: Global, count: u32, seed: u64, out: &mut O) -> CommandEnding
    ensures worked { (holds : Option (Option Text)) (left : Option Text) → Worked limits (Some (soak count seed)) holds
        left left (O.taken out.old) (O.taken out.new) result }
    ensures ends { IsRunEnd result → ⊥ }
    ensures no_file { result ≡ endings.FileFault → ⊥ }
    ensures silent { IfSilent result (out.new ≡ out.old) }
    ensures output_count { O.faults out.new ≡ output_faults_after (O.faults out.old) result }
{
    match soaked_text(alloc, count, seed) {
        Ok(text) => write_text(out, &text),
        Err(why) => CommandEnding::Unopened(why),
    }
}
