ghost use Rattle.std.specs.Prelude.{◌≡◌, ◌<◌, ◌^◌, ◌-◌, ◌++◌, IfOk, OnOk, None, string_bytes};
ghost use Rattle.task_model.specs.Syntax.Literal.{value_text};
ghost use Rattle.task_model.specs.Showing.Widget.{stored};
ghost use Rattle.world_core.specs.World.{world_term};
ghost use Rattle.input_lines.specs.Soak.{soak_text};
ghost use Rattle.task_model.specs.Terms.Input.{entry_term};
ghost use Rattle.task_model.specs.Running.State.{IsSeat};
ghost use Rattle.tophat.specs.SoakReport.{tally_term, no_inputs, all_inputs, CountsInput, Soaks, summary_text, IsSummary};
ghost use Rattle.tophat.specs.Sources.{TellsText, ReportsInputs};
ghost use Rattle.tophat.specs.Worked.{HasVerdictAfter};

use crate::no_world::NoWorld;
use crate::opening::open_bytes;
use crate::texts::push_count;
use input_lines::{soak_entry, soak_program};
use literal_text::print_value;
use std::alloc::Global;
use task_model::{ActStop, DEFAULT_BUDGET, Entry, OutOfMemory, TaskText};
use world_core::World;

/// How many inputs were taken, refused, and over the budget.
#[derive(Clone, Copy)]
pub(crate) struct Tally {
    pub(crate) taken: u32,
    pub(crate) refused: u32,
    pub(crate) over: u32,
}

impl Tally {
    // Gives an input to a world, and counts what became of it.
    fn give(&mut self, world: &mut World, entry: Entry) -> Result<(), OutOfMemory>
        requires seat { IsSeat entry.seat }
        requires rest { world.old.next ≡ None }
        requires room { all_inputs (tally_term self.old) < 2 ^ 32 - 1 }
        ensures rest { world.new.next ≡ None }
        ensures given { OnOk result (CountsInput (world_term world.old) (tally_term self.old) (entry_term entry) (world_term world.new)
            (tally_term self.new)) }
    {
        match world.handle(entry.seat, entry.input) {
            Ok(_) => self.taken += 1,
            Err(ActStop::NotOffered) => self.refused += 1,
            Err(ActStop::Over) => self.over += 1,
            Err(ActStop::Memory) => return Err(OutOfMemory),
        }
        Ok(())
    }
}

/// What becomes of so many inputs of the generator on its program, as a line (docs/FORMATS.md, "The soak generator").
pub(crate) fn soaked_text(alloc: Global, count: u32, seed: u64) -> Result<TaskText, NoWorld>
    ensures text { TellsText (ReportsInputs count seed) result }
    ensures verdict_is { HasVerdictAfter result soak_text }
{
    let source = soak_program(alloc)?;
    match open_bytes(alloc, source.as_str().as_bytes(), DEFAULT_BUDGET) {
        Ok(world) => Ok(inputs_text(alloc, world, count, seed)?),
        Err(why) => Err(why),
    }
}

// What becomes of so many inputs at a world, as a line.
fn inputs_text(
    alloc: Global,
    mut world: World,
    count: u32,
    seed: u64,
) -> Result<TaskText, OutOfMemory>
    requires { world.next ≡ None }
    ensures { IfOk result (IsSummary count seed (world_term world)) }
{
    let tally = run_inputs(alloc, &mut world, count, seed)?;
    summary(alloc, count, tally, &world)
}

// Runs so many inputs of the generator, from a state of it on.
fn run_inputs(alloc: Global, world: &mut World, count: u32, seed: u64) -> Result<Tally, OutOfMemory>
    requires { world.old.next ≡ None }
    ensures rest { world.new.next ≡ None }
    ensures inputs { IfOk result (λ t. Soaks count seed (world_term world.old) no_inputs (world_term world.new) (tally_term t)) }
{
    let mut tally = Tally {
        taken: 0,
        refused: 0,
        over: 0,
    };
    let mut state = seed;
    let mut left = count;
    while left > 0 {
        let (next, entry) = soak_entry(alloc, state)?;
        tally.give(world, entry)?;
        state = next;
        left -= 1;
    }
    Ok(tally)
}

// The line in the end.
fn summary(alloc: Global, count: u32, tally: Tally, world: &World) -> Result<TaskText, OutOfMemory>
    requires { world.now.next ≡ None }
    ensures { IfOk result (λ t. t ≡ summary_text count (tally_term tally) (world_term world.now)) }
{
    let mut text = String::new(alloc);
    push_count(&mut text, "soak inputs ", u64::from(count))?;
    push_count(&mut text, " taken ", u64::from(tally.taken))?;
    push_count(&mut text, " refused ", u64::from(tally.refused))?;
    push_count(&mut text, " over ", u64::from(tally.over))?;
    push_count(&mut text, " nodes ", world.nodes()?)?;
    push_place(alloc, &mut text, " a ", world, 0)?;
    push_place(alloc, &mut text, " b ", world, 1)?;
    text.push_str("\n")?;
    TaskText::of_string(text)
}

fn push_place(
    alloc: Global,
    text: &mut String,
    word: &str,
    world: &World,
    place: u64,
) -> Result<(), OutOfMemory>
    requires { world.now.next ≡ None }
    ensures { OnOk result (string_bytes text.new ≡ string_bytes text.old
        ++ (word.now ++ value_text (stored (world_term world.now).state.store place))) }
{
    text.push_str(word)?;
    match world.at(place) {
        Some(value) => text.push_str(print_value(alloc, value)?.as_str())?,
        None => text.push_str("()")?,
    }
    Ok(())
}
