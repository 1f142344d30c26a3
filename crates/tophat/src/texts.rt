//! Texts of commands: made with numbers, and written whole.
ghost use Rattle.std.specs.Prelude.{◌≡◌, ◌++◌, IfOk, OnOk, decimal, string_bytes};
ghost use Rattle.tophat.specs.Ended.{output_faults_after};
ghost use Rattle.tophat.specs.Sources.{WritesText};
ghost use Rattle.tophat.specs.Top.{bound_line};

use crate::ending::CommandEnding;
use itoa::Buffer;
use outer_io::{Sink, Written, write_all};
use std::alloc::Global;
use stride_bound::Bound;
use task_model::{OutOfMemory, TaskText};

/// Writes the text of a command, and tells how the command ends by that.
pub fn write_text<O: Sink>(out: &mut O, text: &TaskText) -> CommandEnding
    ensures wrote { WritesText (O.taken out.old) (O.taken out.new) text.now result }
    ensures output_count { O.faults out.new ≡ output_faults_after (O.faults out.old) result }
{
    match write_all(out, text.as_str().as_bytes()) {
        Written::Whole => CommandEnding::Wrote,
        Written::Failed => CommandEnding::WriteFault,
    }
}

/// The line on a bound, or that there is none.
pub(crate) fn bound_text(alloc: Global, found: Option<Bound>) -> Result<TaskText, OutOfMemory>
    ensures { IfOk result (λ text. text ≡ bound_line found) }
{
    let Some(bound) = found else {
        return TaskText::of(alloc, "no bound\n");
    };
    let mut text = String::new(alloc);
    push_count(&mut text, "units ", bound.units)?;
    push_count(&mut text, " height ", bound.height)?;
    text.push_str("\n")?;
    TaskText::of_string(text)
}

/// Adds a word and a number to a text.
pub fn push_count(text: &mut String, word: &str, count: u64) -> Result<(), OutOfMemory>
    ensures { OnOk result (string_bytes text.new ≡ string_bytes text.old ++ (word.now ++ decimal count)) }
{
    let mut number = Buffer::new();
    text.push_str(word)?;
    text.push_str(number.format(count))?;
    Ok(())
}
