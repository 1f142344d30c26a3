ghost use Rattle.std.specs.Prelude.{◌≡◌, Err, IfOk, MatchResult, Ok};
ghost use Rattle.line_frame.specs.declared.machine.LineStop.{LineStop};
ghost use Rattle.world_answers.specs.LineAnswers.{taken_text};
ghost use Rattle.world_answers.specs.declared.line_form.LineForm.TheVariants as forms;
ghost use Rattle.journal_runs.specs.ReplyTexts.{IsReplyText};

use history_journal::KeepStop;
use itoa::Buffer;
use line_frame::LineStop;
use std::alloc::Global;
use task_model::{OutOfMemory, Row};
use world_core::Taken;

/// The answer to an input, by what the journal replied (docs/FORMATS.md, "Answers"). After a fault of the disk there is none.
pub(crate) fn reply_text(alloc: Global, reply: Result<Taken, KeepStop>) -> Result<Row<u8>, LineStop>
    ensures { IsReplyText reply result }
{
    match reply {
        Ok(taken) => or_stop(taken_line(alloc, taken.version)),
        Err(stop) => stop_text(alloc, stop),
    }
}

// The answer to an input that the journal refused.
fn stop_text(alloc: Global, stop: KeepStop) -> Result<Row<u8>, LineStop>
    ensures { IsReplyText (Err stop) result }
{
    match stop {
        KeepStop::NotOffered => or_stop(line(alloc, b"not offered\n")),
        KeepStop::Over => or_stop(line(alloc, b"over budget\n")),
        KeepStop::LongEntry { .. } => or_stop(line(alloc, b"entry too long\n")),
        KeepStop::DiskFault => Err(LineStop::Memory),
        KeepStop::Closed => Err(LineStop::Memory),
        KeepStop::Memory => Err(LineStop::Memory),
    }
}

// Want of memory as a line's.
fn or_stop(text: Result<Row<u8>, OutOfMemory>) -> Result<Row<u8>, LineStop>
    ensures { MatchResult text (λ row. result ≡ Ok row) (λ _. result ≡ Err LineStop.Memory) }
{
    match text {
        Ok(row) => Ok(row),
        Err(OutOfMemory) => Err(LineStop::Memory),
    }
}

fn taken_line(alloc: Global, version: u64) -> Result<Row<u8>, OutOfMemory>
    ensures { IfOk result (λ row. row.list ≡ taken_text forms.Script version) }
{
    let mut number = Buffer::new();
    let mut row = line(alloc, b"taken ")?;
    row.extend(number.format(version).as_bytes())?;
    row.extend(b"\n")?;
    Ok(row)
}

// These bytes as an answer.
fn line(alloc: Global, bytes: &[u8]) -> Result<Row<u8>, OutOfMemory>
    ensures { IfOk result (λ row. row.list ≡ bytes.now) }
{
    let mut row = Row::new(alloc);
    row.extend(bytes)?;
    Ok(row)
}
