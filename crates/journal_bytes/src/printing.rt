ghost use Rattle.std.specs.Prelude.{◌≡◌, ◌++◌, ◌∷◌, IfOk, decimal};
ghost use Rattle.task_model.specs.Terms.Input.{entry_term};
ghost use Rattle.input_lines.specs.EntryText.{entry_line};

use input_lines::print_entry;
use itoa::Buffer;
use std::alloc::Global;
use task_model::{Entry, OutOfMemory, Row};

/// The record of an opening: the budget in decimal, an LF, and the text of the program.
pub fn print_opening(alloc: Global, budget: u32, text: &[u8]) -> Result<Row<u8>, OutOfMemory>
    ensures { IfOk result (λ r. r.list ≡ decimal budget ++ (10 ∷ text.now)) }
{
    let mut digits = Buffer::new();
    let mut record = Vec::new(alloc);
    record.extend_from_slice(digits.format(budget).as_bytes())?;
    record.push(b'\n')?;
    record.extend_from_slice(text)?;
    Ok(Row::of_vec(record))
}

/// The record of an entry: its line without the LF.
#[tactic(auto, using(crate::proofs::LineEnds::without_end, crate::proofs::LineEnds::has_end))]
pub fn print_record(alloc: Global, e: &Entry) -> Result<Row<u8>, OutOfMemory>
    ensures { IfOk result (λ r. r.list ≡ entry_line (entry_term e.now)) }
{
    let line = print_entry(alloc, e)?;
    let bytes = line.as_str().as_bytes();
    let record = Vec::from_slice(alloc, &bytes[..bytes.len() - 1])?;
    Ok(Row::of_vec(record))
}
