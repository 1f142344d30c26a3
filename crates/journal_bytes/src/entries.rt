ghost use Rattle.std.specs.Prelude.{◌≡◌, IfErr, IfOk};
ghost use Rattle.task_model.specs.Terms.Input.{EntryTerm, entry_term};
ghost use Rattle.task_model.specs.Running.State.{IsSeat};
ghost use Rattle.journal_bytes.specs.ReadRecords.{IsEntryRecord};

use crate::printing::print_record;
use input_lines::{Line, parse_line};
use line_frame::LineStop;
use std::alloc::Global;
use task_model::Entry;

/// Why a record has no entry, or wasn't read.
#[derive(Clone, Copy, Debug, PartialEq, Eq)]
pub enum NoEntryRecord {
    /// It isn't the printed line of an entry.
    Bad,
    Memory,
}

/// The entry of a record. Spaces, a CR or a literal that the printed line doesn't have make it none.
pub fn read_record(alloc: Global, bytes: &[u8]) -> Result<Entry, NoEntryRecord>
    ensures ok { IfOk result (λ e. IsEntryRecord bytes.now (entry_term e) × IsSeat e.seat) }
    ensures bad { IfErr result (λ stop. stop ≡ NoEntryRecord.Bad → (e : EntryTerm) → IsEntryRecord bytes.now e → ⊥) }
{
    let entry = match parse_line(alloc, bytes) {
        Ok(Line::Act(entry)) => entry,
        Ok(Line::Blank) => return Err(NoEntryRecord::Bad),
        Ok(Line::Show { .. }) => return Err(NoEntryRecord::Bad),
        Err(LineStop::Bad { .. }) => return Err(NoEntryRecord::Bad),
        Err(LineStop::Memory) => return Err(NoEntryRecord::Memory),
    };
    let Ok(record) = print_record(alloc, &entry) else {
        return Err(NoEntryRecord::Memory);
    };
    if record.as_slice() == bytes {
        Ok(entry)
    } else {
        Err(NoEntryRecord::Bad)
    }
}
