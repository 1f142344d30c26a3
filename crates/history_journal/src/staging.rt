ghost use Rattle.std.specs.Prelude.{◌≡◌, IfOk, None};
ghost use Rattle.task_model.specs.Terms.Input.{input_term};
ghost use Rattle.task_model.specs.Running.State.{IsSeat};
ghost use Rattle.input_lines.specs.EntryText.{entry_line};
ghost use Rattle.world_core.specs.World.{world_term};
ghost use Rattle.history_journal.specs.Staging.{Stages};

use journal_bytes::print_record;
use std::alloc::Global;
use task_model::{ActStop, Entry, Input, Row};
use world_core::World;

/// Prepares an input of a seat, 1 to 64, where nothing is prepared, and gives the record of its entry. All that can be refused but for the
/// record's length is refused here, and a refusal changes nothing.
pub fn stage(alloc: Global, world: &mut World, seat: u8, input: Input) -> Result<Row<u8>, ActStop>
    requires seat { IsSeat seat }
    requires rest { world.old.next ≡ None }
    ensures record { IfOk result (λ r. r.list ≡ entry_line (record { seat = seat; input = input_term input })) }
    ensures stages { Stages (world_term world.old) (record { seat = seat; input = input_term input }) (world_term world.new) result }
{
    let entry = Entry { seat, input };
    let record = print_record(alloc, &entry)?;
    let Entry { input, .. } = entry;
    world.prepare(seat, input)?;
    Ok(record)
}
