ghost use Rattle.std.specs.Prelude.{◌≡◌, IfErr, IfOk, false};
ghost use Rattle.outer_disks.specs.Disks.{IsHonest};
ghost use Rattle.world_core.specs.World.{world_term, IsStanding};
ghost use Rattle.history_journal.specs.Journals.{HoldsJournal};
ghost use Rattle.history_journal.specs.Restarting.{IsNotRestarted, IsOnlyJournalOf};

use crate::journal::Journal;
use crate::replaying::{ReadingStop, ReplayStop, read_all, replay};
use crate::stops::RestartStop;
use outer_disks::{Disk, DiskDone};
use std::alloc::Global;

/// The journal that a disk has. Its world stands behind the last entry of the history, and nothing is written.
pub fn restart<D: Disk + Drop>(alloc: Global, disk: D) -> Result<Journal<D>, RestartStop<D>>
    ensures legal { IfOk result (λ j. IsStanding (world_term j.world) × (j.closed ≡ false)) }
    ensures image { IfOk result (λ j. IsHonest (D.told disk) → IsOnlyJournalOf (D.told disk).seen (world_term j.world).history) }
    ensures settled { IfOk result (λ j. IsHonest (D.told disk) → HoldsJournal (D.told j.disk) (world_term j.world).history) }
    ensures why { IfErr result (IsNotRestarted D.told disk) }
{
    let mut disk = disk;
    match disk.sync() {
        DiskDone::Done => {}
        DiskDone::Failed => return Err(RestartStop::DiskFault(disk)),
    }
    let bytes = match read_all(alloc, &mut disk) {
        Ok(bytes) => bytes,
        Err(ReadingStop::Fault) => return Err(RestartStop::DiskFault(disk)),
        Err(ReadingStop::Memory) => return Err(RestartStop::Memory),
    };
    match replay(alloc, &bytes) {
        Ok((world, gate)) => Ok(Journal {
            disk,
            world,
            gate,
            closed: false,
        }),
        Err(ReplayStop::Bad(place)) => Err(RestartStop::BadJournal { place, disk }),
        Err(ReplayStop::Memory) => Err(RestartStop::Memory),
    }
}
