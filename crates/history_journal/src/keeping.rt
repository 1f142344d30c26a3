ghost use Rattle.std.specs.Prelude.{◌≡◌, ◌+◌, ◌<◌, ◌≤◌, List, ℕ, length};
ghost use Rattle.outer_disks.specs.Disks.{IsHonest};
ghost use Rattle.journal_bytes.specs.Records.{open_records};
ghost use Rattle.history_journal.specs.Appending.{IsSettled, KeepsRecord, LeavesDisk, IsKeptWhen};

use crate::appending::append_all;
use journal_bytes::behind_gate;
use outer_disks::{Disk, DiskDone};
use std::alloc::Global;

/// What became of a record: it is on the disk, and this is where the closed gate stands then; or the disk failed; or it has so many bytes,
/// which are too many; or memory ran out.
#[derive(Clone, Copy, Debug, PartialEq, Eq)]
pub enum Kept {
    Done(u64),
    Fault,
    Long(u64),
    Memory,
}

/// No entry is longer.
const LONGEST: usize = 1_048_576;

/// No gate stands behind this.
const FARTHEST: u64 = 1 << 62;

/// Appends the record of an entry behind the closed gate: it is written with a closed gate at its end, and once that is sure the gate is
/// opened. A crash at any moment leaves an image of the records before, or of those with this one.
pub fn keep<D: Disk>(alloc: Global, disk: &mut D, gate: u64, entry: &[u8]) -> Kept
    requires { IsHonest (D.told disk.old) → gate < length (D.told disk.old).seen }
    ensures appends { (h : List (List ℕ)) → IsHonest (D.told disk.old) → IsSettled (D.told disk.old) h → gate ≡ length (open_records h)
        → KeepsRecord (D.told disk.old) h entry.now (D.told disk.new) result }
    ensures left { LeavesDisk disk.old disk.new result }
    ensures when { IsKeptWhen gate entry.now (D.told disk.old).faults (D.told disk.new).faults result }
    ensures honest { (D.told disk.new).honest ≡ (D.told disk.old).honest }
    ensures count { (D.told disk.old).faults ≤ (D.told disk.new).faults }
{
    if entry.len() > LONGEST {
        return Kept::Long(entry.len() as u64);
    }
    if gate > FARTHEST {
        return Kept::Memory;
    }
    let Ok(piece) = behind_gate(alloc, entry) else {
        return Kept::Memory;
    };
    match append_all(disk, gate, &piece) {
        DiskDone::Done => Kept::Done(gate + piece.len() as u64),
        DiskDone::Failed => Kept::Fault,
    }
}
