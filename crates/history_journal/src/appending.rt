ghost use Rattle.std.specs.Prelude.{◌≡◌, ◌+◌, ◌^◌, ◌<◌, ◌≤◌, List, ℕ, length};
ghost use Rattle.outer_io.specs.Causes.{Rose};
ghost use Rattle.outer_disks.specs.Disks.{IsHonest};
ghost use Rattle.journal_bytes.specs.Records.{open_records};
ghost use Rattle.history_journal.specs.Appending.{group_piece, FitTogether, IsSettled, AppendsAll};

use outer_disks::{Disk, DiskDone};

/// Appends records that count at once: the first one, open gates with the others, and a closed gate go behind the closed gate at `gate`, and
/// once they are sure it is opened. A crash at any moment leaves all of them or none.
pub fn append_all<D: Disk>(disk: &mut D, gate: u64, piece: &[u8]) -> DiskDone
    requires gate { IsHonest (D.told disk.old) → gate < length (D.told disk.old).seen }
    requires some { 0 < length piece.now }
    requires room { gate + 1 + length piece.now < 2 ^ 63 }
    ensures appends { (h : List (List ℕ)) (r : List ℕ) (more : List (List ℕ)) → IsHonest (D.told disk.old) → IsSettled (D.told disk.old) h → gate ≡ length (open_records h)
        → FitTogether r more → piece.now ≡ group_piece r more → AppendsAll (D.told disk.old) h r more (D.told disk.new) result }
    ensures honest { (D.told disk.new).honest ≡ (D.told disk.old).honest }
    ensures count { (D.told disk.old).faults ≤ (D.told disk.new).faults }
    ensures failed { result ≡ DiskDone.Failed → Rose (D.told disk.old).faults (D.told disk.new).faults }
{
    match disk.write_at(gate + 1, piece) {
        DiskDone::Done => {}
        DiskDone::Failed => return DiskDone::Failed,
    }
    match disk.sync() {
        DiskDone::Done => {}
        DiskDone::Failed => return DiskDone::Failed,
    }
    match disk.write_at(gate, &[1]) {
        DiskDone::Done => {}
        DiskDone::Failed => return DiskDone::Failed,
    }
    disk.sync()
}
