ghost use Rattle.std.specs.Prelude.{◌≡◌, ◌≤◌, ℕ, List};
ghost use Rattle.outer_io.specs.Causes.{Rose};
ghost use Rattle.outer_disks.specs.Disks.{DiskTold};
ghost use Rattle.outer_disks.specs.OpenDisks.{GivesDisk, KeepsDisks, IsSameDisk, faults_after_open, faults_with};

use crate::disk::Disk;
use task_model::TaskText;

/// The answer to the request for a disk by its name: the disk, or a fault.
#[derive(Drop)]
pub enum DiskOpen<D> {
    Disk(D),
    Failed,
}

/// Disks by their names.
pub trait Disks {
    type Disk: Disk + Drop;

    // What the disk of a name tells, of which no call has failed. One that tells nothing isn't honest.
    ghost holds: { Self → List ℕ → DiskTold };

    // What one of its disks tells.
    ghost tells: { Self.Disk → DiskTold };

    // How many requests failed, and how many disks were taken back that had failed.
    ghost faults: { Self → ℕ };

    /// Hands out the disk of a name, with a count of 0. It is empty where there is none.
    fn open_disk(&mut self, name: &TaskText) -> DiskOpen<Self::Disk>
        ensures disk { GivesDisk tells (holds self.old name.now) result }
        ensures keeps { (other : List ℕ) → KeepsDisks (holds self.old other) (holds self.new other) result }
        ensures count { faults self.old ≤ faults self.new }
        ensures failed { result ≡ DiskOpen.Failed → Rose (faults self.old) (faults self.new) }
        ensures exact { faults self.new ≡ faults_after_open (faults self.old) result };

    /// Takes a disk back, and holds it for that name. It takes no memory. The count rises exactly where the disk's own is above 0.
    fn done(&mut self, name: &TaskText, disk: Self::Disk)
        ensures disk { IsSameDisk (tells disk) (holds self.new name.now) }
        ensures count { faults self.old ≤ faults self.new }
        ensures exact { faults self.new ≡ faults_with (faults self.old) (tells disk).faults };

    // What is told of a disk is what the disk tells.
    ghost tells_disks: { (d : Self.Disk) → IsSameDisk (tells d) (Self.Disk.told d) × ((Self.Disk.told d).faults ≡ (tells d).faults) };
}
