ghost use Rattle.std.specs.Prelude.{◌≡◌, ◌≤◌, ℕ, List};
ghost use Rattle.outer_io.specs.Causes.{Rose};
ghost use Rattle.outer_disks.specs.OpenDisks.{GivesDisk, KeepsDisks, IsSameDisk, faults_after_open, faults_with};
ghost use Rattle.system_disks.specs.SystemDisks.{disk_of_system, told_by_system};

use crate::system_disk::SystemDisk;
use outer_disks::{DiskOpen, Disks};
use task_model::TaskText;

/// The files of the system as disks, by their paths. A path whose folder isn't there has none, nor has what is no plain file, what is open
/// as a disk already, in this process or another, and what the system refuses.
#[derive(Drop)]
pub struct SystemDisks<'a> {
    rt: &'a HostRuntime,
    faults: u64,
}

impl<'a> SystemDisks<'a> {
    /// The system's disks, of which no request failed yet.
    pub fn new(rt: &'a HostRuntime) -> SystemDisks<'a>
        ensures faults { result.faults ≡ 0 }
    {
        SystemDisks { rt, faults: 0 }
    }
}

impl<'a> Disks for SystemDisks<'a> {
    type Disk = SystemDisk<'a>;

    ghost holds = { λ _ _. told_by_system 0 };

    ghost tells = { disk_of_system };

    ghost faults = { λ d. d.faults };

    ghost use Rattle.std.specs.Prelude.{refl};
    ghost use Rattle.outer_disks.specs.OpenDisks.{same_disk};

    ghost tells_disks = { λ d. (same_disk (disk_of_system d), refl) };

    fn open_disk(&mut self, name: &TaskText) -> DiskOpen<SystemDisk<'a>> {
        match SystemDisk::find(self.rt, name) {
            Some(disk) => DiskOpen::Disk(disk),
            None => {
                self.faults = self.faults.saturating_add(1);
                DiskOpen::Failed
            }
        }
    }

    /// The file is closed, and may be opened again.
    fn done(&mut self, _name: &TaskText, disk: SystemDisk<'a>) {
        if disk.faults() > 0 {
            self.faults = self.faults.saturating_add(1);
        }
    }
}
