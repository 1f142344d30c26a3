ghost use Rattle.std.specs.Prelude.{◌≡◌, ◌≤◌, ◌↔◌, ℕ, List, None, Some, IfSome, IfNone, IsTrue, if◌then◌else◌};
ghost use Rattle.outer_io.specs.Causes.{Rose, next_count};
ghost use Rattle.outer_io.specs.FailingCalls.{fails_next, IsCounted};
ghost use Rattle.outer_disks.specs.OpenDisks.{GivesDisk, KeepsDisks, IsSameDisk, faults_after_open, faults_with};
ghost use Rattle.outer_disks.specs.MemDisks.{disk_in_memory, told_held, disks_plan};

use crate::disks::{DiskOpen, Disks};
use crate::mem_disk::MemDisk;
use std::alloc::Global;
use task_model::{Row, TaskText};

/// Disks in memory: one, whatever the name. It is handed out, or an empty one where it is out. Requests fail at chosen calls.
#[derive(Drop)]
pub struct MemDisks {
    alloc: Global,
    disk: Option<MemDisk>,
    failing: Row<u64>,
    calls: u64,
    faults: u64,
}

impl MemDisks {
    /// Disks that hold this one. `failing` lists the calls of `open_disk` that fail, counted from 1.
    pub fn new(alloc: Global, disk: MemDisk, failing: Row<u64>) -> MemDisks
        ensures disk { result.disk ≡ Some disk }
        ensures plan { disks_plan result ≡ record { failing = failing; calls = 0; faults = 0 } }
    {
        MemDisks {
            alloc,
            disk: Some(disk),
            failing,
            calls: 0,
            faults: 0,
        }
    }

    /// The disk that it holds. None: it is out.
    pub fn disk(&self) -> Option<&MemDisk>
        ensures some { IfSome result (λ d. self.now.disk ≡ Some d.now) }
        ensures none { IfNone result (self.now.disk ≡ None) }
    {
        self.disk.as_ref()
    }

    // Counts the next request, and answers whether it fails.
    fn next_fails(&mut self) -> bool
        ensures fails { result ≡ fails_next (disks_plan self.old) }
        ensures counted { IsCounted (disks_plan self.old) (disks_plan self.new) }
        ensures disk { self.new.disk ≡ self.old.disk }
        ensures count { self.old.faults ≤ self.new.faults }
        ensures failed { IsTrue result → Rose self.old.faults self.new.faults }
        ensures exact { self.new.faults ≡ if result then next_count self.old.faults else self.old.faults }
    {
        self.calls = self.calls.saturating_add(1);
        let fails = self.failing.as_slice().contains(&self.calls);
        if fails {
            self.faults = self.faults.saturating_add(1);
        }
        fails
    }
}

impl Disks for MemDisks {
    type Disk = MemDisk;

    ghost holds = { λ d _. told_held d.disk };

    ghost tells = { disk_in_memory };

    ghost faults = { λ d. d.faults };

    ghost use Rattle.std.specs.Prelude.{refl};
    ghost use Rattle.outer_disks.specs.OpenDisks.{same_disk};

    ghost tells_disks = { λ d. (same_disk (disk_in_memory d), refl) };

    fn open_disk(&mut self, name: &TaskText) -> DiskOpen<MemDisk>
        ensures disk { GivesDisk disk_in_memory (told_held self.old.disk) result }
        ensures keeps { (other : List ℕ) → KeepsDisks (told_held self.old.disk) (told_held self.new.disk) result }
        ensures count { self.old.faults ≤ self.new.faults }
        ensures failed { result ≡ DiskOpen.Failed → Rose self.old.faults self.new.faults }
        ensures exact { self.new.faults ≡ faults_after_open self.old.faults result }
        ensures listed { (result ≡ DiskOpen.Failed) ↔ IsTrue (fails_next (disks_plan self.old)) }
        ensures counted { IsCounted (disks_plan self.old) (disks_plan self.new) }
        ensures out { (d : _) → result ≡ DiskOpen.Disk d → self.new.disk ≡ None }
    {
        if self.next_fails() {
            return DiskOpen::Failed;
        }
        match self.disk.take() {
            Some(mut disk) => {
                disk.forget_faults();
                DiskOpen::Disk(disk)
            }
            None => DiskOpen::Disk(MemDisk::new(
                self.alloc,
                Row::new(self.alloc),
                Row::new(self.alloc),
            )),
        }
    }

    fn done(&mut self, name: &TaskText, disk: MemDisk)
        ensures disk { IsSameDisk (disk_in_memory disk) (told_held self.new.disk) }
        ensures count { self.old.faults ≤ self.new.faults }
        ensures exact { self.new.faults ≡ faults_with self.old.faults disk.faults }
        ensures kept { self.new.disk ≡ Some disk }
        ensures plan { (self.new.calls ≡ self.old.calls) × (self.new.failing ≡ self.old.failing) }
    {
        if disk.faults() > 0 {
            self.faults = self.faults.saturating_add(1);
        }
        self.disk = Some(disk);
    }
}
