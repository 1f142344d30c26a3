ghost use Rattle.std.specs.Prelude.{◌≡◌, ◌+◌, ◌^◌, ◌<◌, ◌≤◌, ◌↔◌, [], length, IfOk, OnOk, OnErr, IsTrue, if◌then◌else◌};
ghost use Rattle.outer_io.specs.Causes.{Rose, next_count};
ghost use Rattle.outer_io.specs.FailingCalls.{fails_next, IsCounted};
ghost use Rattle.outer_disks.specs.Disks.{IsHonest, ReadsAt, Measures, Rests, WritesAt, Syncs, faults_after_got, faults_after_done, faults_after_length};
ghost use Rattle.outer_disks.specs.MemDisks.{bytes_held, disk_in_memory, disk_plan, mem_keeps_time, image_left, IsNewDisk, KeepsHeld, PutsPiece, MakesSure};

use crate::disk::{Disk, DiskDone, DiskGot, DiskLength};
use crate::held::Held;
use crate::images::Images;
use std::alloc::Global;
use task_model::{OutOfMemory, Row};

/// A disk in memory, with calls that fail where they are listed. A growth that is refused is a failure, too. It keeps what a crash may leave
/// of it now, and what one might have left before each write and sync.
#[derive(Drop)]
pub struct MemDisk {
    alloc: Global,
    held: Held,
    past: Row<Images>,
    failing: Row<u64>,
    calls: u64,
    faults: u64,
}

impl MemDisk {
    /// A disk with these bytes, all of them sure. `failing` lists the calls that fail, counted from 1.
    pub fn new(alloc: Global, bytes: Row<u8>, failing: Row<u64>) -> MemDisk
        ensures new { IsNewDisk bytes.list result }
        ensures plan { disk_plan result ≡ record { failing = failing; calls = 0; faults = 0 } }
    {
        MemDisk {
            alloc,
            held: Held::Sure(bytes),
            past: Row::new(alloc),
            failing,
            calls: 0,
            faults: 0,
        }
    }

    /// What reads give.
    pub fn bytes(&self) -> &[u8]
        ensures { result.now ≡ (disk_in_memory self.now).seen }
    {
        self.held.bytes()
    }

    /// The disk after a crash, of which all bytes are sure: a `choice` of 0 drops what was written since the last sync, 1 keeps it,
    /// and 2 fills its ranges with 01.
    pub fn crashed(self, choice: u8) -> MemDisk
        requires { choice < 3 }
        ensures new { IsNewDisk (image_left self.held choice) result }
        ensures image { (disk_in_memory self).may_leave (disk_in_memory result).seen }
        ensures plan { (result.failing.list ≡ []) × (result.calls ≡ 0) }
    {
        let MemDisk { alloc, held, .. } = self;
        let bytes = match (held, choice) {
            (Held::Sure(bytes), _) => bytes,
            (Held::Unsure(images), 0) => images.dropped,
            (Held::Unsure(images), 1) => images.bytes,
            (Held::Unsure(images), _) => images.filled,
        };
        MemDisk::new(alloc, bytes, Row::new(alloc))
    }

    /// How many of its calls failed.
    pub fn faults(&self) -> u64
        ensures { result ≡ (disk_in_memory self.now).faults }
    {
        self.faults
    }

    /// Forgets how many of its calls failed.
    pub(crate) fn forget_faults(&mut self)
        ensures faults { self.new.faults ≡ 0 }
        ensures same { KeepsHeld self.old self.new }
        ensures plan { (self.new.calls ≡ self.old.calls) × (self.new.failing ≡ self.old.failing) }
    {
        self.faults = 0;
    }

    // Counts the next call, and answers whether it fails.
    fn next_fails(&mut self) -> bool
        ensures fails { result ≡ fails_next (disk_plan self.old) }
        ensures counted { IsCounted (disk_plan self.old) (disk_plan self.new) }
        ensures same { KeepsHeld self.old self.new }
        ensures count { self.old.faults ≤ self.new.faults }
        ensures failed { IsTrue result → Rose self.old.faults self.new.faults }
        ensures exact { self.new.faults ≡ if result then next_count self.old.faults else self.old.faults }
    {
        self.calls = self.calls.saturating_add(1);
        let fails = self.failing.as_slice().contains(&self.calls);
        if fails {
            self.add_fault();
        }
        fails
    }

    fn add_fault(&mut self)
        ensures same { KeepsHeld self.old self.new }
        ensures plan { (self.new.calls ≡ self.old.calls) × (self.new.failing ≡ self.old.failing) }
        ensures count { self.old.faults ≤ self.new.faults }
        ensures failed { Rose self.old.faults self.new.faults }
        ensures exact { self.new.faults ≡ next_count self.old.faults }
    {
        self.faults = self.faults.saturating_add(1);
    }

    // WritesAt a piece, and keeps what was so before.
    fn put(&mut self, at: usize, piece: &[u8]) -> Result<(), OutOfMemory>
        requires { at ≤ length (bytes_held self.old.held) }
        ensures ok { OnOk result (PutsPiece self.old at piece.now self.new) }
        ensures err { OnErr result (KeepsHeld self.old self.new) }
        ensures plan { disk_plan self.new ≡ disk_plan self.old }
    {
        let before = self.held.images(self.alloc)?;
        let after = before.written(self.alloc, at, piece)?;
        self.past.push(before)?;
        self.held = Held::Unsure(after);
        Ok(())
    }

    // Makes sure of what is there, and keeps what was so before.
    fn settle(&mut self) -> Result<(), OutOfMemory>
        ensures ok { OnOk result (MakesSure self.old self.new) }
        ensures err { OnErr result (KeepsHeld self.old self.new) }
        ensures plan { disk_plan self.new ≡ disk_plan self.old }
    {
        let before = self.held.images(self.alloc)?;
        let bytes = copied(self.alloc, self.held.bytes())?;
        self.past.push(before)?;
        self.held = Held::Sure(bytes);
        Ok(())
    }
}

/// These bytes in memory of their own.
pub(crate) fn copied(alloc: Global, bytes: &[u8]) -> Result<Row<u8>, OutOfMemory>
    ensures { IfOk result (λ row. row.list ≡ bytes.now) }
{
    Ok(Row::of_vec(Vec::from_slice(alloc, bytes)?))
}

impl Disk for MemDisk {
    ghost told = { disk_in_memory };

    ghost keeps_time = { λ d _. mem_keeps_time d };

    fn length(&mut self) -> DiskLength
        ensures measures { Measures (disk_in_memory self.old) result }
        ensures rests { Rests (disk_in_memory self.old) (disk_in_memory self.new) }
        ensures count { self.old.faults ≤ self.new.faults }
        ensures failed { result ≡ DiskLength.Failed → Rose self.old.faults self.new.faults }
        ensures exact { self.new.faults ≡ faults_after_length self.old.faults result }
        ensures listed { (result ≡ DiskLength.Failed) ↔ IsTrue (fails_next (disk_plan self.old)) }
        ensures counted { IsCounted (disk_plan self.old) (disk_plan self.new) }
    {
        if self.next_fails() {
            return DiskLength::Failed;
        }
        DiskLength::Bytes(self.held.bytes().len() as u64)
    }

    fn read(&mut self, at: u64, room: &mut [u8]) -> DiskGot
        requires { 0 < length room.old }
        ensures reads { ReadsAt (disk_in_memory self.old) at room.new result }
        ensures rests { Rests (disk_in_memory self.old) (disk_in_memory self.new) }
        ensures count { self.old.faults ≤ self.new.faults }
        ensures failed { result ≡ DiskGot.Failed → Rose self.old.faults self.new.faults }
        ensures exact { self.new.faults ≡ faults_after_got self.old.faults result }
        ensures listed { (result ≡ DiskGot.Failed) ↔ IsTrue (fails_next (disk_plan self.old)) }
        ensures counted { IsCounted (disk_plan self.old) (disk_plan self.new) }
    {
        if self.next_fails() {
            return DiskGot::Failed;
        }
        let bytes = self.held.bytes();
        if bytes.len() as u64 <= at {
            return DiskGot::End;
        }
        let rest = &bytes[at as usize..];
        let count = rest.len().min(room.len());
        room[..count].copy_from_slice(&rest[..count]);
        DiskGot::Took(count)
    }

    fn write_at(&mut self, at: u64, piece: &[u8]) -> DiskDone
        requires some { 0 < length piece.now }
        requires at { IsHonest (disk_in_memory self.old) → at ≤ length (disk_in_memory self.old).seen }
        requires end { at + length piece.now < 2 ^ 63 }
        ensures writes { WritesAt (disk_in_memory self.old) at piece.now (disk_in_memory self.new) result }
        ensures count { self.old.faults ≤ self.new.faults }
        ensures failed { result ≡ DiskDone.Failed → Rose self.old.faults self.new.faults }
        ensures exact { self.new.faults ≡ faults_after_done self.old.faults result }
        ensures listed { IsTrue (fails_next (disk_plan self.old)) → result ≡ DiskDone.Failed }
        ensures counted { IsCounted (disk_plan self.old) (disk_plan self.new) }
    {
        if self.next_fails() {
            return DiskDone::Failed;
        }
        match self.put(at as usize, piece) {
            Ok(()) => DiskDone::Done,
            Err(_) => {
                self.add_fault();
                DiskDone::Failed
            }
        }
    }

    fn sync(&mut self) -> DiskDone
        ensures syncs { Syncs (disk_in_memory self.old) (disk_in_memory self.new) result }
        ensures count { self.old.faults ≤ self.new.faults }
        ensures failed { result ≡ DiskDone.Failed → Rose self.old.faults self.new.faults }
        ensures exact { self.new.faults ≡ faults_after_done self.old.faults result }
        ensures listed { IsTrue (fails_next (disk_plan self.old)) → result ≡ DiskDone.Failed }
        ensures counted { IsCounted (disk_plan self.old) (disk_plan self.new) }
    {
        if self.next_fails() {
            return DiskDone::Failed;
        }
        match self.settle() {
            Ok(()) => DiskDone::Done,
            Err(_) => {
                self.add_fault();
                DiskDone::Failed
            }
        }
    }
}
