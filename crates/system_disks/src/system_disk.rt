ghost use Rattle.std.specs.Prelude.{◌≡◌, ◌+◌, ◌^◌, ◌<◌, ◌≤◌, length, IfSome, None, false};
ghost use Rattle.outer_io.specs.Causes.{Rose, next_count};
ghost use Rattle.outer_disks.specs.Disks.{IsHonest, ReadsAt, Measures, Rests, WritesAt, Syncs, faults_after_got, faults_after_done, faults_after_length};
ghost use Rattle.system_disks.specs.SystemDisks.{disk_of_system, owes_no_time, IsClosedDisk};

use crate::disk_file::DiskFile;
use crate::opening::{find_file, make_file};
use outer_disks::{Disk, DiskDone, DiskGot, DiskLength};
use std::fs;
use std::io::ErrorKind;
use std::os::unix::fs::FileExt;
use task_model::{TaskText, copy_text};

/// A file of the system as a disk (docs/FORMATS.md, "Journals"). It is locked against other openings until it is dropped. One that isn't
/// there is empty, and is made by the first write. After a sync that failed it is closed, and every call fails.
#[derive(Drop)]
pub struct SystemDisk<'a> {
    rt: &'a HostRuntime,
    file: DiskFile,
    faults: u64,
}

impl<'a> SystemDisk<'a> {
    /// The disk of a name, of which no call failed yet. None: it can't be had.
    pub(crate) fn find(rt: &'a HostRuntime, name: &TaskText) -> Option<SystemDisk<'a>>
        ensures { IfSome result (λ d. d.faults ≡ 0) }
    {
        let file = match find_file(rt, name.as_str()) {
            Ok(Some(file)) => DiskFile::Open(file),
            Ok(None) => DiskFile::Absent(copy_text(name).ok()?),
            Err(_) => return None,
        };
        Some(SystemDisk {
            rt,
            file,
            faults: 0,
        })
    }

    /// How many of its calls failed.
    pub(crate) fn faults(&self) -> u64
        ensures { result ≡ self.now.faults }
    {
        self.faults
    }

    // Whether a whole piece was written to its file, which is made where there is none yet. Short writes and those that a signal interrupts
    // are gone on with, and a write of no byte is an error.
    fn writes(&mut self, at: u64, piece: &[u8]) -> bool
        ensures closed { IsClosedDisk self.old → (result ≡ false) × IsClosedDisk self.new }
        ensures faults { self.new.faults ≡ self.old.faults }
    {
        if let DiskFile::Absent(name) = &self.file {
            match make_file(self.rt, name.as_str()) {
                Ok(file) => self.file = DiskFile::Open(file),
                Err(_) => return false,
            }
        }
        match &self.file {
            DiskFile::Open(opened) => opened.write_all_at(piece, at).is_ok(),
            _ => false,
        }
    }

    fn count_fault(&mut self)
        ensures file { self.new.file ≡ self.old.file }
        ensures count { self.old.faults ≤ self.new.faults }
        ensures failed { Rose self.old.faults self.new.faults }
        ensures exact { self.new.faults ≡ next_count self.old.faults }
    {
        self.faults = self.faults.saturating_add(1);
    }
}

// One read, which is tried again where a signal interrupts it.
fn read_once(file: &fs::File, at: u64, room: &mut [u8]) -> Option<usize>
    ensures { IfSome result (λ count. count ≤ length room.old) }
{
    for _ in 0..u64::MAX {
        match file.read_at(room, at) {
            Ok(count) => return Some(count),
            Err(error) if error.kind() == ErrorKind::Interrupted => {}
            Err(_) => return None,
        }
    }
    None
}

// The number of bytes of a file. None: it wasn't told.
fn length_of(file: &DiskFile) -> Option<u64>
    ensures { file.now ≡ DiskFile.Closed → result ≡ None }
{
    match file {
        DiskFile::Absent(_) => Some(0),
        DiskFile::Open(opened) => Some(opened.metadata().ok()?.len()),
        DiskFile::Closed => None,
    }
}

// How many bytes a read at an offset gave. None: it failed.
fn read_file_at(file: &DiskFile, at: u64, room: &mut [u8]) -> Option<usize>
    ensures closed { file.now ≡ DiskFile.Closed → result ≡ None }
    ensures count { IfSome result (λ count. count ≤ length room.old) }
{
    match file {
        DiskFile::Absent(_) => Some(0),
        DiskFile::Open(opened) => read_once(opened, at, room),
        DiskFile::Closed => None,
    }
}

// Whether what was written is sure to stay.
fn is_synced(file: &DiskFile) -> bool
    ensures { file.now ≡ DiskFile.Closed → result ≡ false }
{
    match file {
        // What isn't there was made sure of when it was looked for.
        DiskFile::Absent(_) => true,
        DiskFile::Open(opened) => opened.sync_data().is_ok(),
        DiskFile::Closed => false,
    }
}

impl<'a> Disk for SystemDisk<'a> {
    ghost told = { disk_of_system };

    ghost keeps_time = { owes_no_time };

    fn length(&mut self) -> DiskLength
        ensures measures { Measures (disk_of_system self.old) result }
        ensures rests { Rests (disk_of_system self.old) (disk_of_system self.new) }
        ensures count { self.old.faults ≤ self.new.faults }
        ensures failed { result ≡ DiskLength.Failed → Rose self.old.faults self.new.faults }
        ensures exact { self.new.faults ≡ faults_after_length self.old.faults result }
        ensures closed { IsClosedDisk self.old → (result ≡ DiskLength.Failed) × IsClosedDisk self.new }
    {
        match length_of(&self.file) {
            Some(count) => DiskLength::Bytes(count),
            None => {
                self.count_fault();
                DiskLength::Failed
            }
        }
    }

    fn read(&mut self, at: u64, room: &mut [u8]) -> DiskGot
        requires { 0 < length room.old }
        ensures reads { ReadsAt (disk_of_system self.old) at room.new result }
        ensures rests { Rests (disk_of_system self.old) (disk_of_system self.new) }
        ensures count { self.old.faults ≤ self.new.faults }
        ensures failed { result ≡ DiskGot.Failed → Rose self.old.faults self.new.faults }
        ensures exact { self.new.faults ≡ faults_after_got self.old.faults result }
        ensures closed { IsClosedDisk self.old → (result ≡ DiskGot.Failed) × IsClosedDisk self.new }
    {
        match read_file_at(&self.file, at, room) {
            Some(0) => DiskGot::End,
            Some(count) => DiskGot::Took(count),
            None => {
                self.count_fault();
                DiskGot::Failed
            }
        }
    }

    fn write_at(&mut self, at: u64, piece: &[u8]) -> DiskDone
        requires some { 0 < length piece.now }
        requires at { IsHonest (disk_of_system self.old) → at ≤ length (disk_of_system self.old).seen }
        requires end { at + length piece.now < 2 ^ 63 }
        ensures writes { WritesAt (disk_of_system self.old) at piece.now (disk_of_system self.new) result }
        ensures count { self.old.faults ≤ self.new.faults }
        ensures failed { result ≡ DiskDone.Failed → Rose self.old.faults self.new.faults }
        ensures exact { self.new.faults ≡ faults_after_done self.old.faults result }
        ensures closed { IsClosedDisk self.old → (result ≡ DiskDone.Failed) × IsClosedDisk self.new }
    {
        if self.writes(at, piece) {
            return DiskDone::Done;
        }
        self.count_fault();
        DiskDone::Failed
    }

    fn sync(&mut self) -> DiskDone
        ensures syncs { Syncs (disk_of_system self.old) (disk_of_system self.new) result }
        ensures count { self.old.faults ≤ self.new.faults }
        ensures failed { result ≡ DiskDone.Failed → Rose self.old.faults self.new.faults }
        ensures exact { self.new.faults ≡ faults_after_done self.old.faults result }
        ensures closed { IsClosedDisk self.old → (result ≡ DiskDone.Failed) × IsClosedDisk self.new }
        ensures closes { result ≡ DiskDone.Failed → IsClosedDisk self.new }
    {
        if is_synced(&self.file) {
            return DiskDone::Done;
        }
        self.file = DiskFile::Closed;
        self.count_fault();
        DiskDone::Failed
    }
}
