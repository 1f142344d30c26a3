ghost use Rattle.std.specs.Prelude.{◌≡◌, ◌≤◌, ℕ, [], None, Err, IfOk, IfErr, OnOk};
ghost use Rattle.task_model.specs.Running.Checked.{checked_term};
ghost use Rattle.outer_io.specs.Causes.{Rose};
ghost use Rattle.outer_disks.specs.Disks.{IsHonest};
ghost use Rattle.world_core.specs.World.{world_term, IsStanding};
ghost use Rattle.history_journal.specs.Making.{Looks};
ghost use Rattle.history_journal.specs.Restarting.{IsFront, IsBadJournal};
ghost use Rattle.history_journal.specs.Replaying.{IsTextOf, IsNoText, IsNoRecord, OpensRecord, TakesRecord, HasAloneRecords, ReplaysAll};

use host_types::{CheckStop, check};
use journal_bytes::{NoEntryRecord, NoRecord, first_record, read_opening, read_record};
use outer_disks::{Disk, DiskGot, DiskLength};
use std::alloc::Global;
use task_model::{ActStop, Checked, Entry};
use task_reader::{Read, ReadStop, print_program, read_program};
use world_core::{OpenStop, World};

/// Why a disk's bytes weren't read.
#[derive(Clone, Copy, Debug, PartialEq, Eq)]
pub(crate) enum ReadingStop {
    Fault,
    Memory,
}

/// Why no world was made of the bytes: they are bad at this place, or memory ran out.
#[derive(Clone, Copy, Debug, PartialEq, Eq)]
pub(crate) enum ReplayStop {
    Bad(u64),
    Memory,
}

/// Why a record wasn't followed.
#[derive(Clone, Copy, Debug, PartialEq, Eq)]
pub(crate) enum RecordStop {
    Bad,
    Memory,
}

const ROOM: usize = 4096;

/// All bytes of a disk.
#[tactic(auto, using(crate::proofs::Pieces::looks_rests, crate::proofs::Pieces::no_looks, crate::proofs::Pieces::read_more, crate::proofs::Pieces::all_read))]
pub(crate) fn read_all<D: Disk>(alloc: Global, disk: &mut D) -> Result<Vec<u8>, ReadingStop>
    ensures bytes { IfOk result (λ v. IsHonest (D.told disk.old) → v.items ≡ (D.told disk.old).seen) }
    ensures looks { Looks (D.told disk.old) (D.told disk.new) }
    ensures count { (D.told disk.old).faults ≤ (D.told disk.new).faults }
    ensures failed { result ≡ Err ReadingStop.Fault → Rose (D.told disk.old).faults (D.told disk.new).faults }
{
    let count = match disk.length() {
        DiskLength::Bytes(count) => count as usize,
        DiskLength::Failed => return Err(ReadingStop::Fault),
    };
    let mut bytes = Vec::new(alloc);
    let mut room = [0u8; ROOM];
    while bytes.len() < count {
        let piece = ROOM.min(count - bytes.len());
        match disk.read(bytes.len() as u64, &mut room[..piece]) {
            DiskGot::Took(got) => {
                if bytes.extend_from_slice(&room[..got]).is_err() {
                    return Err(ReadingStop::Memory);
                }
            }
            DiskGot::End => break,
            DiskGot::Failed => return Err(ReadingStop::Fault),
        }
    }
    Ok(bytes)
}

/// The world of a journal's bytes, and the place of its closed gate.
#[tactic(auto, using(crate::proofs::Fronts::first_shut, crate::proofs::Fronts::first_bad, crate::proofs::Fronts::first_missing, crate::proofs::Fronts::first_unread, crate::proofs::Restarts::opened_front, crate::proofs::Restarts::opened_alone))]
pub(crate) fn replay(alloc: Global, bytes: &[u8]) -> Result<(World, u64), ReplayStop>
    ensures rest { IfOk result (λ x. x.0.next ≡ None) }
    ensures ok { IfOk result (λ x. ReplaysAll bytes.now (world_term x.0) x.1) }
    ensures bad { IfErr result (λ stop. (place : ℕ) → stop ≡ ReplayStop.Bad place → IsBadJournal bytes.now place) }
{
    let (record, behind) = match first_record(bytes) {
        Ok(first) => first,
        Err(NoRecord::Closed) => return Err(ReplayStop::Bad(0)),
        Err(NoRecord::Bad) => return Err(ReplayStop::Bad(0)),
        Err(NoRecord::Missing) => return Err(ReplayStop::Bad(0)),
    };
    let world = match open_record(alloc, record) {
        Ok(world) => world,
        Err(RecordStop::Bad) => return Err(ReplayStop::Bad(0)),
        Err(RecordStop::Memory) => return Err(ReplayStop::Memory),
    };
    replay_entries(alloc, bytes, world, behind)
}

// The world that the records in `behind`, the last of these bytes, lead to.
#[tactic(auto, using(crate::proofs::Fronts::bad_refused, crate::proofs::Fronts::bad_record, crate::proofs::Fronts::bad_gate, crate::proofs::Fronts::front_place))]
fn replay_entries(
    alloc: Global,
    bytes: &[u8],
    opened: World,
    behind: &[u8],
) -> Result<(World, u64), ReplayStop>
    requires rest { opened.next ≡ None }
    requires standing { IsStanding (world_term opened) }
    requires front { IsFront bytes.now (world_term opened).history behind.now }
    requires alone { HasAloneRecords (world_term opened).history }
    ensures rest { IfOk result (λ x. x.0.next ≡ None) }
    ensures ok { IfOk result (λ x. ReplaysAll bytes.now (world_term x.0) x.1) }
    ensures bad { IfErr result (λ stop. (place : ℕ) → stop ≡ ReplayStop.Bad place → IsBadJournal bytes.now place) }
{
    let mut world = opened;
    let mut rest = behind;
    'entries: loop {
        let place = (bytes.len() - rest.len()) as u64;
        match first_record(rest) {
            Ok((record, after)) => match take_record(alloc, &mut world, record) {
                Ok(()) => rest = after,
                Err(RecordStop::Bad) => return Err(ReplayStop::Bad(place)),
                Err(RecordStop::Memory) => return Err(ReplayStop::Memory),
            },
            Err(NoRecord::Closed) => return Ok((world, place)),
            Err(NoRecord::Bad) => return Err(ReplayStop::Bad(place)),
            Err(NoRecord::Missing) => return Err(ReplayStop::Bad(place)),
        }
    }
}

// Opens the program of the first record.
fn open_record(alloc: Global, bytes: &[u8]) -> Result<World, RecordStop>
    ensures rest { IfOk result (λ w. w.next ≡ None) }
    ensures ok { IfOk result (λ w. OpensRecord bytes.now (world_term w)) }
    ensures bad { IfErr result (λ stop. stop ≡ RecordStop.Bad → IsNoRecord [] bytes.now) }
{
    let Some((budget, text)) = read_opening(bytes) else {
        return Err(RecordStop::Bad);
    };
    let checked = match printed_program(alloc, text) {
        Ok(checked) => checked,
        Err(RecordStop::Bad) => return Err(RecordStop::Bad),
        Err(RecordStop::Memory) => return Err(RecordStop::Memory),
    };
    match World::open(alloc, checked, budget) {
        Ok(world) => {
            // Its history is legal.
            let _legal = world.history();
            Ok(world)
        }
        Err(OpenStop::Over) => Err(RecordStop::Bad),
        Err(OpenStop::Memory) => Err(RecordStop::Memory),
    }
}

// The accepted program whose printed text this is.
fn printed_program(alloc: Global, text: &[u8]) -> Result<Checked, RecordStop>
    ensures ok { IfOk result (λ c. IsTextOf text.now (checked_term c)) }
    ensures bad { IfErr result (λ stop. stop ≡ RecordStop.Bad → IsNoText text.now) }
{
    let program = match read_program(alloc, text) {
        Ok(Read { program, .. }) => program,
        Err(ReadStop::Fault { .. }) => return Err(RecordStop::Bad),
        Err(ReadStop::Memory) => return Err(RecordStop::Memory),
    };
    let Ok(printed) = print_program(alloc, &program) else {
        return Err(RecordStop::Memory);
    };
    if printed.as_str().as_bytes() != text {
        return Err(RecordStop::Bad);
    }
    match check(alloc, program) {
        Ok(checked) => Ok(checked),
        Err(CheckStop::Fault { .. }) => Err(RecordStop::Bad),
        Err(CheckStop::Memory) => Err(RecordStop::Memory),
    }
}

// Takes the entry of a record.
fn take_record(alloc: Global, world: &mut World, bytes: &[u8]) -> Result<(), RecordStop>
    requires rest { world.old.next ≡ None }
    ensures rest { OnOk result (world.new.next ≡ None) }
    ensures ok { OnOk result (TakesRecord (world_term world.old) bytes.now (world_term world.new)) }
    ensures bad { result ≡ Err RecordStop.Bad → IsNoRecord (world_term world.old).history bytes.now }
{
    // Its history is legal.
    let _legal = world.history();
    let Entry { seat, input } = match read_record(alloc, bytes) {
        Ok(entry) => entry,
        Err(NoEntryRecord::Bad) => return Err(RecordStop::Bad),
        Err(NoEntryRecord::Memory) => return Err(RecordStop::Memory),
    };
    match world.handle(seat, input) {
        Ok(_) => {}
        Err(ActStop::NotOffered) => return Err(RecordStop::Bad),
        Err(ActStop::Over) => return Err(RecordStop::Bad),
        Err(ActStop::Memory) => return Err(RecordStop::Memory),
    }
    // So is it with the entry.
    let _legal = world.history();
    Ok(())
}
