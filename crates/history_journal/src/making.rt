ghost use Rattle.std.specs.Prelude.{◌≡◌, ◌+◌, ◌^◌, ◌<◌, ◌≤◌, ◌++◌, ◌∷◌, [], IfErr, IfOk, decimal, false, length};
ghost use Rattle.task_model.specs.Terms.Item.{opened};
ghost use Rattle.task_model.specs.Running.Checked.{checked_term};
ghost use Rattle.task_model.specs.Running.State.{IsBudget, IsOpening};
ghost use Rattle.outer_io.specs.Causes.{Rose};
ghost use Rattle.outer_disks.specs.Disks.{IsHonest, Measures};
ghost use Rattle.outer_disks.specs.Writing.{LeavesJust};
ghost use Rattle.journal_bytes.specs.Records.{open_records};
ghost use Rattle.world_core.specs.World.{world_term};
ghost use Rattle.history_journal.specs.Journals.{HoldsJournal};
ghost use Rattle.history_journal.specs.Making.{IsNotMade, Looks};

use crate::journal::Journal;
use crate::stops::MakeStop;
use journal_bytes::{print_opening, whole_journal};
use outer_disks::{Disk, DiskDone, DiskLength};
use std::alloc::Global;
use task_model::{Checked, OutOfMemory};
use task_reader::print_program;
use world_core::{OpenStop, World};

/// No text of a program is longer.
const LONGEST: usize = 1_048_576;

/// Makes a journal of a program that is opened with a budget of 1 to 1,000,000 units, on an empty disk.
#[tactic(auto, using(crate::proofs::Makes::made_kept, crate::proofs::Makes::made_holds))]
pub fn create<D: Disk + Drop>(
    alloc: Global,
    disk: D,
    c: Checked,
    budget: u32,
) -> Result<Journal<D>, MakeStop<D>>
    requires { IsBudget budget }
    ensures opened { IfOk result (λ j. ((world_term j.world).history ≡ opened (checked_term c).program budget ∷ []) × (j.closed ≡ false)) }
    ensures state { IfOk result (λ j. IsOpening (checked_term c) budget (world_term j.world).state) }
    ensures empty { IfOk result (λ j. IsHonest (D.told disk) → (D.told disk).seen ≡ []) }
    ensures settled { IfOk result (λ j. IsHonest (D.told disk) → HoldsJournal (D.told j.disk) (world_term j.world).history) }
    ensures why { IfErr result (IsNotMade D.told disk (checked_term c) budget) }
{
    let mut disk = disk;
    match first_calls(&mut disk) {
        DiskLength::Bytes(0) => {}
        DiskLength::Bytes(_) => return Err(MakeStop::NotEmpty(disk)),
        DiskLength::Failed => return Err(MakeStop::DiskFault(disk)),
    }
    let world = match World::open(alloc, c, budget) {
        Ok(world) => world,
        Err(OpenStop::Over) => return Err(MakeStop::Over(disk)),
        Err(OpenStop::Memory) => return Err(MakeStop::Memory),
    };
    let Ok(text) = print_program(alloc, world.checked().program()) else {
        return Err(MakeStop::Memory);
    };
    if text.as_str().len() > LONGEST {
        return Err(MakeStop::LongProgram(disk));
    }
    let Ok(piece) = first_piece(alloc, budget, text.as_str().as_bytes()) else {
        return Err(MakeStop::Memory);
    };
    match write_first(&mut disk, &piece) {
        DiskDone::Done => Ok(Journal {
            disk,
            world,
            gate: piece.len() as u64 - 1,
            closed: false,
        }),
        DiskDone::Failed => Err(MakeStop::DiskFault(disk)),
    }
}

// A journal of an opening alone.
#[tactic(auto, using(crate::proofs::Makes::opening_fits, crate::proofs::Makes::first_length))]
fn first_piece(alloc: Global, budget: u32, text: &[u8]) -> Result<Vec<u8>, OutOfMemory>
    requires budget { IsBudget budget }
    requires short { length text.now ≤ 1048576 }
    ensures piece { IfOk result (λ v. v.items ≡ open_records ((decimal budget ++ (10 ∷ text.now)) ∷ []) ++ 0 ∷ []) }
    ensures some { IfOk result (λ v. 1 ≤ length v.items) }
    ensures room { IfOk result (λ v. length v.items < 2 ^ 63) }
{
    let record = print_opening(alloc, budget, text)?;
    Ok(whole_journal(alloc, record.as_slice())?)
}

// A sync, and the length.
#[tactic(auto, using(crate::proofs::Makes::looks_twice, crate::proofs::Makes::looks_once, crate::proofs::Makes::measures_after))]
fn first_calls<D: Disk>(disk: &mut D) -> DiskLength
    ensures looks { Looks (D.told disk.old) (D.told disk.new) }
    ensures measures { Measures (D.told disk.old) result }
    ensures count { (D.told disk.old).faults ≤ (D.told disk.new).faults }
    ensures failed { result ≡ DiskLength.Failed → Rose (D.told disk.old).faults (D.told disk.new).faults }
{
    match disk.sync() {
        DiskDone::Done => disk.length(),
        DiskDone::Failed => DiskLength::Failed,
    }
}

// Writes the first piece of an empty disk, and makes sure of it.
#[tactic(auto, using(crate::proofs::Makes::first_written))]
fn write_first<D: Disk>(disk: &mut D, piece: &[u8]) -> DiskDone
    requires some { 0 < length piece.now }
    requires room { length piece.now < 2 ^ 63 }
    requires empty { IsHonest (D.told disk.old) → (D.told disk.old).seen ≡ [] }
    ensures done { result ≡ DiskDone.Done → IsHonest (D.told disk.old)
        → ((D.told disk.new).seen ≡ piece.now) × LeavesJust piece.now (D.told disk.new).may_leave }
    ensures honest { (D.told disk.new).honest ≡ (D.told disk.old).honest }
    ensures count { (D.told disk.old).faults ≤ (D.told disk.new).faults }
    ensures failed { result ≡ DiskDone.Failed → Rose (D.told disk.old).faults (D.told disk.new).faults }
{
    match disk.write_at(0, piece) {
        DiskDone::Done => disk.sync(),
        DiskDone::Failed => DiskDone::Failed,
    }
}
