ghost use Rattle.std.specs.Prelude.{◌≡◌, IfErr, IfOk, MatchResult};
ghost use Rattle.task_model.specs.Terms.Item.{history_term};
ghost use Rattle.task_model.specs.Running.Checked.{checked_term};
ghost use Rattle.task_model.specs.Running.State.{IsBudget, IsSeat};
ghost use Rattle.tophat.specs.Asks.{AsksOnce};
ghost use Rattle.tophat.specs.Ended.{file_faults_after};
ghost use Rattle.tophat.specs.Objects.{around};
ghost use Rattle.tophat.specs.Top.{limits};
ghost use Rattle.tophat.specs.Verdict.{IsOnlyVerdict, accepted};
ghost use Rattle.tophat_commands.specs.ServedFiles.{HasNoOpening, IsNotOpened, IsOpenedFrom, IsOpenedOf};

use outer_io::Files;
use std::alloc::Global;
use std::sync::Wait;
use task_model::{Checked, TaskText};
use tophat::{CommandEnding, NoWorld, read_file, verdict_on};
use world_core::OpenStop;
use world_lock::{Opening, make_opening};

/// Reads the program in the file of this name, and opens it for so many seats; or how the command ends.
pub(crate) fn open_file<F: Files, R: Wait + Copy>(
    rt: &R,
    alloc: Global,
    name: &TaskText,
    budget: u32,
    seats: u8,
    files: &mut F,
) -> Result<Opening<R>, CommandEnding>
    requires budget { IsBudget budget }
    requires seats { IsSeat seats }
    ensures opened { IfOk result (λ o. IsOpenedFrom limits.file budget (F.holds files.old name.now) (history_term o.history)) }
    ensures seats { IfOk result (λ o. o.seats ≡ seats) }
    ensures none { IfErr result (HasNoOpening limits.file budget (F.holds files.old name.now)) }
    ensures asked { AsksOnce limits.file name.now (around F.holds F.faults files.old files.new) }
    ensures count { MatchResult result (λ _. F.faults files.new ≡ F.faults files.old)
        (λ ending. F.faults files.new ≡ file_faults_after (F.faults files.old) ending) }
{
    match read_file(alloc, name, files) {
        Ok(bytes) => match open_bytes(rt, alloc, bytes.as_slice(), budget, seats) {
            Ok(opening) => Ok(opening),
            Err(why) => Err(CommandEnding::Unopened(why)),
        },
        Err(ending) => Err(ending),
    }
}

// Opens the program of these bytes.
fn open_bytes<R: Wait + Copy>(
    rt: &R,
    alloc: Global,
    bytes: &[u8],
    budget: u32,
    seats: u8,
) -> Result<Opening<R>, NoWorld>
    requires budget { IsBudget budget }
    requires seats { IsSeat seats }
    ensures opened { IfOk result (λ o. IsOpenedOf budget bytes.now (history_term o.history)) }
    ensures seats { IfOk result (λ o. o.seats ≡ seats) }
    ensures none { IfErr result (IsNotOpened budget bytes.now) }
{
    match verdict_on(alloc, bytes) {
        Ok(checked) => open_checked(rt, alloc, bytes, checked, budget, seats),
        Err(why) => Err(why),
    }
}

// Opens the accepted program of these bytes.
fn open_checked<R: Wait + Copy>(
    rt: &R,
    alloc: Global,
    bytes: &[u8],
    checked: Checked,
    budget: u32,
    seats: u8,
) -> Result<Opening<R>, NoWorld>
    requires verdict { IsOnlyVerdict bytes.now (accepted (checked_term checked)) }
    requires budget { IsBudget budget }
    requires seats { IsSeat seats }
    ensures opened { IfOk result (λ o. IsOpenedOf budget bytes.now (history_term o.history)) }
    ensures seats { IfOk result (λ o. o.seats ≡ seats) }
    ensures none { IfErr result (IsNotOpened budget bytes.now) }
{
    let _bytes = bytes;
    match make_opening(rt, alloc, checked, budget, seats) {
        Ok(opening) => Ok(opening),
        Err(OpenStop::Over) => Err(NoWorld::OverBudget),
        Err(OpenStop::Memory) => Err(NoWorld::Memory),
    }
}
