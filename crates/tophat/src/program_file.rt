ghost use Rattle.std.specs.Prelude.{◌≡◌, MatchResult};
ghost use Rattle.tophat.specs.Top.{limits};
ghost use Rattle.tophat.specs.Sources.{FindsFile};
ghost use Rattle.tophat.specs.Objects.{around};
ghost use Rattle.tophat.specs.Asks.{AsksOnce};
ghost use Rattle.tophat.specs.Ended.{file_faults_after};

use crate::ending::CommandEnding;
use crate::no_world::NoWorld;
use outer_io::{FileAnswer, Files};
use std::alloc::Global;
use task_model::{PROGRAM_BYTE_LIMIT, Row, TaskText};

/// The bytes of the file of this name, at most as many as a program may have, or how a command ends that asked for it: there is no such file,
/// it is too long, a read of it failed, or memory ran out (docs/FORMATS.md, "Statuses").
pub fn read_file<F: Files>(
    alloc: Global,
    name: &TaskText,
    files: &mut F,
) -> Result<Row<u8>, CommandEnding>
    ensures file { FindsFile limits.file (F.holds files.old name.now) result }
    ensures asked { AsksOnce limits.file name.now (around F.holds F.faults files.old files.new) }
    ensures count { MatchResult result (λ _. F.faults files.new ≡ F.faults files.old)
        (λ ending. F.faults files.new ≡ file_faults_after (F.faults files.old) ending) }
{
    match files.read_whole(alloc, name, PROGRAM_BYTE_LIMIT as u64) {
        FileAnswer::Bytes(bytes) => Ok(bytes),
        FileAnswer::Absent => Err(CommandEnding::Absent),
        FileAnswer::TooLong => Err(CommandEnding::FileTooLong),
        FileAnswer::Failed => Err(CommandEnding::FileFault),
        FileAnswer::Memory => Err(CommandEnding::Unopened(NoWorld::Memory)),
    }
}
