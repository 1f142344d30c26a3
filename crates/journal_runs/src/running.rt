ghost use Rattle.std.specs.Prelude.{◌≡◌, ◌≤◌, false};
ghost use Rattle.outer_io.specs.Causes.{Rose};
ghost use Rattle.line_frame.specs.RanScript.{RanScript};
ghost use Rattle.line_frame.specs.RunFaults.{read_faults_after_run, write_faults_after_run};
ghost use Rattle.world_core.specs.World.{world_term};
ghost use Rattle.journal_runs.specs.KeptLines.{TellsOverJournal};
ghost use Rattle.journal_runs.specs.KeptRuns.{RunsKept};

use crate::keeper::Keeper;
use history_journal::Journal;
use line_frame::{Finish, run_script};
use outer_disks::Disk;
use outer_io::{Sink, Source};
use std::alloc::Global;
use std::sync::ledger::Ledger;
use task_model::{SCRIPT_BYTE_LIMIT, Steps};

/// The journal after the run of a script, and how the script ended. Where a call of the disk failed the journal is closed, and that is the
/// cause of the end.
#[derive(Drop)]
pub struct JournalRun<D: Disk + Drop> {
    pub journal: Journal<D>,
    pub finish: Finish,
}

/// Runs the lines of a script on a journal that met no fault (docs/FORMATS.md, "Script lines" and "Answers"). An input's answer comes once its
/// entry is on the disk.
pub fn run_on_journal<D: Disk + Drop, I: Source, O: Sink, L: Ledger>(
    alloc: Global,
    journal: Journal<D>,
    steps: Steps<L>,
    input: &mut I,
    out: &mut O,
) -> JournalRun<D>
    requires { journal.closed ≡ false }
    ensures ran { RanScript (TellsOverJournal 1048576 (world_term journal.world) 1) 67108864 (I.left input.old) (I.left input.new) (O.taken out.old)
        (O.taken out.new) result.finish }
    // At each moment of the run a crash leaves no less than what was told by then.
    ensures kept { RunsKept D.told journal result.journal (O.taken out.old) (O.taken out.new) }
    ensures read_count { I.faults input.new ≡ read_faults_after_run (I.faults input.old) result.finish }
    ensures write_count { O.faults out.new ≡ write_faults_after_run (O.faults out.old) result.finish }
{
    // Its disk holds the history, and a crash leaves just that.
    let _held = journal.world();
    let mut keeper = Keeper::new(journal, steps);
    let finish = run_script(alloc, &mut keeper, input, out, SCRIPT_BYTE_LIMIT);
    JournalRun {
        journal: keeper.into_journal(),
        finish,
    }
}
