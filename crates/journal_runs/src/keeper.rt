ghost use Rattle.std.specs.Prelude.{◌≡◌, IfErr, IfOk, ℕ, List};
ghost use Rattle.task_model.specs.Terms.Input.{entry_term};
ghost use Rattle.task_model.specs.Running.State.{IsSeat};
ghost use Rattle.world_core.specs.World.{world_term};
ghost use Rattle.input_lines.specs.ScriptLines.{HasSeat, gives, line_term, shows};
ghost use Rattle.journal_runs.specs.KeptAnswers.{KeptAnswers};
ghost use Rattle.journal_runs.specs.Moves.{Moves, Stops};
ghost use Rattle.line_frame.specs.declared.machine.LineStop.{LineStop};

use crate::answer_texts::reply_text;
use history_journal::Journal;
use input_lines::{Line, parse_line};
use line_frame::{LineStop, Machine};
use outer_disks::Disk;
use std::alloc::Global;
use std::sync::ledger::Ledger;
use task_model::{Entry, Face, LINE_BYTE_LIMIT, Row, Steps};

/// Runs the lines of a script on a journal.
#[derive(Drop)]
pub(crate) struct Keeper<D: Disk + Drop, L: Ledger> {
    pub(crate) journal: Journal<D>,
    steps: Steps<L>,
}

impl<D: Disk + Drop, L: Ledger> Keeper<D, L> {
    pub(crate) fn new(journal: Journal<D>, steps: Steps<L>) -> Keeper<D, L>
        ensures journal { result.journal ≡ journal }
    {
        Keeper { journal, steps }
    }

    pub(crate) fn into_journal(self) -> Journal<D>
        ensures { result ≡ self.journal }
    {
        let Keeper { journal, .. } = self;
        journal
    }

    // Does what a line asks for.
    fn answer(&mut self, alloc: Global, line: Line) -> Result<Row<u8>, LineStop>
        requires { HasSeat (line_term line) }
        ensures answers { IfOk result (λ text. KeptAnswers (world_term self.old.journal.world) (line_term line) text.list
            (world_term self.new.journal.world)) }
        ensures moves { IfOk result (λ _. Moves D.told self.old.journal self.new.journal) }
        ensures stops { IfErr result (λ _. Stops D.told self.old.journal self.new.journal) }
        ensures memory { IfErr result (λ stop. stop ≡ LineStop.Memory) }
    {
        match line {
            Line::Blank => Ok(Row::new(alloc)),
            Line::Show { seat } => self.show(alloc, seat),
            Line::Act(entry) => self.give(alloc, entry),
        }
    }

    // The page for a seat.
    fn show(&mut self, alloc: Global, seat: u8) -> Result<Row<u8>, LineStop>
        requires { IsSeat seat }
        ensures answers { IfOk result (λ text. KeptAnswers (world_term self.old.journal.world) (shows seat) text.list
            (world_term self.new.journal.world)) }
        ensures moves { IfOk result (λ _. Moves D.told self.old.journal self.new.journal) }
        ensures stops { IfErr result (λ _. Stops D.told self.old.journal self.new.journal) }
        ensures memory { IfErr result (λ stop. stop ≡ LineStop.Memory) }
    {
        match self.journal.page(alloc, Face::Text, seat, &mut self.steps) {
            Ok(page) => Ok(page.into_bytes()),
            Err(_) => Err(LineStop::Memory),
        }
    }

    // Gives an input to the journal, and answers what became of it.
    fn give(&mut self, alloc: Global, entry: Entry) -> Result<Row<u8>, LineStop>
        requires { IsSeat entry.seat }
        ensures answers { IfOk result (λ text. KeptAnswers (world_term self.old.journal.world) (gives (entry_term entry)) text.list
            (world_term self.new.journal.world)) }
        ensures moves { IfOk result (λ _. Moves D.told self.old.journal self.new.journal) }
        ensures stops { IfErr result (λ _. Stops D.told self.old.journal self.new.journal) }
        ensures memory { IfErr result (λ stop. stop ≡ LineStop.Memory) }
    {
        if self.journal.is_closed() {
            return Err(LineStop::Memory);
        }
        let reply = self.journal.handle(alloc, entry.seat, entry.input);
        reply_text(alloc, reply)
    }
}

impl<D: Disk + Drop, L: Ledger> Machine for Keeper<D, L> {
    ghost use Rattle.world_core.specs.World.{world_term};
    ghost use Rattle.journal_runs.specs.KeptLines.{TellsOverJournal};
    ghost use Rattle.journal_runs.specs.Moves.{Stops, TakesLine};

    ghost LONGEST = { 1048576 };

    const LONGEST: usize = LINE_BYTE_LIMIT;

    ghost tells = { λ k. TellsOverJournal 1048576 (world_term k.journal.world) };

    ghost no_lines = { λ _ _ _ _ told. told };

    ghost takes = { λ old line text new. TakesLine D.told old.journal line text new.journal };

    ghost stops = { λ old new. Stops D.told old.journal new.journal };

    fn run_line(&mut self, alloc: Global, line: &[u8]) -> Result<Row<u8>, LineStop> {
        match parse_line(alloc, line) {
            Ok(line) => self.answer(alloc, line),
            Err(stop) => Err(stop),
        }
    }
}
