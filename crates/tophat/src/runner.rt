ghost use Rattle.std.specs.Prelude.{◌≡◌, IsNone, ⊤};

use crate::asking::read_asked;
use line_frame::{LineStop, Machine};
use std::alloc::Global;
use std::sync::ledger::Ledger;
use task_model::{LINE_BYTE_LIMIT, OutOfMemory, Row, Steps};
use world_answers::{Answering, LineForm};
use world_core::World;

/// Runs the lines of a script, of one form, on a world.
#[derive(Drop)]
pub(crate) struct Runner<L: Ledger> {
    answering: Answering<L>,
}

impl<L: Ledger> Runner<L> {
    pub(crate) fn new(form: LineForm, world: World, steps: Steps<L>) -> Runner<L>
        requires { IsNone world.next }
        ensures form { result.answering.form ≡ form }
        ensures world { result.answering.world ≡ world }
    {
        Runner {
            answering: Answering::new(form, world, steps),
        }
    }
}

impl<L: Ledger> Machine for Runner<L> {
    ghost use Rattle.world_core.specs.World.{world_term};
    ghost use Rattle.tophat.specs.Session.{Tells};
    ghost use Rattle.tophat.specs.Top.{limits};

    ghost LONGEST = { limits.line };

    const LONGEST: usize = LINE_BYTE_LIMIT;

    ghost tells = { λ r. Tells r.answering.form limits.line (world_term r.answering.world) };

    ghost no_lines = { λ _ _ _ _ told. told };

    // Nothing is said of what becomes of it.
    ghost takes = { λ _ _ _ _. ⊤ };

    ghost stops = { λ _ _. ⊤ };

    fn run_line(&mut self, alloc: Global, line: &[u8]) -> Result<Row<u8>, LineStop> {
        match read_asked(alloc, self.answering.form(), line) {
            Ok(line) => match self.answering.answer(alloc, line) {
                Ok(text) => Ok(text),
                Err(OutOfMemory) => Err(LineStop::Memory),
            },
            Err(stop) => Err(stop),
        }
    }
}
