ghost use Rattle.std.specs.Prelude.{◌≡◌, ◌+◌, ◌-◌, ◌<◌, ◌≤◌, ◌^◌, ◌++◌, [], length, take, MatchOption, OnOk};

use crate::Finish;
use crate::due::Due;
use std::alloc::Global;
use task_model::{OutOfMemory, Row};

/// What is kept of the next line, how many bytes of the script have come, the number of that line, and the answers
/// that are due to the lines before it.
#[derive(Drop)]
pub(crate) struct Cursor {
    pub(crate) kept: Row<u8>,
    pub(crate) count: u64,
    pub(crate) number: u64,
    pub(crate) due: Due,
    ghost numbered: { number ≤ count + 1 },
}

impl Cursor {
    ghost use Rattle.line_frame.specs.TakesRun.{TakesRun};

    /// Before the first byte of a script.
    pub(crate) fn new(alloc: Global) -> Cursor
        ensures kept { result.kept.list ≡ [] }
        ensures count { result.count ≡ 0 }
        ensures number { result.number ≡ 1 }
        ensures due { result.due.text.list ≡ [] }
    {
        Cursor {
            kept: Row::new(alloc),
            count: 0,
            number: 1,
            due: Due::new(alloc),
        }
    }

    /// Takes the next bytes of a line, none of which is its LF. None: go on.
    pub(crate) fn take_run(&mut self, longest: usize, run: &[u8]) -> Option<Finish>
        requires { self.old.count + length run.now < 2 ^ 63 }
        ensures takes { MatchOption result (TakesRun longest self.old self.new run.now) (λ finish. finish ≡ Finish.Memory) }
        ensures due { self.new.due.text.list ≡ self.old.due.text.list }
    {
        match keep(&mut self.kept, longest, run) {
            Ok(()) => {
                self.count += run.len() as u64;
                None
            }
            Err(_) => Some(Finish::Memory),
        }
    }
}

// Keeps the next bytes of a line, up to one more than the longest line has.
fn keep(kept: &mut Row<u8>, longest: usize, run: &[u8]) -> Result<(), OutOfMemory>
    ensures { OnOk result (kept.new.list ≡ kept.old.list ++ take (longest + 1 - length kept.old.list) run.now) }
{
    let length = kept.as_slice().len();
    if length > longest {
        return Ok(());
    }
    let count = (longest - length).saturating_add(1).min(run.len());
    kept.extend(&run[..count])
}
