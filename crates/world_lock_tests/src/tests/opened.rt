//! Opened worlds.
ghost use Rattle.std.specs.Prelude.{◌≡◌, IfOk};
ghost use Rattle.task_model.specs.Running.State.{IsSeat};

use std::alloc::Global;
use std::sync::Wait;
use task_model::{DEFAULT_BUDGET, OutOfMemory};
use testing_programs::accepted;
use world_lock::{Opening, make_opening};

/// The opening of a text's program with so many seats. One that is over the budget is as want of memory.
pub(super) fn opening_of<R: Wait + Copy>(
    rt: &R,
    alloc: Global,
    source: &str,
    seats: u8,
) -> Result<Opening<R>, OutOfMemory>
    requires { IsSeat seats }
    ensures { IfOk result (λ o. o.seats ≡ seats) }
{
    let checked = accepted(alloc, source)?;
    match make_opening(rt, alloc, checked, DEFAULT_BUDGET, seats) {
        Ok(opening) => Ok(opening),
        Err(_) => Err(OutOfMemory),
    }
}
