ghost use Rattle.std.specs.Prelude.{◌≡◌, ◌≤◌, None, IfOk};
ghost use Rattle.task_model.specs.Running.State.{IsSeat};
ghost use Rattle.task_model.specs.Terms.Item.{history_term};
ghost use Rattle.drill_program.specs.Drill.{drill_start};
ghost use Rattle.world_drill.specs.Drilled.{IsDrilled};

use crate::running::run;
use drill_program::{drill_inputs_are_taken, drill_program};
use std::alloc::Global;
use std::marker::Brand;
use std::sync::Wait;
use std::thread::Threads;
use task_model::{DEFAULT_BUDGET, OutOfMemory};
use world_core::OpenStop;
use world_lock::{Closed, Mark, Opening, close, make_opening, open};

/// Opens the program of a drill with so many seats, 1 to 64, lets each of them give its first so many inputs, 1 to 10,000, all at once, and
/// closes the world. Each seat has a thread of its own where one can be made; else they act one after another. All inputs are taken. Err:
/// memory ran out.
pub fn drill<R: Threads + Wait + Copy + Send + Sync>(
    rt: &R,
    alloc: Global,
    seats: u8,
    each: u32,
) -> Result<Closed, OutOfMemory>
    requires seats { IsSeat seats }
    requires each { (1 ≤ each) × (each ≤ 10000) }
    ensures rest { IfOk result (λ c. c.world.next ≡ None) }
    ensures drilled { IfOk result (λ c. IsDrilled seats each (history_term c.world.history) c.taken.list) }
{
    let program = drill_program(alloc)?;
    // It opens within the budget.
    drill_inputs_are_taken();
    match make_opening(rt, alloc, program, DEFAULT_BUDGET, seats) {
        Ok(opening) => drill_marked::<Brand, R>(rt, alloc, opening, each),
        Err(OpenStop::Over) => unreachable!(),
        Err(OpenStop::Memory) => Err(OutOfMemory),
    }
}

// The same, where a type names the world.
fn drill_marked<M: Mark + Send + Sync, R: Threads + Wait + Copy + Send + Sync>(
    rt: &R,
    alloc: Global,
    opening: Opening<R>,
    each: u32,
) -> Result<Closed, OutOfMemory>
    requires board { opening.board ≡ M.board }
    requires start { (history_term opening.history ≡ M.start) × (M.start ≡ drill_start) }
    requires ledger { opening.name ≡ M.name }
    requires seats { (opening.seats ≡ M.seats) × (opening.seats ≡ M.parts) }
    ensures rest { IfOk result (λ c. c.world.next ≡ None) }
    ensures drilled { IfOk result (λ c. IsDrilled M.seats each (history_term c.world.history) c.taken.list) }
{
    let (shared, sessions) = open::<M, R>(alloc, opening)?;
    let back = run(rt, alloc, &shared, sessions, each)?;
    match close(shared, back) {
        Ok(closed) => Ok(closed),
        // Every seat is back.
        Err(_) => unreachable!(),
    }
}
