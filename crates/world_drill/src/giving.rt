ghost use Rattle.std.specs.Prelude.{◌≡◌, ◌++◌, ◌∷◌, [], IfOk, OnOk};
ghost use Rattle.drill_program.specs.Drill.{drill_entry, drill_start};
ghost use Rattle.world_drill.specs.Drilled.{HasGiven};
ghost use Rattle.world_lock.specs.Sessions.{session_term};

use drill_program::{drill_input, drill_inputs_are_taken};
use std::alloc::Global;
use std::sync::Wait;
use task_model::{ActStop, OutOfMemory};
use world_lock::{Mark, Session, Shared};

/// A seat gives its first so many inputs, in order. Err: memory ran out.
pub(crate) fn give_all<M: Mark, S: Wait + Copy, R: Wait>(
    rt: &R,
    alloc: Global,
    shared: &Shared<M, S>,
    session: Session<M>,
    each: u32,
) -> Result<Session<M>, OutOfMemory>
    requires start { M.start ≡ drill_start }
    ensures { IfOk result (λ back. HasGiven each (session_term session) (session_term back)) }
{
    let mut session = session;
    for k in 0..each {
        give(rt, alloc, shared, &mut session, k + 1)?;
    }
    Ok(session)
}

// The seat gives its input of this number. At each history of a drill it is offered and within the budget.
fn give<M: Mark, S: Wait + Copy, R: Wait>(
    rt: &R,
    alloc: Global,
    shared: &Shared<M, S>,
    session: &mut Session<M>,
    k: u32,
) -> Result<(), OutOfMemory>
    requires start { M.start ≡ drill_start }
    ensures seat { OnOk result ((session_term session.new).seat ≡ (session_term session.old).seat) }
    ensures own { OnOk result ((session_term session.new).own
        ≡ (session_term session.old).own ++ drill_entry (session_term session.old).seat k ∷ []) }
{
    let input = drill_input(alloc, session.seat(), k);
    let answer = session.act(rt, alloc, shared, input);
    // What it has then seen begins with the opening.
    let _seen = session.seen();
    drill_inputs_are_taken();
    match answer {
        Ok(_) => Ok(()),
        Err(stop) => match stop {
            ActStop::NotOffered => unreachable!(),
            ActStop::Over => unreachable!(),
            ActStop::Memory => Err(OutOfMemory),
        },
    }
}
