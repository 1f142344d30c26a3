ghost use Rattle.std.specs.Prelude.{◌≡◌, IfOk, Ok, map};
ghost use Rattle.drill_program.specs.Drill.{drill_start};
ghost use Rattle.world_drill.specs.Drilled.{HasGiven, HaveGiven};
ghost use Rattle.world_lock.specs.Sessions.{session_term};

use crate::giving::give_all;
use page_board::{BoardReader, BoardWriter};
use std::alloc::Global;
use std::collections::VecDeque;
use std::sync::Wait;
use std::thread;
use std::thread::Threads;
use task_model::OutOfMemory;
use world_crossing::{crosses, entries_cross, worlds_cross};
use world_lock::{Mark, Session, Shared};

/// Each session gives its first so many inputs, from a thread of its own where one can be made, else one after another. Err: memory ran
/// out.
pub(crate) fn run<M: Mark + Send + Sync, R: Threads + Wait + Copy + Send + Sync>(
    rt: &R,
    alloc: Global,
    shared: &Shared<M, R>,
    sessions: Vec<Session<M>>,
    each: u32,
) -> Result<Vec<Session<M>>, OutOfMemory>
    requires start { M.start ≡ drill_start }
    ensures { IfOk result (λ back. HaveGiven each (map session_term sessions.items) (map session_term back.items)) }
{
    // A session may go to another thread, and what all of them share may be looked at by each.
    worlds_cross();
    entries_cross();
    crosses::<BoardReader>();
    crosses::<BoardWriter<R>>();
    let back = thread::map_vec(
        rt,
        sessions,
        &|session: Session<M>| -> Result<Session<M>, OutOfMemory>
            requires { M.start ≡ drill_start }
            ensures { IfOk result (λ back. HasGiven each (session_term session) (session_term back)) }
        { give_all(rt, alloc, shared, session, each) },
    )?;
    gather(alloc, back)
}

// The sessions, in order, where memory ran out in none.
fn gather<M: Mark>(
    alloc: Global,
    back: Vec<Result<Session<M>, OutOfMemory>>,
) -> Result<Vec<Session<M>>, OutOfMemory>
    ensures { IfOk result (λ sessions. back.items ≡ map Ok sessions.items) }
{
    let mut sessions = Vec::new(alloc);
    sessions.reserve(back.len())?;
    let mut rest = VecDeque::from(back);
    while let Some(one) = rest.pop_front() {
        sessions.push_reserved(one?);
    }
    Ok(sessions)
}
