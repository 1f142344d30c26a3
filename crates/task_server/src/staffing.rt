ghost use Rattle.std.specs.Prelude.{◌≡◌, ◌+◌, ◌<◌, ◌≤◌, ◌++◌, ◌∷◌, [], IfOk, OnOk, length};
ghost use Rattle.task_server.specs.Crews.{HaveAll, all_sessions, all_told, crew_term, owned};
ghost use Rattle.world_lock.specs.Sessions.{session_term};

use crate::crew::Crew;
use crate::shares::Shares;
use crate::watch::Watch;
use session_gate::Trace;
use std::alloc::Global;
use std::collections::VecDeque;
use std::sync::ledger::{Book, Ledger};
use task_model::OutOfMemory;
use world_lock::{Mark, Session};

/// So many workers, to whom the sessions are dealt in turn. Their own entries count as inputs that were taken.
pub(crate) fn staff<M: Mark, W: Watch, T: Ledger, E: Ledger>(
    alloc: Global,
    sessions: Vec<Session<M>>,
    workers: usize,
    gained: &mut Book<T>,
    all: &mut Shares<W, T, E>,
) -> Result<Vec<Crew<M, W, T, E>>, OutOfMemory>
    requires some { (0 < workers) × (workers ≤ length sessions.items) }
    requires parts { (all.old.out.parts ≡ workers) × (all.old.gained.parts ≡ workers) × (all.old.told.parts ≡ workers) }
    requires amounts { (all.old.out.amount ≡ 0) × (all.old.gained.amount ≡ 0) × (all.old.told.amount ≡ 0) }
    requires total { gained.old.total ≡ 0 }
    ensures sessions { IfOk result (λ crews. HaveAll sessions.items (all_sessions crews.items)) }
    ensures workers { IfOk result (λ crews. (length crews.items ≡ workers) × (all_told crews.items ≡ 0)) }
    ensures parts { OnOk result ((all.new.out.parts ≡ 0) × (all.new.gained.parts ≡ 0) × (all.new.told.parts ≡ 0)) }
    ensures amounts { OnOk result ((all.new.out.amount ≡ 0) × (all.new.gained.amount ≡ 0) × (all.new.told.amount ≡ 0)) }
    ensures total { OnOk result (gained.new.total ≡ owned sessions.items) }
{
    let mut rest = VecDeque::from(sessions);
    let mut crews = first_crews(alloc, &mut rest, workers, gained, all)?;
    while let Some(session) = rest.pop_front() {
        let Some(crew) = crews.pop_front() else {
            unreachable!()
        };
        let crew = with_session(crew, session, gained)?;
        crews.push_back_reserved(crew);
    }
    Ok(Vec::from(crews))
}

// So many workers with a session each, the first ones.
fn first_crews<M: Mark, W: Watch, T: Ledger, E: Ledger>(
    alloc: Global,
    rest: &mut VecDeque<Session<M>>,
    workers: usize,
    gained: &mut Book<T>,
    all: &mut Shares<W, T, E>,
) -> Result<VecDeque<Crew<M, W, T, E>>, OutOfMemory>
    requires some { workers ≤ length rest.old.items }
    requires parts { (all.old.out.parts ≡ workers) × (all.old.gained.parts ≡ workers) × (all.old.told.parts ≡ workers) }
    requires amounts { (all.old.out.amount ≡ 0) × (all.old.gained.amount ≡ 0) × (all.old.told.amount ≡ 0) }
    requires total { gained.old.total ≡ 0 }
    ensures sessions { IfOk result (λ crews. rest.old.items ≡ all_sessions crews.items ++ rest.new.items) }
    ensures workers { IfOk result (λ crews. (length crews.items ≡ workers) × (all_told crews.items ≡ 0)) }
    ensures parts { OnOk result ((all.new.out.parts ≡ 0) × (all.new.gained.parts ≡ 0) × (all.new.told.parts ≡ 0)) }
    ensures amounts { OnOk result ((all.new.out.amount ≡ 0) × (all.new.gained.amount ≡ 0) × (all.new.told.amount ≡ 0)) }
    ensures total { IfOk result (λ crews. gained.new.total ≡ owned (all_sessions crews.items)) }
{
    let mut crews = VecDeque::new(alloc);
    crews.reserve(workers)?;
    while crews.len() < workers {
        let Some(session) = rest.pop_front() else {
            unreachable!()
        };
        let crew = new_crew(alloc, session, gained, all.split_one())?;
        crews.push_back_reserved(crew);
    }
    Ok(crews)
}

// A worker with one session.
fn new_crew<M: Mark, W: Watch, T: Ledger, E: Ledger>(
    alloc: Global,
    session: Session<M>,
    gained: &mut Book<T>,
    shares: Shares<W, T, E>,
) -> Result<Crew<M, W, T, E>, OutOfMemory>
    requires parts { (shares.out.parts ≡ 1) × (shares.gained.parts ≡ 1) × (shares.told.parts ≡ 1) }
    requires amounts { (shares.out.amount ≡ 0) × (shares.gained.amount ≡ 0) × (shares.told.amount ≡ 0) }
    ensures crew { IfOk result (λ crew. crew ≡ crew_term (session ∷ []) 0) }
    ensures total { OnOk result (gained.new.total ≡ gained.old.total + length (session_term session).own) }
{
    let mut shares = shares;
    let trace = Trace::new(alloc)?;
    let mut sessions = VecDeque::new(alloc);
    sessions.reserve(1)?;
    let count = session.own_count();
    gained.add(&mut shares.gained, count as u64);
    sessions.push_back_reserved(session);
    Ok(Crew {
        sessions,
        shares,
        trace,
    })
}

// The worker with a session more, behind its others.
fn with_session<M: Mark, W: Watch, T: Ledger, E: Ledger>(
    crew: Crew<M, W, T, E>,
    session: Session<M>,
    gained: &mut Book<T>,
) -> Result<Crew<M, W, T, E>, OutOfMemory>
    ensures crew { IfOk result (λ one. one ≡ crew_term (crew.sessions ++ session ∷ []) crew.told) }
    ensures total { OnOk result (gained.new.total ≡ gained.old.total + length (session_term session).own) }
{
    let Crew {
        mut sessions,
        mut shares,
        trace,
    } = crew;
    sessions.reserve(1)?;
    let count = session.own_count();
    gained.add(&mut shares.gained, count as u64);
    sessions.push_back_reserved(session);
    Ok(Crew {
        sessions,
        shares,
        trace,
    })
}
