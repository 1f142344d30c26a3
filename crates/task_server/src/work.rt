ghost use Rattle.std.specs.Prelude.{◌≡◌, ◌+◌, ◌-◌, ◌≤◌, length};
ghost use Rattle.outer_io.specs.Links.{IsFresh};
ghost use Rattle.task_server.specs.Answering.{IsLinkServed};
ghost use Rattle.task_server.specs.Crews.{HasWorked};
ghost use Rattle.world_lock.specs.Sessions.{session_term};

use crate::crew::Crew;
use crate::porch::Porch;
use crate::seated::Seated;
use crate::shares::Shares;
use crate::watch::Watch;
use outer_gates::Gate;
use outer_io::Link;
use session_gate::{Trace, serve_connection};
use std::alloc::Global;
use std::sync::ledger::Ledger;
use std::sync::{Mutex, Wait};
use world_lock::{Mark, Session, Shared};

/// A worker: it takes links under the gate's lock, serves each with the session that has waited longest, and gives it back, until
/// nothing more comes.
pub(crate) fn work<M: Mark, W: Watch, T: Ledger, E: Ledger, G: Gate, S: Wait + Copy, R: Wait>(
    rt: &R,
    alloc: Global,
    porch: &Mutex<Porch<M, W, T, E, G>>,
    shared: &Shared<M, S>,
    crew: Crew<M, W, T, E>,
) -> Crew<M, W, T, E>
    ensures { HasWorked crew result }
{
    let Crew {
        mut sessions,
        mut shares,
        mut trace,
    } = crew;
    for _ in rt.forever() {
        let Some(link) = porch.lock(rt).take(&mut shares) else {
            return Crew {
                sessions,
                shares,
                trace,
            };
        };
        let Some(session) = sessions.pop_front() else {
            unreachable!()
        };
        let session = serve_link(
            rt,
            alloc,
            porch,
            shared,
            link,
            session,
            &mut shares,
            &mut trace,
        );
        sessions.push_back_reserved(session);
    }
    unreachable!()
}

// Serves a link with this session, which is shut then, and gives it back.
fn serve_link<M: Mark, W: Watch, T: Ledger, E: Ledger, G: Gate, S: Wait + Copy, R: Wait>(
    rt: &R,
    alloc: Global,
    porch: &Mutex<Porch<M, W, T, E, G>>,
    shared: &Shared<M, S>,
    link: G::Link,
    session: Session<M>,
    shares: &mut Shares<W, T, E>,
    trace: &mut Trace,
) -> Session<M>
    requires fresh { IsFresh (G.tells link) }
    requires out { (shares.old.out.parts ≡ 1) × (shares.old.out.amount ≡ 1) }
    requires parts { shares.old.gained.parts ≡ 1 }
    ensures out { (shares.new.out.parts ≡ 1) × (shares.new.out.amount ≡ 0) }
    ensures gained { (shares.new.gained.parts ≡ 1)
        × (shares.new.gained.amount + length (session_term session).own ≡ shares.old.gained.amount + length (session_term result).own) }
    ensures told { shares.new.told ≡ shares.old.told }
    ensures seat { (session_term result).seat ≡ (session_term session).seat }
{
    let mut link = link;
    let before = session.own_count();
    let session = serve_seated(rt, alloc, shared, session, &mut link, trace);
    let count = session.own_count() - before;
    let seen = session.front();
    porch.lock(rt).finish(link, shares, &seen, count as u64);
    session
}

// Serves a link at the session's seat, and shuts it.
fn serve_seated<M: Mark, K: Link, S: Wait + Copy, R: Wait>(
    rt: &R,
    alloc: Global,
    shared: &Shared<M, S>,
    session: Session<M>,
    link: &mut K,
    trace: &mut Trace,
) -> Session<M>
    requires fresh { IsFresh (K.told link.old) }
    ensures served { IsLinkServed M.start (session_term session) (session_term result) (K.told link.new)
        (length (session_term result).own - length (session_term session).own) }
    ensures own { length (session_term session).own ≤ length (session_term result).own }
    ensures seat { (session_term result).seat ≡ (session_term session).seat }
{
    let _seat = session.seat();
    let _seen = session.seen();
    let mut seated = Seated { session, shared };
    trace.clear();
    serve_connection(rt, alloc, &mut seated, link, trace);
    link.shut();
    let Seated { session, .. } = seated;
    session
}
