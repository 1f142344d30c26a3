//! Seats that act from threads of their own.
ghost use Rattle.std.specs.Prelude.{◌≡◌};
ghost use Rattle.task_model.specs.Terms.Item.{history_term};

use page_board::{BoardReader, BoardWriter};
use std::alloc::Global;
use std::process::Abort;
use std::sync::Wait;
use std::test::Fail;
use std::thread;
use std::thread::Threads;
use task_model::{Act, Face, Input, Item, Path, Turns, Value};
use world_crossing::{crosses, entries_cross, worlds_cross};
use world_lock::{Closed, Mark, Opening, Session, Shared, close, open};

// How many inputs each seat gives, and how many of them it gives between two pages.
const EACH: u32 = 10_000;

const BETWEEN: u32 = 4;

// The number that a seat sets with its input of this number, from 1 on.
fn number(seat: u8, at: u32) -> i64 {
    i64::from(seat) * 1_000_000 + i64::from(at)
}

fn set_input(alloc: Global, n: i64) -> Input {
    Input {
        path: Path {
            turns: Turns::new(alloc),
        },
        act: Act::Set(Value::Int(n)),
    }
}

// One input of a seat, and after some of them a page and a page of its version. None where a call is refused, or a page is older.
fn round<M: Mark, R: Wait, W: Wait + Copy>(
    rt: &R,
    alloc: Global,
    shared: &Shared<M, W>,
    session: &mut Session<M>,
    at: u32,
) -> Option<()> {
    let input = set_input(alloc, number(session.seat(), at));
    let version = session.act(rt, alloc, shared, input).ok()?;
    if at % BETWEEN == 0 {
        let page = session.page(alloc, Face::Text).ok()?;
        if page.version() < version {
            return None;
        }
        session
            .page_at(rt, alloc, shared, Face::Html, version)
            .ok()?;
    }
    Some(())
}

// One seat's inputs, in order, up to the first call that is refused.
fn seat_run<M: Mark, R: Wait, W: Wait + Copy>(
    rt: &R,
    alloc: Global,
    shared: &Shared<M, W>,
    session: Session<M>,
) -> Session<M> {
    let mut session = session;
    for at in 1..=EACH {
        if round(rt, alloc, shared, &mut session, at).is_none() {
            return session;
        }
    }
    session
}

// All seats run at once, in threads of their own. None where memory ran out.
fn run<M: Mark + Send + Sync, R: Threads + Wait + Copy + Send + Sync>(
    rt: &R,
    alloc: Global,
    shared: &Shared<M, R>,
    sessions: Vec<Session<M>>,
) -> Option<Vec<Session<M>>> {
    // A session may go to another thread, since its parts may, and what all share may be looked at by each.
    worlds_cross();
    entries_cross();
    crosses::<BoardReader>();
    crosses::<BoardWriter<R>>();
    let back = thread::map_vec(
        rt,
        sessions,
        &|session: Session<M>| { seat_run(rt, alloc, shared, session) },
    );
    back.ok()
}

// Whether the items after the opening are each seat's inputs, in its order.
fn are_in_order(items: &[Item]) -> bool {
    let mut counts = [0u32; 65];
    for item in items {
        if let Item::Took(entry) = item {
            let Some(count) = counts.get_mut(usize::from(entry.seat)) else {
                return false;
            };
            *count = count.saturating_add(1);
            let Act::Set(Value::Int(n)) = &entry.input.act else {
                return false;
            };
            if *n != number(entry.seat, *count) {
                return false;
            }
        }
    }
    true
}

/// All seats run at once, and are closed.
pub(super) fn drilled<M: Mark + Send + Sync, R: Threads + Wait + Abort + Copy + Send + Sync>(
    rt: &R,
    alloc: Global,
    opening: Opening<R>,
) -> Result<(), Fail>
    requires board { opening.board ≡ M.board }
    requires start { history_term opening.history ≡ M.start }
    requires ledger { opening.name ≡ M.name }
    requires seats { (opening.seats ≡ M.seats) × (opening.seats ≡ M.parts) }
{
    match open::<M, R>(alloc, opening) {
        Ok((shared, sessions)) => {
            let closed = closed(rt, alloc, shared, sessions);
            let right = are_right(rt, &closed);
            drop(closed);
            right
        }
        Err(_) => Err(Fail::from("memory is ample")),
    }
}

// The closed world, once all seats have run. None where memory ran out.
fn closed<M: Mark + Send + Sync, R: Threads + Wait + Copy + Send + Sync>(
    rt: &R,
    alloc: Global,
    shared: Shared<M, R>,
    sessions: Vec<Session<M>>,
) -> Option<Closed> {
    match run(rt, alloc, &shared, sessions) {
        Some(sessions) => close(shared, sessions).ok(),
        None => {
            drop(shared);
            None
        }
    }
}

// Whether each seat's inputs are there, in its order.
fn are_right<R: Abort>(rt: &R, closed: &Option<Closed>) -> Result<(), Fail> {
    let closed = closed.as_ref().ok_or("all seats are there")?;
    for count in closed.taken.as_slice() {
        assert_eq!(rt; *count, u64::from(EACH));
    }
    assert!(rt; are_in_order(closed.world.history()));
    Ok(())
}
