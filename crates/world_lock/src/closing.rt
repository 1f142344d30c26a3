ghost use Rattle.std.specs.Prelude.{◌≡◌, ◌≤◌, [], None, IfErr, IfNone, IfOk, IfSome, OnErr, OnOk, length, map, vec_capacity};
ghost use mathlib.Core.List.{IsPrefix};
ghost use Rattle.task_model.specs.Terms.Item.{history_term};
ghost use Rattle.session_desk.specs.Desks.{DeskTerm};
ghost use Rattle.world_lock.specs.Closings.{Among, HasCounts, HasSessionOf, Holds, IsClosed, IsMissing, CountsOwn, own_total};
ghost use Rattle.world_lock.specs.Sessions.{session_term};

use crate::closed::Closed;
use crate::mark::Mark;
use crate::missing::Missing;
use crate::session::Session;
use crate::shared::Shared;
use crate::shared_world::SharedWorld;
use page_board::Front;
use std::sync::ledger::Share;
use std::sync::{Mutex, Wait};
use task_model::Row;

/// Ends the sharing, once all sessions are together: then the history has their own entries and no others. It takes no memory.
pub fn close<M: Mark, R: Wait + Copy>(
    shared: Shared<M, R>,
    sessions: Vec<Session<M>>,
) -> Result<Closed, Missing<M, R>>
    ensures rest { IfOk result (λ c. c.world.next ≡ None) }
    ensures ok { IfOk result (λ c. IsClosed M.start M.seats (map session_term sessions.items) (history_term c.world.history) c.taken.list) }
    ensures missing { IfErr result (λ m. IsMissing (map session_term sessions.items) M.seats m.seat) }
    ensures back { IfErr result (λ m. m.sessions ≡ sessions) }
{
    let Some(first) = sessions.first() else {
        return Err(Missing {
            seat: 1,
            shared,
            sessions,
        });
    };
    let front = first.front();
    close_holding(shared, sessions, &front)
}

/// The same, and what was kept of a session begins the history.
pub fn close_holding<M: Mark, R: Wait + Copy>(
    shared: Shared<M, R>,
    sessions: Vec<Session<M>>,
    front: &Front,
) -> Result<Closed, Missing<M, R>>
    requires board { front.now.board ≡ M.board }
    ensures rest { IfOk result (λ c. c.world.next ≡ None) }
    ensures ok { IfOk result (λ c. IsClosed M.start M.seats (map session_term sessions.items) (history_term c.world.history) c.taken.list) }
    ensures begins { IfOk result (λ c. IsPrefix (history_term front.now.list) (history_term c.world.history)) }
    ensures missing { IfErr result (λ m. IsMissing (map session_term sessions.items) M.seats m.seat) }
    ensures back { IfErr result (λ m. m.sessions ≡ sessions) }
{
    let Shared {
        world,
        seats,
        mut taken,
    } = shared;
    match count_all(sessions.as_slice(), seats, &mut taken) {
        Ok(()) => Ok(end(world, sessions, front, taken)),
        Err(seat) => Err(Missing {
            seat,
            shared: Shared {
                world,
                seats,
                taken,
            },
            sessions,
        }),
    }
}

// Ends the board, once all sessions are together and their own entries are counted.
fn end<M: Mark, R: Wait + Copy>(
    world: Mutex<SharedWorld<M, R>>,
    sessions: Vec<Session<M>>,
    front: &Front,
    taken: Vec<u64>,
) -> Closed
    requires board { front.now.board ≡ M.board }
    requires counted { HasCounts (map session_term sessions.items) M.seats taken.items }
    ensures rest { result.world.next ≡ None }
    ensures ok { IsClosed M.start M.seats (map session_term sessions.items) (history_term result.world.history) result.taken.list }
    ensures begins { IsPrefix (history_term front.now.list) (history_term result.world.history) }
{
    let mut world = world.into_inner();
    world.holds(front);
    let mut all = gather(&mut world, sessions);
    Closed {
        world: world.settle(&mut all),
        taken: Row::of_vec(taken),
    }
}

// Counts the own entries of each seat from 1 on, in the room for their numbers. Err: the lowest seat that is missing, and no number.
fn count_all<M: Mark>(sessions: &[Session<M>], seats: u8, taken: &mut Vec<u64>) -> Result<(), u8>
    requires room { (taken.old.items ≡ []) × (seats ≤ vec_capacity taken.old) }
    ensures counted { OnOk result (HasCounts (map session_term sessions.now) seats taken.new.items) }
    ensures missing { IfErr result (IsMissing (map session_term sessions.now) seats) }
    ensures room { OnErr result ((taken.new.items ≡ []) × (seats ≤ vec_capacity taken.new)) }
{
    for seat in 0..seats {
        let Some(count) = count_of(sessions, seat + 1) else {
            taken.clear();
            return Err(seat + 1);
        };
        taken.push_reserved(count as u64);
    }
    Ok(())
}

// The number of own entries of the session of this seat.
fn count_of<M: Mark>(sessions: &[Session<M>], seat: u8) -> Option<usize>
    ensures found { IfSome result (λ n. CountsOwn (map session_term sessions.now) seat n) }
    ensures none { IfNone result (¬ HasSessionOf (map session_term sessions.now) seat) }
{
    let mut rest = sessions;
    while let Some((first, more)) = rest.split_first() {
        if first.seat() == seat {
            return Some(first.own_count());
        }
        rest = more;
    }
    None
}

// Each session meets the board, and all shares are joined.
fn gather<M: Mark, R: Wait + Copy>(
    world: &mut SharedWorld<M, R>,
    sessions: Vec<Session<M>>,
) -> Share<M>
    ensures same { world.new ≡ world.old }
    ensures parts { (result.parts ≡ length (map session_term sessions.items)) × (result.parts ≤ M.parts) }
    ensures amount { result.amount ≡ own_total (map session_term sessions.items) }
    ensures held { (s : DeskTerm) → Among s (map session_term sessions.items) → Holds (history_term world.old) s }
{
    let mut sessions = sessions;
    let mut all = world.no_share();
    while let Some(mut session) = sessions.pop() {
        world.meet(&mut session);
        all.merge(session.into_share());
    }
    all
}
