ghost use Rattle.std.specs.Prelude.{◌≡◌, ◌≤◌, [], All, IfOk, length, map, vec_capacity};
ghost use Rattle.task_model.specs.Terms.Item.{history_term};
ghost use Rattle.task_model.specs.Running.State.{IsLegal, IsSeat, version_of};
ghost use Rattle.world_lock.specs.Openings.{IsAtStart, newcomer, newcomers};
ghost use Rattle.world_lock.specs.Sessions.{session_term};

use crate::mark::Mark;
use crate::opening::Opening;
use crate::session::Session;
use crate::shared::Shared;
use crate::shared_world::SharedWorld;
use page_board::BoardReader;
use std::alloc::Global;
use std::sync::ledger::Share;
use std::sync::{Mutex, Wait};
use task_model::OutOfMemory;

// The session of a seat that has seen the opening alone.
fn seated<M: Mark>(alloc: Global, seat: u8, reader: BoardReader, share: Share<M>) -> Session<M>
    requires seat { IsSeat seat }
    requires reader { IsAtStart M.board M.start reader }
    requires start { IsLegal M.start × (version_of M.start ≡ 0) }
    requires share { (share.parts ≡ 1) × (share.amount ≡ 0) }
    ensures { session_term result ≡ newcomer M.start seat }
{
    Session {
        seat,
        seen: 0,
        reader,
        own: Vec::new(alloc),
        share,
        page_at_calls: 0,
    }
}

// The sessions of the seats from 1 on, one for each reader, in the room for them.
fn seat_all<M: Mark>(
    alloc: Global,
    readers: Vec<BoardReader>,
    root: &mut Share<M>,
    room: Vec<Session<M>>,
    seats: u8,
) -> Vec<Session<M>>
    requires seats { IsSeat seats }
    requires readers { (length readers.items ≡ seats) × All (IsAtStart M.board M.start) readers.items }
    requires start { IsLegal M.start × (version_of M.start ≡ 0) }
    requires root { (root.old.parts ≡ seats) × (root.old.amount ≡ 0) }
    requires room { (room.items ≡ []) × (seats ≤ vec_capacity room) }
    ensures { map session_term result.items ≡ newcomers M.start seats }
{
    let (mut readers, mut sessions) = (readers, room);
    for seat in 0..seats {
        let Some(reader) = readers.pop() else {
            unreachable!()
        };
        let share = root.split_off(1, 0);
        sessions.push_reserved(seated(alloc, seat + 1, reader, share));
    }
    sessions
}

/// Gives the world its mark, and hands out the sessions of the seats from 1 on.
pub fn open<M: Mark, R: Wait + Copy>(
    alloc: Global,
    opening: Opening<R>,
) -> Result<(Shared<M, R>, Vec<Session<M>>), OutOfMemory>
    requires board { opening.board ≡ M.board }
    requires start { history_term opening.history ≡ M.start }
    requires ledger { opening.name ≡ M.name }
    requires seats { (opening.seats ≡ M.seats) × (opening.seats ≡ M.parts) }
    ensures sessions { IfOk result (λ r. map session_term r.1.items ≡ newcomers M.start M.seats) }
{
    match room_for(alloc, opening.seats) {
        Ok(room) => Ok(hand_out(alloc, opening, room)),
        Err(OutOfMemory) => {
            drop(opening);
            Err(OutOfMemory)
        }
    }
}

// Room for so many sessions.
fn room_for<M: Mark>(alloc: Global, seats: u8) -> Result<Vec<Session<M>>, OutOfMemory>
    ensures { IfOk result (λ room. (room.items ≡ []) × (seats ≤ vec_capacity room)) }
{
    let mut room = Vec::new(alloc);
    room.reserve(usize::from(seats))?;
    Ok(room)
}

// The same as `open`, once there is room for the sessions.
fn hand_out<M: Mark, R: Wait + Copy>(
    alloc: Global,
    opening: Opening<R>,
    room: Vec<Session<M>>,
) -> (Shared<M, R>, Vec<Session<M>>)
    requires board { opening.board ≡ M.board }
    requires start { history_term opening.history ≡ M.start }
    requires ledger { opening.name ≡ M.name }
    requires seats { (opening.seats ≡ M.seats) × (opening.seats ≡ M.parts) }
    requires room { (room.items ≡ []) × (opening.seats ≤ vec_capacity room) }
    ensures sessions { map session_term result.1.items ≡ newcomers M.start M.seats }
{
    let Opening {
        world,
        writer,
        readers,
        blank,
        taken,
        seats,
    } = opening;
    let (book, mut root) = blank.open::<M>();
    let sessions = seat_all(alloc, readers, &mut root, room, seats);
    let world = SharedWorld {
        world,
        writer,
        book,
        root,
    };
    let shared = Shared {
        world: Mutex::new(world),
        seats,
        taken,
    };
    (shared, sessions)
}
