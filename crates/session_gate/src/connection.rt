ghost use Rattle.std.specs.Prelude.{◌≡◌, ◌<◌, ℕ, [], Some, length, drop};
ghost use Rattle.task_model.specs.Terms.Text.{Text};
ghost use Rattle.task_model.specs.Running.State.{IsLegal};
ghost use Rattle.http_requests.specs.RequestReading.{request_term};
ghost use Rattle.http_requests.specs.Streams.{BeginsWith};
ghost use Rattle.session_gate.specs.Connections.{Served};
ghost use Rattle.session_gate.specs.Rounds.{IsRound};

use crate::answering::answer;
use crate::ending::Ending;
use crate::next::Next;
use crate::plan::Plan;
use crate::reading::next_request;
use crate::ready::Ready;
use crate::sending::send;
use crate::trace::Trace;
use bytes::BytesMut;
use http_requests::Request;
use outer_io::{Link, Written};
use session_desk::Desk;
use std::alloc::Global;
use std::sync::Wait;

// How many requests a connection answers at most.
const REQUEST_LIMIT: u64 = 100;

/// Reads the requests of a link, answers each in order at a desk, and adds a note for each answered request, before the first byte of
/// its reply. It ends as `Ending` says (docs/RULES.md, "Connections").
pub fn serve_connection<D: Desk, K: Link, R: Wait>(
    rt: &R,
    alloc: Global,
    desk: &mut D,
    link: &mut K,
    trace: &mut Trace,
) -> Ending
    requires legal { IsLegal (D.at desk.old).seen }
    requires empty { trace.old.notes.items ≡ [] }
    ensures { Served (D.at desk.old) (D.at desk.new) (K.told link.old) (K.told link.new) trace.new.notes.items result }
{
    let mut kept = BytesMut::new(alloc);
    for round in 0..REQUEST_LIMIT {
        let left = REQUEST_LIMIT - round;
        match serve_one(rt, alloc, desk, link, &mut kept, trace, left) {
            Some(ending) => return ending,
            None => {}
        }
    }
    Ending::Spent
}

// One round, where so many replies are left: reads a request, and answers it.
fn serve_one<D: Desk, K: Link, R: Wait>(
    rt: &R,
    alloc: Global,
    desk: &mut D,
    link: &mut K,
    kept: &mut BytesMut,
    trace: &mut Trace,
    left: u64,
) -> Option<Ending>
    requires legal { IsLegal (D.at desk.old).seen }
    requires room { length trace.old.notes.items < 100 }
    ensures { IsRound left (D.at desk.old) (D.at desk.new) (K.told link.old) (K.told link.new) kept.old.items kept.new.items
        trace.old.notes.items trace.new.notes.items result }
{
    match next_request(alloc, link, kept) {
        Next::Request(request) => {
            serve_request(rt, alloc, desk, link, kept, trace, request, left)
        }
        Next::Ended => Some(Ending::Ended),
        Next::Cut => Some(Ending::Cut),
        Next::Failed => Some(Ending::ReadFault),
        Next::Memory => Some(give_up(desk, link, trace)),
    }
}

// Answers the request that the kept bytes begin with.
fn serve_request<D: Desk, K: Link, R: Wait>(
    rt: &R,
    alloc: Global,
    desk: &mut D,
    link: &mut K,
    kept: &mut BytesMut,
    trace: &mut Trace,
    request: Request,
    left: u64,
) -> Option<Ending>
    requires legal { IsLegal (D.at desk.old).seen }
    requires room { length trace.old.notes.items < 100 }
    requires begins { BeginsWith kept.old.items (request_term request) (drop request.length kept.old.items) }
    ensures { IsRound left (D.at desk.old) (D.at desk.new) (K.told link.old) (K.told link.new) kept.old.items kept.new.items
        trace.old.notes.items trace.new.notes.items result }
{
    let plan = Plan::of(&request);
    let answer = answer(rt, alloc, desk, request.asked);
    let ready = Ready::of(alloc, answer, plan.head_only, plan.is_last(left));
    trace.add(ready.note);
    kept.advance(request.length as usize);
    match send(link, ready.bytes.as_slice()) {
        Written::Whole => plan.ending(ready.note.kind),
        Written::Failed => Some(Ending::WriteFault),
    }
}

// Tells want of memory in place of the reply to a request that isn't known whole.
fn give_up<D: Desk, K: Link>(desk: &D, link: &mut K, trace: &mut Trace) -> Ending
    requires legal { IsLegal (D.at desk.now).seen }
    requires room { length trace.old.notes.items < 100 }
    ensures { (left : ℕ) (kept : Text) → IsRound left (D.at desk.now) (D.at desk.now) (K.told link.old) (K.told link.new) kept kept
        trace.old.notes.items trace.new.notes.items (Some result) }
{
    let ready = Ready::out_of_memory(desk.seen());
    trace.add(ready.note);
    match send(link, ready.bytes.as_slice()) {
        Written::Whole => Ending::Memory,
        Written::Failed => Ending::WriteFault,
    }
}
