ghost use Rattle.std.specs.Prelude.{◌≡◌, IfOk};

mod waiting_gate;
mod waiting_link;

use std::alloc::Global;
use std::sync::Wait;
use std::test::Fail;
use std::thread::Threads;
use task_server::{Serving, serve_opening};
use testing_programs::accepted;
use waiting_gate::WaitingGate;
use waiting_link::{Signal, WaitingLink};
use world_lock::{Opening, make_opening};

const STEP: &str = "task main() : int = enter int >>? x . edit (x + 1)";

const PAGE: &str = "GET /?face=text HTTP/1.1\r\nHost: a\r\n\r\n";

const REPLIES: [&str; 2] = [
    "HTTP/1.1 200 OK\r\nContent-Type: text/plain; charset=utf-8\r\nContent-Length: 36\r\n\r\nversion 0 seat 1\n. step\n. enter int\n",
    "HTTP/1.1 200 OK\r\nContent-Type: text/plain; charset=utf-8\r\nContent-Length: 36\r\n\r\nversion 0 seat 2\n. step\n. enter int\n",
];

// The program, opened for two seats.
fn opening<R: Wait + Copy>(rt: &R, alloc: Global) -> Result<Opening<R>, Fail>
    ensures { IfOk result (λ o. o.seats ≡ 2) }
{
    match make_opening(rt, alloc, accepted(alloc, STEP)?, 10_000, 2) {
        Ok(opening) => Ok(opening),
        Err(_) => Err(Fail::from("the program wasn't opened")),
    }
}

// The gate, once its two links were served by two workers.
fn served(
    rt: &(impl Threads + Wait + Copy + Send + Sync),
    alloc: Global,
    gate: WaitingGate,
) -> Result<WaitingGate, Fail> {
    let opening = opening(rt, alloc)?;
    let Serving { gate, result } = serve_opening(rt, alloc, opening, gate, 2, 2);
    drop(result);
    Ok(gate)
}

// The first link gives its request once the second one has taken a reply, so two workers answer at once.
#[test]
fn two_connections_overlap(rt: HostRuntime) -> Result<(), Fail> {
    let alloc = rt.alloc();
    let signal = Signal::new(alloc)?;
    let first = WaitingLink::behind(alloc, PAGE, &signal)?;
    let second = WaitingLink::before(alloc, PAGE, &signal)?;
    let gate = served(&rt, alloc, WaitingGate::new(alloc, first, second))?;
    assert!(rt; !signal.was_missed(), "a link waited in vain");
    assert_eq!(rt; gate.finished().len(), 2);
    for link in gate.finished() {
        assert!(rt; REPLIES.iter().any(|reply| reply.as_bytes() == link.taken()));
    }
    Ok(())
}
