use outer_gates::{Accept, Gate, GateStop, ListenerGate};
use outer_io::{Got, Link, LinkTimes, Source};
use std::io::{ErrorKind, Read, Write};
use std::net::{Shutdown, SocketAddr, TcpListener, TcpStream};
use std::test::Fail;
use std::thread;
use std::time::Duration;

/// A request, another one, and the first part of one.
pub(crate) const ASK: &[u8] = b"GET /?face=text HTTP/1.1\r\nHost: a\r\n\r\n";

const POST: &[u8] = b"POST / HTTP/1.1\r\nHost: a\r\nContent-Length: 15\r\n\r\npath=.&act=next";

const PART: &[u8] = b"GET / HTTP/1.1\r\nHos";

/// How long a client may take for its first request.
pub(crate) fn first() -> Duration {
    Duration::from_millis(400)
}

pub(crate) fn times() -> LinkTimes {
    LinkTimes {
        idle: Duration::from_millis(200),
        request: Duration::from_millis(200),
        reply: Duration::from_millis(200),
    }
}

/// The next link gives these bytes, and is then shut.
pub(crate) fn gives<G: Gate>(gate: &mut G, bytes: &[u8]) -> Result<(), Fail> {
    match gate.accept() {
        Accept::Link(mut link) => {
            let told = gives_all(&mut link, bytes);
            link.shut();
            gate.finish(link);
            told
        }
        Accept::Closed => Err(Fail::from("the gate is closed")),
        Accept::Failed => Err(Fail::from("the gate failed")),
    }
}

// A link gives these bytes next, one by one.
fn gives_all<L: Link>(link: &mut L, bytes: &[u8]) -> Result<(), Fail> {
    for byte in bytes {
        let mut room = [0u8; 1];
        if link.read(&mut room) != Got::Took(1) || room[0] != *byte {
            return Err(Fail::from("the link gave other bytes"));
        }
    }
    Ok(())
}

// A gate over a socket, and its address.
fn gate(rt: &HostRuntime) -> Result<(ListenerGate<'_, HostRuntime>, SocketAddr), Fail> {
    let listener = TcpListener::bind(rt, "127.0.0.1:0")?;
    let addr = listener.local_addr()?;
    match ListenerGate::new(rt, rt.alloc(), listener, rt, first(), times()) {
        Ok(gate) => Ok((gate, addr)),
        Err(GateStop::Failed) => Err(Fail::from("no gate")),
        Err(GateStop::Memory) => Err(Fail::from("no memory")),
    }
}

// A client that has sent these bytes.
fn client(rt: &HostRuntime, addr: SocketAddr, bytes: &[u8]) -> Result<TcpStream, Fail> {
    let mut client = TcpStream::connect(rt, addr)?;
    client.set_nodelay(true)?;
    client.set_read_timeout(Some(Duration::from_secs(5)))?;
    client.write_all(bytes)?;
    Ok(client)
}

// Requests in pieces of one byte are handed out whole.
fn in_pieces<G: Gate>(rt: &HostRuntime, gate: &mut G, addr: SocketAddr) -> Result<(), Fail> {
    for request in [ASK, POST] {
        let mut asks = client(rt, addr, b"")?;
        for byte in request {
            asks.write_all(&[*byte])?;
        }
        gives(gate, request)?;
    }
    Ok(())
}

// Bytes behind the first request are given, too.
fn behind_the_first<G: Gate>(rt: &HostRuntime, gate: &mut G, addr: SocketAddr) -> Result<(), Fail> {
    let mut all = Vec::new(rt.alloc());
    for part in [ASK, POST, ASK, PART] {
        all.extend_from_slice(part)?;
    }
    let asks = client(rt, addr, all.as_slice())?;
    asks.shutdown(Shutdown::Write)?;
    gives(gate, all.as_slice())
}

// A client sends these bytes, which the gate hands out.
fn asks<G: Gate>(
    rt: &HostRuntime,
    gate: &mut G,
    addr: SocketAddr,
    bytes: &[u8],
) -> Result<(), Fail> {
    let _asks = client(rt, addr, bytes)?;
    gives(gate, bytes)
}

// A client sends these bytes, and goes.
fn goes(rt: &HostRuntime, addr: SocketAddr, bytes: &[u8]) -> Result<(), Fail> {
    let goes = client(rt, addr, bytes)?;
    goes.shutdown(Shutdown::Write)?;
    Ok(())
}

// Each client sends the rest of its request, which the gate hands out.
fn both_go_on<G: Gate>(
    gate: &mut G,
    silent: &mut TcpStream,
    slow: &mut TcpStream,
) -> Result<(), Fail> {
    slow.write_all(b"t: a\r\n\r\n")?;
    gives(gate, b"GET / HTTP/1.1\r\nHost: a\r\n\r\n")?;
    silent.write_all(POST)?;
    gives(gate, POST)
}

// Clients that send no whole request hold up nobody. One that goes is no link, whatever it has sent.
fn beside_others<G: Gate>(rt: &HostRuntime, gate: &mut G, addr: SocketAddr) -> Result<(), Fail> {
    let mut silent = client(rt, addr, b"")?;
    let mut slow = client(rt, addr, PART)?;
    for sent in [b"".as_slice(), b"\r\n", PART] {
        goes(rt, addr, sent)?;
    }
    asks(rt, gate, addr, ASK)?;
    both_go_on(gate, &mut silent, &mut slow)
}

// A client that goes on is handed out before one that came behind it.
fn before_a_newcomer<G: Gate>(
    rt: &HostRuntime,
    gate: &mut G,
    addr: SocketAddr,
) -> Result<(), Fail> {
    let mut slow = client(rt, addr, PART)?;
    asks(rt, gate, addr, ASK)?;
    slow.write_all(b"t: a\r\n\r\n")?;
    let _newcomer = client(rt, addr, ASK)?;
    gives(gate, b"GET / HTTP/1.1\r\nHost: a\r\n\r\n")?;
    gives(gate, ASK)
}

// What is refused is handed out.
fn of_no_request<G: Gate>(rt: &HostRuntime, gate: &mut G, addr: SocketAddr) -> Result<(), Fail> {
    asks(rt, gate, addr, b"hello\r\n\r\n")?;
    asks(rt, gate, addr, &[b'a'; 8192])
}

// Whether a link was ended.
fn is_ended(client: &mut TcpStream) -> Result<bool, Fail> {
    Ok(client.read(&mut [0u8; 1])? == 0)
}

// Two requests of other clients, while one goes on too late: whether its link was ended.
fn is_over_time<G: Gate>(
    rt: &HostRuntime,
    gate: &mut G,
    addr: SocketAddr,
    slow: &mut TcpStream,
) -> Result<bool, Fail> {
    asks(rt, gate, addr, ASK)?;
    thread::sleep(rt, first());
    slow.write_all(b"t")?;
    asks(rt, gate, addr, ASK)?;
    is_ended(slow)
}

// A client whose time is over is closed, and one that sends nothing so far is not.
fn too_late<G: Gate>(rt: &HostRuntime, gate: &mut G, addr: SocketAddr) -> Result<(), Fail> {
    let mut silent = client(rt, addr, b"")?;
    let mut slow = client(rt, addr, PART)?;
    if !is_over_time(rt, gate, addr, &mut slow)? {
        return Err(Fail::from("the link wasn't ended"));
    }
    silent.write_all(POST)?;
    gives(gate, POST)
}

// So many clients that send nothing, and then one that asks.
fn crowd<G: Gate>(
    rt: &HostRuntime,
    gate: &mut G,
    addr: SocketAddr,
    silent: &mut Vec<TcpStream>,
) -> Result<(), Fail> {
    for _ in 0..100 {
        silent.push(TcpStream::connect(rt, addr)?)?;
    }
    asks(rt, gate, addr, ASK)
}

// Of many clients that send nothing those that came first are closed.
fn in_a_crowd<G: Gate>(rt: &HostRuntime, gate: &mut G, addr: SocketAddr) -> Result<(), Fail> {
    let mut first = client(rt, addr, b"")?;
    let mut silent = Vec::new(rt.alloc());
    for _ in 0..3 {
        crowd(rt, gate, addr, &mut silent)?;
    }
    if !is_ended(&mut first)? {
        return Err(Fail::from("the link wasn't ended"));
    }
    if let Some(last) = silent.last_mut() {
        last.write_all(POST)?;
    }
    gives(gate, POST)
}

// Whether a client whose sending is held up can send nothing for so long. Else its link is closed.
fn is_held_up(sends: &mut TcpStream, time: Duration) -> Result<bool, Fail> {
    sends.set_write_timeout(Some(time))?;
    for _ in 0..100_000 {
        match sends.write(&[b'a'; 4096]) {
            Ok(_) => {}
            Err(error) => return Ok(is_over(error.kind())),
        }
    }
    Err(Fail::from("everything was taken"))
}

// Whether an error says that a time was over.
fn is_over(kind: ErrorKind) -> bool {
    matches!(kind, ErrorKind::WouldBlock | ErrorKind::TimedOut)
}

// A link is closed as soon as it is shut, though its gate doesn't have it back: a client that sends what nobody takes is held up no more.
fn shut<G: Gate>(rt: &HostRuntime, gate: &mut G, addr: SocketAddr) -> Result<(), Fail> {
    let mut sends = client(rt, addr, ASK)?;
    match gate.accept() {
        Accept::Link(mut link) => {
            let before = is_held_up(&mut sends, first())?;
            link.shut();
            let behind = is_held_up(&mut sends, Duration::from_secs(5))?;
            gate.finish(link);
            match (before, behind) {
                (true, false) => Ok(()),
                _ => Err(Fail::from("the link wasn't closed, or too early")),
            }
        }
        Accept::Closed | Accept::Failed => Err(Fail::from("no link")),
    }
}

/// What is tried at a gate of its own.
#[derive(Clone, Copy)]
enum Trial {
    InPieces,
    BehindTheFirst,
    BesideOthers,
    BeforeANewcomer,
    OfNoRequest,
    TooLate,
    InACrowd,
    Shut,
}

fn tried<G: Gate>(
    rt: &HostRuntime,
    gate: &mut G,
    addr: SocketAddr,
    trial: Trial,
) -> Result<(), Fail> {
    match trial {
        Trial::InPieces => in_pieces(rt, gate, addr),
        Trial::BehindTheFirst => behind_the_first(rt, gate, addr),
        Trial::BesideOthers => beside_others(rt, gate, addr),
        Trial::BeforeANewcomer => before_a_newcomer(rt, gate, addr),
        Trial::OfNoRequest => of_no_request(rt, gate, addr),
        Trial::TooLate => too_late(rt, gate, addr),
        Trial::InACrowd => in_a_crowd(rt, gate, addr),
        Trial::Shut => shut(rt, gate, addr),
    }
}

#[test]
fn links_of_a_listener(rt: HostRuntime) -> Result<(), Fail> {
    for trial in [
        Trial::InPieces,
        Trial::BehindTheFirst,
        Trial::BesideOthers,
        Trial::BeforeANewcomer,
        Trial::OfNoRequest,
        Trial::TooLate,
        Trial::InACrowd,
        Trial::Shut,
    ] {
        let (mut gate, addr) = gate(&rt)?;
        tried(&rt, &mut gate, addr, trial)?;
    }
    Ok(())
}
