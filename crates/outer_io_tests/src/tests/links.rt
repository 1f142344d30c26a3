use outer_io::{
    Got, Link, LinkTimes, MemLink, MemSink, MemSource, Put, Sink, Source, StreamLink, Written,
    write_all,
};
use std::alloc::Global;
use std::io::{Read, Write};
use std::net::{TcpListener, TcpStream};
use std::test::Fail;
use std::time::{Clock, Duration};
use task_model::{OutOfMemory, Row};

fn row(alloc: Global, bytes: &[u8]) -> Result<Row<u8>, OutOfMemory> {
    let mut row = Row::new(alloc);
    row.extend(bytes)?;
    Ok(row)
}

fn call(alloc: Global, number: u64) -> Result<Row<u64>, OutOfMemory> {
    let mut row = Row::new(alloc);
    row.push(number)?;
    Ok(row)
}

// A link whose second read and third write fail.
fn memory_link(alloc: Global) -> Result<MemLink, OutOfMemory> {
    let source = MemSource::new(row(alloc, b"abcde")?, 3, call(alloc, 2)?);
    Ok(MemLink::new(source, MemSink::new(alloc, 2, call(alloc, 3)?)))
}

// What reads and writes of a link answer, which is shut before the last two, and the bytes that were read last.
fn calls<L: Link>(alloc: Global, link: &mut L) -> Result<String, OutOfMemory> {
    let mut room = *b"....";
    let (first, wrote) = (link.read(&mut room), link.write(b"xyz"));
    let (second, written) = (link.read(&mut room), write_all(link, b"zzzz"));
    link.shut();
    let (third, last) = (link.read(&mut room), link.read(&mut room));
    let mut text = format!(in alloc; "{first:?} {wrote:?} {second:?} {written:?} ")?;
    write!(text, "{third:?} {last:?} ")?;
    text.push_str(str::from_utf8(&room).unwrap_or("no text"))?;
    Ok(text)
}

// The same, what a write behind the end answers, and what was taken.
fn calls_and_taken(alloc: Global, link: &mut MemLink) -> Result<String, OutOfMemory> {
    let mut text = calls(alloc, link)?;
    let behind = link.write(b"more");
    write!(text, " {behind:?} ")?;
    text.push_str(str::from_utf8(link.taken()).unwrap_or("no text"))?;
    Ok(text)
}

fn memory_link_told(alloc: Global) -> Result<String, OutOfMemory> {
    let mut link = memory_link(alloc)?;
    calls_and_taken(alloc, &mut link)
}

#[test]
fn a_link_in_memory_does_as_its_sides_do(rt: HostRuntime) -> Result<(), Fail> {
    let told = memory_link_told(rt.alloc())?;
    assert_eq!(rt;
        told.as_str(),
        "Took(3) Took(2) Failed Failed Took(2) End dec. Failed xyzz"
    );
    Ok(())
}

fn times() -> LinkTimes {
    LinkTimes {
        idle: Duration::from_millis(50),
        request: Duration::from_millis(200),
        reply: Duration::from_millis(200),
    }
}

// Both ends of a connection on this machine: the client's, and the other one.
fn connected(rt: &HostRuntime) -> Result<(TcpStream, TcpStream), Fail> {
    let listener = TcpListener::bind(rt, "127.0.0.1:0")?;
    let client = TcpStream::connect(rt, listener.local_addr()?)?;
    let (stream, _) = listener.accept()?;
    Ok((client, stream))
}

// A client asks, and is replied to: what it asked and what it took.
fn asked_and_replied<L: Link>(client: &mut TcpStream, link: &mut L) -> Result<[u8; 8], Fail> {
    let mut room = [0u8; 8];
    client.write_all(b"ask")?;
    if link.read(&mut room) == Got::Took(3) && write_all(link, b"reply") == Written::Whole {
        client.read_exact(&mut room[3..])?;
    }
    Ok(room)
}

// A client that asks too late, what its link then answers, and a link that is shut.
fn too_late<L: Link>(client: &mut TcpStream, link: &mut L) -> Result<bool, Fail> {
    let mut room = [0u8; 4];
    let late = link.read(&mut room);
    client.write_all(b"late")?;
    link.shut();
    let shut = (link.read(&mut room), link.write(b"more"));
    Ok(late == Got::Failed && shut == (Got::End, Put::Failed))
}

// How many bytes of 40 are read of a client that sends one each 10 milliseconds.
fn read_of_dripping<L: Link>(
    rt: &HostRuntime,
    client: &mut TcpStream,
    link: &mut L,
) -> Result<u32, Fail> {
    for read in 0..40 {
        client.write_all(b".")?;
        if link.read(&mut [0u8; 1]) != Got::Took(1) {
            return Ok(read);
        }
        rt.sleep(Duration::from_millis(10));
    }
    Ok(40)
}

/// What is tried over a connection of its own: whether bytes are carried, a client that asks nothing has its link ended, and a request that
/// drips has one time for all its bytes.
#[derive(Clone, Copy, Debug)]
enum Trial {
    Carries,
    AsksTooLate,
    Drips,
}

fn tried<L: Link>(
    rt: &HostRuntime,
    client: &mut TcpStream,
    link: &mut L,
    trial: Trial,
) -> Result<bool, Fail> {
    match trial {
        Trial::Carries => Ok(asked_and_replied(client, link)? == *b"askreply"),
        Trial::AsksTooLate => too_late(client, link),
        Trial::Drips => {
            let read = read_of_dripping(rt, client, link)?;
            Ok(0 < read && read < 40)
        }
    }
}

#[test]
fn connections_of_this_machine(rt: HostRuntime) -> Result<(), Fail> {
    for trial in [Trial::Carries, Trial::AsksTooLate, Trial::Drips] {
        let (mut client, stream) = connected(&rt)?;
        let mut link = StreamLink::new(stream, &rt, times());
        assert!(rt; tried(&rt, &mut client, &mut link, trial)?, "{trial:?}");
    }
    Ok(())
}
