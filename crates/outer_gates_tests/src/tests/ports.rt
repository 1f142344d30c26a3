use crate::tests::listening::{ASK, first, gives, times};
use crate::tests::memory::two_links;
use outer_gates::{Gate, ListenerGate, MemGate};
use outer_ports::{Listening, MemPorts, Ports, SystemPorts};
use std::alloc::Global;
use std::io::Write;
use std::net::{Net, TcpListener, TcpStream};
use std::test::Fail;
use std::time::Clock;
use task_model::{OutOfMemory, Row};

// What comes of a call for a gate, in a word. A gate is dropped.
fn answered<P: Ports>(ports: &mut P, alloc: Global, port: u16) -> &'static str {
    match ports.listen(alloc, port) {
        Listening::Gate(_) => "gate",
        Listening::Failed => "failed",
        Listening::Memory => "memory",
    }
}

// A gate at a port of this machine, whatever tells the time there.
fn listen_at<R: Net + Clock + Sync>(
    rt: &R,
    alloc: Global,
    port: u16,
) -> Listening<ListenerGate<'_, R>> {
    SystemPorts::new(rt, first(), times()).listen(alloc, port)
}

// A port of this machine at which nobody listens.
fn free_port(rt: &HostRuntime) -> Result<u16, Fail> {
    Ok(TcpListener::bind(rt, "127.0.0.1:0")?.local_addr()?.port())
}

// What comes of calls for gates at these ports, in words.
fn all_answered<P: Ports>(
    ports: &mut P,
    alloc: Global,
    asked: &[u16],
) -> Result<String, OutOfMemory> {
    let mut text = String::new(alloc);
    for port in asked {
        text.push_str(answered(ports, alloc, *port))?;
        text.push(' ')?;
    }
    Ok(text)
}

#[test]
fn ports_in_memory_have_one_gate(rt: HostRuntime) -> Result<(), Fail> {
    let alloc = rt.alloc();
    let gate = MemGate::new(alloc, two_links(alloc)?, Row::new(alloc))?;
    let mut ports = MemPorts::new(80, Some(gate));
    let told = all_answered(&mut ports, alloc, &[81, 80, 80])?;
    assert_eq!(rt; told.as_str(), "failed gate failed ");
    Ok(())
}

#[test]
fn ports_in_memory_may_have_none(rt: HostRuntime) {
    let mut ports = MemPorts::new(80, None);
    assert_eq!(rt; answered(&mut ports, rt.alloc(), 80), "failed");
}

// A client asks at this port, where the gate hands out its request.
fn asks_at<G: Gate>(rt: &HostRuntime, gate: &mut G, port: u16) -> Result<(), Fail> {
    let mut asks = TcpStream::connect(rt, ("127.0.0.1", port))?;
    asks.write_all(ASK)?;
    gives(gate, ASK)
}

#[test]
fn a_free_port_of_this_machine_has_a_gate(rt: HostRuntime) -> Result<(), Fail> {
    let port = free_port(&rt)?;
    match listen_at(&rt, rt.alloc(), port) {
        Listening::Gate(mut gate) => asks_at(&rt, &mut gate, port),
        _ => Err(Fail::from("no gate")),
    }
}

// Whether somebody listens at this port of another address of this machine.
fn is_heard_elsewhere(rt: &HostRuntime, port: u16) -> bool {
    TcpStream::connect(rt, ("127.0.0.2", port)).is_ok()
}

#[test]
fn a_gate_listens_at_one_address(rt: HostRuntime) -> Result<(), Fail> {
    let port = free_port(&rt)?;
    match listen_at(&rt, rt.alloc(), port) {
        Listening::Gate(mut gate) => {
            assert!(rt; !is_heard_elsewhere(&rt, port));
            asks_at(&rt, &mut gate, port)
        }
        _ => Err(Fail::from("no gate")),
    }
}

#[test]
fn a_port_that_is_taken_has_none(rt: HostRuntime) -> Result<(), Fail> {
    let taken = TcpListener::bind(&rt, "127.0.0.1:0")?;
    let port = taken.local_addr()?.port();
    let mut ports = SystemPorts::new(&rt, first(), times());
    assert_eq!(rt; answered(&mut ports, rt.alloc(), port), "failed");
    drop(taken);
    assert_eq!(rt; answered(&mut ports, rt.alloc(), port), "gate");
    Ok(())
}
