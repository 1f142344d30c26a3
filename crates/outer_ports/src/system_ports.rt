ghost use Rattle.std.specs.Prelude.{◌≡◌, ◌∷◌, [], ℕ, Some, Err, IfErr, IfOk};
ghost use Rattle.std.specs.Net.Addr.{ipv4_octets};
ghost use Rattle.std.specs.Net.Socket.{v4_ip, v4_port};
ghost use Rattle.outer_gates.specs.Gates.{told_by_listener};
ghost use Rattle.outer_ports.specs.Opening.{listening_of};

use crate::listening::Listening;
use crate::ports::Ports;
use mio::net::TcpListener;
use outer_gates::{GateStop, ListenerGate};
use outer_io::LinkTimes;
use std::alloc::Global;
use std::net::{Ipv4Addr, Net, SocketAddr, SocketAddrV4};
use std::time::{Clock, Duration};
use std::{io, net};

/// The ports of 127.0.0.1 of this machine. A client of their gates has `first` for its first request, and the links have these times
/// behind it.
#[derive(Drop)]
pub struct SystemPorts<'r, R> {
    rt: &'r R,
    first: Duration,
    times: LinkTimes,
    faults: u64,
}

impl<'r, R: Net + Clock> SystemPorts<'r, R> {
    /// The ports, of which no call failed yet.
    pub fn new(rt: &'r R, first: Duration, times: LinkTimes) -> SystemPorts<'r, R>
        ensures faults { result.faults ≡ 0 }
        ensures times { (result.first ≡ first) × (result.times ≡ times) }
    {
        SystemPorts {
            rt,
            first,
            times,
            faults: 0,
        }
    }

    // The gate over what the system gave.
    fn gate_over(
        &self,
        alloc: Global,
        bound: io::Result<TcpListener>,
    ) -> Result<ListenerGate<'r, R>, GateStop>
        ensures refused { IfErr bound (λ _. result ≡ Err GateStop.Failed) }
        ensures faults { IfOk result (λ gate. gate.faults ≡ 0) }
        ensures times { IfOk result (λ gate. (gate.first ≡ self.now.first) × (gate.times ≡ self.now.times)) }
    {
        match bound {
            Ok(listener) => {
                let listener = net::TcpListener::from(listener);
                ListenerGate::new(self.rt, alloc, listener, self.rt, self.first, self.times)
            }
            Err(_) => Err(GateStop::Failed),
        }
    }
}

// This port of 127.0.0.1.
fn local(port: u16) -> SocketAddrV4
    ensures ip { ipv4_octets (v4_ip result) ≡ 127 ∷ 0 ∷ 0 ∷ 1 ∷ [] }
    ensures port { v4_port result ≡ port }
{
    SocketAddrV4::new(Ipv4Addr::LOCALHOST, port)
}

// What is answered where a gate was made, or wasn't.
fn answer<G>(made: Result<G, GateStop>) -> Listening<G>
    ensures { result ≡ listening_of made }
{
    match made {
        Ok(gate) => Listening::Gate(gate),
        Err(GateStop::Failed) => Listening::Failed,
        Err(GateStop::Memory) => Listening::Memory,
    }
}

impl<'r, R: Net + Clock + Sync> Ports for SystemPorts<'r, R> {
    type Gate = ListenerGate<'r, R>;

    ghost opens = { λ _ _. Some (told_by_listener 0) };

    ghost faults = { λ p. p.faults };

    fn listen(&mut self, alloc: Global, port: u16) -> Listening<ListenerGate<'r, R>> {
        let bound = TcpListener::bind(self.rt, SocketAddr::V4(local(port)));
        let listening = answer(self.gate_over(alloc, bound));
        if let Listening::Failed = &listening {
            self.faults = self.faults.saturating_add(1);
        }
        listening
    }
}
