ghost use Rattle.std.specs.Prelude.{◌≡◌, ◌≤◌, ℕ, Option};
ghost use Rattle.outer_io.specs.Causes.{Rose};
ghost use Rattle.outer_gates.specs.Gates.{GateTold};
ghost use Rattle.outer_ports.specs.Opening.{GivesGate, KeepsPort, faults_after_listening};

use crate::listening::Listening;
use outer_gates::Gate;
use std::alloc::Global;

/// Ports by their numbers. At some of them a gate can be had.
pub trait Ports {
    type Gate: Gate;

    // What the gate at a port tells when it is made. None: no gate can be had there.
    ghost opens: { Self → ℕ → Option GateTold };

    // How many calls have failed.
    ghost faults: { Self → ℕ };

    /// Makes a gate that listens at a port. It was not called yet. After `Failed` and `Memory` the ports are as before but for their count.
    fn listen(&mut self, alloc: Global, port: u16) -> Listening<Self::Gate>
        ensures gate { GivesGate Self.Gate.told (opens self.old port) result }
        ensures keeps { (other : ℕ) → KeepsPort (opens self.old other) (opens self.new other) result }
        ensures count { faults self.old ≤ faults self.new }
        ensures failed { result ≡ Listening.Failed → Rose (faults self.old) (faults self.new) }
        ensures exact { faults self.new ≡ faults_after_listening (faults self.old) result };
}
