ghost use Rattle.std.specs.Prelude.{◌≡◌, ◌≤◌, ◌↔◌, ◌==◌, ℕ, IfSome, None, if◌then◌else◌, option_map};
ghost use Rattle.outer_io.specs.Causes.{Rose};
ghost use Rattle.outer_gates.specs.MemGates.{gate_in_memory};
ghost use Rattle.outer_ports.specs.MemPorts.{told_at};
ghost use Rattle.outer_ports.specs.Opening.{IsNewGate, GivesGate, KeepsPort, faults_after_listening};

use crate::listening::Listening;
use crate::new_gate::NewGate;
use crate::ports::Ports;
use outer_gates::MemGate;
use std::alloc::Global;

/// Ports in memory: at one of them there is a gate, which is handed out once. Every other call fails.
#[derive(Drop)]
pub struct MemPorts {
    port: u16,
    gate: Option<NewGate>,
    faults: u64,
}

impl MemPorts {
    /// Ports with this gate at this one. Without a gate every call fails.
    pub fn new(port: u16, gate: Option<MemGate>) -> MemPorts
        requires new { IfSome gate (λ g. IsNewGate (gate_in_memory g)) }
        ensures opens { (other : ℕ) → ⟦<MemPorts as Ports>⟧.opens result other
            ≡ (if other == port then option_map gate_in_memory gate else None) }
        ensures faults { ⟦<MemPorts as Ports>⟧.faults result ≡ 0 }
    {
        MemPorts {
            port,
            gate: gate.map(
                |gate| -> NewGate
                    requires { IsNewGate (gate_in_memory gate) }
                    ensures { result.gate ≡ gate }
                { NewGate { gate } },
            ),
            faults: 0,
        }
    }
}

impl Ports for MemPorts {
    type Gate = MemGate;

    ghost opens = { told_at };

    ghost faults = { λ p. p.faults };

    fn listen(&mut self, _alloc: Global, port: u16) -> Listening<MemGate>
        ensures gate { GivesGate gate_in_memory (told_at self.old port) result }
        ensures keeps { (other : ℕ) → KeepsPort (told_at self.old other) (told_at self.new other) result }
        ensures count { self.old.faults ≤ self.new.faults }
        ensures failed { result ≡ Listening.Failed → Rose self.old.faults self.new.faults }
        ensures exact { self.new.faults ≡ faults_after_listening self.old.faults result }
        ensures listed { (result ≡ Listening.Failed) ↔ (told_at self.old port ≡ None) }
        ensures memory { result ≡ Listening.Memory → ⊥ }
        ensures once { (g : _) → result ≡ Listening.Gate g → (other : ℕ) → told_at self.new other ≡ None }
    {
        if port == self.port
            && let Some(new) = self.gate.take()
        {
            let NewGate { gate } = new;
            return Listening::Gate(gate);
        }
        self.faults = self.faults.saturating_add(1);
        Listening::Failed
    }
}
