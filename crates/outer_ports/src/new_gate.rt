ghost use Rattle.outer_gates.specs.MemGates.{gate_in_memory};
ghost use Rattle.outer_ports.specs.Opening.{IsNewGate};

use outer_gates::MemGate;

/// A gate in memory that was not called yet.
#[derive(Drop)]
pub(crate) struct NewGate {
    pub(crate) gate: MemGate,
    ghost is_new: { IsNewGate (gate_in_memory gate) },
}
