//! Ports, where gates come from: in memory, where one of them has a gate, and those of this machine. (docs/RULES.md, "Gates".)
#![tactic(auto)]

mod listening;
mod mem_ports;
mod new_gate;
mod ports;
mod system_ports;

pub use listening::Listening;
pub use mem_ports::MemPorts;
pub use ports::Ports;
pub use system_ports::SystemPorts;
