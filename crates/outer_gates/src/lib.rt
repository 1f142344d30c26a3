//! Gates, where connections come from and where they are given back: one in memory that tells its links, and one over
//! a socket that listens, which tells nothing. (docs/FORMATS.md, "Times".)
#![tactic(auto)]

mod accept;
mod arrival;
mod client;
mod filling;
mod first_request;
mod fresh_links;
mod gate;
mod listener_gate;
mod mem_gate;
mod received_link;
mod standing;
mod waiting_clients;

pub use accept::Accept;
pub use gate::Gate;
pub use listener_gate::{GateStop, ListenerGate};
pub use mem_gate::MemGate;
pub use received_link::ReceivedLink;
