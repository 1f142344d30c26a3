//! Workers that serve the links of one gate with the sessions of one world, until enough links were served or no other one
//! comes. Then the world is closed. (docs/RULES.md, "Serving".)
#![tactic(auto)]

mod crew;
mod gate_state;
mod gathering;
mod laws;
mod opened;
mod porch;
mod seated;
mod serving;
mod shares;
mod staffing;
mod watch;
mod work;

pub use gate_state::GateState;
pub use laws::answered_links_have_replies;
pub use opened::serve_opening;
pub use seated::Seated;
pub use serving::{ServeStop, Served, Serving, serve};
