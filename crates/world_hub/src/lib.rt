//! Several worlds in one process: each answers its own lines, from a thread of its own, and what they answer stands in the order of the
//! lines (docs/RULES.md, "Several worlds").
#![tactic(auto)]

mod gather;
mod hub;
mod laws;
mod opening;
mod own;
mod run;
mod stop;

pub use hub::{Hub, HubDone};
pub use laws::{own_histories, own_lines_decide};
pub use stop::HubStop;
