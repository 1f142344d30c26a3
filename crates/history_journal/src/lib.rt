//! A history that outlives a stop: each entry is on the disk before it counts. (docs/RULES.md, "Journals".)
#![tactic(auto)]

mod appending;
mod journal;
mod keeping;
mod laws;
mod making;
mod replaying;
mod restarting;
mod staging;
mod stops;

pub use appending::append_all;
pub use journal::Journal;
pub use keeping::{Kept, keep};
pub use laws::one_end;
pub use making::create;
pub use restarting::restart;
pub use staging::stage;
pub use stops::{KeepStop, MakeStop, RestartStop};
