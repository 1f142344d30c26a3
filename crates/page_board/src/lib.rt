//! A board: one writer shows moments of a history, and readers look at the newest one with no lock and no wait.
//! Each moment stands for a list of items, which contracts alone see. The published list only grows.
#![tactic(auto)]

mod entered;
mod face;
mod front;
mod law;
mod making;
mod moment;
mod no_entry;
mod places;
mod published;
mod reader;
mod roll;
mod told;
mod writer;

pub use front::Front;
pub use making::board;
pub use moment::Moment;
pub use no_entry::NoEntry;
pub use reader::BoardReader;
pub use told::Told;
pub use writer::BoardWriter;
