//! One world under one lock, and sessions that act on it and look at it. Looking takes no lock.
#![tactic(auto)]

mod closed;
mod closing;
mod handing_out;
mod mark;
mod missing;
mod opening;
mod session;
mod shared;
mod shared_world;

pub use closed::Closed;
pub use closing::{close, close_holding};
pub use handing_out::open;
pub use mark::Mark;
pub use missing::Missing;
pub use opening::{Opening, make_opening};
pub use session::Session;
pub use shared::Shared;
