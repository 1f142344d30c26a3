//! Events of a world that a board shows: prepared, published, and then taken.
#![tactic(auto)]

mod event;

pub use event::{draw, happen};
