//! The values of shared data, with the earlier lists of values that a trial goes back to. A trial costs what it writes: nothing is copied.
#![tactic(auto)]

mod reading;
mod store;

pub use store::{Changes, Overwritten, Store};
