//! Trees: the value that one has, whether two are the same, the places that one speaks of, one with another node at an address, and the
//! trail of a walk through one.
//! No tree is changed: what is made anew shares all that it can.
#![tactic(auto)]

mod down;
mod equality;
mod feet;
mod replacing;
mod trail;
mod values;

pub use down::Down;
pub use equality::same;
pub use feet::foot;
pub use replacing::{node_at, replace};
pub use trail::Trail;
pub use values::{has_value, value};
