//! A world: a program that was opened, the history of the inputs that it took, and the state that they lead to. An event has two parts,
//! so that what is prepared can be written down before it counts.
#![tactic(auto)]

mod answers;
mod drawing;
mod opening;
mod parts;
mod prepared;
mod running;
mod world;

pub use answers::{OpenStop, Reply, RunStop, Taken};
pub use world::World;
