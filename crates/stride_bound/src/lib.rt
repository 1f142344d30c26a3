//! A printed bound on work: units and a height that no opening, input or test of a program goes beyond, read off its text.
#![tactic(auto)]

mod bounding;
mod bounds;
mod expressions;
mod figures;
mod laws;
mod links;
mod orders;
mod pieces;
mod reaching;
mod returning;
mod settling;
mod table;
mod tasks;

pub use bounding::bound;
pub use bounds::Bound;
pub use laws::one_bound;
