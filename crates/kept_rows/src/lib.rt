//! The rows of the tree that an event leads to: those of kept nodes are taken over from the tree before, and any other node is tested at
//! most twice and drawn once.
#![tactic(auto)]

mod drawn;
mod former;
mod shapes;
mod signs;
mod walk;

pub use walk::next_rows;
