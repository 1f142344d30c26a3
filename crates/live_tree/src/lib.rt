//! The present tree with its table: a row for each node, of what is observed of it, which is made where it is asked for and kept. An input
//! leads to the next tree beside the present one, so nothing is undone where what it leads to is given up.
#![tactic(auto)]

mod counting;
mod tree;

pub use tree::LiveTree;
