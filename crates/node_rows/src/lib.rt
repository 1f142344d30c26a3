//! What is observed of the nodes of a tree, in a row for each node: the signs of its tests, how many nodes its part has, and what is
//! drawn of it. Rows answer what the tree offers with no test.
#![tactic(auto)]

mod fresh;
mod next;
mod offering;
mod rows;
mod signs;
mod sizes;

pub use fresh::fresh_rows;
pub use next::NextRows;
pub use rows::NodeRows;
pub use signs::Signs;
