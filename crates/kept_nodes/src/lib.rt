//! What an event leaves as it was: the places of the store whose values it changed, and the nodes that are kept, node by node: by one walk
//! over the tree before and the tree after, or, where no place that was there has another value, along the path alone on which they differ.
#![tactic(auto)]

mod alone;
mod along;
mod changed;
mod laws;
mod marks;
mod numbers;
mod parts;
mod walk;

pub use along::kept_along;
pub use changed::{Changed, changed_places};
pub use laws::{kept_nodes_look_alike, marks_count};
pub use marks::Marks;
pub use parts::{Parts, first_part, left_part, parts_of, second_part};
pub use walk::kept;
