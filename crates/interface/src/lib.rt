//! The interface of a tree: a widget for each node, over the store's values and the tree's offers.
#![tactic(auto)]

mod marks;
mod shapes;
mod shown;
mod walk;

pub use shapes::{edit_shape, share_shape};
pub use walk::widgets;
