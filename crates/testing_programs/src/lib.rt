//! What tests share: texts with pieces that stand in them many times, programs of their texts, trees as text, and the walk through tables.
#![tactic(auto)]

mod repeats;
mod sources;
mod tables;
mod trees;

pub use repeats::repeated;
pub use sources::accepted;
pub use tables::{BlockTest, is_right, table_differences};
pub use trees::tree_text;
