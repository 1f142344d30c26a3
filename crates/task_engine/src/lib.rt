//! The rules of trees, in exact units and heights: failing, strides, settling and the tests of offers, over an engine and a store with
//! layers.
#![tactic(auto)]

mod beside;
mod quiet;
mod settled;
mod signs;
mod states;
mod strode;
mod tree_rules;
mod unchanged;

pub use settled::Settled;
pub use signs::{test_next, test_side};
pub use states::{apply, failing, normalise, normalise_body, settle, settle_beside, stride};
