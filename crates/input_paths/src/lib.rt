//! The path of an input as text (docs/FORMATS.md, "Script lines"): a dot, and a letter for each turn. Reading that is exact at the first
//! bad byte, in front of what follows or to the end.
#![tactic(auto)]

mod paths;

pub use paths::{read_path, whole_path};
