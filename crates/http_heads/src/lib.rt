//! Heads of HTTP requests: where they end, and what they say (docs/FORMATS.md, "HTTP").
#![tactic(auto)]

mod blanks;
mod block;
mod check;
mod facts;
mod fields;
mod head;
mod head_scan;
mod numerals;
mod phase;

pub use blanks::without_blanks;
pub use block::read_block;
pub use check::Check;
pub use facts::HeadFacts;
pub use head_scan::HeadScan;
pub use numerals::number;
