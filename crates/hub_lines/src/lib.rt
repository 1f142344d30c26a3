//! Lines of scripts for several worlds (docs/FORMATS.md, "Hub lines"): reading that is exact at the first bad byte, and texts of each world, put
//! where its own lines stand.
#![tactic(auto)]

mod crossing;
mod hub_line;
mod order;
mod parse;
mod reading;

pub use crossing::lines_cross;
pub use hub_line::HubLine;
pub use order::in_order;
pub use parse::parse_hub_line;
