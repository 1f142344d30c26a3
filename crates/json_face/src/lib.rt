//! Lines, pages and replies as JSON (docs/FORMATS.md, "JSON"): lines and pages read, pages and replies written.
#![tactic(auto)]

mod acts;
mod data;
mod fields;
mod forms;
mod kinds;
mod laws;
mod line;
mod page;
mod parse;
mod parts;
mod read;
mod reply;
mod stop;
mod values;
mod whole;
mod widget;
mod write;

pub use laws::one_json_line;
pub use page::JsonPage;
pub use parse::parse_json_line;
pub use read::read_page;
pub use reply::{JsonReply, write_reply};
pub use stop::JsonStop;
pub use write::write_page;
