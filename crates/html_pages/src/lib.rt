//! The HTML face of an interface (docs/FORMATS.md, "HTML pages"): fragments, each drawn once for both faces, and pages that are framed of
//! them.
#![tactic(auto)]

mod chunk;
mod chunks;
mod escaping;
mod forms;
mod fragment;
mod fragments;
mod framing;
mod headed;
mod laws;
mod node;
mod page;
mod texts;

pub use escaping::escape;
pub use fragment::{Fragment, draw_at, draw_node};
pub use fragments::Fragments;
pub use framing::{frame, frame_behind_room};
pub use headed::Headed;
pub use laws::nothing_escapes;
pub use page::Page;
