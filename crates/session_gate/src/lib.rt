//! One connection: its requests, read from a link, are answered in order at a desk, with a note for each. What a desk is
//! and what a link is are traits, so this holds of every world and every way that bytes come.
//! (docs/RULES.md, "Connections"; docs/FORMATS.md, "HTTP".)
#![tactic(auto)]

mod answer;
mod answering;
mod connection;
mod ending;
mod filled;
mod laws;
mod next;
mod note;
mod note_kind;
mod plan;
mod reading;
mod ready;
mod ready_bytes;
mod sending;
mod trace;

pub use connection::serve_connection;
pub use ending::Ending;
pub use laws::{answered_requests_come_first, connections_are_complete};
pub use note::Note;
pub use note_kind::NoteKind;
pub use trace::Trace;
