//! The entries of a history, written as lines that `run` takes, and that those lines ask for them again. (docs/FORMATS.md, "Script lines".)
#![tactic(auto)]

mod entries_written;
mod laws;
mod writing;

pub use entries_written::EntriesWritten;
pub use laws::entries_ask_again;
pub use writing::write_entries;
