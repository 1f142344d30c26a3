//! The run of a script on a journal: each entry is on the disk before its line is told (docs/RULES.md, "Journals").
#![tactic(auto)]

mod answer_texts;
mod keeper;
mod running;

pub use running::{JournalRun, run_on_journal};
