//! A world that answers lines, one after the other, in each form: script lines or JSON (docs/FORMATS.md, "Answers" and "JSON").
#![tactic(auto)]

mod answer_texts;
mod answering;
mod line_form;
mod rhythm;

pub use answering::Answering;
pub use line_form::LineForm;
