use crate::refusal_text::RefusalText;
use task_model::{Face, Input};

/// What a request asks for (docs/FORMATS.md, "HTTP").
#[derive(Drop)]
pub enum Asked {
    /// A page in a face, of at least this version where one is named; whether the reply has its head alone.
    Page {
        face: Face,
        at_least: Option<u64>,
        head_only: bool,
    },
    /// That this input be taken.
    Act(Input),
    /// Nothing: the request is refused with a status and a text without an LF; whether the connection ends with it, and whether the
    /// reply has its head alone.
    Refused {
        status: u16,
        text: RefusalText,
        ends: bool,
        head_only: bool,
    },
}
