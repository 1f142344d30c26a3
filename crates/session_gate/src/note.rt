use crate::note_kind::NoteKind;

/// How a request was answered, and at which version: the page's, the one that the input led to, the one that
/// there is in place of a later one, or else the one that was seen (docs/RULES.md, "Connections").
#[derive(Clone, Copy, Debug, PartialEq, Eq)]
pub struct Note {
    pub kind: NoteKind,
    pub version: u64,
}
