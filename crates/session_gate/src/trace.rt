ghost use Rattle.std.specs.Prelude.{◌≡◌, ◌++◌, ◌∷◌, ◌<◌, ◌≤◌, [], IfOk, length, vec_capacity};

use crate::note::Note;
use std::alloc::Global;
use task_model::OutOfMemory;

/// How many requests a connection answers at most.
pub(crate) const REQUEST_LIMIT: usize = 100;

/// The notes of one connection, with room for all that it can have (docs/RULES.md, "Connections").
#[derive(Drop)]
pub struct Trace {
    pub(crate) notes: Vec<Note>,
    ghost room: { 100 ≤ vec_capacity notes },
}

impl Trace {
    /// A trace without notes. It fails only where memory runs out.
    pub fn new(alloc: Global) -> Result<Trace, OutOfMemory>
        ensures { IfOk result (λ trace. trace.notes.items ≡ []) }
    {
        let mut notes = Vec::new(alloc);
        notes.reserve(REQUEST_LIMIT)?;
        Ok(Trace { notes })
    }

    /// The notes, in the order of their requests.
    pub fn notes(&self) -> &[Note]
        ensures { result.now ≡ self.now.notes.items }
    {
        self.notes.as_slice()
    }

    /// Drops the notes, so that it is ready for another connection. It takes no memory.
    pub fn clear(&mut self)
        ensures { self.new.notes.items ≡ [] }
    {
        self.notes.clear();
    }

    /// Adds a note. It takes no memory.
    pub(crate) fn add(&mut self, note: Note)
        requires { length self.old.notes.items < 100 }
        ensures { self.new.notes.items ≡ self.old.notes.items ++ note ∷ [] }
    {
        self.notes.push_reserved(note);
    }
}
