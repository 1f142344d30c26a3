ghost use Rattle.std.specs.Prelude.{◌≡◌, ℕ, List, Some, option_map, option_copied};
ghost use Rattle.outer_io.specs.Files.{AnswersFile, HasAtMost};
ghost use Rattle.outer_io.specs.PlainFiles.{held};

use crate::files::{FileAnswer, Files};
use std::alloc::Global;
use task_model::{Row, TaskText};

/// Files in memory, whose requests never fail. The first of two equal names counts.
#[derive(Drop)]
pub struct PlainFiles {
    names: Row<TaskText>,
    contents: Row<Row<u8>>,
}

impl PlainFiles {
    /// Each name has the contents at its own place. A name that has none is no file.
    pub fn new(names: Row<TaskText>, contents: Row<Row<u8>>) -> PlainFiles
        ensures { (name : List ℕ) → ⟦<PlainFiles as Files>⟧.holds result name ≡ Some (held names.list contents.list name) }
    {
        PlainFiles { names, contents }
    }
}

impl Files for PlainFiles {
    ghost use Rattle.outer_io.specs.PlainFiles.{file_of};

    ghost holds = { λ f name. Some (file_of f name) };

    ghost faults = { λ _. 0 };

    fn read_whole(&mut self, alloc: Global, name: &TaskText, limit: u64) -> FileAnswer
        ensures file { AnswersFile (Some (file_of self.old name.now)) limit result }
        ensures within { HasAtMost limit result }
        ensures keeps { self.new ≡ self.old }
        ensures told { result ≡ FileAnswer.Failed → ⊥ }
    {
        match find(self.names.as_slice(), self.contents.as_slice(), name) {
            None => FileAnswer::Absent,
            Some(bytes) => whole(alloc, bytes, limit),
        }
    }
}

// What the first of these names that is `name` holds.
fn find<'a>(names: &[TaskText], contents: &'a [Row<u8>], name: &TaskText) -> Option<&'a Row<u8>>
    ensures { option_map (λ (row : _). row.list) (option_copied result) ≡ held names.now contents.now name.now }
{
    for (at, other) in names.iter().enumerate() {
        if at >= contents.len() {
            return None;
        }
        if other.is(name) {
            return Some(&contents[at]);
        }
    }
    None
}

// A file of these bytes, if they are few enough.
fn whole(alloc: Global, bytes: &Row<u8>, limit: u64) -> FileAnswer
    ensures file { AnswersFile (Some (Some bytes.now.list)) limit result }
    ensures within { HasAtMost limit result }
    ensures told { result ≡ FileAnswer.Failed → ⊥ }
{
    if bytes.as_slice().len() as u64 > limit {
        return FileAnswer::TooLong;
    }
    let mut copy = Row::new(alloc);
    match copy.extend(bytes.as_slice()) {
        Ok(()) => FileAnswer::Bytes(copy),
        Err(_) => FileAnswer::Memory,
    }
}
