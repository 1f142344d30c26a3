ghost use Rattle.std.specs.Prelude.{◌≡◌, ◌≤◌, ℕ, List, Option};
ghost use Rattle.outer_io.specs.Causes.{Rose};
ghost use Rattle.outer_io.specs.Files.{AnswersFile, HasAtMost, KeepsFile, faults_after_request};

use std::alloc::Global;
use task_model::{Row, TaskText};

/// The answer to a request for a whole file: its bytes, that there is no such file, that it has
/// more bytes than were asked for, a fault, or want of memory.
#[derive(Drop)]
pub enum FileAnswer {
    Bytes(Row<u8>),
    Absent,
    TooLong,
    Failed,
    Memory,
}

/// Files by their names.
pub trait Files {
    // What a name holds, where the object tells it: no file, or these bytes.
    ghost holds: { Self → List ℕ → Option (Option (List ℕ)) };

    // How many requests have failed.
    ghost faults: { Self → ℕ };

    /// Reads a whole file of at most `limit` bytes.
    fn read_whole(&mut self, alloc: Global, name: &TaskText, limit: u64) -> FileAnswer
        ensures file { AnswersFile (holds self.old name.now) limit result }
        ensures within { HasAtMost limit result }
        ensures keeps { (other : List ℕ) → KeepsFile (holds self.old other) (holds self.new other) }
        ensures count { faults self.old ≤ faults self.new }
        ensures failed { result ≡ FileAnswer.Failed → Rose (faults self.old) (faults self.new) }
        ensures exact { faults self.new ≡ faults_after_request (faults self.old) result };
}
