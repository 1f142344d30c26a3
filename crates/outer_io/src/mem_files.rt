ghost use Rattle.std.specs.Prelude.{◌≡◌, ◌≤◌, ◌↔◌, ℕ, List, IsTrue, Some};
ghost use Rattle.outer_io.specs.Causes.{Rose};
ghost use Rattle.outer_io.specs.FailingCalls.{fails_next, IsCounted};
ghost use Rattle.outer_io.specs.Files.{AnswersFile, HasAtMost, faults_after_request};
ghost use Rattle.outer_io.specs.PlainFiles.{held};

use crate::failing_calls::FailingCalls;
use crate::files::{FileAnswer, Files};
use crate::plain_files::PlainFiles;
use std::alloc::Global;
use task_model::{Row, TaskText};

/// Files in memory, with requests that fail at chosen calls. The first of two equal names counts.
#[derive(Drop)]
pub struct MemFiles {
    plain: PlainFiles,
    plan: FailingCalls,
}

impl MemFiles {
    /// Each name has the contents at its own place. `failing` lists the calls that fail, counted from 1.
    pub fn new(names: Row<TaskText>, contents: Row<Row<u8>>, failing: Row<u64>) -> MemFiles
        ensures holds { (name : List ℕ) → ⟦<MemFiles as Files>⟧.holds result name ≡ Some (held names.list contents.list name) }
        ensures plan { result.plan ≡ record { failing = failing; calls = 0; faults = 0 } }
    {
        MemFiles {
            plain: PlainFiles::new(names, contents),
            plan: FailingCalls::new(failing),
        }
    }
}

impl Files for MemFiles {
    ghost use Rattle.outer_io.specs.PlainFiles.{file_of};

    ghost holds = { λ f name. Some (file_of f.plain name) };

    ghost faults = { λ f. f.plan.faults };

    fn read_whole(&mut self, alloc: Global, name: &TaskText, limit: u64) -> FileAnswer
        ensures file { AnswersFile (Some (file_of self.old.plain name.now)) limit result }
        ensures within { HasAtMost limit result }
        ensures keeps { self.new.plain ≡ self.old.plain }
        ensures count { self.old.plan.faults ≤ self.new.plan.faults }
        ensures failed { result ≡ FileAnswer.Failed → Rose self.old.plan.faults self.new.plan.faults }
        ensures exact { self.new.plan.faults ≡ faults_after_request self.old.plan.faults result }
        ensures listed { (result ≡ FileAnswer.Failed) ↔ IsTrue (fails_next self.old.plan) }
        ensures counted { IsCounted self.old.plan self.new.plan }
    {
        if self.plan.next_fails() {
            return FileAnswer::Failed;
        }
        self.plain.read_whole(alloc, name, limit)
    }
}
