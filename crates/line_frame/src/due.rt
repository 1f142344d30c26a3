ghost use Rattle.std.specs.Prelude.{◌≡◌, ◌≤◌, [], ◌++◌};
ghost use Rattle.outer_io.specs.Causes.{Rose};
ghost use Rattle.outer_io.specs.Sink.{Wrote, faults_after_text};
ghost use Rattle.line_frame.specs.RunFaults.{write_faults_after_run};
ghost use Rattle.line_frame.specs.Due.{JoinsDue, EndsDue};

use crate::Finish;
use outer_io::{Sink, Written, write_all, write_two};
use std::alloc::Global;
use task_model::Row;

// Answers of so many bytes are written before the next line is run.
const ENOUGH: usize = 65536;

// An answer of so many bytes is written by itself, behind those that are due, and is copied nowhere.
const LONG: usize = 8192;

/// The answers that are due: they are told, and were not yet written.
#[derive(Drop)]
pub(crate) struct Due {
    pub(crate) text: Row<u8>,
}

impl Due {
    pub(crate) fn new(alloc: Global) -> Due
        ensures { result.text.list ≡ [] }
    {
        Due {
            text: Row::new(alloc),
        }
    }

    /// Takes an answer behind those that are due. Where it is long, or they are many, or memory for it is refused, all are written.
    pub(crate) fn add<O: Sink>(&mut self, out: &mut O, answer: &[u8]) -> Written
        ensures bytes { JoinsDue (O.taken out.old) (O.taken out.new) self.old.text.list self.new.text.list answer.now result }
        ensures count { O.faults out.old ≤ O.faults out.new }
        ensures failed { result ≡ Written.Failed → Rose (O.faults out.old) (O.faults out.new) }
        ensures exact { O.faults out.new ≡ faults_after_text (O.faults out.old) result }
    {
        if answer.len() >= LONG {
            return self.write_with(out, answer);
        }
        match self.text.extend(answer) {
            Ok(()) if self.text.as_slice().len() < ENOUGH => Written::Whole,
            Ok(()) => self.write(out),
            Err(_) => self.write_with(out, answer),
        }
    }

    // Writes the answers that are due, and one more behind them. No write is tried again.
    fn write_with<O: Sink>(&mut self, out: &mut O, answer: &[u8]) -> Written
        ensures bytes { Wrote (O.taken out.old) (O.taken out.new) (self.old.text.list ++ answer.now) result }
        ensures none { self.new.text.list ≡ [] }
        ensures count { O.faults out.old ≤ O.faults out.new }
        ensures failed { result ≡ Written.Failed → Rose (O.faults out.old) (O.faults out.new) }
        ensures exact { O.faults out.new ≡ faults_after_text (O.faults out.old) result }
    {
        let written = write_two(out, self.text.as_slice(), answer);
        self.text.truncate(0);
        written
    }

    /// Writes the answers that are due. No write is tried again.
    pub(crate) fn write<O: Sink>(&mut self, out: &mut O) -> Written
        ensures bytes { Wrote (O.taken out.old) (O.taken out.new) self.old.text.list result }
        ensures none { self.new.text.list ≡ [] }
        ensures count { O.faults out.old ≤ O.faults out.new }
        ensures failed { result ≡ Written.Failed → Rose (O.faults out.old) (O.faults out.new) }
        ensures exact { O.faults out.new ≡ faults_after_text (O.faults out.old) result }
    {
        let written = write_all(out, self.text.as_slice());
        self.text.truncate(0);
        written
    }

    /// Writes the answers that are due before the run ends so. A write that fails ends it in place of that.
    pub(crate) fn end<O: Sink>(&mut self, out: &mut O, finish: Finish) -> Finish
        requires { finish ≡ Finish.WriteFault → ⊥ }
        ensures bytes { EndsDue (O.taken out.old) (O.taken out.new) self.old.text.list finish result }
        ensures count { O.faults out.old ≤ O.faults out.new }
        ensures failed { result ≡ Finish.WriteFault → Rose (O.faults out.old) (O.faults out.new) }
        ensures exact { O.faults out.new ≡ write_faults_after_run (O.faults out.old) result }
    {
        match self.write(out) {
            Written::Whole => finish,
            Written::Failed => Finish::WriteFault,
        }
    }
}
