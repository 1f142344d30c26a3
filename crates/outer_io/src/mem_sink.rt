ghost use Rattle.std.specs.Prelude.{◌≡◌, ◌<◌, ◌≤◌, [], IsTrue, Some, length};
ghost use Rattle.outer_io.specs.Causes.{Rose, next_count};
ghost use Rattle.outer_io.specs.FailingCalls.{fails_next, IsCounted};
ghost use Rattle.outer_io.specs.Links.{nothing_beside};
ghost use Rattle.outer_io.specs.Sink.{Took, TookAtMost, faults_after_write};

use crate::failing_calls::FailingCalls;
use crate::sink::{Put, Sink};
use std::alloc::Global;
use task_model::Row;

/// A sink in memory that takes pieces, with writes that fail at chosen calls. A growth that is
/// refused is a failure, too.
#[derive(Drop)]
pub struct MemSink {
    bytes: Row<u8>,
    piece: usize,
    plan: FailingCalls,
    ghost takes_some: { 0 < piece },
}

impl MemSink {
    /// A write takes at most `piece` bytes. `failing` lists the calls that fail, counted from 1.
    pub fn new(alloc: Global, piece: usize, failing: Row<u64>) -> MemSink
        requires { 0 < piece }
        ensures taken { ⟦<MemSink as Sink>⟧.taken result ≡ Some [] }
        ensures piece { result.piece ≡ piece }
        ensures plan { result.plan ≡ record { failing = failing; calls = 0; faults = 0 } }
    {
        MemSink {
            bytes: Row::new(alloc),
            piece,
            plan: FailingCalls::new(failing),
        }
    }

    /// The bytes that were taken.
    pub fn taken(&self) -> &[u8]
        ensures { ⟦<MemSink as Sink>⟧.taken self.now ≡ Some result.now }
    {
        self.bytes.as_slice()
    }

    /// A write that fails, listed or not.
    pub(crate) fn refuse(&mut self) -> Put
        ensures failed { result ≡ Put.Failed }
        ensures stays { (self.new.bytes ≡ self.old.bytes) × (self.new.piece ≡ self.old.piece) }
        ensures count { self.old.plan.faults ≤ self.new.plan.faults }
        ensures exact { self.new.plan.faults ≡ next_count self.old.plan.faults }
        ensures counted { IsCounted self.old.plan self.new.plan }
    {
        if !self.plan.next_fails() {
            self.plan.add_fault();
        }
        Put::Failed
    }
}

impl Sink for MemSink {
    ghost taken = { λ s. Some s.bytes.list };

    ghost faults = { λ s. s.plan.faults };

    ghost beside = { λ _. nothing_beside };

    fn write(&mut self, piece: &[u8]) -> Put
        requires { 0 < length piece.now }
        ensures bytes { Took (Some self.old.bytes.list) (Some self.new.bytes.list) piece.now result }
        ensures count { self.old.plan.faults ≤ self.new.plan.faults }
        ensures failed { result ≡ Put.Failed → Rose self.old.plan.faults self.new.plan.faults }
        ensures exact { self.new.plan.faults ≡ faults_after_write self.old.plan.faults result }
        ensures at_most { TookAtMost self.old.piece result }
        ensures listed { IsTrue (fails_next self.old.plan) → result ≡ Put.Failed }
        ensures counted { IsCounted self.old.plan self.new.plan }
    {
        if self.plan.next_fails() {
            return Put::Failed;
        }
        let count = self.piece.min(piece.len());
        match self.bytes.extend(&piece[..count]) {
            Ok(()) => Put::Took(count),
            Err(_) => {
                self.plan.add_fault();
                Put::Failed
            }
        }
    }
}
