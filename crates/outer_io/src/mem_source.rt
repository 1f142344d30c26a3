ghost use Rattle.std.specs.Prelude.{◌≡◌, ◌<◌, ◌≤◌, ◌↔◌, IsTrue, Some, length};
ghost use Rattle.outer_io.specs.Causes.{Rose};
ghost use Rattle.outer_io.specs.FailingCalls.{fails_next, IsCounted};
ghost use Rattle.outer_io.specs.Links.{nothing_beside};
ghost use Rattle.outer_io.specs.PlainSource.{left_of};
ghost use Rattle.outer_io.specs.Source.{Gave, GaveAtMost, faults_after_read};

use crate::failing_calls::FailingCalls;
use crate::plain_source::PlainSource;
use crate::source::{Got, Source};
use task_model::Row;

/// Bytes in memory that come in pieces, with reads that fail at chosen calls.
#[derive(Drop)]
pub struct MemSource {
    plain: PlainSource,
    plan: FailingCalls,
}

impl MemSource {
    /// A read gives at most `piece` bytes. `failing` lists the calls that fail, counted from 1.
    pub fn new(bytes: Row<u8>, piece: usize, failing: Row<u64>) -> MemSource
        requires { 0 < piece }
        ensures left { ⟦<MemSource as Source>⟧.left result ≡ Some bytes.list }
        ensures piece { result.plain.piece ≡ piece }
        ensures plan { result.plan ≡ record { failing = failing; calls = 0; faults = 0 } }
    {
        MemSource {
            plain: PlainSource::new(bytes, piece),
            plan: FailingCalls::new(failing),
        }
    }

    /// How many of its bytes were given.
    pub(crate) fn at(&self) -> usize
        ensures { result ≡ self.now.plain.at }
    {
        self.plain.at()
    }
}

impl Source for MemSource {
    ghost left = { λ s. Some (left_of s.plain) };

    ghost faults = { λ s. s.plan.faults };

    ghost beside = { λ _. nothing_beside };

    fn read(&mut self, room: &mut [u8]) -> Got
        requires { 0 < length room.old }
        ensures bytes { Gave (Some (left_of self.old.plain)) (Some (left_of self.new.plain)) room.new result }
        ensures count { self.old.plan.faults ≤ self.new.plan.faults }
        ensures failed { result ≡ Got.Failed → Rose self.old.plan.faults self.new.plan.faults }
        ensures exact { self.new.plan.faults ≡ faults_after_read self.old.plan.faults result }
        ensures at_most { GaveAtMost self.old.plain.piece result }
        ensures listed { (result ≡ Got.Failed) ↔ IsTrue (fails_next self.old.plan) }
        ensures counted { IsCounted self.old.plan self.new.plan }
        ensures kept { self.new.plain.bytes ≡ self.old.plain.bytes }
    {
        if self.plan.next_fails() {
            return Got::Failed;
        }
        self.plain.read(room)
    }
}
