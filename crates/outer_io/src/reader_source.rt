ghost use Rattle.std.specs.Prelude.{◌≡◌, ◌<◌, ◌≤◌, length};
ghost use Rattle.outer_io.specs.Causes.{Rose};
ghost use Rattle.outer_io.specs.Links.{nothing_beside};
ghost use Rattle.outer_io.specs.Source.{Gave, faults_after_read};
ghost use Rattle.outer_io.specs.SystemCalls.{IsReadOf};

use crate::read_calls::read_some;
use crate::source::{Got, Source};
use crate::system_stream::SystemStream;
use std::io::Read;

/// A source over any reader, as the standard input. It tells what the reader tells.
///
/// A read that a signal interrupts is tried again. The last of 2^64 - 1 in a row that
/// are interrupted is a fault.
#[derive(Drop)]
pub struct ReaderSource<R> {
    calls: SystemStream<R>,
    faults: u64,
}

impl<R: Read> ReaderSource<R> {
    /// A source over this reader, of which no read failed yet.
    pub fn new(inner: R) -> ReaderSource<R>
        ensures left { ⟦<ReaderSource<R> as Source>⟧.left result ≡ R.remaining inner }
        ensures faults { ⟦<ReaderSource<R> as Source>⟧.faults result ≡ 0 }
    {
        ReaderSource {
            calls: SystemStream::new(inner),
            faults: 0,
        }
    }
}

impl<R: Read> Source for ReaderSource<R> {
    ghost left = { λ s. R.remaining s.calls.stream };

    ghost faults = { λ s. s.faults };

    ghost beside = { λ _. nothing_beside };

    fn read(&mut self, room: &mut [u8]) -> Got
        requires { 0 < length room.old }
        ensures bytes { Gave (R.remaining self.old.calls.stream) (R.remaining self.new.calls.stream) room.new result }
        ensures count { self.old.faults ≤ self.new.faults }
        ensures failed { result ≡ Got.Failed → Rose self.old.faults self.new.faults }
        ensures exact { self.new.faults ≡ faults_after_read self.old.faults result }
        ensures told { IsReadOf self.new.calls.last self.new.calls.interruptions result }
    {
        let got = read_some(&mut self.calls, room);
        if got == Got::Failed {
            self.faults = self.faults.saturating_add(1);
        }
        got
    }
}
