ghost use Rattle.std.specs.Prelude.{◌≡◌, ◌<◌, ◌≤◌, length};
ghost use Rattle.outer_io.specs.Causes.{Rose};
ghost use Rattle.outer_io.specs.Links.{nothing_beside};
ghost use Rattle.outer_io.specs.Sink.{Took, faults_after_write};
ghost use Rattle.outer_io.specs.SystemCalls.{IsWriteOf};

use crate::sink::{Put, Sink};
use crate::system_stream::SystemStream;
use crate::write_calls::write_some;
use std::io::Write;

/// A sink over a writer that keeps nothing back, as the standard output: what a write takes has
/// reached the system when the write returns. It tells what the writer tells.
///
/// A write that a signal interrupts is tried again. The last of 2^64 - 1 in a row that are
/// interrupted is a fault, and so is a write that takes nothing.
#[derive(Drop)]
pub struct WriterSink<W> {
    calls: SystemStream<W>,
    faults: u64,
}

impl<W: Write> WriterSink<W> {
    /// A sink over this writer, of which no write failed yet.
    pub fn new(inner: W) -> WriterSink<W>
        ensures taken { ⟦<WriterSink<W> as Sink>⟧.taken result ≡ W.contents inner }
        ensures faults { ⟦<WriterSink<W> as Sink>⟧.faults result ≡ 0 }
    {
        WriterSink {
            calls: SystemStream::new(inner),
            faults: 0,
        }
    }
}

impl<W: Write> Sink for WriterSink<W> {
    ghost taken = { λ s. W.contents s.calls.stream };

    ghost faults = { λ s. s.faults };

    ghost beside = { λ _. nothing_beside };

    fn write(&mut self, piece: &[u8]) -> Put
        requires { 0 < length piece.now }
        ensures bytes { Took (W.contents self.old.calls.stream) (W.contents self.new.calls.stream) piece.now result }
        ensures count { self.old.faults ≤ self.new.faults }
        ensures failed { result ≡ Put.Failed → Rose self.old.faults self.new.faults }
        ensures exact { self.new.faults ≡ faults_after_write self.old.faults result }
        ensures told { IsWriteOf self.new.calls.last self.new.calls.interruptions result }
    {
        let put = write_some(&mut self.calls, piece);
        if put == Put::Failed {
            self.faults = self.faults.saturating_add(1);
        }
        put
    }
}
