ghost use Rattle.std.specs.Prelude.{◌≡◌};
ghost use Rattle.outer_io.specs.SystemCalls.{interruptions_after};

use crate::read_calls::ReadCalls;
use crate::system_answer::SystemAnswer;
use crate::write_calls::WriteCalls;
use std::io::{Read, Write};

/// A stream of the system, what its last call gave, and how many calls were interrupted in a row, up to that one.
#[derive(Drop)]
pub(crate) struct SystemStream<S> {
    pub(crate) stream: S,
    pub(crate) last: SystemAnswer,
    pub(crate) interruptions: u64,
}

impl<S> SystemStream<S> {
    /// A stream that was not yet called.
    pub(crate) fn new(stream: S) -> SystemStream<S>
        ensures { result ≡ record { stream = stream; last = SystemAnswer.Count 0; interruptions = 0 } }
    {
        SystemStream {
            stream,
            last: SystemAnswer::Count(0),
            interruptions: 0,
        }
    }

    // Keeps the answer of a call.
    fn keep(&mut self, answer: SystemAnswer)
        ensures stream { self.new.stream ≡ self.old.stream }
        ensures last { self.new.last ≡ answer }
        ensures interruptions { self.new.interruptions ≡ interruptions_after self.old.interruptions answer }
    {
        self.last = answer;
        self.interruptions = match answer {
            SystemAnswer::Interrupted => self.interruptions.saturating_add(1),
            SystemAnswer::Count(_) | SystemAnswer::Error => 0,
        };
    }
}

impl<R: Read> ReadCalls for SystemStream<R> {
    ghost left = { λ s. R.remaining s.stream };

    ghost last = { λ s. s.last };

    ghost interruptions = { λ s. s.interruptions };

    fn read_once(&mut self, room: &mut [u8]) -> SystemAnswer {
        let answer = SystemAnswer::of(self.stream.read(room));
        self.keep(answer);
        answer
    }
}

impl<W: Write> WriteCalls for SystemStream<W> {
    ghost taken = { λ s. W.contents s.stream };

    ghost last = { λ s. s.last };

    ghost interruptions = { λ s. s.interruptions };

    fn write_once(&mut self, piece: &[u8]) -> SystemAnswer {
        let answer = SystemAnswer::of(self.stream.write(piece));
        self.keep(answer);
        answer
    }
}
