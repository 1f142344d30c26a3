ghost use Rattle.std.specs.Prelude.{◌≡◌, ◌<◌, ℕ, List, Option, length};
ghost use Rattle.outer_io.specs.Sink.{Took};
ghost use Rattle.outer_io.specs.SystemCalls.{IsWriteOf, TookOnce, interruptions_after};
ghost use Rattle.outer_io.specs.declared.system_answer.SystemAnswer.{SystemAnswer};

use crate::sink::Put;
use crate::system_answer::SystemAnswer;

/// Writes of the system, one at a time.
pub(crate) trait WriteCalls {
    // The bytes that were taken, where they are told.
    ghost taken: { Self → Option (List ℕ) };

    // What the last call gave.
    ghost last: { Self → SystemAnswer };

    // How many calls were interrupted in a row, up to the last one.
    ghost interruptions: { Self → ℕ };

    /// Writes once, from the front of a piece.
    fn write_once(&mut self, piece: &[u8]) -> SystemAnswer
        ensures bytes { TookOnce (taken self.old) (taken self.new) piece.now result }
        ensures last { last self.new ≡ result }
        ensures interruptions { interruptions self.new ≡ interruptions_after (interruptions self.old) result };
}

/// Writes the first bytes, and tries again where a signal interrupts the write.
pub(crate) fn write_some<C: WriteCalls>(calls: &mut C, piece: &[u8]) -> Put
    ensures bytes { Took (C.taken calls.old) (C.taken calls.new) piece.now result }
    ensures told { IsWriteOf (C.last calls.new) (C.interruptions calls.new) result }
{
    for turn in 0..u64::MAX {
        match calls.write_once(piece) {
            SystemAnswer::Count(0) => return Put::Failed,
            SystemAnswer::Count(count) => return Put::Took(count),
            SystemAnswer::Interrupted => {}
            SystemAnswer::Error => return Put::Failed,
        }
    }
    Put::Failed
}
