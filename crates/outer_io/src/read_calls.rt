ghost use Rattle.std.specs.Prelude.{◌≡◌, ◌<◌, ℕ, List, Option, length};
ghost use Rattle.outer_io.specs.Source.{Gave};
ghost use Rattle.outer_io.specs.SystemCalls.{GaveOnce, IsReadOf, interruptions_after};
ghost use Rattle.outer_io.specs.declared.system_answer.SystemAnswer.{SystemAnswer};

use crate::source::Got;
use crate::system_answer::SystemAnswer;

/// Reads of the system, one at a time.
pub(crate) trait ReadCalls {
    // The bytes that are left, where they are told.
    ghost left: { Self → Option (List ℕ) };

    // What the last call gave.
    ghost last: { Self → SystemAnswer };

    // How many calls were interrupted in a row, up to the last one.
    ghost interruptions: { Self → ℕ };

    /// Reads once, into the front of `room`.
    fn read_once(&mut self, room: &mut [u8]) -> SystemAnswer
        requires { 0 < length room.old }
        ensures bytes { GaveOnce (left self.old) (left self.new) room.new result }
        ensures last { last self.new ≡ result }
        ensures interruptions { interruptions self.new ≡ interruptions_after (interruptions self.old) result };
}

/// Reads the next bytes, and tries again where a signal interrupts the read.
pub(crate) fn read_some<C: ReadCalls>(calls: &mut C, room: &mut [u8]) -> Got
    requires { 0 < length room.old }
    ensures bytes { Gave (C.left calls.old) (C.left calls.new) room.new result }
    ensures told { IsReadOf (C.last calls.new) (C.interruptions calls.new) result }
{
    for turn in 0..u64::MAX {
        match calls.read_once(room) {
            SystemAnswer::Count(0) => return Got::End,
            SystemAnswer::Count(count) => return Got::Took(count),
            SystemAnswer::Interrupted => {}
            SystemAnswer::Error => return Got::Failed,
        }
    }
    Got::Failed
}
