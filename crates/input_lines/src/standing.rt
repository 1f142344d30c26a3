ghost use Rattle.std.specs.Prelude.{◌≡◌, ◌<◌, ◌≤◌, ◌^◌, ◌↔◌, IsTrue, OnOk};
ghost use Rattle.input_lines.specs.OpenBrackets.{owed_by};
ghost use Rattle.input_lines.specs.ShortestRest.{brackets_behind, shortest_rest, at_start, behind_byte};

use crate::bracket::Bracket;
use crate::brackets::Brackets;
use crate::next::Next;
use std::alloc::Global;
use task_model::OutOfMemory;

/// Where bytes stand in a line: what comes next, and the brackets that are open.
#[derive(Drop)]
pub(crate) struct Standing {
    next: Next,
    brackets: Brackets,
}

impl Standing {
    /// No bytes.
    pub(crate) fn at_start(alloc: Global) -> Self
        ensures { result ≡ at_start }
    {
        Standing {
            next: Next::Line,
            brackets: Brackets::new(alloc),
        }
    }

    /// Whether a line can still end within so many bytes.
    pub(crate) fn ends_within(&self, room: usize) -> bool
        ensures { IsTrue result ↔ (shortest_rest self.now ≤ room) }
    {
        let owed = self.brackets.owed();
        owed <= room && self.next.rest() <= room - owed
    }

    /// One more byte.
    pub(crate) fn take(&mut self, byte: u8) -> Result<(), OutOfMemory>
        requires { owed_by self.old.brackets < 2 ^ 32 }
        ensures { OnOk result (self.new ≡ behind_byte self.old byte) }
    {
        take_bracket(&mut self.brackets, self.next, byte)?;
        self.next = self.next.behind(byte);
        Ok(())
    }
}

/// The brackets behind this byte, in front of which this comes next.
fn take_bracket(brackets: &mut Brackets, next: Next, byte: u8) -> Result<(), OutOfMemory>
    requires { owed_by brackets.old < 2 ^ 32 }
    ensures { OnOk result (brackets.new ≡ brackets_behind next byte brackets.old) }
{
    match (next, byte) {
        (Next::Pair, b' ' | b')') | (Next::List, b' ' | b']') => Ok(()),
        (Next::Pair, _) => brackets.open(Bracket::First),
        (Next::List, _) => brackets.open(Bracket::Last),
        (Next::Word(0), b',') => brackets.comma(),
        (Next::Word(0), b')' | b']') => {
            brackets.close();
            Ok(())
        }
        _ => Ok(()),
    }
}
