ghost use Rattle.std.specs.Prelude.{◌≡◌, ◌+◌, ℕ, List, [], IfOk, OnErr, take};
ghost use Rattle.line_frame.specs.Told.{Told, TellsFirst, TellsBad};
ghost use Rattle.line_frame.specs.BadLine.{IfBad};
ghost use Rattle.line_frame.specs.declared.finish.Finish.{Finish};

use std::alloc::Global;
use task_model::Row;

/// Why a line has no answer: it is outside the grammar at this column, which counts from 1, or memory
/// ran out.
#[derive(Clone, Copy, Debug, PartialEq, Eq)]
pub enum LineStop {
    Bad { column: u64 },
    Memory,
}

/// What runs the lines of a script.
pub trait Machine {
    // The longest line, besides its LF.
    ghost LONGEST: { ℕ };

    const LONGEST: usize;

    // What is written for these lines, the first of which has this number, and how that ends: so where
    // none of them ends it before.
    ghost tells: { Self → ℕ → List (List ℕ) → Finish → Told → Type 0 };

    // What an answered line makes of the machine: before, the line, the answer, after.
    ghost takes: { Self → List ℕ → List ℕ → Self → Type 0 };

    // What a line that has no answer makes of it.
    ghost stops: { Self → Self → Type 0 };

    /// Runs a line without its LF. Of a longer line than the longest, the first bytes are given, one more than the
    /// longest line has.
    fn run_line(&mut self, alloc: Global, line: &[u8]) -> Result<Row<u8>, LineStop>
        ensures ok { IfOk result (λ text. (whole : List ℕ) → line.now ≡ take (LONGEST + 1) whole →
            TellsFirst (tells self.old) (tells self.new) whole text.list) }
        ensures bad { IfBad result (λ column. (whole : List ℕ) → line.now ≡ take (LONGEST + 1) whole →
            TellsBad (tells self.old) whole column) }
        ensures takes { IfOk result (λ text. takes self.old line.now text.list self.new) }
        ensures stops { OnErr result (stops self.old self.new) };

    // No lines: nothing is written.
    ghost no_lines: { (machine : Self) (number : ℕ) (finish : Finish) (told : Told) →
        tells machine number [] finish told → told ≡ record { output = []; finish = finish } };
}
