ghost use Rattle.std.specs.Prelude.{◌≡◌, ◌≤◌, ℕ, List, length, IfOk};
ghost use Rattle.task_model.specs.Terms.Program.{program_term};
ghost use Rattle.task_model.specs.Syntax.ProgramText.{IsProgramText};
ghost use Rattle.task_model.specs.Syntax.Printed.{program_text};
ghost use Rattle.task_model.specs.Syntax.Written.{IsWritten};

use std::alloc::Global;
use task_model::{OutOfMemory, Program, TaskText};

/// The text of a program, with the fewest parentheses. That of a program that was read is its text again, if it isn't longer than a source
/// may be.
pub fn print_program(alloc: Global, program: &Program) -> Result<TaskText, OutOfMemory>
    ensures text { IfOk result (λ t. t ≡ program_text (program_term program.now)) }
    ensures again { IsWritten (program_term program.now)
        → IfOk result (λ t. length t ≤ 1048576 → (places : List ℕ) × IsProgramText t (program_term program.now) places) }
{
    reader_printer::print_program(alloc, program)
}
