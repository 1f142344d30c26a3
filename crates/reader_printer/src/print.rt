ghost use Rattle.std.specs.Prelude.{◌≡◌, IfOk};
ghost use Rattle.task_model.specs.Terms.Program.{program_term};
ghost use Rattle.task_model.specs.Syntax.Printed.{program_text};

use crate::definitions::write_definitions;
use crate::printer::Printer;
use std::alloc::Global;
use task_model::{OutOfMemory, Program, TaskText};

/// The text of a program.
pub fn print_program(alloc: Global, p: &Program) -> Result<TaskText, OutOfMemory>
    ensures text { IfOk result (λ t. t ≡ program_text (program_term p.now)) }
{
    let mut out = Printer::new(alloc);
    write_definitions(&mut out, p.bodies.as_slice(), p.defs.as_slice())?;
    out.into_text()
}
