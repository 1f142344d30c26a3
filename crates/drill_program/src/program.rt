ghost use Rattle.std.specs.Prelude.{◌≡◌, IfOk};
ghost use Rattle.task_model.specs.Checking.Accepted.{typed_program};
ghost use Rattle.task_model.specs.Running.Checked.{checked_term};
ghost use Rattle.task_model.specs.Terms.Program.{program_term};
ghost use Rattle.task_model.specs.Terms.Task.{task_term};
ghost use Rattle.drill_program.specs.Drill.{drill_body, drill_program};

use std::alloc::Global;
use task_model::{
    Basic, Checked, Def, DefBody, Host, OutOfMemory, Program, Row, Task, TaskText, boxed, shared,
};

/// The program of a drill: its one task shares a new location that holds 0.
pub fn drill_program(alloc: Global) -> Result<Checked, OutOfMemory>
    ensures { IfOk result (λ c. checked_term c ≡ typed_program drill_program) }
{
    let made = program(alloc)?;
    let program = shared(alloc, made)?;
    let types = Row::of_vec(vec![in alloc; Basic::Int]?);
    Ok(Checked::of(program, types))
}

fn program(alloc: Global) -> Result<Program, OutOfMemory>
    ensures { IfOk result (λ p. program_term p ≡ drill_program) }
{
    let main = Def {
        name: TaskText::of(alloc, "main")?,
        params: Row::new(alloc),
        result: Basic::Int,
        what: DefBody::Task(boxed(alloc, body(alloc)?)?),
    };
    Ok(Program {
        defs: Row::of_vec(vec![in alloc; main]?),
        bodies: Row::new(alloc),
    })
}

fn body(alloc: Global) -> Result<Task, OutOfMemory>
    ensures { IfOk result (λ t. task_term t ≡ drill_body) }
{
    let rest = boxed(alloc, Task::Share(TaskText::of(alloc, "r")?))?;
    Ok(Task::New {
        name: TaskText::of(alloc, "r")?,
        init: boxed(alloc, Host::Int(0))?,
        rest,
    })
}
