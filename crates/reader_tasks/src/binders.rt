ghost use Rattle.std.specs.Prelude.{◌≡◌, ◌+◌, ◌<◌, ◌^◌, IfOk, IfErr};
ghost use Rattle.task_model.specs.Terms.Task as tasks;
ghost use Rattle.reader_grammar.specs.Parts.{shown_host, over_two};
ghost use Rattle.reader_tasks.specs.TaskOperators.{bound_task};
ghost use Rattle.reader_tasks.specs.Tasks.{parsed_task};

use crate::binding::Binding;
use exact_reading::ParseStop;
use reader_grammar::Parsed;
use std::alloc::Global;
use task_model::{Host, Task, TaskText};

/// `let` or `new`, which stands here, with this value or content, and the task behind it.
pub fn binding_task(
    alloc: Global,
    place: u64,
    binding: Binding,
    name: TaskText,
    value: Parsed<Host>,
    rest: Parsed<Task>,
) -> Result<Parsed<Task>, ParseStop>
    requires value { value.levels + 1 < 2 ^ 64 }
    requires rest { rest.levels + 1 < 2 ^ 64 }
    ensures shown { IfOk result (λ r. parsed_task r ≡ over_two (bound_task binding name) place (shown_host value) (parsed_task rest)) }
    ensures memory { IfErr result (λ e. e ≡ ParseStop.Memory) }
{
    let (value, rest, parts) = value.beside(rest)?;
    let task = match binding {
        Binding::Let => Task::Let {
            name,
            bound: value,
            rest,
        },
        Binding::New => Task::New {
            name,
            init: value,
            rest,
        },
    };
    parts.node(alloc, task, place)
}

/// A change of the place of this name, which stands here, and the task behind it.
pub fn put_task(
    alloc: Global,
    place: u64,
    name: TaskText,
    value: Parsed<Host>,
    rest: Parsed<Task>,
) -> Result<Parsed<Task>, ParseStop>
    requires value { value.levels + 1 < 2 ^ 64 }
    requires rest { rest.levels + 1 < 2 ^ 64 }
    ensures shown { IfOk result (λ r. parsed_task r ≡ over_two (tasks.put_task name) place (shown_host value) (parsed_task rest)) }
    ensures memory { IfErr result (λ e. e ≡ ParseStop.Memory) }
{
    let (value, rest, parts) = value.beside(rest)?;
    parts.node(alloc, Task::Put { name, value, rest }, place)
}
