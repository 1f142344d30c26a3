ghost use Rattle.std.specs.Prelude.{◌≡◌, ◌+◌, ◌<◌, ◌^◌, IfOk, IfErr};
ghost use Rattle.task_model.specs.Terms.Task as tasks;
ghost use Rattle.reader_grammar.specs.Parts.{shown_host, over_three};
ghost use Rattle.reader_tasks.specs.Tasks.{parsed_task};

use exact_reading::ParseStop;
use reader_grammar::Parsed;
use std::alloc::Global;
use task_model::{Host, Task, TaskText};

/// `if`, which stands here, of this test, and the task for each answer.
pub fn if_task(
    alloc: Global,
    place: u64,
    test: Parsed<Host>,
    yes: Parsed<Task>,
    no: Parsed<Task>,
) -> Result<Parsed<Task>, ParseStop>
    requires test { test.levels + 1 < 2 ^ 64 }
    requires yes { yes.levels + 1 < 2 ^ 64 }
    requires no { no.levels + 1 < 2 ^ 64 }
    ensures shown { IfOk result (λ r. parsed_task r ≡ over_three tasks.if_task place (shown_host test) (parsed_task yes) (parsed_task no)) }
    ensures memory { IfErr result (λ e. e ≡ ParseStop.Memory) }
{
    let (test, parts) = test.into_parts();
    let (yes, no, others) = yes.beside(no)?;
    let parts = parts.and(others)?;
    parts.node(alloc, Task::If { test, yes, no }, place)
}

/// `case`, which stands here, of this list, the task where it is empty, and the one where it has a head and a tail of these names.
pub fn case_task(
    alloc: Global,
    place: u64,
    list: Parsed<Host>,
    empty: Parsed<Task>,
    names: (TaskText, TaskText),
    more: Parsed<Task>,
) -> Result<Parsed<Task>, ParseStop>
    requires list { list.levels + 1 < 2 ^ 64 }
    requires empty { empty.levels + 1 < 2 ^ 64 }
    requires more { more.levels + 1 < 2 ^ 64 }
    ensures shown { IfOk result (λ r. parsed_task r ≡ over_three (λ e t u. tasks.case_task e t names.0 names.1 u) place (shown_host list)
        (parsed_task empty) (parsed_task more)) }
    ensures memory { IfErr result (λ e. e ≡ ParseStop.Memory) }
{
    let (list, parts) = list.into_parts();
    let (empty, more, others) = empty.beside(more)?;
    let (head, tail) = names;
    let parts = parts.and(others)?;
    let task = Task::Case {
        list,
        empty,
        head,
        tail,
        more,
    };
    parts.node(alloc, task, place)
}
