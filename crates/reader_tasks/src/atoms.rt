ghost use Rattle.std.specs.Prelude.{◌≡◌, ◌+◌, ◌<◌, ◌^◌, IfOk, IfErr};
ghost use Rattle.task_model.specs.Terms.Task as tasks;
ghost use Rattle.reader_grammar.specs.Parts.{measured, shown_host, shown_items, leaf, over_type, over_list, over_one, grouped};
ghost use Rattle.reader_tasks.specs.Tasks.{parsed_task};

use exact_reading::ParseStop;
use reader_grammar::{Items, Measured, Parsed, Parts, name_text};
use std::alloc::Global;
use task_model::{Host, Task};

/// `edit`, which stands here, of this expression.
pub fn edit_task(alloc: Global, place: u64, value: Parsed<Host>) -> Result<Parsed<Task>, ParseStop>
    requires { value.levels + 1 < 2 ^ 64 }
    ensures shown { IfOk result (λ r. parsed_task r ≡ over_one tasks.edit place (shown_host value)) }
    ensures memory { IfErr result (λ e. e ≡ ParseStop.Memory) }
{
    let (value, parts) = value.into_parts();
    parts.node(alloc, Task::Edit(value), place)
}

/// `enter`, which stands here, of this type.
pub fn enter_task(alloc: Global, place: u64, item: Measured) -> Result<Parsed<Task>, ParseStop>
    requires { item.levels + 1 < 2 ^ 64 }
    ensures shown { IfOk result (λ r. parsed_task r ≡ over_type tasks.enter place (measured item)) }
    ensures memory { IfErr result (λ e. e ≡ ParseStop.Memory) }
{
    let (item, parts) = item.into_parts(alloc);
    parts.node(alloc, Task::Enter(item), place)
}

/// `fail`, which stands here, of this type.
pub fn fail_task(alloc: Global, place: u64, item: Measured) -> Result<Parsed<Task>, ParseStop>
    requires { item.levels + 1 < 2 ^ 64 }
    ensures shown { IfOk result (λ r. parsed_task r ≡ over_type tasks.fail place (measured item)) }
    ensures memory { IfErr result (λ e. e ≡ ParseStop.Memory) }
{
    let (item, parts) = item.into_parts(alloc);
    parts.node(alloc, Task::Fail(item), place)
}

/// `share`, which stands here, of this name.
pub fn share_task(alloc: Global, place: u64, name: &str) -> Result<Parsed<Task>, ParseStop>
    ensures shown { IfOk result (λ r. parsed_task r ≡ leaf (tasks.share name.now) place) }
    ensures memory { IfErr result (λ e. e ≡ ParseStop.Memory) }
{
    let name = name_text(alloc, name)?;
    Parts::none(alloc).node(alloc, Task::Share(name), place)
}

/// A call of a task with these arguments, whose name stands here.
pub fn call_task(
    alloc: Global,
    place: u64,
    name: &str,
    items: Items,
) -> Result<Parsed<Task>, ParseStop>
    requires { items.levels + 1 < 2 ^ 64 }
    ensures shown { IfOk result (λ r. parsed_task r ≡ over_list (tasks.call_task name.now) place (shown_items items)) }
    ensures memory { IfErr result (λ e. e ≡ ParseStop.Memory) }
{
    let name = name_text(alloc, name)?;
    let (args, parts) = items.into_parts(alloc);
    parts.node(alloc, Task::Call { name, args }, place)
}

/// This task in parentheses, the first of which stands here.
pub fn grouped_task(place: u64, task: Parsed<Task>) -> Parsed<Task>
    requires { task.levels + 1 < 2 ^ 64 }
    ensures { parsed_task result ≡ grouped place (parsed_task task) }
{
    task.group(place)
}
