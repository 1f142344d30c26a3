ghost use Rattle.std.specs.Prelude.{◌≡◌, ◌+◌, ◌++◌, IfOk, OnOk};
ghost use Rattle.task_model.specs.Terms.Task.{task_term};
ghost use Rattle.task_model.specs.Checking.FullTask.{FullTask, full_and, full_body_numbered, step_over, sides_of};
ghost use Rattle.task_model.specs.Syntax.LaterBodies.{full_task, later_bodies};
ghost use Rattle.task_model.specs.Checking.Placed.{edit_nodes, task_firsts};

use crate::counts::added;
use task_model::{LaterBodies, NumberedBody, OutOfMemory, Row, Task};

/// Adds how many nodes stand before each body of a task, where so many stand before the task, and tells how many stand before
/// what follows it. Each node is met once.
#[cycle(walk)]
pub(crate) fn walk(
    later: &LaterBodies,
    t: &Task,
    first: u64,
    starts: &mut Row<u64>,
) -> Result<u64, OutOfMemory>
    ensures next { IfOk result (λ n. n ≡ first + edit_nodes (full_task later.now (task_term t.now))) }
    ensures starts { OnOk result (starts.new.list ≡ starts.old.list ++ task_firsts first (full_task later.now (task_term t.now))) }
{
    match t {
        Task::Edit(_) => added(first, 1),
        Task::Enter(_) => Ok(first),
        Task::Share(_) => added(first, 1),
        Task::Fail(_) => Ok(first),
        Task::Call { .. } => Ok(first),
        Task::Then { left, body } => walk_step(later, left, *body, first, starts),
        Task::Next { left, body } => walk_step(later, left, *body, first, starts),
        Task::And(a, b) => walk_both(later, a, b, first, starts),
        Task::Or(a, b) => walk_both(later, a, b, first, starts),
        Task::Xor { left, right } => walk_sides(later, *left, *right, first, starts),
        Task::Let { rest, .. } => walk(later, rest, first, starts),
        Task::If { yes, no, .. } => walk_both(later, yes, no, first, starts),
        Task::Case { empty, more, .. } => walk_both(later, empty, more, first, starts),
        Task::New { rest, .. } => walk(later, rest, first, starts),
        Task::Put { rest, .. } => walk(later, rest, first, starts),
    }
}

#[cycle(walk)]
fn walk_both(
    later: &LaterBodies,
    a: &Task,
    b: &Task,
    first: u64,
    starts: &mut Row<u64>,
) -> Result<u64, OutOfMemory>
    ensures next { IfOk result
        (λ n. n ≡ first + edit_nodes (full_and (full_task later.now (task_term a.now)) (full_task later.now (task_term b.now)))) }
    ensures starts { OnOk result
        (starts.new.list ≡ starts.old.list ++ task_firsts first
        (full_and (full_task later.now (task_term a.now)) (full_task later.now (task_term b.now)))) }
{
    let middle = walk(later, a, first, starts)?;
    walk(later, b, middle, starts)
}

#[cycle(walk)]
fn walk_step(
    later: &LaterBodies,
    left: &Task,
    body: u32,
    first: u64,
    starts: &mut Row<u64>,
) -> Result<u64, OutOfMemory>
    ensures next { IfOk result
        (λ n. n ≡ first
        + edit_nodes
        (step_over (full_task later.now (task_term left.now)) (full_body_numbered later.now.first (later_bodies later.now) body))) }
    ensures starts { OnOk result
        (starts.new.list ≡ starts.old.list ++ task_firsts first
        (step_over (full_task later.now (task_term left.now)) (full_body_numbered later.now.first (later_bodies later.now) body))) }
{
    match later.numbered(body) {
        None => Ok(first),
        Some(own) => match &own.body.binder {
            None => Ok(first),
            Some(_) => {
                let middle = walk(later, left, first, starts)?;
                starts.push(middle)?;
                walk_body(&own, middle, starts)
            }
        },
    }
}

#[cycle(walk)]
fn walk_sides(
    later: &LaterBodies,
    left: u32,
    right: u32,
    first: u64,
    starts: &mut Row<u64>,
) -> Result<u64, OutOfMemory>
    ensures next { IfOk result
        (λ n. n ≡ first
        + edit_nodes (sides_of (full_body_numbered later.now.first (later_bodies later.now) left)
        (full_body_numbered later.now.first (later_bodies later.now) right))) }
    ensures starts { OnOk result
        (starts.new.list ≡ starts.old.list ++ task_firsts first
        (sides_of (full_body_numbered later.now.first (later_bodies later.now) left)
        (full_body_numbered later.now.first (later_bodies later.now) right))) }
{
    match later.numbered(left) {
        None => Ok(first),
        Some(one) => match later.numbered(right) {
            None => Ok(first),
            Some(two) => {
                starts.push(first)?;
                let middle = walk_body(&one, first, starts)?;
                starts.push(middle)?;
                walk_body(&two, middle, starts)
            }
        },
    }
}

// The bodies of a body.
#[cycle(walk)]
fn walk_body(own: &NumberedBody, first: u64, starts: &mut Row<u64>) -> Result<u64, OutOfMemory>
    ensures next { IfOk result (λ n. n ≡ first + edit_nodes (full_task own.now.later (task_term own.now.body.now.task.value))) }
    ensures starts { OnOk result
        (starts.new.list ≡ starts.old.list ++ task_firsts first (full_task own.now.later (task_term own.now.body.now.task.value))) }
{
    let task = &own.body.task;
    walk(&own.later, task, first, starts)
}
