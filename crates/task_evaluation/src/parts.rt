ghost use Rattle.std.specs.Prelude.{◌≡◌, ◌+◌, ◌++◌, map, IfOk, OnOk};
ghost use Rattle.task_model.specs.Terms.Task.{body_term, task_term};
ghost use Rattle.task_model.specs.Terms.Program.{def_body_term, def_term};
ghost use Rattle.task_model.specs.Running.Checked as checked;
ghost use Rattle.task_evaluation.specs.FirstParts as parts_of;
ghost use Rattle.task_evaluation.specs.Tables.{lists};

use crate::counts::{added, body_nodes};
use crate::first_part::FirstPart;
use std::alloc::Global;
use task_model::{Body, Def, DefBody, OutOfMemory, Row, Task};

/// The first parts in a task and not in a body, where these are the counts of the bodies.
pub(crate) fn task_parts(
    alloc: Global,
    counts: &[u64],
    t: &Task,
) -> Result<Row<FirstPart>, OutOfMemory>
    ensures { IfOk result (λ r. r.list ≡ parts_of.first_parts counts.now (task_term t.now)) }
{
    let mut parts = Row::new(alloc);
    let _nodes = add_parts(counts, t, &mut parts)?;
    Ok(parts)
}

fn what_parts(alloc: Global, counts: &[u64], what: &DefBody) -> Result<Row<FirstPart>, OutOfMemory>
    ensures { IfOk result (λ r. r.list ≡ parts_of.what_parts counts.now (def_body_term what.now)) }
{
    match what {
        DefBody::Fun(_) => Ok(Row::new(alloc)),
        DefBody::Task(t) => task_parts(alloc, counts, t),
    }
}

/// The first parts in each definition.
pub(crate) fn definition_parts(
    alloc: Global,
    counts: &[u64],
    defs: &[Def],
) -> Result<Row<Row<FirstPart>>, OutOfMemory>
    ensures { IfOk result (λ r. lists r.list ≡ parts_of.parts_in_definitions counts.now (map def_term defs.now)) }
{
    let mut rows = Row::new(alloc);
    rows.reserve(defs.len())?;
    for def in defs {
        rows.push(what_parts(alloc, counts, &def.what)?)?;
    }
    Ok(rows)
}

/// The first parts in each body.
pub(crate) fn body_parts(
    alloc: Global,
    counts: &[u64],
    bodies: &[Body],
) -> Result<Row<Row<FirstPart>>, OutOfMemory>
    ensures { IfOk result (λ r. lists r.list ≡ parts_of.parts_in_bodies counts.now (map body_term bodies.now)) }
{
    let mut rows = Row::new(alloc);
    rows.reserve(bodies.len())?;
    for body in bodies {
        rows.push(task_parts(alloc, counts, &body.task)?)?;
    }
    Ok(rows)
}

// Adds the first parts in a task, and tells how many nodes the task has. Each node is met once.
#[cycle(parts)]
fn add_parts(counts: &[u64], t: &Task, parts: &mut Row<FirstPart>) -> Result<u64, OutOfMemory>
    ensures nodes { IfOk result (λ n. n ≡ checked.nodes_in counts.now 0 (task_term t.now)) }
    ensures parts { OnOk result (parts.new.list ≡ parts.old.list ++ parts_of.first_parts counts.now (task_term t.now)) }
{
    match t {
        Task::Edit(_) => Ok(1),
        Task::Enter(_) => Ok(0),
        Task::Share(_) => Ok(1),
        Task::Fail(_) => Ok(0),
        Task::Call { .. } => Ok(0),
        Task::Then { left, body } => add_step(counts, left, *body, parts),
        Task::Next { left, body } => add_step(counts, left, *body, parts),
        Task::And(a, b) => add_two(counts, a, b, parts),
        Task::Or(a, b) => add_two(counts, a, b, parts),
        Task::Xor { left, right } => {
            added(body_nodes(counts, 0, *left), body_nodes(counts, 0, *right))
        }
        Task::Let { rest, .. } => add_parts(counts, rest, parts),
        Task::If { yes, no, .. } => add_two(counts, yes, no, parts),
        Task::Case { empty, more, .. } => add_two(counts, empty, more, parts),
        Task::New { rest, .. } => add_parts(counts, rest, parts),
        Task::Put { rest, .. } => add_parts(counts, rest, parts),
    }
}

#[cycle(parts)]
fn add_two(
    counts: &[u64],
    a: &Task,
    b: &Task,
    parts: &mut Row<FirstPart>,
) -> Result<u64, OutOfMemory>
    ensures nodes { IfOk result
        (λ n. n ≡ checked.nodes_in counts.now 0 (task_term a.now) + checked.nodes_in counts.now 0 (task_term b.now)) }
    ensures parts { OnOk result (parts.new.list ≡ parts.old.list
        ++ parts_of.parts_joined (checked.nodes_in counts.now 0 (task_term a.now)) (parts_of.first_parts counts.now (task_term a.now))
        (parts_of.first_parts counts.now (task_term b.now))) }
{
    let before = parts.as_slice().len();
    let nodes = add_parts(counts, a, parts)?;
    let parted = parts.as_slice().len() - before;
    let more = add_parts(counts, b, parts)?;
    parts.push(FirstPart { nodes, parted })?;
    added(nodes, more)
}

#[cycle(parts)]
fn add_step(
    counts: &[u64],
    left: &Task,
    body: u32,
    parts: &mut Row<FirstPart>,
) -> Result<u64, OutOfMemory>
    ensures nodes { IfOk result (λ n. n ≡ checked.nodes_in counts.now 0 (task_term left.now) + checked.body_nodes counts.now 0 body) }
    ensures parts { OnOk result (parts.new.list ≡ parts.old.list ++ parts_of.first_parts counts.now (task_term left.now)) }
{
    let nodes = add_parts(counts, left, parts)?;
    added(nodes, body_nodes(counts, 0, body))
}
