ghost use Rattle.std.specs.Prelude.{◌≡◌, ◌+◌, ◌<◌, IfOk, IsOk, IsSome, Some, slice_get};
ghost use Rattle.task_model.specs.Terms.Task.{task_term};
ghost use Rattle.task_model.specs.Running.Checked as checked;

use task_model::{OutOfMemory, Task};

// A sum that no 64 bits hold is want of memory.
pub(crate) fn added(a: u64, b: u64) -> Result<u64, OutOfMemory>
    ensures sum { IfOk result (λ n. n ≡ a + b) }
    ensures fits { a + b < 18446744073709551616 → IsOk result }
{
    match a.checked_add(b) {
        Some(n) => Ok(n),
        None => Err(OutOfMemory),
    }
}

pub(crate) fn number_at(numbers: &[u64], i: usize) -> u64
    requires { IsSome (slice_get numbers.now i) }
    ensures { slice_get numbers.now i ≡ Some result }
{
    match numbers.get(i) {
        Some(n) => *n,
        None => unreachable!(),
    }
}

/// How many nodes a body has, where the counts are those of the bodies from a number on.
pub(crate) fn body_nodes(counts: &[u64], from: usize, body: u32) -> u64
    ensures { result ≡ checked.body_nodes counts.now from body }
{
    match counts.get((body as usize).saturating_sub(from)) {
        Some(n) => *n,
        None => 0,
    }
}

/// How many nodes a task has, where the counts are those of the bodies from a number on.
#[cycle(nodes)]
pub(crate) fn nodes_in(counts: &[u64], from: usize, t: &Task) -> Result<u64, OutOfMemory>
    ensures sum { IfOk result (λ n. n ≡ checked.nodes_in counts.now from (task_term t.now)) }
    ensures fits { checked.nodes_in counts.now from (task_term t.now) < 18446744073709551616 → IsOk result }
{
    match t {
        Task::Edit(_) => Ok(1),
        Task::Enter(_) => Ok(0),
        Task::Share(_) => Ok(1),
        Task::Fail(_) => Ok(0),
        Task::Call { .. } => Ok(0),
        Task::Then { left, body } => nodes_then(counts, from, left, *body),
        Task::Next { left, body } => nodes_then(counts, from, left, *body),
        Task::And(a, b) => nodes_both(counts, from, a, b),
        Task::Or(a, b) => nodes_both(counts, from, a, b),
        Task::Xor { left, right } => {
            added(
                body_nodes(counts, from, *left),
                body_nodes(counts, from, *right),
            )
        }
        Task::Let { rest, .. } => nodes_in(counts, from, rest),
        Task::If { yes, no, .. } => nodes_both(counts, from, yes, no),
        Task::Case { empty, more, .. } => nodes_both(counts, from, empty, more),
        Task::New { rest, .. } => nodes_in(counts, from, rest),
        Task::Put { rest, .. } => nodes_in(counts, from, rest),
    }
}

#[cycle(nodes)]
fn nodes_both(counts: &[u64], from: usize, a: &Task, b: &Task) -> Result<u64, OutOfMemory>
    ensures sum { IfOk result
        (λ n. n ≡ checked.nodes_in counts.now from (task_term a.now) + checked.nodes_in counts.now from (task_term b.now)) }
    ensures fits { checked.nodes_in counts.now from (task_term a.now) + checked.nodes_in counts.now from (task_term b.now)
        < 18446744073709551616 → IsOk result }
{
    let n = nodes_in(counts, from, a)?;
    let m = nodes_in(counts, from, b)?;
    added(n, m)
}

#[cycle(nodes)]
fn nodes_then(counts: &[u64], from: usize, t: &Task, body: u32) -> Result<u64, OutOfMemory>
    ensures sum { IfOk result (λ n. n ≡ checked.nodes_in counts.now from (task_term t.now) + checked.body_nodes counts.now from body) }
    ensures fits { checked.nodes_in counts.now from (task_term t.now) + checked.body_nodes counts.now from body
        < 18446744073709551616 → IsOk result }
{
    let n = nodes_in(counts, from, t)?;
    added(n, body_nodes(counts, from, body))
}
