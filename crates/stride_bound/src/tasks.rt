ghost use Rattle.std.specs.Prelude.{◌≡◌, map};
ghost use Rattle.task_model.specs.Terms.Host.{host_term};
ghost use Rattle.task_model.specs.Terms.Task.{task_term, call_task};
ghost use Rattle.stride_bound.specs.Sums.{after_first, greater};
ghost use Rattle.stride_bound.specs.Figures.{expression_bound, task_figures, task_tests};
ghost use Rattle.stride_bound.specs.BoundTerms.{table_term};

use crate::bounds::Bound;
use crate::expressions::{expression, expressions};
use crate::figures::Figures;
use crate::table::Table;
use task_model::{Host, Task, TaskText};

/// What a task comes to.
#[cycle(task)]
pub(crate) fn task(table: &Table, t: &Task) -> Figures
    ensures { result ≡ task_figures (table_term table.now) (task_term t.now) }
{
    match t {
        Task::Edit(e) => Figures::still(expression(table, e).above()),
        Task::Enter(_) | Task::Share(_) | Task::Fail(_) => Figures::still(Bound::leaf()),
        Task::Call { name, args } => call(table, name, args.as_slice()),
        Task::Then { left, body } => task(table, left).then(table.body(*body)),
        Task::Next { left, body } => task(table, left).next(table.body(*body)),
        Task::And(a, b) => task(table, a).pair(task(table, b)),
        Task::Or(a, b) => task(table, a).choice(task(table, b)),
        Task::Xor { left, right } => table.body(*left).sides(table.body(*right)),
        Task::Let { bound, rest, .. } => rest_of(table, bound, rest),
        Task::If { test, yes, no } => branches(table, test, yes, no),
        Task::Case {
            list,
            empty,
            more,
            ..
        } => branches(table, list, empty, more),
        Task::New { init, rest, .. } => rest_of(table, init, rest),
        Task::Put { value, rest, .. } => rest_of(table, value, rest),
    }
}

// A call of a task.
fn call(table: &Table, name: &TaskText, args: &[Host]) -> Figures
    ensures { result ≡ task_figures (table_term table.now) (call_task name.now (map host_term args.now)) }
{
    table.definition(name).called(expressions(table, args))
}

// A task behind an expression.
#[cycle(task)]
fn rest_of(table: &Table, e: &Host, rest: &Task) -> Figures
    ensures { result ≡ after_first (expression_bound (table_term table.now) (host_term e.now)) (task_figures (table_term table.now) (task_term rest.now)) }
{
    task(table, rest).behind(expression(table, e))
}

// One of two tasks behind an expression.
#[cycle(task)]
fn branches(table: &Table, e: &Host, a: &Task, b: &Task) -> Figures
    ensures { result ≡ after_first (expression_bound (table_term table.now) (host_term e.now))
        (greater (task_figures (table_term table.now) (task_term a.now)) (task_figures (table_term table.now) (task_term b.now))) }
{
    let branch = task(table, a).greater(task(table, b));
    branch.behind(expression(table, e))
}

/// The greatest test that an input makes at a user step or an external choice of this task.
pub(crate) fn tests(table: &Table, t: &Task) -> Bound
    ensures { result ≡ task_tests (table_term table.now) (task_term t.now) }
{
    match t {
        Task::Edit(_) | Task::Enter(_) | Task::Share(_) | Task::Fail(_) | Task::Call { .. } => {
            Bound::none()
        }
        Task::Next { left, body } => tests(table, left).either(table.body(*body).tested()),
        Task::And(a, b) | Task::Or(a, b) => tests(table, a).either(tests(table, b)),
        Task::Xor { left, right } => {
            let right = table.body(*right).tested();
            table.body(*left).tested().either(right)
        }
        Task::If { yes, no, .. } => tests(table, yes).either(tests(table, no)),
        Task::Case { empty, more, .. } => tests(table, empty).either(tests(table, more)),
        Task::Then { left: rest, .. }
        | Task::Let { rest, .. }
        | Task::New { rest, .. }
        | Task::Put { rest, .. } => tests(table, rest),
    }
}
