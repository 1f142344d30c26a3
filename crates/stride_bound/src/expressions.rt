ghost use Rattle.std.specs.Prelude.{◌≡◌, map};
ghost use Rattle.task_model.specs.Terms.Host.{host_term, as_exprs, call_expr};
ghost use Rattle.stride_bound.specs.Figures.{expression_bound, expressions_bound};
ghost use Rattle.stride_bound.specs.BoundTerms.{table_term};
ghost use Rattle.stride_bound.specs.Sums.{over_parts, beside, either};

use crate::bounds::Bound;
use crate::table::Table;
use task_model::{Host, TaskText};

/// What an expression comes to.
#[cycle(expression)]
pub(crate) fn expression(table: &Table, e: &Host) -> Bound
    ensures { result ≡ expression_bound (table_term table.now) (host_term e.now) }
{
    match e {
        Host::Unit
        | Host::Bool(_)
        | Host::Int(_)
        | Host::Text(_)
        | Host::Name(_)
        | Host::Read(_)
        | Host::Nil(_) => Bound::leaf(),
        Host::Call { name, args } => call(table, name, args.as_slice()),
        Host::List(items) => expressions(table, items.as_slice()).above(),
        Host::Neg(a) | Host::Not(a) | Host::Fst(a) | Host::Snd(a) | Host::Len(a) => {
            expression(table, a).above()
        }
        Host::Pair(a, b) => both(table, a, b),
        Host::Op { left, right, .. } => both(table, left, right),
        Host::Let { bound, rest, .. } => both(table, bound, rest),
        Host::If { test, yes, no } => branches(table, test, yes, no),
        Host::Case {
            list,
            empty,
            more,
            ..
        } => branches(table, list, empty, more),
    }
}

// A call of a function.
#[cycle(expression)]
fn call(table: &Table, name: &TaskText, args: &[Host]) -> Bound
    ensures { result ≡ expression_bound (table_term table.now) (call_expr name.now (as_exprs (map host_term args.now))) }
{
    let body = table.definition(name).evaluating;
    expressions(table, args).beside(body).once().above()
}

/// What expressions come to that are all evaluated.
#[cycle(expression)]
pub(crate) fn expressions(table: &Table, items: &[Host]) -> Bound
    ensures { result ≡ expressions_bound (table_term table.now) (as_exprs (map host_term items.now)) }
{
    let mut all = Bound::none();
    for item in items {
        all = all.beside(expression(table, item));
    }
    all
}

// A form that evaluates two parts.
#[cycle(expression)]
fn both(table: &Table, a: &Host, b: &Host) -> Bound
    ensures { result ≡ over_parts (beside (expression_bound (table_term table.now) (host_term a.now))
        (expression_bound (table_term table.now) (host_term b.now))) }
{
    expression(table, a).beside(expression(table, b)).above()
}

// A form that evaluates a part and then one of two.
#[cycle(expression)]
fn branches(table: &Table, e: &Host, a: &Host, b: &Host) -> Bound
    ensures { result ≡ over_parts (beside (expression_bound (table_term table.now) (host_term e.now))
        (either (expression_bound (table_term table.now) (host_term a.now)) (expression_bound (table_term table.now) (host_term b.now)))) }
{
    let branch = expression(table, a).either(expression(table, b));
    expression(table, e).beside(branch).above()
}
