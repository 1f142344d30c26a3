ghost use Rattle.std.specs.Prelude.{◌≡◌, ◌+◌, suc, length, map, MatchResult};
ghost use Rattle.task_model.specs.Terms.Basic.{unit_type, list_type, basic_term};
ghost use Rattle.task_model.specs.Terms.Host.{host_term, as_exprs, name_expr, read_expr, call_expr, pair_expr, list_expr, nil_expr, op_expr, let_expr, if_expr, case_expr, more_exprs};
ghost use Rattle.task_model.specs.Terms.Program.{kind_term, param_term};
ghost use Rattle.task_model.specs.Checking.NodeCounts.{nodes, nodes_all};
ghost use Rattle.task_model.specs.Checking.TypeOf.{type_of};
ghost use Rattle.task_model.specs.Checking.TypeFault.{◌⨾◌};
ghost use Rattle.task_model.specs.Checking.TypeFault as faults;
ghost use Rattle.task_model.specs.Running.Rules.{bare_name};
ghost use Rattle.task_model.specs.Checking.Demands as demands;
ghost use Rattle.host_types.specs.Words.{unary_operand, unary_type, branch_demands};
ghost use Rattle.host_types.specs.Answer.{IsPassed, IsStop, AnswersType, Checks, ChecksForm, ChecksWanted};
ghost use Rattle.host_types.specs.Seen.{scope_term, calls_term};

use crate::calls::{Callee, Calls};
use crate::compare::{compared, sized};
use crate::fault::{CheckStop, next};
use crate::lookups::{called, fault, item, place_named, room_for_name, room_for_two, value_named};
use crate::names::Names;
use crate::operators::{Unary, applied, left, listed, operated, paired, right};
use std::alloc::Global;
use task_model::{Basic, Host, Kind, Op, Param, TaskText, TypeKind, copy_basic};

/// An expression's type, and the number of the node behind it.
#[derive(Drop)]
pub(crate) struct Typed {
    pub(crate) basic: Basic,
    pub(crate) next: u64,
}

/// An expression, checked whole.
#[cycle(expression)]
pub(crate) fn whole(
    alloc: Global,
    calls: &Calls,
    scope: &Names,
    node: u64,
    e: &Host,
) -> Result<Typed, CheckStop>
    ensures { Checks (calls_term calls.now) (scope_term scope.now) node (host_term e.now) result }
{
    let typed = form(alloc, calls, scope, node, e)?;
    sized(node, &typed.basic)?;
    Ok(typed)
}

/// An expression, checked whole and compared with the type that is wanted of it: the number of the node behind it.
#[cycle(expression)]
pub(crate) fn wanted(
    alloc: Global,
    calls: &Calls,
    scope: &Names,
    node: u64,
    e: &Host,
    want: &Basic,
) -> Result<u64, CheckStop>
    ensures { ChecksWanted (calls_term calls.now) (scope_term scope.now) node (host_term e.now) (basic_term want.now) result }
{
    let typed = whole(alloc, calls, scope, node, e)?;
    compared(node, want, &typed.basic)?;
    Ok(typed.next)
}

// One form, but for the size of its type.
#[cycle(expression)]
fn form(
    alloc: Global,
    calls: &Calls,
    scope: &Names,
    node: u64,
    e: &Host,
) -> Result<Typed, CheckStop>
    ensures { ChecksForm (calls_term calls.now) (scope_term scope.now) node (host_term e.now) result }
{
    match e {
        Host::Unit => leaf(node, Basic::Unit),
        Host::Bool(_) => leaf(node, Basic::Bool),
        Host::Int(_) => leaf(node, Basic::Int),
        Host::Text(_) => leaf(node, Basic::Text),
        Host::Name(name) => name_form(calls, scope, node, name),
        Host::Read(name) => read_form(calls, scope, node, name),
        Host::Call { name, args } => call_form(alloc, calls, scope, node, name, args.as_slice()),
        Host::Pair(a, b) => pair_form(alloc, calls, scope, node, a, b),
        Host::List(items) => list_form(alloc, calls, scope, node, items.as_slice()),
        Host::Nil(b) => nil_form(alloc, calls, scope, node, b),
        Host::Neg(a) => unary_form(alloc, calls, scope, node, Unary::Neg, a),
        Host::Not(a) => unary_form(alloc, calls, scope, node, Unary::Not, a),
        Host::Fst(a) => unary_form(alloc, calls, scope, node, Unary::First, a),
        Host::Snd(a) => unary_form(alloc, calls, scope, node, Unary::Second, a),
        Host::Len(a) => unary_form(alloc, calls, scope, node, Unary::Length, a),
        Host::Op { op, left, right } => operator_form(alloc, calls, scope, node, *op, left, right),
        Host::Let { name, bound, rest } => let_form(alloc, calls, scope, node, name, bound, rest),
        Host::If { test, yes, no } => if_form(alloc, calls, scope, node, test, yes, no),
        Host::Case {
            list,
            empty,
            head,
            tail,
            more,
        } => case_form(alloc, calls, scope, node, list, empty, head, tail, more),
    }
}

// A node without parts.
fn leaf(node: u64, basic: Basic) -> Result<Typed, CheckStop>
    ensures { AnswersType faults.met (basic_term basic) (suc node) result }
{
    let behind = next(node)?;
    Ok(Typed {
        basic,
        next: behind,
    })
}

fn name_form(calls: &Calls, scope: &Names, node: u64, name: &TaskText) -> Result<Typed, CheckStop>
    ensures { ChecksForm (calls_term calls.now) (scope_term scope.now) node (name_expr name.now) result }
{
    let basic = value_named(scope, node, name)?;
    leaf(node, basic)
}

fn read_form(calls: &Calls, scope: &Names, node: u64, name: &TaskText) -> Result<Typed, CheckStop>
    ensures { ChecksForm (calls_term calls.now) (scope_term scope.now) node (read_expr name.now) result }
{
    let basic = copy_basic(place_named(scope, node, name)?)?;
    leaf(node, basic)
}

fn nil_form(
    alloc: Global,
    calls: &Calls,
    scope: &Names,
    node: u64,
    basic: &Basic,
) -> Result<Typed, CheckStop>
    ensures { ChecksForm (calls_term calls.now) (scope_term scope.now) node (nil_expr (basic_term basic.now)) result }
{
    let list = listed(alloc, basic)?;
    leaf(node, list)
}

#[cycle(expression)]
fn call_form(
    alloc: Global,
    calls: &Calls,
    scope: &Names,
    node: u64,
    name: &TaskText,
    args: &[Host],
) -> Result<Typed, CheckStop>
    ensures { ChecksForm (calls_term calls.now) (scope_term scope.now) node
        (call_expr name.now (as_exprs (map host_term args.now))) result }
{
    let def = called(calls, Callee::Function, node, name, args.len())?;
    let inner = next(node)?;
    let behind = arguments(alloc, calls, scope, inner, args, def.params.as_slice())?;
    let basic = copy_basic(&def.result)?;
    Ok(Typed {
        basic,
        next: behind,
    })
}

/// Arguments at parameters: the number of the node behind them.
#[cycle(expression)]
pub(crate) fn arguments(
    alloc: Global,
    calls: &Calls,
    scope: &Names,
    node: u64,
    args: &[Host],
    params: &[Param],
) -> Result<u64, CheckStop>
    requires { length args.now ≡ length params.now }
    ensures { MatchResult result
        (IsPassed (demands.arguments (calls_term calls.now) (scope_term scope.now) node (as_exprs (map host_term args.now))
        (map param_term params.now)) (node + nodes_all (as_exprs (map host_term args.now))))
        (IsStop (demands.arguments (calls_term calls.now) (scope_term scope.now) node (as_exprs (map host_term args.now))
        (map param_term params.now))) }
{
    let mut open = params;
    let mut behind = node;
    for arg in args {
        let [param, others @ ..] = open else {
            unreachable!()
        };
        behind = argument(alloc, calls, scope, behind, arg, &param.kind)?;
        open = others;
    }
    Ok(behind)
}

#[cycle(expression)]
fn argument(
    alloc: Global,
    calls: &Calls,
    scope: &Names,
    node: u64,
    e: &Host,
    kind: &Kind,
) -> Result<u64, CheckStop>
    ensures { MatchResult result
        (IsPassed (demands.argument node (scope_term scope.now) (kind_term kind.now) (bare_name (host_term e.now))
        (type_of (calls_term calls.now).defs (scope_term scope.now) (host_term e.now))
        (demands.demands (calls_term calls.now) (scope_term scope.now) node (host_term e.now))) (node + nodes (host_term e.now)))
        (IsStop (demands.argument node (scope_term scope.now) (kind_term kind.now) (bare_name (host_term e.now))
        (type_of (calls_term calls.now).defs (scope_term scope.now) (host_term e.now))
        (demands.demands (calls_term calls.now) (scope_term scope.now) node (host_term e.now)))) }
{
    match (kind, e) {
        (Kind::Plain(basic), _) => wanted(alloc, calls, scope, node, e, basic),
        (Kind::Ref(basic), Host::Name(name)) => {
            let got = place_named(scope, node, name)?;
            compared(node, basic, got)?;
            Ok(next(node)?)
        }
        (Kind::Ref(_), _) => {
            whole(alloc, calls, scope, node, e)?;
            fault(node, TypeKind::NotRef)
        }
    }
}

#[cycle(expression)]
fn pair_form(
    alloc: Global,
    calls: &Calls,
    scope: &Names,
    node: u64,
    a: &Host,
    b: &Host,
) -> Result<Typed, CheckStop>
    ensures { ChecksForm (calls_term calls.now) (scope_term scope.now) node (pair_expr (host_term a.now) (host_term b.now)) result }
{
    let inner = next(node)?;
    let first = whole(alloc, calls, scope, inner, a)?;
    let second = whole(alloc, calls, scope, first.next, b)?;
    let basic = paired(alloc, first.basic, second.basic)?;
    Ok(Typed {
        basic,
        next: second.next,
    })
}

#[cycle(expression)]
fn list_form(
    alloc: Global,
    calls: &Calls,
    scope: &Names,
    node: u64,
    items: &[Host],
) -> Result<Typed, CheckStop>
    ensures { ChecksForm (calls_term calls.now) (scope_term scope.now) node (list_expr (as_exprs (map host_term items.now))) result }
{
    let [first, others @ ..] = items else {
        return empty_list(alloc, node);
    };
    let inner = next(node)?;
    let typed = whole(alloc, calls, scope, inner, first)?;
    let behind = elements(alloc, calls, scope, typed.next, others, &typed.basic)?;
    let basic = listed(alloc, &typed.basic)?;
    Ok(Typed {
        basic,
        next: behind,
    })
}

// No text has such a list.
fn empty_list(alloc: Global, node: u64) -> Result<Typed, CheckStop>
    ensures { AnswersType faults.met (list_type unit_type) (suc node) result }
{
    let basic = listed(alloc, &Basic::Unit)?;
    leaf(node, basic)
}

// The elements of a list behind its first one, of this type: the number of the node behind them.
#[cycle(expression)]
fn elements(
    alloc: Global,
    calls: &Calls,
    scope: &Names,
    node: u64,
    items: &[Host],
    basic: &Basic,
) -> Result<u64, CheckStop>
    ensures { MatchResult result
        (IsPassed (demands.elements (calls_term calls.now) (scope_term scope.now) node (basic_term basic.now)
        (as_exprs (map host_term items.now))) (node + nodes_all (as_exprs (map host_term items.now))))
        (IsStop (demands.elements (calls_term calls.now) (scope_term scope.now) node (basic_term basic.now)
        (as_exprs (map host_term items.now)))) }
{
    let mut behind = node;
    for item in items {
        behind = wanted(alloc, calls, scope, behind, item, basic)?;
    }
    Ok(behind)
}

#[cycle(expression)]
fn unary_form(
    alloc: Global,
    calls: &Calls,
    scope: &Names,
    node: u64,
    operator: Unary,
    a: &Host,
) -> Result<Typed, CheckStop>
    ensures { AnswersType
        (demands.all_demands (calls_term calls.now) (scope_term scope.now) (suc node) (host_term a.now)
        ⨾ unary_operand operator (suc node) (type_of (calls_term calls.now).defs (scope_term scope.now) (host_term a.now)))
        (unary_type operator (type_of (calls_term calls.now).defs (scope_term scope.now) (host_term a.now)))
        (node + suc (nodes (host_term a.now))) result }
{
    let inner = next(node)?;
    let typed = whole(alloc, calls, scope, inner, a)?;
    let basic = applied(operator, inner, typed.basic)?;
    Ok(Typed {
        basic,
        next: typed.next,
    })
}

#[cycle(expression)]
fn operator_form(
    alloc: Global,
    calls: &Calls,
    scope: &Names,
    node: u64,
    op: Op,
    a: &Host,
    b: &Host,
) -> Result<Typed, CheckStop>
    ensures { ChecksForm (calls_term calls.now) (scope_term scope.now) node (op_expr op (host_term a.now) (host_term b.now)) result }
{
    let inner = next(node)?;
    let first = whole(alloc, calls, scope, inner, a)?;
    left(op, inner, &first.basic)?;
    let second = whole(alloc, calls, scope, first.next, b)?;
    right(alloc, op, first.next, &first.basic, &second.basic)?;
    Ok(Typed {
        basic: operated(op, second.basic),
        next: second.next,
    })
}

#[cycle(expression)]
fn let_form(
    alloc: Global,
    calls: &Calls,
    scope: &Names,
    node: u64,
    name: &TaskText,
    a: &Host,
    rest: &Host,
) -> Result<Typed, CheckStop>
    ensures { ChecksForm (calls_term calls.now) (scope_term scope.now) node (let_expr name.now (host_term a.now) (host_term rest.now))
        result }
{
    room_for_name(scope, node)?;
    let inner = next(node)?;
    let bound = whole(alloc, calls, scope, inner, a)?;
    let kind = Kind::Plain(bound.basic);
    let within = (&*scope).with(&*name, &kind);
    whole(alloc, calls, &within, bound.next, rest)
}

#[cycle(expression)]
fn if_form(
    alloc: Global,
    calls: &Calls,
    scope: &Names,
    node: u64,
    test: &Host,
    yes: &Host,
    no: &Host,
) -> Result<Typed, CheckStop>
    ensures { ChecksForm (calls_term calls.now) (scope_term scope.now) node
        (if_expr (host_term test.now) (host_term yes.now) (host_term no.now)) result }
{
    let inner = next(node)?;
    let behind = wanted(alloc, calls, scope, inner, test, &Basic::Bool)?;
    let first = whole(alloc, calls, scope, behind, yes)?;
    let behind = wanted(alloc, calls, scope, first.next, no, &first.basic)?;
    Ok(Typed {
        basic: first.basic,
        next: behind,
    })
}

#[cycle(expression)]
fn case_form(
    alloc: Global,
    calls: &Calls,
    scope: &Names,
    node: u64,
    list: &Host,
    empty: &Host,
    head: &TaskText,
    tail: &TaskText,
    more: &Host,
) -> Result<Typed, CheckStop>
    ensures { ChecksForm (calls_term calls.now) (scope_term scope.now) node
        (case_expr (host_term list.now) (host_term empty.now) head.now tail.now (host_term more.now)) result }
{
    room_for_two(scope, node, head, tail)?;
    let inner = next(node)?;
    let listed = whole(alloc, calls, scope, inner, list)?;
    let item = copy_basic(item(inner, &listed.basic)?)?;
    let first = Kind::Plain(item);
    let others = Kind::Plain(listed.basic);
    let outer = (&*scope).with(&*head, &first);
    let within = outer.with(&*tail, &others);
    branches(alloc, calls, scope, &within, listed.next, empty, more)
}

// Two branches, the second of the first one's type.
#[cycle(expression)]
fn branches(
    alloc: Global,
    calls: &Calls,
    scope: &Names,
    within: &Names,
    node: u64,
    a: &Host,
    b: &Host,
) -> Result<Typed, CheckStop>
    ensures { AnswersType
        (branch_demands (calls_term calls.now) (scope_term scope.now) (scope_term within.now) node (host_term a.now) (host_term b.now))
        (type_of (calls_term calls.now).defs (scope_term scope.now) (host_term a.now))
        (node + nodes (host_term a.now) + nodes (host_term b.now)) result }
{
    let first = whole(alloc, calls, scope, node, a)?;
    let behind = wanted(alloc, calls, within, first.next, b, &first.basic)?;
    Ok(Typed {
        basic: first.basic,
        next: behind,
    })
}
