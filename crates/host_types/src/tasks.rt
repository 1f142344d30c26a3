ghost use Rattle.std.specs.Prelude.{◌+◌, ◌++◌, [], ◌∷◌, suc, map, MatchResult};
ghost use Rattle.task_model.specs.Terms.Basic.{basic_term};
ghost use Rattle.task_model.specs.Terms.Host.{host_term, as_exprs};
ghost use Rattle.task_model.specs.Terms.Task.{task_term};
ghost use Rattle.task_model.specs.Checking.FullTask.{full_body_numbered, step_over, sides_of, full_edit, full_call, full_and, full_or, full_if, full_case, full_put};
ghost use Rattle.task_model.specs.Syntax.LaterBodies.{later_bodies, full_task};
ghost use Rattle.task_model.specs.Checking.Names.{all_open, kind_in, named_type};
ghost use Rattle.task_model.specs.Checking.TypeFault.{met, ref_name};
ghost use Rattle.task_model.specs.Checking.NodeCounts.{nodes_all};
ghost use Rattle.task_model.specs.Checking.TypeOf.{task_type};
ghost use Rattle.task_model.specs.Checking.TaskDemands.{task_demands};
ghost use Rattle.host_types.specs.Answer.{IsTask, IsStop, AnswersType, Checks, ChecksWanted, ChecksTask, ChecksTaskForm, ChecksTaskWanted};
ghost use Rattle.host_types.specs.Bound.{bound_form};
ghost use Rattle.host_types.specs.Seen.{scope_term, calls_term};

use crate::bound_to::BoundTo;
use crate::bound_to::BoundTo::{Place, Value};
use crate::calls::{Callee, Calls};
use crate::compare::{compared, sized};
use crate::expressions::{Typed, arguments, wanted, whole};
use crate::fault::{CheckStop, next};
use crate::lookups::{called, fault, item, place_named, room_for_name, room_for_two};
use crate::names::Names;
use crate::operators::paired;
use std::alloc::Global;
use task_model::{
    Basic, Host, Kind, LaterBodies, NumberedBody, Row, Task, TaskText, TypeKind, copy_basic,
};

/// A task, checked whole. The types of its `edit` and `share` nodes are added.
#[cycle(task)]
pub(crate) fn task(
    alloc: Global,
    calls: &Calls,
    later: &LaterBodies,
    scope: &Names,
    node: u64,
    t: &Task,
    types: &mut Row<Basic>,
) -> Result<Typed, CheckStop>
    ensures { ChecksTask (calls_term calls.now) (scope_term scope.now) node (full_task later.now (task_term t.now))
        (map basic_term types.old.list) (map basic_term types.new.list) result }
{
    let typed = form(alloc, calls, later, scope, node, t, types)?;
    sized(node, &typed.basic)?;
    Ok(typed)
}

/// A task, checked whole and compared with the type that is wanted of it: the number of the node behind it.
#[cycle(task)]
pub(crate) fn wanted_task(
    alloc: Global,
    calls: &Calls,
    later: &LaterBodies,
    scope: &Names,
    node: u64,
    t: &Task,
    want: &Basic,
    types: &mut Row<Basic>,
) -> Result<u64, CheckStop>
    ensures { ChecksTaskWanted (calls_term calls.now) (scope_term scope.now) node (full_task later.now (task_term t.now))
        (basic_term want.now) (map basic_term types.old.list) (map basic_term types.new.list) result }
{
    let typed = task(alloc, calls, later, scope, node, t, types)?;
    compared(node, want, &typed.basic)?;
    Ok(typed.next)
}

// One form, but for the size of its type.
#[cycle(task)]
fn form(
    alloc: Global,
    calls: &Calls,
    later: &LaterBodies,
    scope: &Names,
    node: u64,
    t: &Task,
    types: &mut Row<Basic>,
) -> Result<Typed, CheckStop>
    ensures { ChecksTaskForm (calls_term calls.now) (scope_term scope.now) node (full_task later.now (task_term t.now))
        (map basic_term types.old.list) (map basic_term types.new.list) result }
{
    match t {
        Task::Edit(e) => edit_form(alloc, calls, scope, node, e, types),
        Task::Enter(b) | Task::Fail(b) => typed_form(node, b),
        Task::Share(name) => share_form(scope, node, name, types),
        Task::Call { name, args } => call_form(alloc, calls, scope, node, name, args.as_slice()),
        Task::Then { left, body } | Task::Next { left, body } => {
            step_form(alloc, calls, later, scope, node, left, *body, types)
        }
        Task::And(a, b) => and_form(alloc, calls, later, scope, node, a, b, types),
        Task::Or(a, b) => or_form(alloc, calls, later, scope, node, a, b, types),
        Task::Xor { left, right } => {
            xor_form(alloc, calls, later, scope, node, *left, *right, types)
        }
        Task::Let { name, bound, rest } => binding_form(
            alloc, calls, later, scope, node, Value, name, bound, rest, types,
        ),
        Task::If { test, yes, no } => {
            if_form(alloc, calls, later, scope, node, test, yes, no, types)
        }
        Task::Case {
            list,
            empty,
            head,
            tail,
            more,
        } => case_form(
            alloc, calls, later, scope, node, list, empty, head, tail, more, types,
        ),
        Task::New { name, init, rest } => binding_form(
            alloc, calls, later, scope, node, Place, name, init, rest, types,
        ),
        Task::Put { name, value, rest } => {
            put_form(alloc, calls, later, scope, node, name, value, rest, types)
        }
    }
}

// An expression of a task, checked whole. It may call every function.
fn expression(
    alloc: Global,
    calls: &Calls,
    scope: &Names,
    node: u64,
    e: &Host,
) -> Result<Typed, CheckStop>
    ensures { Checks (all_open (calls_term calls.now)) (scope_term scope.now) node (host_term e.now) result }
{
    let open = Calls {
        definitions: calls.definitions,
        below: None,
    };
    whole(alloc, &open, scope, node, e)
}

// Such an expression, compared with the type that is wanted of it: the number of the node behind it.
fn wanted_expression(
    alloc: Global,
    calls: &Calls,
    scope: &Names,
    node: u64,
    e: &Host,
    want: &Basic,
) -> Result<u64, CheckStop>
    ensures { ChecksWanted (all_open (calls_term calls.now)) (scope_term scope.now) node (host_term e.now) (basic_term want.now) result }
{
    let open = Calls {
        definitions: calls.definitions,
        below: None,
    };
    wanted(alloc, &open, scope, node, e, want)
}

fn edit_form(
    alloc: Global,
    calls: &Calls,
    scope: &Names,
    node: u64,
    e: &Host,
    types: &mut Row<Basic>,
) -> Result<Typed, CheckStop>
    ensures { ChecksTaskForm (calls_term calls.now) (scope_term scope.now) node (full_edit (host_term e.now))
        (map basic_term types.old.list) (map basic_term types.new.list) result }
{
    let inner = next(node)?;
    let typed = expression(alloc, calls, scope, inner, e)?;
    types.push(copy_basic(&typed.basic)?)?;
    Ok(typed)
}

fn typed_form(node: u64, basic: &Basic) -> Result<Typed, CheckStop>
    ensures { AnswersType met (basic_term basic.now) (suc node) result }
{
    let basic = copy_basic(basic)?;
    let behind = next(node)?;
    Ok(Typed {
        basic,
        next: behind,
    })
}

fn share_form(
    scope: &Names,
    node: u64,
    name: &TaskText,
    types: &mut Row<Basic>,
) -> Result<Typed, CheckStop>
    ensures { MatchResult result
        (IsTask (ref_name node (kind_in (scope_term scope.now) name.now)) (named_type (kind_in (scope_term scope.now) name.now)) (suc node)
        (map basic_term types.old.list ++ named_type (kind_in (scope_term scope.now) name.now) ∷ []) (map basic_term types.new.list))
        (IsStop (ref_name node (kind_in (scope_term scope.now) name.now))) }
{
    let basic = place_named(scope, node, name)?;
    types.push(copy_basic(basic)?)?;
    typed_form(node, basic)
}

fn call_form(
    alloc: Global,
    calls: &Calls,
    scope: &Names,
    node: u64,
    name: &TaskText,
    args: &[Host],
) -> Result<Typed, CheckStop>
    ensures { AnswersType (task_demands (calls_term calls.now) (scope_term scope.now) node (full_call name.now (map host_term args.now)))
        (task_type (calls_term calls.now).defs (scope_term scope.now) (full_call name.now (map host_term args.now)))
        (node + suc (nodes_all (as_exprs (map host_term args.now)))) result }
{
    let open = Calls {
        definitions: calls.definitions,
        below: None,
    };
    let def = called(calls, Callee::Task, node, name, args.len())?;
    let inner = next(node)?;
    let behind = arguments(alloc, &open, scope, inner, args, def.params.as_slice())?;
    let basic = copy_basic(&def.result)?;
    Ok(Typed {
        basic,
        next: behind,
    })
}

#[cycle(task)]
fn step_form(
    alloc: Global,
    calls: &Calls,
    later: &LaterBodies,
    scope: &Names,
    node: u64,
    left: &Task,
    number: u32,
    types: &mut Row<Basic>,
) -> Result<Typed, CheckStop>
    ensures { ChecksTaskForm (calls_term calls.now) (scope_term scope.now) node
        (step_over (full_task later.now (task_term left.now)) (full_body_numbered later.now.first (later_bodies later.now) number))
        (map basic_term types.old.list) (map basic_term types.new.list) result }
{
    let open = Calls {
        definitions: calls.definitions,
        below: None,
    };
    let Some(
        NumberedBody {
            body,
            later: behind,
        },
    ) = later.numbered(number)
    else {
        return fault(node, TypeKind::UnknownName);
    };
    let Some(name) = &body.binder else {
        return fault(node, TypeKind::UnknownName);
    };
    room_for_name(scope, node)?;
    let inner = next(node)?;
    let bound = task(alloc, calls, later, scope, inner, left, types)?;
    let kind = Kind::Plain(bound.basic);
    let within = (&*scope).with(name, &kind);
    task(
        alloc, &open, &behind, &within, bound.next, &body.task, types,
    )
}

#[cycle(task)]
fn and_form(
    alloc: Global,
    calls: &Calls,
    later: &LaterBodies,
    scope: &Names,
    node: u64,
    a: &Task,
    b: &Task,
    types: &mut Row<Basic>,
) -> Result<Typed, CheckStop>
    ensures { ChecksTaskForm (calls_term calls.now) (scope_term scope.now) node
        (full_and (full_task later.now (task_term a.now)) (full_task later.now (task_term b.now)))
        (map basic_term types.old.list) (map basic_term types.new.list) result }
{
    let inner = next(node)?;
    let first = task(alloc, calls, later, scope, inner, a, types)?;
    let second = task(alloc, calls, later, scope, first.next, b, types)?;
    let basic = paired(alloc, first.basic, second.basic)?;
    Ok(Typed {
        basic,
        next: second.next,
    })
}

#[cycle(task)]
fn or_form(
    alloc: Global,
    calls: &Calls,
    later: &LaterBodies,
    scope: &Names,
    node: u64,
    a: &Task,
    b: &Task,
    types: &mut Row<Basic>,
) -> Result<Typed, CheckStop>
    ensures { ChecksTaskForm (calls_term calls.now) (scope_term scope.now) node
        (full_or (full_task later.now (task_term a.now)) (full_task later.now (task_term b.now)))
        (map basic_term types.old.list) (map basic_term types.new.list) result }
{
    let inner = next(node)?;
    let first = task(alloc, calls, later, scope, inner, a, types)?;
    let behind = wanted_task(
        alloc,
        calls,
        later,
        scope,
        first.next,
        b,
        &first.basic,
        types,
    )?;
    Ok(Typed {
        basic: first.basic,
        next: behind,
    })
}

#[cycle(task)]
fn xor_form(
    alloc: Global,
    calls: &Calls,
    later: &LaterBodies,
    scope: &Names,
    node: u64,
    left: u32,
    right: u32,
    types: &mut Row<Basic>,
) -> Result<Typed, CheckStop>
    ensures { ChecksTaskForm (calls_term calls.now) (scope_term scope.now) node
        (sides_of (full_body_numbered later.now.first (later_bodies later.now) left)
        (full_body_numbered later.now.first (later_bodies later.now) right))
        (map basic_term types.old.list) (map basic_term types.new.list) result }
{
    let Some(
        NumberedBody {
            body: one,
            later: behind_one,
        },
    ) = later.numbered(left)
    else {
        return fault(node, TypeKind::UnknownName);
    };
    let Some(
        NumberedBody {
            body: two,
            later: behind_two,
        },
    ) = later.numbered(right)
    else {
        return fault(node, TypeKind::UnknownName);
    };
    let inner = next(node)?;
    let open = Calls {
        definitions: calls.definitions,
        below: None,
    };
    let side = task(alloc, &open, &behind_one, scope, inner, &one.task, types)?;
    let behind = wanted_task(
        alloc,
        &open,
        &behind_two,
        scope,
        side.next,
        &two.task,
        &side.basic,
        types,
    )?;
    Ok(Typed {
        basic: side.basic,
        next: behind,
    })
}

// A name that is bound to an expression, in the task behind it.
#[cycle(task)]
fn binding_form(
    alloc: Global,
    calls: &Calls,
    later: &LaterBodies,
    scope: &Names,
    node: u64,
    to: BoundTo,
    name: &TaskText,
    e: &Host,
    rest: &Task,
    types: &mut Row<Basic>,
) -> Result<Typed, CheckStop>
    ensures { ChecksTaskForm (calls_term calls.now) (scope_term scope.now) node
        (bound_form to name.now (host_term e.now) (full_task later.now (task_term rest.now)))
        (map basic_term types.old.list) (map basic_term types.new.list) result }
{
    room_for_name(scope, node)?;
    let inner = next(node)?;
    let bound = expression(alloc, calls, scope, inner, e)?;
    let kind = to.kind(bound.basic);
    let within = (&*scope).with(&*name, &kind);
    task(alloc, calls, later, &within, bound.next, rest, types)
}

#[cycle(task)]
fn if_form(
    alloc: Global,
    calls: &Calls,
    later: &LaterBodies,
    scope: &Names,
    node: u64,
    test: &Host,
    yes: &Task,
    no: &Task,
    types: &mut Row<Basic>,
) -> Result<Typed, CheckStop>
    ensures { ChecksTaskForm (calls_term calls.now) (scope_term scope.now) node
        (full_if (host_term test.now) (full_task later.now (task_term yes.now)) (full_task later.now (task_term no.now)))
        (map basic_term types.old.list) (map basic_term types.new.list) result }
{
    let inner = next(node)?;
    let behind = wanted_expression(alloc, calls, scope, inner, test, &Basic::Bool)?;
    let first = task(alloc, calls, later, scope, behind, yes, types)?;
    let behind = wanted_task(
        alloc,
        calls,
        later,
        scope,
        first.next,
        no,
        &first.basic,
        types,
    )?;
    Ok(Typed {
        basic: first.basic,
        next: behind,
    })
}

#[cycle(task)]
fn case_form(
    alloc: Global,
    calls: &Calls,
    later: &LaterBodies,
    scope: &Names,
    node: u64,
    list: &Host,
    empty: &Task,
    head: &TaskText,
    tail: &TaskText,
    more: &Task,
    types: &mut Row<Basic>,
) -> Result<Typed, CheckStop>
    ensures { ChecksTaskForm (calls_term calls.now) (scope_term scope.now) node
        (full_case (host_term list.now) (full_task later.now (task_term empty.now)) head.now tail.now
        (full_task later.now (task_term more.now))) (map basic_term types.old.list) (map basic_term types.new.list) result }
{
    room_for_two(scope, node, head, tail)?;
    let inner = next(node)?;
    let listed = expression(alloc, calls, scope, inner, list)?;
    let item = copy_basic(item(inner, &listed.basic)?)?;
    let first = task(alloc, calls, later, scope, listed.next, empty, types)?;
    let head_kind = Kind::Plain(item);
    let tail_kind = Kind::Plain(listed.basic);
    let outer = (&*scope).with(&*head, &head_kind);
    let within = outer.with(&*tail, &tail_kind);
    let behind = wanted_task(
        alloc,
        calls,
        later,
        &within,
        first.next,
        more,
        &first.basic,
        types,
    )?;
    Ok(Typed {
        basic: first.basic,
        next: behind,
    })
}

#[cycle(task)]
fn put_form(
    alloc: Global,
    calls: &Calls,
    later: &LaterBodies,
    scope: &Names,
    node: u64,
    name: &TaskText,
    e: &Host,
    rest: &Task,
    types: &mut Row<Basic>,
) -> Result<Typed, CheckStop>
    ensures { ChecksTaskForm (calls_term calls.now) (scope_term scope.now) node
        (full_put name.now (host_term e.now) (full_task later.now (task_term rest.now)))
        (map basic_term types.old.list) (map basic_term types.new.list) result }
{
    let want = place_named(scope, node, name)?;
    let inner = next(node)?;
    let behind = wanted_expression(alloc, calls, scope, inner, e, want)?;
    task(alloc, calls, later, scope, behind, rest, types)
}
