ghost use Rattle.std.specs.Prelude.{◌≡◌, length, map, MatchResult};
ghost use Rattle.task_model.specs.Terms.Basic.{basic_term, list_type};
ghost use Rattle.task_model.specs.Checking.TypeParts.{first_part, second_part};
ghost use Rattle.task_model.specs.Checking.Names.{kind_in, named_type, called_definition};
ghost use Rattle.task_model.specs.Checking.TypeFault.{◌⨾◌, value_name, ref_name, is_pair, is_list, has_length, IsMet};
ghost use Rattle.task_model.specs.Checking.Demands.{has_place, two_names};
ghost use Rattle.task_model.specs.Terms.Program.{param_term};
ghost use Rattle.task_model.specs.Checking.TypeKind.{type_kind_term};
ghost use Rattle.host_types.specs.Words.{call_of, open_with};
ghost use Rattle.host_types.specs.Seen.{scope_term, calls_term};
ghost use Rattle.host_types.specs.Answer.{IsStop, HasBasic, HasHead};

use crate::calls::{Callee, Calls, is_open};
use crate::definitions::Found;
use crate::fault::CheckStop;
use crate::names::{Names, found, has_at_most};
use task_model::{Basic, Def, DefBody, Kind, SCOPE_NAME_LIMIT, TaskText, TypeKind, copy_basic};

pub(crate) fn fault<T: Drop>(node: u64, kind: TypeKind) -> Result<T, CheckStop>
    ensures { result ≡ Err (CheckStop.Fault node kind) }
{
    Err(CheckStop::Fault { node, kind })
}

/// The type of the value that a name stands for.
pub(crate) fn value_named(scope: &Names, node: u64, name: &TaskText) -> Result<Basic, CheckStop>
    ensures { MatchResult result
        (HasBasic (value_name node (kind_in (scope_term scope.now) name.now)) (named_type (kind_in (scope_term scope.now) name.now)))
        (IsStop (value_name node (kind_in (scope_term scope.now) name.now))) }
{
    match found(scope, name) {
        None => fault(node, TypeKind::UnknownName),
        Some(Kind::Ref(_)) => fault(node, TypeKind::RefInValue),
        Some(Kind::Plain(basic)) => Ok(copy_basic(basic)?),
    }
}

/// The type at the place that a name stands for.
pub(crate) fn place_named<'s>(
    scope: &Names<'s>,
    node: u64,
    name: &TaskText,
) -> Result<&'s Basic, CheckStop>
    ensures { MatchResult result
        (λ b. HasBasic (ref_name node (kind_in (scope_term scope.now) name.now))
        (named_type (kind_in (scope_term scope.now) name.now)) b.now)
        (IsStop (ref_name node (kind_in (scope_term scope.now) name.now))) }
{
    match found(scope, name) {
        None => fault(node, TypeKind::UnknownName),
        Some(Kind::Plain(_)) => fault(node, TypeKind::NotRef),
        Some(Kind::Ref(basic)) => Ok(basic),
    }
}

/// There is room for one name more.
pub(crate) fn room_for_name(scope: &Names, node: u64) -> Result<(), CheckStop>
    ensures { MatchResult result (λ _. IsMet (has_place node (scope_term scope.now) 1)) (IsStop (has_place node (scope_term scope.now) 1)) }
{
    if has_at_most(scope, SCOPE_NAME_LIMIT - 1) {
        Ok(())
    } else {
        fault(node, TypeKind::TooManyNames)
    }
}

/// The two names differ, and there is room for them.
pub(crate) fn room_for_two(
    scope: &Names,
    node: u64,
    head: &TaskText,
    tail: &TaskText,
) -> Result<(), CheckStop>
    ensures { MatchResult result
        (λ _. IsMet (two_names node head.now tail.now ⨾ has_place node (scope_term scope.now) 2))
        (IsStop (two_names node head.now tail.now ⨾ has_place node (scope_term scope.now) 2)) }
{
    if head.is(tail) {
        fault(node, TypeKind::Duplicate)
    } else if has_at_most(scope, SCOPE_NAME_LIMIT - 2) {
        Ok(())
    } else {
        fault(node, TypeKind::TooManyNames)
    }
}

/// The function or the task that a call names, with so many arguments.
pub(crate) fn called<'p>(
    calls: &Calls<'p>,
    callee: Callee,
    node: u64,
    name: &TaskText,
    args: usize,
) -> Result<&'p Def, CheckStop>
    ensures { MatchResult result
        (λ d. HasHead (call_of callee node (calls_term calls.now).below args (called_definition (calls_term calls.now) name.now))
        (called_definition (calls_term calls.now) name.now) d.now)
        (IsStop (call_of callee node (calls_term calls.now).below args (called_definition (calls_term calls.now) name.now))) }
{
    let Some(found) = calls.definitions.named(name) else {
        return fault(node, TypeKind::UnknownName);
    };
    match (callee, &found.def.what) {
        (Callee::Function, DefBody::Fun(_)) => {
            admitted(calls, &found, node, args, TypeKind::LaterCall)
        }
        (Callee::Task, DefBody::Task(_)) => {
            admitted(calls, &found, node, args, TypeKind::Unguarded)
        }
        _ => fault(node, TypeKind::UnknownName),
    }
}

/// A definition that may be called, or else that fault, with so many parameters as arguments.
fn admitted<'p>(
    calls: &Calls<'p>,
    found: &Found<'p>,
    node: u64,
    args: usize,
    closed: TypeKind,
) -> Result<&'p Def, CheckStop>
    ensures { MatchResult result
        (λ d. IsMet (open_with node (calls_term calls.now).below found.now.index (length (map param_term found.now.def.now.params.list))
        args (type_kind_term closed)) × (d.now ≡ found.now.def.now))
        (IsStop (open_with node (calls_term calls.now).below found.now.index (length (map param_term found.now.def.now.params.list))
        args (type_kind_term closed))) }
{
    if !is_open(calls.below, found.index) {
        return fault(node, closed);
    }
    let params = found.def.params.as_slice().len();
    if params == args {
        Ok(found.def)
    } else {
        fault(node, arity(params, args))
    }
}

pub(crate) fn arity(want: usize, got: usize) -> TypeKind
    ensures { result ≡ TypeKind.Arity want got }
{
    TypeKind::Arity {
        want: want as u64,
        got: got as u64,
    }
}

/// The type of a pair's first part.
pub(crate) fn first_type(node: u64, basic: &Basic) -> Result<Basic, CheckStop>
    ensures { MatchResult result
        (HasBasic (is_pair node (basic_term basic.now)) (first_part (basic_term basic.now)))
        (IsStop (is_pair node (basic_term basic.now))) }
{
    match basic {
        Basic::Pair(first, _) => Ok(copy_basic(first)?),
        _ => fault(node, TypeKind::NotPair),
    }
}

/// The type of a pair's second part.
pub(crate) fn second_type(node: u64, basic: &Basic) -> Result<Basic, CheckStop>
    ensures { MatchResult result
        (HasBasic (is_pair node (basic_term basic.now)) (second_part (basic_term basic.now)))
        (IsStop (is_pair node (basic_term basic.now))) }
{
    match basic {
        Basic::Pair(_, second) => Ok(copy_basic(second)?),
        _ => fault(node, TypeKind::NotPair),
    }
}

/// The type of a list's elements.
pub(crate) fn item(node: u64, basic: &Basic) -> Result<&Basic, CheckStop>
    ensures { MatchResult result
        (λ r. IsMet (is_list node (basic_term basic.now)) × (basic_term basic.now ≡ list_type (basic_term r.now)))
        (IsStop (is_list node (basic_term basic.now))) }
{
    match basic {
        Basic::List(item) => Ok(item),
        _ => fault(node, TypeKind::NotList),
    }
}

/// `len` takes a list or a text.
pub(crate) fn measurable(node: u64, basic: &Basic) -> Result<(), CheckStop>
    ensures { MatchResult result (λ _. IsMet (has_length node (basic_term basic.now))) (IsStop (has_length node (basic_term basic.now))) }
{
    match basic {
        Basic::List(_) => Ok(()),
        Basic::Text => Ok(()),
        _ => fault(node, TypeKind::NotList),
    }
}
