ghost use Rattle.std.specs.Prelude.{◌≡◌, MatchResult, IfOk};
ghost use Rattle.task_model.specs.Terms.Basic.{basic_term, pair_type, list_type};
ghost use Rattle.task_model.specs.Checking.TypeOf.{operator_type};
ghost use Rattle.task_model.specs.Checking.Demands.{left_operand, right_operand};
ghost use Rattle.host_types.specs.Words.{unary_operand, unary_type};
ghost use Rattle.task_model.specs.Checking.TypeFault.{IsMet};
ghost use Rattle.host_types.specs.Answer.{IsStop, HasBasic};

use crate::compare::compared;
use crate::fault::CheckStop;
use crate::lookups::{first_type, item, measurable, second_type};
use std::alloc::Global;
use task_model::{Basic, Op, OutOfMemory, TypeKind, copy_basic, shared};

/// An operator with one operand.
#[derive(Clone, Copy, Debug, PartialEq, Eq)]
pub(crate) enum Unary {
    Neg,
    Not,
    First,
    Second,
    Length,
}

/// What an operator with one operand of this type gives.
pub(crate) fn applied(form: Unary, node: u64, basic: Basic) -> Result<Basic, CheckStop>
    ensures { MatchResult result (HasBasic (unary_operand form node (basic_term basic)) (unary_type form (basic_term basic)))
        (IsStop (unary_operand form node (basic_term basic))) }
{
    match form {
        Unary::Neg => {
            compared(node, &Basic::Int, &basic)?;
            Ok(Basic::Int)
        }
        Unary::Not => {
            compared(node, &Basic::Bool, &basic)?;
            Ok(Basic::Bool)
        }
        Unary::First => first_type(node, &basic),
        Unary::Second => second_type(node, &basic),
        Unary::Length => {
            measurable(node, &basic)?;
            Ok(Basic::Int)
        }
    }
}

/// What is wanted of the left operand.
pub(crate) fn left(op: Op, node: u64, basic: &Basic) -> Result<(), CheckStop>
    ensures { MatchResult result (λ _. IsMet (left_operand op node (basic_term basic.now)))
        (IsStop (left_operand op node (basic_term basic.now))) }
{
    match op {
        Op::Eq => Ok(()),
        Op::Ne => Ok(()),
        Op::Cons => Ok(()),
        Op::Or => compared(node, &Basic::Bool, basic),
        Op::And => compared(node, &Basic::Bool, basic),
        Op::Join => compared(node, &Basic::Text, basic),
        _ => compared(node, &Basic::Int, basic),
    }
}

/// What is wanted of the right operand, where the left one has that type.
pub(crate) fn right(
    alloc: Global,
    op: Op,
    node: u64,
    left: &Basic,
    basic: &Basic,
) -> Result<(), CheckStop>
    ensures { MatchResult result (λ _. IsMet (right_operand op node (basic_term left.now) (basic_term basic.now)))
        (IsStop (right_operand op node (basic_term left.now) (basic_term basic.now))) }
{
    match op {
        Op::Eq => compared(node, left, basic),
        Op::Ne => compared(node, left, basic),
        Op::Cons => consed(alloc, node, left, basic),
        Op::Or => compared(node, &Basic::Bool, basic),
        Op::And => compared(node, &Basic::Bool, basic),
        Op::Join => compared(node, &Basic::Text, basic),
        _ => compared(node, &Basic::Int, basic),
    }
}

fn consed(alloc: Global, node: u64, head: &Basic, list: &Basic) -> Result<(), CheckStop>
    ensures { MatchResult result (λ _. IsMet (right_operand Op.Cons node (basic_term head.now) (basic_term list.now)))
        (IsStop (right_operand Op.Cons node (basic_term head.now) (basic_term list.now))) }
{
    item(node, list)?;
    let want = listed(alloc, head)?;
    compared(node, &want, list)
}

/// The type of lists of these.
pub(crate) fn listed(alloc: Global, item: &Basic) -> Result<Basic, OutOfMemory>
    ensures { IfOk result (λ b. basic_term b ≡ list_type (basic_term item.now)) }
{
    let item = copy_basic(item)?;
    Ok(Basic::List(shared(alloc, item)?))
}

pub(crate) fn paired(alloc: Global, a: Basic, b: Basic) -> Result<Basic, OutOfMemory>
    ensures { IfOk result (λ p. basic_term p ≡ pair_type (basic_term a) (basic_term b)) }
{
    Ok(Basic::Pair(shared(alloc, a)?, shared(alloc, b)?))
}

/// The type of an operation, where the right operand has this one.
pub(crate) fn operated(op: Op, right: Basic) -> Basic
    ensures { basic_term result ≡ operator_type op (basic_term right) }
{
    match op {
        Op::Add => Basic::Int,
        Op::Sub => Basic::Int,
        Op::Mul => Basic::Int,
        Op::Quot => Basic::Int,
        Op::Rem => Basic::Int,
        Op::Join => Basic::Text,
        Op::Cons => right,
        _ => Basic::Bool,
    }
}
