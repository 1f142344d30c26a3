ghost use Rattle.std.specs.Prelude.{◌≡◌, ◌∷◌, ◌++◌, map, take, IfOk, IsSome, Some};
ghost use Rattle.task_model.specs.Syntax.Characters.{cut_text};
ghost use Rattle.task_model.specs.Terms.Value.{text_value, value_term};
ghost use Rattle.task_model.specs.Running.Operators as rules;
ghost use Rattle.host_eval.specs.ValueWords as words;

use crate::characters::{characters, cut_join};
use crate::unary::Unary;
use std::alloc::Global;
use task_model::{
    Elements, LIST_ELEMENT_LIMIT, Op, OutOfMemory, Row, TaskText, Value, copy_value, same_value,
};

/// What a form with one operand gives.
pub fn computed(form: Unary, v: &Value) -> Result<Value, OutOfMemory>
    requires fits { IsSome (words.computed form (value_term v.now)) }
    ensures { IfOk result (λ w. words.computed form (value_term v.now) ≡ Some (value_term w)) }
{
    match form {
        Unary::Neg => Ok(negated(v)),
        Unary::Not => Ok(opposite(v)),
        Unary::First => first_of(v),
        Unary::Second => second_of(v),
        Unary::Length => Ok(length_of(v)),
    }
}

fn negated(v: &Value) -> Value
    requires fits { IsSome (rules.negated (value_term v.now)) }
    ensures { rules.negated (value_term v.now) ≡ Some (value_term result) }
{
    match v {
        Value::Int(i) => Value::Int(0i64.saturating_sub(*i)),
        _ => unreachable!(),
    }
}

fn opposite(v: &Value) -> Value
    requires fits { IsSome (rules.opposite (value_term v.now)) }
    ensures { rules.opposite (value_term v.now) ≡ Some (value_term result) }
{
    match v {
        Value::Bool(b) => Value::Bool(!*b),
        _ => unreachable!(),
    }
}

fn first_of(v: &Value) -> Result<Value, OutOfMemory>
    requires fits { IsSome (rules.first_of (value_term v.now)) }
    ensures { IfOk result (λ w. rules.first_of (value_term v.now) ≡ Some (value_term w)) }
{
    match v {
        Value::Pair(first, _) => copy_value(first),
        _ => unreachable!(),
    }
}

fn second_of(v: &Value) -> Result<Value, OutOfMemory>
    requires fits { IsSome (rules.second_of (value_term v.now)) }
    ensures { IfOk result (λ w. rules.second_of (value_term v.now) ≡ Some (value_term w)) }
{
    match v {
        Value::Pair(_, second) => copy_value(second),
        _ => unreachable!(),
    }
}

fn length_of(v: &Value) -> Value
    requires fits { IsSome (rules.length_of (value_term v.now)) }
    ensures { rules.length_of (value_term v.now) ≡ Some (value_term result) }
{
    match v {
        Value::Text(text) => Value::Int(characters(text.as_str()) as i64),
        Value::List(items) => Value::Int(items.as_slice().len() as i64),
        _ => unreachable!(),
    }
}

/// The side that leaves nothing open of an operator that may need its left side alone.
pub fn decider(op: Op) -> Option<bool>
    ensures { result ≡ words.decider op }
{
    match op {
        Op::Or => Some(true),
        Op::And => Some(false),
        Op::Eq => None,
        Op::Ne => None,
        Op::Lt => None,
        Op::Le => None,
        Op::Gt => None,
        Op::Ge => None,
        Op::Cons => None,
        Op::Add => None,
        Op::Sub => None,
        Op::Join => None,
        Op::Mul => None,
        Op::Quot => None,
        Op::Rem => None,
    }
}

/// What an operator gives whose operands are both evaluated.
pub fn operated(alloc: Global, op: Op, v: &Value, w: &Value) -> Result<Value, OutOfMemory>
    requires fits { IsSome (rules.operated op (value_term v.now) (value_term w.now)) }
    ensures { IfOk result (λ x. rules.operated op (value_term v.now) (value_term w.now) ≡ Some (value_term x)) }
{
    match op {
        Op::Eq => Ok(Value::Bool(same_value(v, w))),
        Op::Ne => Ok(Value::Bool(!same_value(v, w))),
        Op::Cons => consed(alloc, v, w),
        Op::Join => joined_texts(alloc, v, w),
        Op::Or => unreachable!(),
        Op::And => unreachable!(),
        Op::Lt => Ok(on_ints(Op::Lt, v, w)),
        Op::Le => Ok(on_ints(Op::Le, v, w)),
        Op::Gt => Ok(on_ints(Op::Gt, v, w)),
        Op::Ge => Ok(on_ints(Op::Ge, v, w)),
        Op::Add => Ok(on_ints(Op::Add, v, w)),
        Op::Sub => Ok(on_ints(Op::Sub, v, w)),
        Op::Mul => Ok(on_ints(Op::Mul, v, w)),
        Op::Quot => Ok(on_ints(Op::Quot, v, w)),
        Op::Rem => Ok(on_ints(Op::Rem, v, w)),
    }
}

fn consed(alloc: Global, v: &Value, w: &Value) -> Result<Value, OutOfMemory>
    requires fits { IsSome (rules.consed (value_term v.now) (value_term w.now)) }
    ensures { IfOk result (λ x. rules.consed (value_term v.now) (value_term w.now) ≡ Some (value_term x)) }
{
    match w {
        Value::List(items) => Ok(prepended(alloc, v, items.as_slice())?),
        _ => unreachable!(),
    }
}

// A value and others as a list value.
fn prepended(alloc: Global, v: &Value, items: &[Value]) -> Result<Value, OutOfMemory>
    ensures { IfOk result (λ w. value_term w ≡ rules.list_of (value_term v.now ∷ map value_term items.now)) }
{
    let kept = kept_behind_one(items);
    let mut all = Row::new(alloc);
    all.reserve(kept.len() + 1)?;
    all.push(copy_value(v)?)?;
    for item in kept {
        all.push(copy_value(item)?)?;
    }
    list_of(alloc, all)
}

// Those that a list keeps behind one in front of all.
fn kept_behind_one(items: &[Value]) -> &[Value]
    ensures { result.now ≡ take 1023 items.now }
{
    if items.len() < LIST_ELEMENT_LIMIT {
        return items;
    }
    &items[..LIST_ELEMENT_LIMIT - 1]
}

/// Values as a list value, of which the first 1,024 are kept.
pub fn list_of(alloc: Global, mut items: Row<Value>) -> Result<Value, OutOfMemory>
    ensures { IfOk result (λ w. value_term w ≡ rules.list_of (map value_term items.list)) }
{
    items.truncate(LIST_ELEMENT_LIMIT);
    Ok(Value::List(Elements::of(alloc, items)?))
}

fn joined_texts(alloc: Global, v: &Value, w: &Value) -> Result<Value, OutOfMemory>
    requires fits { IsSome (rules.joined_texts (value_term v.now) (value_term w.now)) }
    ensures { IfOk result (λ x. rules.joined_texts (value_term v.now) (value_term w.now) ≡ Some (value_term x)) }
{
    match (v, w) {
        (Value::Text(t), Value::Text(u)) => joined(alloc, t, u),
        _ => unreachable!(),
    }
}

fn joined(alloc: Global, t: &TaskText, u: &TaskText) -> Result<Value, OutOfMemory>
    ensures { IfOk result (λ v. value_term v ≡ text_value (cut_text (t.now ++ u.now))) }
{
    let text = cut_join(alloc, t.as_str(), u.as_str())?;
    Ok(Value::Text(text))
}

fn on_ints(op: Op, v: &Value, w: &Value) -> Value
    requires fits { IsSome (rules.on_ints op (value_term v.now) (value_term w.now)) }
    ensures { rules.on_ints op (value_term v.now) (value_term w.now) ≡ Some (value_term result) }
{
    match (v, w) {
        (Value::Int(i), Value::Int(j)) => int_operated(op, *i, *j),
        _ => unreachable!(),
    }
}

fn int_operated(op: Op, i: i64, j: i64) -> Value
    requires fits { IsSome (rules.int_operated op i j) }
    ensures { rules.int_operated op i j ≡ Some (value_term result) }
{
    match op {
        Op::Lt => Value::Bool(i < j),
        Op::Le => Value::Bool(i <= j),
        Op::Gt => Value::Bool(i > j),
        Op::Ge => Value::Bool(i >= j),
        Op::Add => Value::Int(i.saturating_add(j)),
        Op::Sub => Value::Int(i.saturating_sub(j)),
        Op::Mul => Value::Int(i.saturating_mul(j)),
        Op::Quot => quotient(i, j),
        Op::Rem => remainder(i, j),
        Op::Or => unreachable!(),
        Op::And => unreachable!(),
        Op::Eq => unreachable!(),
        Op::Ne => unreachable!(),
        Op::Cons => unreachable!(),
        Op::Join => unreachable!(),
    }
}

fn quotient(i: i64, j: i64) -> Value
    ensures { value_term result ≡ rules.quotient i j }
{
    if j == 0 {
        Value::Int(0)
    } else {
        Value::Int(i.saturating_div(j))
    }
}

fn remainder(i: i64, j: i64) -> Value
    ensures { value_term result ≡ rules.remainder i j }
{
    if j == 0 {
        Value::Int(0)
    } else {
        Value::Int(i.wrapping_rem(j))
    }
}
