ghost use Rattle.std.specs.Prelude.{◌≡◌, [], map, true, IfOk, OnOk};
ghost use Rattle.task_model.specs.Terms.Value.{text_value, pair_value, value_term, value_has};
ghost use Rattle.task_model.specs.Terms.Env.{slot_term};
ghost use Rattle.task_model.specs.Terms.Host.{as_exprs, host_term, call_expr, pair_expr, list_expr, let_expr, if_expr, case_expr};
ghost use Rattle.task_model.specs.Terms.Program.{kind_term, param_term};
ghost use Rattle.task_model.specs.Checking.Accepted.{IsAccepted};
ghost use Rattle.task_model.specs.Running.Checked.{checked_term};
ghost use Rattle.task_model.specs.Running.Plan.{gives_value, give, ask, known};
ghost use Rattle.task_model.specs.Running.Rules.{value_rule, op_rule, slot_for, slots_for, values_for};
ghost use Rattle.task_model.specs.Running.Judgements.{Gives};
ghost use Rattle.task_model.specs.Running.Spends.{Spends};
ghost use Rattle.task_model.specs.Syntax.Calls.{RunsJudgement, RunsPlan};
ghost use Rattle.typing_laws.specs.Assumed.{Typing, ExpressionFits};
ghost use Rattle.typing_laws.specs.Well.{MayAsk, Well};
ghost use Rattle.host_eval.specs.NamesTerm.{IsPaired, names_term};
ghost use Rattle.host_eval.specs.ValueWords.{computed, lazy_plan, strict_plan, call_plan};

use crate::definitions::Definitions;
use crate::head_and_tail::HeadAndTail;
use crate::lookups::{callee, place_slot, truth, value_named, value_read};
use crate::names::Names;
use crate::operators::{computed, decider, list_of, operated};
use crate::unary::Unary;
use std::alloc::Global;
use task_model::{
    Elements, Host, Kind, Op, OutOfMemory, Param, Purse, Reads, Row, Slot, Stop, TaskText, Value,
    copy_text, shared,
};

/// The value of an expression. `Over` comes where no derivation is within the purse.
pub fn eval<R: Reads>(
    alloc: Global,
    definitions: &Definitions,
    e: &Host,
    names: &Names,
    reads: &R,
    purse: &mut Purse,
) -> Result<Value, Stop>
    requires fits { MayAsk (checked_term definitions.now) (gives_value (host_term e.now) (names_term names.now) (R.values reads.now)) }
    ensures spends { Spends (Gives (checked_term definitions.now) (host_term e.now) (names_term names.now) (R.values reads.now))
        value_term purse.old purse.new result }
    ensures typed { (i : Typing)
        → ExpressionFits (checked_term definitions.now) i (host_term e.now) (names_term names.now) (R.values reads.now)
        → IfOk result (λ v. value_has (value_term v) i.type ≡ true) }
{
    // Its program is accepted.
    let _accepted = definitions.checked().program();
    value_at(alloc, definitions, e, names, reads, purse)
}

/// The same within an evaluation, at the height that the purse has left.
#[cycle(value)]
pub fn value_at<R: Reads>(
    alloc: Global,
    definitions: &Definitions,
    e: &Host,
    names: &Names,
    reads: &R,
    purse: &mut Purse,
) -> Result<Value, Stop>
    requires accepted { IsAccepted (checked_term definitions.now) }
    requires may { MayAsk (checked_term definitions.now) (gives_value (host_term e.now) (names_term names.now) (R.values reads.now)) }
    ensures height { OnOk result (purse.new.height ≡ purse.old.height) }
    ensures asked { RunsJudgement (checked_term definitions.now) (gives_value (host_term e.now) (names_term names.now) (R.values reads.now))
        value_term purse.old purse.new result }
{
    let height = purse.height_left();
    purse.enter()?;
    let v = value_form(alloc, definitions, e, names, reads, purse)?;
    purse.leave(height);
    Ok(v)
}

// One form, under its rule.
#[cycle(value)]
fn value_form<R: Reads>(
    alloc: Global,
    definitions: &Definitions,
    e: &Host,
    names: &Names,
    reads: &R,
    purse: &mut Purse,
) -> Result<Value, Stop>
    requires accepted { IsAccepted (checked_term definitions.now) }
    requires may { MayAsk (checked_term definitions.now) (gives_value (host_term e.now) (names_term names.now) (R.values reads.now)) }
    ensures height { OnOk result (purse.new.height ≡ purse.old.height) }
    ensures ran { RunsPlan (checked_term definitions.now)
        (value_rule (checked_term definitions.now) (host_term e.now) (names_term names.now)
        (R.values reads.now)) value_term purse.old purse.new result }
{
    match e {
        Host::Unit => Ok(Value::Unit),
        Host::Bool(b) => Ok(Value::Bool(*b)),
        Host::Int(i) => Ok(Value::Int(*i)),
        Host::Text(text) => Ok(text_value(text)?),
        Host::Name(name) => Ok(value_named(names, name)?),
        Host::Read(name) => Ok(value_read(names, name, reads)?),
        Host::Call { name, args } => {
            call_form(
                alloc,
                definitions,
                name,
                args.as_slice(),
                names,
                reads,
                purse,
            )
        }
        Host::Pair(a, b) => pair_form(alloc, definitions, a, b, names, reads, purse),
        Host::List(items) => list_form(alloc, definitions, items.as_slice(), names, reads, purse),
        Host::Nil(_) => Ok(Value::List(Elements::of(alloc, Row::new(alloc))?)),
        Host::Neg(a) => unary_form(alloc, definitions, Unary::Neg, a, names, reads, purse),
        Host::Not(a) => unary_form(alloc, definitions, Unary::Not, a, names, reads, purse),
        Host::Fst(a) => unary_form(alloc, definitions, Unary::First, a, names, reads, purse),
        Host::Snd(a) => unary_form(alloc, definitions, Unary::Second, a, names, reads, purse),
        Host::Len(a) => unary_form(alloc, definitions, Unary::Length, a, names, reads, purse),
        Host::Op { op, left, right } => {
            op_form(alloc, definitions, *op, left, right, names, reads, purse)
        }
        Host::Let { name, bound, rest } => {
            let_form(alloc, definitions, name, bound, rest, names, reads, purse)
        }
        Host::If { test, yes, no } => if_form(
            alloc,
            definitions,
            test,
            yes,
            no,
            names,
            reads,
            purse,
        ),
        Host::Case {
            list,
            empty,
            head,
            tail,
            more,
        } => case_form(
            alloc,
            definitions,
            list,
            empty,
            head,
            tail,
            more,
            names,
            reads,
            purse,
        ),
    }
}

fn text_value(text: &TaskText) -> Result<Value, OutOfMemory>
    ensures { IfOk result (λ v. value_term v ≡ text_value text.now) }
{
    Ok(Value::Text(copy_text(text)?))
}

#[cycle(value)]
fn pair_form<R: Reads>(
    alloc: Global,
    definitions: &Definitions,
    a: &Host,
    b: &Host,
    names: &Names,
    reads: &R,
    purse: &mut Purse,
) -> Result<Value, Stop>
    requires accepted { IsAccepted (checked_term definitions.now) }
    requires well { Well (checked_term definitions.now)
        (value_rule (checked_term definitions.now) (pair_expr (host_term a.now) (host_term b.now))
        (names_term names.now) (R.values reads.now)) }
    ensures height { OnOk result (purse.new.height ≡ purse.old.height) }
    ensures ran { RunsPlan (checked_term definitions.now)
        (value_rule (checked_term definitions.now) (pair_expr (host_term a.now) (host_term b.now))
        (names_term names.now) (R.values reads.now)) value_term purse.old purse.new result }
{
    let v = value_at(alloc, definitions, a, names, reads, purse)?;
    let w = value_at(alloc, definitions, b, names, reads, purse)?;
    Ok(paired(alloc, v, w)?)
}

fn paired(alloc: Global, v: Value, w: Value) -> Result<Value, OutOfMemory>
    ensures { IfOk result (λ p. value_term p ≡ pair_value (value_term v) (value_term w)) }
{
    let v = shared(alloc, v)?;
    Ok(Value::Pair(v, shared(alloc, w)?))
}

#[cycle(value)]
fn unary_form<R: Reads>(
    alloc: Global,
    definitions: &Definitions,
    form: Unary,
    a: &Host,
    names: &Names,
    reads: &R,
    purse: &mut Purse,
) -> Result<Value, Stop>
    requires accepted { IsAccepted (checked_term definitions.now) }
    requires well { Well (checked_term definitions.now) (ask (gives_value (host_term a.now) (names_term names.now) (R.values reads.now))
        (λ v. known (computed form v) give)) }
    ensures height { OnOk result (purse.new.height ≡ purse.old.height) }
    ensures ran { RunsPlan (checked_term definitions.now) (ask (gives_value (host_term a.now) (names_term names.now) (R.values reads.now))
        (λ v. known (computed form v) give)) value_term purse.old purse.new result }
{
    let v = value_at(alloc, definitions, a, names, reads, purse)?;
    Ok(computed(form, &v)?)
}

#[cycle(value)]
fn op_form<R: Reads>(
    alloc: Global,
    definitions: &Definitions,
    op: Op,
    a: &Host,
    b: &Host,
    names: &Names,
    reads: &R,
    purse: &mut Purse,
) -> Result<Value, Stop>
    requires accepted { IsAccepted (checked_term definitions.now) }
    requires well { Well (checked_term definitions.now) (op_rule (checked_term definitions.now) op (host_term a.now) (host_term b.now)
        (names_term names.now) (R.values reads.now)) }
    ensures height { OnOk result (purse.new.height ≡ purse.old.height) }
    ensures ran { RunsPlan (checked_term definitions.now) (op_rule (checked_term definitions.now) op (host_term a.now) (host_term b.now)
        (names_term names.now) (R.values reads.now)) value_term purse.old purse.new result }
{
    match decider(op) {
        Some(decided) => lazy_form(alloc, definitions, decided, a, b, names, reads, purse),
        None => strict_form(alloc, definitions, op, a, b, names, reads, purse),
    }
}

// An operator whose left side may decide.
#[cycle(value)]
fn lazy_form<R: Reads>(
    alloc: Global,
    definitions: &Definitions,
    decided: bool,
    a: &Host,
    b: &Host,
    names: &Names,
    reads: &R,
    purse: &mut Purse,
) -> Result<Value, Stop>
    requires accepted { IsAccepted (checked_term definitions.now) }
    requires well { Well (checked_term definitions.now) (lazy_plan decided (host_term a.now) (host_term b.now) (names_term names.now)
        (R.values reads.now)) }
    ensures height { OnOk result (purse.new.height ≡ purse.old.height) }
    ensures ran { RunsPlan (checked_term definitions.now) (lazy_plan decided (host_term a.now) (host_term b.now) (names_term names.now)
        (R.values reads.now)) value_term purse.old purse.new result }
{
    let v = value_at(alloc, definitions, a, names, reads, purse)?;
    let left = truth(&v);
    if left == decided {
        Ok(Value::Bool(decided))
    } else {
        value_at(alloc, definitions, b, names, reads, purse)
    }
}

#[cycle(value)]
fn strict_form<R: Reads>(
    alloc: Global,
    definitions: &Definitions,
    op: Op,
    a: &Host,
    b: &Host,
    names: &Names,
    reads: &R,
    purse: &mut Purse,
) -> Result<Value, Stop>
    requires accepted { IsAccepted (checked_term definitions.now) }
    requires well { Well (checked_term definitions.now) (strict_plan op (host_term a.now) (host_term b.now) (names_term names.now)
        (R.values reads.now)) }
    ensures height { OnOk result (purse.new.height ≡ purse.old.height) }
    ensures ran { RunsPlan (checked_term definitions.now) (strict_plan op (host_term a.now) (host_term b.now) (names_term names.now)
        (R.values reads.now)) value_term purse.old purse.new result }
{
    let v = value_at(alloc, definitions, a, names, reads, purse)?;
    let w = value_at(alloc, definitions, b, names, reads, purse)?;
    Ok(operated(alloc, op, &v, &w)?)
}

#[cycle(value)]
fn let_form<R: Reads>(
    alloc: Global,
    definitions: &Definitions,
    name: &TaskText,
    a: &Host,
    rest: &Host,
    names: &Names,
    reads: &R,
    purse: &mut Purse,
) -> Result<Value, Stop>
    requires accepted { IsAccepted (checked_term definitions.now) }
    requires well { Well (checked_term definitions.now) (value_rule (checked_term definitions.now)
        (let_expr name.now (host_term a.now) (host_term rest.now)) (names_term names.now) (R.values reads.now)) }
    ensures height { OnOk result (purse.new.height ≡ purse.old.height) }
    ensures ran { RunsPlan (checked_term definitions.now) (value_rule (checked_term definitions.now)
        (let_expr name.now (host_term a.now) (host_term rest.now)) (names_term names.now) (R.values reads.now))
        value_term purse.old purse.new result }
{
    let v = value_at(alloc, definitions, a, names, reads, purse)?;
    let slot = Slot::Plain(v);
    let inner = (&*names).with(&*name, &slot);
    value_at(alloc, definitions, rest, &inner, reads, purse)
}

#[cycle(value)]
fn if_form<R: Reads>(
    alloc: Global,
    definitions: &Definitions,
    test: &Host,
    yes: &Host,
    no: &Host,
    names: &Names,
    reads: &R,
    purse: &mut Purse,
) -> Result<Value, Stop>
    requires accepted { IsAccepted (checked_term definitions.now) }
    requires well { Well (checked_term definitions.now) (value_rule (checked_term definitions.now)
        (if_expr (host_term test.now) (host_term yes.now) (host_term no.now)) (names_term names.now) (R.values reads.now)) }
    ensures height { OnOk result (purse.new.height ≡ purse.old.height) }
    ensures ran { RunsPlan (checked_term definitions.now) (value_rule (checked_term definitions.now)
        (if_expr (host_term test.now) (host_term yes.now) (host_term no.now)) (names_term names.now) (R.values reads.now))
        value_term purse.old purse.new result }
{
    let v = value_at(alloc, definitions, test, names, reads, purse)?;
    let holds = truth(&v);
    if holds {
        value_at(alloc, definitions, yes, names, reads, purse)
    } else {
        value_at(alloc, definitions, no, names, reads, purse)
    }
}

#[cycle(value)]
fn case_form<R: Reads>(
    alloc: Global,
    definitions: &Definitions,
    list: &Host,
    empty: &Host,
    head: &TaskText,
    tail: &TaskText,
    more: &Host,
    names: &Names,
    reads: &R,
    purse: &mut Purse,
) -> Result<Value, Stop>
    requires accepted { IsAccepted (checked_term definitions.now) }
    requires well { Well (checked_term definitions.now) (value_rule (checked_term definitions.now)
        (case_expr (host_term list.now) (host_term empty.now) head.now tail.now (host_term more.now)) (names_term names.now)
        (R.values reads.now)) }
    ensures height { OnOk result (purse.new.height ≡ purse.old.height) }
    ensures ran { RunsPlan (checked_term definitions.now) (value_rule (checked_term definitions.now)
        (case_expr (host_term list.now) (host_term empty.now) head.now tail.now (host_term more.now)) (names_term names.now)
        (R.values reads.now)) value_term purse.old purse.new result }
{
    let v = value_at(alloc, definitions, list, names, reads, purse)?;
    let parts = HeadAndTail::of(&v)?;
    match parts {
        None => value_at(alloc, definitions, empty, names, reads, purse),
        Some(parts) => {
            let first = Slot::Plain(parts.head);
            let rest = Slot::Plain(parts.tail);
            let outer = (&*names).with(&*head, &first);
            let inner = outer.with(&*tail, &rest);
            value_at(alloc, definitions, more, &inner, reads, purse)
        }
    }
}

#[cycle(value)]
fn list_form<R: Reads>(
    alloc: Global,
    definitions: &Definitions,
    items: &[Host],
    names: &Names,
    reads: &R,
    purse: &mut Purse,
) -> Result<Value, Stop>
    requires accepted { IsAccepted (checked_term definitions.now) }
    requires well { Well (checked_term definitions.now)
        (value_rule (checked_term definitions.now) (list_expr (as_exprs (map host_term items.now)))
        (names_term names.now) (R.values reads.now)) }
    ensures height { OnOk result (purse.new.height ≡ purse.old.height) }
    ensures ran { RunsPlan (checked_term definitions.now) (value_rule (checked_term definitions.now)
        (list_expr (as_exprs (map host_term items.now))) (names_term names.now) (R.values reads.now)) value_term purse.old purse.new
        result }
{
    let values = values_at(alloc, definitions, items, names, reads, purse)?;
    Ok(list_of(alloc, values)?)
}

// Several expressions, in order.
#[cycle(value)]
fn values_at<R: Reads>(
    alloc: Global,
    definitions: &Definitions,
    items: &[Host],
    names: &Names,
    reads: &R,
    purse: &mut Purse,
) -> Result<Row<Value>, Stop>
    requires accepted { IsAccepted (checked_term definitions.now) }
    requires well { Well (checked_term definitions.now) (values_for (names_term names.now) (R.values reads.now) []
        (as_exprs (map host_term items.now))) }
    ensures height { OnOk result (purse.new.height ≡ purse.old.height) }
    ensures ran { RunsPlan (checked_term definitions.now) (values_for (names_term names.now) (R.values reads.now) []
        (as_exprs (map host_term items.now))) (λ r. map value_term r.list) purse.old purse.new result }
{
    let mut values = Row::new(alloc);
    values.reserve(items.len())?;
    let mut rest = items;
    while let [item, more @ ..] = rest {
        let v = value_at(alloc, definitions, item, names, reads, purse)?;
        values.push(v)?;
        rest = more;
    }
    Ok(values)
}

#[cycle(value)]
fn call_form<R: Reads>(
    alloc: Global,
    definitions: &Definitions,
    name: &TaskText,
    args: &[Host],
    names: &Names,
    reads: &R,
    purse: &mut Purse,
) -> Result<Value, Stop>
    requires accepted { IsAccepted (checked_term definitions.now) }
    requires well { Well (checked_term definitions.now) (value_rule (checked_term definitions.now)
        (call_expr name.now (as_exprs (map host_term args.now))) (names_term names.now) (R.values reads.now)) }
    requires paired { IsPaired (names_term names.now) }
    ensures height { OnOk result (purse.new.height ≡ purse.old.height) }
    ensures ran { RunsPlan (checked_term definitions.now) (value_rule (checked_term definitions.now)
        (call_expr name.now (as_exprs (map host_term args.now))) (names_term names.now) (R.values reads.now))
        value_term purse.old purse.new result }
{
    let (params, body) = callee(definitions, name);
    call_at(alloc, definitions, params, body, args, names, reads, purse)
}

// A call of a function, for one unit.
#[cycle(value)]
fn call_at<R: Reads>(
    alloc: Global,
    definitions: &Definitions,
    params: &[Param],
    body: &Host,
    args: &[Host],
    names: &Names,
    reads: &R,
    purse: &mut Purse,
) -> Result<Value, Stop>
    requires accepted { IsAccepted (checked_term definitions.now) }
    requires well { Well (checked_term definitions.now) (call_plan (host_term body.now) (map param_term params.now) (map host_term args.now)
        (names_term names.now) (R.values reads.now)) }
    requires paired { IsPaired (names_term names.now) }
    ensures height { OnOk result (purse.new.height ≡ purse.old.height) }
    ensures ran { RunsPlan (checked_term definitions.now)
        (call_plan (host_term body.now) (map param_term params.now) (map host_term args.now)
        (names_term names.now) (R.values reads.now)) value_term purse.old purse.new result }
{
    purse.spend()?;
    let slots = slots_at(alloc, definitions, args, params, names, reads, purse)?;
    let inner = Names::of_params(params, slots.as_slice(), 0);
    value_at(alloc, definitions, body, &inner, reads, purse)
}

/// The slots of arguments at parameters, in order.
#[cycle(value)]
pub fn slots_at<R: Reads>(
    alloc: Global,
    definitions: &Definitions,
    args: &[Host],
    params: &[Param],
    names: &Names,
    reads: &R,
    purse: &mut Purse,
) -> Result<Row<Slot>, Stop>
    requires accepted { IsAccepted (checked_term definitions.now) }
    requires well { Well (checked_term definitions.now) (slots_for (names_term names.now) (R.values reads.now) [] (map host_term args.now)
        (map param_term params.now)) }
    requires paired { IsPaired (names_term names.now) }
    ensures height { OnOk result (purse.new.height ≡ purse.old.height) }
    ensures ran { RunsPlan (checked_term definitions.now) (slots_for (names_term names.now) (R.values reads.now) [] (map host_term args.now)
        (map param_term params.now)) (λ r. map slot_term r.list) purse.old purse.new result }
{
    let mut slots = Row::new(alloc);
    slots.reserve(args.len())?;
    let mut rest = args;
    let mut at = params;
    while let [arg, more @ ..] = rest {
        let [param, more_params @ ..] = at else {
            unreachable!();
        };
        let slot = slot_at(alloc, definitions, arg, &param.kind, names, reads, purse)?;
        slots.push(slot)?;
        rest = more;
        at = more_params;
    }
    Ok(slots)
}

#[cycle(value)]
fn slot_at<R: Reads>(
    alloc: Global,
    definitions: &Definitions,
    arg: &Host,
    kind: &Kind,
    names: &Names,
    reads: &R,
    purse: &mut Purse,
) -> Result<Slot, Stop>
    requires accepted { IsAccepted (checked_term definitions.now) }
    requires well { Well (checked_term definitions.now) (slot_for (names_term names.now) (R.values reads.now) (host_term arg.now)
        (kind_term kind.now) give) }
    requires paired { IsPaired (names_term names.now) }
    ensures height { OnOk result (purse.new.height ≡ purse.old.height) }
    ensures ran { RunsPlan (checked_term definitions.now) (slot_for (names_term names.now) (R.values reads.now) (host_term arg.now)
        (kind_term kind.now) give) slot_term purse.old purse.new result }
{
    match kind {
        Kind::Plain(_) => {
            let v = value_at(alloc, definitions, arg, names, reads, purse)?;
            Ok(Slot::Plain(v))
        }
        Kind::Ref(_) => Ok(place_slot(names, arg)),
    }
}
