ghost use Rattle.std.specs.Prelude.{◌≡◌, ◌∷◌, ◌++◌, [], OnOk, IfOk, codes, map};
ghost use Rattle.task_model.specs.Terms.Value.{text_value};
ghost use Rattle.task_model.specs.Syntax.Literal.{value_text};
ghost use Rattle.task_model.specs.Terms.Host.{host_term, as_exprs, op_expr, let_expr, if_expr, case_expr, pair_expr};
ghost use Rattle.task_model.specs.Syntax.Printed.{expression_rank, expression_tokens, expression_at, listed_tokens};
ghost use Rattle.reader_printer.specs.Lines.{with_tokens};

use crate::operators::{left_place, operator_rank, operator_text, right_place};
use crate::printer::Printer;
use crate::types::write_typed;
use itoa::Buffer;
use literal_text::print_value;
use std::alloc::Global;
use task_model::{Host, Op, OutOfMemory, TaskText, Value, copy_text};

// Of the nonterminals of expressions, from the tightest, each one reaches the productions of those before it.
pub(crate) const ATOM: u8 = 0;

const OPERAND: u8 = 1;

pub(crate) const EXPRESSION: u8 = 8;

/// The nonterminal of an expression's own production.
fn rank(e: &Host) -> u8
    ensures { result ≡ expression_rank (host_term e.now) }
{
    match e {
        Host::Unit => ATOM,
        Host::Bool(_) => ATOM,
        Host::Int(_) => ATOM,
        Host::Text(_) => ATOM,
        Host::Name(_) => ATOM,
        Host::Read(_) => ATOM,
        Host::Call { .. } => ATOM,
        Host::Pair(..) => ATOM,
        Host::List(_) => ATOM,
        Host::Nil(_) => ATOM,
        Host::Neg(_) => OPERAND,
        Host::Not(_) => OPERAND,
        Host::Fst(_) => OPERAND,
        Host::Snd(_) => OPERAND,
        Host::Len(_) => OPERAND,
        Host::Op { op, .. } => operator_rank(*op),
        Host::Let { .. } => EXPRESSION,
        Host::If { .. } => EXPRESSION,
        Host::Case { .. } => EXPRESSION,
    }
}

/// A text as it is written.
fn text_literal(alloc: Global, content: &TaskText) -> Result<TaskText, OutOfMemory>
    ensures { IfOk result (λ t. t ≡ value_text (text_value content.now)) }
{
    let value = Value::Text(copy_text(content)?);
    print_value(alloc, &value)
}

fn write_text(out: &mut Printer, content: &TaskText) -> Result<(), OutOfMemory>
    ensures { OnOk result (out.new ≡ with_tokens out.old (value_text (text_value content.now) ∷ [])) }
{
    let literal = text_literal(out.alloc(), content)?;
    out.token(literal.as_str())
}

/// The tokens of an expression at a place, in parentheses where that can't reach its production.
#[cycle(expression)]
pub(crate) fn write_expression(out: &mut Printer, place: u8, e: &Host) -> Result<(), OutOfMemory>
    ensures { OnOk result (out.new ≡ with_tokens out.old (expression_at place (host_term e.now))) }
{
    if place < rank(e) {
        out.token("(")?;
        write_production(out, e)?;
        out.token(")")
    } else {
        write_production(out, e)
    }
}

#[cycle(expression)]
fn write_production(out: &mut Printer, e: &Host) -> Result<(), OutOfMemory>
    ensures { OnOk result (out.new ≡ with_tokens out.old (expression_tokens (host_term e.now))) }
{
    match e {
        Host::Unit => out.tokens("(", ")"),
        Host::Bool(true) => out.token("true"),
        Host::Bool(false) => out.token("false"),
        Host::Int(i) => out.token(Buffer::new().format(*i)),
        Host::Text(content) => write_text(out, content),
        Host::Name(name) => out.token(name.as_str()),
        Host::Read(name) => out.tokens("!", name.as_str()),
        Host::Call { name, args } => write_call(out, name.as_str(), args.as_slice()),
        Host::Pair(first, second) => write_pair(out, first, second),
        Host::List(items) => {
            out.token("[")?;
            write_listed(out, items.as_slice())?;
            out.token("]")
        }
        Host::Nil(b) => write_typed(out, "nil", b),
        Host::Neg(part) => write_prefixed(out, "-", part),
        Host::Not(part) => write_prefixed(out, "not", part),
        Host::Fst(part) => write_prefixed(out, "fst", part),
        Host::Snd(part) => write_prefixed(out, "snd", part),
        Host::Len(part) => write_prefixed(out, "len", part),
        Host::Op { op, left, right } => write_operation(out, *op, left, right),
        Host::Let { name, bound, rest } => write_let(out, name.as_str(), bound, rest),
        Host::If { test, yes, no } => write_if(out, test, yes, no),
        Host::Case {
            list,
            empty,
            head,
            tail,
            more,
        } => write_case(out, list, empty, head.as_str(), tail.as_str(), more),
    }
}

#[cycle(expression)]
pub(crate) fn write_call(out: &mut Printer, name: &str, args: &[Host]) -> Result<(), OutOfMemory>
    ensures { OnOk result (out.new ≡ with_tokens out.old (name.now ∷ codes "(" ∷ listed_tokens (as_exprs (map host_term args.now))
        ++ codes ")" ∷ [])) }
{
    out.token(name)?;
    out.token("(")?;
    write_listed(out, args)?;
    out.token(")")
}

/// Expressions, with commas between them.
#[cycle(expression)]
fn write_listed(out: &mut Printer, items: &[Host]) -> Result<(), OutOfMemory>
    ensures { OnOk result (out.new ≡ with_tokens out.old (listed_tokens (as_exprs (map host_term items.now)))) }
{
    let mut first = true;
    for item in items {
        out.comma(first)?;
        write_expression(out, EXPRESSION, item)?;
        first = false;
    }
    Ok(())
}

#[cycle(expression)]
fn write_pair(out: &mut Printer, first: &Host, second: &Host) -> Result<(), OutOfMemory>
    ensures { OnOk result (out.new ≡ with_tokens out.old (expression_tokens (pair_expr (host_term first.now) (host_term second.now)))) }
{
    out.token("(")?;
    write_expression(out, EXPRESSION, first)?;
    out.token(",")?;
    write_expression(out, EXPRESSION, second)?;
    out.token(")")
}

#[cycle(expression)]
fn write_prefixed(out: &mut Printer, word: &str, part: &Host) -> Result<(), OutOfMemory>
    ensures { OnOk result (out.new ≡ with_tokens out.old (word.now ∷ expression_at 1 (host_term part.now))) }
{
    out.token(word)?;
    write_expression(out, OPERAND, part)
}

#[cycle(expression)]
fn write_operation(out: &mut Printer, op: Op, left: &Host, right: &Host) -> Result<(), OutOfMemory>
    ensures { OnOk result (out.new ≡ with_tokens out.old (expression_tokens (op_expr op (host_term left.now) (host_term right.now)))) }
{
    write_expression(out, left_place(op), left)?;
    out.token(operator_text(op))?;
    write_expression(out, right_place(op), right)
}

#[cycle(expression)]
fn write_let(out: &mut Printer, name: &str, bound: &Host, rest: &Host) -> Result<(), OutOfMemory>
    ensures { OnOk result (out.new ≡ with_tokens out.old (expression_tokens
        (let_expr name.now (host_term bound.now) (host_term rest.now)))) }
{
    out.tokens("let", name)?;
    out.token("=")?;
    write_expression(out, EXPRESSION, bound)?;
    out.token("in")?;
    write_expression(out, EXPRESSION, rest)
}

#[cycle(expression)]
fn write_if(out: &mut Printer, test: &Host, yes: &Host, no: &Host) -> Result<(), OutOfMemory>
    ensures { OnOk result (out.new ≡ with_tokens out.old (expression_tokens
        (if_expr (host_term test.now) (host_term yes.now) (host_term no.now)))) }
{
    out.token("if")?;
    write_expression(out, EXPRESSION, test)?;
    out.token("then")?;
    write_expression(out, EXPRESSION, yes)?;
    out.token("else")?;
    write_expression(out, EXPRESSION, no)
}

#[cycle(expression)]
fn write_case(
    out: &mut Printer,
    list: &Host,
    empty: &Host,
    head: &str,
    tail: &str,
    more: &Host,
) -> Result<(), OutOfMemory>
    ensures { OnOk result (out.new ≡ with_tokens out.old
        (expression_tokens (case_expr (host_term list.now) (host_term empty.now) head.now tail.now (host_term more.now)))) }
{
    out.token("case")?;
    write_expression(out, EXPRESSION, list)?;
    write_no_elements(out)?;
    write_expression(out, EXPRESSION, empty)?;
    write_elements(out, head, tail)?;
    write_expression(out, EXPRESSION, more)
}

/// What stands between the list of a `case` and the part for an empty one.
pub(crate) fn write_no_elements(out: &mut Printer) -> Result<(), OutOfMemory>
    ensures { OnOk result (out.new ≡ with_tokens out.old (codes "of" ∷ codes "[" ∷ codes "]" ∷ codes "->" ∷ [])) }
{
    out.token("of")?;
    out.tokens("[", "]")?;
    out.token("->")
}

/// What stands before the part of a `case` for other lists.
pub(crate) fn write_elements(out: &mut Printer, head: &str, tail: &str) -> Result<(), OutOfMemory>
    ensures { OnOk result (out.new ≡ with_tokens out.old (codes "|" ∷ head.now ∷ codes "::" ∷ tail.now ∷ codes "->" ∷ [])) }
{
    out.tokens("|", head)?;
    out.tokens("::", tail)?;
    out.token("->")
}
