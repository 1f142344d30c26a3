ghost use Rattle.std.specs.Prelude.{◌≡◌, ◌∷◌, ◌++◌, [], OnOk, codes};
ghost use Rattle.task_model.specs.Terms.Host.{host_term};
ghost use Rattle.task_model.specs.Terms.Task.{task_term, and_task, or_task, xor_task, if_task, case_task};
ghost use Rattle.task_model.specs.Syntax.Printed.{expression_at, binder_text, body_numbered, body_at, step_tokens, task_rank, task_tokens, task_at};
ghost use Rattle.task_model.specs.Syntax.LaterBodies.{later_texts};
ghost use Rattle.reader_printer.specs.Lines.{with_tokens};

use crate::expressions::{
    ATOM as HOST_ATOM, EXPRESSION, write_call, write_elements, write_expression, write_no_elements,
};
use crate::printer::Printer;
use crate::types::write_typed;
use task_model::{Body, Host, LaterBodies, NumberedBody, OutOfMemory, Task};

// Of the nonterminals of tasks, from the tightest, each one reaches the productions of those before it.
const ATOM: u8 = 0;

const CHAIN: u8 = 1;

const CHOICE: u8 = 2;

pub(crate) const TASK: u8 = 3;

/// The nonterminal of a task's own production.
fn rank(t: &Task) -> u8
    ensures { result ≡ task_rank (task_term t.now) }
{
    match t {
        Task::Edit(_) => ATOM,
        Task::Enter(_) => ATOM,
        Task::Share(_) => ATOM,
        Task::Fail(_) => ATOM,
        Task::Call { .. } => ATOM,
        Task::And(..) => CHAIN,
        Task::Or(..) => CHOICE,
        Task::Xor { .. } => CHOICE,
        Task::Then { .. } => TASK,
        Task::Next { .. } => TASK,
        Task::Let { .. } => TASK,
        Task::If { .. } => TASK,
        Task::Case { .. } => TASK,
        Task::New { .. } => TASK,
        Task::Put { .. } => TASK,
    }
}

/// The name that a body's step binds.
fn binder(b: &Body) -> &str
    ensures { result.now ≡ binder_text b.now.binder }
{
    match &b.binder {
        Some(name) => name.as_str(),
        None => "",
    }
}

fn write_edit(out: &mut Printer, e: &Host) -> Result<(), OutOfMemory>
    ensures { OnOk result (out.new ≡ with_tokens out.old (codes "edit" ∷ expression_at 0 (host_term e.now))) }
{
    out.token("edit")?;
    write_expression(out, HOST_ATOM, e)
}

/// What stands before a task in which a name is bound.
fn write_binding(out: &mut Printer, word: &str, name: &str, bound: &Host) -> Result<(), OutOfMemory>
    ensures { OnOk result (out.new ≡ with_tokens out.old (word.now ∷ name.now ∷ codes "=" ∷ expression_at 8 (host_term bound.now)
        ++ codes "in" ∷ [])) }
{
    out.tokens(word, name)?;
    out.token("=")?;
    write_expression(out, EXPRESSION, bound)?;
    out.token("in")
}

/// What stands before a task behind a change of a reference.
fn write_change(out: &mut Printer, name: &str, value: &Host) -> Result<(), OutOfMemory>
    ensures { OnOk result (out.new ≡ with_tokens out.old (name.now ∷ codes ":=" ∷ expression_at 8 (host_term value.now)
        ++ codes ";" ∷ [])) }
{
    out.tokens(name, ":=")?;
    write_expression(out, EXPRESSION, value)?;
    out.token(";")
}

fn write_test(out: &mut Printer, test: &Host) -> Result<(), OutOfMemory>
    ensures { OnOk result (out.new ≡ with_tokens out.old (codes "if" ∷ expression_at 8 (host_term test.now) ++ codes "then" ∷ [])) }
{
    out.token("if")?;
    write_expression(out, EXPRESSION, test)?;
    out.token("then")
}

/// The tokens of a task at a place, in parentheses where that can't reach its production.
#[cycle(task)]
pub(crate) fn write_task(
    out: &mut Printer,
    place: u8,
    later: &LaterBodies,
    t: &Task,
) -> Result<(), OutOfMemory>
    ensures { OnOk result (out.new ≡ with_tokens out.old (task_at place later.now.first (later_texts later.now) (task_term t.now))) }
{
    if place < rank(t) {
        out.token("(")?;
        write_production(out, later, t)?;
        out.token(")")
    } else {
        write_production(out, later, t)
    }
}

#[cycle(task)]
fn write_production(out: &mut Printer, later: &LaterBodies, t: &Task) -> Result<(), OutOfMemory>
    ensures { OnOk result (out.new ≡ with_tokens out.old (task_tokens later.now.first (later_texts later.now) (task_term t.now))) }
{
    match t {
        Task::Edit(e) => write_edit(out, e),
        Task::Enter(b) => write_typed(out, "enter", b),
        Task::Share(name) => out.tokens("share", name.as_str()),
        Task::Fail(b) => write_typed(out, "fail", b),
        Task::Call { name, args } => write_call(out, name.as_str(), args.as_slice()),
        Task::Then { left, body } => write_step(out, later, left, ">>=", *body),
        Task::Next { left, body } => write_step(out, later, left, ">>?", *body),
        Task::And(left, right) => write_and(out, later, left, right),
        Task::Or(left, right) => write_or(out, later, left, right),
        Task::Xor { left, right } => write_xor(out, later, *left, *right),
        Task::Let { name, bound, rest } => {
            write_binding(out, "let", name.as_str(), bound)?;
            write_task(out, TASK, later, rest)
        }
        Task::If { test, yes, no } => write_if(out, later, test, yes, no),
        Task::Case {
            list,
            empty,
            head,
            tail,
            more,
        } => write_case(out, later, list, empty, head.as_str(), tail.as_str(), more),
        Task::New { name, init, rest } => {
            write_binding(out, "new", name.as_str(), init)?;
            write_task(out, TASK, later, rest)
        }
        Task::Put { name, value, rest } => {
            write_change(out, name.as_str(), value)?;
            write_task(out, TASK, later, rest)
        }
    }
}

#[cycle(task)]
fn write_step(
    out: &mut Printer,
    later: &LaterBodies,
    left: &Task,
    sign: &str,
    number: u32,
) -> Result<(), OutOfMemory>
    ensures { OnOk result (out.new ≡ with_tokens out.old
        (task_at 2 later.now.first (later_texts later.now) (task_term left.now)
        ++ sign.now ∷ step_tokens (body_numbered later.now.first (later_texts later.now) number))) }
{
    write_task(out, CHOICE, later, left)?;
    out.token(sign)?;
    match later.numbered(number) {
        Some(NumberedBody { body, later }) => {
            out.tokens(binder(body), ".")?;
            write_task(out, TASK, &later, &body.task)
        }
        None => out.tokens("", "."),
    }
}

#[cycle(task)]
fn write_and(
    out: &mut Printer,
    later: &LaterBodies,
    left: &Task,
    right: &Task,
) -> Result<(), OutOfMemory>
    ensures { OnOk result (out.new ≡ with_tokens out.old (task_tokens later.now.first (later_texts later.now)
        (and_task (task_term left.now) (task_term right.now)))) }
{
    write_task(out, CHAIN, later, left)?;
    out.token("<&>")?;
    write_task(out, ATOM, later, right)
}

#[cycle(task)]
fn write_or(
    out: &mut Printer,
    later: &LaterBodies,
    left: &Task,
    right: &Task,
) -> Result<(), OutOfMemory>
    ensures { OnOk result (out.new ≡ with_tokens out.old (task_tokens later.now.first (later_texts later.now)
        (or_task (task_term left.now) (task_term right.now)))) }
{
    write_task(out, CHOICE, later, left)?;
    out.token("<|>")?;
    write_task(out, CHAIN, later, right)
}

#[cycle(task)]
fn write_xor(
    out: &mut Printer,
    later: &LaterBodies,
    left: u32,
    right: u32,
) -> Result<(), OutOfMemory>
    ensures { OnOk result (out.new ≡ with_tokens out.old (task_tokens later.now.first (later_texts later.now) (xor_task left right))) }
{
    write_body(out, CHOICE, later, left)?;
    out.token("<?>")?;
    write_body(out, CHAIN, later, right)
}

/// A body's task at a place, or nothing where there is no such body.
#[cycle(task)]
fn write_body(
    out: &mut Printer,
    place: u8,
    later: &LaterBodies,
    number: u32,
) -> Result<(), OutOfMemory>
    ensures { OnOk result (out.new ≡ with_tokens out.old (body_at place (body_numbered later.now.first (later_texts later.now) number))) }
{
    match later.numbered(number) {
        Some(NumberedBody { body, later }) => write_task(out, place, &later, &body.task),
        None => Ok(()),
    }
}

#[cycle(task)]
fn write_if(
    out: &mut Printer,
    later: &LaterBodies,
    test: &Host,
    yes: &Task,
    no: &Task,
) -> Result<(), OutOfMemory>
    ensures { OnOk result (out.new ≡ with_tokens out.old (task_tokens later.now.first (later_texts later.now)
        (if_task (host_term test.now) (task_term yes.now) (task_term no.now)))) }
{
    write_test(out, test)?;
    write_task(out, TASK, later, yes)?;
    out.token("else")?;
    write_task(out, TASK, later, no)
}

#[cycle(task)]
fn write_case(
    out: &mut Printer,
    later: &LaterBodies,
    list: &Host,
    empty: &Task,
    head: &str,
    tail: &str,
    more: &Task,
) -> Result<(), OutOfMemory>
    ensures { OnOk result (out.new ≡ with_tokens out.old (task_tokens later.now.first (later_texts later.now)
        (case_task (host_term list.now) (task_term empty.now) head.now tail.now (task_term more.now)))) }
{
    out.token("case")?;
    write_expression(out, EXPRESSION, list)?;
    write_no_elements(out)?;
    write_task(out, TASK, later, empty)?;
    write_elements(out, head, tail)?;
    write_task(out, TASK, later, more)
}
