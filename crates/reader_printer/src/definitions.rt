ghost use Rattle.std.specs.Prelude.{◌≡◌, ◌∷◌, ◌++◌, [], OnOk, codes, map};
ghost use Rattle.task_model.specs.Terms.Basic.{basic_term};
ghost use Rattle.task_model.specs.Terms.Task.{body_term};
ghost use Rattle.task_model.specs.Terms.Program.{kind_term, param_term, def_body_term, def_term};
ghost use Rattle.task_model.specs.Syntax.Printed.{basic_tokens, body_texts, kind_tokens, parameter_tokens, parameters_tokens, definition_word, definition_body, definition_tokens, definitions_text, spaced};
ghost use Rattle.reader_printer.specs.Lines.{with_tokens};

use crate::expressions::{EXPRESSION, write_expression};
use crate::printer::Printer;
use crate::tasks::{TASK, write_task};
use crate::types::{write_basic, write_typed};
use task_model::{Body, Def, DefBody, Kind, LaterBodies, OutOfMemory, Param};

fn write_kind(out: &mut Printer, kind: &Kind) -> Result<(), OutOfMemory>
    ensures { OnOk result (out.new ≡ with_tokens out.old (kind_tokens (kind_term kind.now))) }
{
    match kind {
        Kind::Plain(b) => write_basic(out, b),
        Kind::Ref(b) => write_typed(out, "ref", b),
    }
}

fn write_parameter(out: &mut Printer, q: &Param) -> Result<(), OutOfMemory>
    ensures { OnOk result (out.new ≡ with_tokens out.old (parameter_tokens (param_term q.now))) }
{
    out.tokens(q.name.as_str(), ":")?;
    write_kind(out, &q.kind)
}

/// Parameters, with commas between them.
fn write_parameters(out: &mut Printer, params: &[Param]) -> Result<(), OutOfMemory>
    ensures { OnOk result (out.new ≡ with_tokens out.old (parameters_tokens (map param_term params.now))) }
{
    let mut first = true;
    for q in params {
        out.comma(first)?;
        write_parameter(out, q)?;
        first = false;
    }
    Ok(())
}

/// The word that a definition begins with.
fn word(what: &DefBody) -> &'static str
    ensures { result.now ≡ definition_word (def_body_term what.now) }
{
    match what {
        DefBody::Fun(_) => "fun",
        DefBody::Task(_) => "task",
    }
}

/// What stands between a definition's word and its body.
fn write_head(out: &mut Printer, d: &Def) -> Result<(), OutOfMemory>
    ensures { OnOk result (out.new ≡ with_tokens out.old
        (d.now.name ∷ codes "(" ∷ parameters_tokens (map param_term d.now.params.list)
        ++ codes ")" ∷ codes ":" ∷ basic_tokens (basic_term d.now.result) ++ codes "=" ∷ [])) }
{
    out.tokens(d.name.as_str(), "(")?;
    write_parameters(out, d.params.as_slice())?;
    out.tokens(")", ":")?;
    write_basic(out, &d.result)?;
    out.token("=")
}

/// A definition's body, whose task may name all bodies.
fn write_body(out: &mut Printer, bodies: &[Body], what: &DefBody) -> Result<(), OutOfMemory>
    ensures { OnOk result (out.new ≡ with_tokens out.old (definition_body (body_texts 0 (map body_term bodies.now))
        (def_body_term what.now))) }
{
    match what {
        DefBody::Fun(e) => write_expression(out, EXPRESSION, e),
        DefBody::Task(t) => write_task(out, TASK, &LaterBodies { first: 0, bodies }, t),
    }
}

/// A definition, on a line of its own.
fn write_definition(out: &mut Printer, bodies: &[Body], d: &Def) -> Result<(), OutOfMemory>
    ensures { OnOk result (out.new ≡ out.old ++ spaced (definition_tokens (body_texts 0 (map body_term bodies.now)) (def_term d.now))
        ++ codes "\n") }
{
    out.put(word(&d.what))?;
    write_head(out, d)?;
    write_body(out, bodies, &d.what)?;
    out.put("\n")
}

pub(crate) fn write_definitions(
    out: &mut Printer,
    bodies: &[Body],
    defs: &[Def],
) -> Result<(), OutOfMemory>
    ensures { OnOk result (out.new ≡ out.old ++ definitions_text (body_texts 0 (map body_term bodies.now)) (map def_term defs.now)) }
{
    for d in defs {
        write_definition(out, bodies, d)?;
    }
    Ok(())
}
