ghost use Rattle.std.specs.Prelude.{◌≡◌, Some, IfOk, IfErr, codes};
ghost use Rattle.std.specs.Cow.{cow_str_bytes};
ghost use Rattle.task_model.specs.Terms.Input.{set_act};
ghost use Rattle.task_model.specs.Terms.Value.{value_term};
ghost use Rattle.http_forms.specs.Forms.{text_at, GivesAct};
ghost use Rattle.http_forms.specs.FormReading.{IsActStop, IsRawValue, IsRawStop, IsNamedLiteral, IsLiteralStop};

use crate::first_text::first_text;
use crate::form_stop::FormStop;
use literal_text::{LiteralStop, read_basic, read_value};
use std::alloc::Global;
use std::borrow::CowStr;
use task_model::{OutOfMemory, TaskText, Value};

/// The most bytes of a text that is given as it is.
const RAW_BYTE_LIMIT: usize = 65_536;

/// The value of a form whose act is `set`.
pub(crate) fn set_value(alloc: Global, form: &[u8]) -> Result<Value, FormStop>
    requires { text_at (codes "act") form.now ≡ Some (codes "set") }
    ensures ok { IfOk result (λ value. GivesAct form.now (set_act (value_term value))) }
    ensures err { IfErr result (IsActStop form.now) }
{
    let Some(kind) = first_text(alloc, form, "as")? else {
        return Err(FormStop::Malformed);
    };
    let Some(text) = first_text(alloc, form, "value")? else {
        return Err(FormStop::Malformed);
    };
    if kind.as_str() == "raw" {
        return raw_value(alloc, text);
    }
    literal_value(alloc, kind.as_str().as_bytes(), text.as_str().as_bytes())
}

/// The value that is the text itself.
fn raw_value(alloc: Global, text: CowStr<'_, Global>) -> Result<Value, FormStop>
    ensures ok { IfOk result (λ value. IsRawValue (cow_str_bytes text.entry) (value_term value)) }
    ensures err { IfErr result (IsRawStop (cow_str_bytes text.entry)) }
{
    if text.len() > RAW_BYTE_LIMIT {
        return Err(FormStop::Malformed);
    }
    let text = owned_text(alloc, text)?;
    Ok(Value::Text(text))
}

fn owned_text(alloc: Global, text: CowStr<'_, Global>) -> Result<TaskText, OutOfMemory>
    ensures { IfOk result (λ owned. owned ≡ cow_str_bytes text.entry) }
{
    let owned = text.into_owned(alloc)?;
    TaskText::of_string(owned)
}

/// The value of a literal of the type with this name.
fn literal_value(alloc: Global, name: &[u8], literal: &[u8]) -> Result<Value, FormStop>
    ensures ok { IfOk result (λ value. IsNamedLiteral name.now literal.now (value_term value)) }
    ensures err { IfErr result (IsLiteralStop name.now literal.now) }
{
    let basic = match read_basic(alloc, name) {
        Ok(basic) => basic,
        Err(LiteralStop::Bad(_)) => return Err(FormStop::Malformed),
        Err(LiteralStop::Memory) => return Err(FormStop::Memory),
    };
    match read_value(alloc, literal, &basic) {
        Ok(value) => Ok(value),
        Err(LiteralStop::Bad(bad)) => Err(FormStop::Bad(bad)),
        Err(LiteralStop::Memory) => Err(FormStop::Memory),
    }
}
