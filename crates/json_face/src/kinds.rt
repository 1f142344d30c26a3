ghost use Rattle.std.specs.Prelude.{◌≡◌, ◌≤◌, ℕ, List, Err, IfOk, MatchOption, codes};
ghost use Rattle.task_model.specs.Terms.Basic.{BasicTerm, basic_term};
ghost use Rattle.task_model.specs.Terms.Value.{ValueTerm, value_term};
ghost use Rattle.task_model.specs.Checking.TypeParts.{symbols_of};
ghost use Rattle.task_model.specs.Syntax.Literal.{basic_text};
ghost use Rattle.task_model.specs.Showing.Page.{path_text};
ghost use Rattle.task_model.specs.declared.input.Turn.{Turn};
ghost use Rattle.task_model.specs.declared.widget.Sign.{Sign};
ghost use Rattle.json_face.specs.JsonPages.{sign_word, FitsType, FitsValue, choice_data, bare};
ghost use Rattle.json_face.specs.Fields.{left};
ghost use Rattle.json_face.specs.JsonValues.{value_data};
ghost use Rattle.json_face.specs.declared.stop.JsonStop.TheVariants as JsonStop;
ghost use Rattle.serde_json.specs.Data.{Members, member, no_members, string, array, item, no_items};
ghost use Rattle.serde_json.specs.View.{view};

use crate::fields::Fields;
use crate::parts::{take_path, take_sign, take_text, take_type};
use crate::stop::JsonStop;
use crate::values::read_value;
use serde_json::Value as Json;
use std::alloc::Global;
use task_model::{Basic, LITERAL_LEVEL_LIMIT, Path, Sign, Value};

/// A path alone.
pub(crate) fn read_bare(alloc: Global, fields: Fields<'_>) -> Result<Path, JsonStop>
    ensures found { IfOk result (λ p. left fields.entry ≡ member (codes "path") (string (path_text p.turns)) no_members) }
    ensures bad { result ≡ Err JsonStop.Bad → (path : List Turn)
        → left fields.entry ≡ member (codes "path") (string (path_text path)) no_members → ⊥ }
{
    let mut fields = fields;
    let path = take_path(alloc, &mut fields)?;
    if !fields.is_done() {
        return Err(JsonStop::Bad);
    }
    Ok(path)
}

/// A path and a type.
pub(crate) fn read_typed(alloc: Global, fields: Fields<'_>) -> Result<(Path, Basic), JsonStop>
    ensures found { IfOk result (λ r. left fields.entry ≡ member (codes "path") (string (path_text r.0.turns))
        (member (codes "type") (string (basic_text (basic_term r.1))) no_members)) }
    ensures small { IfOk result (λ r. FitsType (basic_term r.1)) }
    ensures bad { result ≡ Err JsonStop.Bad → (path : List Turn) (b : BasicTerm)
        → left fields.entry ≡ member (codes "path") (string (path_text path)) (member (codes "type") (string (basic_text b)) no_members)
        → FitsType b → ⊥ }
{
    let mut fields = fields;
    let path = take_path(alloc, &mut fields)?;
    let b = take_type(alloc, &mut fields)?;
    if !fields.is_done() {
        return Err(JsonStop::Bad);
    }
    Ok((path, b))
}

/// A path, a type and a value.
pub(crate) fn read_valued(
    alloc: Global,
    fields: Fields<'_>,
) -> Result<(Path, Basic, Value), JsonStop>
    ensures found { IfOk result (λ r. left fields.entry ≡ member (codes "path") (string (path_text r.0.turns))
        (member (codes "type") (string (basic_text (basic_term r.1))) (member (codes "value") (value_data (value_term r.2)) no_members))) }
    ensures small { IfOk result (λ r. FitsType (basic_term r.1)) }
    ensures fits { IfOk result (λ r. FitsValue (value_term r.2)) }
    ensures bad { result ≡ Err JsonStop.Bad → (path : List Turn) (b : BasicTerm) (v : ValueTerm)
        → left fields.entry ≡ member (codes "path") (string (path_text path))
        (member (codes "type") (string (basic_text b)) (member (codes "value") (value_data v) no_members))
        → FitsType b → FitsValue v → ⊥ }
{
    let mut fields = fields;
    let path = take_path(alloc, &mut fields)?;
    let b = take_type(alloc, &mut fields)?;
    let Some(value) = fields.take("value") else {
        return Err(JsonStop::Bad);
    };
    if !fields.is_done() {
        return Err(JsonStop::Bad);
    }
    let value = read_value(alloc, LITERAL_LEVEL_LIMIT, value)?;
    Ok((path, b, value))
}

/// A path between two signs.
pub(crate) fn read_pick(alloc: Global, fields: Fields<'_>) -> Result<(Path, Sign, Sign), JsonStop>
    ensures found { IfOk result (λ r. left fields.entry ≡ member (codes "left") (string (sign_word r.1))
        (member (codes "path") (string (path_text r.0.turns)) (member (codes "right") (string (sign_word r.2)) no_members))) }
    ensures bad { result ≡ Err JsonStop.Bad → (path : List Turn) (s z : Sign)
        → left fields.entry ≡ member (codes "left") (string (sign_word s))
        (member (codes "path") (string (path_text path)) (member (codes "right") (string (sign_word z)) no_members)) → ⊥ }
{
    let mut fields = fields;
    let Some(left) = take_sign(&mut fields, "left") else {
        return Err(JsonStop::Bad);
    };
    let path = take_path(alloc, &mut fields)?;
    let Some(right) = take_sign(&mut fields, "right") else {
        return Err(JsonStop::Bad);
    };
    if !fields.is_done() {
        return Err(JsonStop::Bad);
    }
    Ok((path, left, right))
}

/// The sign of a step whose one choice is labelled `next`, as its choices say, and the path behind them.
pub(crate) fn read_step(
    alloc: Global,
    choices: &Json,
    fields: Fields<'_>,
) -> Result<(Path, Sign), JsonStop>
    ensures found { IfOk result (λ r. (view choices.now ≡ array (item (choice_data (codes "next") r.1) no_items))
        × (left fields.entry ≡ bare (codes "step") (path_text r.0.turns))) }
    ensures bad { result ≡ Err JsonStop.Bad → (path : List Turn) (s : Sign) → view choices.now ≡ array (item (choice_data (codes "next") s) no_items)
        → left fields.entry ≡ bare (codes "step") (path_text path) → ⊥ }
{
    let Some(sign) = only_choice(choices) else {
        return Err(JsonStop::Bad);
    };
    let mut fields = fields;
    let Some("step") = take_text(&mut fields, "kind") else {
        return Err(JsonStop::Bad);
    };
    let path = read_bare(alloc, fields)?;
    Ok((path, sign))
}

/// The sign of the only choice, if that is labelled `next`.
fn only_choice(choices: &Json) -> Option<Sign>
    ensures { MatchOption result ((s : Sign) → view choices.now ≡ array (item (choice_data (codes "next") s) no_items) → ⊥)
        (λ s. view choices.now ≡ array (item (choice_data (codes "next") s) no_items)) }
{
    let choices = choices.as_array()?;
    let [choice] = choices.as_slice() else {
        return None;
    };
    choice_sign(choice)
}

fn choice_sign(choice: &Json) -> Option<Sign>
    ensures { MatchOption result ((s : Sign) → view choice.now ≡ choice_data (codes "next") s → ⊥)
        (λ s. view choice.now ≡ choice_data (codes "next") s) }
{
    let mut fields = Fields::of(choice)?;
    let Some("next") = take_text(&mut fields, "label") else {
        return None;
    };
    let sign = take_sign(&mut fields, "sign")?;
    if !fields.is_done() {
        return None;
    }
    Some(sign)
}
