ghost use Rattle.std.specs.Prelude.{◌≡◌, ◌≤◌, length, IfOk, Err};
ghost use Rattle.task_model.specs.Terms.Value.{ValueTerm, ValueTerms, value_term, text_value, pair_value, list_value, count_of};
ghost use Rattle.json_face.specs.JsonValues.{IsJsonValue, AreJsonValues, IsJsonPair};
ghost use Rattle.json_face.specs.declared.stop.JsonStop.TheVariants as JsonStop;
ghost use Rattle.serde_json.specs.View.{view, items_view};

use crate::fields::Fields;
use crate::stop::JsonStop;
use serde_json::Value as Json;
use std::alloc::Global;
use std::sync::Arc;
use task_model::{Elements, LIST_ELEMENT_LIMIT, Row, TEXT_BYTE_LIMIT, TaskText, Value};

/// The value of at most so many levels that JSON is the form of.
#[cycle(value)]
pub fn read_value(alloc: Global, room: usize, json: &Json) -> Result<Value, JsonStop>
    ensures found { IfOk result (λ v. IsJsonValue room (view json.now) (value_term v)) }
    ensures bad { result ≡ Err JsonStop.Bad → (v : ValueTerm) → IsJsonValue room (view json.now) v → ⊥ }
{
    if room == 0 {
        return Err(JsonStop::Bad);
    }
    match json {
        Json::Null => Ok(Value::Unit),
        Json::Bool(b) => Ok(Value::Bool(*b)),
        Json::Number(number) => match number.as_i64() {
            Some(int) => Ok(Value::Int(int)),
            None => Err(JsonStop::Bad),
        },
        Json::String(content) => read_text(alloc, content.as_str()),
        Json::Array(items) => read_list(alloc, room - 1, items.as_slice()),
        Json::Object(_) => read_pair(alloc, room - 1, json),
    }
}

fn read_text(alloc: Global, content: &str) -> Result<Value, JsonStop>
    ensures found { IfOk result (λ v. (value_term v ≡ text_value content.now) × (length content.now ≤ 65536)) }
    ensures bad { result ≡ Err JsonStop.Bad → length content.now ≤ 65536 → ⊥ }
{
    if content.len() > TEXT_BYTE_LIMIT {
        return Err(JsonStop::Bad);
    }
    Ok(Value::Text(TaskText::of(alloc, content)?))
}

/// The list that items are the form of, each of at most so many levels.
#[cycle(value)]
fn read_list(alloc: Global, room: usize, items: &[Json]) -> Result<Value, JsonStop>
    ensures found { IfOk result (λ v. (vs : ValueTerms) × (value_term v ≡ list_value vs)
        × (count_of vs ≤ 1024) × AreJsonValues room (items_view items.now) vs) }
    ensures bad { result ≡ Err JsonStop.Bad → (vs : ValueTerms) → AreJsonValues room (items_view items.now) vs
        → count_of vs ≤ 1024 → ⊥ }
{
    if items.len() > LIST_ELEMENT_LIMIT {
        return Err(JsonStop::Bad);
    }
    let mut values = Vec::with_capacity(alloc, items.len())?;
    for item in items {
        values.push(read_value(alloc, room, item)?)?;
    }
    Ok(Value::List(Elements::of(alloc, Row::of_vec(values))?))
}

/// The pair that an object is the form of, each part of at most so many levels.
#[cycle(value)]
fn read_pair(alloc: Global, room: usize, json: &Json) -> Result<Value, JsonStop>
    ensures found { IfOk result (λ v. (w : ValueTerm) × (u : ValueTerm) × (value_term v ≡ pair_value w u)
        × IsJsonPair room (view json.now) w u) }
    ensures bad { result ≡ Err JsonStop.Bad → (w u : ValueTerm) → IsJsonPair room (view json.now) w u → ⊥ }
{
    let Some(mut parts) = Fields::of(json) else {
        return Err(JsonStop::Bad);
    };
    let Some(first) = parts.take("first") else {
        return Err(JsonStop::Bad);
    };
    let Some(second) = parts.take("second") else {
        return Err(JsonStop::Bad);
    };
    if !parts.is_done() {
        return Err(JsonStop::Bad);
    }
    let first = read_value(alloc, room, first)?;
    let second = read_value(alloc, room, second)?;
    let first = Arc::new(alloc, first)?;
    Ok(Value::Pair(first, Arc::new(alloc, second)?))
}
