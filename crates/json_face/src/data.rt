ghost use Rattle.std.specs.Prelude.{◌≡◌, map, IfOk};
ghost use Rattle.task_model.specs.Terms.Value.{value_term, as_values};
ghost use Rattle.json_face.specs.JsonValues as form;
ghost use Rattle.serde_json.specs.View.{view, items_view};

use serde_json::{Value as Json, json};
use std::alloc::{AllocError, Global};
use task_model::Value;

/// A value as JSON.
#[cycle(data)]
pub fn value_json(alloc: Global, v: &Value) -> Result<Json, AllocError>
    ensures { IfOk result (λ j. view j ≡ form.value_data (value_term v.now)) }
{
    match v {
        Value::Unit => Ok(Json::Null),
        Value::Bool(b) => Ok(Json::from(*b)),
        Value::Int(i) => Ok(Json::from(*i)),
        Value::Text(content) => Json::try_from_str(alloc, content.as_str()),
        Value::Pair(first, second) => {
            let first = value_json(alloc, first)?;
            let second = value_json(alloc, second)?;
            json!(in alloc; {"first": first, "second": second})
        }
        Value::List(items) => Ok(Json::Array(items_json(alloc, items.as_slice())?)),
    }
}

#[cycle(data)]
fn items_json(alloc: Global, items: &[Value]) -> Result<Vec<Json>, AllocError>
    ensures { IfOk result (λ js. items_view js.items ≡ form.values_data (as_values (map value_term items.now))) }
{
    let mut all = Vec::with_capacity(alloc, items.len())?;
    for item in items {
        all.push(value_json(alloc, item)?)?;
    }
    Ok(all)
}
