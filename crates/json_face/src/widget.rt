ghost use Rattle.std.specs.Prelude.{◌≡◌, List, Err, IfOk, codes};
ghost use Rattle.task_model.specs.Showing.Widget.{WidgetTerm, widget_term, shape_term, ShapeTerm};
ghost use Rattle.task_model.specs.declared.input.Turn.{Turn};
ghost use Rattle.json_face.specs.JsonPages.{IsJsonWidget};
ghost use Rattle.json_face.specs.WidgetKinds.{IsWidgetKind};
ghost use Rattle.json_face.specs.Fields.{left};
ghost use Rattle.json_face.specs.declared.stop.JsonStop.TheVariants as JsonStop;
ghost use Rattle.serde_json.specs.View.{view};

use crate::fields::Fields;
use crate::kinds::{read_bare, read_pick, read_step, read_typed, read_valued};
use crate::parts::take_text;
use crate::stop::JsonStop;
use serde_json::Value as Json;
use std::alloc::Global;
use task_model::{Path, Shape, Widget};

/// The widget whose form this is.
pub fn read_widget(alloc: Global, json: &Json) -> Result<Widget, JsonStop>
    ensures found { IfOk result (λ w. IsJsonWidget (view json.now) (widget_term w)) }
    ensures bad { result ≡ Err JsonStop.Bad → (w : WidgetTerm) → IsJsonWidget (view json.now) w → ⊥ }
{
    let Some(mut fields) = Fields::of(json) else {
        return Err(JsonStop::Bad);
    };
    if let Some(choices) = fields.take("choices") {
        let (path, sign) = read_step(alloc, choices, fields)?;
        let shape = Shape::Step(sign);
        return Ok(Widget { path, shape });
    }
    let Some(mut fields) = Fields::of(json) else {
        return Err(JsonStop::Bad);
    };
    let Some(kind) = take_text(&mut fields, "kind") else {
        return Err(JsonStop::Bad);
    };
    let (path, shape) = read_kind(alloc, kind, fields)?;
    Ok(Widget { path, shape })
}

/// What is shown, and its path, by what stands behind the kind.
fn read_kind(alloc: Global, kind: &str, fields: Fields<'_>) -> Result<(Path, Shape), JsonStop>
    ensures found { IfOk result (λ r. IsWidgetKind kind.now (left fields.entry) r.0.turns (shape_term r.1)) }
    ensures bad { result ≡ Err JsonStop.Bad → (path : List Turn) (s : ShapeTerm) → IsWidgetKind kind.now (left fields.entry) path s → ⊥ }
{
    match kind {
        "edit" => {
            let (path, b, v) = read_valued(alloc, fields)?;
            Ok((path, Shape::Edit(b, v)))
        }
        "share" => {
            let (path, b, v) = read_valued(alloc, fields)?;
            Ok((path, Shape::Share(b, v)))
        }
        "enter" => {
            let (path, b) = read_typed(alloc, fields)?;
            Ok((path, Shape::Enter(b)))
        }
        "pick" => {
            let (path, left, right) = read_pick(alloc, fields)?;
            Ok((path, Shape::Pick(left, right)))
        }
        "then" => Ok((read_bare(alloc, fields)?, Shape::Then)),
        "fail" => Ok((read_bare(alloc, fields)?, Shape::Fail)),
        "and" => Ok((read_bare(alloc, fields)?, Shape::And)),
        "or" => Ok((read_bare(alloc, fields)?, Shape::Or)),
        _ => Err(JsonStop::Bad),
    }
}
