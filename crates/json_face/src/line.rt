ghost use Rattle.std.specs.Prelude.{◌≡◌, ℕ, Err, IfOk};
ghost use Rattle.task_model.specs.Running.State.{IsSeat};
ghost use Rattle.input_lines.specs.ScriptLines.{LineTerm, shows, line_term};
ghost use Rattle.json_face.specs.JsonLines.{IsLineData, show_data};
ghost use Rattle.json_face.specs.declared.stop.JsonStop.TheVariants as JsonStop;
ghost use Rattle.serde_json.specs.View.{view};

use crate::acts::{read_next, read_place, read_set};
use crate::fields::Fields;
use crate::parts::take_seat;
use crate::stop::JsonStop;
use input_lines::Line;
use serde_json::Value as Json;
use std::alloc::Global;
use task_model::Act;

/// What a line asks for whose JSON this is.
pub fn read_line(alloc: Global, json: &Json) -> Result<Line, JsonStop>
    ensures found { IfOk result (λ l. IsLineData (view json.now) (line_term l)) }
    ensures bad { result ≡ Err JsonStop.Bad → (l : LineTerm) → IsLineData (view json.now) l → ⊥ }
{
    let Some(mut fields) = Fields::of(json) else {
        return Err(JsonStop::Bad);
    };
    let Some(act) = fields.take("act") else {
        return read_show(json);
    };
    let Some(word) = act.as_str() else {
        return Err(JsonStop::Bad);
    };
    let entry = match word {
        "set" => read_set(alloc, fields)?,
        "next" => read_next(alloc, fields)?,
        "left" => read_place(alloc, fields, Act::Left)?,
        "right" => read_place(alloc, fields, Act::Right)?,
        _ => return Err(JsonStop::Bad),
    };
    Ok(Line::Act(entry))
}

/// The seat whose page a line asks for.
fn read_show(json: &Json) -> Result<Line, JsonStop>
    ensures found { IfOk result (λ l. (seat : ℕ) × (line_term l ≡ shows seat) × (view json.now ≡ show_data seat) × IsSeat seat) }
    ensures bad { result ≡ Err JsonStop.Bad → (seat : ℕ) → view json.now ≡ show_data seat → IsSeat seat → ⊥ }
{
    let Some(mut fields) = Fields::of(json) else {
        return Err(JsonStop::Bad);
    };
    let Some(seat) = take_seat(&mut fields) else {
        return Err(JsonStop::Bad);
    };
    let Some(Json::Bool(true)) = fields.take("show") else {
        return Err(JsonStop::Bad);
    };
    if !fields.is_done() {
        return Err(JsonStop::Bad);
    }
    Ok(Line::Show { seat })
}
