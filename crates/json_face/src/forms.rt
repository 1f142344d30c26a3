ghost use Rattle.std.specs.Prelude.{◌≡◌, codes, IfOk};
ghost use Rattle.task_model.specs.Terms.Basic.{basic_term};
ghost use Rattle.task_model.specs.Terms.Value.{value_term};
ghost use Rattle.task_model.specs.Showing.Widget.{shape_term, widget_term};
ghost use Rattle.task_model.specs.Showing.Page.{path_text};
ghost use Rattle.json_face.specs.JsonPages as form;
ghost use Rattle.json_face.specs.JsonValues as values;
ghost use Rattle.serde_json.specs.Data.{object, member, no_members, string};
ghost use Rattle.serde_json.specs.View.{view};

use crate::data::value_json;
use literal_text::print_basic;
use serde_json::{Value as Json, json};
use std::alloc::Global;
use task_model::{Basic, OutOfMemory, Shape, Sign, Value, Widget};
use terminal_view::print_path;

/// A widget as JSON.
pub(crate) fn widget_json(alloc: Global, w: &Widget) -> Result<Json, OutOfMemory>
    ensures { IfOk result (λ j. view j ≡ form.widget_data (widget_term w.now)) }
{
    let path = print_path(alloc, w.path.turns.as_slice())?;
    shape_json(alloc, path.as_str(), &w.shape)
}

fn shape_json(alloc: Global, path: &str, shape: &Shape) -> Result<Json, OutOfMemory>
    ensures { IfOk result (λ j. view j ≡ object (form.shape_members path.now (shape_term shape.now))) }
{
    match shape {
        Shape::Edit(b, v) => valued(alloc, "edit", path, b, v),
        Shape::Enter(b) => typed(alloc, path, b),
        Shape::Share(b, v) => valued(alloc, "share", path, b, v),
        Shape::Then => bare(alloc, "then", path),
        Shape::Step(sign) => step(alloc, path, *sign),
        Shape::Fail => bare(alloc, "fail", path),
        Shape::And => bare(alloc, "and", path),
        Shape::Or => bare(alloc, "or", path),
        Shape::Pick(left, right) => pick(alloc, path, *left, *right),
    }
}

fn bare(alloc: Global, kind: &str, path: &str) -> Result<Json, OutOfMemory>
    ensures { IfOk result (λ j. view j ≡ object (form.bare kind.now path.now)) }
{
    Ok(json!(in alloc; {"kind": kind, "path": path})?)
}

fn typed(alloc: Global, path: &str, b: &Basic) -> Result<Json, OutOfMemory>
    ensures { IfOk result (λ j. view j ≡ object (form.typed (codes "enter") path.now (basic_term b.now) no_members)) }
{
    let name = print_basic(alloc, b)?;
    Ok(json!(in alloc; {"kind": "enter", "path": path, "type": (name.as_str())})?)
}

fn valued(alloc: Global, kind: &str, path: &str, b: &Basic, v: &Value) -> Result<Json, OutOfMemory>
    ensures { IfOk result (λ j. view j ≡ object (form.typed kind.now path.now (basic_term b.now)
        (member (codes "value") (values.value_data (value_term v.now)) no_members))) }
{
    let name = print_basic(alloc, b)?;
    let value = value_json(alloc, v)?;
    Ok(json!(in alloc; {"kind": kind, "path": path, "type": (name.as_str()), "value": value})?)
}

fn step(alloc: Global, path: &str, sign: Sign) -> Result<Json, OutOfMemory>
    ensures { IfOk result (λ j. view j ≡ object (form.step_members path.now sign)) }
{
    Ok(json!(in alloc; {
        "choices": [{"label": "next", "sign": (word(sign))}],
        "kind": "step",
        "path": path
    })?)
}

fn pick(alloc: Global, path: &str, left: Sign, right: Sign) -> Result<Json, OutOfMemory>
    ensures { IfOk result (λ j. view j ≡ object (form.pick_members path.now left right)) }
{
    Ok(json!(in alloc; {
        "kind": "pick",
        "left": (word(left)),
        "path": path,
        "right": (word(right))
    })?)
}

/// The word of a sign.
fn word(sign: Sign) -> &'static str
    ensures { result.now ≡ form.sign_word sign }
{
    match sign {
        Sign::No => "no",
        Sign::Yes => "yes",
        Sign::Over => "over",
    }
}
