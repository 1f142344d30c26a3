ghost use Rattle.std.specs.Prelude.{◌≡◌, List, Err, IfOk, MatchResult, map};
ghost use Rattle.task_model.specs.Showing.Widget.{WidgetTerm, widget_term};
ghost use Rattle.json_face.specs.JsonPages.{AreJsonWidgets, IsWidgetArray, FitsPage, IsJsonPage, JsonPageTerm, page_data, json_page_term};
ghost use Rattle.json_face.specs.declared.stop.JsonStop.TheVariants as JsonStop;
ghost use Rattle.serde_json.specs.View.{view, items_view};

use crate::fields::Fields;
use crate::page::JsonPage;
use crate::parts::{take_count, take_seat};
use crate::stop::JsonStop;
use crate::whole::read_json;
use crate::widget::read_widget;
use serde_json::Value as Json;
use std::alloc::Global;
use task_model::{Row, Widget};

/// The page that these bytes are (docs/FORMATS.md, "JSON").
pub fn read_page(alloc: Global, bytes: &[u8]) -> Result<JsonPage, JsonStop>
    ensures found { IfOk result (λ p. IsJsonPage bytes.now (json_page_term p)) }
    // They are no other page, and a page is refused only for want of memory: `Bad` exactly where they are none.
    ensures only { (p : JsonPageTerm) → IsJsonPage bytes.now p → MatchResult result (λ q. json_page_term q ≡ p) (λ e. e ≡ JsonStop.Memory) }
{
    page_in(alloc, bytes)
}

fn page_in(alloc: Global, bytes: &[u8]) -> Result<JsonPage, JsonStop>
    ensures found { IfOk result (λ p. IsJsonPage bytes.now (json_page_term p)) }
    ensures bad { result ≡ Err JsonStop.Bad → (p : JsonPageTerm) → IsJsonPage bytes.now p → ⊥ }
{
    let json = read_json(alloc, bytes)?;
    page_of(alloc, &json)
}

/// The page whose form this is.
fn page_of(alloc: Global, json: &Json) -> Result<JsonPage, JsonStop>
    ensures found { IfOk result (λ p. view json.now ≡ page_data p.version p.seat (map widget_term p.widgets.list)) }
    ensures fits { IfOk result (λ p. FitsPage (json_page_term p)) }
    ensures bad { result ≡ Err JsonStop.Bad → (p : JsonPageTerm) → view json.now ≡ page_data p.version p.seat p.widgets → FitsPage p → ⊥ }
{
    let Some(mut fields) = Fields::of(json) else {
        return Err(JsonStop::Bad);
    };
    let Some(seat) = take_seat(&mut fields) else {
        return Err(JsonStop::Bad);
    };
    let Some(version) = take_count(&mut fields, "version") else {
        return Err(JsonStop::Bad);
    };
    let Some(widgets) = fields.take("widgets") else {
        return Err(JsonStop::Bad);
    };
    if !fields.is_done() {
        return Err(JsonStop::Bad);
    }
    let widgets = read_array(alloc, widgets)?;
    Ok(JsonPage {
        version,
        seat,
        widgets,
    })
}

/// The widgets whose forms stand in this array.
fn read_array(alloc: Global, json: &Json) -> Result<Row<Widget>, JsonStop>
    ensures found { IfOk result (λ ws. IsWidgetArray (view json.now) (map widget_term ws.list)) }
    ensures bad { result ≡ Err JsonStop.Bad → (ws : List WidgetTerm) → IsWidgetArray (view json.now) ws → ⊥ }
{
    match json.as_array() {
        Some(items) => read_widgets(alloc, items.as_slice()),
        None => Err(JsonStop::Bad),
    }
}

/// The widgets whose forms these are.
fn read_widgets(alloc: Global, items: &[Json]) -> Result<Row<Widget>, JsonStop>
    ensures found { IfOk result (λ ws. AreJsonWidgets (items_view items.now) (map widget_term ws.list)) }
    ensures bad { result ≡ Err JsonStop.Bad → (ws : List WidgetTerm) → AreJsonWidgets (items_view items.now) ws → ⊥ }
{
    let mut widgets = Vec::with_capacity(alloc, items.len())?;
    for item in items {
        widgets.push(read_widget(alloc, item)?)?;
    }
    Ok(Row::of_vec(widgets))
}
