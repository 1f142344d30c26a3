ghost use Rattle.std.specs.Prelude.{◌≡◌, Some, map, IfOk, OnOk};
ghost use Rattle.task_model.specs.Showing.Widget.{widget_term};
ghost use Rattle.json_face.specs.JsonPages.{json_page_term, page_data, page_with, widgets_data, FitsPage, IsJsonPage};
ghost use Rattle.serde_json.specs.View.{view, items_view};
ghost use Rattle.serde_json.specs.Written.{compact_text};

use crate::forms::widget_json;
use crate::page::JsonPage;
use serde_json::{Value as Json, json};
use std::alloc::{AllocError, Global};
use task_model::{OutOfMemory, TaskText, Widget};

/// A page as JSON text, with no space and its keys in the order of their bytes.
pub fn write_page(alloc: Global, p: &JsonPage) -> Result<TaskText, OutOfMemory>
    ensures text { IfOk result (λ t. t ≡ compact_text (page_data p.now.version p.now.seat (map widget_term p.now.widgets.list))) }
    // Read, it is the page, if that is within the limits.
    ensures reads { FitsPage (json_page_term p.now) → IfOk result (λ t. IsJsonPage t (json_page_term p.now)) }
{
    let widgets = widgets_json(alloc, p.widgets.as_slice())?;
    let page = page_json(alloc, p.version, p.seat, widgets)?;
    let text = page.to_string(alloc)?;
    TaskText::of(alloc, text.as_str())
}

fn page_json(alloc: Global, version: u64, seat: u8, widgets: Vec<Json>) -> Result<Json, AllocError>
    ensures { IfOk result (λ j. view j ≡ page_with version seat (items_view widgets.items)) }
{
    json!(in alloc; {"seat": seat, "version": version, "widgets": widgets})
}

fn widgets_json(alloc: Global, widgets: &[Widget]) -> Result<Vec<Json>, OutOfMemory>
    ensures { IfOk result (λ js. items_view js.items ≡ widgets_data (map widget_term widgets.now)) }
{
    let mut all = Vec::with_capacity(alloc, widgets.len())?;
    for w in widgets {
        all.push(widget_json(alloc, w)?)?;
    }
    Ok(all)
}
