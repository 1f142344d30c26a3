ghost use Rattle.std.specs.Prelude.{◌≡◌, ◌++◌, map, IfOk, OnOk, string_bytes};
ghost use Rattle.task_model.specs.Showing.Widget.{widget_term};
ghost use Rattle.task_model.specs.Showing.Page as model;

use crate::line::push_line;
use crate::writing::push;
use itoa::Buffer;
use std::alloc::Global;
use task_model::{OutOfMemory, TaskText, Widget};

/// The terminal page of widgets.
pub fn draw_terminal(
    alloc: Global,
    version: u64,
    seat: u8,
    list: &[Widget],
) -> Result<TaskText, OutOfMemory>
    ensures { IfOk result (λ text. text ≡ model.page_text version seat (map widget_term list.now)) }
{
    let mut text = String::new(alloc);
    push_head(&mut text, version, seat)?;
    push_lines(alloc, &mut text, list)?;
    TaskText::of_string(text)
}

/// The first line of a page behind the text, with its LF.
pub fn push_head(text: &mut String, version: u64, seat: u8) -> Result<(), OutOfMemory>
    ensures { OnOk result (string_bytes text.new ≡ string_bytes text.old ++ model.head_text version seat) }
{
    let mut number = Buffer::new();
    push(text, "version ")?;
    push(text, number.format(version))?;
    push(text, " seat ")?;
    push(text, number.format(seat))?;
    push(text, "\n")
}

fn push_lines(alloc: Global, text: &mut String, list: &[Widget]) -> Result<(), OutOfMemory>
    ensures { OnOk result (string_bytes text.new ≡ string_bytes text.old ++ model.widget_lines (map widget_term list.now)) }
{
    for w in list {
        push_line(alloc, text, w)?;
    }
    Ok(())
}
