ghost use Rattle.std.specs.Prelude.{◌≡◌, ◌∷◌, ◌++◌, [], ◌<◌, IfOk, OnOk, MatchOption, string_bytes};
ghost use Rattle.task_model.specs.Showing.Html as model;
ghost use Rattle.html_pages.specs.Escaping.{EscapesAt};

use std::alloc::Global;
use task_model::{OutOfMemory, TaskText};
use terminal_view::push;

/// The text with `&`, `<`, `>` and `"` as entities.
pub fn escape(alloc: Global, text: &TaskText) -> Result<TaskText, OutOfMemory>
    ensures { IfOk result (λ t. t ≡ model.html_escaped text.now) }
{
    let mut escaped = String::new(alloc);
    push_escaped(&mut escaped, text.as_str())?;
    TaskText::of_string(escaped)
}

/// Content behind the text, with its entities. What stands between two of them is copied whole.
pub(crate) fn push_escaped(text: &mut String, content: &str) -> Result<(), OutOfMemory>
    ensures { OnOk result (string_bytes text.new ≡ string_bytes text.old ++ model.html_escaped content.now) }
{
    let mut rest = content;
    while let Some((place, entity)) = next_entity(rest.as_bytes()) {
        push(text, &rest[..place])?;
        push(text, entity)?;
        rest = &rest[place + 1..];
    }
    push(text, rest)
}

/// The first byte that is written as an entity: its place, and the entity.
fn next_entity(bytes: &[u8]) -> Option<(usize, &'static str)>
    ensures { MatchOption result (model.html_escaped bytes.now ≡ bytes.now) (λ found. EscapesAt bytes.now found.0 found.1.now) }
{
    for place in 0..bytes.len() {
        if let Some(entity) = entity(bytes[place]) {
            return Some((place, entity));
        }
    }
    None
}

fn entity(byte: u8) -> Option<&'static str>
    ensures { MatchOption result (model.entity byte ≡ byte ∷ []) (λ entity. (model.entity byte ≡ entity.now) × (byte < 128)) }
{
    match byte {
        b'&' => Some("&amp;"),
        b'<' => Some("&lt;"),
        b'>' => Some("&gt;"),
        b'"' => Some("&quot;"),
        _ => None,
    }
}
