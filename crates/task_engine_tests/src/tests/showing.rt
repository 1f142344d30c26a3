//! Trees and stores as text.

use literal_text::print_value;
use std::alloc::Global;
use task_model::{OutOfMemory, Value};
use testing_engine::Bench;
use testing_programs::tree_text;

fn push_values(alloc: Global, text: &mut String, values: &[Value]) -> Result<(), OutOfMemory> {
    text.push_str(" [")?;
    let mut between = "";
    for v in values {
        text.push_str(between)?;
        text.push_str(print_value(alloc, v)?.as_str())?;
        between = " ";
    }
    text.push(']')?;
    Ok(())
}

/// The tree, where there is one, and the values.
pub(super) fn state_text(alloc: Global, bench: &Bench) -> Result<String, OutOfMemory> {
    let mut text = String::new(alloc);
    match bench.tree() {
        Some(t) => text.push_str(tree_text(alloc, t)?.as_str())?,
        None => text.push_str("none")?,
    }
    push_values(alloc, &mut text, bench.values())?;
    Ok(text)
}

/// The layers, the newest first. They are dropped.
pub(super) fn layers_text(alloc: Global, bench: &mut Bench) -> Result<String, OutOfMemory> {
    let mut text = String::new(alloc);
    for _ in 0..bench.layers() {
        bench.drop_layer();
        push_values(alloc, &mut text, bench.values())?;
    }
    Ok(text)
}
