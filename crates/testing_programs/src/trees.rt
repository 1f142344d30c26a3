//! Trees and values as text.

use literal_text::{print_basic, print_value};
use std::alloc::Global;
use task_model::{Basic, Cont, Delay, OutOfMemory, Row, Slot, Tree, Value};

// The word of an editor, and its type.
fn push_editor(
    alloc: Global,
    text: &mut String,
    word: &str,
    basic: &Basic,
) -> Result<(), OutOfMemory> {
    text.push_str(word)?;
    text.push_str(print_basic(alloc, basic)?.as_str())?;
    Ok(())
}

fn push_slot(alloc: Global, text: &mut String, slot: &Slot) -> Result<(), OutOfMemory> {
    match slot {
        Slot::Plain(v) => text.push_str(print_value(alloc, v)?.as_str())?,
        Slot::Place(place) => text.push_str(format!(in alloc; "#{place}")?.as_str())?,
    }
    Ok(())
}

// A body's number, and its slots.
fn push_later(
    alloc: Global,
    text: &mut String,
    body: u32,
    slots: &Row<Slot>,
) -> Result<(), OutOfMemory> {
    text.push_str(format!(in alloc; "{body}(")?.as_str())?;
    let mut between = "";
    for slot in slots.as_slice() {
        text.push_str(between)?;
        push_slot(alloc, text, slot)?;
        between = " ";
    }
    text.push(')')?;
    Ok(())
}

fn push_edit(
    alloc: Global,
    text: &mut String,
    basic: &Basic,
    v: &Value,
) -> Result<(), OutOfMemory> {
    push_editor(alloc, text, "edit ", basic)?;
    text.push(' ')?;
    text.push_str(print_value(alloc, v)?.as_str())?;
    Ok(())
}

fn push_share(
    alloc: Global,
    text: &mut String,
    basic: &Basic,
    place: u64,
) -> Result<(), OutOfMemory> {
    push_editor(alloc, text, "share ", basic)?;
    text.push_str(format!(in alloc; " #{place}")?.as_str())?;
    Ok(())
}

// A step behind its left part.
fn push_step(alloc: Global, text: &mut String, sign: &str, k: &Cont) -> Result<(), OutOfMemory> {
    text.push_str(sign)?;
    push_later(alloc, text, k.body, &k.slots)?;
    text.push(')')?;
    Ok(())
}

fn push_choice(alloc: Global, text: &mut String, j: &Delay, k: &Delay) -> Result<(), OutOfMemory> {
    text.push('(')?;
    push_later(alloc, text, j.body, &j.slots)?;
    text.push_str(" <?> ")?;
    push_later(alloc, text, k.body, &k.slots)?;
    text.push(')')?;
    Ok(())
}

fn push_tree(alloc: Global, text: &mut String, t: &Tree) -> Result<(), OutOfMemory> {
    match t {
        Tree::Edit(basic, v) => push_edit(alloc, text, basic, v)?,
        Tree::Enter(basic) => push_editor(alloc, text, "enter ", basic)?,
        Tree::Share(basic, place) => push_share(alloc, text, basic, *place)?,
        Tree::Fail => text.push_str("fail")?,
        Tree::Then(left, k) => {
            text.push('(')?;
            push_tree(alloc, text, left)?;
            push_step(alloc, text, " >>= ", k)?;
        }
        Tree::Next(left, k) => {
            text.push('(')?;
            push_tree(alloc, text, left)?;
            push_step(alloc, text, " >>? ", k)?;
        }
        Tree::And(a, b) => {
            text.push('(')?;
            push_tree(alloc, text, a)?;
            text.push_str(" <&> ")?;
            push_tree(alloc, text, b)?;
            text.push(')')?;
        }
        Tree::Or(a, b) => {
            text.push('(')?;
            push_tree(alloc, text, a)?;
            text.push_str(" <|> ")?;
            push_tree(alloc, text, b)?;
            text.push(')')?;
        }
        Tree::Xor(j, k) => push_choice(alloc, text, j, k)?,
    }
    Ok(())
}

/// A tree: its editors with their types, values and places, and the bodies of its steps and choices with their slots.
pub fn tree_text(alloc: Global, t: &Tree) -> Result<String, OutOfMemory> {
    let mut text = String::new(alloc);
    push_tree(alloc, &mut text, t)?;
    Ok(text)
}
