ghost use Rattle.std.specs.Prelude.{◌≡◌, ◌++◌, codes, IfOk, OnOk, string_bytes};
ghost use Rattle.task_model.specs.Terms.Basic.{basic_term};
ghost use Rattle.task_model.specs.Terms.Value.{value_term};
ghost use Rattle.task_model.specs.Syntax.Literal.{basic_text, value_text};
ghost use Rattle.task_model.specs.Showing.Widget.{shape_term, widget_term};
ghost use Rattle.task_model.specs.Showing.Page as model;

use crate::writing::{print_path, push};
use literal_text::{print_basic, print_value};
use std::alloc::Global;
use task_model::{Basic, OutOfMemory, Shape, Sign, TaskText, Value, Widget};

/// The line of a widget, with its LF.
pub fn draw_line(alloc: Global, w: &Widget) -> Result<TaskText, OutOfMemory>
    ensures { IfOk result (λ text. text ≡ model.widget_line (widget_term w.now)) }
{
    let mut text = String::new(alloc);
    push_line(alloc, &mut text, w)?;
    TaskText::of_string(text)
}

/// The line of a widget behind the text, with its LF.
pub(crate) fn push_line(alloc: Global, text: &mut String, w: &Widget) -> Result<(), OutOfMemory>
    ensures { OnOk result (string_bytes text.new ≡ string_bytes text.old ++ model.widget_line (widget_term w.now)) }
{
    let path = print_path(alloc, w.path.turns.as_slice())?;
    push_shape(alloc, text, path.as_str(), &w.shape)
}

/// The line of what is shown at a path behind the text, with its LF.
pub fn push_shape(
    alloc: Global,
    text: &mut String,
    path: &str,
    shape: &Shape,
) -> Result<(), OutOfMemory>
    ensures { OnOk result (string_bytes text.new ≡ string_bytes text.old
        ++ path.now ++ model.shape_text (shape_term shape.now) ++ codes "\n") }
{
    match shape {
        Shape::Edit(b, v) => push_valued(alloc, text, path, "edit", b, v),
        Shape::Enter(b) => push_empty(alloc, text, path, b),
        Shape::Share(b, v) => push_valued(alloc, text, path, "share", b, v),
        Shape::Then => push_word(text, path, " then"),
        Shape::Step(sign) => push_step(text, path, *sign),
        Shape::Fail => push_word(text, path, " fail"),
        Shape::And => push_word(text, path, " and"),
        Shape::Or => push_word(text, path, " or"),
        Shape::Pick(left, right) => push_pick(text, path, *left, *right),
    }
}

/// The line of an editor that holds a value behind the text: its path, what it is called, its type's name and its value's literal.
pub fn push_valued_editor(
    text: &mut String,
    path: &str,
    word: &str,
    basic: &str,
    literal: &str,
) -> Result<(), OutOfMemory>
    ensures { OnOk result (string_bytes text.new ≡ string_bytes text.old
        ++ path.now ++ (codes " " ++ word.now ++ codes " " ++ basic.now ++ codes " " ++ literal.now) ++ codes "\n") }
{
    push(text, path)?;
    push(text, " ")?;
    push(text, word)?;
    push(text, " ")?;
    push(text, basic)?;
    push(text, " ")?;
    push(text, literal)?;
    push(text, "\n")
}

/// The line of an editor that holds no value behind the text: its path, and its type's name.
pub fn push_empty_editor(text: &mut String, path: &str, basic: &str) -> Result<(), OutOfMemory>
    ensures { OnOk result (string_bytes text.new ≡ string_bytes text.old
        ++ path.now ++ (codes " enter " ++ basic.now) ++ codes "\n") }
{
    push(text, path)?;
    push(text, " enter ")?;
    push(text, basic)?;
    push(text, "\n")
}

fn push_valued(
    alloc: Global,
    text: &mut String,
    path: &str,
    word: &str,
    b: &Basic,
    v: &Value,
) -> Result<(), OutOfMemory>
    ensures { OnOk result (string_bytes text.new ≡ string_bytes text.old
        ++ path.now ++ (codes " " ++ word.now ++ codes " " ++ basic_text (basic_term b.now) ++ codes " "
        ++ value_text (value_term v.now)) ++ codes "\n") }
{
    let basic = print_basic(alloc, b)?;
    let literal = print_value(alloc, v)?;
    push_valued_editor(text, path, word, basic.as_str(), literal.as_str())
}

fn push_empty(alloc: Global, text: &mut String, path: &str, b: &Basic) -> Result<(), OutOfMemory>
    ensures { OnOk result (string_bytes text.new ≡ string_bytes text.old
        ++ path.now ++ (codes " enter " ++ basic_text (basic_term b.now)) ++ codes "\n") }
{
    let basic = print_basic(alloc, b)?;
    push_empty_editor(text, path, basic.as_str())
}

// The line of a node that is named by a word.
fn push_word(text: &mut String, path: &str, word: &str) -> Result<(), OutOfMemory>
    ensures { OnOk result (string_bytes text.new ≡ string_bytes text.old ++ path.now ++ word.now ++ codes "\n") }
{
    push(text, path)?;
    push(text, word)?;
    push(text, "\n")
}

fn push_step(text: &mut String, path: &str, sign: Sign) -> Result<(), OutOfMemory>
    ensures { OnOk result (string_bytes text.new ≡ string_bytes text.old
        ++ path.now ++ (codes " step" ++ model.sign_text (codes "next") sign) ++ codes "\n") }
{
    push(text, path)?;
    push(text, " step")?;
    push_sign(text, "next", sign)?;
    push(text, "\n")
}

fn push_pick(text: &mut String, path: &str, left: Sign, right: Sign) -> Result<(), OutOfMemory>
    ensures { OnOk result (string_bytes text.new ≡ string_bytes text.old
        ++ path.now ++ (codes " pick" ++ model.sign_text (codes "left") left ++ model.sign_text (codes "right") right)
        ++ codes "\n") }
{
    push(text, path)?;
    push(text, " pick")?;
    push_sign(text, "left", left)?;
    push_sign(text, "right", right)?;
    push(text, "\n")
}

// What is offered, with a question mark where that isn't known within the budget.
fn push_sign(text: &mut String, word: &str, sign: Sign) -> Result<(), OutOfMemory>
    ensures { OnOk result (string_bytes text.new ≡ string_bytes text.old ++ model.sign_text word.now sign) }
{
    match sign {
        Sign::No => Ok(()),
        Sign::Yes => {
            push(text, " ")?;
            push(text, word)
        }
        Sign::Over => {
            push(text, " ")?;
            push(text, word)?;
            push(text, "?")
        }
    }
}
