ghost use Rattle.std.specs.Prelude.{◌≡◌, ◌++◌, [], codes, IfOk, string_bytes};
ghost use Rattle.task_model.specs.Terms.Basic.{basic_term, text_type};
ghost use Rattle.task_model.specs.Terms.Value.{value_term};
ghost use Rattle.task_model.specs.Syntax.Literal.{value_text};
ghost use Rattle.task_model.specs.Showing.Widget.{shape_term};
ghost use Rattle.task_model.specs.Showing.Page.{shape_text};
ghost use Rattle.task_model.specs.Showing.Html as model;
ghost use Rattle.html_pages.specs.Fragments.{empty_fragment, shape_at, valued_fragment};

use crate::forms::{push_editor, push_line, push_sign};
use crate::texts::Texts;
use literal_text::{print_basic, print_value};
use std::alloc::Global;
use task_model::{Basic, OutOfMemory, Shape, Sign, Value};
use terminal_view::{push_empty_editor, push_shape, push_valued_editor};

// A text is made with room for its path where that stands in it, and for so many bytes more: a line needs that seldom, the HTML text of an editor
// seldom, and that of a node that is named by a word never.
const LINE_ROOM: usize = 32;

const EDITOR_ROOM: usize = 320;

const WORD_ROOM: usize = 16;

/// The texts of what is shown at a path, which is given as it is printed. A value's literal is printed once for both.
pub(crate) fn draw_texts(alloc: Global, path: &str, shape: &Shape) -> Result<Texts, OutOfMemory>
    ensures { IfOk result (λ texts. texts ≡ shape_at path.now (shape_term shape.now)) }
{
    match shape {
        Shape::Edit(b, v) => draw_valued(alloc, path, "edit", b, v),
        Shape::Enter(b) => draw_empty(alloc, path, b),
        Shape::Share(b, v) => draw_valued(alloc, path, "share", b, v),
        Shape::Then => with_line(alloc, path, shape, draw_word(alloc, path, " then")?),
        Shape::Step(sign) => with_line(alloc, path, shape, draw_step(alloc, path, *sign)?),
        Shape::Fail => with_line(alloc, path, shape, draw_word(alloc, path, " fail")?),
        Shape::And => with_line(alloc, path, shape, draw_word(alloc, path, " and")?),
        Shape::Or => with_line(alloc, path, shape, draw_word(alloc, path, " or")?),
        Shape::Pick(left, right) => {
            with_line(alloc, path, shape, draw_pick(alloc, path, *left, *right)?)
        }
    }
}

// An empty line with room for a path.
fn roomy_line(alloc: Global, path: &str) -> Result<String, OutOfMemory>
    ensures { IfOk result (λ text. string_bytes text ≡ []) }
{
    let room = path.len().saturating_add(LINE_ROOM);
    Ok(String::with_capacity(alloc, room)?)
}

// An empty HTML text with room for a path twice, and for so many bytes more.
fn roomy_html(alloc: Global, path: &str, more: usize) -> Result<String, OutOfMemory>
    ensures { IfOk result (λ text. string_bytes text ≡ []) }
{
    let room = path.len().saturating_mul(2).saturating_add(more);
    Ok(String::with_capacity(alloc, room)?)
}

fn with_line(alloc: Global, path: &str, shape: &Shape, html: String) -> Result<Texts, OutOfMemory>
    ensures { IfOk result (λ texts. texts ≡ record {
      line = path.now ++ shape_text (shape_term shape.now) ++ codes "\n";
      html = string_bytes html;
    }) }
{
    let mut line = roomy_line(alloc, path)?;
    push_shape(alloc, &mut line, path, shape)?;
    Ok(Texts { line, html })
}

fn draw_valued(
    alloc: Global,
    path: &str,
    word: &str,
    b: &Basic,
    v: &Value,
) -> Result<Texts, OutOfMemory>
    ensures { IfOk result (λ texts. texts ≡ valued_fragment path.now word.now (basic_term b.now) (value_term v.now)) }
{
    let name = print_basic(alloc, b)?;
    let literal = print_value(alloc, v)?;
    let mut line = roomy_line(alloc, path)?;
    push_valued_editor(&mut line, path, word, name.as_str(), literal.as_str())?;
    let mut html = roomy_html(alloc, path, EDITOR_ROOM)?;
    push_editor(
        &mut html,
        path,
        word,
        b,
        name.as_str(),
        shown(b, v, literal.as_str()),
    )?;
    Ok(Texts { line, html })
}

fn draw_empty(alloc: Global, path: &str, b: &Basic) -> Result<Texts, OutOfMemory>
    ensures { IfOk result (λ texts. texts ≡ empty_fragment path.now (basic_term b.now)) }
{
    let name = print_basic(alloc, b)?;
    let mut line = roomy_line(alloc, path)?;
    push_empty_editor(&mut line, path, name.as_str())?;
    let mut html = roomy_html(alloc, path, EDITOR_ROOM)?;
    push_editor(&mut html, path, "enter", b, name.as_str(), "")?;
    Ok(Texts { line, html })
}

// What an editor's field shows, without entities: the content where the type is text, and else the literal.
fn shown<'a>(b: &Basic, v: &'a Value, literal: &'a str) -> &'a str
    requires { literal.now ≡ value_text (value_term v.now) }
    ensures { model.html_escaped result.now ≡ model.shown_value (basic_term b.now) (value_term v.now) }
{
    match b {
        Basic::Text => content(v, literal),
        Basic::Unit => literal,
        Basic::Bool => literal,
        Basic::Int => literal,
        Basic::Pair(_, _) => literal,
        Basic::List(_) => literal,
    }
}

// What an editor of text shows of a value.
fn content<'a>(v: &'a Value, literal: &'a str) -> &'a str
    requires { literal.now ≡ value_text (value_term v.now) }
    ensures { model.html_escaped result.now ≡ model.shown_value text_type (value_term v.now) }
{
    match v {
        Value::Text(text) => text.as_str(),
        Value::Unit => literal,
        Value::Bool(_) => literal,
        Value::Int(_) => literal,
        Value::Pair(_, _) => literal,
        Value::List(_) => literal,
    }
}

fn draw_word(alloc: Global, path: &str, word: &str) -> Result<String, OutOfMemory>
    ensures { IfOk result (λ html. string_bytes html ≡ model.paragraph (path.now ++ word.now)) }
{
    let mut html = roomy_html(alloc, path, WORD_ROOM)?;
    push_line(&mut html, path, word)?;
    Ok(html)
}

fn draw_step(alloc: Global, path: &str, sign: Sign) -> Result<String, OutOfMemory>
    ensures { IfOk result (λ html. string_bytes html
        ≡ model.paragraph (path.now ++ codes " step") ++ model.sign_form path.now (codes "next") sign) }
{
    let mut html = draw_word(alloc, path, " step")?;
    push_sign(&mut html, path, "next", sign)?;
    Ok(html)
}

fn draw_pick(alloc: Global, path: &str, left: Sign, right: Sign) -> Result<String, OutOfMemory>
    ensures { IfOk result (λ html. string_bytes html
        ≡ model.paragraph (path.now ++ codes " pick") ++ model.sign_form path.now (codes "left") left
        ++ model.sign_form path.now (codes "right") right) }
{
    let mut html = draw_word(alloc, path, " pick")?;
    push_sign(&mut html, path, "left", left)?;
    push_sign(&mut html, path, "right", right)?;
    Ok(html)
}
