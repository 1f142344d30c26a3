ghost use Rattle.std.specs.Prelude.{◌≡◌, ◌++◌, codes, OnOk, string_bytes};
ghost use Rattle.task_model.specs.Terms.Basic.{basic_term};
ghost use Rattle.task_model.specs.Syntax.Literal.{basic_text};
ghost use Rattle.task_model.specs.Showing.Html as model;
ghost use Rattle.html_pages.specs.FormParts.{form_end, form_start, literal_fields, text_field};

use crate::escaping::push_escaped;
use task_model::{Basic, OutOfMemory, Sign};
use terminal_view::push;

/// A line of its own behind the text, of a path and a word.
pub(crate) fn push_line(text: &mut String, path: &str, word: &str) -> Result<(), OutOfMemory>
    ensures { OnOk result (string_bytes text.new ≡ string_bytes text.old ++ model.paragraph (path.now ++ word.now)) }
{
    push(text, "<p>")?;
    push(text, path)?;
    push(text, word)?;
    push(text, "</p>\n")
}

/// The form of an act behind the text, where it is offered.
pub(crate) fn push_sign(
    text: &mut String,
    path: &str,
    act: &str,
    sign: Sign,
) -> Result<(), OutOfMemory>
    ensures { OnOk result (string_bytes text.new ≡ string_bytes text.old ++ model.sign_form path.now act.now sign) }
{
    match sign {
        Sign::No => Ok(()),
        Sign::Yes => {
            push_form(text, path, act)?;
            push_button(text, act, "")
        }
        Sign::Over => {
            push_form(text, path, act)?;
            push_button(text, act, "?")
        }
    }
}

/// An editor behind the text: a line, and the form that sets it. Its type's name is given, and what its field shows without entities.
pub(crate) fn push_editor(
    text: &mut String,
    path: &str,
    word: &str,
    b: &Basic,
    name: &str,
    shown: &str,
) -> Result<(), OutOfMemory>
    requires { name.now ≡ basic_text (basic_term b.now) }
    ensures { OnOk result (string_bytes text.new ≡ string_bytes text.old
        ++ model.editor_text path.now word.now (basic_term b.now) (model.html_escaped shown.now)) }
{
    push_editor_line(text, path, word, name)?;
    push_form(text, path, "set")?;
    push_fields(text, b, name, shown)?;
    push_button(text, "set", "")
}

fn push_editor_line(
    text: &mut String,
    path: &str,
    word: &str,
    name: &str,
) -> Result<(), OutOfMemory>
    ensures { OnOk result (string_bytes text.new ≡ string_bytes text.old
        ++ model.paragraph (path.now ++ codes " " ++ word.now ++ codes " " ++ name.now)) }
{
    push(text, "<p>")?;
    push(text, path)?;
    push(text, " ")?;
    push(text, word)?;
    push(text, " ")?;
    push(text, name)?;
    push(text, "</p>\n")
}

// The beginning of a form that sends an act at a path.
fn push_form(text: &mut String, path: &str, act: &str) -> Result<(), OutOfMemory>
    ensures { OnOk result (string_bytes text.new ≡ string_bytes text.old ++ form_start path.now act.now) }
{
    push(
        text,
        "<form method=\"post\" action=\"/\"><input type=\"hidden\" name=\"path\" value=\"",
    )?;
    push(text, path)?;
    push(text, "\"><input type=\"hidden\" name=\"act\" value=\"")?;
    push(text, act)?;
    push(text, "\">")
}

// The end of a form: its button, with a word and what stands behind it.
fn push_button(text: &mut String, word: &str, mark: &str) -> Result<(), OutOfMemory>
    ensures { OnOk result (string_bytes text.new ≡ string_bytes text.old ++ form_end (word.now ++ mark.now)) }
{
    push(text, "<button>")?;
    push(text, word)?;
    push(text, mark)?;
    push(text, "</button></form>\n")
}

fn push_fields(text: &mut String, b: &Basic, name: &str, shown: &str) -> Result<(), OutOfMemory>
    requires { name.now ≡ basic_text (basic_term b.now) }
    ensures { OnOk result (string_bytes text.new ≡ string_bytes text.old
        ++ model.editor_fields (basic_term b.now) (model.html_escaped shown.now)) }
{
    match b {
        Basic::Text => push_text_field(text, shown),
        Basic::Unit => push_literal_fields(text, name, shown),
        Basic::Bool => push_literal_fields(text, name, shown),
        Basic::Int => push_literal_fields(text, name, shown),
        Basic::Pair(_, _) => push_literal_fields(text, name, shown),
        Basic::List(_) => push_literal_fields(text, name, shown),
    }
}

// A text is edited raw, in an area.
fn push_text_field(text: &mut String, shown: &str) -> Result<(), OutOfMemory>
    ensures { OnOk result (string_bytes text.new ≡ string_bytes text.old ++ text_field (model.html_escaped shown.now)) }
{
    push(
        text,
        "<input type=\"hidden\" name=\"as\" value=\"raw\"><textarea name=\"value\">\n",
    )?;
    push_escaped(text, shown)?;
    push(text, "</textarea>")
}

// Any other type is edited as a literal.
fn push_literal_fields(text: &mut String, name: &str, shown: &str) -> Result<(), OutOfMemory>
    ensures { OnOk result (string_bytes text.new ≡ string_bytes text.old ++ literal_fields name.now (model.html_escaped shown.now)) }
{
    push(text, "<input type=\"hidden\" name=\"as\" value=\"")?;
    push(text, name)?;
    push(text, "\"><input name=\"value\" value=\"")?;
    push_escaped(text, shown)?;
    push(text, "\">")
}
