//! Tables of widgets with their texts in both faces, and pages of them. A table is a text, and what is told of it are the rows that differ.
ghost use Rattle.std.specs.Prelude.{◌≡◌};

use html_pages::{Fragment, Fragments, Page, draw_node, escape, frame, frame_behind_room};
use literal_text::{read_any, read_basic};
use std::alloc::Global;
use std::marker::Brand;
use std::sync::ledger::{Blank, Ledger};
use std::test::Fail;
use task_model::{
    Basic, Face, OutOfMemory, Path, Row, Shape, Sign, Steps, TaskText, Turn, Turns, Value, Widget,
};
use terminal_view::{draw_line, draw_terminal};

fn path(alloc: Global, letters: &str) -> Result<Path, OutOfMemory> {
    let mut turns = Turns::new(alloc);
    for letter in letters.as_bytes() {
        turns.push(if *letter == b'F' {
            Turn::First
        } else {
            Turn::Second
        })?;
    }
    Ok(Path { turns })
}

fn basic(alloc: Global, name: &str) -> Result<Basic, OutOfMemory> {
    match read_basic(alloc, name.as_bytes()) {
        Ok(b) => Ok(b),
        Err(_) => Err(OutOfMemory),
    }
}

fn value(alloc: Global, literal: &str) -> Result<Value, OutOfMemory> {
    match read_any(alloc, literal.as_bytes()) {
        Ok(v) => Ok(v),
        Err(_) => Err(OutOfMemory),
    }
}

fn drawn<L: Ledger>(alloc: Global, blank: Blank, w: &Widget) -> Result<Fragment, OutOfMemory>
    requires name { blank.name ≡ L.name }
    requires parts { blank.parts ≡ L.parts }
    requires one { blank.parts ≡ 1 }
{
    let mut steps = Steps::<L>::new(blank);
    draw_node(alloc, w, &mut steps)
}

fn fragment(alloc: Global, w: &Widget) -> Result<Fragment, OutOfMemory> {
    drawn::<Brand>(alloc, Blank::new(1), w)
}

// Whether a widget is this line for people, by both ways to draw it, and this text for a browser.
fn is_drawn(alloc: Global, w: &Widget, line: &str, html: &str) -> Result<bool, OutOfMemory> {
    let drawn = fragment(alloc, w)?;
    let is_text = drawn.text(Face::Text) == line && drawn.text(Face::Html) == html;
    let text = draw_line(alloc, w)?;
    Ok(is_text && text.as_str() == line)
}

// The same of a node at a path.
fn is_at(
    alloc: Global,
    letters: &str,
    shape: Shape,
    line: &str,
    html: &str,
) -> Result<bool, OutOfMemory> {
    let path = path(alloc, letters)?;
    is_drawn(alloc, &Widget { path, shape }, line, html)
}

// The form of an act at a path.
fn form(
    alloc: Global,
    path: &str,
    act: &str,
    fields: &str,
    button: &str,
) -> Result<String, OutOfMemory> {
    Ok(format!(in alloc;
        "<form method=\"post\" action=\"/\"><input type=\"hidden\" name=\"path\" value=\"{path}\"><input type=\"hidden\" name=\"act\" value=\"{act}\">{fields}<button>{button}</button></form>\n"
    )?)
}

// Letters of a path, a kind of node and its signs; the line for people; and an act with its button for each form.
const NODES: &str = "\
@then@. then@
F@fail@.F fail@
S@and@.S and@
FFS@or@.FFS or@
F@step no@.F step@
F@step yes@.F step next@next=next
F@step over@.F step next?@next=next?
@pick yes no@. pick left@left=left
@pick no over@. pick right?@right=right?
@pick over yes@. pick left? right@left=left? right=right";

fn sign(word: &str) -> Sign {
    match word {
        "yes" => Sign::Yes,
        "over" => Sign::Over,
        _ => Sign::No,
    }
}

fn shape(kind: &str, signs: &str) -> Shape {
    let (first, second) = signs.split_once(' ').unwrap_or((signs, ""));
    match kind {
        "then" => Shape::Then,
        "fail" => Shape::Fail,
        "and" => Shape::And,
        "or" => Shape::Or,
        "step" => Shape::Step(sign(first)),
        _ => Shape::Pick(sign(first), sign(second)),
    }
}

// The forms of acts with their buttons, at a path.
fn forms(alloc: Global, path: &str, acts: &str) -> Result<String, OutOfMemory> {
    let mut all = String::new(alloc);
    for act in acts.split(' ') {
        if let Some((act, button)) = act.split_once('=') {
            all.push_str(form(alloc, path, act, "", button)?.as_str())?;
        }
    }
    Ok(all)
}

fn is_node(alloc: Global, row: &str) -> Result<bool, OutOfMemory> {
    let (letters, rest) = row.split_once('@').unwrap_or((row, ""));
    let (words, rest) = rest.split_once('@').unwrap_or((rest, ""));
    let (line, acts) = rest.split_once('@').unwrap_or((rest, ""));
    let (kind, signs) = words.split_once(' ').unwrap_or((words, ""));
    let path = format!(in alloc; ".{letters}")?;
    let forms = forms(alloc, path.as_str(), acts)?;
    let line = format!(in alloc; "{line}\n")?;
    let html = format!(in alloc; "<p>{path} {kind}</p>\n{forms}")?;
    is_at(
        alloc,
        letters,
        shape(kind, signs),
        line.as_str(),
        html.as_str(),
    )
}

// What an editor is called, its type, its literal as it is read and, behind a blank, as it is printed, and its fields. The last two hold a value
// of another type than the editor's, which goes by the editor's type.
const EDITORS: &str =
    r#"edit@unit@()@ ()@<input type="hidden" name="as" value="unit"><input name="value" value="()">

edit@bool@true@ true@<input type="hidden" name="as" value="bool"><input name="value" value="true">

share@int@-05@ -5@<input type="hidden" name="as" value="int"><input name="value" value="-5">

share@text@"a"@ "a"@<input type="hidden" name="as" value="raw"><textarea name="value">
a</textarea>

edit@(int, text)@(1,"<")@ (1, "<")@<input type="hidden" name="as" value="(int, text)"><input name="value" value="(1, &quot;&lt;&quot;)">

edit@[text]@["a","\n"]@ ["a", "\n"]@<input type="hidden" name="as" value="[text]"><input name="value" value="[&quot;a&quot;, &quot;\n&quot;]">

enter@int@@@<input type="hidden" name="as" value="int"><input name="value" value="">

enter@text@@@<input type="hidden" name="as" value="raw"><textarea name="value">
</textarea>

edit@text@(1,"<")@ (1, "<")@<input type="hidden" name="as" value="raw"><textarea name="value">
(1, &quot;&lt;&quot;)</textarea>

edit@int@"<"@ "<"@<input type="hidden" name="as" value="int"><input name="value" value="&quot;&lt;&quot;">"#;

fn editor(alloc: Global, word: &str, name: &str, literal: &str) -> Result<Shape, OutOfMemory> {
    let b = basic(alloc, name)?;
    match word {
        "edit" => Ok(Shape::Edit(b, value(alloc, literal)?)),
        "share" => Ok(Shape::Share(b, value(alloc, literal)?)),
        _ => Ok(Shape::Enter(b)),
    }
}

// Whether an editor at the root has this head, this line for people and these fields.
fn is_shown(
    alloc: Global,
    shape: Shape,
    head: &str,
    line: &str,
    fields: &str,
) -> Result<bool, OutOfMemory> {
    let form = form(alloc, ".", "set", fields, "set")?;
    let html = format!(in alloc; "<p>. {head}</p>\n{form}")?;
    is_at(alloc, "", shape, line, html.as_str())
}

fn is_editor(alloc: Global, row: &str) -> Result<bool, OutOfMemory> {
    let (word, rest) = row.split_once('@').unwrap_or((row, ""));
    let (name, rest) = rest.split_once('@').unwrap_or((rest, ""));
    let (read, rest) = rest.split_once('@').unwrap_or((rest, ""));
    let (printed, fields) = rest.split_once('@').unwrap_or((rest, ""));
    let head = format!(in alloc; "{word} {name}")?;
    let line = format!(in alloc; ". {head}{printed}\n")?;
    let shape = editor(alloc, word, name, read)?;
    is_shown(alloc, shape, head.as_str(), line.as_str(), fields)
}

// Contents of editors of text, each with its literal and what the area of its form holds.
const CONTENTS: &str = "@\"\"@|\
<b>&\"@\"<b>&\\\"\"@&lt;b&gt;&amp;&quot;|\
</textarea>@\"</textarea>\"@&lt;/textarea&gt;|\
&lt;@\"&lt;\"@&amp;lt;|\
\n\na@\"\\n\\na\"@\n\na|\
it's \\ \"@\"it's \\\\ \\\"\"@it's \\ &quot;|\
a\u{e9}<\u{1f600}>@\"a\u{e9}<\u{1f600}>\"@a\u{e9}&lt;\u{1f600}&gt;|\
\x00\x01\x02\x03\x04\x05\x06\x07\x08\t\n\x0b\x0c\r\x0e\x0f@\
\"\\x00\\x01\\x02\\x03\\x04\\x05\\x06\\x07\\x08\\t\\n\\x0b\\x0c\\r\\x0e\\x0f\"@\
\x00\x01\x02\x03\x04\x05\x06\x07\x08\t\n\x0b\x0c\r\x0e\x0f|\
\x10\x11\x12\x13\x14\x15\x16\x17\x18\x19\x1a\x1b\x1c\x1d\x1e\x1f\x7f@\
\"\\x10\\x11\\x12\\x13\\x14\\x15\\x16\\x17\\x18\\x19\\x1a\\x1b\\x1c\\x1d\\x1e\\x1f\\x7f\"@\
\x10\x11\x12\x13\x14\x15\x16\x17\x18\x19\x1a\x1b\x1c\x1d\x1e\x1f\x7f";

fn is_content(alloc: Global, row: &str) -> Result<bool, OutOfMemory> {
    let (content, rest) = row.split_once('@').unwrap_or((row, ""));
    let (literal, area) = rest.split_once('@').unwrap_or((rest, ""));
    let line = format!(in alloc; ". edit text {literal}\n")?;
    let fields = format!(in alloc;
        "<input type=\"hidden\" name=\"as\" value=\"raw\"><textarea name=\"value\">\n{area}</textarea>"
    )?;
    let shape = Shape::Edit(Basic::Text, Value::Text(TaskText::of(alloc, content)?));
    is_shown(alloc, shape, "edit text", line.as_str(), fields.as_str())
}

/// What the rows of a table are.
#[derive(Clone, Copy)]
enum Rows {
    Nodes,
    Editors,
    Contents,
}

impl Rows {
    fn is_right(self, alloc: Global, row: &str) -> Result<bool, OutOfMemory> {
        match self {
            Rows::Nodes => is_node(alloc, row),
            Rows::Editors => is_editor(alloc, row),
            Rows::Contents => is_content(alloc, row),
        }
    }

    // The rows of a table that differ, which stand between texts of this kind.
    fn wrong(self, alloc: Global, table: &str, between: &str) -> Result<String, OutOfMemory> {
        let mut wrong = String::new(alloc);
        for row in table.split(between) {
            if !self.is_right(alloc, row)? {
                wrong.push_str(row)?;
                wrong.push('\n')?;
            }
        }
        Ok(wrong)
    }
}

#[test]
fn widgets(rt: HostRuntime) -> Result<(), Fail> {
    let mut wrong = Rows::Nodes.wrong(rt.alloc(), NODES, "\n")?;
    wrong.push_str(Rows::Editors.wrong(rt.alloc(), EDITORS, "\n\n")?.as_str())?;
    wrong.push_str(Rows::Contents.wrong(rt.alloc(), CONTENTS, "|")?.as_str())?;
    assert!(rt; wrong.is_empty(), "{}", wrong.as_str());
    Ok(())
}

#[test]
fn entities(rt: HostRuntime) -> Result<(), Fail> {
    let text = TaskText::of(rt.alloc(), "&&<>\"'")?;
    let escaped = escape(rt.alloc(), &text)?;
    assert_eq!(rt; escaped.as_str(), "&amp;&amp;&lt;&gt;&quot;'");
    Ok(())
}

fn two_widgets(alloc: Global) -> Result<Row<Widget>, OutOfMemory> {
    let mut widgets = Row::new(alloc);
    widgets.reserve(2)?;
    for letters in ["", "S"] {
        let path = path(alloc, letters)?;
        widgets.push(Widget {
            path,
            shape: Shape::Then,
        })?;
    }
    Ok(widgets)
}

fn fragments(alloc: Global, widgets: &[Widget]) -> Result<Fragments, OutOfMemory> {
    let mut list = Fragments::new(alloc);
    for w in widgets {
        let drawn = fragment(alloc, w)?;
        list.push(drawn.copy()?)?;
    }
    Ok(list)
}

fn two_fragments(alloc: Global) -> Result<Fragments, OutOfMemory> {
    fragments(alloc, two_widgets(alloc)?.as_slice())
}

// Whether a page has the greatest version, this text and its bytes.
fn is_page(page: Page, want: &str) -> bool {
    let is_text = page.version() == u64::MAX && page.text() == want;
    is_text && page.into_bytes().as_slice() == want.as_bytes()
}

// Whether the page of two fragments is so, with and without room in front.
fn is_both(alloc: Global, face: Face, want: &str) -> Result<bool, OutOfMemory> {
    let list = two_fragments(alloc)?;
    let narrow = is_page(frame(alloc, face, u64::MAX, 64, &list)?, want);
    Ok(narrow && is_page(frame_behind_room(alloc, face, u64::MAX, 64, &list)?, want))
}

const LINES: &str = "version 18446744073709551615 seat 64\n. then\n.S then\n";

const BROWSED: &str =
    "<!DOCTYPE html>\n<html lang=\"en\"><head><meta charset=\"utf-8\"><title>tophat</title></head><body>\n<p>version 18446744073709551615 seat 64</p>\n<p>. then</p>\n<p>.S then</p>\n</body></html>\n";

#[test]
fn pages(rt: HostRuntime) -> Result<(), Fail> {
    let is_text = is_both(rt.alloc(), Face::Text, LINES)?;
    let is_html = is_both(rt.alloc(), Face::Html, BROWSED)?;
    assert!(rt; is_text && is_html);
    let widgets = two_widgets(rt.alloc())?;
    let terminal = draw_terminal(rt.alloc(), u64::MAX, 64, widgets.as_slice())?;
    assert_eq!(rt; terminal.as_str(), LINES);
    Ok(())
}

// Whether a page stands behind a head of so many bytes.
fn is_headed(alloc: Global, page: Page, size: usize) -> Result<bool, OutOfMemory> {
    let mut head = String::new(alloc);
    for _ in 0..size {
        head.push_str("h")?;
    }
    let want = format!(in alloc; "{head}{}", page.text())?;
    Ok(page.behind(alloc, head.as_bytes())?.as_slice() == want.as_bytes())
}

// Whether a page with room does, and one without.
fn are_headed(alloc: Global, size: usize) -> Result<bool, OutOfMemory> {
    let list = two_fragments(alloc)?;
    let roomy = is_headed(
        alloc,
        frame_behind_room(alloc, Face::Html, 7, 1, &list)?,
        size,
    )?;
    Ok(roomy && is_headed(alloc, frame(alloc, Face::Html, 7, 1, &list)?, size)?)
}

// Heads that need less than the room, all of it, and more; and pages without room.
#[test]
fn heads(rt: HostRuntime) -> Result<(), Fail> {
    for size in [0, 1, 255, 256, 257] {
        assert!(rt; are_headed(rt.alloc(), size)?, "{size}");
    }
    Ok(())
}
