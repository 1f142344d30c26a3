ghost use Rattle.std.specs.Prelude.{◌≡◌, ◌+◌, IfOk};
ghost use Rattle.task_model.specs.Showing.Widget.{shape_term, widget_term};
ghost use Rattle.html_pages.specs.Fragments.{fragment_of, shape_at};

use crate::node::draw_texts;
use crate::texts::Texts;
use std::alloc::Global;
use std::marker::Model;
use std::sync::Arc;
use std::sync::ledger::Ledger;
use task_model::{Face, OutOfMemory, Shape, Steps, Widget, share, shared};
use terminal_view::print_path;

/// What is drawn of one widget, in one block of memory that its copies share. Contracts see its two texts.
#[derive(Drop)]
pub struct Fragment {
    texts: Arc<Texts>,
}

impl Model for Fragment {
    ghost use Rattle.std.specs.Arc.{arc_value};
    ghost use Rattle.html_pages.specs.Fragments.{FragmentTerm};

    ghost Value = { FragmentTerm };

    ghost view = { λ f. arc_value f.texts };
}

impl Fragment {
    ghost use Rattle.html_pages.specs.Fragments.{fragment_text};

    /// The same fragment, in the same memory. It takes none.
    pub fn copy(&self) -> Result<Fragment, OutOfMemory>
        ensures { IfOk result (λ copy. copy ≡ self.now) }
    {
        Ok(Fragment {
            texts: share(&self.texts)?,
        })
    }

    /// Its text for a face: a line with its LF, or HTML.
    pub fn text(&self, face: Face) -> &str
        ensures { result.now ≡ fragment_text face self.now }
    {
        match face {
            Face::Text => self.texts.line.as_str(),
            Face::Html => self.texts.html.as_str(),
        }
    }
}

/// The fragment of a widget. It counts one step.
pub fn draw_node<L: Ledger>(
    alloc: Global,
    w: &Widget,
    steps: &mut Steps<L>,
) -> Result<Fragment, OutOfMemory>
    ensures fragment { IfOk result (λ f. f ≡ fragment_of (widget_term w.now)) }
    ensures steps { steps.new ≡ steps.old + 1 }
{
    steps.tick();
    let path = print_path(alloc, w.path.turns.as_slice())?;
    draw_printed(alloc, path.as_str(), &w.shape)
}

/// The fragment of the widget of a shape at a path, which is given as it is printed. It counts one step.
pub fn draw_at<L: Ledger>(
    alloc: Global,
    path: &str,
    shape: &Shape,
    steps: &mut Steps<L>,
) -> Result<Fragment, OutOfMemory>
    ensures fragment { IfOk result (λ f. f ≡ shape_at path.now (shape_term shape.now)) }
    ensures steps { steps.new ≡ steps.old + 1 }
{
    steps.tick();
    draw_printed(alloc, path, shape)
}

// The same, without a step.
fn draw_printed(alloc: Global, path: &str, shape: &Shape) -> Result<Fragment, OutOfMemory>
    ensures { IfOk result (λ f. f ≡ shape_at path.now (shape_term shape.now)) }
{
    let texts = draw_texts(alloc, path, shape)?;
    Ok(Fragment {
        texts: shared(alloc, texts)?,
    })
}
