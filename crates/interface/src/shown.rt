ghost use Rattle.std.specs.Prelude.{◌≡◌, [], ◌∷◌, ◌++◌, map, OnOk};
ghost use Rattle.task_model.specs.Showing.Widget.{here, shape_term, widget_term};
ghost use Rattle.task_tree.specs.Below.{widget_below};

use std::alloc::Global;
use task_model::{OutOfMemory, Row, Shape, Widget};
use task_tree::Trail;

/// Where a walk through a tree is, and the widgets of the nodes that it has met.
#[derive(Drop)]
pub(crate) struct Shown {
    pub(crate) trail: Trail,
    pub(crate) widgets: Row<Widget>,
}

impl Shown {
    /// At the root, with no widget.
    pub(crate) fn new(alloc: Global) -> Shown
        ensures trail { result.trail ≡ [] }
        ensures widgets { result.widgets.list ≡ [] }
    {
        Shown {
            trail: Trail::new(alloc),
            widgets: Row::new(alloc),
        }
    }

    /// Adds the widget of the node where the walk is.
    pub(crate) fn push(&mut self, shape: Shape) -> Result<(), OutOfMemory>
        ensures trail { self.new.trail ≡ self.old.trail }
        ensures widgets { OnOk result (map widget_term self.new.widgets.list ≡ map widget_term self.old.widgets.list
            ++ map (widget_below self.old.trail) (here (shape_term shape) ∷ [])) }
    {
        let path = self.trail.path()?;
        self.widgets.push(Widget { path, shape })
    }
}
