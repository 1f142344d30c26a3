ghost use Rattle.std.specs.Prelude.{◌≡◌, ◌+◌, ◌-◌, ◌<◌, ◌≤◌, [], ◌∷◌, ◌++◌, length, slice_index, OnOk};
ghost use Rattle.task_model.specs.Showing.Widget.{shape_term, widget_term};
ghost use Rattle.html_pages.specs.Fragments.{fragment_of};
ghost use Rattle.node_rows.specs.Rows.{fragments_taken, no_rows, row_at, rows_append, rows_closed, rows_sized, signs_taken, widget_signs};

use crate::signs::Signs;
use crate::sizes::close;
use html_pages::{Fragment, Fragments, draw_at, draw_node};
use std::alloc::Global;
use std::marker::Model;
use std::sync::ledger::Ledger;
use task_model::{OutOfMemory, Shape, Steps, Widget};

/// Rows of nodes, in pre-order. Contracts see the list of the signs, that of the sizes and that of the fragments.
#[derive(Drop)]
pub struct NodeRows {
    signs: Vec<Signs>,
    // How many nodes the part of each one has.
    sizes: Vec<usize>,
    fragments: Fragments,
}

impl Model for NodeRows {
    ghost use Rattle.node_rows.specs.Rows.{RowsTerm};

    ghost Value = { RowsTerm };

    ghost view = { λ r. record { signs = r.signs.items; sizes = r.sizes.items; fragments = r.fragments } };
}

impl NodeRows {
    /// No rows, in no memory.
    pub(crate) fn new(alloc: Global) -> NodeRows
        ensures { result ≡ no_rows }
    {
        NodeRows::of_sizes(alloc, Vec::new(alloc))
    }

    /// The sizes of a tree's parts, before any of its nodes is shown.
    pub(crate) fn of_sizes(alloc: Global, sizes: Vec<usize>) -> NodeRows
        ensures { result ≡ rows_sized sizes.items [] }
    {
        NodeRows {
            signs: Vec::new(alloc),
            sizes,
            fragments: Fragments::new(alloc),
        }
    }

    /// Makes room for the signs and sizes of so many rows more.
    pub(crate) fn reserve(&mut self, count: usize) -> Result<(), OutOfMemory>
        ensures { self.new ≡ self.old }
    {
        self.signs.reserve(count)?;
        self.sizes.reserve(count)?;
        Ok(())
    }

    /// Draws a widget, and puts its signs and its fragment behind the others. It counts one step.
    pub(crate) fn show<L: Ledger>(
        &mut self,
        alloc: Global,
        widget: &Widget,
        steps: &mut Steps<L>,
    ) -> Result<(), OutOfMemory>
        ensures signs { OnOk result (self.new.signs ≡ self.old.signs ++ widget_signs (widget_term widget.now) ∷ []) }
        ensures sizes { self.new.sizes ≡ self.old.sizes }
        ensures fragments { OnOk result (self.new.fragments ≡ self.old.fragments ++ fragment_of (widget_term widget.now) ∷ []) }
        ensures steps { steps.new ≡ steps.old + 1 }
    {
        let fragment = draw_node(alloc, widget, steps)?;
        self.put(fragment, Signs::of(&widget.shape))
    }

    // Puts the signs and the fragment of a node behind the others.
    fn put(&mut self, fragment: Fragment, signs: Signs) -> Result<(), OutOfMemory>
        ensures signs { OnOk result (self.new.signs ≡ self.old.signs ++ signs ∷ []) }
        ensures sizes { self.new.sizes ≡ self.old.sizes }
        ensures fragments { OnOk result (self.new.fragments ≡ self.old.fragments ++ fragment ∷ []) }
    {
        self.fragments.push(fragment)?;
        self.signs.push(signs)?;
        Ok(())
    }

    /// Draws the widget of a shape at a path, which is given as it is printed, and puts its row behind the others: its node has no parts as yet.
    /// It counts one step.
    pub(crate) fn draw<L: Ledger>(
        &mut self,
        alloc: Global,
        path: &str,
        shape: &Shape,
        steps: &mut Steps<L>,
    ) -> Result<(), OutOfMemory>
        ensures row { OnOk result (self.new ≡ rows_append self.old (row_at path.now (shape_term shape.now))) }
        ensures steps { steps.new ≡ steps.old + 1 }
    {
        let fragment = draw_at(alloc, path, shape, steps)?;
        self.put(fragment, Signs::of(shape))?;
        self.sizes.push(1)?;
        Ok(())
    }

    /// The part of the node of this number is all from there on.
    pub(crate) fn close(&mut self, number: usize)
        requires { number < length self.old.sizes }
        ensures { self.new ≡ rows_closed number self.old }
    {
        close(&mut self.sizes, number);
    }

    /// Puts the signs and the sizes of the rows of others from a number on, up to another one, behind these. Their fragments are still to come.
    pub(crate) fn take_signs(
        &mut self,
        others: &NodeRows,
        from: usize,
        to: usize,
    ) -> Result<(), OutOfMemory>
        requires order { from ≤ to }
        requires signs { to ≤ length others.now.signs }
        requires sizes { to ≤ length others.now.sizes }
        ensures { OnOk result (self.new ≡ signs_taken self.old from (to - from) others.now) }
    {
        self.signs.extend_from_slice(&others.signs[from..to])?;
        self.sizes.extend_from_slice(&others.sizes[from..to])?;
        Ok(())
    }

    /// Puts the fragments of the rows of others from a number on, up to another one, behind these.
    pub(crate) fn take_fragments(
        &mut self,
        others: &NodeRows,
        from: usize,
        to: usize,
    ) -> Result<(), OutOfMemory>
        requires order { from ≤ to }
        requires fragments { to ≤ length others.now.fragments }
        ensures { OnOk result (self.new ≡ fragments_taken self.old from (to - from) others.now) }
    {
        self.fragments.take_over(&others.fragments, from, to - from)
    }

    /// How many rows there are.
    pub fn len(&self) -> usize
        ensures { result ≡ length self.now.sizes }
    {
        self.sizes.len()
    }

    /// How many nodes the part of the node of this number has.
    pub fn size_at(&self, number: usize) -> usize
        requires { number < length self.now.sizes }
        ensures { result ≡ slice_index self.now.sizes number }
    {
        self.sizes[number]
    }

    /// The signs of each node's tests.
    pub fn signs(&self) -> &[Signs]
        ensures { result.now ≡ self.now.signs }
    {
        self.signs.as_slice()
    }

    /// What is drawn of each node.
    pub fn fragments(&self) -> &Fragments
        ensures { result.now ≡ self.now.fragments }
    {
        &self.fragments
    }
}
