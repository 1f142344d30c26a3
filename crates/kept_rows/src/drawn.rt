ghost use Rattle.std.specs.Prelude.{◌≡◌, ◌+◌, ◌<◌, ◌≤◌, [], length, map, slice_index, IfOk, OnOk};
ghost use Rattle.task_model.specs.Terms.Value.{value_term};
ghost use Rattle.task_model.specs.Terms.Tree.{tree_term, at};
ghost use Rattle.task_model.specs.Running.Checked.{checked_term};
ghost use Rattle.task_model.specs.Checking.Fits.{Fits};
ghost use Rattle.task_model.specs.Showing.Widget.{here, shape_term};
ghost use Rattle.task_tree.specs.Below.{widget_below};
ghost use Rattle.node_rows.specs.Rows.{no_rows, row_of, rows_append, rows_part};
ghost use Rattle.kept_rows.specs.Follows.{RootFollows};

use crate::shapes::shape_of;
use node_rows::{NextRows, NodeRows};
use shared_store::Store;
use std::alloc::Global;
use std::sync::ledger::Ledger;
use task_evaluation::Engine;
use task_model::{OutOfMemory, Shape, Steps, Tree, Value};
use terminal_view::PrintedTrail;

/// Where a walk through a tree is, and the rows of the nodes that it has met, beside those of the tree before.
#[derive(Drop)]
pub(crate) struct Drawn<'r> {
    pub(crate) trail: PrintedTrail,
    pub(crate) next: NextRows<'r>,
}

impl<'r> Drawn<'r> {
    /// At the root, with no row beside these, and with room for so many.
    pub(crate) fn beside(
        alloc: Global,
        older: &'r NodeRows,
        room: usize,
    ) -> Result<Drawn<'r>, OutOfMemory>
        ensures trail { IfOk result (λ d. d.trail ≡ []) }
        ensures older { IfOk result (λ d. d.next.older ≡ older.now) }
        ensures rows { IfOk result (λ d. d.next.rows ≡ no_rows) }
    {
        Ok(Drawn {
            trail: PrintedTrail::new(alloc)?,
            next: NextRows::beside(alloc, older, room)?,
        })
    }

    /// Tests the root of a part at most once, or twice at an external choice, and draws it once. The store stays.
    pub(crate) fn add_root<L: Ledger>(
        &mut self,
        engine: &Engine,
        t: &Tree,
        store: &mut Store<Value>,
        budget: u32,
        steps: &mut Steps<L>,
    ) -> Result<(), OutOfMemory>
        requires fits { Fits (checked_term engine.now) (at (tree_term t.now) (map value_term store.old.list)) }
        ensures trail { self.new.trail ≡ self.old.trail }
        ensures older { self.new.next.older ≡ self.old.next.older }
        ensures store { store.new ≡ store.old }
        ensures steps { OnOk result (steps.new ≤ steps.old + 3) }
        ensures root { OnOk result (RootFollows (checked_term engine.now) budget (tree_term t.now) (map value_term store.old.list)
            self.old.trail self.old.next.rows self.new.next.rows) }
    {
        let shape = shape_of(engine, t, store, budget, steps)?;
        self.draw(engine.alloc(), shape, steps)
    }

    // Draws the node where the walk is. It counts one step.
    fn draw<L: Ledger>(
        &mut self,
        alloc: Global,
        shape: Shape,
        steps: &mut Steps<L>,
    ) -> Result<(), OutOfMemory>
        ensures trail { self.new.trail ≡ self.old.trail }
        ensures older { self.new.next.older ≡ self.old.next.older }
        ensures row { OnOk result (self.new.next.rows ≡ rows_append self.old.next.rows (row_of (widget_below self.old.trail
            (here (shape_term shape))))) }
        ensures steps { OnOk result (steps.new ≡ steps.old + 1) }
    {
        self.next.draw(alloc, self.trail.as_str(), &shape, steps)
    }

    /// Takes over the older rows of the part whose first one has this number, and answers the number behind them: nothing is tested and nothing
    /// drawn.
    pub(crate) fn take_over(&mut self, from: usize) -> Result<usize, OutOfMemory>
        requires number { from < length self.old.next.older.sizes }
        requires room { from + slice_index self.old.next.older.sizes from ≤ usize.MAX }
        requires signs { from + slice_index self.old.next.older.sizes from ≤ length self.old.next.older.signs }
        requires sizes { from + slice_index self.old.next.older.sizes from ≤ length self.old.next.older.sizes }
        requires fragments { from + slice_index self.old.next.older.sizes from ≤ length self.old.next.older.fragments }
        ensures trail { self.new.trail ≡ self.old.trail }
        ensures older { self.new.next.older ≡ self.old.next.older }
        ensures behind { IfOk result (λ n. n ≡ from + slice_index self.old.next.older.sizes from) }
        ensures rows { OnOk result (self.new.next.rows ≡ rows_append self.old.next.rows
            (rows_part from (slice_index self.old.next.older.sizes from) self.old.next.older)) }
    {
        let behind = from + self.next.older().size_at(from);
        self.next.take_over(from, behind)?;
        Ok(behind)
    }
}
