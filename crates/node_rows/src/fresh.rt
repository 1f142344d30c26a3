ghost use Rattle.std.specs.Prelude.{◌≡◌, ◌+◌, length, map, IfOk, OnOk};
ghost use Rattle.task_model.specs.Terms.Value.{value_term};
ghost use Rattle.task_model.specs.Terms.Tree.{tree_term, at};
ghost use Rattle.task_model.specs.Running.Checked.{checked_term};
ghost use Rattle.task_model.specs.Checking.Fits.{Fits};
ghost use Rattle.task_model.specs.Showing.Widget.{widget_term};
ghost use Rattle.observe_inputs.specs.TestsIn.{tests_in};
ghost use Rattle.node_rows.specs.Rows.{AreRows, rows_sized};
ghost use Rattle.node_rows.specs.TreeNodes.{tree_nodes};

use crate::rows::NodeRows;
use crate::sizes::tree_sizes;
use interface::widgets;
use observe_inputs::offers;
use shared_store::Store;
use std::alloc::Global;
use std::sync::ledger::Ledger;
use task_evaluation::Engine;
use task_model::{OutOfMemory, Steps, Tree, Value, Widget};

/// The rows of a tree over a store, each test within a purse of the budget. It counts the tests and the drawings, and the store stays.
pub fn fresh_rows<L: Ledger>(
    engine: &Engine,
    t: &Tree,
    store: &mut Store<Value>,
    budget: u32,
    steps: &mut Steps<L>,
) -> Result<NodeRows, OutOfMemory>
    requires fits { Fits (checked_term engine.now) (at (tree_term t.now) (map value_term store.old.list)) }
    ensures store { store.new ≡ store.old }
    ensures rows { IfOk result (AreRows (checked_term engine.now) budget (tree_term t.now) (map value_term store.old.list)) }
    ensures steps { OnOk result (steps.new ≡ steps.old
        + (tests_in (tree_term t.now) (map value_term store.old.list) + tree_nodes (tree_term t.now))) }
{
    let alloc = engine.alloc();
    let offers = offers(engine, t, store, budget, steps)?;
    let shown = widgets(alloc, t, &*store, offers.as_slice())?;
    let sizes = tree_sizes(alloc, t)?;
    drawn(alloc, sizes, shown.as_slice(), steps)
}

// The rows of widgets, in order, whose nodes have parts of these sizes.
fn drawn<L: Ledger>(
    alloc: Global,
    sizes: Vec<usize>,
    widgets: &[Widget],
    steps: &mut Steps<L>,
) -> Result<NodeRows, OutOfMemory>
    ensures rows { IfOk result (λ rows. rows ≡ rows_sized sizes.items (map widget_term widgets.now)) }
    ensures steps { OnOk result (steps.new ≡ steps.old + length widgets.now) }
{
    let mut rows = NodeRows::of_sizes(alloc, sizes);
    for widget in widgets {
        rows.show(alloc, widget, steps)?;
    }
    Ok(rows)
}
