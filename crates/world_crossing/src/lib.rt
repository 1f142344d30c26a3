//! Worlds may go to other threads. Calls of this crate do nothing when they run: what they promise is what later searches stand on.
#![tactic(auto)]

ghost use denote.Param.Send.{IsSend};
ghost use Rattle.task_model.specs.contracts.input.Entry as entries;
ghost use Rattle.task_model.specs.contracts.item.Item as items;
ghost use Rattle.task_model.specs.contracts.value.Value as values;
ghost use Rattle.task_model.specs.contracts.checked.Checked as checked_programs;
ghost use Rattle.shared_store.specs.contracts.store.Store as stores;
ghost use Rattle.host_eval.specs.contracts.definitions.Definitions as definitions;
ghost use Rattle.task_evaluation.specs.contracts.engine.Engine as engines;
ghost use Rattle.live_tree.specs.contracts.tree.LiveTree as live_trees;
ghost use Rattle.world_core.specs.contracts.world.World as worlds;

use host_eval::Definitions;
use node_rows::NodeRows;
use shared_store::Store;
use task_model::Value;

/// Values of this type may go to other threads.
pub fn crosses<X: Send>()
    ensures { IsSend X.row }
{}

/// Entries of histories may.
pub fn entries_cross()
    ensures { IsSend entries.the_row }
{}

/// Items of histories may.
pub fn items_cross()
    ensures { IsSend items.the_row }
{}

// Accepted programs may.
fn checked_cross()
    ensures { IsSend checked_programs.the_row }
{}

// Tables of definitions may.
fn definitions_cross()
    ensures { IsSend definitions.the_row }
{
    checked_cross();
    crosses::<Definitions>();
}

// Engines may.
fn engines_cross()
    ensures { IsSend engines.the_row }
{
    definitions_cross();
}

// Trees with their rows may.
fn live_trees_cross()
    ensures { IsSend live_trees.the_row }
{
    crosses::<NodeRows>();
}

// Stores of values may.
fn stores_cross()
    ensures { IsSend (stores.the_row values.the_row) }
{
    crosses::<Store<Value>>();
}

/// Worlds may.
pub fn worlds_cross()
    ensures { IsSend worlds.the_row }
{
    items_cross();
    engines_cross();
    live_trees_cross();
    stores_cross();
}
