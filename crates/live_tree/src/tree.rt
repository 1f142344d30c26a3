ghost use Rattle.std.specs.Prelude.{◌≡◌, ◌+◌, ◌*◌, ◌<◌, ◌≤◌, ℕ, true, List, ◌∷◌, length, map, slice_get, IfOk, IsSome, None, OnErr, OnOk, Some};
ghost use Rattle.std.specs.Option.{is_some, option_map};
ghost use Rattle.task_model.specs.Terms.Value.{ValueTerm, value_term};
ghost use Rattle.task_model.specs.Terms.Tree.{tree_term, at};
ghost use Rattle.task_model.specs.Terms.Input.{input_term};
ghost use Rattle.task_model.specs.Terms.Held.{IsHeldAct};
ghost use Rattle.task_model.specs.Running.Checked.{CheckedTerm, checked_term};
ghost use Rattle.task_model.specs.Running.Offer.{offer_term, AreOffers};
ghost use Rattle.task_model.specs.Showing.Widget.{widget_term, AreWidgets};
ghost use Rattle.task_model.specs.Checking.Fits.{Fits};
ghost use Rattle.task_model.specs.declared.input.Turn.{Turn};
ghost use Rattle.task_model.specs.declared.value.Value.{Value};
ghost use Rattle.task_laws.specs.TreePlaces.{HasPlaces};
ghost use Rattle.handle_input.specs.Answers.{TellsOutcome};
ghost use Rattle.kept_nodes.specs.Kept.{IsRedrawn};
ghost use Rattle.kept_nodes.specs.KeptMarks.{TellsKept};
ghost use Rattle.kept_nodes.specs.Changed.{AreChanges};
ghost use Rattle.kept_nodes.specs.Along.{DiffersAlong};
ghost use Rattle.node_rows.specs.Rows.{AreRows};
ghost use Rattle.node_rows.specs.TreeNodes.{tree_nodes};
ghost use Rattle.live_tree.specs.Live.{DiffersAsTold, IsLive, QuietAsTold, bare_tree, led_tree, most_steps};

use crate::counting::count_nodes;
use handle_input::interact;
use html_pages::Fragments;
use interface::widgets;
use kept_nodes::{Changed, Marks, changed_places, kept, kept_along};
use kept_rows::next_rows;
use node_rows::{NodeRows, fresh_rows};
use shared_store::Store;
use std::alloc::Global;
use std::marker::Model;
use std::sync::ledger::Ledger;
use task_evaluation::Engine;
use task_model::{
    ActStop, Input, Offer, OutOfMemory, Reads, Row, Steps, Tree, Turns, Value, Widget,
};
use typing_laws::fitting_trees_have_their_places;

/// A tree with its table, which is made where it is asked for. What its rows were observed over, a store's values and a budget, stands in the
/// contracts of its calls.
#[derive(Drop)]
pub struct LiveTree {
    tree: Tree,
    rows: Option<NodeRows>,
    // The path along which alone it differs from the tree that it was led from, where that is known and that tree's table was made.
    along: Option<Turns>,
    // Whether it is known that nothing fires in it.
    quiet: bool,
}

impl Model for LiveTree {
    ghost use Rattle.std.specs.Coded.{codes};
    ghost use Rattle.task_model.specs.contracts.tree.Tree as trees;
    ghost use Rattle.live_tree.specs.Live.{SeenLive};

    ghost Value = { SeenLive };

    ghost coded = { Prim.hlevel (codes, trees.the_row.coded) };

    ghost view = { λ t. record { tree = t.tree; rows = t.rows; along = t.along; quiet = t.quiet } };
}

impl LiveTree {
    /// A tree whose table wasn't made.
    pub fn of(tree: Tree) -> LiveTree
        ensures { result ≡ bare_tree tree }
    {
        LiveTree {
            tree,
            rows: None,
            along: None,
            quiet: false,
        }
    }

    /// The tree that an input leads to within a budget, beside this one: over values that stand above those of before, which are a layer
    /// then. Its table isn't made. A refusal leaves the store.
    pub fn apply(
        &self,
        engine: &Engine,
        store: &mut Store<Value>,
        input: &Input,
        budget: u32,
    ) -> Result<LiveTree, ActStop>
        requires fits { Fits (checked_term engine.now) (at (tree_term self.now.tree) (map value_term store.old.list)) }
        requires quiet { QuietAsTold (map value_term store.old.list) self.now }
        ensures refused { OnErr result (store.new ≡ store.old) }
        ensures layer { OnOk result (store.new.layers ≡ store.old.list ∷ store.old.layers) }
        ensures held { OnOk result (IsHeldAct (input_term input.now).act) }
        ensures outcome { TellsOutcome (checked_term engine.now) budget (at (tree_term self.now.tree) (map value_term store.old.list))
            (input_term input.now) (map value_term store.new.list) (led_tree result) }
        ensures bare { IfOk result (λ t. t.rows ≡ None) }
        ensures quiet { IfOk result (QuietAsTold (map value_term store.new.list)) }
        ensures along { IfOk result (DiffersAsTold (tree_term self.now.tree)) }
    {
        store.begin()?;
        match self.led(engine, store, input, budget) {
            Ok(next) => Ok(next),
            Err(stop) => {
                store.drop_layer();
                Err(stop)
            }
        }
    }

    // The tree that an input leads to, over the values that it leads to.
    fn led(
        &self,
        engine: &Engine,
        store: &mut Store<Value>,
        input: &Input,
        budget: u32,
    ) -> Result<LiveTree, ActStop>
        requires fits { Fits (checked_term engine.now) (at (tree_term self.now.tree) (map value_term store.old.list)) }
        requires quiet { QuietAsTold (map value_term store.old.list) self.now }
        ensures layers { store.new.layers ≡ store.old.layers }
        ensures held { OnOk result (IsHeldAct (input_term input.now).act) }
        ensures outcome { TellsOutcome (checked_term engine.now) budget (at (tree_term self.now.tree) (map value_term store.old.list))
            (input_term input.now) (map value_term store.new.list) (led_tree result) }
        ensures bare { IfOk result (λ t. t.rows ≡ None) }
        ensures quiet { IfOk result (QuietAsTold (map value_term store.new.list)) }
        ensures along { IfOk result (DiffersAsTold (tree_term self.now.tree)) }
    {
        let led = interact(engine, self.tree(), self.quiet, store, input, budget)?;
        let along = path_told(engine.alloc(), input, led.along_path, self.rows.is_some())?;
        Ok(LiveTree {
            tree: led.tree,
            rows: None,
            along,
            quiet: led.quiet,
        })
    }

    /// Makes the table by at most two tests and one drawing for each node. Where it was made, nothing is tested or drawn again. The tree and
    /// the store stay.
    pub fn draw<L: Ledger>(
        &mut self,
        engine: &Engine,
        store: &mut Store<Value>,
        budget: u32,
        steps: &mut Steps<L>,
    ) -> Result<(), OutOfMemory>
        requires fits { Fits (checked_term engine.now) (at (tree_term self.old.tree) (map value_term store.old.list)) }
        requires live { IsLive (checked_term engine.now) budget (map value_term store.old.list) self.old }
        ensures store { store.new ≡ store.old }
        ensures tree { self.new.tree ≡ self.old.tree }
        ensures quiet { self.new.quiet ≡ self.old.quiet }
        ensures live { IsLive (checked_term engine.now) budget (map value_term store.old.list) self.new }
        ensures drawn { OnOk result (IsSome self.new.rows) }
        ensures steps { OnOk result (steps.new ≤ steps.old + most_steps (is_some self.old.rows) (tree_term self.old.tree)) }
    {
        if self.rows.is_none() {
            let rows = fresh_rows(engine, &self.tree, store, budget, steps)?;
            self.rows = Some(rows);
        }
        Ok(())
    }

    /// The same of a tree that an event led to, whose values stand above those of the tree before, which are the newest layer. Where the table
    /// of that one was made the rows of kept nodes are taken over: then no more than the other nodes are tested and drawn.
    pub fn draw_next<L: Ledger>(
        &mut self,
        before: &LiveTree,
        engine: &Engine,
        store: &mut Store<Value>,
        budget: u32,
        steps: &mut Steps<L>,
    ) -> Result<(), OutOfMemory>
        requires fits { Fits (checked_term engine.now) (at (tree_term self.old.tree) (map value_term store.old.list)) }
        requires live { IsLive (checked_term engine.now) budget (map value_term store.old.list) self.old }
        requires layer { 0 < length store.old.layers }
        requires before_fits { (σ : List Value) → slice_get store.old.layers 0 ≡ Some σ
            → Fits (checked_term engine.now) (at (tree_term before.now.tree) (map value_term σ)) }
        requires before { (σ : List Value) → slice_get store.old.layers 0 ≡ Some σ
            → IsLive (checked_term engine.now) budget (map value_term σ) before.now }
        requires along { DiffersAsTold (tree_term before.now.tree) self.old }
        ensures store { store.new ≡ store.old }
        ensures tree { self.new.tree ≡ self.old.tree }
        ensures quiet { self.new.quiet ≡ self.old.quiet }
        ensures along { self.new.along ≡ self.old.along }
        ensures live { IsLive (checked_term engine.now) budget (map value_term store.old.list) self.new }
        ensures drawn { OnOk result (IsSome self.new.rows) }
        ensures steps { OnOk result (steps.new ≤ steps.old + most_steps (is_some self.old.rows) (tree_term self.old.tree)) }
        ensures few { OnOk result (IsSome before.now.rows → (σ : List Value) → slice_get store.old.layers 0 ≡ Some σ → (n : ℕ)
            → IsRedrawn (at (tree_term before.now.tree) (map value_term σ)) (at (tree_term self.old.tree) (map value_term store.old.list)) n
            → steps.new ≤ steps.old + 3 * n) }
    {
        if self.rows.is_some() {
            return Ok(());
        }
        let rows = self.rows_from(before, engine, store, budget, steps)?;
        self.rows = Some(rows);
        Ok(())
    }

    // The rows of a tree that an event led to.
    fn rows_from<L: Ledger>(
        &self,
        before: &LiveTree,
        engine: &Engine,
        store: &mut Store<Value>,
        budget: u32,
        steps: &mut Steps<L>,
    ) -> Result<NodeRows, OutOfMemory>
        requires fits { Fits (checked_term engine.now) (at (tree_term self.now.tree) (map value_term store.old.list)) }
        requires layer { 0 < length store.old.layers }
        requires before_fits { (σ : List Value) → slice_get store.old.layers 0 ≡ Some σ
            → Fits (checked_term engine.now) (at (tree_term before.now.tree) (map value_term σ)) }
        requires before { (σ : List Value) → slice_get store.old.layers 0 ≡ Some σ
            → IsLive (checked_term engine.now) budget (map value_term σ) before.now }
        requires along { DiffersAsTold (tree_term before.now.tree) self.now }
        ensures store { store.new ≡ store.old }
        ensures rows { IfOk result (AreRows (checked_term engine.now) budget (tree_term self.now.tree) (map value_term store.old.list)) }
        ensures steps { OnOk result (steps.new ≤ steps.old + 3 * tree_nodes (tree_term self.now.tree)) }
        ensures few { OnOk result (IsSome before.now.rows → (σ : List Value) → slice_get store.old.layers 0 ≡ Some σ → (n : ℕ)
            → IsRedrawn (at (tree_term before.now.tree) (map value_term σ)) (at (tree_term self.now.tree) (map value_term store.old.list)) n
            → steps.new ≤ steps.old + 3 * n) }
    {
        match &before.rows {
            None => fresh_rows(engine, &self.tree, store, budget, steps),
            Some(rows) => {
                fitting_trees_have_their_places();
                let alloc = engine.alloc();
                let changed = changed_places(alloc, store)?;
                let marks = kept_marks(alloc, &before.tree, &self.tree, &self.along, &changed)?;
                next_rows(
                    engine,
                    &before.tree,
                    rows,
                    &self.tree,
                    &marks,
                    store,
                    budget,
                    steps,
                )
            }
        }
    }

    /// The tree.
    pub fn tree(&self) -> &Tree
        ensures { result.now ≡ self.now.tree }
    {
        &self.tree
    }

    /// How many nodes it has, by one walk. A number that no 64 bits hold is want of memory.
    pub fn nodes(&self) -> Result<u64, OutOfMemory>
        ensures { IfOk result (λ n. n ≡ tree_nodes (tree_term self.now.tree)) }
    {
        count_nodes(&self.tree)
    }

    /// What it offers, in pre-order, where its table was made: no test is made again. The table may be of any program, budget and values.
    pub fn offers(&self, alloc: Global) -> Result<Row<Offer>, OutOfMemory>
        requires drawn { IsSome self.now.rows }
        ensures { IfOk result (λ os. (c : CheckedTerm) (budget : ℕ) (σ : List ValueTerm) → IsLive c budget σ self.now
            → AreOffers c budget (tree_term self.now.tree) σ (map offer_term os.list)) }
    {
        match &self.rows {
            None => unreachable!(),
            Some(rows) => rows.offers(alloc, &self.tree),
        }
    }

    /// The widgets of its nodes over the values of its table, in pre-order, where it was made: no test is made again.
    pub fn widgets<R: Reads>(&self, alloc: Global, reads: &R) -> Result<Row<Widget>, OutOfMemory>
        requires drawn { IsSome self.now.rows }
        ensures { IfOk result (λ ws. (c : CheckedTerm) (budget : ℕ) → IsLive c budget (R.values reads.now) self.now
            → AreWidgets c budget (tree_term self.now.tree) (R.values reads.now) (map widget_term ws.list)) }
    {
        let offers = self.offers(alloc)?;
        widgets(alloc, &self.tree, reads, offers.as_slice())
    }

    /// What is drawn of each node, in pre-order, where the table was made.
    pub fn fragments(&self) -> &Fragments
        requires drawn { IsSome self.now.rows }
        ensures { option_map (λ r. r.fragments) self.now.rows ≡ Some result.now }
    {
        match &self.rows {
            None => unreachable!(),
            Some(rows) => rows.fragments(),
        }
    }
}

// The path of an input, where the tree that it led to differs along it alone, and a table was made before.
fn path_told(
    alloc: Global,
    input: &Input,
    along_path: bool,
    was_drawn: bool,
) -> Result<Option<Turns>, OutOfMemory>
    ensures { IfOk result (λ o. (path : List Turn) → o ≡ Some path → (along_path ≡ true) × (path ≡ (input_term input.now).path)) }
{
    if along_path && was_drawn {
        Ok(Some(Turns::of(alloc, input.path.turns.as_slice())?))
    } else {
        Ok(None)
    }
}

// What is kept of a tree from the one before, from which it differs along this path alone, if one is told. These places changed since then, and the
// store of then has those of the tree of then.
fn kept_marks(
    alloc: Global,
    before: &Tree,
    tree: &Tree,
    along: &Option<Turns>,
    changed: &Changed,
) -> Result<Marks, OutOfMemory>
    requires { (path : List Turn) → along.now ≡ Some path → DiffersAlong path (tree_term before.now) (tree_term tree.now) }
    ensures { IfOk result (λ m. (σ τ : List ValueTerm) → AreChanges σ τ changed.now → HasPlaces σ (tree_term before.now)
        → TellsKept σ τ (Some (tree_term before.now)) (tree_term tree.now) m) }
{
    match along {
        None => kept(alloc, Some(before), tree, changed),
        Some(turns) => kept_along(alloc, before, tree, turns.as_slice(), changed),
    }
}
