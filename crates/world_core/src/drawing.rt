ghost use Rattle.std.specs.Prelude.{◌≡◌, ◌+◌, ◌*◌, ◌<◌, ◌≤◌, ℕ, List, length, map, slice_get, IfOk, IsSome, OnOk, Some};
ghost use Rattle.std.specs.Option.{is_some};
ghost use Rattle.task_model.specs.Terms.Value.{value_term};
ghost use Rattle.task_model.specs.Terms.Tree.{tree_term, at};
ghost use Rattle.task_model.specs.Running.Checked.{checked_term};
ghost use Rattle.task_model.specs.Checking.Fits.{Fits};
ghost use Rattle.task_model.specs.declared.value.Value.{Value};
ghost use Rattle.kept_nodes.specs.Kept.{IsRedrawn};
ghost use Rattle.task_model.specs.Showing.Widget.{AreWidgets, widget_term};
ghost use Rattle.live_tree.specs.Live.{DiffersAsTold, IsLive, most_steps};
ghost use Rattle.world_core.specs.Pages.{AreStateFragments, IsStatePage};

use html_pages::{Fragments, Page, frame_behind_room};
use live_tree::LiveTree;
use shared_store::Store;
use std::alloc::Global;
use std::sync::ledger::Ledger;
use task_evaluation::Engine;
use task_model::{Face, OutOfMemory, Row, Steps, Value, Widget};

/// How fragments are framed: in a face, with a version, for a seat.
#[derive(Clone, Copy)]
pub(crate) struct Framing {
    pub(crate) face: Face,
    pub(crate) version: u64,
    pub(crate) seat: u8,
}

/// What is drawn of a tree over a store: its table is made, unless it was. The store and the tree stay.
pub(crate) fn drawn_fragments<L: Ledger>(
    alloc: Global,
    engine: &Engine,
    live: &mut LiveTree,
    store: &mut Store<Value>,
    budget: u32,
    steps: &mut Steps<L>,
) -> Result<Fragments, OutOfMemory>
    requires fits { Fits (checked_term engine.now) (at (tree_term live.old.tree) (map value_term store.old.list)) }
    requires live { IsLive (checked_term engine.now) budget (map value_term store.old.list) live.old }
    ensures store { store.new ≡ store.old }
    ensures tree { live.new.tree ≡ live.old.tree }
    ensures quiet { live.new.quiet ≡ live.old.quiet }
    ensures live { IsLive (checked_term engine.now) budget (map value_term store.old.list) live.new }
    ensures fragments { IfOk result (AreStateFragments (checked_term engine.now) budget
        (at (tree_term live.old.tree) (map value_term store.old.list))) }
    ensures drawn { OnOk result (IsSome live.new.rows) }
    ensures steps { OnOk result (steps.new ≤ steps.old + most_steps (is_some live.old.rows) (tree_term live.old.tree)) }
{
    live.draw(engine, store, budget, steps)?;
    live.fragments().copy(alloc)
}

/// The same of a tree that an event led to, whose values stand above those of the tree before. Where the table of that one was made no more
/// than the nodes that aren't kept are tested and drawn.
pub(crate) fn next_drawn_fragments<L: Ledger>(
    alloc: Global,
    engine: &Engine,
    before: &LiveTree,
    live: &mut LiveTree,
    store: &mut Store<Value>,
    budget: u32,
    steps: &mut Steps<L>,
) -> Result<Fragments, OutOfMemory>
    requires fits { Fits (checked_term engine.now) (at (tree_term live.old.tree) (map value_term store.old.list)) }
    requires live { IsLive (checked_term engine.now) budget (map value_term store.old.list) live.old }
    requires layer { 0 < length store.old.layers }
    requires before_fits { (σ : List Value) → slice_get store.old.layers 0 ≡ Some σ
        → Fits (checked_term engine.now) (at (tree_term before.now.tree) (map value_term σ)) }
    requires before { (σ : List Value) → slice_get store.old.layers 0 ≡ Some σ
        → IsLive (checked_term engine.now) budget (map value_term σ) before.now }
    requires along { DiffersAsTold (tree_term before.now.tree) live.old }
    ensures store { store.new ≡ store.old }
    ensures tree { live.new.tree ≡ live.old.tree }
    ensures quiet { live.new.quiet ≡ live.old.quiet }
    ensures along { live.new.along ≡ live.old.along }
    ensures live { IsLive (checked_term engine.now) budget (map value_term store.old.list) live.new }
    ensures fragments { IfOk result (AreStateFragments (checked_term engine.now) budget
        (at (tree_term live.old.tree) (map value_term store.old.list))) }
    ensures drawn { OnOk result (IsSome live.new.rows) }
    ensures steps { OnOk result (steps.new ≤ steps.old + most_steps (is_some live.old.rows) (tree_term live.old.tree)) }
    ensures few { OnOk result (IsSome before.now.rows → (σ : List Value) → slice_get store.old.layers 0 ≡ Some σ → (n : ℕ)
        → IsRedrawn (at (tree_term before.now.tree) (map value_term σ)) (at (tree_term live.old.tree) (map value_term store.old.list)) n
        → steps.new ≤ steps.old + 3 * n) }
{
    live.draw_next(before, engine, store, budget, steps)?;
    live.fragments().copy(alloc)
}

/// The page of a tree over a store, behind room for the head of a reply: it frames what is drawn of it, and its table is made, unless it
/// was. The store and the tree stay.
pub(crate) fn drawn_page<L: Ledger>(
    alloc: Global,
    engine: &Engine,
    live: &mut LiveTree,
    store: &mut Store<Value>,
    budget: u32,
    framing: Framing,
    steps: &mut Steps<L>,
) -> Result<Page, OutOfMemory>
    requires fits { Fits (checked_term engine.now) (at (tree_term live.old.tree) (map value_term store.old.list)) }
    requires live { IsLive (checked_term engine.now) budget (map value_term store.old.list) live.old }
    ensures store { store.new ≡ store.old }
    ensures tree { live.new.tree ≡ live.old.tree }
    ensures quiet { live.new.quiet ≡ live.old.quiet }
    ensures live { IsLive (checked_term engine.now) budget (map value_term store.old.list) live.new }
    ensures version { IfOk result (λ page. page.version ≡ framing.version) }
    ensures page { IfOk result (λ page. IsStatePage (checked_term engine.now) budget
        (at (tree_term live.old.tree) (map value_term store.old.list)) framing.face framing.version framing.seat page.text) }
    ensures room { IfOk result (λ page. page.room ≡ 256) }
    ensures drawn { OnOk result (IsSome live.new.rows) }
    ensures steps { OnOk result (steps.new ≤ steps.old + most_steps (is_some live.old.rows) (tree_term live.old.tree)) }
{
    live.draw(engine, store, budget, steps)?;
    let Framing {
        face,
        version,
        seat,
    } = framing;
    frame_behind_room(alloc, face, version, seat, live.fragments())
}

/// The widgets of a tree over a store, in pre-order: its table is made, unless it was. The store and the tree stay.
pub(crate) fn drawn_widgets<L: Ledger>(
    alloc: Global,
    engine: &Engine,
    live: &mut LiveTree,
    store: &mut Store<Value>,
    budget: u32,
    steps: &mut Steps<L>,
) -> Result<Row<Widget>, OutOfMemory>
    requires fits { Fits (checked_term engine.now) (at (tree_term live.old.tree) (map value_term store.old.list)) }
    requires live { IsLive (checked_term engine.now) budget (map value_term store.old.list) live.old }
    ensures store { store.new ≡ store.old }
    ensures tree { live.new.tree ≡ live.old.tree }
    ensures quiet { live.new.quiet ≡ live.old.quiet }
    ensures live { IsLive (checked_term engine.now) budget (map value_term store.old.list) live.new }
    ensures widgets { IfOk result (λ ws. AreWidgets (checked_term engine.now) budget (tree_term live.old.tree) (map value_term store.old.list)
        (map widget_term ws.list)) }
    ensures drawn { OnOk result (IsSome live.new.rows) }
    ensures steps { OnOk result (steps.new ≤ steps.old + most_steps (is_some live.old.rows) (tree_term live.old.tree)) }
{
    live.draw(engine, store, budget, steps)?;
    live.widgets(alloc, store)
}
