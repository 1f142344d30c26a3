ghost use Rattle.std.specs.Prelude.{◌≡◌, ◌+◌, ◌*◌, ◌≤◌, ℕ, [], ◌∷◌, IfErr, IfOk, IsSome, None, OnOk, Some, map, slice_get, true};
ghost use Rattle.std.specs.Option.{option_map};
ghost use Rattle.task_model.specs.Terms.Tree.{tree_term, State};
ghost use Rattle.task_model.specs.Terms.Input.{input_term};
ghost use Rattle.task_model.specs.Terms.Item.{opened, history_term};
ghost use Rattle.task_model.specs.Running.Checked.{checked_term};
ghost use Rattle.task_model.specs.Showing.Widget.{widget_term};
ghost use Rattle.task_model.specs.Running.State.{HasWidgets, IsOpening, IsState, IsLegal, IsPage, IsSeat, IsBudget, version_of};
ghost use Rattle.kept_nodes.specs.Kept.{IsRedrawn};
ghost use Rattle.node_rows.specs.TreeNodes.{tree_nodes};
ghost use Rattle.live_tree.specs.Live.{most_steps};
ghost use Rattle.world_core.specs.Pages.{AreFragments, AreNextFragments, AreWorldWidgets, IsNextVersion, IsWorldPage, next_most_steps};
ghost use Rattle.world_core.specs.World.{NextTerm, world_term, drawn_as, IsStanding, LeadsOn, Prepares, Commits, at_rest};

use crate::answers::{OpenStop, Taken};
use crate::drawing::{Framing, drawn_fragments, drawn_page, drawn_widgets, next_drawn_fragments};
use crate::opening::{opened_history, opened_tree};
use crate::prepared::Prepared;
use html_pages::{Fragments, Page};
use live_tree::LiveTree;
use shared_store::Store;
use std::alloc::Global;
use std::marker::Model;
use std::sync::ledger::Ledger;
use task_evaluation::Engine;
use task_model::{
    ActStop, Checked, Entry, Face, Input, Item, OutOfMemory, Row, Steps, Tree, Value, Widget,
};

/// The parts of a world.
#[derive(Drop)]
pub(crate) struct WorldParts {
    engine: Engine,
    budget: u32,
    history: Row<Item>,
    live: LiveTree,
    store: Store<Value>,
    next: Option<Prepared>,
}

impl Model for WorldParts {
    ghost use Rattle.std.specs.Coded.{codes};
    ghost use Rattle.task_model.specs.contracts.basic.Basic as basics;
    ghost use Rattle.task_model.specs.contracts.program.Program as programs;
    ghost use Rattle.task_model.specs.contracts.item.Item as items;
    ghost use Rattle.task_model.specs.contracts.tree.Tree as trees;
    ghost use Rattle.task_model.specs.contracts.value.Value as values;
    ghost use Rattle.world_core.specs.World.{SeenWorld};
    ghost use Rattle.world_core.specs.Inside.{FieldsAgree, seen_world};

    ghost Value = { SeenWorld };

    ghost coded = { Prim.hlevel (
      codes,
      basics.the_row.coded,
      programs.the_row.coded,
      items.the_row.coded,
      trees.the_row.coded,
      values.the_row.coded,
    ) };

    ghost view = { λ w. seen_world w.engine w.budget w.history.list w.live w.store w.next };

    ghost invariant = { λ w. FieldsAgree w.engine w.budget w.history w.live w.store w.next };
}

impl WorldParts {
    /// Opens a program: `main()` is evaluated and settled within the budget, 1 to 1,000,000 units. The history is that one item, and
    /// nothing is prepared. Nothing is tested for offers, and nothing drawn.
    pub(crate) fn open(alloc: Global, c: Checked, budget: u32) -> Result<WorldParts, OpenStop>
        requires { IsBudget budget }
        ensures program { IfOk result (λ w. checked_term w.checked ≡ checked_term c) }
        ensures budget { IfOk result (λ w. w.budget ≡ budget) }
        ensures history { IfOk result (λ w. history_term w.history ≡ opened (checked_term c).program budget ∷ []) }
        ensures state { IfOk result (λ w. IsOpening (checked_term c) budget (world_term w).state) }
        ensures rest { IfOk result (λ w. w.next ≡ None) }
        ensures over { IfErr result (λ stop. stop ≡ OpenStop.Over → (s : State) → IsOpening (checked_term c) budget s → ⊥) }
    {
        // Its program is accepted.
        let _accepted = c.program();
        let history = opened_history(alloc, &c, budget)?;
        let engine = Engine::new(alloc, c)?;
        let mut store = Store::new(alloc);
        let live = opened_tree(&engine, budget, &mut store)?;
        Ok(WorldParts {
            engine,
            budget,
            history,
            live,
            store,
            next: None,
        })
    }

    /// Prepares an input of a seat, 1 to 64, where nothing is prepared: the entry, and the state that it leads to, if the tree offers
    /// it and the budget holds. All that can be refused is refused here. A refusal changes nothing. Nothing is tested for offers, and nothing
    /// drawn.
    pub(crate) fn prepare(&mut self, seat: u8, input: Input) -> Result<(), ActStop>
        requires seat { IsSeat seat }
        requires rest { self.old.next ≡ None }
        ensures prepares { Prepares (world_term self.old) (record { seat = seat; input = input_term input }) (world_term self.new) result }
        ensures made { self.new.drawn ≡ self.old.drawn }
    {
        self.history.reserve(1)?;
        let live = self
            .live
            .apply(&self.engine, &mut self.store, &input, self.budget)?;
        let item = Item::Took(Entry { seat, input });
        self.next = Some(Prepared { item, live });
        Ok(())
    }

    /// What is prepared. The history with it is legal, and leads to the prepared state.
    pub(crate) fn next_item(&self) -> Option<&Item>
        ensures item { option_map (λ i. i.now) result ≡ option_map (λ n. n.item) self.now.next }
        ensures leads { LeadsOn (world_term self.now) (world_term self.now).next }
    {
        match &self.next {
            Some(prepared) => Some(&prepared.item),
            None => None,
        }
    }

    /// What is prepared is taken. It takes no memory.
    pub(crate) fn commit(&mut self) -> Taken
        requires { IsSome self.old.next }
        ensures commits { Commits (world_term self.old) (world_term self.new) result }
        ensures made { self.new.drawn ≡ self.old.next_drawn }
    {
        match self.next.take() {
            None => unreachable!(),
            Some(Prepared { item, live }) => {
                self.store.keep();
                self.live = live;
                match self.history.push(item) {
                    Ok(()) => {}
                    Err(_) => unreachable!(),
                }
                let version = self.history.as_slice().len() as u64 - 1;
                Taken { version }
            }
        }
    }

    /// What is prepared is given up, if anything is. It takes no memory.
    pub(crate) fn abandon(&mut self)
        ensures rest { world_term self.new ≡ at_rest (world_term self.old) }
        ensures made { self.new.drawn ≡ self.old.drawn }
    {
        if self.next.take().is_some() {
            self.store.drop_layer();
        }
    }

    /// The opening, and what was taken since, oldest first.
    pub(crate) fn history(&self) -> &[Item]
        ensures items { result.now ≡ self.now.history }
        ensures standing { IsStanding (world_term self.now) }
        ensures legal { IsLegal (history_term self.now.history) }
        ensures state { IsState (history_term self.now.history) (world_term self.now).state }
    {
        self.history.as_slice()
    }

    /// The number of inputs taken.
    pub(crate) fn version(&self) -> u64
        ensures { result ≡ version_of (history_term self.now.history) }
    {
        self.history.as_slice().len() as u64 - 1
    }

    /// The program, with the types of its nodes.
    pub(crate) fn checked(&self) -> &Checked
        ensures { result.now ≡ self.now.checked }
    {
        self.engine.checked()
    }

    /// The budget of each event.
    pub(crate) fn budget(&self) -> u32
        ensures { result ≡ self.now.budget }
    {
        self.budget
    }

    /// The tree of the present state.
    pub(crate) fn tree(&self) -> &Tree
        ensures { result.now ≡ self.now.tree }
    {
        self.live.tree()
    }

    /// The number of the tree's nodes, by one walk. A number that no 64 bits hold is want of memory.
    pub(crate) fn nodes(&self) -> Result<u64, OutOfMemory>
        ensures { IfOk result (λ n. n ≡ tree_nodes (tree_term self.now.tree)) }
    {
        self.live.nodes()
    }

    /// What the store holds at a place, where nothing is prepared.
    pub(crate) fn at(&self, place: u64) -> Option<&Value>
        requires rest { self.now.next ≡ None }
        ensures { option_map (λ v. v.now) result ≡ slice_get self.now.store place }
    {
        match usize::try_from(place) {
            Ok(place) => self.store.as_slice().get(place),
            Err(_) => None,
        }
    }

    /// What is drawn of the present state, where nothing is prepared. It is made where it is first asked for, by at most two tests and one
    /// drawing for each node, which are counted, and kept. The world stays, but that its state was drawn.
    pub(crate) fn fragments<L: Ledger>(
        &mut self,
        alloc: Global,
        steps: &mut Steps<L>,
    ) -> Result<Fragments, OutOfMemory>
        requires rest { self.old.next ≡ None }
        ensures world { self.new ≡ drawn_as self.new.drawn self.old.next_drawn self.old }
        ensures made { OnOk result (self.new.drawn ≡ true) }
        ensures fragments { IfOk result (AreFragments (history_term self.old.history)) }
        ensures steps { OnOk result (steps.new ≤ steps.old + most_steps self.old.drawn (tree_term self.old.tree)) }
    {
        drawn_fragments(
            alloc,
            &self.engine,
            &mut self.live,
            &mut self.store,
            self.budget,
            steps,
        )
    }

    /// The widgets of the present state, in pre-order, where nothing is prepared, as `fragments` makes and keeps its table. The world stays, but
    /// that its state was drawn.
    pub(crate) fn widgets<L: Ledger>(
        &mut self,
        alloc: Global,
        steps: &mut Steps<L>,
    ) -> Result<Row<Widget>, OutOfMemory>
        requires rest { self.old.next ≡ None }
        ensures world { self.new ≡ drawn_as self.new.drawn self.old.next_drawn self.old }
        ensures made { OnOk result (self.new.drawn ≡ true) }
        ensures widgets { IfOk result (λ ws. AreWorldWidgets (world_term self.old) (map widget_term ws.list)) }
        ensures legal { IfOk result (λ ws. HasWidgets (history_term self.old.history) (map widget_term ws.list)) }
        ensures steps { OnOk result (steps.new ≤ steps.old + most_steps self.old.drawn (tree_term self.old.tree)) }
    {
        // The history is legal.
        let _legal = self.history();
        drawn_widgets(
            alloc,
            &self.engine,
            &mut self.live,
            &mut self.store,
            self.budget,
            steps,
        )
    }

    /// What is drawn of the prepared state, as for the present one. Where that was drawn the rows of kept nodes are taken over, and no more
    /// than the other nodes are tested and drawn. A commit keeps it.
    pub(crate) fn next_fragments<L: Ledger>(
        &mut self,
        alloc: Global,
        steps: &mut Steps<L>,
    ) -> Result<Fragments, OutOfMemory>
        requires prepared { IsSome self.old.next }
        ensures world { self.new ≡ drawn_as self.old.drawn self.new.next_drawn self.old }
        ensures made { OnOk result (self.new.next_drawn ≡ true) }
        ensures fragments { IfOk result (AreNextFragments (world_term self.old).history (world_term self.old).next) }
        ensures steps { OnOk result (steps.new ≤ steps.old + next_most_steps self.old.next_drawn (world_term self.old).next) }
        ensures few { OnOk result (self.old.drawn ≡ true → (n : NextTerm) → (world_term self.old).next ≡ Some n → (m : ℕ)
            → IsRedrawn (world_term self.old).state n.state m → steps.new ≤ steps.old + 3 * m) }
    {
        match self.next.take() {
            None => unreachable!(),
            Some(prepared) => {
                let Prepared { item, mut live } = prepared;
                let fragments = next_drawn_fragments(
                    alloc,
                    &self.engine,
                    &self.live,
                    &mut live,
                    &mut self.store,
                    self.budget,
                    steps,
                );
                self.next = Some(Prepared { item, live });
                fragments
            }
        }
    }

    /// The number of inputs taken, once what is prepared is committed.
    pub(crate) fn next_version(&self) -> u64
        requires prepared { IsSome self.now.next }
        ensures { IsNextVersion (world_term self.now).history (world_term self.now).next result }
    {
        self.history.as_slice().len() as u64
    }

    /// The page of the present state for a seat, 1 to 64, in one of the faces, where nothing is prepared (docs/FORMATS.md, "Pages" and
    /// "HTML pages"). It frames what is drawn of that state, as `fragments` makes and keeps it.
    pub(crate) fn page<L: Ledger>(
        &mut self,
        alloc: Global,
        face: Face,
        seat: u8,
        steps: &mut Steps<L>,
    ) -> Result<Page, OutOfMemory>
        requires seat { IsSeat seat }
        requires rest { self.old.next ≡ None }
        ensures world { self.new ≡ drawn_as self.new.drawn self.old.next_drawn self.old }
        ensures made { OnOk result (self.new.drawn ≡ true) }
        ensures version { IfOk result (λ page. page.version ≡ version_of (history_term self.old.history)) }
        ensures page { IfOk result (λ page. IsWorldPage face (world_term self.old) seat page.text) }
        ensures legal { IfOk result (λ page. IsPage face (history_term self.old.history) seat page.text) }
        ensures room { IfOk result (λ page. page.room ≡ 256) }
        ensures steps { OnOk result (steps.new ≤ steps.old + most_steps self.old.drawn (tree_term self.old.tree)) }
    {
        // The history is legal.
        let _legal = self.history();
        let framing = Framing {
            face,
            version: self.version(),
            seat,
        };
        drawn_page(
            alloc,
            &self.engine,
            &mut self.live,
            &mut self.store,
            self.budget,
            framing,
            steps,
        )
    }
}
