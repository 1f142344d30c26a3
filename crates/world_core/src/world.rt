ghost use Rattle.std.specs.Prelude.{◌≡◌, ◌+◌, ◌*◌, ◌≤◌, ℕ, [], ◌∷◌, IfErr, IfOk, IsSome, None, OnOk, Some, map, slice_get, false, true};
ghost use Rattle.std.specs.Option.{option_map};
ghost use Rattle.task_model.specs.Terms.Tree.{tree_term, State};
ghost use Rattle.task_model.specs.Terms.Input.{input_term};
ghost use Rattle.task_model.specs.Terms.Item.{opened, history_term};
ghost use Rattle.task_model.specs.Running.Checked.{checked_term};
ghost use Rattle.task_model.specs.Showing.Widget.{widget_term};
ghost use Rattle.task_model.specs.Running.State.{HasWidgets, IsOpening, IsState, IsLegal, IsPage, IsSeat, IsBudget, version_of};
ghost use Rattle.kept_nodes.specs.Kept.{IsRedrawn};
ghost use Rattle.node_rows.specs.TreeNodes.{tree_nodes};
ghost use Rattle.live_tree.specs.Live.{most_steps};
ghost use Rattle.world_core.specs.Pages.{AreFragments, AreNextFragments, AreWorldWidgets, IsNextVersion, IsWorldPage, next_most_steps};
ghost use Rattle.world_core.specs.World.{NextTerm, world_term, drawn_as, IsStanding, LeadsOn, Prepares, Commits, Replies, at_rest};

use crate::answers::{OpenStop, Taken};
use crate::parts::WorldParts;
use html_pages::{Fragments, Page};
use std::alloc::Global;
use std::marker::Model;
use std::sync::ledger::Ledger;
use task_model::{
    ActStop, Checked, Face, Input, Item, OutOfMemory, Row, Steps, Tree, Value, Widget, boxed,
};

/// A program that was opened: the history of what was taken, the state that it leads to, and what is prepared to follow
/// (docs/RULES.md, "Histories"). Its parts are in a box, so that it is cheap to move and to let go.
#[derive(Drop)]
pub struct World {
    parts: Box<WorldParts>,
}

impl Model for World {
    ghost use Rattle.std.specs.Coded.{codes};
    ghost use Rattle.task_model.specs.contracts.basic.Basic as basics;
    ghost use Rattle.task_model.specs.contracts.program.Program as programs;
    ghost use Rattle.task_model.specs.contracts.item.Item as items;
    ghost use Rattle.task_model.specs.contracts.tree.Tree as trees;
    ghost use Rattle.task_model.specs.contracts.value.Value as values;
    ghost use Rattle.world_core.specs.World.{SeenWorld};

    ghost Value = { SeenWorld };

    ghost coded = { Prim.hlevel (
      codes,
      basics.the_row.coded,
      programs.the_row.coded,
      items.the_row.coded,
      trees.the_row.coded,
      values.the_row.coded,
    ) };

    ghost view = { λ w. w.parts.value };
}

impl World {
    /// Opens a program: `main()` is evaluated and settled within the budget, 1 to 1,000,000 units. The history is that one item, and
    /// nothing is prepared. Nothing is tested for offers, and nothing drawn.
    pub fn open(alloc: Global, c: Checked, budget: u32) -> Result<World, OpenStop>
        requires { IsBudget budget }
        ensures program { IfOk result (λ w. checked_term w.checked ≡ checked_term c) }
        ensures budget { IfOk result (λ w. w.budget ≡ budget) }
        ensures history { IfOk result (λ w. history_term w.history ≡ opened (checked_term c).program budget ∷ []) }
        ensures state { IfOk result (λ w. IsOpening (checked_term c) budget (world_term w).state) }
        ensures rest { IfOk result (λ w. w.next ≡ None) }
        ensures over { IfErr result (λ stop. stop ≡ OpenStop.Over → (s : State) → IsOpening (checked_term c) budget s → ⊥) }
    {
        let parts = WorldParts::open(alloc, c, budget)?;
        let parts = boxed(alloc, parts)?;
        Ok(World { parts })
    }

    /// Prepares an input of a seat, 1 to 64, where nothing is prepared: the entry, and the state that it leads to, if the tree offers
    /// it and the budget holds. All that can be refused is refused here. A refusal changes nothing. Nothing is tested for offers, and nothing
    /// drawn.
    pub fn prepare(&mut self, seat: u8, input: Input) -> Result<(), ActStop>
        requires seat { IsSeat seat }
        requires rest { self.old.next ≡ None }
        ensures prepares { Prepares (world_term self.old) (record { seat = seat; input = input_term input }) (world_term self.new) result }
        ensures made { self.new.drawn ≡ self.old.drawn }
    {
        self.parts.prepare(seat, input)
    }

    /// What is prepared. The history with it is legal, and leads to the prepared state.
    pub fn next_item(&self) -> Option<&Item>
        ensures item { option_map (λ i. i.now) result ≡ option_map (λ n. n.item) self.now.next }
        ensures leads { LeadsOn (world_term self.now) (world_term self.now).next }
    {
        self.parts.next_item()
    }

    /// What is prepared is taken. It takes no memory.
    pub fn commit(&mut self) -> Taken
        requires { IsSome self.old.next }
        ensures commits { Commits (world_term self.old) (world_term self.new) result }
        ensures made { self.new.drawn ≡ self.old.next_drawn }
    {
        self.parts.commit()
    }

    /// What is prepared is given up, if anything is. It takes no memory.
    pub fn abandon(&mut self)
        ensures rest { world_term self.new ≡ at_rest (world_term self.old) }
        ensures made { self.new.drawn ≡ self.old.drawn }
    {
        self.parts.abandon()
    }

    /// Takes an input of a seat, 1 to 64, where nothing is prepared, if the tree offers it and the budget holds. A refusal changes
    /// nothing. Nothing is tested for offers, and nothing drawn.
    pub fn handle(&mut self, seat: u8, input: Input) -> Result<Taken, ActStop>
        requires seat { IsSeat seat }
        requires rest { self.old.next ≡ None }
        ensures replies { Replies (world_term self.old) (record { seat = seat; input = input_term input }) (world_term self.new) result }
        ensures rest { self.new.next ≡ None }
    {
        self.prepare(seat, input)?;
        Ok(self.commit())
    }

    /// The same, and the state that it leads to is drawn: where the present one was, no more than the nodes that aren't kept are tested and
    /// drawn. Where memory runs out for that the input isn't taken.
    pub fn handle_and_draw<L: Ledger>(
        &mut self,
        alloc: Global,
        seat: u8,
        input: Input,
        steps: &mut Steps<L>,
    ) -> Result<Taken, ActStop>
        requires seat { IsSeat seat }
        requires rest { self.old.next ≡ None }
        ensures replies { Replies (world_term self.old) (record { seat = seat; input = input_term input }) (world_term self.new) result }
        ensures rest { self.new.next ≡ None }
        ensures made { OnOk result (self.new.drawn ≡ true) }
        ensures steps { OnOk result (steps.new ≤ steps.old + most_steps false (tree_term self.new.tree)) }
        ensures few { OnOk result (self.old.drawn ≡ true → (m : ℕ) → IsRedrawn (world_term self.old).state (world_term self.new).state m
            → steps.new ≤ steps.old + 3 * m) }
    {
        self.prepare(seat, input)?;
        if self.next_fragments(alloc, steps).is_err() {
            self.abandon();
            return Err(ActStop::Memory);
        }
        Ok(self.commit())
    }

    /// The opening, and what was taken since, oldest first.
    pub fn history(&self) -> &[Item]
        ensures items { result.now ≡ self.now.history }
        ensures standing { IsStanding (world_term self.now) }
        ensures legal { IsLegal (history_term self.now.history) }
        ensures state { IsState (history_term self.now.history) (world_term self.now).state }
    {
        self.parts.history()
    }

    /// The number of inputs taken.
    pub fn version(&self) -> u64
        ensures { result ≡ version_of (history_term self.now.history) }
    {
        self.parts.version()
    }

    /// The program, with the types of its nodes.
    pub fn checked(&self) -> &Checked
        ensures { result.now ≡ self.now.checked }
    {
        self.parts.checked()
    }

    /// The budget of each event.
    pub fn budget(&self) -> u32
        ensures { result ≡ self.now.budget }
    {
        self.parts.budget()
    }

    /// The tree of the present state.
    pub fn tree(&self) -> &Tree
        ensures { result.now ≡ self.now.tree }
    {
        self.parts.tree()
    }

    /// The number of the tree's nodes, by one walk. A number that no 64 bits hold is want of memory.
    pub fn nodes(&self) -> Result<u64, OutOfMemory>
        ensures { IfOk result (λ n. n ≡ tree_nodes (tree_term self.now.tree)) }
    {
        self.parts.nodes()
    }

    /// What the store holds at a place, where nothing is prepared.
    pub fn at(&self, place: u64) -> Option<&Value>
        requires rest { self.now.next ≡ None }
        ensures { option_map (λ v. v.now) result ≡ slice_get self.now.store place }
    {
        self.parts.at(place)
    }

    /// What is drawn of the present state, where nothing is prepared. It is made where it is first asked for, by at most two tests and one
    /// drawing for each node, which are counted, and kept. The world stays, but that its state was drawn.
    pub fn fragments<L: Ledger>(
        &mut self,
        alloc: Global,
        steps: &mut Steps<L>,
    ) -> Result<Fragments, OutOfMemory>
        requires rest { self.old.next ≡ None }
        ensures world { self.new ≡ drawn_as self.new.drawn self.old.next_drawn self.old }
        ensures made { OnOk result (self.new.drawn ≡ true) }
        ensures fragments { IfOk result (AreFragments (history_term self.old.history)) }
        ensures steps { OnOk result (steps.new ≤ steps.old + most_steps self.old.drawn (tree_term self.old.tree)) }
    {
        self.parts.fragments(alloc, steps)
    }

    /// The widgets of the present state, in pre-order, where nothing is prepared (docs/RULES.md, "Interfaces"). Their table is made where
    /// it is first asked for, as for `fragments`, and kept. The world stays, but that its state was drawn.
    pub fn widgets<L: Ledger>(
        &mut self,
        alloc: Global,
        steps: &mut Steps<L>,
    ) -> Result<Row<Widget>, OutOfMemory>
        requires rest { self.old.next ≡ None }
        ensures world { self.new ≡ drawn_as self.new.drawn self.old.next_drawn self.old }
        ensures made { OnOk result (self.new.drawn ≡ true) }
        ensures widgets { IfOk result (λ ws. AreWorldWidgets (world_term self.old) (map widget_term ws.list)) }
        ensures legal { IfOk result (λ ws. HasWidgets (history_term self.old.history) (map widget_term ws.list)) }
        ensures steps { OnOk result (steps.new ≤ steps.old + most_steps self.old.drawn (tree_term self.old.tree)) }
    {
        self.parts.widgets(alloc, steps)
    }

    /// What is drawn of the prepared state, as for the present one. Where that was drawn the rows of kept nodes are taken over, and no more
    /// than the other nodes are tested and drawn. A commit keeps it.
    pub fn next_fragments<L: Ledger>(
        &mut self,
        alloc: Global,
        steps: &mut Steps<L>,
    ) -> Result<Fragments, OutOfMemory>
        requires prepared { IsSome self.old.next }
        ensures world { self.new ≡ drawn_as self.old.drawn self.new.next_drawn self.old }
        ensures made { OnOk result (self.new.next_drawn ≡ true) }
        ensures fragments { IfOk result (AreNextFragments (world_term self.old).history (world_term self.old).next) }
        ensures steps { OnOk result (steps.new ≤ steps.old + next_most_steps self.old.next_drawn (world_term self.old).next) }
        ensures few { OnOk result (self.old.drawn ≡ true → (n : NextTerm) → (world_term self.old).next ≡ Some n → (m : ℕ)
            → IsRedrawn (world_term self.old).state n.state m → steps.new ≤ steps.old + 3 * m) }
    {
        self.parts.next_fragments(alloc, steps)
    }

    /// The number of inputs taken, once what is prepared is committed.
    pub fn next_version(&self) -> u64
        requires prepared { IsSome self.now.next }
        ensures { IsNextVersion (world_term self.now).history (world_term self.now).next result }
    {
        self.parts.next_version()
    }

    /// The page of the present state for a seat, 1 to 64, in one of the faces, where nothing is prepared (docs/FORMATS.md, "Pages" and
    /// "HTML pages"). It frames what is drawn of that state, as `fragments` makes and keeps it.
    pub fn page<L: Ledger>(
        &mut self,
        alloc: Global,
        face: Face,
        seat: u8,
        steps: &mut Steps<L>,
    ) -> Result<Page, OutOfMemory>
        requires seat { IsSeat seat }
        requires rest { self.old.next ≡ None }
        ensures world { self.new ≡ drawn_as self.new.drawn self.old.next_drawn self.old }
        ensures made { OnOk result (self.new.drawn ≡ true) }
        ensures version { IfOk result (λ page. page.version ≡ version_of (history_term self.old.history)) }
        ensures page { IfOk result (λ page. IsWorldPage face (world_term self.old) seat page.text) }
        ensures legal { IfOk result (λ page. IsPage face (history_term self.old.history) seat page.text) }
        ensures room { IfOk result (λ page. page.room ≡ 256) }
        ensures steps { OnOk result (steps.new ≤ steps.old + most_steps self.old.drawn (tree_term self.old.tree)) }
    {
        self.parts.page(alloc, face, seat, steps)
    }
}
