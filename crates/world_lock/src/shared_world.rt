ghost use Rattle.std.specs.Prelude.{◌≡◌, ◌≤◌, ◌<◌, ◌++◌, ◌∷◌, [], ℕ, None, Err, IfOk, OnErr};
ghost use mathlib.Core.List.{IsPrefix};
ghost use Rattle.task_model.specs.Terms.Input.{input_term};
ghost use Rattle.task_model.specs.Terms.Item.{took, history_term};
ghost use Rattle.task_model.specs.Running.Outcome.{not_offered, over_budget};
ghost use Rattle.task_model.specs.Running.State.{IsLegal, version_of};
ghost use Rattle.task_model.specs.declared.stops.ActStop.TheVariants.{NotOffered, Over};
ghost use Rattle.session_desk.specs.Desks.{IsTakenBy, KeepsEntries, ShowsPage, seat_entry};
ghost use Rattle.session_desk.specs.Outcomes.{HasOutcome};
ghost use Rattle.session_desk.specs.declared.page_stop.PageStop.TheVariants.{Ahead};
ghost use Rattle.world_lock.specs.Sessions.{session_term};

use crate::mark::Mark;
use crate::session::Session;
use html_pages::Page;
use page_board::{BoardWriter, Front};
use session_desk::PageStop;
use std::alloc::Global;
use std::marker::{Brand, Model};
use std::sync::Wait;
use std::sync::ledger::{Blank, Book, Share};
use task_model::{ActStop, Entry, Face, Input, OutOfMemory, copy_input};
use world_core::World;
use world_events::{draw, happen};

/// What lies under the lock. Contracts see the world's history, which is also the published list.
#[derive(Drop)]
pub(crate) struct SharedWorld<M: Mark, R: Wait + Copy> {
    pub(crate) world: World,
    pub(crate) writer: BoardWriter<R>,
    pub(crate) book: Book<M>,
    // What is left of the shares once the sessions have theirs.
    pub(crate) root: Share<M>,
}

impl<M: Mark, R: Wait + Copy> Model for SharedWorld<M, R> {
    ghost use Rattle.std.specs.Prelude.{◌≡◌, List};
    ghost use Rattle.std.specs.Coded.{codes};
    ghost use Rattle.task_model.specs.contracts.item.Item as items;
    ghost use Rattle.task_model.specs.declared.item.Item.{Item};
    ghost use Rattle.world_lock.specs.Sessions.{IsShared};

    ghost Value = { List Item };

    ghost coded = { Prim.hlevel (codes, items.the_row.coded) };

    ghost view = { λ w. w.world.history };

    ghost invariant = { λ w. IsShared M.board M.start w.world w.writer w.book.total × (M.parts ≡ M.seats) };
}

impl<M: Mark, R: Wait + Copy> SharedWorld<M, R> {
    // A share with no part, to which others can be joined.
    pub(crate) fn no_share(&mut self) -> Share<M>
        ensures share { (result.parts ≡ 0) × (result.amount ≡ 0) }
        ensures same { self.new ≡ self.old }
    {
        self.root.empty()
    }

    // What was kept of a session begins the history.
    pub(crate) fn holds(&mut self, front: &Front)
        requires board { front.now.board ≡ M.board }
        ensures begins { IsPrefix (history_term front.now.list) (history_term self.old) }
        ensures same { self.new ≡ self.old }
    {
        self.writer.holds(front);
    }

    // The session sees the whole history.
    pub(crate) fn meet(&mut self, me: &mut Session<M>)
        ensures seen { ((session_term me.new).seen ≡ history_term self.old) × IsLegal (history_term self.old) }
        ensures before { IsPrefix (session_term me.old).seen (history_term self.old) }
        ensures same { self.new ≡ self.old }
        ensures kept { (me.new.seat ≡ me.old.seat) × (me.new.own ≡ me.old.own) × (me.new.refusals ≡ me.old.refusals)
            × (me.new.page_at_calls ≡ me.old.page_at_calls) }
    {
        let _legal = self.world.history();
        self.writer.meet(&mut me.reader);
        me.seen = self.world.version();
    }

    // One event. All that can be refused comes before the first change, and what follows the publishing takes no memory.
    pub(crate) fn act(
        &mut self,
        alloc: Global,
        me: &mut Session<M>,
        input: Input,
    ) -> Result<u64, ActStop>
        ensures seen { (session_term me.new).seen ≡ history_term self.new }
        ensures ok { IfOk result (λ version. IsTakenBy (session_term me.old) (session_term me.new) (input_term input) version) }
        ensures added { IfOk result (λ version. history_term self.new
            ≡ history_term self.old ++ took (seat_entry me.old.seat (input_term input)) ∷ []) }
        ensures not_offered { result ≡ Err NotOffered → HasOutcome (history_term self.old) (input_term input) not_offered }
        ensures over { result ≡ Err Over → HasOutcome (history_term self.old) (input_term input) over_budget }
        ensures refused { OnErr result (KeepsEntries (session_term me.old) (session_term me.new) (session_term me.old).page_at_calls
            × (history_term self.new ≡ history_term self.old)) }
    {
        self.meet(me);
        if me.own.reserve(1).is_err() {
            return Err(ActStop::Memory);
        }
        let own = Entry {
            seat: me.seat,
            input: copy_input(alloc, &input)?,
        };
        let (mut told, version) = happen::<Brand, R>(
            &mut self.world,
            &mut self.writer,
            alloc,
            me.seat,
            input,
            Blank::new(1),
        )?;
        me.seen = version;
        me.reader.learn(&mut told);
        self.book.add(&mut me.share, 1);
        me.own.push_reserved(own);
        Ok(version)
    }

    // A page of the present history, if it is long enough, behind room for the head of a reply.
    pub(crate) fn page_at(
        &mut self,
        alloc: Global,
        me: &mut Session<M>,
        face: Face,
        at_least: u64,
    ) -> Result<Page, PageStop>
        ensures same { self.new ≡ self.old }
        ensures seen { (session_term me.new).seen ≡ history_term self.old }
        ensures kept { KeepsEntries (session_term me.old) (session_term me.new) (session_term me.old).page_at_calls }
        ensures ok { IfOk result (λ page. ShowsPage face (session_term me.new).seen (session_term me.new).seat page
            × (at_least ≤ page.version)) }
        ensures room { IfOk result (λ page. page.room ≡ 256) }
        ensures ahead { (have : ℕ) → result ≡ Err (Ahead have) → (have ≡ version_of (history_term self.old)) × (have < at_least) }
    {
        self.meet(me);
        let version = self.world.version();
        if version < at_least {
            return Err(PageStop::Ahead { have: version });
        }
        match draw::<Brand>(&mut self.world, alloc, face, me.seat, Blank::new(1)) {
            Ok(page) => Ok(page),
            Err(OutOfMemory) => Err(PageStop::Memory),
        }
    }

    // Ends the board, and tells how a share with all parts stands to the history.
    pub(crate) fn settle(self, all: &mut Share<M>) -> World
        ensures world { (result.history ≡ self) × (result.next ≡ None) }
        ensures kept { IsLegal (history_term self) × IsPrefix M.start (history_term self) }
        ensures whole { (M.parts ≡ M.seats) × (all.old.parts ≡ M.parts → all.old.amount ≡ version_of (history_term self)) }
    {
        let SharedWorld {
            world,
            writer: _writer,
            mut book,
            root: _root,
        } = self;
        book.audit(all);
        let _legal = world.history();
        world
    }
}
