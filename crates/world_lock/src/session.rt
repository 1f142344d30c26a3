ghost use Rattle.std.specs.Prelude.{◌≡◌, ◌≤◌, ◌<◌, ℕ, Err, IfOk, IfSome, OnErr, length};
ghost use mathlib.Core.List.{IsPrefix};
ghost use Rattle.outer_io.specs.Causes.{Rose, next_count};
ghost use Rattle.task_model.specs.Terms.Input.{input_term};
ghost use Rattle.task_model.specs.Terms.Item.{history_term};
ghost use Rattle.task_model.specs.Running.Outcome.{not_offered, over_budget};
ghost use Rattle.task_model.specs.Running.State.{IsLegal, IsSeat, entries_of, version_of};
ghost use Rattle.task_model.specs.declared.stops.ActStop.TheVariants.{NotOffered, Over};
ghost use Rattle.page_board.specs.Moments.{StandsFor};
ghost use Rattle.session_desk.specs.Desks.{IsTakenBy, KeepsEntries, ShowsPage};
ghost use Rattle.session_desk.specs.Outcomes.{HasOutcome};
ghost use Rattle.session_desk.specs.declared.page_stop.PageStop.TheVariants.{Ahead};
ghost use Rattle.session_desk.specs.declared.view_stop.ViewStop.TheVariants.{NoEntry};
ghost use Rattle.world_lock.specs.Within.{StandsWithin};
ghost use Rattle.world_lock.specs.Sessions.{session_term};

use crate::mark::Mark;
use crate::shared::Shared;
use html_pages::{Page, frame_behind_room};
use page_board::{BoardReader, Front, Moment};
use session_desk::{PageStop, ViewStop};
use std::alloc::Global;
use std::marker::Model;
use std::sync::Wait;
use std::sync::ledger::Share;
use task_model::{ActStop, Entry, Face, Input, OutOfMemory};

/// One seat's session. Contracts see its seat, the history that it has seen, its own entries, how often the board refused it, and how often
/// a page of some version was asked for. That history is legal and begins with the opening, and the own entries stand in it, in order.
#[derive(Drop)]
pub struct Session<M: Mark> {
    pub(crate) seat: u8,
    // The version of the history that it has seen.
    pub(crate) seen: u64,
    pub(crate) reader: BoardReader,
    pub(crate) own: Vec<Entry>,
    pub(crate) share: Share<M>,
    pub(crate) page_at_calls: u64,
}

impl<M: Mark> Model for Session<M> {
    ghost use Rattle.std.specs.Coded.{codes};
    ghost use Rattle.task_model.specs.contracts.item.Item as items;
    ghost use Rattle.task_model.specs.contracts.value.Value as values;
    ghost use Rattle.world_lock.specs.Sessions.{SeenSession, seen_session, session_term, IsAttending};

    ghost Value = { SeenSession };

    ghost coded = { Prim.hlevel (codes, items.the_row.coded, values.the_row.coded) };

    ghost view = { λ s. seen_session s.seat s.reader s.own.items s.page_at_calls };

    ghost invariant = { λ s. IsAttending M.board M.start s.reader.board
        (session_term (seen_session s.seat s.reader s.own.items s.page_at_calls)) s.seen s.share.parts s.share.amount };
}

// What a session shows of a moment: its version, and its page for the seat, behind room for the head of a reply.
fn view(alloc: Global, face: Face, seat: u8, moment: &Moment) -> (u64, Result<Page, OutOfMemory>)
    ensures version { result.0 ≡ moment.now.version }
    ensures page { (h : _) → StandsFor moment.now h → IfOk result.1 (ShowsPage face h seat) }
    ensures room { IfOk result.1 (λ page. page.room ≡ 256) }
{
    (
        moment.version,
        frame_behind_room(alloc, face, moment.version, seat, &moment.fragments),
    )
}

impl<M: Mark> Session<M> {
    /// Its seat.
    pub fn seat(&self) -> u8
        ensures seat { result ≡ (session_term self.now).seat }
        ensures range { IsSeat (session_term self.now).seat }
    {
        self.seat
    }

    /// The number of entries in the history that it has seen.
    pub fn seen(&self) -> u64
        ensures version { result ≡ version_of (session_term self.now).seen }
        ensures legal { IsLegal (session_term self.now).seen }
        ensures begins { IsPrefix M.start (session_term self.now).seen }
    {
        self.seen
    }

    /// What it has seen, to be kept by another.
    pub fn front(&self) -> Front
        ensures board { result.board ≡ M.board }
        ensures list { history_term result.list ≡ (session_term self.now).seen }
    {
        self.reader.front()
    }

    /// The number of its own entries.
    pub fn own_count(&self) -> usize
        ensures { result ≡ length (session_term self.now).own }
    {
        self.own.len()
    }

    /// How often the board refused it, at most 2^64 - 1.
    pub fn refusals(&self) -> u64
        ensures { result ≡ (session_term self.now).refusals }
    {
        self.reader.refusals()
    }

    /// How often a page of some version was asked for, at most 2^64 - 1.
    pub fn page_at_calls(&self) -> u64
        ensures { result ≡ (session_term self.now).page_at_calls }
    {
        self.page_at_calls
    }

    // Its share, with the number of its own entries for the amount.
    pub(crate) fn into_share(self) -> Share<M>
        ensures share { (result.parts ≡ 1) × (result.amount ≡ length (session_term self).own) }
        ensures stands { StandsWithin (session_term self).own (entries_of (session_term self).seen self.seat) }
    {
        let Session { share, .. } = self;
        share
    }

    /// Gives an input, under the lock. Where it is taken the history that is then seen ends with it, and this is its version. Else its
    /// outcome there is as is said, or memory ran out, and the own entries stay.
    pub fn act<R: Wait, W: Wait + Copy>(
        &mut self,
        rt: &R,
        alloc: Global,
        shared: &Shared<M, W>,
        input: Input,
    ) -> Result<u64, ActStop>
        ensures ok { IfOk result (λ version. IsTakenBy (session_term self.old) (session_term self.new) (input_term input) version) }
        ensures not_offered { result ≡ Err NotOffered → HasOutcome (session_term self.new).seen (input_term input) not_offered }
        ensures over { result ≡ Err Over → HasOutcome (session_term self.new).seen (input_term input) over_budget }
        ensures refused { OnErr result
            (KeepsEntries (session_term self.old) (session_term self.new) (session_term self.old).page_at_calls) }
    {
        shared.world.lock(rt).act(alloc, self, input)
    }

    /// The newest page that the board shows, behind room for the head of a reply. It takes no lock and waits for nobody, and it is framed
    /// once the board is left. Where the board refuses the entry, what was seen stays.
    pub fn page(&mut self, alloc: Global, face: Face) -> Result<Page, ViewStop>
        ensures asked { KeepsEntries (session_term self.old) (session_term self.new) (session_term self.old).page_at_calls }
        ensures ok { IfOk result (λ page. ShowsPage face (session_term self.new).seen (session_term self.new).seat page) }
        ensures room { IfOk result (λ page. page.room ≡ 256) }
        ensures no_entry { result ≡ Err NoEntry → ((session_term self.new).seen ≡ (session_term self.old).seen)
            × Rose (session_term self.old).refusals (session_term self.new).refusals }
    {
        let seat = self.seat;
        match self.reader.read(|moment| view(alloc, face, seat, moment)) {
            Ok((version, page)) => {
                self.seen = version;
                match page {
                    Ok(page) => Ok(page),
                    Err(OutOfMemory) => Err(ViewStop::Memory),
                }
            }
            Err(_) => Err(ViewStop::NoEntry),
        }
    }

    /// A page of at least this version, behind room for the head of a reply. Where that was seen, the board's newest one serves; else, or
    /// where the board refuses the entry, it is made under the lock. `Ahead` comes exactly where the history there has fewer entries.
    pub fn page_at<R: Wait, W: Wait + Copy>(
        &mut self,
        rt: &R,
        alloc: Global,
        shared: &Shared<M, W>,
        face: Face,
        at_least: u64,
    ) -> Result<Page, PageStop>
        ensures asked { KeepsEntries (session_term self.old) (session_term self.new) (next_count (session_term self.old).page_at_calls) }
        ensures ok { IfOk result (λ page. ShowsPage face (session_term self.new).seen (session_term self.new).seat page
            × (at_least ≤ page.version)) }
        ensures room { IfOk result (λ page. page.room ≡ 256) }
        ensures ahead { (have : ℕ) → result ≡ Err (Ahead have) → (have ≡ version_of (session_term self.new).seen) × (have < at_least) }
    {
        self.count_call();
        match self.newest(alloc, face, at_least) {
            Some(page) => Ok(page),
            None => shared.world.lock(rt).page_at(alloc, self, face, at_least),
        }
    }

    // One call of `page_at` more.
    fn count_call(&mut self)
        ensures asked { KeepsEntries (session_term self.old) (session_term self.new) (next_count (session_term self.old).page_at_calls) }
    {
        self.page_at_calls = self.page_at_calls.saturating_add(1);
    }

    // The board's newest page, where this version was seen and the board doesn't refuse the entry.
    fn newest(&mut self, alloc: Global, face: Face, at_least: u64) -> Option<Page>
        ensures asked { KeepsEntries (session_term self.old) (session_term self.new) (session_term self.old).page_at_calls }
        ensures some { IfSome result (λ page. ShowsPage face (session_term self.new).seen (session_term self.new).seat page
            × (at_least ≤ page.version)) }
        ensures room { IfSome result (λ page. page.room ≡ 256) }
    {
        if self.seen < at_least {
            return None;
        }
        self.page(alloc, face).ok()
    }
}
