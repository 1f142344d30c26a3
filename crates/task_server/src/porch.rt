ghost use Rattle.std.specs.Prelude.{◌≡◌, ◌+◌, ◌<◌, ◌≤◌, IfSome, IfNone};
ghost use Rattle.outer_io.specs.Links.{IsFresh};
ghost use Rattle.outer_gates.specs.Gates.{GateTold, HandsOut};
ghost use Rattle.task_model.specs.Terms.Item.{history_term};
ghost use Rattle.task_server.specs.Answering.{IsAnswered};
ghost use Rattle.task_server.specs.Porches.{IsAtEnd, IsEnough, IsGateServed, IsGateState};

use crate::gate_state::GateState;
use crate::shares::Shares;
use crate::watch::Watch;
use outer_gates::{Accept, Gate};
use page_board::Front;
use std::marker::{Model, PhantomData};
use std::sync::ledger::{Book, Ledger};
use world_lock::Mark;

/// The gate under its lock, with its ledgers, and a beginning of the board's history at which all finished links are answered.
/// Contracts see nothing of it but what it keeps.
#[derive(Drop)]
pub(crate) struct Porch<M: Mark, W: Watch, T: Ledger, E: Ledger, G: Gate> {
    gate: G,
    state: GateState,
    accepted: u64,
    finished: u64,
    stated: u64,
    front: Front,
    out: Book<W>,
    gained: Book<T>,
    told: Book<E>,
    of: PhantomData<M>,
}

/// A gate that was served, so far as the porch knows.
#[derive(Drop)]
pub(crate) struct Settled<G: Drop> {
    pub(crate) gate: G,
    pub(crate) state: GateState,
    pub(crate) connections: u64,
    pub(crate) front: Front,
}

impl<M: Mark, W: Watch, T: Ledger, E: Ledger, G: Gate> Model for Porch<M, W, T, E, G> {
    ghost use Rattle.std.specs.Prelude.{◌≡◌, ℕ};
    ghost use Rattle.task_model.specs.Terms.Item.{history_term};
    ghost use Rattle.task_server.specs.Porches.{IsPorch};

    ghost Value = { ℕ };

    ghost view = { λ p. p.accepted };

    ghost invariant = { λ p. (p.front.board ≡ M.board) × IsPorch M.start W.entry W.held W.limit (G.told p.gate) p.state
        (history_term p.front.list) p.accepted p.finished p.stated p.out.total p.gained.total p.told.total };
}

// The next link, unless so many were accepted, or the gate was closed or failed before.
fn next_link<G: Gate>(
    gate: &mut G,
    state: &mut GateState,
    accepted: u64,
    stated: u64,
) -> Option<G::Link>
    requires within { accepted ≤ stated }
    ensures some { IfSome result (λ l. HandsOut (G.told gate.old).left (G.told gate.new).left (G.tells l) × IsFresh (G.tells l)
        × (accepted < stated) × (state.old ≡ GateState.Open) × (state.new ≡ GateState.Open)) }
    ensures none { IfNone result (IsEnough state.new stated accepted × ((G.told gate.new).left ≡ (G.told gate.old).left)) }
    ensures state { (entry : GateTold) → IsGateState state.old entry (G.told gate.old) → IsGateState state.new entry (G.told gate.new) }
    ensures finished { (G.told gate.new).finished ≡ (G.told gate.old).finished }
{
    if accepted >= stated {
        return None;
    }
    match *state {
        GateState::Closed | GateState::Failed => None,
        GateState::Open => ask(gate, state),
    }
}

// Asks the gate for a link.
fn ask<G: Gate>(gate: &mut G, state: &mut GateState) -> Option<G::Link>
    requires open { state.old ≡ GateState.Open }
    ensures some { IfSome result (λ l. HandsOut (G.told gate.old).left (G.told gate.new).left (G.tells l) × IsFresh (G.tells l)
        × (state.new ≡ GateState.Open)) }
    ensures none { IfNone result (IsAtEnd state.new × ((G.told gate.new).left ≡ (G.told gate.old).left)) }
    ensures state { (entry : GateTold) → (G.told gate.old).faults ≡ entry.faults → IsGateState state.new entry (G.told gate.new) }
    ensures finished { (G.told gate.new).finished ≡ (G.told gate.old).finished }
{
    match gate.accept() {
        Accept::Link(link) => Some(link),
        Accept::Closed => {
            *state = GateState::Closed;
            None
        }
        Accept::Failed => {
            *state = GateState::Failed;
            None
        }
    }
}

impl<M: Mark, W: Watch, T: Ledger, E: Ledger, G: Gate> Porch<M, W, T, E, G> {
    /// The gate at entry, and what some session has seen.
    pub(crate) fn new(
        gate: G,
        stated: u64,
        front: Front,
        out: Book<W>,
        gained: Book<T>,
        told: Book<E>,
    ) -> Porch<M, W, T, E, G>
        requires gate { G.told gate ≡ W.entry }
        requires stated { stated ≡ W.limit }
        requires front { front.board ≡ M.board }
        requires ledgers { (out.total ≡ 0) × (gained.total ≡ W.held) × (told.total ≡ 0) }
    {
        Porch {
            gate,
            state: GateState::Open,
            accepted: 0,
            finished: 0,
            stated,
            front,
            out,
            gained,
            told,
            of: PhantomData,
        }
    }

    /// Hands out a link, if one comes and the stated number isn't reached; the caller's part tells that it is out. Else the
    /// caller is told that nothing more comes.
    pub(crate) fn take(&mut self, mine: &mut Shares<W, T, E>) -> Option<G::Link>
        requires parts { (0 < mine.old.out.parts) × (0 < mine.old.told.parts) }
        requires none_out { mine.old.out.amount ≡ 0 }
        ensures some { IfSome result (λ l. IsFresh (G.tells l) × (mine.new.out.amount ≡ 1) × (mine.new.told.amount ≡ mine.old.told.amount)) }
        ensures none { IfNone result ((mine.new.out.amount ≡ 0) × (mine.new.told.amount ≡ mine.old.told.amount + 1)) }
        ensures parts { (mine.new.out.parts ≡ mine.old.out.parts) × (mine.new.told.parts ≡ mine.old.told.parts) }
        ensures gained { mine.new.gained ≡ mine.old.gained }
    {
        match next_link(&mut self.gate, &mut self.state, self.accepted, self.stated) {
            Some(link) => {
                self.out.add(&mut mine.out, 1);
                self.accepted += 1;
                Some(link)
            }
            None => {
                self.told.add(&mut mine.told, 1);
                None
            }
        }
    }

    /// Takes back a link that is answered at what was seen, with so many inputs taken.
    pub(crate) fn finish(
        &mut self,
        link: G::Link,
        mine: &mut Shares<W, T, E>,
        seen: &Front,
        count: u64,
    )
        requires out { mine.old.out.amount ≡ 1 }
        requires parts { 0 < mine.old.gained.parts }
        requires board { seen.now.board ≡ M.board }
        requires answered { IsAnswered M.start (history_term seen.now.list) (G.tells link) count }
        ensures out { (mine.new.out.parts ≡ mine.old.out.parts) × (mine.new.out.amount ≡ 0) }
        ensures gained { (mine.new.gained.parts ≡ mine.old.gained.parts) × (mine.new.gained.amount ≡ mine.old.gained.amount + count) }
        ensures told { mine.new.told ≡ mine.old.told }
    {
        self.front.reach(seen);
        self.out.sub(&mut mine.out, 1);
        self.gained.add(&mut mine.gained, count);
        self.finished += 1;
        self.gate.finish(link);
    }

    /// The gate, whatever was served.
    pub(crate) fn give_up(self) -> G {
        let Porch { gate, .. } = self;
        gate
    }

    /// Ends it, once all parts are together, no link is out, and some worker was told that nothing more comes.
    pub(crate) fn settle(self, mine: &mut Shares<W, T, E>) -> Settled<G>
        requires out { (mine.old.out.parts ≡ W.parts) × (mine.old.out.amount ≡ 0) }
        requires gained { mine.old.gained.parts ≡ T.parts }
        requires told { (mine.old.told.parts ≡ E.parts) × (0 < mine.old.told.amount) }
        ensures served { IsGateServed M.start W.entry W.held W.limit (G.told result.gate) result.state (history_term result.front.list)
            result.connections mine.old.gained.amount }
        ensures board { result.front.board ≡ M.board }
    {
        let Porch {
            gate,
            state,
            accepted,
            front,
            mut out,
            mut gained,
            mut told,
            ..
        } = self;
        out.audit(&mut mine.out);
        gained.audit(&mut mine.gained);
        told.audit(&mut mine.told);
        Settled {
            gate,
            state,
            connections: accepted,
            front,
        }
    }
}
