use crate::shares::Shares;
use crate::watch::Watch;
use session_gate::Trace;
use std::collections::VecDeque;
use std::marker::Model;
use std::sync::ledger::Ledger;
use world_lock::{Mark, Session};

/// A worker: its sessions, of which there is at least one, its parts of the ledgers, and the room for its notes. Contracts see the
/// sessions, and how often it was told that nothing more comes.
#[derive(Drop)]
pub(crate) struct Crew<M: Mark, W: Watch, T: Ledger, E: Ledger> {
    pub(crate) sessions: VecDeque<Session<M>>,
    pub(crate) shares: Shares<W, T, E>,
    pub(crate) trace: Trace,
}

impl<M: Mark, W: Watch, T: Ledger, E: Ledger> Model for Crew<M, W, T, E> {
    ghost use Rattle.std.specs.Prelude.{◌<◌, length};
    ghost use Rattle.std.specs.Coded.{codes};
    ghost use Rattle.task_model.specs.contracts.item.Item as items;
    ghost use Rattle.task_model.specs.contracts.value.Value as values;
    ghost use Rattle.task_server.specs.Crews.{CrewTerm, HasOnePart, crew_term, owned};

    ghost Value = { CrewTerm };

    ghost coded = { Prim.hlevel (codes, items.the_row.coded, values.the_row.coded) };

    ghost view = { λ c. crew_term c.sessions.items c.shares.told.amount };

    ghost invariant = { λ c. (0 < length c.sessions.items) × HasOnePart c.shares.out.parts c.shares.out.amount c.shares.gained.parts
        c.shares.gained.amount c.shares.told.parts c.shares.told.amount (owned c.sessions.items) c.shares.told.amount };
}
