ghost use Rattle.std.specs.Prelude.{◌≡◌, ◌+◌, IfOk, OnOk, length};
ghost use Rattle.task_server.specs.Crews.{all_sessions, all_told, owned};

use crate::crew::Crew;
use crate::shares::Shares;
use crate::watch::Watch;
use std::alloc::Global;
use std::collections::VecDeque;
use std::sync::ledger::Ledger;
use task_model::OutOfMemory;
use world_lock::{Mark, Session};

/// The sessions of all workers, whose parts of the ledgers are joined to `all`.
pub(crate) fn gather<M: Mark, W: Watch, T: Ledger, E: Ledger>(
    alloc: Global,
    back: Vec<Crew<M, W, T, E>>,
    all: &mut Shares<W, T, E>,
) -> Result<Vec<Session<M>>, OutOfMemory>
    ensures sessions { IfOk result (λ sessions. sessions.items ≡ all_sessions back.items) }
    ensures parts { OnOk result ((all.new.out.parts ≡ all.old.out.parts + length back.items)
        × (all.new.gained.parts ≡ all.old.gained.parts + length back.items) × (all.new.told.parts ≡ all.old.told.parts + length back.items)) }
    ensures amounts { OnOk result ((all.new.out.amount ≡ all.old.out.amount)
        × (all.new.gained.amount ≡ all.old.gained.amount + owned (all_sessions back.items))
        × (all.new.told.amount ≡ all.old.told.amount + all_told back.items)) }
{
    let mut rest = VecDeque::from(back);
    let mut sessions = VecDeque::new(alloc);
    while let Some(crew) = rest.pop_front() {
        let Crew {
            sessions: mut seated,
            shares,
            ..
        } = crew;
        all.merge(shares);
        sessions.append(&mut seated)?;
    }
    Ok(Vec::from(sessions))
}
