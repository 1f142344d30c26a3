ghost use Rattle.std.specs.Prelude.{◌≡◌, ◌<◌, ◌≤◌, ℕ, Err, IfOk, length};
ghost use Rattle.outer_gates.specs.Gates.{GateTold};
ghost use Rattle.task_model.specs.Terms.Item.{history_term};
ghost use Rattle.task_server.specs.Crews.{HasWorked, KeepSeats, all_sessions, all_told, desks, owned};
ghost use Rattle.task_server.specs.Porches.{IsGateServed};
ghost use Rattle.task_server.specs.Results.{IsResult, IsResultOf};
ghost use Rattle.world_lock.specs.Closings.{HasAllSeats};

use crate::crew::Crew;
use crate::gate_state::GateState;
use crate::gathering::gather;
use crate::porch::{Porch, Settled};
use crate::shares::Shares;
use crate::staffing::staff;
use crate::watch::Watch;
use crate::work::work;
use outer_gates::Gate;
use page_board::{BoardReader, BoardWriter, Front};
use std::alloc::Global;
use std::marker::Brand;
use std::sync::ledger::{Blank, Ledger};
use std::sync::{Mutex, Wait};
use std::thread;
use std::thread::Threads;
use task_model::OutOfMemory;
use world_crossing::{crosses, entries_cross, worlds_cross};
use world_lock::{Closed, Mark, Session, Shared, close_holding};

/// What came of serving a gate: the closed world, and how many links were handed out.
#[derive(Drop)]
pub struct Served {
    pub closed: Closed,
    pub connections: u64,
}

/// Why serving ended early.
#[derive(Drop)]
pub enum ServeStop {
    /// A call of the gate failed. What came of it until then.
    GateFault(Served),
    /// Memory ran out.
    Memory,
}

/// The gate that was served, and what came of it.
#[derive(Drop)]
pub struct Serving<G: Drop> {
    pub gate: G,
    pub result: Result<Served, ServeStop>,
}

// Blank ledgers, with a part for each worker.
#[derive(Drop)]
struct Blanks {
    out: Blank,
    gained: Blank,
    told: Blank,
}

/// Serves the links of a gate with the sessions of a world, by so many workers, or as many as there are sessions: until so many links were
/// handed out, or none is left, or a call of the gate fails. Each worker has a thread of its own where one can be made; else they work one
/// after another. Then the world is closed.
pub fn serve<M: Mark + Send + Sync, G: Gate, R: Threads + Wait + Copy + Send + Sync>(
    rt: &R,
    alloc: Global,
    shared: Shared<M, R>,
    sessions: Vec<Session<M>>,
    gate: G,
    workers: u8,
    connections: u64,
) -> Serving<G>
    requires workers { 0 < workers }
    requires sessions { 0 < length sessions.items }
    requires seats { HasAllSeats (desks sessions.items) M.seats }
    ensures { IsResult M.start M.seats (owned sessions.items) connections (G.told gate) (G.told result.gate) result.result }
{
    let count = sessions.len().min(usize::from(workers));
    let parts = count as u64;
    let blanks = Blanks {
        out: Blank::new(parts),
        gained: Blank::new(parts),
        told: Blank::new(parts),
    };
    serve_as::<M, Brand, Brand, Brand, G, R>(
        rt,
        alloc,
        shared,
        sessions,
        gate,
        count,
        connections,
        blanks,
    )
}

// The same, where types name this serving.
fn serve_as<
    M: Mark + Send + Sync,
    W: Watch + Send + Sync,
    T: Ledger + Send + Sync,
    E: Ledger + Send + Sync,
    G: Gate,
    R: Threads + Wait + Copy + Send + Sync,
>(
    rt: &R,
    alloc: Global,
    shared: Shared<M, R>,
    sessions: Vec<Session<M>>,
    gate: G,
    workers: usize,
    connections: u64,
    blanks: Blanks,
) -> Serving<G>
    requires names { (blanks.out.name ≡ W.name) × (blanks.gained.name ≡ T.name) × (blanks.told.name ≡ E.name) }
    requires parts { (blanks.out.parts ≡ W.parts) × (blanks.gained.parts ≡ T.parts) × (blanks.told.parts ≡ E.parts) }
    requires watch { (W.entry ≡ G.told gate) × (W.limit ≡ connections) × (W.held ≡ owned sessions.items) }
    requires workers { (0 < workers) × (workers ≤ length sessions.items) }
    requires each { (workers ≡ W.parts) × (workers ≡ T.parts) × (workers ≡ E.parts) }
    requires seats { HasAllSeats (desks sessions.items) M.seats }
    ensures { IsResult M.start M.seats (owned sessions.items) connections (G.told gate) (G.told result.gate) result.result }
{
    let front = sessions[0].front();
    let (out, out_parts) = blanks.out.open::<W>();
    let (mut gained, gained_parts) = blanks.gained.open::<T>();
    let (told, told_parts) = blanks.told.open::<E>();
    let mut all = Shares {
        out: out_parts,
        gained: gained_parts,
        told: told_parts,
    };
    match staff(alloc, sessions, workers, &mut gained, &mut all) {
        Ok(crews) => {
            let porch = Porch::new(gate, connections, front, out, gained, told);
            match run(rt, alloc, porch, &shared, crews, all) {
                Ok((settled, sessions)) => end_world(shared, settled, sessions),
                Err(gate) => out_of_memory(gate),
            }
        }
        Err(OutOfMemory) => out_of_memory(gate),
    }
}

// The gate, where memory ran out.
fn out_of_memory<G: Gate>(gate: G) -> Serving<G>
    ensures { result.result ≡ Err ServeStop.Memory }
{
    Serving {
        gate,
        result: Err(ServeStop::Memory),
    }
}

// All workers work to the end. Err: memory ran out.
fn run<
    M: Mark + Send + Sync,
    W: Watch + Send + Sync,
    T: Ledger + Send + Sync,
    E: Ledger + Send + Sync,
    G: Gate,
    R: Threads + Wait + Copy + Send + Sync,
>(
    rt: &R,
    alloc: Global,
    porch: Porch<M, W, T, E, G>,
    shared: &Shared<M, R>,
    crews: Vec<Crew<M, W, T, E>>,
    all: Shares<W, T, E>,
) -> Result<(Settled<G>, Vec<Session<M>>), G>
    requires some { (0 < length crews.items) × (all_told crews.items ≡ 0) }
    requires each { (length crews.items ≡ W.parts) × (length crews.items ≡ T.parts) × (length crews.items ≡ E.parts) }
    requires parts { (all.out.parts ≡ 0) × (all.gained.parts ≡ 0) × (all.told.parts ≡ 0) }
    requires amounts { (all.out.amount ≡ 0) × (all.gained.amount ≡ 0) × (all.told.amount ≡ 0) }
    ensures served { IfOk result (λ r. IsGateServed M.start W.entry W.held W.limit (G.told r.0.gate) r.0.state (history_term r.0.front.list)
        r.0.connections (owned r.1.items)) }
    ensures board { IfOk result (λ r. r.0.front.board ≡ M.board) }
    ensures seats { IfOk result (λ r. KeepSeats (all_sessions crews.items) r.1.items) }
{
    // A worker may go to another thread, since its parts may, and what all workers share may be looked at by each.
    worlds_cross();
    entries_cross();
    crosses::<BoardReader>();
    crosses::<Session<M>>();
    crosses::<Front>();
    crosses::<BoardWriter<R>>();
    crosses::<Porch<M, W, T, E, G>>();
    let porch = Mutex::new(porch);
    let lent = &porch;
    let back = thread::map_vec(
        rt,
        crews,
        &|crew: Crew<M, W, T, E>| -> Crew<M, W, T, E>
            ensures { HasWorked crew result }
        { work(rt, alloc, lent, shared, crew) },
    );
    let porch = porch.into_inner();
    let Ok(back) = back else {
        return Err(porch.give_up());
    };
    let mut all = all;
    let Ok(sessions) = gather(alloc, back, &mut all) else {
        return Err(porch.give_up());
    };
    Ok((porch.settle(&mut all), sessions))
}

// Closes the world, once all sessions are back.
fn end_world<M: Mark, G: Gate, R: Wait + Copy>(
    shared: Shared<M, R>,
    settled: Settled<G>,
    sessions: Vec<Session<M>>,
) -> Serving<G>
    requires board { settled.front.board ≡ M.board }
    requires seats { HasAllSeats (desks sessions.items) M.seats }
    ensures { (held limit : ℕ) (entry : GateTold) → IsGateServed M.start entry held limit (G.told settled.gate) settled.state
        (history_term settled.front.list) settled.connections (owned sessions.items)
        → IsResult M.start M.seats held limit entry (G.told result.gate) result.result }
{
    let Settled {
        gate,
        state,
        connections,
        front,
    } = settled;
    match close_holding(shared, sessions, &front) {
        Ok(closed) => Serving {
            gate,
            result: result_of(
                state,
                Served {
                    closed,
                    connections,
                },
            ),
        },
        Err(_) => unreachable!(),
    }
}

// A fault where the gate has failed.
fn result_of(state: GateState, served: Served) -> Result<Served, ServeStop>
    ensures { IsResultOf state served result }
{
    match state {
        GateState::Open | GateState::Closed => Ok(served),
        GateState::Failed => Err(ServeStop::GateFault(served)),
    }
}
