ghost use Rattle.std.specs.Prelude.{◌≡◌, ◌<◌};
ghost use Rattle.task_model.specs.Terms.Item.{history_term};
ghost use Rattle.task_server.specs.Results.{IsResult};

use crate::serving::{ServeStop, Serving, serve};
use outer_gates::Gate;
use std::alloc::Global;
use std::marker::Brand;
use std::sync::Wait;
use std::thread::Threads;
use task_model::OutOfMemory;
use world_lock::{Mark, Opening, open};

/// Hands out the sessions of an opened world, and serves the links of a gate with them, as `serve` does. The history begins with the opening,
/// so the numbers of the links that are finished add up to its version.
pub fn serve_opening<G: Gate, R: Threads + Wait + Copy + Send + Sync>(
    rt: &R,
    alloc: Global,
    opening: Opening<R>,
    gate: G,
    workers: u8,
    connections: u64,
) -> Serving<G>
    requires workers { 0 < workers }
    requires seats { 0 < opening.seats }
    ensures { IsResult (history_term opening.history) opening.seats 0 connections (G.told gate) (G.told result.gate) result.result }
{
    serve_marked::<Brand, G, R>(rt, alloc, opening, gate, workers, connections)
}

// The same, where a type names the world.
fn serve_marked<M: Mark + Send + Sync, G: Gate, R: Threads + Wait + Copy + Send + Sync>(
    rt: &R,
    alloc: Global,
    opening: Opening<R>,
    gate: G,
    workers: u8,
    connections: u64,
) -> Serving<G>
    requires board { opening.board ≡ M.board }
    requires start { history_term opening.history ≡ M.start }
    requires ledger { opening.name ≡ M.name }
    requires seats { (opening.seats ≡ M.seats) × (opening.seats ≡ M.parts) }
    requires workers { 0 < workers }
    requires some { 0 < opening.seats }
    ensures { IsResult M.start M.seats 0 connections (G.told gate) (G.told result.gate) result.result }
{
    match open::<M, R>(alloc, opening) {
        Ok((shared, sessions)) => { serve(rt, alloc, shared, sessions, gate, workers, connections) }
        Err(OutOfMemory) => Serving {
            gate,
            result: Err(ServeStop::Memory),
        },
    }
}
