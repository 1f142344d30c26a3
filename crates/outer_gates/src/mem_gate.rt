ghost use Rattle.std.specs.Prelude.{◌≡◌, ◌<◌, ◌≤◌, ◌↔◌, ◌++◌, ◌∷◌, All, IfOk, IsTrue, [], Some, map, length, vec_capacity};
ghost use Rattle.outer_io.specs.Causes.{Rose};
ghost use Rattle.outer_io.specs.FailingCalls.{fails_next, IsCounted};
ghost use Rattle.outer_io.specs.Links.{IsFresh};
ghost use Rattle.outer_io.specs.MemLinks.{told_in_memory};
ghost use Rattle.outer_gates.specs.Gates.{Accepts, Finishes, faults_after_accept};
ghost use Rattle.outer_gates.specs.MemGates.{gate_in_memory, gate_plan};

use crate::accept::Accept;
use crate::fresh_links::FreshLinks;
use crate::gate::Gate;
use outer_io::MemLink;
use std::alloc::Global;
use std::collections::VecDeque;
use task_model::{OutOfMemory, Row};

/// A gate in memory: it hands out the links that it was given, in order, keeps the finished ones, and fails at chosen
/// calls of `accept`. A finished link for which there is no room is dropped, and from then on the gate tells none.
#[derive(Drop)]
pub struct MemGate {
    links: FreshLinks,
    finished: Vec<MemLink>,
    is_told: bool,
    failing: Row<u64>,
    calls: u64,
    faults: u64,
}

impl MemGate {
    /// A gate with these links, and room for as many finished ones. `failing` lists the calls of `accept` that fail, counted from 1.
    pub fn new(
        alloc: Global,
        links: VecDeque<MemLink>,
        failing: Row<u64>,
    ) -> Result<MemGate, OutOfMemory>
        requires fresh { All (λ l. IsFresh (told_in_memory l)) links.items }
        ensures left { IfOk result (λ gate. (gate_in_memory gate).left ≡ Some (map told_in_memory links.items)) }
        ensures finished { IfOk result (λ gate. (gate_in_memory gate).finished ≡ Some []) }
        ensures room { IfOk result (λ gate. length links.items ≤ vec_capacity gate.finished) }
        ensures plan { IfOk result (λ gate. gate_plan gate ≡ record { failing = failing; calls = 0; faults = 0 }) }
    {
        let mut finished = Vec::new(alloc);
        finished.reserve(links.len())?;
        Ok(MemGate {
            links: FreshLinks::new(links),
            finished,
            is_told: true,
            failing,
            calls: 0,
            faults: 0,
        })
    }

    /// The finished links that were kept, in order.
    pub fn finished(&self) -> &[MemLink]
        ensures { IsTrue self.now.is_told → (gate_in_memory self.now).finished ≡ Some (map told_in_memory result.now) }
    {
        self.finished.as_slice()
    }

    // Counts the next call, and answers whether it fails.
    fn next_fails(&mut self) -> bool
        ensures fails { result ≡ fails_next (gate_plan self.old) }
        ensures counted { IsCounted (gate_plan self.old) (gate_plan self.new) }
        ensures same { (self.new.links ≡ self.old.links) × (self.new.finished ≡ self.old.finished)
            × (self.new.is_told ≡ self.old.is_told) × (self.new.faults ≡ self.old.faults) }
    {
        self.calls = self.calls.saturating_add(1);
        self.failing.as_slice().contains(&self.calls)
    }
}

impl Gate for MemGate {
    ghost use Rattle.std.specs.Prelude.{refl};

    type Link = MemLink;

    ghost told = { gate_in_memory };

    ghost tells = { told_in_memory };

    fn accept(&mut self) -> Accept<MemLink>
        ensures links { Accepts told_in_memory (gate_in_memory self.old) (gate_in_memory self.new) result }
        ensures finished { (gate_in_memory self.new).finished ≡ (gate_in_memory self.old).finished }
        ensures count { self.old.faults ≤ self.new.faults }
        ensures failed { result ≡ Accept.Failed → Rose self.old.faults self.new.faults }
        ensures exact { self.new.faults ≡ faults_after_accept self.old.faults result }
        ensures listed { (result ≡ Accept.Failed) ↔ IsTrue (fails_next (gate_plan self.old)) }
        ensures counted { IsCounted (gate_plan self.old) (gate_plan self.new) }
        ensures same { (self.new.finished ≡ self.old.finished) × (self.new.is_told ≡ self.old.is_told) }
    {
        if self.next_fails() {
            self.faults = self.faults.saturating_add(1);
            return Accept::Failed;
        }
        match self.links.pop() {
            Some(link) => Accept::Link(link),
            None => Accept::Closed,
        }
    }

    fn finish(&mut self, link: MemLink)
        ensures finished { Finishes (gate_in_memory self.old).finished (gate_in_memory self.new).finished (told_in_memory link) }
        ensures left { (gate_in_memory self.new).left ≡ (gate_in_memory self.old).left }
        ensures count { (gate_in_memory self.new).faults ≡ (gate_in_memory self.old).faults }
        ensures room { length self.old.finished.items < vec_capacity self.old.finished
            → (self.new.finished.items ≡ self.old.finished.items ++ link ∷ []) × (self.new.is_told ≡ self.old.is_told) }
        ensures same { (gate_plan self.new ≡ gate_plan self.old) × (vec_capacity self.new.finished ≡ vec_capacity self.old.finished) }
    {
        if self.finished.len() < self.finished.capacity() {
            self.finished.push_reserved(link);
        } else {
            self.is_told = false;
        }
    }

    ghost tells_links = { λ l. refl };
}
