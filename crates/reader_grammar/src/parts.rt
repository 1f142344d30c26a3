ghost use Rattle.std.specs.Prelude.{◌≡◌, ◌+◌, ◌<◌, ◌^◌, ◌∷◌, IfOk, IfErr};

use crate::joining::joined;
use crate::parsed::Parsed;
use exact_reading::ParseStop;
use std::alloc::Global;
use std::collections::VecDeque;
use task_model::Body;

/// What is said of the parts of a node: the most levels of one, the places of their nodes in pre-order, and their bodies in the order in
/// which their texts begin.
#[derive(Drop)]
pub struct Parts {
    pub levels: usize,
    pub places: VecDeque<u64>,
    pub bodies: VecDeque<Body>,
}

impl Parts {
    ghost use Rattle.reader_grammar.specs.Parts.{parts_term, no_parts, both_parts};

    /// No parts.
    pub fn none(alloc: Global) -> Parts
        ensures { parts_term result ≡ no_parts }
    {
        Parts {
            levels: 0,
            places: VecDeque::new(alloc),
            bodies: VecDeque::new(alloc),
        }
    }

    /// These parts, and others behind them.
    pub fn and(self, others: Parts) -> Result<Parts, ParseStop>
        ensures parts { IfOk result (λ r. parts_term r ≡ both_parts (parts_term self) (parts_term others)) }
        ensures memory { IfErr result (λ e. e ≡ ParseStop.Memory) }
    {
        let levels = self.levels.max(others.levels);
        let places = joined(self.places, others.places)?;
        let bodies = joined(self.bodies, others.bodies)?;
        Ok(Parts {
            levels,
            places,
            bodies,
        })
    }

    /// A node of these parts, whose first token stands here.
    pub fn node<T: Drop>(self, alloc: Global, term: T, place: u64) -> Result<Parsed<T>, ParseStop>
        requires { self.levels + 1 < 2 ^ 64 }
        ensures term { IfOk result (λ r. r.term.value ≡ term) }
        ensures levels { IfOk result (λ r. r.levels ≡ 1 + self.levels) }
        ensures start { IfOk result (λ r. r.start ≡ place) }
        ensures places { IfOk result (λ r. r.places.items ≡ place ∷ self.places.items) }
        ensures bodies { IfOk result (λ r. r.bodies.items ≡ self.bodies.items) }
        ensures memory { IfErr result (λ e. e ≡ ParseStop.Memory) }
    {
        let mut places = self.places;
        places.push_front(place)?;
        Ok(Parsed {
            term: Box::new(alloc, term)?,
            levels: 1 + self.levels,
            start: place,
            places,
            bodies: self.bodies,
        })
    }
}
