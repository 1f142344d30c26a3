ghost use Rattle.std.specs.Prelude.{◌≡◌, []};

use crate::parts::Parts;
use std::alloc::Global;
use std::collections::VecDeque;
use task_model::Basic;

/// A type that was read, and its levels.
#[derive(Drop)]
pub struct Measured {
    pub basic: Basic,
    pub levels: usize,
}

impl Measured {
    /// The type, and what is said of it where it is part of a node.
    pub fn into_parts(self, alloc: Global) -> (Basic, Parts)
        ensures basic { result.0 ≡ self.basic }
        ensures levels { result.1.levels ≡ self.levels }
        ensures places { result.1.places.items ≡ [] }
        ensures bodies { result.1.bodies.items ≡ [] }
    {
        let parts = Parts {
            levels: self.levels,
            places: VecDeque::new(alloc),
            bodies: VecDeque::new(alloc),
        };
        (self.basic, parts)
    }
}
