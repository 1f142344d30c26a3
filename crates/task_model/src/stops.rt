ghost use Rattle.std.specs.Prelude.{◌≡◌};
ghost use Rattle.task_model.specs.declared.stops.ActStop.TheVariants.{Memory};

use crate::memory::OutOfMemory;

/// Why an input wasn't taken.
#[derive(Clone, Copy, Debug, PartialEq, Eq)]
pub enum ActStop {
    /// The tree offers no such input.
    NotOffered,
    /// Neither taking nor refusing the input shows within the budget.
    Over,
    /// Memory ran out.
    Memory,
}

impl From<OutOfMemory> for ActStop {
    ghost from_gives = { λ _ stop. stop ≡ Memory };

    fn from(_: OutOfMemory) -> ActStop {
        ActStop::Memory
    }
}
