use std::alloc::{AllocError, AllocFailed};
use task_model::OutOfMemory;

/// Why JSON isn't taken: it isn't of the wanted form, or memory ran out.
#[derive(Clone, Copy, Debug, PartialEq, Eq)]
pub enum JsonStop {
    Bad,
    Memory,
}

impl From<OutOfMemory> for JsonStop {
    ghost use Rattle.std.specs.Prelude.{◌≡◌};
    ghost use Rattle.json_face.specs.declared.stop.JsonStop.TheVariants.{Memory};

    ghost from_gives = { λ _ e. e ≡ Memory };

    fn from(_: OutOfMemory) -> JsonStop {
        JsonStop::Memory
    }
}

impl From<AllocError> for JsonStop {
    ghost use Rattle.std.specs.Prelude.{◌≡◌};
    ghost use Rattle.json_face.specs.declared.stop.JsonStop.TheVariants.{Memory};

    ghost from_gives = { λ _ e. e ≡ Memory };

    fn from(_: AllocError) -> JsonStop {
        JsonStop::Memory
    }
}

impl<T: Drop> From<AllocFailed<T>> for JsonStop {
    ghost use Rattle.std.specs.Prelude.{◌≡◌};
    ghost use Rattle.json_face.specs.declared.stop.JsonStop.TheVariants.{Memory};

    ghost from_gives = { λ _ e. e ≡ Memory };

    fn from(_: AllocFailed<T>) -> JsonStop {
        JsonStop::Memory
    }
}
