ghost use Rattle.std.specs.Prelude.{◌≡◌, IfOk, suc};
ghost use Rattle.host_types.specs.declared.fault.CheckStop.TheVariants.{Memory};

use std::alloc::AllocError;
use task_model::{OutOfMemory, TypeKind};

/// Why a program isn't accepted.
#[derive(Drop)]
pub enum CheckStop {
    /// The first demand that isn't met: its node, by its number in pre-order, and what is wrong there. `NoMain` stands behind the last
    /// node.
    Fault { node: u64, kind: TypeKind },
    /// Memory ran out.
    Memory,
}

impl From<OutOfMemory> for CheckStop {
    ghost from_gives = { λ _ e. e ≡ Memory };

    fn from(_e: OutOfMemory) -> CheckStop {
        CheckStop::Memory
    }
}

impl From<AllocError> for CheckStop {
    ghost from_gives = { λ _ e. e ≡ Memory };

    fn from(_e: AllocError) -> CheckStop {
        CheckStop::Memory
    }
}

/// The next node's number. A number that no 64 bits hold is want of memory.
pub(crate) fn next(node: u64) -> Result<u64, OutOfMemory>
    ensures { IfOk result (λ n. n ≡ suc node) }
{
    match node.checked_add(1) {
        Some(n) => Ok(n),
        None => Err(OutOfMemory),
    }
}
