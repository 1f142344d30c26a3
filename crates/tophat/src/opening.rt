ghost use Rattle.std.specs.Prelude.{◌≡◌, IfOk, None};
ghost use Rattle.task_model.specs.Running.State.{IsBudget};
ghost use Rattle.task_model.specs.Running.Checked.{checked_term};
ghost use Rattle.task_model.specs.Checking.Accepted.{IsAccepted};
ghost use Rattle.tophat.specs.Verdict.{accepted};
ghost use Rattle.tophat.specs.Worked.{Opens, OpensBytes, HasVerdictAfter};

use crate::no_world::NoWorld;
use crate::verdict::verdict_on;
use std::alloc::Global;
use task_model::Checked;
use world_core::{OpenStop, World};

/// Opens the program of these bytes within a budget of 1 to 1,000,000 units, or says why they have no world: the first fault of their text
/// or of the program's types, an opening over the budget, or want of memory.
pub fn open_bytes(alloc: Global, bytes: &[u8], budget: u32) -> Result<World, NoWorld>
    requires { IsBudget budget }
    ensures opened { OpensBytes budget bytes.now result }
    ensures verdict_is { HasVerdictAfter result bytes.now }
    ensures rest { IfOk result (λ w. w.next ≡ None) }
{
    match verdict_on(alloc, bytes) {
        Ok(checked) => open_checked(alloc, checked, budget),
        Err(why) => Err(why),
    }
}

// Opens an accepted program.
fn open_checked(alloc: Global, checked: Checked, budget: u32) -> Result<World, NoWorld>
    requires budget { IsBudget budget }
    ensures opens { Opens budget (accepted (checked_term checked)) result }
    ensures rest { IfOk result (λ w. w.next ≡ None) }
{
    match World::open(alloc, checked, budget) {
        Ok(world) => Ok(world),
        Err(OpenStop::Over) => Err(NoWorld::OverBudget),
        Err(OpenStop::Memory) => Err(NoWorld::Memory),
    }
}
