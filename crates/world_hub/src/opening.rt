ghost use Rattle.std.specs.Prelude.{◌≡◌, ℕ, IfErr, IfOk, None, length, map};
ghost use Rattle.std.specs.List.{All};
ghost use Rattle.task_model.specs.Running.Checked.{checked_term};
ghost use Rattle.task_model.specs.Running.State.{IsBudget};
ghost use Rattle.world_core.specs.World.{world_term};
ghost use Rattle.hub_lines.specs.HubLines.{IsWorldCount};
ghost use Rattle.world_hub.specs.Hubs.{AreWorlds};
ghost use Rattle.world_hub.specs.HubOpenings.{AreOpenedWorlds, IsFirstOver};

use crate::stop::HubStop;
use std::alloc::Global;
use std::collections::VecDeque;
use task_model::Checked;
use world_core::{OpenStop, World};

/// Opens 1 to 16 programs, in order, each within the budget.
pub(crate) fn open_all(
    alloc: Global,
    programs: Vec<Checked>,
    budget: u32,
) -> Result<Vec<World>, HubStop>
    requires count { IsWorldCount (length programs.items) }
    requires budget { IsBudget budget }
    ensures worlds { IfOk result (λ w. AreWorlds w.items) }
    ensures count { IfOk result (λ w. length w.items ≡ length programs.items) }
    ensures opened { IfOk result (λ w. AreOpenedWorlds budget (map checked_term programs.items) (map world_term w.items)) }
    ensures over { IfErr result (λ stop. (number : ℕ) → stop ≡ HubStop.Over number
        → IsFirstOver budget (map checked_term programs.items) number) }
{
    let mut worlds = Vec::new(alloc);
    if worlds.reserve(programs.len()).is_err() {
        return Err(HubStop::Memory);
    }
    let mut rest = VecDeque::from(programs);
    while let Some(program) = rest.pop_front() {
        match World::open(alloc, program, budget) {
            Ok(world) => worlds.push_reserved(world),
            Err(OpenStop::Over) => {
                return Err(HubStop::Over {
                    world: worlds.len() as u8 + 1,
                });
            }
            Err(OpenStop::Memory) => return Err(HubStop::Memory),
        }
    }
    Ok(worlds)
}
