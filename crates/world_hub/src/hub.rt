ghost use Rattle.std.specs.Prelude.{◌≡◌, ℕ, IfErr, IfOk, IfSome, None, length, map};
ghost use Rattle.std.specs.List.{All};
ghost use Rattle.std.specs.Option.{option_map};
ghost use Rattle.input_lines.specs.ScriptLines.{line_term};
ghost use Rattle.task_model.specs.Terms.Item.{history_term};
ghost use Rattle.task_model.specs.Running.Checked.{checked_term};
ghost use Rattle.task_model.specs.Running.State.{IsBudget, IsLegal};
ghost use Rattle.world_core.specs.World.{world_term};
ghost use Rattle.hub_lines.specs.HubLines.{IsWorldCount, NamesWorld, at_world};
ghost use Rattle.hub_lines.specs.OwnLines.{addressed};
ghost use Rattle.world_hub.specs.Hubs.{AreHubTexts, world_numbered};
ghost use Rattle.world_hub.specs.HubOpenings.{AreOpenedWorlds, IsFirstOver};

use crate::opening::open_all;
use crate::run::{Parted, answer_all, number, part};
use crate::stop::HubStop;
use hub_lines::{HubLine, in_order};
use std::alloc::Global;
use std::marker::Model;
use std::thread::Threads;
use task_model::{Checked, OutOfMemory, Row};
use world_core::World;

/// One to 16 worlds, which are numbered from 1 on. Contracts see the worlds, in which nothing is prepared.
#[derive(Drop)]
pub struct Hub {
    worlds: Vec<World>,
}

/// The worlds after their lines, and the texts that answer these.
#[derive(Drop)]
pub struct HubDone {
    pub hub: Hub,
    pub texts: Vec<Row<u8>>,
}

impl Model for Hub {
    ghost use Rattle.std.specs.Prelude.{List};
    ghost use Rattle.std.specs.Coded.{codes};
    ghost use Rattle.task_model.specs.contracts.basic.Basic as basics;
    ghost use Rattle.task_model.specs.contracts.program.Program as programs;
    ghost use Rattle.task_model.specs.contracts.item.Item as items;
    ghost use Rattle.task_model.specs.contracts.tree.Tree as trees;
    ghost use Rattle.task_model.specs.contracts.value.Value as values;
    ghost use Rattle.world_core.specs.World.{SeenWorld};
    ghost use Rattle.world_hub.specs.Hubs.{AreWorlds};

    ghost Value = { List SeenWorld };

    ghost coded = { Prim.hlevel (
      codes,
      basics.the_row.coded,
      programs.the_row.coded,
      items.the_row.coded,
      trees.the_row.coded,
      values.the_row.coded,
    ) };

    ghost view = { λ h. h.worlds.items };

    ghost invariant = { λ h. AreWorlds h.worlds.items };
}

impl Hub {
    /// Opens 1 to 16 programs as worlds, each within the budget of 1 to 1,000,000 units.
    pub fn open(alloc: Global, programs: Vec<Checked>, budget: u32) -> Result<Hub, HubStop>
        requires count { IsWorldCount (length programs.items) }
        requires budget { IsBudget budget }
        ensures count { IfOk result (λ h. length h ≡ length programs.items) }
        ensures opened { IfOk result (λ h. AreOpenedWorlds budget (map checked_term programs.items) (map world_term h)) }
        ensures over { IfErr result (λ stop. (number : ℕ) → stop ≡ HubStop.Over number
            → IsFirstOver budget (map checked_term programs.items) number) }
    {
        let worlds = open_all(alloc, programs, budget)?;
        Ok(Hub { worlds })
    }

    /// The worlds run at once, each on its own lines, and what they answer stands in the order of the lines. A line names a world of the hub,
    /// and a seat of 1 to 64 if any. After want of memory the hub is spent.
    pub fn run<R: Threads + Sync>(
        self,
        rt: &R,
        alloc: Global,
        lines: &[HubLine],
    ) -> Result<HubDone, OutOfMemory>
        requires { All (λ l. NamesWorld (length self) (at_world l.world (line_term l.line))) lines.now }
        ensures texts { IfOk result (λ d. AreHubTexts (map world_term self) (map addressed lines.now) (map (λ t. t.list) d.texts.items)
            (map world_term d.hub)) }
        ensures legal { IfOk result (λ d. All (λ w. IsLegal (history_term w.history)) d.hub) }
    {
        let jobs = number(alloc, self.worlds)?;
        let shares = answer_all(rt, alloc, jobs, lines)?;
        let Parted { worlds, texts } = part(alloc, shares)?;
        let texts = in_order(alloc, texts, lines)?;
        Ok(HubDone {
            hub: Hub { worlds },
            texts,
        })
    }

    /// The world of a number, from 1 on.
    pub fn world(&self, number: u8) -> Option<&World>
        ensures world { option_map (λ w. w.now) result ≡ world_numbered self.now number }
        ensures rest { IfSome result (λ w. w.now.next ≡ None) }
    {
        if number == 0 {
            return None;
        }
        self.worlds.get(usize::from(number) - 1)
    }
}
