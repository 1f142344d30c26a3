//! A world at rest, and its state as text.
ghost use Rattle.std.specs.Prelude.{IsNone};
ghost use Rattle.task_model.specs.Running.State.{IsSeat};

use literal_text::print_value;
use std::alloc::Global;
use std::marker::Model;
use task_model::{ActStop, BUDGET_LIMIT, Entry, OutOfMemory, copy_input};
use testing_programs::{accepted, tree_text};
use world_core::{OpenStop, Reply, Taken, World};

/// A world where nothing is prepared.
#[derive(Drop)]
pub(super) struct WorldBench {
    world: World,
}

impl Model for WorldBench {
    ghost Value = { Unit {0} };

    ghost view = { λ b. tt };

    ghost invariant = { λ b. IsNone b.world.next };
}

impl WorldBench {
    /// Opens the program of a text. A budget that is none is over.
    pub(super) fn open(alloc: Global, source: &str, budget: u32) -> Result<WorldBench, OpenStop> {
        if budget < 1 || budget > BUDGET_LIMIT {
            return Err(OpenStop::Over);
        }
        let world = World::open(alloc, accepted(alloc, source)?, budget)?;
        Ok(WorldBench { world })
    }

    /// Gives an entry to the world.
    pub(super) fn handle(&mut self, alloc: Global, entry: &Entry) -> Result<Reply, OutOfMemory>
        requires { IsSeat entry.now.seat }
    {
        let input = copy_input(alloc, &entry.input)?;
        match self.world.handle(entry.seat, input) {
            Ok(Taken { version }) => Ok(Reply::Taken(version)),
            Err(ActStop::NotOffered) => Ok(Reply::NotOffered),
            Err(ActStop::Over) => Ok(Reply::Over),
            Err(ActStop::Memory) => Err(OutOfMemory),
        }
    }

    // The values of the store.
    fn push_values(&self, alloc: Global, text: &mut String) -> Result<(), OutOfMemory> {
        let mut between = "";
        for place in 0..u64::MAX {
            let Some(v) = self.world.at(place) else {
                return Ok(());
            };
            text.push_str(between)?;
            text.push_str(print_value(alloc, v)?.as_str())?;
            between = " ";
        }
        Ok(())
    }

    /// The tree and the values.
    pub(super) fn state_text(&self, alloc: Global) -> Result<String, OutOfMemory> {
        let mut text = tree_text(alloc, self.world.tree())?;
        text.push_str(" [")?;
        self.push_values(alloc, &mut text)?;
        text.push(']')?;
        Ok(text)
    }
}
