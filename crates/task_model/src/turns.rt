ghost use Rattle.std.specs.Prelude.{◌≡◌, [], ◌∷◌, ◌++◌, take, IfOk, OnOk, OnErr};

use crate::OutOfMemory;
use crate::input::Turn;
use smallvec::SmallVec;
use std::alloc::Global;
use std::marker::Model;

/// A list of turns. Up to 16 of them stand in the value itself and take no other memory. Contracts see it as its list.
#[derive(Drop)]
pub struct Turns {
    items: SmallVec<Turn, 16>,
}

impl Model for Turns {
    ghost use Rattle.std.specs.Prelude.{List};
    ghost use Rattle.task_model.specs.declared.input.Turn.{Turn};

    ghost Value = { List Turn };

    ghost view = { λ t. t.items.items };
}

impl Turns {
    /// A path of no turns. It takes no memory.
    pub fn new(alloc: Global) -> Turns
        ensures { result ≡ [] }
    {
        Turns {
            items: SmallVec::new(alloc),
        }
    }

    /// Equal turns, in order.
    pub fn of(alloc: Global, turns: &[Turn]) -> Result<Turns, OutOfMemory>
        ensures { IfOk result (λ copies. copies ≡ turns.now) }
    {
        let items = SmallVec::from_slice(alloc, turns)?;
        Ok(Turns { items })
    }

    /// The turns, from the root.
    pub fn as_slice(&self) -> &[Turn]
        ensures { result.now ≡ self.now }
    {
        self.items.as_slice()
    }

    /// Adds a turn at the end. A refusal changes nothing.
    pub fn push(&mut self, turn: Turn) -> Result<(), OutOfMemory>
        ensures ok { OnOk result (self.new ≡ self.old ++ turn ∷ []) }
        ensures err { OnErr result (self.new ≡ self.old) }
    {
        self.items.push(turn)?;
        Ok(())
    }

    /// Keeps so many turns at most, the first ones.
    pub fn truncate(&mut self, most: usize)
        ensures { self.new ≡ take most self.old }
    {
        self.items.truncate(most);
    }
}
