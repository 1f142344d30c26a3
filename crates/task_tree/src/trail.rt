ghost use Rattle.std.specs.Prelude.{◌≡◌, ◌↔◌, ◌<◌, ◌-◌, [], ◌∷◌, ◌++◌, length, take, IsTrue, IfOk, OnOk, OnErr};

use std::alloc::Global;
use std::marker::Model;
use task_model::{OutOfMemory, Path, Turn, Turns};

/// The path of the node where a walk through a tree is. Contracts see it as its turns.
#[derive(Drop)]
pub struct Trail {
    alloc: Global,
    turns: Turns,
}

impl Model for Trail {
    ghost use Rattle.std.specs.Prelude.{List};
    ghost use Rattle.task_model.specs.declared.input.Turn.{Turn};

    ghost Value = { List Turn };

    ghost view = { λ t. t.turns };
}

impl Trail {
    /// At the root, in no memory.
    pub fn new(alloc: Global) -> Trail
        ensures { result ≡ [] }
    {
        Trail {
            alloc,
            turns: Turns::new(alloc),
        }
    }

    /// Goes on by a turn. A refusal changes nothing.
    pub fn go(&mut self, turn: Turn) -> Result<(), OutOfMemory>
        ensures ok { OnOk result (self.new ≡ self.old ++ turn ∷ []) }
        ensures err { OnErr result (self.new ≡ self.old) }
    {
        self.turns.push(turn)
    }

    /// Goes back by the last turn, in no memory.
    pub fn back(&mut self)
        requires { 0 < length self.old }
        ensures { self.new ≡ take (length self.old - 1) self.old }
    {
        let most = self.turns.as_slice().len() - 1;
        self.turns.truncate(most);
    }

    /// The path, in memory of its own where it is long.
    pub fn path(&self) -> Result<Path, OutOfMemory>
        ensures { IfOk result (λ p. p.turns ≡ self.now) }
    {
        let turns = Turns::of(self.alloc, self.turns.as_slice())?;
        Ok(Path { turns })
    }

    /// Whether a path is this one. It takes no memory.
    pub fn is_at(&self, path: &Path) -> bool
        ensures { IsTrue result ↔ (path.now.turns ≡ self.now) }
    {
        path.turns.as_slice() == self.turns.as_slice()
    }
}
