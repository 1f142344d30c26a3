ghost use Rattle.std.specs.Prelude.{◌≡◌, ◌<◌, ◌-◌, [], ◌∷◌, ◌++◌, length, take, IfOk, OnOk, OnErr};
ghost use Rattle.task_model.specs.Showing.Page.{path_text};

use crate::writing::{push, push_turn};
use std::alloc::Global;
use std::marker::Model;
use task_model::{OutOfMemory, Turn};

/// The path of the node where a walk through a tree is, as it is printed: a turn more or less is a letter more or less. Contracts see it as its
/// turns.
#[derive(Drop)]
pub struct PrintedTrail {
    text: String,
}

impl Model for PrintedTrail {
    ghost use Rattle.std.specs.Prelude.{◌≡◌, List, string_bytes};
    ghost use Rattle.task_model.specs.Showing.Page.{path_text};
    ghost use Rattle.task_model.specs.declared.input.Turn.{Turn};
    ghost use Rattle.terminal_view.specs.Turns.{turns_of};

    ghost Value = { List Turn };

    ghost view = { λ t. turns_of (string_bytes t.text) };

    ghost invariant = { λ t. string_bytes t.text ≡ path_text (turns_of (string_bytes t.text)) };
}

impl PrintedTrail {
    /// At the root.
    pub fn new(alloc: Global) -> Result<PrintedTrail, OutOfMemory>
        ensures { IfOk result (λ t. t ≡ []) }
    {
        let mut text = String::new(alloc);
        push(&mut text, ".")?;
        Ok(PrintedTrail { text })
    }

    /// Goes on by a turn. A refusal changes nothing.
    pub fn go(&mut self, turn: Turn) -> Result<(), OutOfMemory>
        ensures ok { OnOk result (self.new ≡ self.old ++ turn ∷ []) }
        ensures err { OnErr result (self.new ≡ self.old) }
    {
        push_turn(&mut self.text, turn)
    }

    /// Goes back by the last turn, in no memory.
    pub fn back(&mut self)
        requires { 0 < length self.old }
        ensures { self.new ≡ take (length self.old - 1) self.old }
    {
        let most = self.text.len() - 1;
        self.text.truncate(most);
    }

    /// The path as it is printed.
    pub fn as_str(&self) -> &str
        ensures { result.now ≡ path_text self.now }
    {
        self.text.as_str()
    }
}
