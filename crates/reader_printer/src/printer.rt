ghost use Rattle.std.specs.Prelude.{◌≡◌, [], ◌∷◌, ◌++◌, IfOk, OnOk, codes, if◌then◌else◌};
ghost use Rattle.reader_printer.specs.Lines.{with_tokens};

use std::alloc::Global;
use std::marker::Model;
use task_model::{OutOfMemory, TaskText};

/// A text that grows.
#[derive(Drop)]
pub(crate) struct Printer {
    alloc: Global,
    text: String,
}

impl Model for Printer {
    ghost use Rattle.std.specs.Prelude.{List, ℕ, string_bytes};

    ghost Value = { List ℕ };

    ghost view = { λ p. string_bytes p.text };
}

impl Printer {
    pub(crate) fn new(alloc: Global) -> Printer
        ensures { result ≡ [] }
    {
        Printer {
            alloc,
            text: String::new(alloc),
        }
    }

    /// These bytes behind the text.
    pub(crate) fn put(&mut self, piece: &str) -> Result<(), OutOfMemory>
        ensures { OnOk result (self.new ≡ self.old ++ piece.now) }
    {
        match self.text.push_str(piece) {
            Ok(()) => Ok(()),
            Err(_) => Err(OutOfMemory),
        }
    }

    /// A token behind the text, with a space before it.
    pub(crate) fn token(&mut self, token: &str) -> Result<(), OutOfMemory>
        ensures { OnOk result (self.new ≡ self.old ++ codes " " ++ token.now) }
    {
        self.put(" ")?;
        self.put(token)
    }

    /// Two tokens, with a space before each.
    pub(crate) fn tokens(&mut self, first: &str, second: &str) -> Result<(), OutOfMemory>
        ensures { OnOk result (self.new ≡ with_tokens self.old (first.now ∷ second.now ∷ [])) }
    {
        self.token(first)?;
        self.token(second)
    }

    /// A comma, where this isn't the first of several.
    pub(crate) fn comma(&mut self, first: bool) -> Result<(), OutOfMemory>
        ensures { OnOk result (self.new ≡ with_tokens self.old (if first then [] else codes "," ∷ [])) }
    {
        if first { Ok(()) } else { self.token(",") }
    }

    pub(crate) fn alloc(&self) -> Global {
        self.alloc
    }

    pub(crate) fn into_text(self) -> Result<TaskText, OutOfMemory>
        ensures { IfOk result (λ text. text ≡ self) }
    {
        TaskText::of_string(self.text)
    }
}
