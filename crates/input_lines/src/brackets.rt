ghost use Rattle.std.specs.Prelude.{◌≡◌, ◌<◌, ◌^◌, List, [], ◌∷◌, reverse, OnOk, MatchOption};
ghost use Rattle.input_lines.specs.declared.bracket.Bracket.{Bracket};
ghost use Rattle.input_lines.specs.OpenBrackets.{owed_by, behind_comma, behind_close};

use crate::bracket::Bracket;
use std::alloc::Global;
use std::marker::Model;
use task_model::OutOfMemory;

/// The brackets that are open in a literal, the innermost last, and the fewest bytes with which all are closed.
#[derive(Drop)]
pub(crate) struct Brackets {
    open: Vec<Bracket>,
    owed: usize,
}

impl Model for Brackets {
    ghost Value = { List Bracket };

    ghost view = { λ b. reverse b.open.items };

    ghost invariant = { λ b. b.owed ≡ owed_by (reverse b.open.items) };
}

impl Brackets {
    /// None.
    pub(crate) fn new(alloc: Global) -> Self
        ensures { result ≡ [] }
    {
        Brackets {
            open: Vec::new(alloc),
            owed: 0,
        }
    }

    /// The fewest bytes with which all are closed.
    pub(crate) fn owed(&self) -> usize
        ensures { result ≡ owed_by self.now }
    {
        self.owed
    }

    /// One more.
    pub(crate) fn open(&mut self, bracket: Bracket) -> Result<(), OutOfMemory>
        requires { owed_by self.old < 2 ^ 32 }
        ensures { OnOk result (self.new ≡ bracket ∷ self.old) }
    {
        self.open.push(bracket)?;
        self.owed += bracket.owed();
        Ok(())
    }

    /// A comma behind what stands in the innermost.
    pub(crate) fn comma(&mut self) -> Result<(), OutOfMemory>
        requires { owed_by self.old < 2 ^ 32 }
        ensures { OnOk result (self.new ≡ behind_comma self.old) }
    {
        match self.innermost() {
            Some(Bracket::First) => {
                self.leave();
                self.open(Bracket::Last)
            }
            _ => Ok(()),
        }
    }

    /// A closing bracket behind what stands in the innermost.
    pub(crate) fn close(&mut self)
        ensures { self.new ≡ behind_close self.old }
    {
        if let Some(Bracket::Last) = self.innermost() {
            self.leave();
        }
    }

    fn innermost(&self) -> Option<Bracket>
        ensures { MatchOption result (self.now ≡ []) (λ b. (bs : List Bracket) × (self.now ≡ b ∷ bs)) }
    {
        self.open.last().copied()
    }

    /// All but the innermost.
    fn leave(&mut self)
        ensures { (b : Bracket) (bs : List Bracket) → self.old ≡ b ∷ bs → self.new ≡ bs }
    {
        if let Some(bracket) = self.open.pop() {
            self.owed -= bracket.owed();
        }
    }
}
