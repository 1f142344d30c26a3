ghost use Rattle.std.specs.Prelude.{ℕ, List, ◌∷◌};
ghost use Rattle.task_model.specs.Terms.Program.{ProgramTerm};
ghost use Rattle.task_model.specs.Terms.Item.{ItemTerm, opened};
ghost use Rattle.task_model.specs.Running.State.{IsLegal};
ghost use Rattle.history_lines.specs.AskAgain.{AskAgain};

/// The printed lines of a legal history ask for its entries.
pub fn entries_ask_again()
    ensures { (p : ProgramTerm) (budget : ℕ) (items : List ItemTerm) → IsLegal (opened p budget ∷ items) → AskAgain items }
{}
