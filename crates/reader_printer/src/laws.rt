ghost use Rattle.std.specs.Prelude.{ℕ, List};
ghost use Rattle.task_model.specs.Terms.Text.{Text};
ghost use Rattle.task_model.specs.Terms.Program.{ProgramTerm};
ghost use Rattle.task_model.specs.Syntax.Grammar.{Parse};
ghost use Rattle.task_model.specs.Syntax.ProgramText.{HasReading};
ghost use Rattle.reader_printer.specs.PrintedPlaces.{form_at, task_form, NeedsParentheses, TaskNeedsParentheses};
ghost use Rattle.task_model.specs.Syntax.Written.{IsWritten};

/// What was read was written: the printed text of a program that some source has reads to that program again, with at most 200 levels.
pub fn read_is_written()
    ensures { (source : Text) (p : ProgramTerm) (places : List ℕ) → HasReading source p places → IsWritten p }
{}

/// No parentheses are too many: what is printed in them stands in them in each text in which it stands at that place.
pub fn parentheses_are_needed()
    ensures expressions { (p : ℕ) (d : Parse (form_at p)) → NeedsParentheses p d }
    ensures tasks { (p : ℕ) (d : Parse (task_form p)) (next : ℕ) → TaskNeedsParentheses p d next }
{}
