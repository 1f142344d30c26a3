ghost use Rattle.std.specs.Prelude.{◌≡◌, ◌≤◌, ◌<◌, ◌+◌, ◌↔◌, ◌⊎◌, ℕ, length, take};
ghost use Rattle.task_model.specs.Terms.Text.{Text};
ghost use Rattle.task_model.specs.Terms.Input.{EntryTerm};
ghost use Rattle.task_model.specs.Running.State.{IsEntry};
ghost use Rattle.input_lines.specs.ScriptLines.{LineTerm, IsScriptLine, gives};
ghost use Rattle.input_lines.specs.LinePlaces.{IsBadLine};
ghost use Rattle.input_lines.specs.EntryText.{entry_line, IsWithinActLimits};

/// Bytes have one meaning as a line, or one place at which they are bad.
pub fn one_line()
    ensures some { (longest : ℕ) (t : Text)
        → ((l : LineTerm) × IsScriptLine t l × (length t ≤ longest)) ⊎ ((place : ℕ) × IsBadLine longest t place) }
    ensures meanings { (t : Text) (l m : LineTerm) → IsScriptLine t l → IsScriptLine t m → l ≡ m }
    ensures places { (longest : ℕ) (t : Text) (p q : ℕ) → IsBadLine longest t p → IsBadLine longest t q → p ≡ q }
    ensures apart { (longest : ℕ) (t : Text) (l : LineTerm) (place : ℕ) → IsScriptLine t l → length t ≤ longest
        → IsBadLine longest t place → ⊥ }
    // The first bytes of a line that is too long tell where it is bad, one more than the longest line has.
    ensures fronts { (longest : ℕ) (whole : Text) → longest < length whole → (place : ℕ)
        → (IsBadLine longest (take (longest + 1) whole) place ↔ IsBadLine longest whole place) }
{}

/// The line of an entry of a history, without its LF, asks for the entry, if its value is within the limits of literals.
pub fn printed_entry()
    ensures { (e : EntryTerm) → IsEntry e → IsWithinActLimits e.input.act → IsScriptLine (entry_line e) (gives e) }
{}
