ghost use Rattle.std.specs.Prelude.{◌≡◌, ◌⊎◌, ℕ};
ghost use Rattle.task_model.specs.Terms.Text.{Text};
ghost use Rattle.input_lines.specs.ScriptLines.{LineTerm};
ghost use Rattle.json_face.specs.JsonLines.{IsJsonLine};

/// Bytes have one meaning as a line of JSON, or they are none.
pub fn one_json_line()
    ensures some { (longest : ℕ) (bytes : Text)
        → ((l : LineTerm) × IsJsonLine longest bytes l) ⊎ ((l : LineTerm) → IsJsonLine longest bytes l → ⊥) }
    ensures meanings { (longest : ℕ) (bytes : Text) (l m : LineTerm) → IsJsonLine longest bytes l → IsJsonLine longest bytes m → l ≡ m }
{}
