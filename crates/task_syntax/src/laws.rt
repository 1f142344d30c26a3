ghost use Rattle.std.specs.Prelude.{◌≡◌, ◌⊎◌, ℕ, List, IsUtf8};
ghost use Rattle.task_model.specs.Terms.Text.{Text};
ghost use Rattle.task_model.specs.Terms.Token.{TokenTerm, HasTokens};
ghost use Rattle.task_syntax.specs.declared.stop.LexKind.{LexKind};
ghost use Rattle.task_syntax.specs.Fault.{HasFault};

/// A source in UTF-8 has exactly one of these: its one list of tokens, or its one first fault.
pub fn one_reading()
    ensures some { (source : Text) → IsUtf8 source → ((ts : List TokenTerm) × HasTokens source ts)
        ⊎ ((k : LexKind) × (p : ℕ) × HasFault source k p) }
    ensures tokens { (source : Text) (ts us : List TokenTerm) → HasTokens source ts → HasTokens source us → ts ≡ us }
    ensures fault { (source : Text) (k l : LexKind) (p q : ℕ) → HasFault source k p → HasFault source l q → (k ≡ l) × (p ≡ q) }
    ensures apart { (source : Text) (ts : List TokenTerm) (k : LexKind) (p : ℕ) → HasTokens source ts → HasFault source k p → ⊥ }
{}
