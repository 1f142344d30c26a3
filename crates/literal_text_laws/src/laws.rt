ghost use Rattle.std.specs.Prelude.{◌≡◌, ◌⊎◌, ℕ};
ghost use Rattle.task_model.specs.Terms.Text.{Text};
ghost use Rattle.task_model.specs.Terms.Basic.{BasicTerm};
ghost use Rattle.task_model.specs.Terms.Value.{ValueTerm};
ghost use Rattle.exact_reading.specs.declared.stop.FaultKind.TheVariants.{Unexpected};
ghost use Rattle.exact_reading.specs.Reading.{Always};
ghost use Rattle.exact_reading.specs.Whole.{IsFirstFault};
ghost use Rattle.literal_text.specs.Literals.{IsLiteral, IsLiteralOf};
ghost use Rattle.literal_text.specs.Types.{IsTypeName};

/// Each byte string is a literal of exactly one value, or has exactly one first fault.
pub fn one_literal()
    ensures some { (t : Text) → ((v : ValueTerm) × IsLiteral t v) ⊎ ((place : ℕ) × IsFirstFault IsLiteral Always t Unexpected place) }
    ensures values { (t : Text) (v w : ValueTerm) → IsLiteral t v → IsLiteral t w → v ≡ w }
    ensures places { (t : Text) (p q : ℕ) → IsFirstFault IsLiteral Always t Unexpected p → IsFirstFault IsLiteral Always t Unexpected q →
        p ≡ q }
    ensures apart { (t : Text) (v : ValueTerm) (p : ℕ) → IsLiteral t v → IsFirstFault IsLiteral Always t Unexpected p → ⊥ }
{}

/// Of each type, each byte string is a literal of exactly one value, or has exactly one first fault: at 0, where the type has no literal
/// within the limits.
pub fn one_literal_of_a_type()
    ensures some { (b : BasicTerm) (t : Text) → ((v : ValueTerm) × IsLiteralOf b t v)
        ⊎ ((place : ℕ) × IsFirstFault (IsLiteralOf b) Always t Unexpected place) }
    ensures values { (b : BasicTerm) (t : Text) (v w : ValueTerm) → IsLiteralOf b t v → IsLiteralOf b t w → v ≡ w }
    ensures places { (b : BasicTerm) (t : Text) (p q : ℕ) → IsFirstFault (IsLiteralOf b) Always t Unexpected p →
        IsFirstFault (IsLiteralOf b) Always t Unexpected q → p ≡ q }
    ensures apart { (b : BasicTerm) (t : Text) (v : ValueTerm) (p : ℕ) → IsLiteralOf b t v →
        IsFirstFault (IsLiteralOf b) Always t Unexpected p → ⊥ }
{}

/// Each byte string is the name of exactly one type, or has exactly one first fault.
pub fn one_type_name()
    ensures some { (t : Text) → ((b : BasicTerm) × IsTypeName t b) ⊎ ((place : ℕ) × IsFirstFault IsTypeName Always t Unexpected place) }
    ensures types { (t : Text) (b c : BasicTerm) → IsTypeName t b → IsTypeName t c → b ≡ c }
    ensures places { (t : Text) (p q : ℕ) → IsFirstFault IsTypeName Always t Unexpected p →
        IsFirstFault IsTypeName Always t Unexpected q → p ≡ q }
    ensures apart { (t : Text) (b : BasicTerm) (p : ℕ) → IsTypeName t b → IsFirstFault IsTypeName Always t Unexpected p → ⊥ }
{}
