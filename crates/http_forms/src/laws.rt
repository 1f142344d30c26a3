ghost use Rattle.std.specs.Prelude.{◌≡◌, ◌⊎◌, ℕ};
ghost use Rattle.task_model.specs.Terms.Text.{Text};
ghost use Rattle.task_model.specs.Terms.Input.{InputTerm};
ghost use Rattle.http_forms.specs.Forms.{GivesInput, HasBadLiteral, IsMalformed};

/// Each form gives exactly one input, or has exactly one bad literal, or is malformed (docs/FORMATS.md, "Query and form").
pub fn one_form_meaning()
    ensures some { (form : Text)
        → ((i : InputTerm) × GivesInput form i) ⊎ (((place : ℕ) × HasBadLiteral form place) ⊎ IsMalformed form) }
    ensures inputs { (form : Text) (i j : InputTerm) → GivesInput form i → GivesInput form j → i ≡ j }
    ensures places { (form : Text) (p q : ℕ) → HasBadLiteral form p → HasBadLiteral form q → p ≡ q }
    ensures apart { (form : Text) (i : InputTerm) (p : ℕ) → GivesInput form i → HasBadLiteral form p → ⊥ }
{}
