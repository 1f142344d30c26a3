ghost use Rattle.std.specs.Prelude.{◌≤◌, []};
ghost use Rattle.task_model.specs.Terms.Basic.{BasicTerm};
ghost use Rattle.task_model.specs.Checking.TypeParts.{symbols_of};
ghost use Rattle.exact_reading.specs.Reading.{IsViablePrefix, Always};
ghost use Rattle.literal_text.specs.Literals.{IsLiteral, IsLiteralOf};
ghost use Rattle.literal_text.specs.Types.{IsTypeName};

/// There is a literal, a literal of each type of at most 64 symbols, and a name of a type: the longest prefix of any bytes that begins
/// one is there.
pub fn some_literal()
    ensures any { IsViablePrefix IsLiteral Always [] }
    ensures typed { (b : BasicTerm) → symbols_of b ≤ 64 → IsViablePrefix (IsLiteralOf b) Always [] }
    ensures names { IsViablePrefix IsTypeName Always [] }
{}
