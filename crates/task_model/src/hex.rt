ghost use Rattle.std.specs.Prelude.{◌≡◌, ◌<◌, MatchOption};
ghost use Rattle.task_model.specs.Terms.Token.{IsHex};
ghost use Rattle.task_model.specs.Terms.Token as tokens;

/// The value of a hexadecimal digit, in either case (docs/FORMATS.md, "Literals").
pub fn hex_value(digit: char) -> Option<u8>
    ensures { MatchOption result (IsHex digit → ⊥) (λ n. IsHex digit × (n ≡ tokens.hex_value digit) × (n < 16)) }
{
    match digit {
        '0'..='9' => Some(digit as u8 - b'0'),
        'A'..='F' => Some(digit as u8 - b'A' + 10),
        'a'..='f' => Some(digit as u8 - b'a' + 10),
        _ => None,
    }
}
