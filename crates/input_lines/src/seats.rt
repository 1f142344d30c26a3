ghost use Rattle.std.specs.Prelude.{◌≡◌, ◌∷◌, ◌-◌, ◌≤◌, ℕ, List, MatchOption, MatchBool};
ghost use Rattle.exact_reading.specs.Reading.{Right, seen, Always};
ghost use Rattle.task_model.specs.Terms.Token.{IsDigit};
ghost use Rattle.literal_text.specs.LiteralReading.{NoDigit};
ghost use Rattle.input_lines.specs.LineReading.{SeatNumber, SmallNumber};

use exact_reading::{ParseStop, next, unexpected};
use task_model::SEAT_LIMIT;

/// A seat, 1 to 64, without a leading zero.
pub(crate) fn seat(bytes: &[u8]) -> Result<(u8, &[u8]), ParseStop>
    ensures { Right SeatNumber Always NoDigit bytes.now (seen (λ r. (r.0, r.1.now)) result) }
{
    small_number(bytes, SEAT_LIMIT)
}

/// A number of 1 to `most`, without a leading zero.
pub fn small_number(bytes: &[u8], most: u8) -> Result<(u8, &[u8]), ParseStop>
    requires { most ≤ 64 }
    ensures { Right (SmallNumber most) Always NoDigit bytes.now (seen (λ r. (r.0, r.1.now)) result) }
{
    let Some((first, rest)) = digit(bytes) else {
        return Err(unexpected(bytes));
    };
    if first == 0 {
        return Err(unexpected(bytes));
    }
    if first > most {
        return Err(unexpected(bytes));
    }
    let Some((second, after)) = digit(rest) else {
        return Ok((first, rest));
    };
    let both = first * 10 + second;
    if both > most {
        return Ok((first, rest));
    }
    Ok((both, after))
}

/// The value of a digit, and what stands behind it, if one comes next.
fn digit(bytes: &[u8]) -> Option<(u8, &[u8])>
    ensures { MatchOption result (NoDigit bytes.now) (λ r. (byte : ℕ) × IsDigit byte × (bytes.now ≡ byte ∷ r.1.now) × (r.0 ≡ byte - 48)) }
{
    match next(bytes) {
        Some((byte, rest)) if byte.is_ascii_digit() => Some((byte - b'0', rest)),
        _ => None,
    }
}

/// Whether a digit comes next.
pub(crate) fn begins_digit(bytes: &[u8]) -> bool
    ensures { MatchBool result ((byte : ℕ) × (s : List ℕ) × IsDigit byte × (bytes.now ≡ byte ∷ s)) (NoDigit bytes.now) }
{
    digit(bytes).is_some()
}
