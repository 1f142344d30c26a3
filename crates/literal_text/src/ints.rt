ghost use Rattle.std.specs.Prelude.{◌≡◌, ◌≤◌, ◌∷◌, ◌-◌, ℕ, true, MatchOption};
ghost use Rattle.exact_reading.specs.Reading.{Right, seen, Always};
ghost use Rattle.task_model.specs.Terms.Token.{IsDigit};
ghost use Rattle.task_model.specs.Terms.Value.{value_term};
ghost use Rattle.literal_text.specs.Literals.{signed};
ghost use Rattle.literal_text.specs.LiteralReading.{IntLiteral, Number, NoDigit, Ends, most};

use exact_reading::{ParseStop, next, skip, strip, unexpected};
use task_model::Value;

/// An int, and the spaces behind it.
pub(crate) fn int(bytes: &[u8]) -> Result<(Value, &[u8]), ParseStop>
    ensures { Right IntLiteral Always Ends bytes.now (seen (λ r. (value_term r.0, r.1.now)) result) }
{
    match strip(bytes, b'-') {
        Some(digits) => {
            let (number, rest) = number(1 << 63, digits)?;
            Ok((Value::Int(negative(number)), skip(rest, b' ')))
        }
        None => {
            let (number, rest) = number(i64::MAX as u64, bytes)?;
            Ok((Value::Int(number as i64), skip(rest, b' ')))
        }
    }
}

fn negative(number: u64) -> i64
    requires { number ≤ most true }
    ensures { result ≡ signed true number }
{
    if number == 1 << 63 {
        i64::MIN
    } else {
        -(number as i64)
    }
}

/// Digits that write a number within a limit.
fn number(limit: u64, bytes: &[u8]) -> Result<(u64, &[u8]), ParseStop>
    requires { 9 ≤ limit }
    ensures { Right (Number limit) Always NoDigit bytes.now (seen (λ r. (r.0, r.1.now)) result) }
{
    let Some((digit, after)) = digit(bytes) else {
        return Err(unexpected(bytes));
    };
    let (mut number, mut rest) = (digit, after);
    while let Some((digit, after)) = self::digit(rest) {
        if number > (limit - digit) / 10 {
            return Err(unexpected(rest));
        }
        number = number * 10 + digit;
        rest = after;
    }
    Ok((number, rest))
}

/// The value of a digit, and what stands behind it, if one comes next.
fn digit(bytes: &[u8]) -> Option<(u64, &[u8])>
    ensures { MatchOption result (NoDigit bytes.now) (λ r. (byte : ℕ) × IsDigit byte × (bytes.now ≡ byte ∷ r.1.now) × (r.0 ≡ byte - 48)) }
{
    match next(bytes) {
        Some((byte, rest)) if byte.is_ascii_digit() => Some(((byte - b'0') as u64, rest)),
        _ => None,
    }
}
