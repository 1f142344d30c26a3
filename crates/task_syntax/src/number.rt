ghost use Rattle.std.specs.Prelude.{◌≡◌, ◌≤◌, ◌<◌, ℕ, true, MatchOption};
ghost use Rattle.std.specs.Char.{is_ascii_digit};
ghost use Rattle.std.specs.List.{list_all};
ghost use Rattle.task_model.specs.Terms.Token.{number_from};

const LIMIT: u64 = 9_223_372_036_854_775_807;

/// The number that these digits write, if it is within the limit.
pub(crate) fn value(digits: &[u8]) -> Option<u64>
    requires { list_all is_ascii_digit digits.now ≡ true }
    ensures { MatchOption result
        (LIMIT < number_from 0 digits.now)
        (λ n. (n ≡ number_from 0 digits.now) × (n ≤ LIMIT)) }
{
    let mut value: u64 = 0;
    for byte in digits {
        let digit = u64::from(*byte - b'0');
        if value > (LIMIT - digit) / 10 {
            return None;
        }
        value = value * 10 + digit;
    }
    Some(value)
}
