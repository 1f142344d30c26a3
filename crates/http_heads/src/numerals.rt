ghost use Rattle.std.specs.Prelude.{◌≡◌};
ghost use Rattle.http_heads.specs.Heads.{number_of};

/// The number below 2^64 that the text writes in 1 to so many digits (docs/FORMATS.md, "Checks").
pub fn number(text: &[u8], most: usize) -> Option<u64>
    ensures { result ≡ number_of most text.now }
{
    if text.is_empty() || text.len() > most {
        return None;
    }
    let mut number: u64 = 0;
    for byte in text {
        if !byte.is_ascii_digit() {
            return None;
        }
        number = number
            .checked_mul(10)?
            .checked_add(u64::from(*byte - b'0'))?;
    }
    Some(number)
}
