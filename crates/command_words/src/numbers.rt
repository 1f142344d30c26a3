ghost use Rattle.std.specs.Prelude.{◌≡◌};
ghost use Rattle.std.specs.Char.{is_ascii_digit};
ghost use Rattle.std.specs.List.{list_all};
ghost use Rattle.command_words.specs.WordNumbers.{number_in};

/// The number that the text writes in 1 to 20 digits, where it lies between the two.
pub(crate) fn number(text: &str, low: u64, high: u64) -> Option<u64>
    ensures { result ≡ number_in low high text.now }
{
    if text.len() > 20 || !is_digits(text.as_bytes()) {
        return None;
    }
    match text.parse::<u64>() {
        Ok(value) => {
            if low <= value && value <= high {
                Some(value)
            } else {
                None
            }
        }
        Err(_) => None,
    }
}

fn is_digits(bytes: &[u8]) -> bool
    ensures { result ≡ list_all is_ascii_digit bytes.now }
{
    bytes.iter().all(|byte| byte.is_ascii_digit())
}
