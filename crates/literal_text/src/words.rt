ghost use Rattle.std.specs.Prelude.{◌≡◌, ◌∷◌, List, ℕ, MatchBool};
ghost use Rattle.exact_reading.specs.Reading.{Right, seen, Always, NoToken};
ghost use Rattle.literal_text.specs.LiteralReading.{SpelledWord, NoBlank};

use exact_reading::{ParseStop, expect_run, skip, strip};

/// Takes a word or a bracket, and the spaces behind it.
pub(crate) fn word<'a>(bytes: &'a [u8], word: &[u8]) -> Result<&'a [u8], ParseStop>
    ensures { Right (SpelledWord word.now) Always NoBlank bytes.now (seen (λ r. (tt, r.now)) result) }
{
    let rest = expect_run(bytes, word)?;
    Ok(skip(rest, b' '))
}

/// Whether this byte comes next.
pub(crate) fn begins(bytes: &[u8], byte: u8) -> bool
    ensures { MatchBool result ((s : List ℕ) × (bytes.now ≡ byte ∷ s)) (NoToken byte bytes.now) }
{
    strip(bytes, byte).is_some()
}
