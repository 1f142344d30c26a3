ghost use Rattle.std.specs.Prelude.{◌≡◌, ◌++◌, []};
ghost use Rattle.exact_reading.specs.Reading.{Right, seen, Always, Run};
ghost use Rattle.input_lines.specs.LineReading.{LineEnd, EndWord, AtEnd, AtReturn, NoReturn};

use exact_reading::{ParseStop, expect_run, strip, unexpected};
use memchr::memchr;

/// The end of a line, behind a CR or not.
pub(crate) fn line_end(bytes: &[u8]) -> Result<(), ParseStop>
    ensures { Right LineEnd Always AtEnd bytes.now (seen (λ r. (tt, [])) result) }
{
    match strip(bytes, b'\r') {
        Some(rest) => nothing(rest),
        None => nothing(bytes),
    }
}

/// Nothing more.
fn nothing(bytes: &[u8]) -> Result<(), ParseStop>
    ensures { Right (Run []) Always AtEnd bytes.now (seen (λ r. (tt, [])) result) }
{
    if bytes.is_empty() {
        Ok(())
    } else {
        Err(unexpected(bytes))
    }
}

/// A word, and the end of the line behind it.
pub(crate) fn end_word(bytes: &[u8], word: &[u8]) -> Result<(), ParseStop>
    ensures { Right (EndWord word.now) Always AtEnd bytes.now (seen (λ r. (tt, [])) result) }
{
    let rest = expect_run(bytes, word)?;
    line_end(rest)
}

/// The bytes up to the first CR, and those from it on.
pub(crate) fn split_return(bytes: &[u8]) -> (&[u8], &[u8])
    ensures split { bytes.now ≡ result.0.now ++ result.1.now }
    ensures front { NoReturn result.0.now }
    ensures back { AtReturn result.1.now }
{
    match memchr(b'\r', bytes) {
        Some(at) => (&bytes[..at], &bytes[at..]),
        None => (bytes, &bytes[bytes.len()..]),
    }
}
