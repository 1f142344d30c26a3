ghost use Rattle.std.specs.Prelude.{◌≡◌, ◌<◌, length, MatchOption};
ghost use Rattle.http_heads.specs.Blocks as blocks;

use exact_reading::strip;

/// The bytes without the LF and CR LF at the front (docs/FORMATS.md, "Where a request ends").
pub fn without_blanks(bytes: &[u8]) -> &[u8]
    ensures { result.now ≡ blocks.without_blanks bytes.now }
{
    let mut rest = bytes;
    while let Some(after) = behind_line_end(rest) {
        rest = after;
    }
    rest
}

/// What stands behind a line end at the front, if there is one.
fn behind_line_end(bytes: &[u8]) -> Option<&[u8]>
    ensures { MatchOption result (blocks.without_blanks bytes.now ≡ bytes.now)
        (λ rest. (blocks.without_blanks bytes.now ≡ blocks.without_blanks rest.now) × (length rest.now < length bytes.now)) }
{
    if let Some(rest) = strip(bytes, b'\n') {
        return Some(rest);
    }
    strip(strip(bytes, b'\r')?, b'\n')
}
