ghost use Rattle.std.specs.Prelude.{◌≡◌, ◌∷◌, ◌++◌, [], List, IfOk, MatchOption};
ghost use Rattle.task_model.specs.Showing.Page.{path_text, turns_text};
ghost use Rattle.task_model.specs.declared.input.Turn.{Turn};
ghost use Rattle.exact_reading.specs.Reading.{Right, seen, Always};
ghost use Rattle.input_paths.specs.Paths.{PathLetters, NoLetter};

use exact_reading::{ParseStop, expect, strip};
use std::alloc::Global;
use task_model::{OutOfMemory, Path, Turn, Turns};

/// A path in front of bytes that begin with no further letter of it, and those bytes (docs/FORMATS.md, "Script lines").
pub fn read_path(alloc: Global, bytes: &[u8]) -> Result<(Path, &[u8]), ParseStop>
    ensures { Right PathLetters Always NoLetter bytes.now (seen (λ r. (r.0.turns, r.1.now)) result) }
{
    let mut turns = Turns::new(alloc);
    let mut rest = expect(bytes, b'.')?;
    while let Some((turn, after)) = turn(rest) {
        match turns.push(turn) {
            Ok(()) => rest = after,
            Err(_) => return Err(ParseStop::Memory),
        }
    }
    Ok((Path { turns }, rest))
}

/// A turn, and what stands behind its letter, if one comes next.
fn turn(bytes: &[u8]) -> Option<(Turn, &[u8])>
    ensures { MatchOption result (NoLetter bytes.now) (λ r. bytes.now ≡ turns_text (r.0 ∷ []) ++ r.1.now) }
{
    if let Some(rest) = strip(bytes, b'F') {
        return Some((Turn::First, rest));
    }
    if let Some(rest) = strip(bytes, b'S') {
        return Some((Turn::Second, rest));
    }
    None
}

/// The path that all of the bytes are, if they are one (docs/FORMATS.md, "Script lines").
pub fn whole_path(alloc: Global, bytes: &[u8]) -> Result<Option<Path>, OutOfMemory>
    ensures { IfOk result (λ found. MatchOption found ((path : List Turn) → bytes.now ≡ path_text path → ⊥)
        (λ p. bytes.now ≡ path_text p.turns)) }
{
    match read_path(alloc, bytes) {
        Ok((path, rest)) => {
            if rest.is_empty() {
                return Ok(Some(path));
            }
            Ok(None)
        }
        Err(ParseStop::Fault { .. }) => Ok(None),
        Err(ParseStop::Memory) => Err(OutOfMemory),
    }
}
