ghost use Rattle.std.specs.Prelude.{◌≡◌, ◌+◌, ◌<◌, ◌≤◌, ◌^◌, [], length, MatchBool};
ghost use Rattle.exact_reading.specs.Reading.{Right, seen, Always};
ghost use Rattle.literal_text.specs.LiteralReading.{NoDigit};
ghost use Rattle.input_lines.specs.ScriptLines.{line_term};
ghost use Rattle.input_lines.specs.LinePlaces.{IsLineWithin};
ghost use Rattle.input_lines.specs.LineReading.{AtEnd};
ghost use Rattle.hub_lines.specs.HubLines.{IsWorldCount, IsHubLineWithin, hub_term, no_world, at_world};
ghost use Rattle.hub_lines.specs.HubReading.{NamedLine, DigitFirst};

use crate::hub_line::HubLine;
use exact_reading::{FaultKind, ParseStop, expect, next};
use input_lines::{Line, parse_line_within, small_number};
use line_frame::LineStop;
use std::alloc::Global;

/// A line for one of so many worlds, of at most `longest` bytes, without its LF.
pub(crate) fn hub_line(
    alloc: Global,
    worlds: u8,
    bytes: &[u8],
    longest: usize,
) -> Result<Option<HubLine>, ParseStop>
    requires worlds { IsWorldCount worlds }
    requires longest { (3 ≤ longest) × (longest < 2 ^ 32) }
    ensures { Right (IsHubLineWithin worlds longest) Always AtEnd bytes.now (seen (λ l. (hub_term l, [])) result) }
{
    if begins_digit(bytes) {
        Ok(Some(named_line(alloc, worlds, bytes, longest)?))
    } else {
        unnamed_line(alloc, worlds, bytes, longest)?;
        Ok(None)
    }
}

/// Whether a digit comes first.
fn begins_digit(bytes: &[u8]) -> bool
    ensures { MatchBool result (DigitFirst bytes.now) (NoDigit bytes.now) }
{
    match next(bytes) {
        Some((byte, _)) => byte.is_ascii_digit(),
        None => false,
    }
}

/// A line that names no world: it is empty, or a comment.
fn unnamed_line(alloc: Global, worlds: u8, bytes: &[u8], longest: usize) -> Result<(), ParseStop>
    requires worlds { IsWorldCount worlds }
    requires first { NoDigit bytes.now }
    requires longest { longest < 2 ^ 32 }
    ensures { Right (IsHubLineWithin worlds longest) Always AtEnd bytes.now (seen (λ _. (no_world, [])) result) }
{
    line_to_end(alloc, bytes, longest)?;
    Ok(())
}

/// A world's number, a space, and a line.
fn named_line(alloc: Global, worlds: u8, bytes: &[u8], longest: usize) -> Result<HubLine, ParseStop>
    requires worlds { IsWorldCount worlds }
    requires longest { (3 ≤ longest) × (longest < 2 ^ 32) }
    ensures { Right (NamedLine worlds longest) Always AtEnd bytes.now (seen (λ l. (at_world l.world (line_term l.line), [])) result) }
{
    let (world, rest) = small_number(bytes, worlds)?;
    let rest = expect(rest, b' ')?;
    let line = line_to_end(alloc, rest, longest - (bytes.len() - rest.len()))?;
    Ok(HubLine { world, line })
}

/// A line of at most so many bytes, as all of them.
fn line_to_end(alloc: Global, bytes: &[u8], longest: usize) -> Result<Line, ParseStop>
    requires { longest < 2 ^ 32 }
    ensures { Right (IsLineWithin longest) Always AtEnd bytes.now (seen (λ l. (line_term l, [])) result) }
{
    match parse_line_within(alloc, bytes, longest) {
        Ok(line) => Ok(line),
        Err(LineStop::Bad { column }) => Err(ParseStop::Fault {
            kind: FaultKind::Unexpected,
            left: left_at(bytes, column),
        }),
        Err(LineStop::Memory) => Err(ParseStop::Memory),
    }
}

/// How many bytes are left at a column.
fn left_at(bytes: &[u8], column: u64) -> usize
    requires { (1 ≤ column) × (column ≤ length bytes.now + 1) }
    ensures { result + column ≡ length bytes.now + 1 }
{
    bytes.len() - (column - 1) as usize
}
