ghost use Rattle.std.specs.Prelude.{[]};
ghost use Rattle.exact_reading.specs.Reading.{Right, seen, Always};
ghost use Rattle.input_lines.specs.ScriptLines.{IsScriptLine, line_term};
ghost use Rattle.input_lines.specs.LineReading.{SeatedLine, EndCommand, EndInput, AtEnd};

use crate::acts::{act, begins};
use crate::ends::{end_word, line_end};
use crate::line::Line;
use crate::seats::{begins_digit, seat};
use exact_reading::{ParseStop, expect};
use input_paths::read_path;
use std::alloc::Global;
use task_model::{Entry, Input};

/// A line of any length, without its LF.
pub(crate) fn line(alloc: Global, bytes: &[u8]) -> Result<Line, ParseStop>
    ensures { Right IsScriptLine Always AtEnd bytes.now (seen (λ l. (line_term l, [])) result) }
{
    if begins(bytes, b'#') {
        return Ok(Line::Blank);
    }
    if begins_digit(bytes) {
        return seated_line(alloc, bytes);
    }
    line_end(bytes)?;
    Ok(Line::Blank)
}

/// A seat and its command.
fn seated_line(alloc: Global, bytes: &[u8]) -> Result<Line, ParseStop>
    ensures { Right SeatedLine Always AtEnd bytes.now (seen (λ l. (line_term l, [])) result) }
{
    let (seat, rest) = seat(bytes)?;
    let rest = expect(rest, b' ')?;
    command(alloc, seat, rest)
}

/// What this seat is followed by, to the end of the line.
fn command(alloc: Global, seat: u8, bytes: &[u8]) -> Result<Line, ParseStop>
    ensures { Right (EndCommand seat) Always AtEnd bytes.now (seen (λ l. (line_term l, [])) result) }
{
    if begins(bytes, b's') {
        end_word(bytes, b"show")?;
        return Ok(Line::Show { seat });
    }
    input(alloc, seat, bytes)
}

/// A path and an act of this seat.
fn input(alloc: Global, seat: u8, bytes: &[u8]) -> Result<Line, ParseStop>
    ensures { Right (EndInput seat) Always AtEnd bytes.now (seen (λ l. (line_term l, [])) result) }
{
    let (path, rest) = read_path(alloc, bytes)?;
    let rest = expect(rest, b' ')?;
    let act = act(alloc, rest)?;
    let input = Input { path, act };
    Ok(Line::Act(Entry { seat, input }))
}
