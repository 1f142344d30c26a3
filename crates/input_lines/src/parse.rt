ghost use Rattle.std.specs.Prelude.{◌≡◌, ◌≤◌, ◌<◌, ◌^◌, length, take, IfOk, IfErr, MatchResult};
ghost use Rattle.exact_reading.specs.Reading.{IsViablePrefix, Always};
ghost use Rattle.input_lines.specs.ScriptLines.{LineTerm, IsScriptLine, HasSeat, line_term};
ghost use Rattle.input_lines.specs.LinePlaces.{IsBadColumn};
ghost use Rattle.input_lines.specs.LineFronts.{IsFrontColumn};

use crate::line::Line;
use crate::reading::line;
use crate::room::longest_front;
use exact_reading::{ParseStop, place};
use line_frame::LineStop;
use std::alloc::Global;
use task_model::LINE_BYTE_LIMIT;

/// What a line without its LF asks for. Columns count from 1.
pub fn parse_line(alloc: Global, bytes: &[u8]) -> Result<Line, LineStop>
    // The bytes are a line that asks for it, and not too long.
    ensures found { IfOk result (λ l. IsScriptLine bytes.now (line_term l) × (length bytes.now ≤ 1048576)) }
    // They are a line of nothing else, and a line that isn't too long is refused only for want of memory.
    ensures only { (l : LineTerm) → IsScriptLine bytes.now l → length bytes.now ≤ 1048576
        → MatchResult result (λ m. line_term m ≡ l) (λ e. e ≡ LineStop.Memory) }
    // Else the column is one more than the length of the longest prefix that begins a line that isn't too long.
    ensures bad { IfErr result (λ e. IsBadColumn 1048576 bytes.now e) }
    // A seat that is named is a seat.
    ensures seat { IfOk result (λ l. HasSeat (line_term l)) }
{
    parse_line_within(alloc, bytes, LINE_BYTE_LIMIT)
}

/// The same for lines of at most so many bytes.
pub fn parse_line_within(alloc: Global, bytes: &[u8], longest: usize) -> Result<Line, LineStop>
    requires { longest < 2 ^ 32 }
    ensures found { IfOk result (λ l. IsScriptLine bytes.now (line_term l) × (length bytes.now ≤ longest)) }
    ensures only { (l : LineTerm) → IsScriptLine bytes.now l → length bytes.now ≤ longest
        → MatchResult result (λ m. line_term m ≡ l) (λ e. e ≡ LineStop.Memory) }
    ensures bad { IfErr result (λ e. IsBadColumn longest bytes.now e) }
    ensures seat { IfOk result (λ l. HasSeat (line_term l)) }
{
    let front = cut(bytes, longest);
    match line(alloc, front) {
        Ok(line) if bytes.len() <= longest => Ok(line),
        Ok(_) => Err(column(alloc, front, longest)),
        Err(ParseStop::Fault { left, .. }) => {
            let end = place(front, left);
            Err(column(alloc, &front[..end], longest))
        }
        Err(ParseStop::Memory) => Err(LineStop::Memory),
    }
}

/// At most so many of the first bytes.
fn cut(bytes: &[u8], longest: usize) -> &[u8]
    ensures { result.now ≡ take longest bytes.now }
{
    if longest < bytes.len() {
        &bytes[..longest]
    } else {
        bytes
    }
}

/// Of bytes that begin a line of any length, the column behind those that begin one of at most `longest` bytes.
fn column(alloc: Global, bytes: &[u8], longest: usize) -> LineStop
    requires begins { IsViablePrefix IsScriptLine Always bytes.now }
    requires within { length bytes.now ≤ longest }
    requires small { longest < 2 ^ 32 }
    ensures { IsFrontColumn longest bytes.now result }
{
    match longest_front(alloc, bytes, longest) {
        Ok(place) => LineStop::Bad {
            column: place as u64 + 1,
        },
        Err(_) => LineStop::Memory,
    }
}
