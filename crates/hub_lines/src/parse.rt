ghost use Rattle.std.specs.Prelude.{◌≡◌, ◌≤◌, length, IfErr, IfOk, MatchResult};
ghost use Rattle.hub_lines.specs.HubLines.{HubTerm, IsHubLine, IsWorldCount, NamesWorld, hub_term};
ghost use Rattle.hub_lines.specs.HubPlaces.{IsBadHubColumn};

use crate::hub_line::HubLine;
use crate::reading::hub_line;
use exact_reading::{ParseStop, place};
use line_frame::LineStop;
use std::alloc::Global;
use task_model::LINE_BYTE_LIMIT;

/// What a line for one of so many worlds, without its LF, asks for: nothing where it is empty or a comment, else something of the world that
/// it names. Columns count from 1.
pub fn parse_hub_line(alloc: Global, worlds: u8, bytes: &[u8]) -> Result<Option<HubLine>, LineStop>
    requires { IsWorldCount worlds }
    // The bytes are a line that asks for it, and not too long.
    ensures found { IfOk result (λ l. IsHubLine worlds bytes.now (hub_term l) × (length bytes.now ≤ 1048576)) }
    // They are a line of nothing else, and a line that isn't too long is refused only for want of memory.
    ensures only { (h : HubTerm) → IsHubLine worlds bytes.now h → length bytes.now ≤ 1048576
        → MatchResult result (λ l. hub_term l ≡ h) (λ e. e ≡ LineStop.Memory) }
    // Else the column is one more than the length of the longest prefix that begins a line that isn't too long.
    ensures bad { IfErr result (λ e. IsBadHubColumn worlds 1048576 bytes.now e) }
    // A world that is named is one of them, and a seat that is named is a seat.
    ensures names { IfOk result (λ l. NamesWorld worlds (hub_term l)) }
{
    match hub_line(alloc, worlds, bytes, LINE_BYTE_LIMIT) {
        Ok(line) => Ok(line),
        Err(ParseStop::Fault { left, .. }) => Err(LineStop::Bad {
            column: place(bytes, left) as u64 + 1,
        }),
        Err(ParseStop::Memory) => Err(LineStop::Memory),
    }
}
