ghost use Rattle.std.specs.Prelude.{◌<◌, ◌≤◌, ◌^◌, length, IfOk};
ghost use Rattle.exact_reading.specs.Reading.{IsViablePrefix, Always};
ghost use Rattle.input_lines.specs.ScriptLines.{IsScriptLine};
ghost use Rattle.input_lines.specs.LineFronts.{IsLongestFront};

use crate::standing::Standing;
use std::alloc::Global;
use task_model::OutOfMemory;

/// Of bytes that begin a line of any length, how many begin one of at most `longest` bytes.
pub(crate) fn longest_front(
    alloc: Global,
    bytes: &[u8],
    longest: usize,
) -> Result<usize, OutOfMemory>
    requires begins { IsViablePrefix IsScriptLine Always bytes.now }
    requires within { length bytes.now ≤ longest }
    requires small { longest < 2 ^ 32 }
    ensures { IfOk result (λ place. IsLongestFront longest bytes.now place) }
{
    let mut standing = Standing::at_start(alloc);
    for (place, byte) in bytes.iter().enumerate() {
        standing.take(*byte)?;
        if !standing.ends_within(longest - place - 1) {
            return Ok(place);
        }
    }
    Ok(bytes.len())
}
