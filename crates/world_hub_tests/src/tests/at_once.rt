ghost use Rattle.std.specs.Prelude.{IfOk};
ghost use Rattle.std.specs.List.{All};
ghost use Rattle.input_lines.specs.ScriptLines.{line_term};
ghost use Rattle.hub_lines.specs.HubLines.{NamesWorld, at_world};

use hub_lines::{HubLine, parse_hub_line};
use std::alloc::Global;
use std::thread::Threads;
use task_model::{OutOfMemory, Row};
use testing_programs::accepted;
use world_hub::{Hub, HubDone, HubStop};

// A program whose opening takes more than 2 units.
const LONG: &str = "task main() : int = edit 1 >>= x . edit x";

const LINES: &str = "1 1 . set 4\n2 1 . set 9\n1 1 show";

// The lines of a script for 2 worlds. One that isn't, and one that names no world, is as want of memory.
fn lines_of(alloc: Global, script: &str) -> Result<Vec<HubLine>, OutOfMemory>
    ensures { IfOk result (λ lines. All (λ l. NamesWorld 2 (at_world l.world (line_term l.line))) lines.items) }
{
    let mut lines = Vec::new(alloc);
    for line in script.split('\n') {
        match parse_hub_line(alloc, 2, line.as_bytes()) {
            Ok(Some(line)) => lines.push(line)?,
            Ok(None) => return Err(OutOfMemory),
            Err(_) => return Err(OutOfMemory),
        }
    }
    Ok(lines)
}

// Whether the bytes are those of a text.
fn is_text(bytes: &Row<u8>, text: &str) -> bool {
    bytes.as_slice() == text.as_bytes()
}

// Whether these texts are what the two worlds answer to the lines.
fn are_answers(texts: &[Row<u8>]) -> bool {
    match texts {
        [first, second, third] => {
            is_text(first, "taken 1\n")
                && is_text(second, "taken 1\n")
                && is_text(third, "version 1 seat 1\n. step next\n. edit int 4\n")
        }
        _ => false,
    }
}

/// Whether two worlds answer the lines, each its own.
pub(crate) fn answers_two<R: Threads + Sync>(rt: &R, alloc: Global) -> Result<bool, OutOfMemory> {
    let mut programs = Vec::new(alloc);
    programs.push(accepted(alloc, "task main() : int = enter int >>? x . edit x")?)?;
    programs.push(accepted(alloc, "task main() : int = edit 1")?)?;
    match Hub::open(alloc, programs, 10_000) {
        Ok(hub) => {
            let lines = lines_of(alloc, LINES)?;
            let HubDone { hub, texts } = hub.run(rt, alloc, lines.as_slice())?;
            Ok(are_answers(texts.as_slice()) && hub.world(2).is_some() && hub.world(3).is_none())
        }
        Err(_) => Ok(false),
    }
}

/// Whether the second of three programs is named, where it and the third have no opening.
pub(crate) fn names_the_lowest(alloc: Global) -> Result<bool, OutOfMemory> {
    let mut programs = Vec::new(alloc);
    programs.push(accepted(alloc, "task main() : int = edit 1")?)?;
    programs.push(accepted(alloc, LONG)?)?;
    programs.push(accepted(alloc, LONG)?)?;
    match Hub::open(alloc, programs, 2) {
        Ok(_) => Ok(false),
        Err(stop) => Ok(stop == HubStop::Over { world: 2 }),
    }
}
