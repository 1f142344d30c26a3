//! Tables of programs, each with its first fault at the `@` in it, which stands in no program, or with `ok` where it is accepted.
//!
//! A row is a definition between others, as `fault; type; body`. A block has a fault in its first line, and behind it a whole program. In
//! both `{N PIECE}` stands for N times the piece.

pub(super) mod expressions;
pub(super) mod programs;
pub(super) mod tasks;

use super::case::{Case, RUN, told};
use std::alloc::Global;
use task_model::OutOfMemory;
use testing_programs::repeated;

/// What stands in front of a definition under test: a function and a task of a value and a reference each.
const BEFORE: &str =
    "fun g(a : int, q : ref int) : bool = true\ntask k(a : int, q : ref int) : bool = enter bool\n";

/// The parameters of a definition under test.
const PARAMETERS: &str =
    "(n : int, b : bool, t : text, l : [int], p : (int, bool), r : ref int, s : ref text) : ";

/// What stands behind it: a later function and a later task, and `main`.
const BEHIND: &str =
    "\nfun y() : int = 1\ntask z() : int = enter int\ntask main() : unit = enter unit\n";

// What is told of a program that is checked.
fn checked(alloc: Global, program: &str) -> Result<String, OutOfMemory> {
    let case = Case {
        words: "check p.th",
        program: program.as_bytes(),
        ..RUN
    };
    told(alloc, &case, 4_096)
}

// Whether this fault is told of that place, or none where it is `ok`.
fn is_fault(alloc: Global, told: &str, place: usize, fault: &str) -> Result<bool, OutOfMemory> {
    if fault == "ok" {
        return Ok(told.starts_with("= 0\n"));
    }
    let wanted = format!(in alloc; "= 1\ntophat: p.th: byte {place}: {fault}\n")?;
    Ok(told == wanted.as_str())
}

// The program of a text, without its mark.
fn unmarked(alloc: Global, text: &str) -> Result<String, OutOfMemory> {
    let (before, behind) = text.split_once('@').unwrap_or((text, ""));
    Ok(format!(in alloc; "{before}{behind}")?)
}

// Puts the text and what is told of it, where that isn't its fault.
fn put_difference(
    found: &mut String,
    alloc: Global,
    text: &str,
    fault: &str,
) -> Result<(), OutOfMemory> {
    let marked = repeated(alloc, text)?;
    let place = marked.as_str().split('@').next().unwrap_or("").len();
    let program = unmarked(alloc, marked.as_str())?;
    let told = checked(alloc, program.as_str())?;
    if !is_fault(alloc, told.as_str(), place, fault)? {
        write!(found, "{fault}: {text}\nis {}\n", told.as_str())?;
    }
    Ok(())
}

fn put_row(found: &mut String, alloc: Global, word: &str, row: &str) -> Result<(), OutOfMemory> {
    let (fault, rest) = row.split_once("; ").unwrap_or((row, ""));
    let (kind, body) = rest.split_once("; ").unwrap_or((rest, ""));
    let text = format!(in alloc; "{BEFORE}{word} f{PARAMETERS}{kind} = {body}{BEHIND}")?;
    put_difference(found, alloc, text.as_str(), fault)
}

/// Puts what differs from rows, of functions or tasks by this word.
pub(super) fn put_rows(
    found: &mut String,
    alloc: Global,
    word: &str,
    rows: &str,
) -> Result<(), OutOfMemory> {
    for row in rows.split('\n') {
        put_row(found, alloc, word, row)?;
    }
    Ok(())
}

/// Puts what differs from blocks.
pub(super) fn put_blocks(
    found: &mut String,
    alloc: Global,
    blocks: &str,
) -> Result<(), OutOfMemory> {
    for block in blocks.split("\n\n") {
        let (fault, program) = block.split_once('\n').unwrap_or((block, ""));
        put_difference(found, alloc, program, fault)?;
    }
    Ok(())
}
