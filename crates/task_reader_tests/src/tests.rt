//! Texts and their programs, first faults, levels, and texts that are printed again.

use std::alloc::{AllocError, Global};
use task_reader::read_program;
use task_syntax::{LexStop, ReadStop, lex};

mod deep;
mod faults;
mod levels;
mod places;
mod printing;

/// The head of a function, in front of its expression: seven tokens.
const FUNCTION: &str = "fun f() : int = ";

/// The head of a task, in front of its body: seven tokens.
const TASK: &str = "task main() : int = ";

/// Whether a source is read, or its first fault.
fn told(alloc: Global, source: &[u8]) -> Result<String, AllocError> {
    match read_program(alloc, source).err() {
        None => String::from_str(alloc, "read"),
        Some(ReadStop::Fault { place, kind }) => format!(in alloc; "{kind:?} at {place}"),
        Some(ReadStop::Memory) => Err(AllocError),
    }
}

// Where a token of a source begins. Behind the last one the source ends.
fn token_place(alloc: Global, source: &str, token: usize) -> Result<u64, AllocError> {
    match lex(alloc, source) {
        Ok(tokens) => match tokens.list.as_slice().get(token) {
            Some(found) => Ok(found.from),
            None => Ok(source.len() as u64),
        },
        Err(LexStop::Fault { place, kind: _ }) => Ok(place),
        Err(LexStop::Memory) => Err(AllocError),
    }
}

/// Puts a source and what is told of it, where that isn't what is wanted.
fn put_compared(
    found: &mut String,
    alloc: Global,
    source: &str,
    wanted: &str,
) -> Result<(), AllocError> {
    let told = told(alloc, source.as_bytes())?;
    if told.as_str() != wanted {
        write!(found, "{source}\nis {}\n", told.as_str())?;
    }
    Ok(())
}

/// Puts what differs where the first fault of a source is to be this token, and why.
fn put_fault(
    found: &mut String,
    alloc: Global,
    source: &str,
    token: usize,
    kind: &str,
) -> Result<(), AllocError> {
    let place = token_place(alloc, source, token)?;
    let wanted = format!(in alloc; "{kind} at {place}")?;
    put_compared(found, alloc, source, wanted.as_str())
}

/// The first field of a row of a table, which ends at `@`, and what stands behind it.
fn field(row: &str) -> (&str, &str) {
    row.split_once('@').unwrap_or((row, ""))
}
