//! Tables of blocks that are made of shorter rows, and what words ask for.

use super::case::{Case, RUN, put_compared, told, words_of};
use command_words::{Command, ServeWords, read_command};
use std::alloc::Global;
use task_model::OutOfMemory;

const USAGE: &str =
    "usage: tophat run FILE [--budget N] | check FILE | soak N SEED | drill SEATS N | serve FILE [--budget N] [--seats N] [--workers N] [--port N] [--connections N] | json FILE [--budget N] | bound FILE";

/// Blocks of words that ask for no command, one a row, and of none.
pub(super) fn wrong_words(alloc: Global, rows: &str) -> Result<String, OutOfMemory> {
    let mut table = format!(in alloc; "$ \nsame program\n= 2 {USAGE}")?;
    for words in rows.split('\n') {
        write!(table, "\n\n$ {words}\nsame program\n= 2 {USAGE}")?;
    }
    Ok(table)
}

/// Blocks of lines that are bad at their columns: a row has the column and the line.
pub(super) fn bad_lines(alloc: Global, rows: &str) -> Result<String, OutOfMemory> {
    let program = "task main() : (int, int) = edit 1 <&> enter int";
    let mut table = String::new(alloc);
    for row in rows.split('\n') {
        let (column, line) = row.split_once(' ').unwrap_or((row, ""));
        let end = "= 3 tophat: line 1 column ";
        write!(table, "{program}\n{end}{column}\n> {line}\n\n")?;
    }
    Ok(table)
}

/// A block of 64 lines of comment of the most bytes, which fill a script to its limit, and how it ends.
pub(super) fn long_script(alloc: Global, end: &str, last: &str) -> Result<String, OutOfMemory> {
    let mut block = format!(in alloc; "task main() : int = edit 1\n= {end}")?;
    for _ in 0..64 {
        block.push_str("\n> {1048575 #}")?;
    }
    block.push_str(last)?;
    Ok(block)
}

// What a command that isn't a plain one is told: the file and the numbers, each behind a space but the first; or none where the words ask for
// none.
fn asked(alloc: Global, words: &str) -> Result<String, OutOfMemory> {
    let words = words_of(alloc, words)?;
    match &read_command(alloc, words.as_slice()) {
        Ok(Command::Drill { seats, each }) => Ok(format!(in alloc; "{seats} {each}")?),
        Ok(Command::Serve { file, serving }) => serving_text(alloc, file.as_str(), *serving),
        _ => Ok(String::new(alloc)),
    }
}

fn serving_text(alloc: Global, file: &str, of: ServeWords) -> Result<String, OutOfMemory> {
    let seats = format!(in alloc; "{file} {} {} {}", of.budget, of.seats, of.workers)?;
    Ok(format!(in alloc; "{seats} {} {}", of.port, of.connections)?)
}

// Puts what differs from a row of words and what they ask for.
fn put_words(found: &mut String, alloc: Global, row: &str) -> Result<(), OutOfMemory> {
    let (words, wanted) = row.split_once(" = ").unwrap_or((row, ""));
    let asked = asked(alloc, words)?;
    put_compared(found, words, asked.as_str(), wanted)?;
    let told = told(alloc, &Case { words, ..RUN }, 4_096)?;
    put_compared(found, words, told.as_str(), "= none\n")
}

/// Puts what differs from rows of words and what they ask for, none of which is a plain command.
pub(super) fn put_other_words(
    found: &mut String,
    alloc: Global,
    rows: &str,
) -> Result<(), OutOfMemory> {
    for row in rows.split('\n') {
        put_words(found, alloc, row)?;
    }
    Ok(())
}
