//! Tables of programs with their transcripts.

use crate::tests::case::{Case, put_compared, told};
use std::alloc::Global;
use task_model::OutOfMemory;
use testing_programs::repeated;

/// A block of a table, in which `{N PIECE}` stands for N times the piece: words behind `$ `, or else `run p.th`; behind `! ` the numbers of the
/// calls on files, input, output and errors that fail, if any do; the program, or `same program` for that of the block above; the status behind
/// `= `, and behind it the text on the error sink; and a transcript, whose lines behind `> ` are the script and whose other lines are written.
/// In a script a backquote stands for a carriage return. A line that ends in a backslash has no line end.
#[derive(Clone, Copy)]
struct Block<'a> {
    words: &'a str,
    fails: &'a str,
    program: &'a str,
    status: &'a str,
    error: &'a str,
    transcript: &'a str,
}

// What stands behind a mark on the first line, if it does, and what stands behind that.
fn marked<'a>(head: &'a str, mark: &str, usual: &'a str) -> (&'a str, &'a str) {
    match head.strip_prefix(mark) {
        Some(behind) => behind.split_once('\n').unwrap_or((behind, "")),
        None => (usual, head),
    }
}

// A text that is no block has a status that no command has.
fn block_of(text: &str) -> Block<'_> {
    let (head, rest) = text.split_once("\n= ").unwrap_or((text, "no block"));
    let (words, head) = marked(head, "$ ", "run p.th");
    let (fails, program) = marked(head, "! ", "");
    let (end, transcript) = rest.split_once('\n').unwrap_or((rest, ""));
    let (status, error) = end.split_once(' ').unwrap_or((end, ""));
    Block {
        words,
        fails,
        program,
        status,
        error,
        transcript,
    }
}

// Numbers with blanks between them; 0 where there are fewer.
fn fails_of(text: &str) -> [u64; 4] {
    let mut fails = [0; 4];
    for (at, number) in text.split(' ').enumerate() {
        if let Some(place) = fails.get_mut(at) {
            *place = number.parse::<u64>().unwrap_or(0);
        }
    }
    fails
}

fn push_line(text: &mut String, line: &str) -> Result<(), OutOfMemory> {
    match line.strip_suffix('\\') {
        Some(front) => text.push_str(front)?,
        None => {
            text.push_str(line)?;
            text.push('\n')?;
        }
    }
    Ok(())
}

// The script of a transcript.
fn script_of(alloc: Global, transcript: &str) -> Result<String, OutOfMemory> {
    let mut script = String::new(alloc);
    for line in transcript.split('\n') {
        if let Some(asked) = line.strip_prefix("> ") {
            push_line(&mut script, asked)?;
        }
    }
    Ok(script)
}

// The script with its carriage returns.
fn with_returns(alloc: Global, script: &str) -> Result<String, OutOfMemory> {
    let mut text = String::new(alloc);
    let mut parts = script.split('`');
    text.push_str(parts.next().unwrap_or(""))?;
    for part in parts {
        text.push('\r')?;
        text.push_str(part)?;
    }
    Ok(text)
}

// What a block says of the case, as `told` has it.
fn wanted(alloc: Global, block: &Block<'_>) -> Result<String, OutOfMemory> {
    let mut text = format!(in alloc; "= {}\n", block.status)?;
    if !block.error.is_empty() {
        push_line(&mut text, block.error)?;
    }
    for line in block.transcript.split('\n') {
        if !line.is_empty() && !line.starts_with("> ") {
            push_line(&mut text, line)?;
        }
    }
    Ok(text)
}

// What comes of a block, below one of this program.
fn block_told(
    alloc: Global,
    block: &Block<'_>,
    piece: usize,
    above: &str,
) -> Result<String, OutOfMemory> {
    let script = script_of(alloc, block.transcript)?;
    let script = with_returns(alloc, script.as_str())?;
    let case = Case {
        words: block.words,
        program: program_below(block.program, above).as_bytes(),
        script: script.as_str().as_bytes(),
        fails: fails_of(block.fails),
    };
    told(alloc, &case, piece)
}

fn program_below<'a>(program: &'a str, above: &'a str) -> &'a str {
    if program == "same program" {
        above
    } else {
        program
    }
}

// Puts what differs from a block below one of this program, which becomes the block's.
fn put_block(
    found: &mut String,
    alloc: Global,
    text: &str,
    piece: usize,
    above: &mut String,
) -> Result<(), OutOfMemory> {
    let block = block_of(text);
    let told = block_told(alloc, &block, piece, above.as_str())?;
    let wanted = wanted(alloc, &block)?;
    put_compared(found, text, told.as_str(), wanted.as_str())?;
    if block.program != "same program" {
        above.clear();
        above.push_str(block.program)?;
    }
    Ok(())
}

/// Puts what differs from a table, whose blocks have an empty line between each two. Sources and sinks take pieces of this size.
pub(super) fn put_table(
    found: &mut String,
    alloc: Global,
    table: &str,
    piece: usize,
) -> Result<(), OutOfMemory> {
    let mut above = String::new(alloc);
    for block in table.trim_end().split("\n\n") {
        let text = repeated(alloc, block)?;
        put_block(found, alloc, text.as_str(), piece, &mut above)?;
    }
    Ok(())
}
