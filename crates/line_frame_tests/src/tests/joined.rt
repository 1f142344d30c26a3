use super::counter::Counter;
use super::judge::Judge;
use super::{row, told};
use line_frame::{Finish, run_script};
use outer_io::{MemSink, MemSource};
use std::alloc::Global;
use std::test::Fail;
use task_model::OutOfMemory;

// How a script ends that is read in pieces of this size, and in how many writes how many bytes are written, where each
// answer has this size.
fn counted(
    alloc: Global,
    script: &[u8],
    piece: usize,
    size: usize,
) -> Result<(Finish, u64, usize), OutOfMemory> {
    let mut input = MemSource::new(row(alloc, script)?, piece.max(1), row(alloc, &[])?);
    let mut out = Counter {
        writes: 0,
        bytes: 0,
    };
    let finish = run_script(alloc, &mut Judge { size }, &mut input, &mut out, 99);
    Ok((finish, out.writes, out.bytes))
}

const SIX: &[u8] = b"a\nb\nc\nd\ne\nf\n";

const TWELVE: &[u8] = b"a\nb\nc\nd\ne\nf\ng\nh\ni\nj\nk\nl\n";

const COUNTS: &[(&[u8], usize, usize, u64, usize)] = &[
    (SIX, 99, 3, 1, 18),
    (SIX, 6, 3, 2, 18),
    (SIX, 4, 3, 3, 18),
    (SIX, 1, 3, 6, 18),
    (SIX, 99, 0, 0, 0),
    (SIX, 99, 8191, 1, 49146),
    (SIX, 99, 8192, 6, 49152),
    (b"a\nb\nc", 99, 3, 2, 9),
    (TWELVE, 99, 8000, 2, 96000),
];

#[test]
fn the_lines_of_one_piece_are_answered_in_one_write(rt: HostRuntime) -> Result<(), Fail> {
    for (script, piece, size, writes, bytes) in COUNTS {
        let told = counted(rt.alloc(), script, *piece, *size)?;
        assert_eq!(rt; told, (Finish::Done, *writes, *bytes));
    }
    Ok(())
}

// What comes of a script in one piece, with answers of two bytes. A write takes at most three bytes, and the one of this number fails.
fn answered(alloc: Global, script: &[u8], write: u64) -> Result<String, OutOfMemory> {
    let mut input = MemSource::new(row(alloc, script)?, 99, row(alloc, &[])?);
    let mut out = MemSink::new(alloc, 3, row(alloc, &[write])?);
    let finish = run_script(alloc, &mut Judge { size: 2 }, &mut input, &mut out, 9);
    told(alloc, finish, &out)
}

// What is due is written before a run ends, and a write that fails ends it in the middle of the answers.
const ANSWERS: &[(&[u8], u64, &str)] = &[
    (b"a\nb\n!\nc\n", 0, "Bad { line: 3, column: 7 } yyyy"),
    (b"a\nb\n?\nc\n", 0, "Memory yyyy"),
    (b"a\nb\nc\nd\ne\n", 0, "InputTooLong yyyyyyyy"),
    (b"a\nb\nc", 0, "Done yyyyyy"),
    (b"a\nb\n!", 0, "Bad { line: 3, column: 7 } yyyy"),
    (b"a\nb\nc\n", 1, "WriteFault "),
    (b"a\nb\nc\n", 2, "WriteFault yyy"),
    (b"a\nb\n!\nc\n", 1, "WriteFault "),
    (b"a\nb\n!\nc\n", 2, "WriteFault yyy"),
    (b"a\nb\n?\nc\n", 1, "WriteFault "),
    (b"a\nb\n?\nc\n", 2, "WriteFault yyy"),
    (b"a\nb\nc\nd\ne\n", 1, "WriteFault "),
    (b"a\nb\nc\nd\ne\n", 2, "WriteFault yyy"),
];

#[test]
fn what_is_due_is_written_before_a_run_ends(rt: HostRuntime) -> Result<(), Fail> {
    for (script, write, want) in ANSWERS {
        let told = answered(rt.alloc(), script, *write)?;
        assert_eq!(rt; told.as_str(), *want);
    }
    Ok(())
}
