ghost use Rattle.std.specs.Prelude.{◌≡◌, [], ◌∷◌, ◌<◌, ◌^◌, ⊤};
ghost use Rattle.std.specs.List.{flat_map};

mod counter;
mod joined;
mod judge;

use line_frame::{Finish, LineStop, Machine, run_script};
use outer_io::{Got, MemSink, MemSource, Source};
use std::alloc::Global;
use std::test::Fail;
use task_model::{OutOfMemory, Row};

/// A machine that answers each line with the same two bytes.
#[derive(Drop)]
struct Yes;

impl Machine for Yes {
    ghost LONGEST = { 3 };

    const LONGEST: usize = 3;

    ghost tells = { λ _ _ lines finish told. told ≡ record { output = flat_map (λ _. 121 ∷ 10 ∷ []) lines; finish = finish } };

    // Nothing is said of what becomes of it.
    ghost takes = { λ _ _ _ _. ⊤ };

    ghost stops = { λ _ _. ⊤ };

    fn run_line(&mut self, alloc: Global, _line: &[u8]) -> Result<Row<u8>, LineStop> {
        let mut text = Row::new(alloc);
        match text.extend(b"y\n") {
            Ok(()) => Ok(text),
            Err(_) => Err(LineStop::Memory),
        }
    }

    ghost no_lines = { λ _ _ _ _ is. is };
}

fn row<T: Copy + Drop>(alloc: Global, items: &[T]) -> Result<Row<T>, OutOfMemory> {
    let mut row = Row::new(alloc);
    for item in items {
        row.push(*item)?;
    }
    Ok(row)
}

// How many bytes a source has left, if few.
fn left<I: Source>(input: &mut I) -> u64 {
    let mut room = [0u8; 16];
    let mut count: u64 = 0;
    for _ in 0..8 {
        if let Got::Took(some) = input.read(&mut room) {
            count = count.saturating_add(some as u64);
        }
    }
    count
}

/// How a run ends, and what a sink then has taken.
fn told(alloc: Global, finish: Finish, out: &MemSink) -> Result<String, OutOfMemory> {
    let taken = String::from_utf8_lossy(alloc, out.taken())?;
    Ok(format!(in alloc; "{finish:?} {}", taken.as_str())?)
}

// The size of the pieces of a script and its limit, and the numbers of the read and of the write that fail.
type Run = (usize, u64, u64, u64);

// What comes of four lines, the last of which has no LF.
fn ran(alloc: Global, run: Run) -> Result<String, OutOfMemory> {
    let (piece, limit, read, write) = run;
    let script = row(alloc, b"a\nlong line\n\nd")?;
    let mut input = MemSource::new(script, piece.max(1), row(alloc, &[read])?);
    let mut out = MemSink::new(alloc, 9, row(alloc, &[write])?);
    let finish = run_script(alloc, &mut Yes, &mut input, &mut out, limit.min(99));
    told(alloc, finish, &out)
}

const RUNS: &[(Run, &str)] = &[
    ((1, 14, 0, 0), "Done y\ny\ny\ny\n"),
    ((5, 14, 0, 0), "Done y\ny\ny\ny\n"),
    ((99, 14, 0, 0), "Done y\ny\ny\ny\n"),
    ((1, 13, 0, 0), "InputTooLong y\ny\ny\n"),
    ((5, 13, 0, 0), "InputTooLong y\ny\ny\n"),
    ((99, 13, 0, 0), "InputTooLong y\ny\ny\n"),
    ((1, 11, 0, 0), "InputTooLong y\n"),
    ((5, 11, 0, 0), "InputTooLong y\n"),
    ((99, 11, 0, 0), "InputTooLong y\n"),
    ((1, 99, 0, 2), "WriteFault y\n"),
    ((5, 99, 0, 2), "WriteFault y\n"),
    ((99, 99, 0, 1), "WriteFault "),
    ((99, 99, 0, 2), "WriteFault y\ny\ny\n"),
    ((5, 99, 2, 0), "ReadFault y\n"),
    ((99, 99, 2, 0), "ReadFault y\ny\ny\n"),
];

#[test]
fn a_script_is_run_in_pieces_of_any_size(rt: HostRuntime) -> Result<(), Fail> {
    for (run, want) in RUNS {
        assert_eq!(rt; ran(rt.alloc(), *run)?.as_str(), *want, "{run:?}");
    }
    Ok(())
}

// Three lines of two bytes, in pieces of this size; the write of this number fails. How many bytes are then left.
fn stopped_at(alloc: Global, piece: usize, write: u64) -> Result<(Finish, u64), OutOfMemory>
    requires { 0 < piece }
{
    let mut input = MemSource::new(row(alloc, b"a\nb\nc\n")?, piece, row(alloc, &[])?);
    let mut out = MemSink::new(alloc, 9, row(alloc, &[write])?);
    let finish = run_script(alloc, &mut Yes, &mut input, &mut out, 99);
    Ok((finish, left(&mut input)))
}

#[test]
fn nothing_is_read_before_what_came_is_answered(rt: HostRuntime) -> Result<(), Fail> {
    let table: [(usize, u64, u64); 9] = [
        (2, 1, 4),
        (2, 2, 2),
        (2, 3, 0),
        (1, 1, 4),
        (3, 1, 3),
        (3, 2, 0),
        (4, 1, 2),
        (4, 2, 0),
        (6, 1, 0),
    ];
    for (piece, write, want) in table {
        assert_eq!(rt;
            stopped_at(rt.alloc(), piece, write)?,
            (Finish::WriteFault, want)
        );
    }
    Ok(())
}
