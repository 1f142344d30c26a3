ghost use Rattle.std.specs.Prelude.{◌<◌};

use history_journal::{Journal, KeepStop, create};
use input_lines::{Line, parse_line};
use outer_disks::MemDisk;
use std::alloc::Global;
use std::test::Fail;
use task_model::{OutOfMemory, Row};
use testing_programs::accepted;

const PROGRAM: &str = "task main() : int = enter int >>? x . edit (x + 1)";

// The first gate behind the opening and one entry stands at this byte.
const GATE: usize = 80;

// A journal of the program, over a disk in memory one of whose calls fails.
fn opened(alloc: Global, failing: u64) -> Result<Journal<MemDisk>, OutOfMemory> {
    let mut calls = Row::new(alloc);
    calls.push(failing)?;
    let disk = MemDisk::new(alloc, Row::new(alloc), calls);
    let checked = accepted(alloc, PROGRAM)?;
    match create(alloc, disk, checked, 10_000) {
        Ok(journal) => Ok(journal),
        Err(_) => Err(OutOfMemory),
    }
}

// What becomes of the entry of a line. None: it is no entry.
fn given(
    alloc: Global,
    journal: &mut Journal<MemDisk>,
    line: &str,
) -> Option<Result<u64, KeepStop>> {
    match parse_line(alloc, line.as_bytes()) {
        Ok(Line::Act(entry)) => match journal.handle(alloc, entry.seat, entry.input) {
            Ok(taken) => Some(Ok(taken.version)),
            Err(stop) => Some(Err(stop)),
        },
        _ => None,
    }
}

#[test]
fn one_entry(rt: HostRuntime) -> Result<(), Fail> {
    let alloc = rt.alloc();
    let mut journal = opened(alloc, 0)?;
    assert!(rt; given(alloc, &mut journal, "1 . set 4") == Some(Ok(1)));
    assert!(rt; given(alloc, &mut journal, "1 .FS next") == Some(Err(KeepStop::NotOffered)));
    let disk = journal.finish();
    let bytes = disk.bytes();
    assert!(rt; bytes.len() == 81, "{}", bytes.len());
    assert!(rt; bytes.starts_with(&[1, 0, 0, 0, 61, b'1', b'0', b'0', b'0', b'0', b'\n']));
    assert!(rt; bytes.ends_with(b"\x01\x00\x00\x00\x091 . set 4\x00"));
    Ok(())
}

// Whether the second entry counts after a crash, where the call of this number fails.
fn counts(alloc: Global, failing: u64, choice: u8) -> Result<bool, OutOfMemory>
    requires { choice < 3 }
{
    let mut journal = opened(alloc, failing)?;
    given(alloc, &mut journal, "1 . set 4");
    given(alloc, &mut journal, "1 . next");
    let disk = journal.finish().crashed(choice);
    Ok(disk.bytes().get(GATE) == Some(&1))
}

// An entry is four calls of the disk, after the four of the making and the four of the first entry.
#[test]
fn stops(rt: HostRuntime) -> Result<(), Fail> {
    let alloc = rt.alloc();
    assert!(rt; !counts(alloc, 9, 0)? && !counts(alloc, 9, 1)? && !counts(alloc, 9, 2)?);
    assert!(rt; !counts(alloc, 10, 0)? && !counts(alloc, 10, 1)? && !counts(alloc, 10, 2)?);
    assert!(rt; !counts(alloc, 11, 0)? && !counts(alloc, 11, 1)? && !counts(alloc, 11, 2)?);
    assert!(rt; !counts(alloc, 12, 0)? && counts(alloc, 12, 1)? && counts(alloc, 12, 2)?);
    assert!(rt; counts(alloc, 13, 0)? && counts(alloc, 13, 1)? && counts(alloc, 13, 2)?);
    Ok(())
}

// After a fault no more is taken, and the disk is asked for nothing.
#[test]
fn closed(rt: HostRuntime) -> Result<(), Fail> {
    let alloc = rt.alloc();
    let mut journal = opened(alloc, 5)?;
    assert!(rt; given(alloc, &mut journal, "1 . set 4") == Some(Err(KeepStop::DiskFault)));
    assert!(rt; given(alloc, &mut journal, "1 . set 4") == Some(Err(KeepStop::Closed)));
    assert!(rt; journal.world().version() == 0);
    assert!(rt; journal.finish().faults() == 1);
    Ok(())
}
