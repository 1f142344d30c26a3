//! What lines come to at worlds, with exact units.

use super::bench::WorldBench;
use super::script::Script;
use std::alloc::Global;
use task_model::OutOfMemory;
use testing_programs::repeated;
use world_core::{OpenStop, Reply};

// The reply to the last of these lines, with the state where it was taken, or the state where there is no line.
fn told_at(alloc: Global, bench: &mut WorldBench, lines: &str) -> Result<String, OutOfMemory> {
    let script = Script::of(alloc, lines)?;
    let mut last = None;
    for entry in script.entries() {
        last = Some(bench.handle(alloc, entry)?);
    }
    let state = bench.state_text(alloc)?;
    match last {
        None => Ok(state),
        Some(Reply::Taken(version)) => Ok(format!(in alloc; "taken {version}@{}", state.as_str())?),
        Some(Reply::NotOffered) => Ok(String::from_str(alloc, "not offered")?),
        Some(Reply::Over) => Ok(String::from_str(alloc, "over")?),
    }
}

/// The same at a world that is opened within a budget.
pub(super) fn told(
    alloc: Global,
    source: &str,
    budget: u32,
    lines: &str,
) -> Result<String, OutOfMemory> {
    match WorldBench::open(alloc, source, budget) {
        Ok(mut bench) => told_at(alloc, &mut bench, lines),
        Err(OpenStop::Over) => Ok(String::from_str(alloc, "opening over")?),
        Err(OpenStop::Memory) => Err(OutOfMemory),
    }
}

/// The last of some lines, of a program.
#[derive(Clone, Copy)]
struct Case<'c> {
    alloc: Global,
    source: &'c str,
    lines: &'c str,
}

impl Case<'_> {
    // Puts what it comes to within a budget, where that isn't what is wanted.
    fn put_difference(
        &self,
        found: &mut String,
        budget: u32,
        wanted: &str,
    ) -> Result<(), OutOfMemory> {
        let told = told(self.alloc, self.source, budget, self.lines)?;
        if told.as_str() != wanted {
            let (source, lines) = (self.source, self.lines);
            write!(found, "{source}\n{lines}\nat {budget}: {}\n", told.as_str())?;
        }
        Ok(())
    }

    // The same with just so many units, and that it is over with one fewer.
    fn put_exact(&self, found: &mut String, units: u32, wanted: &str) -> Result<(), OutOfMemory> {
        self.put_difference(found, units, wanted)?;
        if units < 2 {
            return Ok(());
        }
        let over = if self.lines.is_empty() {
            "opening over"
        } else {
            "over"
        };
        self.put_difference(found, units - 1, over)
    }

    // Puts what differs from a row: behind its line, the units that it takes, if they are said, and what it comes to.
    fn put_row(&self, found: &mut String, budget: u32, row: &str) -> Result<(), OutOfMemory> {
        let (units, wanted) = row.split_once('@').unwrap_or((row, ""));
        self.put_difference(found, budget, wanted)?;
        match units.parse::<u32>() {
            Ok(units) => self.put_exact(found, units, wanted),
            Err(_) => Ok(()),
        }
    }
}

// Puts what differs from a row below these lines, and its line behind them.
fn put_line(
    found: &mut String,
    alloc: Global,
    source: &str,
    budget: u32,
    lines: &mut String,
    row: &str,
) -> Result<(), OutOfMemory> {
    let row = repeated(alloc, row)?;
    let (line, rest) = row.as_str().split_once('@').unwrap_or((row.as_str(), ""));
    lines.push_str(line)?;
    let case = Case {
        alloc,
        source,
        lines: lines.as_str(),
    };
    case.put_row(found, budget, rest)?;
    lines.push('\n')?;
    Ok(())
}

// Puts what differs from the rows of a program.
fn put_block(found: &mut String, alloc: Global, block: &str) -> Result<(), OutOfMemory> {
    let (head, rows) = block.split_once('\n').unwrap_or((block, ""));
    let (budget, source) = head.split_once('@').unwrap_or((head, ""));
    let budget = budget.parse::<u32>().unwrap_or(0);
    let source = repeated(alloc, source)?;
    let mut lines = String::new(alloc);
    for row in rows.split('\n') {
        put_line(found, alloc, source.as_str(), budget, &mut lines, row)?;
    }
    Ok(())
}

/// Puts what differs from a table.
pub(super) fn put_table(found: &mut String, alloc: Global, table: &str) -> Result<(), OutOfMemory> {
    for block in table.split("\n\n") {
        put_block(found, alloc, block)?;
    }
    Ok(())
}
