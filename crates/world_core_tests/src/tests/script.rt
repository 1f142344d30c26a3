//! Entries of lines.
ghost use Rattle.std.specs.List.{All};
ghost use Rattle.task_model.specs.Running.State.{IsSeat};

use input_lines::{Line, parse_line};
use std::alloc::Global;
use std::marker::Model;
use task_model::{Entry, OutOfMemory, Row, SEAT_LIMIT};

/// The entries that lines ask for, of seats that there are.
#[derive(Drop)]
pub(super) struct Script {
    entries: Row<Entry>,
}

impl Model for Script {
    ghost Value = { Unit {0} };

    ghost view = { λ s. tt };

    ghost invariant = { λ s. All (λ e. IsSeat e.seat) s.entries.list };
}

impl Script {
    /// A line that asks for no entry is passed over, and a bad one is as want of memory.
    pub(super) fn of(alloc: Global, lines: &str) -> Result<Script, OutOfMemory> {
        let mut script = Script {
            entries: Row::new(alloc),
        };
        for line in lines.split('\n') {
            script.push_line(alloc, line)?;
        }
        Ok(script)
    }

    fn push_line(&mut self, alloc: Global, line: &str) -> Result<(), OutOfMemory> {
        match parse_line(alloc, line.as_bytes()) {
            Ok(Line::Act(entry)) => self.push(entry),
            Ok(_) => Ok(()),
            Err(_) => Err(OutOfMemory),
        }
    }

    fn push(&mut self, entry: Entry) -> Result<(), OutOfMemory> {
        if entry.seat < 1 || entry.seat > SEAT_LIMIT {
            return Ok(());
        }
        self.entries.push(entry)?;
        Ok(())
    }

    pub(super) fn entries(&self) -> &[Entry]
        ensures { All (λ e. IsSeat e.seat) result.now }
    {
        self.entries.as_slice()
    }
}
