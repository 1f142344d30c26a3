//! Connections over links in memory, as text.
ghost use Rattle.std.specs.Prelude.{◌≡◌, ◌<◌};

use super::cases::{HTML, PLAIN, PROGRAM};
use outer_io::{Link, MemLink, MemSink, MemSource};
use session_gate::{Trace, serve_connection};
use std::alloc::Global;
use std::marker::Brand;
use std::sync::Wait;
use std::sync::ledger::{Blank, Ledger};
use task_model::{OutOfMemory, Row};
use testing_desks::SoloDesk;
use testing_programs::repeated;

/// How bytes go over a link: the most at once both ways, and the number of the read and of the write that fails, from 1 on, if any does.
#[derive(Clone, Copy)]
pub(super) struct Wire {
    pub(super) gives: usize,
    pub(super) takes: usize,
    pub(super) failing_read: u64,
    pub(super) failing_write: u64,
}

impl Wire {
    /// Pieces of so many bytes both ways, of which none fails.
    pub(super) fn whole(piece: usize) -> Wire {
        Wire {
            gives: piece,
            takes: piece,
            failing_read: 0,
            failing_write: 0,
        }
    }

    // A link that gives these bytes.
    fn link(self, alloc: Global, sent: &[u8]) -> Result<MemLink, OutOfMemory> {
        let mut bytes = Row::new(alloc);
        bytes.extend(sent)?;
        let mut reads = Row::new(alloc);
        reads.push(self.failing_read)?;
        let mut writes = Row::new(alloc);
        writes.push(self.failing_write)?;
        let source = MemSource::new(bytes, self.gives.max(1), reads);
        let sink = MemSink::new(alloc, self.takes.max(1), writes);
        Ok(MemLink::new(source, sink))
    }
}

// How a connection at a desk over a new world ends, and its notes.
fn told_at<L: Ledger, K: Link, R: Wait>(
    rt: &R,
    alloc: Global,
    link: &mut K,
    blank: Blank,
) -> Result<String, OutOfMemory>
    requires name { blank.name ≡ L.name }
    requires parts { blank.parts ≡ L.parts }
    requires some { 0 < blank.parts }
{
    let mut desk = SoloDesk::<L>::open(alloc, PROGRAM, blank)?;
    let mut trace = Trace::new(alloc)?;
    desk.shows_legal();
    let ending = serve_connection(rt, alloc, &mut desk, link, &mut trace);
    let mut text = format!(in alloc; "{ending:?}")?;
    for note in trace.notes() {
        let note = format!(in alloc; " {:?} {}", note.kind, note.version)?;
        text.push_str(note.as_str())?;
    }
    text.push('\n')?;
    Ok(text)
}

// How a connection over this link ends, and its notes.
fn told<K: Link, R: Wait>(rt: &R, alloc: Global, link: &mut K) -> Result<String, OutOfMemory> {
    told_at::<Brand, K, R>(rt, alloc, link, Blank::new(1))
}

// The same, and what a link has then taken.
fn with_taken(told: String, taken: &[u8]) -> Result<String, OutOfMemory> {
    let mut text = told;
    match str::from_utf8(taken) {
        Ok(taken) => text.push_str(taken)?,
        Err(_) => text.push_str("no text")?,
    }
    Ok(text)
}

// What comes of a connection on which this was sent.
fn served<R: Wait>(rt: &R, alloc: Global, sent: &[u8], wire: Wire) -> Result<String, OutOfMemory> {
    let mut link = wire.link(alloc, sent)?;
    let told = told(rt, alloc, &mut link)?;
    with_taken(told, link.taken())
}

// The text that a field of a row stands for.
fn bytes_of(alloc: Global, field: &str) -> Result<String, OutOfMemory> {
    let mut text = String::new(alloc);
    for c in repeated(alloc, field)?.chars() {
        match c {
            '~' => text.push_str("\r\n")?,
            '^' => text.push('\n')?,
            '`' => text.push('\r')?,
            '§' => text.push_str(HTML)?,
            '¶' => text.push_str(PLAIN)?,
            _ => text.push(c)?,
        }
    }
    Ok(text)
}

// Puts what comes of a row, if it isn't what the row says.
fn put_row<R: Wait>(
    found: &mut String,
    rt: &R,
    alloc: Global,
    row: &str,
    wire: Wire,
) -> Result<(), OutOfMemory> {
    let (sent, wants) = row.split_once(" => ").unwrap_or((row, ""));
    let sent = bytes_of(alloc, sent)?;
    let got = served(rt, alloc, sent.as_bytes(), wire)?;
    let wants = bytes_of(alloc, wants)?;
    if got.as_str() != wants.as_str() {
        write!(found, "{row}\n is {}\n", got.as_str())?;
    }
    Ok(())
}

/// Puts what differs from a table.
pub(super) fn put_table<R: Wait>(
    found: &mut String,
    rt: &R,
    alloc: Global,
    table: &str,
    wire: Wire,
) -> Result<(), OutOfMemory> {
    for row in table.split('\n') {
        put_row(found, rt, alloc, row, wire)?;
    }
    Ok(())
}
