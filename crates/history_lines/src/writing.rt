ghost use Rattle.std.specs.Prelude.{◌≡◌, ◌≤◌, ◌∷◌, []};
ghost use Rattle.task_model.specs.Terms.Input.{entry_term};
ghost use Rattle.task_model.specs.Terms.Item.{history_term, item_term, took};
ghost use Rattle.outer_io.specs.Causes.{Rose};
ghost use Rattle.history_lines.specs.EntryLines.{WroteEntries, faults_after_entries};

use crate::EntriesWritten;
use input_lines::print_entry;
use outer_io::{Sink, Written, write_all};
use std::alloc::Global;
use task_model::{Entry, Item, OutOfMemory};

/// Writes the entries of a history, each as the line that `run` takes, with its LF, one after the other. It stops at a write that fails,
/// and takes memory for one line at a time.
pub fn write_entries<O: Sink>(alloc: Global, items: &[Item], out: &mut O) -> EntriesWritten
    ensures bytes { WroteEntries (O.taken out.old) (O.taken out.new) (history_term items.now) result }
    ensures count { O.faults out.old ≤ O.faults out.new }
    ensures failed { result ≡ EntriesWritten.Failed → Rose (O.faults out.old) (O.faults out.new) }
    ensures exact { O.faults out.new ≡ faults_after_entries (O.faults out.old) result }
    ensures beside { O.beside out.new ≡ O.beside out.old }
{
    for item in items {
        match write_item(alloc, item, out) {
            EntriesWritten::Whole => {}
            EntriesWritten::Failed => return EntriesWritten::Failed,
            EntriesWritten::Memory => return EntriesWritten::Memory,
        }
    }
    EntriesWritten::Whole
}

// Writes the line of an item, if it is an entry.
fn write_item<O: Sink>(alloc: Global, item: &Item, out: &mut O) -> EntriesWritten
    ensures bytes { WroteEntries (O.taken out.old) (O.taken out.new) (item_term item.now ∷ []) result }
    ensures count { O.faults out.old ≤ O.faults out.new }
    ensures failed { result ≡ EntriesWritten.Failed → Rose (O.faults out.old) (O.faults out.new) }
    ensures exact { O.faults out.new ≡ faults_after_entries (O.faults out.old) result }
    ensures beside { O.beside out.new ≡ O.beside out.old }
{
    match item {
        Item::Opened { .. } => EntriesWritten::Whole,
        Item::Took(entry) => write_entry(alloc, entry, out),
    }
}

// Writes the line of an entry.
fn write_entry<O: Sink>(alloc: Global, entry: &Entry, out: &mut O) -> EntriesWritten
    ensures bytes { WroteEntries (O.taken out.old) (O.taken out.new) (took (entry_term entry.now) ∷ []) result }
    ensures count { O.faults out.old ≤ O.faults out.new }
    ensures failed { result ≡ EntriesWritten.Failed → Rose (O.faults out.old) (O.faults out.new) }
    ensures exact { O.faults out.new ≡ faults_after_entries (O.faults out.old) result }
    ensures beside { O.beside out.new ≡ O.beside out.old }
{
    match print_entry(alloc, entry) {
        Ok(line) => match write_all(out, line.as_str().as_bytes()) {
            Written::Whole => EntriesWritten::Whole,
            Written::Failed => EntriesWritten::Failed,
        },
        Err(OutOfMemory) => EntriesWritten::Memory,
    }
}
