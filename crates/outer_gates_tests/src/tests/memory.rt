ghost use Rattle.std.specs.Prelude.{All, IfOk};
ghost use Rattle.outer_io.specs.Links.{IsFresh};
ghost use Rattle.outer_io.specs.MemLinks.{told_in_memory};

use outer_gates::{Accept, Gate, MemGate};
use outer_io::{Link, MemLink, MemSink, MemSource, Put, Sink};
use std::alloc::Global;
use std::collections::VecDeque;
use std::test::Fail;
use task_model::{OutOfMemory, Row};

fn link(alloc: Global) -> MemLink
    ensures { IsFresh (told_in_memory result) }
{
    let source = MemSource::new(Row::new(alloc), 1, Row::new(alloc));
    MemLink::new(source, MemSink::new(alloc, 9, Row::new(alloc)))
}

pub(crate) fn two_links(alloc: Global) -> Result<VecDeque<MemLink>, OutOfMemory>
    ensures { IfOk result (λ links. All (λ l. IsFresh (told_in_memory l)) links.items) }
{
    let mut links = VecDeque::new(alloc);
    links.push_back(link(alloc))?;
    links.push_back(link(alloc))?;
    Ok(links)
}

fn call(alloc: Global, number: u64) -> Result<Row<u64>, OutOfMemory> {
    let mut row = Row::new(alloc);
    row.push(number)?;
    Ok(row)
}

// What an answer is, in a word. A link takes this text and goes back.
fn answered(gate: &mut MemGate, text: &[u8]) -> &'static str {
    if text.is_empty() {
        return "nothing";
    }
    match gate.accept() {
        Accept::Link(mut link) => {
            let put = link.write(text);
            link.shut();
            gate.finish(link);
            if put == Put::Took(text.len()) {
                "link"
            } else {
                "short"
            }
        }
        Accept::Closed => "closed",
        Accept::Failed => "failed",
    }
}

// What a gate of two links answers in turn, and what they took.
fn told(gate: &mut MemGate, alloc: Global) -> Result<String, OutOfMemory> {
    let mut text = String::new(alloc);
    for bytes in [b"one".as_slice(), b"lost", b"two", b"lost"] {
        text.push_str(answered(gate, bytes))?;
        text.push(' ')?;
    }
    for link in gate.finished() {
        text.push_str(str::from_utf8(link.taken()).unwrap_or("no text"))?;
        text.push(' ')?;
    }
    Ok(text)
}

#[test]
fn a_gate_in_memory_gives_its_links_in_order(rt: HostRuntime) -> Result<(), Fail> {
    let alloc = rt.alloc();
    let mut gate = MemGate::new(alloc, two_links(alloc)?, call(alloc, 2)?)?;
    let told = told(&mut gate, alloc)?;
    assert_eq!(rt; told.as_str(), "link failed link closed one two ");
    Ok(())
}
