ghost use Rattle.std.specs.Prelude.{◌≡◌, ℕ, List};
ghost use Rattle.task_model.specs.Terms.Program.{ProgramTerm, program_term};
ghost use Rattle.task_model.specs.Syntax.ProgramText.{IsProgramText};
ghost use Rattle.task_model.specs.Syntax.Written.{IsWritten};
ghost use Rattle.task_model.specs.Checking.TypeKind.{type_kind_term};
ghost use Rattle.tophat.specs.Verdict.{Judges, Refuses, node_place};

use crate::no_world::NoWorld;
use crate::refusal::Refusal;
use crate::type_fault::fault_text;
use host_types::{CheckStop, check};
use std::alloc::Global;
use task_model::{Checked, OutOfMemory, TypeKind};
use task_reader::{Read, ReadStop, read_program};

/// The accepted program of these bytes with its types, or why there is none: the first fault of their text, the first fault of the
/// program's types, or want of memory.
pub fn verdict_on(alloc: Global, bytes: &[u8]) -> Result<Checked, NoWorld>
    ensures { Judges bytes.now result }
{
    match read_program(alloc, bytes) {
        Ok(read) => judge(alloc, bytes, read),
        Err(ReadStop::Fault { place, kind }) => Err(NoWorld::Refused {
            place,
            refusal: Refusal::Read(kind),
        }),
        Err(ReadStop::Memory) => Err(NoWorld::Memory),
    }
}

// The program that these bytes were read as.
fn judge(alloc: Global, bytes: &[u8], read: Read) -> Result<Checked, NoWorld>
    requires written { IsWritten (program_term read.program) }
    requires found { IsProgramText bytes.now (program_term read.program) read.places.list }
    requires only { (p : ProgramTerm) (places : List ℕ) → IsProgramText bytes.now p places → (p ≡ program_term read.program)
        × (places ≡ read.places.list) }
    ensures { Judges bytes.now result }
{
    let Read { program, places } = read;
    match check(alloc, program) {
        Ok(checked) => Ok(checked),
        Err(CheckStop::Fault { node, kind }) => {
            Err(refused(alloc, place_of(bytes, places.as_slice(), node), &kind))
        }
        Err(CheckStop::Memory) => Err(NoWorld::Memory),
    }
}

// The refusal of a program whose types have this first fault, at this byte.
fn refused(alloc: Global, place: u64, kind: &TypeKind) -> NoWorld
    ensures { Refuses place (type_kind_term kind.now) result }
{
    match fault_text(alloc, kind) {
        Ok(text) => NoWorld::Refused {
            place,
            refusal: Refusal::Typed(text),
        },
        Err(OutOfMemory) => NoWorld::Memory,
    }
}

// The place of a node, or the end of the text behind the last one.
fn place_of(bytes: &[u8], places: &[u64], node: u64) -> u64
    ensures { result ≡ node_place bytes.now places.now node }
{
    match places.get(node as usize) {
        Some(place) => *place,
        None => bytes.len() as u64,
    }
}
