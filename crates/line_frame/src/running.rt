ghost use Rattle.std.specs.Prelude.{◌≡◌, ◌<◌, ◌≤◌, ◌^◌};
ghost use Rattle.outer_io.specs.Causes.{Rose};
ghost use Rattle.line_frame.specs.RunFaults.{read_faults_after_run, write_faults_after_run};
ghost use Rattle.line_frame.specs.RanScript.{RanScript};
ghost use Rattle.line_frame.specs.Machines.{RanMachine};

use crate::cursor::Cursor;
use crate::lines::{end_script, take_piece};
use crate::{Finish, Machine};
use outer_io::{Got, Sink, Source};
use std::alloc::Global;

// How many bytes one read of a script gives at most.
const PIECE: usize = 65536;

/// Runs the lines of a script: each line is run before the next is judged, and its answer written before more is read.
///
/// The run ends at the first line outside the grammar (`Bad`), at the first byte beyond `limit` bytes
/// (`InputTooLong`), at the first read or write that fails, at want of memory, or where the script
/// does (`Done`). Lines that end within the bytes that were read before are answered; the answers to lines
/// that end within one read go out together. Memory is taken for what is kept of a line, for the answers
/// that are due, and by the machine. Want of it for those answers ends nothing: they are written.
pub fn run_script<M: Machine, I: Source, O: Sink>(
    alloc: Global,
    machine: &mut M,
    input: &mut I,
    out: &mut O,
    limit: u64,
) -> Finish
    requires { limit < 2 ^ 63 }
    ensures ran { RanScript (M.tells machine.old 1) limit (I.left input.old) (I.left input.new) (O.taken out.old) (O.taken out.new) result }
    ensures machine { RanMachine M.takes M.stops machine.old machine.new (O.taken out.old) (O.taken out.new) }
    ensures read_count { I.faults input.old ≤ I.faults input.new }
    ensures read_failed { result ≡ Finish.ReadFault → Rose (I.faults input.old) (I.faults input.new) }
    ensures write_count { O.faults out.old ≤ O.faults out.new }
    ensures write_failed { result ≡ Finish.WriteFault → Rose (O.faults out.old) (O.faults out.new) }
    ensures read_exact { I.faults input.new ≡ read_faults_after_run (I.faults input.old) result }
    ensures write_exact { O.faults out.new ≡ write_faults_after_run (O.faults out.old) result }
{
    let mut room = [0u8; PIECE];
    let mut cursor = Cursor::new(alloc);
    'script: loop {
        match input.read(&mut room) {
            Got::Took(count) => {
                let piece = &room[..count];
                if let Some(finish) = take_piece(alloc, machine, out, &mut cursor, limit, piece) {
                    return finish;
                }
            }
            Got::End => return end_script(alloc, machine, out, &mut cursor),
            Got::Failed => return Finish::ReadFault,
        }
    }
}
