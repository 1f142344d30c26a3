ghost use Rattle.std.specs.Prelude.{◌≡◌, ◌+◌, ◌<◌, ◌≤◌, ◌^◌, ℕ, List, Option, [], ◌∷◌, ◌++◌, length, IfNone, IfOk, MatchOption, MatchResult, None, Some, Err, OnOk, slice_index, take};
ghost use Rattle.outer_io.specs.Causes.{Rose};
ghost use Rattle.line_frame.specs.Told.{Told, Comes};
ghost use Rattle.line_frame.specs.RunFaults.{write_faults_after_run};
ghost use Rattle.line_frame.specs.RanOut.{IsLine};
ghost use Rattle.line_frame.specs.Machines.{GoesOver, StopsOver};
ghost use Rattle.line_frame.specs.Stands.{Goes, RunsLine, EndsAt, EndsScript};
ghost use Rattle.line_frame.specs.declared.finish.Finish.{Finish};

use crate::cursor::Cursor;
use crate::due::Due;
use crate::{Finish, LineStop, Machine};
use memchr::memchr;
use outer_io::{Sink, Written};
use std::alloc::Global;

/// Takes the next bytes of a script: each line that ends is run, and at the end all answers are written. None: go on.
pub(crate) fn take_piece<M: Machine, O: Sink>(
    alloc: Global,
    machine: &mut M,
    out: &mut O,
    cursor: &mut Cursor,
    limit: u64,
    piece: &[u8],
) -> Option<Finish>
    requires { limit < 2 ^ 63 }
    ensures goes { Goes M.tells machine.old machine.new (O.taken out.old)
        (O.taken out.new) M.LONGEST limit cursor.old cursor.new piece.now result }
    ensures none_due { IfNone result (cursor.new.due.text.list ≡ []) }
    ensures counted { IfNone result ((cursor.new.count ≡ cursor.old.count + length piece.now)
        × (cursor.old.count ≤ limit → cursor.new.count ≤ limit)) }
    ensures machine { MatchOption result
        (GoesOver M.takes machine.old machine.new (O.taken out.old) (O.taken out.new) cursor.old.due.text.list cursor.new.due.text.list)
        (λ _. StopsOver M.takes M.stops machine.old machine.new (O.taken out.old) (O.taken out.new) cursor.old.due.text.list) }
    ensures count { O.faults out.old ≤ O.faults out.new }
    ensures failed { result ≡ Some Finish.WriteFault → Rose (O.faults out.old) (O.faults out.new) }
    ensures exact { MatchOption result (O.faults out.new ≡ O.faults out.old)
        (λ finish. O.faults out.new ≡ write_faults_after_run (O.faults out.old) finish) }
{
    let mut at = 0;
    while at < piece.len() {
        match take_line(alloc, machine, out, cursor, limit, &piece[at..]) {
            Ok(taken) => at += taken,
            Err(finish) => return Some(finish),
        }
    }
    match cursor.due.write(out) {
        Written::Whole => None,
        Written::Failed => Some(Finish::WriteFault),
    }
}

/// The end of a script: a last line without its LF is run.
pub(crate) fn end_script<M: Machine, O: Sink>(
    alloc: Global,
    machine: &mut M,
    out: &mut O,
    cursor: &mut Cursor,
) -> Finish
    ensures ends { EndsScript M.tells machine.old (O.taken out.old) (O.taken out.new) M.LONGEST cursor.old result }
    ensures machine { StopsOver M.takes M.stops machine.old machine.new (O.taken out.old) (O.taken out.new) cursor.old.due.text.list }
    ensures count { O.faults out.old ≤ O.faults out.new }
    ensures failed { result ≡ Finish.WriteFault → Rose (O.faults out.old) (O.faults out.new) }
    ensures exact { O.faults out.new ≡ write_faults_after_run (O.faults out.old) result }
{
    let line = cursor.kept.as_slice();
    if line.is_empty() {
        return cursor.due.end(out, Finish::Done);
    }
    match end_line(alloc, machine, out, &mut cursor.due, line, cursor.number) {
        Some(finish) => finish,
        None => cursor.due.end(out, Finish::Done),
    }
}

// Takes the next bytes of a script, up to the first LF among them. Ok: how many there are, go on.
fn take_line<M: Machine, O: Sink>(
    alloc: Global,
    machine: &mut M,
    out: &mut O,
    cursor: &mut Cursor,
    limit: u64,
    bytes: &[u8],
) -> Result<usize, Finish>
    requires room { limit < 2 ^ 63 }
    requires some { 0 < length bytes.now }
    ensures goes { MatchResult result
        (λ taken. Goes M.tells machine.old machine.new (O.taken out.old) (O.taken out.new) M.LONGEST limit cursor.old cursor.new
        (take taken bytes.now) None)
        (λ finish. Goes M.tells machine.old machine.new (O.taken out.old)
        (O.taken out.new) M.LONGEST limit cursor.old cursor.new bytes.now (Some finish)) }
    ensures some { IfOk result (λ taken. 0 < taken) }
    ensures fits { IfOk result (λ taken. taken ≤ length bytes.now) }
    ensures counted { IfOk result (λ taken. cursor.new.count ≡ cursor.old.count + taken) }
    ensures within { OnOk result (cursor.old.count ≤ limit → cursor.new.count ≤ limit) }
    ensures machine { MatchResult result
        (λ _. GoesOver M.takes machine.old machine.new (O.taken out.old) (O.taken out.new) cursor.old.due.text.list cursor.new.due.text.list)
        (λ _. StopsOver M.takes M.stops machine.old machine.new (O.taken out.old) (O.taken out.new) cursor.old.due.text.list) }
    ensures count { O.faults out.old ≤ O.faults out.new }
    ensures failed { result ≡ Err Finish.WriteFault → Rose (O.faults out.old) (O.faults out.new) }
    ensures exact { MatchResult result (λ _. O.faults out.new ≡ O.faults out.old)
        (λ finish. O.faults out.new ≡ write_faults_after_run (O.faults out.old) finish) }
{
    if cursor.kept.as_slice().is_empty() {
        let run = run_length(bytes);
        if run < bytes.len() && (run as u64) < limit.saturating_sub(cursor.count) {
            if let Some(finish) = take_whole(alloc, machine, out, cursor, &bytes[..run]) {
                return Err(finish);
            }
            return Ok(run + 1);
        }
    }
    take_part(alloc, machine, out, cursor, limit, bytes)
}

// The same of a line that was begun before, or whose end has not come.
fn take_part<M: Machine, O: Sink>(
    alloc: Global,
    machine: &mut M,
    out: &mut O,
    cursor: &mut Cursor,
    limit: u64,
    bytes: &[u8],
) -> Result<usize, Finish>
    requires room { limit < 2 ^ 63 }
    requires some { 0 < length bytes.now }
    ensures goes { MatchResult result
        (λ taken. Goes M.tells machine.old machine.new (O.taken out.old) (O.taken out.new) M.LONGEST limit cursor.old cursor.new
        (take taken bytes.now) None)
        (λ finish. Goes M.tells machine.old machine.new (O.taken out.old)
        (O.taken out.new) M.LONGEST limit cursor.old cursor.new bytes.now (Some finish)) }
    ensures some { IfOk result (λ taken. 0 < taken) }
    ensures fits { IfOk result (λ taken. taken ≤ length bytes.now) }
    ensures counted { IfOk result (λ taken. cursor.new.count ≡ cursor.old.count + taken) }
    ensures within { OnOk result (cursor.old.count ≤ limit → cursor.new.count ≤ limit) }
    ensures machine { MatchResult result
        (λ _. GoesOver M.takes machine.old machine.new (O.taken out.old) (O.taken out.new) cursor.old.due.text.list cursor.new.due.text.list)
        (λ _. StopsOver M.takes M.stops machine.old machine.new (O.taken out.old) (O.taken out.new) cursor.old.due.text.list) }
    ensures count { O.faults out.old ≤ O.faults out.new }
    ensures failed { result ≡ Err Finish.WriteFault → Rose (O.faults out.old) (O.faults out.new) }
    ensures exact { MatchResult result (λ _. O.faults out.new ≡ O.faults out.old)
        (λ finish. O.faults out.new ≡ write_faults_after_run (O.faults out.old) finish) }
{
    let run = run_length(bytes);
    let taken = bytes.len().min(run + 1);
    if taken as u64 > limit.saturating_sub(cursor.count) {
        return Err(cursor.due.end(out, Finish::InputTooLong));
    }
    if let Some(finish) = cursor.take_run(M::LONGEST, &bytes[..run]) {
        return Err(cursor.due.end(out, finish));
    }
    if run == bytes.len() {
        return Ok(run);
    }
    match take_lf(alloc, machine, out, cursor) {
        Some(finish) => Err(finish),
        None => Ok(run + 1),
    }
}

// How many bytes stand before the first LF, or in all where there is none.
fn run_length(bytes: &[u8]) -> usize
    ensures fits { result ≤ length bytes.now }
    ensures no_lf { IsLine (take result bytes.now) }
    ensures lf { result < length bytes.now → slice_index bytes.now result ≡ 10 }
{
    match memchr(b'\n', bytes) {
        Some(at) => at,
        None => bytes.len(),
    }
}

// Takes a line that stands whole in a piece, and its LF: it is run where it stands, and its answer is due. What stands behind it changes no
// end.
fn take_whole<M: Machine, O: Sink>(
    alloc: Global,
    machine: &mut M,
    out: &mut O,
    cursor: &mut Cursor,
    line: &[u8],
) -> Option<Finish>
    requires none_kept { cursor.old.kept.list ≡ [] }
    requires no_lf { IsLine line.now }
    requires room { cursor.old.count + length line.now < 2 ^ 63 }
    ensures goes { (limit : ℕ) → cursor.old.count + length line.now < limit → MatchOption result
        (Goes M.tells machine.old machine.new (O.taken out.old) (O.taken out.new) M.LONGEST limit cursor.old cursor.new
        (line.now ++ 10 ∷ []) None)
        (λ finish. (behind : List ℕ) → Goes M.tells machine.old machine.new (O.taken out.old)
        (O.taken out.new) M.LONGEST limit cursor.old cursor.new (line.now ++ 10 ∷ behind) (Some finish)) }
    ensures counted { IfNone result (cursor.new.count ≡ cursor.old.count + length line.now + 1) }
    ensures machine { MatchOption result
        (GoesOver M.takes machine.old machine.new (O.taken out.old) (O.taken out.new) cursor.old.due.text.list cursor.new.due.text.list)
        (λ _. StopsOver M.takes M.stops machine.old machine.new (O.taken out.old) (O.taken out.new) cursor.old.due.text.list) }
    ensures count { O.faults out.old ≤ O.faults out.new }
    ensures failed { result ≡ Some Finish.WriteFault → Rose (O.faults out.old) (O.faults out.new) }
    ensures exact { MatchOption result (O.faults out.new ≡ O.faults out.old)
        (λ finish. O.faults out.new ≡ write_faults_after_run (O.faults out.old) finish) }
{
    cursor.count += line.len() as u64 + 1;
    match end_line(
        alloc,
        machine,
        out,
        &mut cursor.due,
        front(line, M::LONGEST),
        cursor.number,
    ) {
        Some(finish) => Some(finish),
        None => {
            cursor.number += 1;
            None
        }
    }
}

// The first bytes of a line, up to one more than the longest line has.
fn front(line: &[u8], longest: usize) -> &[u8]
    ensures { result.now ≡ take (longest + 1) line.now }
{
    if line.len() > longest {
        &line[..longest + 1]
    } else {
        line
    }
}

// Takes the LF that ends a line: the line is run, and its answer is due. What stands behind it changes no end.
fn take_lf<M: Machine, O: Sink>(
    alloc: Global,
    machine: &mut M,
    out: &mut O,
    cursor: &mut Cursor,
) -> Option<Finish>
    requires { cursor.old.count < 2 ^ 63 }
    ensures goes { (limit : ℕ) → cursor.old.count < limit → MatchOption result
        (Goes M.tells machine.old machine.new (O.taken out.old) (O.taken out.new) M.LONGEST limit cursor.old cursor.new (10 ∷ []) None)
        (λ finish. (behind : List ℕ) → Goes M.tells machine.old machine.new (O.taken out.old)
        (O.taken out.new) M.LONGEST limit cursor.old cursor.new (10 ∷ behind) (Some finish)) }
    ensures counted { IfNone result (cursor.new.count ≡ cursor.old.count + 1) }
    ensures machine { MatchOption result
        (GoesOver M.takes machine.old machine.new (O.taken out.old) (O.taken out.new) cursor.old.due.text.list cursor.new.due.text.list)
        (λ _. StopsOver M.takes M.stops machine.old machine.new (O.taken out.old) (O.taken out.new) cursor.old.due.text.list) }
    ensures count { O.faults out.old ≤ O.faults out.new }
    ensures failed { result ≡ Some Finish.WriteFault → Rose (O.faults out.old) (O.faults out.new) }
    ensures exact { MatchOption result (O.faults out.new ≡ O.faults out.old)
        (λ finish. O.faults out.new ≡ write_faults_after_run (O.faults out.old) finish) }
{
    cursor.count += 1;
    match end_line(
        alloc,
        machine,
        out,
        &mut cursor.due,
        cursor.kept.as_slice(),
        cursor.number,
    ) {
        Some(finish) => Some(finish),
        None => {
            cursor.kept.truncate(0);
            cursor.number += 1;
            None
        }
    }
}

// Runs a line that has ended: its answer is due. Where the run ends, what was due is written first.
fn end_line<M: Machine, O: Sink>(
    alloc: Global,
    machine: &mut M,
    out: &mut O,
    due: &mut Due,
    line: &[u8],
    number: u64,
) -> Option<Finish>
    ensures line { MatchOption result
        (RunsLine (M.tells machine.old) (M.tells machine.new) (O.taken out.old)
        (O.taken out.new) due.old.text.list due.new.text.list M.LONGEST line.now)
        (EndsAt (M.tells machine.old) (O.taken out.old) (O.taken out.new) due.old.text.list M.LONGEST number line.now) }
    ensures machine { MatchOption result
        (GoesOver M.takes machine.old machine.new (O.taken out.old) (O.taken out.new) due.old.text.list due.new.text.list)
        (λ _. StopsOver M.takes M.stops machine.old machine.new (O.taken out.old) (O.taken out.new) due.old.text.list) }
    ensures count { O.faults out.old ≤ O.faults out.new }
    ensures failed { result ≡ Some Finish.WriteFault → Rose (O.faults out.old) (O.faults out.new) }
    ensures exact { MatchOption result (O.faults out.new ≡ O.faults out.old)
        (λ finish. O.faults out.new ≡ write_faults_after_run (O.faults out.old) finish) }
{
    match machine.run_line(alloc, line) {
        Ok(answer) => match due.add(out, answer.as_slice()) {
            Written::Whole => None,
            Written::Failed => Some(Finish::WriteFault),
        },
        Err(LineStop::Bad { column }) => Some(due.end(
            out,
            Finish::Bad {
                line: number,
                column,
            },
        )),
        Err(LineStop::Memory) => Some(due.end(out, Finish::Memory)),
    }
}
