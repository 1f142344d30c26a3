ghost use Rattle.std.specs.Prelude.{◌≡◌, ◌<◌, length, take, drop};
ghost use Rattle.session_gate.specs.Readings.{IsFilled, IsNext, IsReadOnce, Reading, bytes_given};

use crate::filled::Filled;
use crate::next::Next;
use bytes::BytesMut;
use http_requests::{Progress, RequestReader};
use outer_io::{Got, Link};
use std::alloc::Global;
use task_model::OutOfMemory;

// How many bytes a read gives at most.
const PIECE: usize = 8192;

/// Reads until the kept bytes begin with a whole request, or can't.
pub(crate) fn next_request<K: Link>(alloc: Global, link: &mut K, kept: &mut BytesMut) -> Next
    ensures reading { Reading (K.told link.old) (K.told link.new) kept.old.items kept.new.items }
    ensures next { IsNext result (K.told link.old) (K.told link.new) kept.new.items }
{
    let mut reader = RequestReader::new();
    let mut ended = false;
    'reading: loop {
        let progress = match reader.read(alloc, kept.as_slice(), ended) {
            Ok(progress) => progress,
            Err(OutOfMemory) => return Next::Memory,
        };
        match progress {
            Progress::Request(request) => return Next::Request(request),
            Progress::Nothing => return Next::Ended,
            Progress::More if ended => return Next::Cut,
            Progress::More => {}
        }
        match fill(link, kept) {
            Filled::More => {}
            Filled::Ended => ended = true,
            Filled::Failed => return Next::Failed,
            Filled::Memory => return Next::Memory,
        }
    }
}

// Reads once into the room.
fn read_once<K: Link>(link: &mut K, room: &mut [u8]) -> Got
    requires { 0 < length room.old }
    ensures { IsReadOnce (K.told link.old) (K.told link.new) room.new result }
{
    link.read(room)
}

// Reads once behind so many bytes, which stay.
fn read_behind<K: Link>(link: &mut K, bytes: &mut [u8], held: usize) -> Got
    requires { held < length bytes.old }
    ensures stays { (take held bytes.new ≡ take held bytes.old) × (length bytes.new ≡ length bytes.old) }
    ensures read { IsReadOnce (K.told link.old) (K.told link.new) (drop held bytes.new) result }
{
    read_once(link, &mut bytes[held..])
}

// How many bytes a read gave.
fn given(got: Got) -> usize
    ensures { result ≡ bytes_given got }
{
    match got {
        Got::Took(count) => count,
        Got::End | Got::Failed => 0,
    }
}

// Reads once, into room behind the kept bytes.
fn fill<K: Link>(link: &mut K, kept: &mut BytesMut) -> Filled
    requires short { length kept.old.items < 73728 }
    ensures reading { Reading (K.told link.old) (K.told link.new) kept.old.items kept.new.items }
    ensures filled { IsFilled result (K.told link.old) (K.told link.new) kept.old.items kept.new.items }
{
    let held = kept.len();
    match kept.resize(held + PIECE, 0) {
        Ok(()) => {}
        Err(_) => return Filled::Memory,
    }
    let got = read_behind(link, kept.as_mut_slice(), held);
    kept.truncate(held + given(got));
    Filled::of(got)
}
