ghost use Rattle.std.specs.Prelude.{◌≡◌, ◌<◌, ◌≤◌, ◌↔◌, [], false, IsTrue, length};
ghost use Rattle.http_requests.specs.RequestReading.{IsUnfinished};
ghost use Rattle.http_requests.specs.Streams.{BeginsWithRequest};
ghost use Rattle.outer_gates.specs.Arrivals.{HasArrived, IsReceived, StandsAs};

use crate::arrival::Arrival;
use crate::filling::Filling;
use crate::standing::Standing;
use http_requests::RequestReader;
use std::alloc::Global;
use std::io::{ErrorKind, Read};
use std::marker::Model;
use task_model::{OutOfMemory, Row};

// The most bytes that a request has (docs/FORMATS.md, "HTTP").
const MOST: usize = 73_728;

// How many bytes a read gives at most.
const PIECE: usize = 8192;

/// The bytes of a client up to the end of its first request. Each is looked at once. Contracts see the bytes.
#[derive(Drop)]
pub(crate) struct FirstRequest {
    bytes: Row<u8>,
    reader: RequestReader,
}

impl Model for FirstRequest {
    ghost use Rattle.std.specs.Prelude.{◌≤◌, ◌++◌, ℕ, List, length};
    ghost use Rattle.http_requests.specs.Knowledge.{HasRead};

    ghost Value = { List ℕ };

    ghost view = { λ f. f.bytes.list };

    ghost invariant = { λ f. (more : List ℕ) → HasRead f.reader (f.bytes.list ++ more) };
}

impl FirstRequest {
    /// No bytes.
    pub(crate) fn new(alloc: Global) -> FirstRequest
        ensures { result ≡ [] }
    {
        FirstRequest {
            bytes: Row::new(alloc),
            reader: RequestReader::new(),
        }
    }

    /// Whether there are no bytes.
    pub(crate) fn is_empty(&self) -> bool
        ensures { IsTrue result ↔ (self.now ≡ []) }
    {
        self.bytes.as_slice().is_empty()
    }

    /// Takes in what there is to be read, up to a whole request, whose bytes are handed out then. It waits for nobody where the
    /// reads don't.
    pub(crate) fn receive<S: Read>(&mut self, alloc: Global, stream: &mut S) -> Arrival
        requires within { length self.old ≤ 73728 }
        ensures within { length self.new ≤ 73728 }
        ensures arrived { HasArrived (S.remaining stream.old) (S.remaining stream.new) self.old self.new result }
    {
        let mut ended = false;
        for _ in 0..u64::MAX {
            match self.standing(ended) {
                Standing::Part => {}
                Standing::Whole => return Arrival::Whole(self.take(alloc)),
                Standing::Never => return Arrival::Never,
            }
            match self.fill(stream) {
                Filling::More => {}
                Filling::Waits => return Arrival::Part,
                Filling::Ended => ended = true,
                Filling::Failed => return Arrival::Never,
            }
        }
        Arrival::Never
    }

    // How the bytes stand, which may have ended.
    fn standing(&mut self, ended: bool) -> Standing
        ensures same { self.new ≡ self.old }
        ensures standing { StandsAs self.old result }
    {
        if self.is_whole() {
            Standing::Whole
        } else if ended {
            Standing::Never
        } else {
            Standing::Part
        }
    }

    // Whether they begin with a whole request.
    fn is_whole(&mut self) -> bool
        ensures same { self.new ≡ self.old }
        ensures whole { IsTrue result → BeginsWithRequest self.old }
        ensures part { result ≡ false → IsUnfinished self.old false }
    {
        self.reader.is_whole(self.bytes.as_slice())
    }

    // The bytes, of which none are left behind.
    fn take(&mut self, alloc: Global) -> Row<u8>
        ensures taken { result.list ≡ self.old }
        ensures left { self.new ≡ [] }
    {
        let FirstRequest { bytes, .. } = std::mem::replace(self, FirstRequest::new(alloc));
        bytes
    }

    // Reads once, behind the bytes.
    fn fill<S: Read>(&mut self, stream: &mut S) -> Filling
        requires short { length self.old < 73728 }
        ensures within { length self.new ≤ 73728 }
        ensures received { IsReceived (S.remaining stream.old) (S.remaining stream.new) self.old self.new result }
    {
        let mut room = [0; PIECE];
        let most = PIECE.min(MOST - self.bytes.as_slice().len());
        match stream.read(&mut room[..most]) {
            Ok(0) => Filling::Ended,
            Ok(count) => match self.bytes.extend(&room[..count]) {
                Ok(()) => Filling::More,
                Err(OutOfMemory) => Filling::Failed,
            },
            Err(error) if error.kind() == ErrorKind::WouldBlock => Filling::Waits,
            Err(error) if error.kind() == ErrorKind::Interrupted => Filling::More,
            Err(_) => Filling::Failed,
        }
    }
}
