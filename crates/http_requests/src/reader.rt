ghost use Rattle.std.specs.Prelude.{◌≡◌, ◌++◌, false, IfOk, IsTrue};
ghost use Rattle.task_model.specs.Terms.Text.{Text};
ghost use Rattle.http_requests.specs.RequestReading.{IsProgress, IsUnfinished};
ghost use Rattle.http_requests.specs.Streams.{BeginsWithRequest};
ghost use Rattle.http_requests.specs.Knowledge.{HasLookedOn, HasRead, KnowsSize};
ghost use Rattle.http_requests.specs.Knowledge as knowledge;

use crate::finding::{HEAD_LIMIT, behind_head, size, without_head};
use crate::found::Found;
use crate::progress::Progress;
use http_heads::HeadScan;
use std::alloc::Global;
use task_model::OutOfMemory;

// How many bytes the request has, where it is whole, and else 0.
fn length_found(progress: &Progress) -> usize
    ensures { result ≡ knowledge.length_found progress.now }
{
    match progress {
        Progress::Request(request) => request.length as usize,
        Progress::More | Progress::Nothing => 0,
    }
}

/// The reading of one request, of bytes that come in pieces. It keeps how far it looked for the end of the head, how many bytes
/// the request has once its head was read, and how often that was.
#[derive(Drop)]
pub struct RequestReader {
    scan: HeadScan,
    wanted: usize,
    heads: u64,
}

impl RequestReader {
    /// A reader that has read nothing (docs/FORMATS.md, "HTTP").
    pub fn new() -> RequestReader
        ensures { (bytes : Text) → HasRead result bytes }
    {
        RequestReader {
            scan: HeadScan::new(),
            wanted: 0,
            heads: 0,
        }
    }

    /// How far the bytes are, which may have `ended` (docs/FORMATS.md, "HTTP"). They begin with those that were read before; what the
    /// reader knows of them it knows whatever follows.
    pub fn read(
        &mut self,
        alloc: Global,
        bytes: &[u8],
        ended: bool,
    ) -> Result<Progress, OutOfMemory>
        requires { HasRead self.old bytes.now }
        ensures progress { IfOk result (IsProgress bytes.now ended) }
        ensures read { (more : Text) → HasRead self.new (bytes.now ++ more) }
        ensures size { IfOk result (KnowsSize self.new.wanted bytes.now) }
        ensures heads { HasLookedOn self.old self.new bytes.now }
    {
        if bytes.len() < self.wanted {
            return Ok(Progress::More);
        }
        let Some(end) = self.scan.look(bytes) else {
            let progress = without_head(bytes, ended);
            self.wanted = length_found(&progress);
            return Ok(progress);
        };
        self.heads = self.heads.saturating_add(1);
        match behind_head(alloc, bytes, end)? {
            Found::Request(request) => {
                self.wanted = request.length as usize;
                Ok(Progress::Request(request))
            }
            Found::Wanted(wanted) => {
                self.wanted = wanted;
                Ok(Progress::More)
            }
        }
    }

    /// Whether the bytes begin with a whole request, as `read` would give it; else more bytes can make one. It takes no memory
    /// (docs/FORMATS.md, "HTTP"). They begin with those that were read before, as at `read`.
    pub fn is_whole(&mut self, bytes: &[u8]) -> bool
        requires { HasRead self.old bytes.now }
        ensures whole { IsTrue result → BeginsWithRequest bytes.now }
        ensures part { result ≡ false → IsUnfinished bytes.now false }
        ensures read { (more : Text) → HasRead self.new (bytes.now ++ more) }
        ensures heads { HasLookedOn self.old self.new bytes.now }
    {
        if bytes.len() < self.wanted {
            return false;
        }
        match self.scan.look(bytes) {
            Some(end) => {
                self.heads = self.heads.saturating_add(1);
                self.wanted = size(bytes, end);
                self.wanted <= bytes.len()
            }
            None => HEAD_LIMIT <= bytes.len(),
        }
    }
}
