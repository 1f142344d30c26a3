ghost use Rattle.std.specs.Prelude.{◌≡◌, ◌≤◌, Some, IfSome, IfNone, length, min, take};
ghost use Rattle.task_model.specs.Terms.Text.{Text};
ghost use Rattle.http_heads.specs.Blocks.{head_limit, head_length};
ghost use Rattle.http_heads.specs.Phases.{HasLookedAt};

use crate::phase::Phase;

/// The most bytes of the blank lines and the block of a request.
const HEAD_LIMIT: usize = 8192;

/// The search for the end of a request's block, in bytes that come in pieces: each byte is looked at once.
#[derive(Drop)]
pub struct HeadScan {
    looked: usize,
    phase: Phase,
}

impl HeadScan {
    /// A search that hasn't looked at any byte (docs/FORMATS.md, "Where a request ends").
    pub fn new() -> HeadScan
        ensures { (bytes : Text) → HasLookedAt result bytes }
    {
        HeadScan {
            looked: 0,
            phase: Phase::Blank,
        }
    }

    /// How many bytes the blank lines and the block at the front have, if the block ends within 8,192 bytes
    /// (docs/FORMATS.md, "Where a request ends"). The bytes begin with those that were looked at before.
    pub fn look(&mut self, bytes: &[u8]) -> Option<usize>
        requires { HasLookedAt self.old bytes.now }
        ensures end { result ≡ head_length bytes.now }
        // The bytes up to the end alone have it there.
        ensures front { IfSome result (λ n. (n ≤ length bytes.now) × (head_length (take n bytes.now) ≡ Some n)) }
        ensures looked { HasLookedAt self.new bytes.now }
        ensures all { IfNone result (self.new.looked ≡ min (length bytes.now) head_limit) }
    {
        let limit = bytes.len().min(HEAD_LIMIT);
        while self.looked < limit {
            if self.phase.has_ended() {
                return Some(self.looked);
            }
            self.phase = self.phase.behind(bytes[self.looked]);
            self.looked += 1;
        }
        if self.phase.has_ended() {
            Some(self.looked)
        } else {
            None
        }
    }
}
