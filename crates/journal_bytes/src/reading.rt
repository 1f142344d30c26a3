ghost use Rattle.std.specs.Prelude.{◌≡◌, List, ℕ, [], IfOk, IfErr, IfSome, IfNone};
ghost use Rattle.journal_bytes.specs.Records.{IsRecord, BeginsRecord, IsBad, IsShut};

/// Why bytes don't begin with an open gate and its record.
#[derive(Clone, Copy, Debug, PartialEq, Eq)]
pub enum NoRecord {
    /// The gate is closed.
    Closed,
    /// It is open, and its record is cut off or too long.
    Bad,
    /// There is no gate.
    Missing,
}

/// No record is longer: a budget of seven digits, an LF, and the text of a program.
const LONGEST: usize = 1_048_584;

/// The first record behind an open gate, and the bytes behind it.
pub fn first_record(bytes: &[u8]) -> Result<(&[u8], &[u8]), NoRecord>
    ensures ok { IfOk result (λ x. BeginsRecord bytes.now x.0.now x.1.now) }
    ensures closed { IfErr result (λ e. e ≡ NoRecord.Closed → IsShut bytes.now) }
    ensures bad { IfErr result (λ e. e ≡ NoRecord.Bad → IsBad bytes.now) }
    ensures missing { IfErr result (λ e. e ≡ NoRecord.Missing → bytes.now ≡ []) }
{
    let [gate, rest @ ..] = bytes else {
        return Err(NoRecord::Missing);
    };
    if *gate != 1 {
        return Err(NoRecord::Closed);
    }
    match record_of(rest) {
        Some(x) => Ok(x),
        None => Err(NoRecord::Bad),
    }
}

// A record, and the bytes behind it.
fn record_of(bytes: &[u8]) -> Option<(&[u8], &[u8])>
    ensures some { IfSome result (λ x. IsRecord bytes.now x.0.now x.1.now) }
    ensures none { IfNone result ((r after : List ℕ) → IsRecord bytes.now r after → ⊥) }
{
    if bytes.len() < 4 {
        return None;
    }
    let (front, after) = bytes.split_at(4);
    let count = u32::from_be_bytes([front[0], front[1], front[2], front[3]]) as usize;
    if count > LONGEST || count > after.len() {
        return None;
    }
    Some(after.split_at(count))
}
