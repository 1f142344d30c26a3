ghost use Rattle.std.specs.Prelude.{◌≡◌, ◌≤◌, ◌&&◌, not, Some, None, IfOk, length, take};
ghost use Rattle.http_heads.specs.Blocks.{head_length, without_blanks};
ghost use Rattle.http_heads.specs.Checks.{is_end};
ghost use Rattle.http_heads.specs.Spans.{PassesAsBlock};
ghost use Rattle.http_requests.specs.Requests.{refusal_of};
ghost use Rattle.http_requests.specs.RequestReading.{IsProgress, request_term};
ghost use Rattle.http_requests.specs.Knowledge.{HasSize, IsFound};

use crate::asking::{asked, refused};
use crate::found::Found;
use crate::progress::Progress;
use crate::request::Request;
use http_heads::{Check, HeadFacts, read_block, without_blanks};
use std::alloc::Global;
use task_model::OutOfMemory;

/// The most bytes of the blank lines and the block of a request.
pub(crate) const HEAD_LIMIT: usize = 8192;

/// How far bytes are in which no block ends.
pub(crate) fn without_head(bytes: &[u8], ended: bool) -> Progress
    requires { head_length bytes.now ≡ None }
    ensures { IsProgress bytes.now ended result }
{
    if bytes.len() >= HEAD_LIMIT {
        return Progress::Request(refusal(Check::ShortHead, HEAD_LIMIT));
    }
    if ended && without_blanks(bytes).is_empty() {
        return Progress::Nothing;
    }
    Progress::More
}

/// What stands behind the head at the front, which has so many bytes.
pub(crate) fn behind_head(alloc: Global, bytes: &[u8], end: usize) -> Result<Found, OutOfMemory>
    requires within { end ≤ length bytes.now }
    requires head { head_length (take end bytes.now) ≡ Some end }
    ensures { IfOk result (IsFound bytes.now) }
{
    match read_block(without_blanks(&bytes[..end])) {
        Ok(facts) => with_body(alloc, bytes, end, &facts),
        Err(check) => Ok(Found::Request(refusal(check, end))),
    }
}

/// How many bytes the request has whose head is at the front.
pub(crate) fn size(bytes: &[u8], end: usize) -> usize
    requires within { end ≤ length bytes.now }
    requires head { head_length (take end bytes.now) ≡ Some end }
    ensures { HasSize result bytes.now }
{
    match read_block(without_blanks(&bytes[..end])) {
        Ok(facts) => end + facts.taken,
        Err(_) => end,
    }
}

/// The request with this head, if its body is whole.
fn with_body(
    alloc: Global,
    bytes: &[u8],
    end: usize,
    facts: &HeadFacts<'_>,
) -> Result<Found, OutOfMemory>
    requires within { end ≤ length bytes.now }
    requires head { head_length (take end bytes.now) ≡ Some end }
    requires passes { PassesAsBlock (without_blanks (take end bytes.now)) facts.now }
    ensures { IfOk result (IsFound bytes.now) }
{
    let length = end + facts.taken;
    if bytes.len() < length {
        return Ok(Found::Wanted(length));
    }
    let asked = asked(alloc, facts, &bytes[end..length])?;
    Ok(Found::Request(Request {
        asked,
        closes: closes(facts),
        length: length as u64,
    }))
}

/// Whether a request asks for the end of the connection, which doesn't end with it in any case.
fn closes(facts: &HeadFacts<'_>) -> bool
    ensures { result ≡ (not (is_end facts.now.failed) && facts.now.closes) }
{
    !facts.ends() && facts.closes
}

/// A request of so many bytes that check 1 or 2 refuses.
fn refusal(check: Check, size: usize) -> Request
    ensures { request_term result ≡ refusal_of check size }
{
    Request {
        asked: refused(check, false),
        closes: false,
        length: size as u64,
    }
}
