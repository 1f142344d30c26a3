ghost use Rattle.std.specs.Prelude.{◌≡◌, ◌≤◌, ◌+◌, ◌-◌, length, IfOk, IfErr, IfSome, IfNone};
ghost use Rattle.httparse.specs.Spans.{IsRequestWithin, IsRequestOf};
ghost use Rattle.http_heads.specs.Blocks as blocks;
ghost use Rattle.http_heads.specs.Heads.{HeadTerm, IsHead};
ghost use Rattle.http_heads.specs.Spans.{AreFieldsWithin, head_of, FailsAsBlock, PassesAsBlock};

use crate::check::Check;
use crate::facts::HeadFacts;
use crate::head::Head;
use httparse::Status;
use httparse::spans::{EMPTY_HEADER_SPAN, HeaderSpan, RequestSpans, parse_request};

/// The most lines of a block between its first and the empty one.
const FIELD_LINE_LIMIT: usize = 64;

/// What the head that the block is says, or the check that the block fails, which is 1 or 2 (docs/FORMATS.md, "Checks").
pub fn read_block(block: &[u8]) -> Result<HeadFacts<'_>, Check>
    ensures ok { IfOk result (λ facts. PassesAsBlock block.now facts) }
    ensures err { IfErr result (λ check. FailsAsBlock block.now check) }
{
    if line_ends(block) > FIELD_LINE_LIMIT + 2 {
        return Err(Check::ShortHead);
    }
    let mut room = [EMPTY_HEADER_SPAN; FIELD_LINE_LIMIT];
    match whole_head(block, &mut room) {
        Some(spans) => Ok(HeadFacts::of(&Head::at(block, &spans, &room))),
        None => Err(Check::WholeHead),
    }
}

/// How many LF the bytes have.
fn line_ends(bytes: &[u8]) -> usize
    ensures { result ≡ blocks.line_ends bytes.now }
{
    bytes.iter().filter(|byte| **byte == b'\n').count()
}

/// The head that a block is, if it is one.
fn whole_head(block: &[u8], room: &mut [HeaderSpan]) -> Option<RequestSpans>
    requires lines { blocks.line_ends block.now ≤ length room.old + 2 }
    ensures within { IfSome result (IsRequestWithin block.now room.new) }
    ensures some { IfSome result (λ spans. IsRequestOf block.now room.new spans × (spans.len ≡ length block.now)) }
    ensures none { IfNone result ((h : HeadTerm) → IsHead block.now h → ⊥) }
{
    match parse_request(block, room) {
        Ok(Status::Complete(spans)) => {
            if spans.len == block.len() {
                Some(spans)
            } else {
                None
            }
        }
        Ok(Status::Partial) => None,
        Err(_) => None,
    }
}
