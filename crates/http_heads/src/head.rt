ghost use Rattle.std.specs.Prelude.{◌≡◌, ◌==◌, length, codes, option_map, unwrap_or, is_none, IsTrue, []};
ghost use Rattle.std.specs.List.{list_any};
ghost use Rattle.httparse.specs.Grammar.{RequestHead};
ghost use Rattle.httparse.specs.Spans.{IsRequestWithin, IsRequestAt};
ghost use Rattle.http_heads.specs.Heads as heads;
ghost use Rattle.http_heads.specs.Heads.{head_term};
ghost use Rattle.http_heads.specs.Checks as checks;
ghost use Rattle.http_heads.specs.Spans.{AreFieldsWithin, head_of};

use crate::check::Check;
use crate::fields::{first_value, has_close};
use crate::numerals::number;
use exact_reading::strip;
use httparse::spans::{HeaderSpan, RequestSpans};

/// The most bytes of a body.
const BODY_LIMIT: u64 = 65_536;

/// A whole head: its parts, and its fields as spans of the block.
#[derive(Drop)]
pub(crate) struct Head<'b, 'h> {
    block: &'b [u8],
    method: &'b [u8],
    target: &'b [u8],
    minor: u8,
    fields: &'h [HeaderSpan],
}

impl<'b, 'h> Head<'b, 'h> {
    /// The head that stands in the block at the spans.
    pub(crate) fn at(block: &'b [u8], spans: &RequestSpans, room: &'h [HeaderSpan]) -> Head<'b, 'h>
        requires { IsRequestWithin block.now room.now spans.now }
        ensures within { AreFieldsWithin result.block.now result.fields.now }
        ensures head { (h : RequestHead) → IsRequestAt block.now room.now spans.now h → head_term h ≡ head_of result }
    {
        Head {
            block,
            method: spans.method.of(block),
            target: spans.path.of(block),
            minor: spans.version,
            fields: &room[..spans.headers],
        }
    }

    /// Whether the method is GET.
    fn is_get(&self) -> bool
        ensures { result ≡ heads.is_get (head_of self.now) }
    {
        self.method == b"GET".as_slice()
    }

    /// Whether the method is HEAD.
    pub(crate) fn is_head(&self) -> bool
        ensures { result ≡ heads.is_head (head_of self.now) }
    {
        self.method == b"HEAD".as_slice()
    }

    /// Whether the method is POST.
    pub(crate) fn is_post(&self) -> bool
        ensures { result ≡ heads.is_post (head_of self.now) }
    {
        self.method == b"POST".as_slice()
    }

    /// The first of the checks 3 to 9 that the head fails.
    pub(crate) fn failed_check(&self) -> Option<Check>
        requires { AreFieldsWithin self.now.block.now self.now.fields.now }
        ensures { result ≡ checks.failed_check (head_of self.now) }
    {
        if self.minor == 1 && !self.has_one(b"host") {
            return Some(Check::OneHost);
        }
        if !self.lacks(b"transfer-encoding") {
            return Some(Check::NoCoding);
        }
        let Some(length) = self.length() else {
            return Some(Check::OneLength);
        };
        if length > BODY_LIMIT {
            return Some(Check::ShortBody);
        }
        if self.query().is_none() {
            return Some(Check::KnownTarget);
        }
        if !(self.is_get() || self.is_head() || self.is_post()) {
            return Some(Check::KnownMethod);
        }
        if self.is_post() && self.lacks(b"content-length") {
            return Some(Check::LengthOfPost);
        }
        None
    }

    /// The number that `Content-Length` says: 0 without that field.
    pub(crate) fn length(&self) -> Option<u64>
        requires { AreFieldsWithin self.now.block.now self.now.fields.now }
        ensures { result ≡ heads.length_given (head_of self.now) }
    {
        match first_value(self.block, self.fields, b"content-length") {
            None => Some(0),
            Some((value, behind)) => {
                if first_value(self.block, behind, b"content-length").is_some() {
                    None
                } else {
                    number(value, 19)
                }
            }
        }
    }

    /// Whether the request asks for the end of the connection.
    pub(crate) fn asks_close(&self) -> bool
        requires { AreFieldsWithin self.now.block.now self.now.fields.now }
        ensures { result ≡ heads.asks_close (head_of self.now) }
    {
        if self.minor == 0 {
            return true;
        }
        let mut fields = self.fields;
        while let Some((value, behind)) = first_value(self.block, fields, b"connection") {
            if has_close(value) {
                return true;
            }
            fields = behind;
        }
        false
    }

    /// The query of the target, where that is "/", alone or with "?" and a query behind it.
    pub(crate) fn query(&self) -> Option<&'b [u8]>
        ensures { option_map (λ q. q.now) result ≡ heads.query_of (head_of self.now) }
    {
        let behind = strip(self.target, b'/')?;
        if behind.is_empty() {
            return Some(behind);
        }
        strip(behind, b'?')
    }

    /// Whether there is exactly one field of the name.
    fn has_one(&self, name: &[u8]) -> bool
        requires { AreFieldsWithin self.now.block.now self.now.fields.now }
        ensures { result ≡ (length (heads.values_of name.now (head_of self.now)) == 1) }
    {
        match first_value(self.block, self.fields, name) {
            Some((_, behind)) => first_value(self.block, behind, name).is_none(),
            None => false,
        }
    }

    /// Whether there is no field of the name.
    fn lacks(&self, name: &[u8]) -> bool
        requires { AreFieldsWithin self.now.block.now self.now.fields.now }
        ensures { result ≡ checks.lacks name.now (head_of self.now) }
    {
        first_value(self.block, self.fields, name).is_none()
    }
}
