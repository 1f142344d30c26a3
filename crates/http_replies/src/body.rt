ghost use Rattle.std.specs.Prelude.{◌≡◌, ◌≤◌, ◌++◌, decimal, length};
ghost use Rattle.http_replies.specs.Replies.{reply_body, text_line};
ghost use Rattle.http_replies.specs.ReplyForms.{IsShort, reply_term};

use crate::http_reply::HttpReply;
use crate::reply_room::ReplyRoom;

/// The body of a reply that has a short one.
pub(crate) fn body(reply: &HttpReply<'_>) -> ReplyRoom
    requires short { IsShort (reply_term reply.now) }
    ensures body { result ≡ reply_body (reply_term reply.now) }
    ensures length { length result ≤ 64 }
{
    match reply {
        HttpReply::Page { page, .. } => bytes(page.as_bytes()),
        HttpReply::Taken { .. } | HttpReply::Memory => ReplyRoom::new(),
        HttpReply::Ahead { version } => version_line(b"have ", *version),
        HttpReply::NotOffered { version } => version_line(b"not offered at version ", *version),
        HttpReply::Over { version } => version_line(b"over budget at version ", *version),
        HttpReply::Refused { text, .. } => line(text.as_bytes()),
    }
}

/// These bytes.
fn bytes(text: &[u8]) -> ReplyRoom
    requires { length text.now ≤ 48 }
    ensures { result ≡ text.now }
{
    let mut room = ReplyRoom::new();
    room.push(text);
    room
}

/// A text as a line.
fn line(text: &[u8]) -> ReplyRoom
    requires { length text.now ≤ 48 }
    ensures line { result ≡ text_line text.now }
    ensures length { length result ≤ 49 }
{
    let mut room = bytes(text);
    room.push(b"\n");
    room
}

/// A text with a version behind it, as a line.
fn version_line(text: &[u8], version: u64) -> ReplyRoom
    requires { length text.now ≤ 23 }
    ensures line { result ≡ text_line (text.now ++ decimal version) }
    ensures length { length result ≤ 44 }
{
    let mut room = bytes(text);
    room.push_number(version);
    room.push(b"\n");
    room
}
