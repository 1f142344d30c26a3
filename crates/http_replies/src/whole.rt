ghost use Rattle.std.specs.Prelude.{◌≡◌, ◌≤◌, if◌then◌else◌, [], length};
ghost use Rattle.http_replies.specs.Replies.{reply_head_of, reply_bytes};
ghost use Rattle.http_replies.specs.ReplyForms.{reply_term, HasPhrase, IsShort};

use crate::body::body;
use crate::head::write_head;
use crate::http_reply::HttpReply;
use crate::reply_room::ReplyRoom;

/// Writes a whole reply in place of what is in the room: its head, and its body, which is short, unless the head alone is wanted. The
/// head tells the end of the connection where that `closes`. It takes no memory (docs/FORMATS.md, "Replies").
pub fn write_reply(reply: &HttpReply<'_>, head_only: bool, closes: bool, room: &mut ReplyRoom)
    requires phrase { HasPhrase (reply_term reply.now) }
    requires short { IsShort (reply_term reply.now) }
    ensures { room.new ≡ reply_bytes (reply_term reply.now) head_only closes }
{
    let body = body(reply);
    let text = body.bytes();
    head_of(reply, text.len() as u64, closes, room);
    room.push(shown(text, head_only));
}

/// Writes the head of a reply whose body has so many bytes.
fn head_of(reply: &HttpReply<'_>, size: u64, closes: bool, room: &mut ReplyRoom)
    requires { HasPhrase (reply_term reply.now) }
    ensures head { room.new ≡ reply_head_of (reply_term reply.now) size closes }
    ensures length { length room.new ≤ 256 }
{
    write_head(
        reply.status(),
        reply.location(),
        reply.kind(),
        size,
        closes,
        room,
    );
}

/// What is shown of a body.
fn shown(body: &[u8], head_only: bool) -> &[u8]
    ensures shown { result.now ≡ (if head_only then [] else body.now) }
    ensures length { length result.now ≤ length body.now }
{
    if head_only { &[] } else { body }
}
