ghost use Rattle.std.specs.Prelude.{◌≡◌, ◌≤◌, ◌+◌, ◌++◌, ◌∷◌, ◌↔◌, [], IsSome, length, codes, decimal, unwrap_or};
ghost use Rattle.http_replies.specs.Replies.{phrase_of, head_line, location_line, allow_line, type_line, close_line, reply_head_text};

use crate::phrase::phrase;
use crate::reply_room::ReplyRoom;
use task_model::Face;

/// Writes the head of a reply, in place of what is in the room (docs/FORMATS.md, "Replies").
pub fn write_head(
    status: u16,
    location: Option<u64>,
    kind: Option<Face>,
    size: u64,
    closes: bool,
    room: &mut ReplyRoom,
)
    requires phrase { IsSome (phrase_of status) }
    requires location { IsSome location ↔ (status ≡ 303) }
    ensures text { room.new ≡ reply_head_text status location kind size closes }
    ensures length { length room.new ≤ 256 }
{
    room.clear();
    push_status(room, status);
    push_location(room, location);
    push_allow(room, status);
    push_type(room, kind);
    push_length(room, size);
    push_close(room, closes);
    room.push(b"\r\n");
}

fn push_status(room: &mut ReplyRoom, status: u16)
    requires phrase { IsSome (phrase_of status) }
    requires fits { length room.old + 63 ≤ 256 }
    ensures text { room.new ≡ room.old ++ head_line (codes "HTTP/1.1 " ++ (decimal status ++ (32 ∷ unwrap_or (phrase_of status) []))) }
    ensures length { length room.new ≤ length room.old + 63 }
{
    room.push(b"HTTP/1.1 ");
    room.push_number(u64::from(status));
    room.push(b" ");
    room.push(phrase(status).as_bytes());
    room.push(b"\r\n");
}

fn push_location(room: &mut ReplyRoom, location: Option<u64>)
    requires { length room.old + 36 ≤ 256 }
    ensures text { room.new ≡ room.old ++ location_line location }
    ensures length { length room.new ≤ length room.old + 36 }
{
    if let Some(version) = location {
        room.push(b"Location: /?v=");
        room.push_number(version);
        room.push(b"\r\n");
    }
}

fn push_allow(room: &mut ReplyRoom, status: u16)
    requires { length room.old + 24 ≤ 256 }
    ensures text { room.new ≡ room.old ++ allow_line status }
    ensures length { length room.new ≤ length room.old + 24 }
{
    if status == 405 {
        room.push(b"Allow: GET, HEAD, POST\r\n");
    }
}

fn push_type(room: &mut ReplyRoom, kind: Option<Face>)
    requires { length room.old + 41 ≤ 256 }
    ensures text { room.new ≡ room.old ++ type_line kind }
    ensures length { length room.new ≤ length room.old + 41 }
{
    match kind {
        Some(Face::Html) => room.push(b"Content-Type: text/html; charset=utf-8\r\n"),
        Some(Face::Text) => room.push(b"Content-Type: text/plain; charset=utf-8\r\n"),
        None => (),
    }
}

fn push_length(room: &mut ReplyRoom, size: u64)
    requires { length room.old + 38 ≤ 256 }
    ensures text { room.new ≡ room.old ++ head_line (codes "Content-Length: " ++ decimal size) }
    ensures length { length room.new ≤ length room.old + 38 }
{
    room.push(b"Content-Length: ");
    room.push_number(size);
    room.push(b"\r\n");
}

fn push_close(room: &mut ReplyRoom, closes: bool)
    requires { length room.old + 19 ≤ 256 }
    ensures text { room.new ≡ room.old ++ close_line closes }
    ensures length { length room.new ≤ length room.old + 19 }
{
    if closes {
        room.push(b"Connection: close\r\n");
    }
}
