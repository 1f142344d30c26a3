//! Replies of HTTP, as bytes (docs/FORMATS.md, "HTTP").
#![tactic(auto)]

mod body;
mod head;
mod http_reply;
mod phrase;
mod reply_room;
mod whole;

pub use head::write_head;
pub use http_reply::HttpReply;
pub use reply_room::ReplyRoom;
pub use whole::write_reply;
