//! Requests of HTTP (docs/FORMATS.md, "HTTP"): the first request of the bytes of a connection, that more bytes are wanted, or that
//! there is none; and laws on what bytes are requests.
#![tactic(auto)]

mod asked;
mod asking;
mod finding;
mod found;
mod laws;
mod progress;
mod reader;
mod refusal_text;
mod request;

pub use asked::Asked;
pub use laws::{each_byte_string, one_first_request, one_list_of_requests, refusals_are_of_checks};
pub use progress::Progress;
pub use reader::RequestReader;
pub use refusal_text::RefusalText;
pub use request::Request;
