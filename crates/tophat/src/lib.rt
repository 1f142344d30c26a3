//! The commands of the program: the words, the file and the script that come in, what is written, and how it ends.
//! `plain` does the commands that need no threads and no sockets: bytes in, bytes out, and the status. `read_file`, `verdict_on` and
//! `open_bytes` are the ways to the bytes of a program, to its verdict and to its world, and `CommandEnding` is how a command ends.
#![tactic(auto)]

mod asking;
mod commands;
mod ending;
mod laws;
mod no_world;
mod opening;
mod program_file;
mod refusal;
mod runner;
mod sentence;
mod soak;
mod texts;
mod type_fault;
mod verdict;
mod work;

pub use commands::{perform, plain};
pub use ending::CommandEnding;
pub use laws::{
    all_lines_are_answered, all_was_written, forms_lead_alike, histories_are_replayed, one_report,
    statuses_tell_ends,
};
pub use no_world::NoWorld;
pub use opening::open_bytes;
pub use program_file::read_file;
pub use refusal::Refusal;
pub use texts::{push_count, write_text};
pub use verdict::verdict_on;
