//! Programs from their texts and as text.
#![tactic(auto)]

mod print;
mod read;

pub use print::print_program;
pub use read::read_program;
pub use reader_programs::Read;
pub use task_syntax::{ReadKind, ReadStop};
