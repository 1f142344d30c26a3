//! Lines of scripts (docs/FORMATS.md, "Script lines"): reading that is exact at the first bad byte, and printing.
//! And the program of a soak with its inputs.
#![tactic(auto)]

mod acts;
mod bracket;
mod brackets;
mod ends;
mod laws;
mod line;
mod next;
mod parse;
mod print;
mod reading;
mod room;
mod seats;
mod soak;
mod standing;

pub use laws::{one_line, printed_entry};
pub use line::Line;
pub use parse::{parse_line, parse_line_within};
pub use print::print_entry;
pub use seats::small_number;
pub use soak::{soak_entry, soak_program};
