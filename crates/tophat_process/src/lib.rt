//! The process of the program: the words of its command line, the ports of the machine with their times, and the exit code, which is the
//! status of the top call.
#![tactic(auto)]

mod command_line;
mod ending;
mod ports;

pub use command_line::{words, words_of};
pub use ending::exit_code;
pub use ports::ports_of_machine;
