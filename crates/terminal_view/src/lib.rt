//! The terminal face of an interface (docs/FORMATS.md, "Pages"): the line of a widget, and the page of widgets.
#![tactic(auto)]

mod line;
mod page;
mod printed_trail;
mod writing;

pub use line::{draw_line, push_empty_editor, push_shape, push_valued_editor};
pub use page::{draw_terminal, push_head};
pub use printed_trail::PrintedTrail;
pub use writing::{print_path, push};
