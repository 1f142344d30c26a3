//! Records of a journal as bytes: a gate, four bytes of length, and that many bytes. Only what stands behind open gates counts. A history's
//! records are its opening and the lines of its entries. (docs/FORMATS.md, "Journals".)
#![tactic(auto)]

mod entries;
mod laws;
mod opening;
mod printing;
mod reading;
mod writing;

pub use entries::{NoEntryRecord, read_record};
pub use laws::one_image;
pub use opening::read_opening;
pub use printing::{print_opening, print_record};
pub use reading::{NoRecord, first_record};
pub use writing::{behind_gate, whole_journal};
