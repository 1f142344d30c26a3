use outer_io::{Sink, Written, write_all};
use std::io;
use task_model::OutOfMemory;

/// A line couldn't be written, or what it says couldn't be had.
#[derive(Clone, Copy, Debug)]
pub(crate) struct Unsaid;

impl From<OutOfMemory> for Unsaid {
    fn from(_memory: OutOfMemory) -> Unsaid {
        Unsaid
    }
}

impl From<io::Error> for Unsaid {
    fn from(_refused: io::Error) -> Unsaid {
        Unsaid
    }
}

/// Writes a line, which is given in parts.
pub(crate) fn say<O: Sink>(out: &mut O, parts: &[&[u8]]) -> Result<(), Unsaid> {
    for part in parts {
        if write_all(out, part) == Written::Failed {
            return Err(Unsaid);
        }
    }
    Ok(())
}
