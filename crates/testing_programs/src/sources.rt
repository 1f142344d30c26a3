//! Programs of their texts.

use host_types::check;
use std::alloc::Global;
use task_model::{Checked, OutOfMemory};
use task_reader::read_program;

/// The accepted program of a text. A text that has none is as want of memory.
pub fn accepted(alloc: Global, source: &str) -> Result<Checked, OutOfMemory> {
    match read_program(alloc, source.as_bytes()) {
        Ok(read) => match check(alloc, read.program) {
            Ok(checked) => Ok(checked),
            Err(_) => Err(OutOfMemory),
        },
        Err(_) => Err(OutOfMemory),
    }
}
