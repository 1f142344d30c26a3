ghost use Rattle.std.specs.Prelude.{⊤};

use line_frame::{LineStop, Machine};
use std::alloc::Global;
use task_model::Row;

/// A machine for lines of one byte, of which its clauses tell nothing. `!` is bad at column 7, at `?` memory runs out, and
/// each other line has an answer of so many bytes.
#[derive(Drop)]
pub(crate) struct Judge {
    pub(crate) size: usize,
}

impl Machine for Judge {
    ghost LONGEST = { 1 };

    const LONGEST: usize = 1;

    ghost tells = { λ _ _ _ _ _. ⊥ };

    // Nothing is said of what becomes of it.
    ghost takes = { λ _ _ _ _. ⊤ };

    ghost stops = { λ _ _. ⊤ };

    fn run_line(&mut self, alloc: Global, line: &[u8]) -> Result<Row<u8>, LineStop> {
        match line {
            b"!" => return Err(LineStop::Bad { column: 7 }),
            b"?" => return Err(LineStop::Memory),
            _ => {}
        }
        let mut text = Row::new(alloc);
        for _ in 0..self.size {
            if text.push(b'y').is_err() {
                return Err(LineStop::Memory);
            }
        }
        Ok(text)
    }

    ghost no_lines = { λ _ _ _ _ is. absurd is };
}
