ghost use Rattle.std.specs.Prelude.{None};
ghost use Rattle.outer_io.specs.Links.{nothing_beside};

use outer_io::{Put, Sink};

/// A sink that takes each write whole, and counts the writes and their bytes. What it took it doesn't tell.
#[derive(Drop)]
pub(crate) struct Counter {
    pub(crate) writes: u64,
    pub(crate) bytes: usize,
}

impl Sink for Counter {
    ghost taken = { λ _. None };

    ghost faults = { λ _. 0 };

    ghost beside = { λ _. nothing_beside };

    fn write(&mut self, piece: &[u8]) -> Put {
        self.writes = self.writes.saturating_add(1);
        self.bytes = self.bytes.saturating_add(piece.len());
        Put::Took(piece.len())
    }
}
