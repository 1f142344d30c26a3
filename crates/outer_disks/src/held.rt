ghost use Rattle.std.specs.Prelude.{◌≡◌, IfOk};
ghost use Rattle.outer_disks.specs.MemDisks.{bytes_held, IsCopyOf};

use crate::images::Images;
use std::alloc::Global;
use task_model::{OutOfMemory, Row};

/// What a disk in memory holds: bytes of which a sync made sure, or what was written since, too.
#[derive(Drop)]
pub(crate) enum Held {
    Sure(Row<u8>),
    Unsure(Images),
}

impl Held {
    /// What reads give.
    pub(crate) fn bytes(&self) -> &[u8]
        ensures { result.now ≡ bytes_held self.now }
    {
        match self {
            Held::Sure(bytes) => bytes.as_slice(),
            Held::Unsure(images) => images.bytes.as_slice(),
        }
    }

    /// All of its images.
    pub(crate) fn images(&self, alloc: Global) -> Result<Images, OutOfMemory>
        ensures { IfOk result (IsCopyOf self.now) }
    {
        match self {
            Held::Sure(bytes) => Images::of_sure(alloc, bytes.as_slice()),
            Held::Unsure(images) => images.copies(alloc),
        }
    }
}
