//! Disks: bytes that are read and written at offsets, synced, and left by a crash as some of their images. Those in memory tell their
//! bytes and fail at chosen calls. (docs/RULES.md, "Disks".)
#![tactic(auto, using(crate::proofs::Kept::kept_rests, crate::proofs::Kept::kept_trans, crate::proofs::Kept::failed_writes, crate::proofs::Kept::failed_syncs))]

mod disk;
mod disks;
mod held;
mod images;
mod mem_disk;
mod mem_disks;

pub use disk::{Disk, DiskDone, DiskGot, DiskLength};
pub use disks::{DiskOpen, Disks};
pub use mem_disk::MemDisk;
pub use mem_disks::MemDisks;
