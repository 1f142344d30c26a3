//! The files of the system as disks. They tell nothing of their bytes: that a file is an honest disk is trusted. (docs/PROMISE.md, "What
//! is trusted"; docs/FORMATS.md, "Journals".)
#![tactic(auto)]

mod disk_file;
mod opening;
mod system_disk;
mod system_disks;

pub use system_disk::SystemDisk;
pub use system_disks::SystemDisks;
