use std::fs;
use task_model::TaskText;

/// The file of a disk: the name of one that isn't there yet, an open and locked one, or none any more after a sync that failed.
#[derive(Drop)]
pub(crate) enum DiskFile {
    Absent(TaskText),
    Open(fs::File),
    Closed,
}
