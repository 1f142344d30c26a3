//! How a file of the system is found, made and locked.
use std::fs::OpenOptions;
use std::io::ErrorKind;
use std::os::fd::AsRawFd;
use std::path::PathBuf;
use std::{fs, io};

/// The file of a name, open, locked and settled. None: there is no such file, but a folder in which it can be made.
pub(crate) fn find_file(rt: &HostRuntime, name: &str) -> io::Result<Option<fs::File>> {
    match fs::canonicalize(rt, name) {
        Ok(path) => Ok(Some(open_file(rt, path)?)),
        Err(error) if error.kind() == ErrorKind::NotFound => {
            settle_absence(rt, name)?;
            Ok(None)
        }
        Err(error) => Err(error),
    }
}

/// Makes the file of a name where nothing has that name, locks it, and makes sure of it.
pub(crate) fn make_file(rt: &HostRuntime, name: &str) -> io::Result<fs::File> {
    let file = OpenOptions::new()
        .read(true)
        .write(true)
        .create_new(true)
        .open(rt, name)?;
    settle(rt, file, fs::canonicalize(rt, name)?)
}

// Opens the file of a path without links. What is no plain file isn't opened, since that may do something.
fn open_file(rt: &HostRuntime, path: PathBuf) -> io::Result<fs::File> {
    if !fs::metadata(rt, path.as_str())?.is_file() {
        return Err(ErrorKind::Unsupported.into());
    }
    let file = OpenOptions::new()
        .read(true)
        .write(true)
        .open(rt, path.as_str())?;
    settle(rt, file, path)
}

// Locks a file, makes sure of it and of its name in its folder, and drops the system's copies of its bytes, which a failed sync of an
// earlier process may have left other than the disk has them.
fn settle(rt: &HostRuntime, mut file: fs::File, mut path: PathBuf) -> io::Result<fs::File> {
    // What is meant for a standard stream that was closed must not land in the file.
    if file.as_raw_fd() <= 2 {
        file = file.try_clone()?;
    }
    if !file.metadata()?.is_file() {
        return Err(ErrorKind::Unsupported.into());
    }
    file.try_lock()?;
    file.sync_all()?;
    drop_copies(&file)?;
    path.pop();
    fs::File::open(rt, path.as_str())?.sync_all()?;
    Ok(file)
}

fn drop_copies(file: &fs::File) -> io::Result<()> {
    match libc::posix_fadvise(file.as_raw_fd(), 0, 0, libc::POSIX_FADV_DONTNEED) {
        0 => Ok(()),
        refused => Err(io::Error::from_raw_os_error(refused)),
    }
}

// Makes sure that a name has no file. It fails where the name isn't one for a file, or is a link that leads nowhere, and where its folder
// isn't there.
fn settle_absence(rt: &HostRuntime, name: &str) -> io::Result<()> {
    let (folder, file) = match name.rsplit_once('/') {
        Some(("", file)) => ("/", file),
        Some(parts) => parts,
        None => (".", name),
    };
    if file.is_empty() || fs::symlink_metadata(rt, name).is_ok() {
        return Err(ErrorKind::Unsupported.into());
    }
    fs::File::open(rt, folder)?.sync_all()
}
