use std::io;
use std::io::{ErrorKind, Read, Write};

/// A reader of which every other read is interrupted, and which may break where its bytes end.
#[derive(Drop)]
pub(crate) struct FlakyReader {
    pub(crate) bytes: &'static [u8],
    pub(crate) breaks: bool,
    pub(crate) is_quiet: bool,
}

impl Read for FlakyReader {
    fn read(&mut self, buf: &mut [u8]) -> io::Result<usize> {
        self.is_quiet = !self.is_quiet;
        if !self.is_quiet {
            return Err(io::Error::from(ErrorKind::Interrupted));
        }
        if self.breaks && self.bytes.is_empty() {
            return Err(io::Error::from(ErrorKind::PermissionDenied));
        }
        let mut rest = self.bytes;
        let count = rest.read(buf)?;
        self.bytes = rest;
        Ok(count)
    }
}

/// A writer of which every other write is interrupted, and which takes two bytes at a time and so
/// many in all.
#[derive(Drop)]
pub(crate) struct FlakyWriter {
    pub(crate) left: usize,
    pub(crate) is_quiet: bool,
}

impl Write for FlakyWriter {
    fn write(&mut self, buf: &[u8]) -> io::Result<usize> {
        self.is_quiet = !self.is_quiet;
        if !self.is_quiet {
            return Err(io::Error::from(ErrorKind::Interrupted));
        }
        let count = self.left.min(buf.len()).min(2);
        self.left -= count;
        Ok(count)
    }

    fn flush(&mut self) -> io::Result<()> {
        Ok(())
    }
}
