ghost use Rattle.std.specs.Prelude.{◌≡◌, IsTrue, None, Some, false};

use std::net::TcpStream;
use std::time::Duration;

/// How long the calls of a connection may wait, as it was set. None: it isn't known. The system is asked only where another limit is
/// wanted than the one that stands.
#[derive(Clone, Copy, Debug, PartialEq, Eq)]
pub(crate) struct CallLimits {
    read: Option<Duration>,
    write: Option<Duration>,
}

impl CallLimits {
    /// No limit was set.
    pub(crate) fn new() -> CallLimits
        ensures { result ≡ record { read = None; write = None } }
    {
        CallLimits {
            read: None,
            write: None,
        }
    }

    /// Has reads of the connection wait so long at most. False: the system refused that.
    pub(crate) fn limit_reads(&mut self, stream: &TcpStream, limit: Duration) -> bool
        ensures stands { IsTrue result → self.new.read ≡ Some limit }
        ensures refused { result ≡ false → self.new.read ≡ None }
        ensures write { self.new.write ≡ self.old.write }
    {
        if self.read == Some(limit) {
            return true;
        }
        let is_set = stream.set_read_timeout(Some(limit)).is_ok();
        self.read = if is_set { Some(limit) } else { None };
        is_set
    }

    /// Has writes to the connection wait so long at most. False: the system refused that.
    pub(crate) fn limit_writes(&mut self, stream: &TcpStream, limit: Duration) -> bool
        ensures stands { IsTrue result → self.new.write ≡ Some limit }
        ensures refused { result ≡ false → self.new.write ≡ None }
        ensures read { self.new.read ≡ self.old.read }
    {
        if self.write == Some(limit) {
            return true;
        }
        let is_set = stream.set_write_timeout(Some(limit)).is_ok();
        self.write = if is_set { Some(limit) } else { None };
        is_set
    }
}
