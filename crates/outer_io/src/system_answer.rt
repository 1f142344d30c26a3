ghost use Rattle.std.specs.Prelude.{◌≡◌, ◌≢◌, IfErr, IfOk};
ghost use Rattle.std.specs.IoError.{error_kind};

use std::io;
use std::io::ErrorKind;

/// What one call of the system gave: so many bytes, that a signal interrupted it, or another error.
#[derive(Clone, Copy, Debug, PartialEq, Eq)]
pub(crate) enum SystemAnswer {
    Count(usize),
    Interrupted,
    Error,
}

impl SystemAnswer {
    /// The answer of a call that gave this.
    pub(crate) fn of(call: io::Result<usize>) -> SystemAnswer
        ensures count { IfOk call (λ count. result ≡ SystemAnswer.Count count) }
        ensures interrupted { IfErr call (λ error. error_kind error ≡ ErrorKind.Interrupted → result ≡ SystemAnswer.Interrupted) }
        ensures error { IfErr call (λ error. error_kind error ≢ ErrorKind.Interrupted → result ≡ SystemAnswer.Error) }
    {
        match call {
            Ok(count) => SystemAnswer::Count(count),
            Err(error) if error.kind() == ErrorKind::Interrupted => SystemAnswer::Interrupted,
            Err(_) => SystemAnswer::Error,
        }
    }
}
