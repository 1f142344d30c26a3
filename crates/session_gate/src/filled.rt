ghost use Rattle.std.specs.Prelude.{◌≡◌};
ghost use Rattle.session_gate.specs.Readings.{filled_of};

use outer_io::Got;

/// What one read behind the kept bytes came to.
#[derive(Clone, Copy, Debug, PartialEq, Eq)]
pub(crate) enum Filled {
    /// There are more bytes.
    More,
    /// The link has ended.
    Ended,
    /// The read failed.
    Failed,
    /// Memory ran out.
    Memory,
}

impl Filled {
    /// What this answer of the read says.
    pub(crate) fn of(got: Got) -> Filled
        ensures { result ≡ filled_of got }
    {
        match got {
            Got::Took(_) => Filled::More,
            Got::End => Filled::Ended,
            Got::Failed => Filled::Failed,
        }
    }
}
