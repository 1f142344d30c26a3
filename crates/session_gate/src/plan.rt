ghost use Rattle.std.specs.Prelude.{◌≡◌, ◌||◌, ◌==◌, is_some};
ghost use Rattle.http_requests.specs.RequestReading.{asked_term};
ghost use Rattle.session_gate.specs.Notes.{wants_head};
ghost use Rattle.session_gate.specs.Plans.{closing_status, ending_after};

use crate::ending::Ending;
use crate::note_kind::NoteKind;
use http_requests::{Asked, Request};

/// What a request says of its reply, beside what it asks for.
#[derive(Clone, Copy, Debug, PartialEq, Eq)]
pub(crate) struct Plan {
    /// Whether the reply has its head alone.
    pub(crate) head_only: bool,
    /// The status that the request is refused with, where that ends the connection.
    pub(crate) closing: Option<u16>,
    /// Whether the request asks for the end of the connection.
    pub(crate) closes: bool,
}

impl Plan {
    /// What a request says.
    pub(crate) fn of(request: &Request) -> Plan
        ensures head_only { result.head_only ≡ wants_head (asked_term request.now.asked) }
        ensures closing { result.closing ≡ closing_status (asked_term request.now.asked) }
        ensures closes { result.closes ≡ request.now.closes }
    {
        let (head_only, closing) = match &request.asked {
            Asked::Page { head_only, .. } => (*head_only, None),
            Asked::Act(_) => (false, None),
            Asked::Refused {
                status,
                ends: true,
                head_only,
                ..
            } => (*head_only, Some(*status)),
            Asked::Refused { head_only, .. } => (*head_only, None),
        };
        Plan {
            head_only,
            closing,
            closes: request.closes,
        }
    }

    /// Whether the connection ends after a reply that is made, where so many are left with it.
    pub(crate) fn is_last(&self, left: u64) -> bool
        ensures { result ≡ (self.now.closes || is_some self.now.closing || (left == 1)) }
    {
        self.closes || self.closing.is_some() || left == 1
    }

    /// How the connection ends after its reply, if it does: memory ran out, the request was refused with a closing status, or it asks for
    /// the end.
    pub(crate) fn ending(&self, kind: NoteKind) -> Option<Ending>
        ensures { result ≡ ending_after self.now.closing kind self.now.closes }
    {
        match (kind, self.closing) {
            (NoteKind::Memory, _) => Some(Ending::Memory),
            (_, Some(status)) => Some(Ending::Refused(status)),
            (_, None) if self.closes => Some(Ending::Parted),
            (_, None) => None,
        }
    }
}
