ghost use Rattle.std.specs.Prelude.{◌≡◌};
ghost use Rattle.http_replies.specs.Replies.{reply_status, reply_location, reply_kind};
ghost use Rattle.http_replies.specs.ReplyForms.{reply_term, HasPhrase};

use task_model::Face;

/// What is replied to a request (docs/FORMATS.md, "Replies").
#[derive(Clone, Copy)]
pub enum HttpReply<'t> {
    /// A page in its face.
    Page { face: Face, page: &'t str },
    /// The input was taken, and led to this version.
    Taken { version: u64 },
    /// The page that was asked for is ahead of this version.
    Ahead { version: u64 },
    /// The input isn't offered at this version.
    NotOffered { version: u64 },
    /// The input went over the budget at this version.
    Over { version: u64 },
    /// The request was refused with this status and this text, which has no LF.
    Refused { status: u16, text: &'t str },
    /// Memory ran out.
    Memory,
}

impl<'t> HttpReply<'t> {
    /// The status.
    pub(crate) fn status(&self) -> u16
        ensures { result ≡ reply_status (reply_term self.now) }
    {
        match self {
            HttpReply::Page { .. } => 200,
            HttpReply::Taken { .. } => 303,
            HttpReply::Ahead { .. } | HttpReply::NotOffered { .. } | HttpReply::Over { .. } => 409,
            HttpReply::Refused { status, .. } => *status,
            HttpReply::Memory => 500,
        }
    }

    /// The version that `Location` tells, if there is one.
    pub(crate) fn location(&self) -> Option<u64>
        ensures { result ≡ reply_location (reply_term self.now) }
    {
        match self {
            HttpReply::Taken { version } => Some(*version),
            _ => None,
        }
    }

    /// The kind of the body, if it has one.
    pub(crate) fn kind(&self) -> Option<Face>
        ensures { result ≡ reply_kind (reply_term self.now) }
    {
        match self {
            HttpReply::Page { face, .. } => Some(*face),
            HttpReply::Taken { .. } | HttpReply::Memory => None,
            _ => Some(Face::Text),
        }
    }
}
