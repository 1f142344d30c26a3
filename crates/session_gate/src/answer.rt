ghost use Rattle.std.specs.Prelude.{◌≡◌};
ghost use Rattle.http_replies.specs.ReplyForms.{IsShort, reply_term};
ghost use Rattle.session_gate.specs.DeskAnswers.{ShowsNoPage, note_of, reply_of};

use crate::note::Note;
use crate::note_kind::NoteKind;
use html_pages::Page;
use http_replies::HttpReply;
use http_requests::RefusalText;
use task_model::Face;

/// What a desk answered to a request, with what the reply shows.
#[derive(Drop)]
pub(crate) enum Answer {
    Page {
        face: Face,
        page: Page,
    },
    Taken {
        version: u64,
    },
    NotOffered {
        version: u64,
    },
    Over {
        version: u64,
    },
    Ahead {
        version: u64,
    },
    Refused {
        status: u16,
        text: RefusalText,
        version: u64,
    },
    Memory {
        version: u64,
    },
}

impl Answer {
    /// Its note.
    pub(crate) fn note(&self) -> Note
        ensures { result ≡ note_of self.now }
    {
        let (kind, version) = match self {
            Answer::Page { page, .. } => (NoteKind::Page, page.version()),
            Answer::Taken { version } => (NoteKind::Taken, *version),
            Answer::NotOffered { version } => (NoteKind::NotOffered, *version),
            Answer::Over { version } => (NoteKind::Over, *version),
            Answer::Ahead { version } => (NoteKind::Ahead, *version),
            Answer::Refused {
                status,
                version,
                ..
            } => (NoteKind::Refused(*status), *version),
            Answer::Memory { version } => (NoteKind::Memory, *version),
        };
        Note { kind, version }
    }

    /// Its reply.
    pub(crate) fn reply(&self) -> HttpReply<'_>
        ensures reply { reply_term result ≡ reply_of self.now }
        ensures short { ShowsNoPage self.now → IsShort (reply_term result) }
    {
        match self {
            Answer::Page { face, page } => HttpReply::Page {
                face: *face,
                page: page.text(),
            },
            Answer::Taken { version } => HttpReply::Taken { version: *version },
            Answer::NotOffered { version } => HttpReply::NotOffered { version: *version },
            Answer::Over { version } => HttpReply::Over { version: *version },
            Answer::Ahead { version } => HttpReply::Ahead { version: *version },
            Answer::Refused { status, text, .. } => HttpReply::Refused {
                status: *status,
                text: text.as_str(),
            },
            Answer::Memory { .. } => HttpReply::Memory,
        }
    }
}
