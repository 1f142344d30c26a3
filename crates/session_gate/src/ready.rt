ghost use Rattle.std.specs.Prelude.{◌≡◌, false, true};
ghost use Rattle.http_replies.specs.Replies.{memory_reply, reply_bytes};
ghost use Rattle.http_replies.specs.ReplyForms.{HasPhrase};
ghost use Rattle.session_gate.specs.DeskAnswers.{IsReady, memory_note, reply_of};
ghost use Rattle.session_gate.specs.ReadyBytes.{ready_bytes};

use crate::answer::Answer;
use crate::note::Note;
use crate::note_kind::NoteKind;
use crate::ready_bytes::ReadyBytes;
use std::alloc::Global;

/// A reply whose memory is taken, with its note.
#[derive(Drop)]
pub(crate) struct Ready {
    pub(crate) note: Note,
    pub(crate) bytes: ReadyBytes,
}

impl Ready {
    /// The reply of an answer, which tells the end of the connection where that `closes`. An input that was taken is told without
    /// memory. Where there is none for another reply the connection ends by one that says so.
    pub(crate) fn of(alloc: Global, answer: Answer, head_only: bool, closes: bool) -> Ready
        requires { HasPhrase (reply_of answer) }
        ensures { IsReady answer head_only closes result.note (ready_bytes result.bytes) }
    {
        let note = answer.note();
        match ReadyBytes::of(alloc, answer, head_only, closes) {
            Ok(bytes) => Ready { note, bytes },
            Err(_) => Ready::out_of_memory(note.version),
        }
    }

    /// The reply where memory ran out at this version.
    pub(crate) fn out_of_memory(version: u64) -> Ready
        ensures note { result.note ≡ memory_note version }
        ensures bytes { ready_bytes result.bytes ≡ reply_bytes memory_reply false true }
    {
        Ready {
            note: Note {
                kind: NoteKind::Memory,
                version,
            },
            bytes: ReadyBytes::memory(),
        }
    }
}
