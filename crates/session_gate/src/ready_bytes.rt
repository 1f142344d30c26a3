ghost use Rattle.std.specs.Prelude.{◌≡◌, ◌≤◌, ◌||◌, false, true, IfOk, IsOk, IsTrue, OnErr};
ghost use Rattle.http_replies.specs.Replies.{reply_bytes, page_reply, taken_reply, memory_reply};
ghost use Rattle.http_replies.specs.ReplyForms.{HasPhrase};
ghost use Rattle.session_gate.specs.DeskAnswers.{ShowsNoPage, note_of, reply_of};
ghost use Rattle.session_gate.specs.Notes.{is_memory};
ghost use Rattle.session_gate.specs.declared.note_kind.NoteKind.TheVariants as kind;
ghost use Rattle.session_gate.specs.ReadyBytes.{ready_bytes};

use crate::answer::Answer;
use html_pages::{Headed, Page};
use http_replies::{ReplyRoom, write_head, write_reply};
use std::alloc::Global;
use task_model::{Face, OutOfMemory};

/// The bytes of a reply: a head, with a short text behind it or alone, which take no memory; or a head with a page behind it.
#[derive(Drop)]
pub(crate) enum ReadyBytes {
    Room(ReplyRoom),
    Page(Headed),
}

impl ReadyBytes {
    // The reply to an input that led to this version.
    fn taken(version: u64, closes: bool) -> ReadyBytes
        ensures { ready_bytes result ≡ reply_bytes (taken_reply version) false closes }
    {
        let mut head = ReplyRoom::new();
        write_head(303, Some(version), None, 0, closes, &mut head);
        ReadyBytes::Room(head)
    }

    /// The reply where memory ran out.
    pub(crate) fn memory() -> ReadyBytes
        ensures { ready_bytes result ≡ reply_bytes memory_reply false true }
    {
        let mut head = ReplyRoom::new();
        write_head(500, None, None, 0, true, &mut head);
        ReadyBytes::Room(head)
    }

    /// The reply of an answer, which tells the end of the connection where that `closes` or memory ran out. A page's bytes are copied only
    /// where the page has no room for the head. It fails only where memory runs out for a page.
    pub(crate) fn of(
        alloc: Global,
        answer: Answer,
        head_only: bool,
        closes: bool,
    ) -> Result<ReadyBytes, OutOfMemory>
        requires { HasPhrase (reply_of answer) }
        ensures bytes { IfOk result (λ bytes. ready_bytes bytes
            ≡ reply_bytes (reply_of answer) head_only (closes || is_memory (note_of answer).kind)) }
        ensures err { OnErr result ((note_of answer).kind ≡ kind.Page) }
    {
        match answer {
            Answer::Taken { version } => Ok(ReadyBytes::taken(version, closes)),
            Answer::Memory { .. } => Ok(ReadyBytes::memory()),
            Answer::Page { face, page } => ReadyBytes::page(alloc, face, page, head_only, closes),
            other => Ok(ReadyBytes::text(&other, head_only, closes)),
        }
    }

    // The reply that shows a page. Its head alone takes no memory, and neither does a head in the room of the page.
    fn page(
        alloc: Global,
        face: Face,
        page: Page,
        head_only: bool,
        closes: bool,
    ) -> Result<ReadyBytes, OutOfMemory>
        ensures bytes { IfOk result (λ bytes. ready_bytes bytes ≡ reply_bytes (page_reply face page.text) head_only closes) }
        ensures head { IsTrue head_only → IsOk result }
        ensures room { 256 ≤ page.room → IsOk result }
    {
        let mut head = ReplyRoom::new();
        let size = page.text().len() as u64;
        write_head(200, None, Some(face), size, closes, &mut head);
        if head_only {
            Ok(ReadyBytes::Room(head))
        } else {
            Ok(ReadyBytes::Page(page.behind(alloc, head.bytes())?))
        }
    }

    // The reply of an answer that shows no page. It takes no memory.
    fn text(answer: &Answer, head_only: bool, closes: bool) -> ReadyBytes
        requires phrase { HasPhrase (reply_of answer.now) }
        requires no_page { ShowsNoPage answer.now }
        ensures { ready_bytes result ≡ reply_bytes (reply_of answer.now) head_only closes }
    {
        let mut room = ReplyRoom::new();
        write_reply(&answer.reply(), head_only, closes, &mut room);
        ReadyBytes::Room(room)
    }

    /// The bytes.
    pub(crate) fn as_slice(&self) -> &[u8]
        ensures { result.now ≡ ready_bytes self.now }
    {
        match self {
            ReadyBytes::Room(room) => room.bytes(),
            ReadyBytes::Page(bytes) => bytes.as_slice(),
        }
    }
}
