ghost use Rattle.std.specs.Prelude.{◌≡◌, Bool, None, Some};
ghost use Rattle.task_model.specs.Terms.Input.{input_term};
ghost use Rattle.task_model.specs.Running.State.{IsLegal};
ghost use Rattle.http_requests.specs.RequestReading.{asked_term};
ghost use Rattle.http_requests.specs.Requests.{asks_act, asks_page};
ghost use Rattle.session_gate.specs.DeskAnswers.{IsDeskAnswer, note_of, reply_of};

use crate::answer::Answer;
use http_requests::Asked;
use session_desk::{Desk, PageStop, ViewStop};
use std::alloc::Global;
use std::sync::Wait;
use task_model::{ActStop, Face, Input};

/// What a desk answers. The version of the answer is that of the history which the desk has then seen.
pub(crate) fn answer<D: Desk, R: Wait>(rt: &R, alloc: Global, desk: &mut D, asked: Asked) -> Answer
    requires legal { IsLegal (D.at desk.old).seen }
    ensures { IsDeskAnswer (asked_term asked) (D.at desk.old) (D.at desk.new) (note_of result) (reply_of result) }
{
    match asked {
        Asked::Page { face, at_least, .. } => shown(rt, alloc, desk, face, at_least),
        Asked::Act(input) => acted(rt, alloc, desk, input),
        Asked::Refused { status, text, .. } => Answer::Refused {
            status,
            text,
            version: desk.seen(),
        },
    }
}

// A page, of at least a version where one is named.
fn shown<D: Desk, R: Wait>(
    rt: &R,
    alloc: Global,
    desk: &mut D,
    face: Face,
    version: Option<u64>,
) -> Answer
    requires legal { IsLegal (D.at desk.old).seen }
    ensures { (head_only : Bool) → IsDeskAnswer (asks_page face version head_only) (D.at desk.old) (D.at desk.new) (note_of result)
        (reply_of result) }
{
    match version {
        None => newest(rt, alloc, desk, face),
        Some(version) => at_least(rt, alloc, desk, face, version),
    }
}

// The newest page. Where an entry is refused to it, it is asked for as a page of any version.
fn newest<D: Desk, R: Wait>(rt: &R, alloc: Global, desk: &mut D, face: Face) -> Answer
    requires legal { IsLegal (D.at desk.old).seen }
    ensures { (head_only : Bool) → IsDeskAnswer (asks_page face None head_only) (D.at desk.old) (D.at desk.new) (note_of result)
        (reply_of result) }
{
    match desk.page(alloc, face) {
        Ok(page) => Answer::Page { face, page },
        Err(ViewStop::NoEntry) => match desk.page_at(rt, alloc, face, 0) {
            Ok(page) => Answer::Page { face, page },
            Err(PageStop::Ahead { .. }) => unreachable!(),
            Err(PageStop::Memory) => Answer::Memory {
                version: desk.seen(),
            },
        },
        Err(ViewStop::Memory) => Answer::Memory {
            version: desk.seen(),
        },
    }
}

// A page of at least this version.
fn at_least<D: Desk, R: Wait>(
    rt: &R,
    alloc: Global,
    desk: &mut D,
    face: Face,
    version: u64,
) -> Answer
    requires legal { IsLegal (D.at desk.old).seen }
    ensures { (head_only : Bool) → IsDeskAnswer (asks_page face (Some version) head_only) (D.at desk.old) (D.at desk.new) (note_of result)
        (reply_of result) }
{
    match desk.page_at(rt, alloc, face, version) {
        Ok(page) => Answer::Page { face, page },
        Err(PageStop::Ahead { have }) => Answer::Ahead { version: have },
        Err(PageStop::Memory) => Answer::Memory {
            version: desk.seen(),
        },
    }
}

// What became of an input.
fn acted<D: Desk, R: Wait>(rt: &R, alloc: Global, desk: &mut D, input: Input) -> Answer
    requires legal { IsLegal (D.at desk.old).seen }
    ensures { IsDeskAnswer (asks_act (input_term input)) (D.at desk.old) (D.at desk.new) (note_of result) (reply_of result) }
{
    match desk.act(rt, alloc, input) {
        Ok(version) => Answer::Taken { version },
        Err(ActStop::NotOffered) => Answer::NotOffered {
            version: desk.seen(),
        },
        Err(ActStop::Over) => Answer::Over {
            version: desk.seen(),
        },
        Err(ActStop::Memory) => Answer::Memory {
            version: desk.seen(),
        },
    }
}
