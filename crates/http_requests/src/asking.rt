ghost use Rattle.std.specs.Prelude.{◌≡◌, ◌++◌, IfOk, codes, decimal, false};
ghost use Rattle.http_heads.specs.Heads.{HeadTerm};
ghost use Rattle.http_heads.specs.Spans.{SaysOf};
ghost use Rattle.http_heads.specs.Checks.{check_status};
ghost use Rattle.http_requests.specs.Requests as requests;
ghost use Rattle.http_requests.specs.Requests.{refused_by, IsAskedByForm, IsAskedBy};
ghost use Rattle.http_requests.specs.RequestReading.{asked_term};

use crate::asked::Asked;
use crate::refusal_text::RefusalText;
use http_forms::{FormStop, QueryStop, read_form, read_query};
use http_heads::{Check, HeadFacts};
use std::alloc::Global;
use task_model::OutOfMemory;

/// What a head with this body asks for.
pub(crate) fn asked(alloc: Global, facts: &HeadFacts<'_>, body: &[u8]) -> Result<Asked, OutOfMemory>
    ensures { (h : HeadTerm) → SaysOf facts.now h → IfOk result (λ asked. IsAskedBy h body.now (asked_term asked)) }
{
    if let Some(check) = facts.failed {
        return Ok(refused(check, facts.head_only));
    }
    if facts.posts {
        asked_by_form(alloc, body)
    } else {
        asked_by_query(alloc, facts.query, facts.head_only)
    }
}

fn asked_by_query(alloc: Global, query: &[u8], head_only: bool) -> Result<Asked, OutOfMemory>
    ensures { IfOk result (λ asked. asked_term asked ≡ requests.asked_by_query query.now head_only) }
{
    match read_query(alloc, query) {
        Ok(page) => Ok(Asked::Page {
            face: page.face,
            at_least: page.at_least,
            head_only,
        }),
        Err(QueryStop::Malformed) => Ok(refused(Check::GoodContent, head_only)),
        Err(QueryStop::Memory) => Err(OutOfMemory),
    }
}

fn asked_by_form(alloc: Global, form: &[u8]) -> Result<Asked, OutOfMemory>
    ensures { IfOk result (λ asked. IsAskedByForm form.now (asked_term asked)) }
{
    match read_form(alloc, form) {
        Ok(input) => Ok(Asked::Act(input)),
        Err(FormStop::Malformed) => Ok(refused(Check::GoodContent, false)),
        Err(FormStop::Bad(bad)) => Ok(bad_literal(bad.place)),
        Err(FormStop::Memory) => Err(OutOfMemory),
    }
}

/// Refused by a check.
pub(crate) fn refused(check: Check, head_only: bool) -> Asked
    ensures { asked_term result ≡ refused_by check head_only }
{
    Asked::Refused {
        status: check.status(),
        text: RefusalText::of_check(check),
        ends: check.ends(),
        head_only,
    }
}

/// Refused for a literal that is bad at this place.
fn bad_literal(place: u64) -> Asked
    ensures { asked_term result
        ≡ requests.refused (check_status Check.GoodContent) (codes "bad literal at " ++ decimal place) false false }
{
    Asked::Refused {
        status: Check::GoodContent.status(),
        text: RefusalText::bad_literal(place),
        ends: false,
        head_only: false,
    }
}
