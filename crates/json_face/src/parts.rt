ghost use Rattle.std.specs.Prelude.{◌≡◌, ◌≤◌, ◌<◌, ◌^◌, ℕ, List, Err, IfOk, MatchOption, codes};
ghost use Rattle.task_model.specs.Running.State.{IsSeat};
ghost use Rattle.task_model.specs.Terms.Basic.{BasicTerm, basic_term};
ghost use Rattle.task_model.specs.Checking.TypeParts.{symbols_of};
ghost use Rattle.task_model.specs.Syntax.Literal.{basic_text};
ghost use Rattle.task_model.specs.Showing.Page.{path_text};
ghost use Rattle.task_model.specs.declared.input.Turn.{Turn};
ghost use Rattle.task_model.specs.declared.widget.Sign.{Sign};
ghost use Rattle.json_face.specs.JsonPages.{sign_word};
ghost use Rattle.json_face.specs.Fields.{left};
ghost use Rattle.json_face.specs.declared.stop.JsonStop.TheVariants as JsonStop;
ghost use Rattle.serde_json.specs.Data.{Members, member, number, unsigned, string};

use crate::fields::Fields;
use crate::stop::JsonStop;
use input_paths::whole_path;
use literal_text::{LiteralStop, print_basic, read_basic};
use std::alloc::Global;
use task_model::{Basic, Path, SEAT_LIMIT, Sign};

/// A seat, 1 to 64, if that is the next member.
pub(crate) fn take_seat(fields: &mut Fields<'_>) -> Option<u8>
    ensures { MatchOption result ((s : ℕ) (ms : Members) → left fields.old ≡ member (codes "seat") (number (unsigned s)) ms → IsSeat s → ⊥)
        (λ s. (left fields.old ≡ member (codes "seat") (number (unsigned s)) (left fields.new)) × IsSeat s) }
{
    let seat = take_count(fields, "seat")?;
    if seat < 1 {
        return None;
    }
    if seat > SEAT_LIMIT as u64 {
        return None;
    }
    Some(seat as u8)
}

/// A whole number that 64 bits hold and that isn't negative, if that is the next member, at this key.
#[tactic(auto, using(crate::proofs::PartLemmas::unsigned_only))]
pub(crate) fn take_count(fields: &mut Fields<'_>, key: &str) -> Option<u64>
    ensures { MatchOption result ((n : ℕ) (ms : Members) → left fields.old ≡ member key.now (number (unsigned n)) ms → ⊥)
        (λ n. left fields.old ≡ member key.now (number (unsigned n)) (left fields.new)) }
{
    fields.take(key)?.as_u64()
}

/// A string, if that is the next member, at this key.
#[tactic(auto, using(crate::proofs::PartLemmas::string_only))]
pub(crate) fn take_text<'a>(fields: &mut Fields<'a>, key: &str) -> Option<&'a str>
    ensures { MatchOption result ((t : List ℕ) (ms : Members) → left fields.old ≡ member key.now (string t) ms → ⊥)
        (λ t. left fields.old ≡ member key.now (string t.now) (left fields.new)) }
{
    fields.take(key)?.as_str()
}

/// A path, if that is the next member.
pub(crate) fn take_path(alloc: Global, fields: &mut Fields<'_>) -> Result<Path, JsonStop>
    ensures found { IfOk result (λ p. left fields.old ≡ member (codes "path") (string (path_text p.turns)) (left fields.new)) }
    ensures bad { result ≡ Err JsonStop.Bad → (path : List Turn) (ms : Members)
        → left fields.old ≡ member (codes "path") (string (path_text path)) ms → ⊥ }
{
    let Some(text) = take_text(fields, "path") else {
        return Err(JsonStop::Bad);
    };
    match whole_path(alloc, text.as_bytes())? {
        Some(path) => Ok(path),
        None => Err(JsonStop::Bad),
    }
}

/// A sign, if that is the next member, at this key.
pub(crate) fn take_sign(fields: &mut Fields<'_>, key: &str) -> Option<Sign>
    ensures { MatchOption result ((s : Sign) (ms : Members) → left fields.old ≡ member key.now (string (sign_word s)) ms → ⊥)
        (λ s. left fields.old ≡ member key.now (string (sign_word s)) (left fields.new)) }
{
    match take_text(fields, key)? {
        "no" => Some(Sign::No),
        "yes" => Some(Sign::Yes),
        "over" => Some(Sign::Over),
        _ => None,
    }
}

/// A type of at most 64 symbols as it is printed, if that is the next member.
pub(crate) fn take_type(alloc: Global, fields: &mut Fields<'_>) -> Result<Basic, JsonStop>
    ensures found { IfOk result (λ b. left fields.old ≡ member (codes "type") (string (basic_text (basic_term b))) (left fields.new)) }
    ensures small { IfOk result (λ b. symbols_of (basic_term b) ≤ 64) }
    ensures bad { result ≡ Err JsonStop.Bad → (b : BasicTerm) (ms : Members)
        → left fields.old ≡ member (codes "type") (string (basic_text b)) ms → symbols_of b ≤ 64 → ⊥ }
{
    let Some(text) = take_text(fields, "type") else {
        return Err(JsonStop::Bad);
    };
    named_type(alloc, text)
}

/// The type of at most 64 symbols that is printed so.
fn named_type(alloc: Global, text: &str) -> Result<Basic, JsonStop>
    ensures found { IfOk result (λ b. text.now ≡ basic_text (basic_term b)) }
    ensures small { IfOk result (λ b. symbols_of (basic_term b) ≤ 64) }
    ensures bad { result ≡ Err JsonStop.Bad → (b : BasicTerm) → text.now ≡ basic_text b → symbols_of b ≤ 64 → ⊥ }
{
    let b = match read_basic(alloc, text.as_bytes()) {
        Ok(b) => b,
        Err(LiteralStop::Bad(_)) => return Err(JsonStop::Bad),
        Err(LiteralStop::Memory) => return Err(JsonStop::Memory),
    };
    let printed = print_basic(alloc, &b)?;
    if printed.as_str() != text {
        return Err(JsonStop::Bad);
    }
    Ok(b)
}
