ghost use Rattle.std.specs.Prelude.{◌≤◌, None, Some};
ghost use Rattle.exact_reading.specs.Reading.{Right, seen, Always};
ghost use Rattle.task_model.specs.Terms.Basic.{basic_term};
ghost use Rattle.task_model.specs.Terms.Value.{value_term};
ghost use Rattle.literal_text.specs.LiteralReading.{Lit, ListLiteral, NoElements, UnitLiteral, UnitEnd, PairEnd, BoolLiteral, NoBlank, Ends, want_of, fewest, fewest_levels};
ghost use Rattle.literal_text.specs.LiteralReading as literals;

use crate::ints::int;
use crate::texts::text;
use crate::wanted::{Wanted, fits};
use crate::words::{begins, word};
use exact_reading::{ParseStop, unexpected};
use std::alloc::Global;
use std::sync::Arc;
use task_model::{Basic, Elements, LIST_ELEMENT_LIMIT, Row, Value};

/// A literal of what is wanted, of at most so many levels.
#[cycle(value)]
pub(crate) fn value<'a>(
    alloc: Global,
    wanted: Wanted,
    room: usize,
    bytes: &'a [u8],
) -> Result<(Value, &'a [u8]), ParseStop>
    requires { fewest (want_of wanted) ≤ room }
    ensures { Right (Lit (want_of wanted.entry) room) Always Ends bytes.now (seen (λ r. (value_term r.0, r.1.now)) result) }
{
    match wanted {
        Wanted::Any => any(alloc, room, bytes),
        Wanted::Of(b) => typed(alloc, b, room, bytes),
    }
}

/// A literal of a type.
#[cycle(value)]
fn typed<'a>(
    alloc: Global,
    b: &Basic,
    room: usize,
    bytes: &'a [u8],
) -> Result<(Value, &'a [u8]), ParseStop>
    requires { fewest_levels (basic_term b.now) ≤ room }
    ensures { Right (Lit (Some (basic_term b.now)) room) Always Ends bytes.now (seen (λ r. (value_term r.0, r.1.now)) result) }
{
    match b {
        Basic::Unit => unit(bytes),
        Basic::Bool => truth(bytes),
        Basic::Int => int(bytes),
        Basic::Text => text(alloc, bytes),
        Basic::Pair(first, second) => {
            let rest = word(bytes, b"(")?;
            pair(alloc, Wanted::Of(first), Wanted::Of(second), room - 1, rest)
        }
        Basic::List(item) => list(alloc, Wanted::Of(item), room - 1, bytes),
    }
}

/// A literal of any type.
#[cycle(value)]
fn any(alloc: Global, room: usize, bytes: &[u8]) -> Result<(Value, &[u8]), ParseStop>
    requires { 1 ≤ room }
    ensures { Right (Lit None room) Always Ends bytes.now (seen (λ r. (value_term r.0, r.1.now)) result) }
{
    if begins(bytes, b'(') {
        let rest = word(bytes, b"(")?;
        if room < 2 {
            return unit_end(rest);
        }
        if begins(rest, b')') {
            return unit_end(rest);
        }
        return pair(alloc, Wanted::Any, Wanted::Any, room - 1, rest);
    }
    if begins(bytes, b'[') {
        return list(alloc, Wanted::Any, room - 1, bytes);
    }
    if begins(bytes, b'"') {
        return text(alloc, bytes);
    }
    if begins(bytes, b't') {
        return truth(bytes);
    }
    if begins(bytes, b'f') {
        return truth(bytes);
    }
    int(bytes)
}

/// The parts of a pair and the bracket at its end; each part has at most so many levels.
#[cycle(value)]
fn pair<'a>(
    alloc: Global,
    first: Wanted,
    second: Wanted,
    room: usize,
    bytes: &'a [u8],
) -> Result<(Value, &'a [u8]), ParseStop>
    requires first { fewest (want_of first) ≤ room }
    requires second { fewest (want_of second) ≤ room }
    ensures { Right (PairEnd (want_of first.entry) (want_of second.entry) room) Always NoBlank bytes.now
        (seen (λ r. (value_term r.0, r.1.now)) result) }
{
    let (left, rest) = value(alloc, first, room, bytes)?;
    let rest = word(rest, b",")?;
    let (right, rest) = value(alloc, second, room, rest)?;
    let rest = word(rest, b")")?;
    let left = Arc::new(alloc, left)?;
    Ok((Value::Pair(left, Arc::new(alloc, right)?), rest))
}

/// A list whose elements have at most so many levels.
#[cycle(value)]
fn list<'a>(
    alloc: Global,
    item: Wanted,
    room: usize,
    bytes: &'a [u8],
) -> Result<(Value, &'a [u8]), ParseStop>
    ensures { Right (ListLiteral (want_of item.entry) room) Always NoBlank bytes.now (seen (λ r. (value_term r.0, r.1.now)) result) }
{
    let rest = word(bytes, b"[")?;
    if begins(rest, b']') {
        return no_elements(alloc, rest);
    }
    if !fits(item, room) {
        return no_elements(alloc, rest);
    }
    elements(alloc, item, room, rest)
}

/// The elements of a list, at least one, and the bracket at its end.
#[cycle(value)]
fn elements<'a>(
    alloc: Global,
    item: Wanted,
    room: usize,
    bytes: &'a [u8],
) -> Result<(Value, &'a [u8]), ParseStop>
    requires { fewest (want_of item) ≤ room }
    ensures { Right (literals.Elements (want_of item.entry) room) Always NoBlank bytes.now (seen (λ r. (value_term r.0, r.1.now)) result) }
{
    let mut items = Vec::new(alloc);
    let (first, mut rest) = value(alloc, item, room, bytes)?;
    items.push(first)?;
    while begins(rest, b',') {
        if items.len() >= LIST_ELEMENT_LIMIT {
            return Err(unexpected(rest));
        }
        let after = word(rest, b",")?;
        let (next, after) = value(alloc, item, room, after)?;
        items.push(next)?;
        rest = after;
    }
    let rest = word(rest, b"]")?;
    let Ok(items) = Elements::of(alloc, Row::of_vec(items)) else {
        return Err(ParseStop::Memory);
    };
    Ok((Value::List(items), rest))
}

fn no_elements(alloc: Global, bytes: &[u8]) -> Result<(Value, &[u8]), ParseStop>
    ensures { Right NoElements Always NoBlank bytes.now (seen (λ r. (value_term r.0, r.1.now)) result) }
{
    let rest = word(bytes, b"]")?;
    let Ok(none) = Elements::of(alloc, Row::new(alloc)) else {
        return Err(ParseStop::Memory);
    };
    Ok((Value::List(none), rest))
}

fn unit(bytes: &[u8]) -> Result<(Value, &[u8]), ParseStop>
    ensures { Right UnitLiteral Always NoBlank bytes.now (seen (λ r. (value_term r.0, r.1.now)) result) }
{
    let rest = word(bytes, b"(")?;
    unit_end(rest)
}

fn unit_end(bytes: &[u8]) -> Result<(Value, &[u8]), ParseStop>
    ensures { Right UnitEnd Always NoBlank bytes.now (seen (λ r. (value_term r.0, r.1.now)) result) }
{
    let rest = word(bytes, b")")?;
    Ok((Value::Unit, rest))
}

fn truth(bytes: &[u8]) -> Result<(Value, &[u8]), ParseStop>
    ensures { Right BoolLiteral Always NoBlank bytes.now (seen (λ r. (value_term r.0, r.1.now)) result) }
{
    if begins(bytes, b'f') {
        let rest = word(bytes, b"false")?;
        return Ok((Value::Bool(false), rest));
    }
    let rest = word(bytes, b"true")?;
    Ok((Value::Bool(true), rest))
}
