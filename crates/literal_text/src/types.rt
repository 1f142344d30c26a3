ghost use Rattle.std.specs.Prelude.{◌≡◌, ◌≤◌, MatchOption};
ghost use Rattle.exact_reading.specs.Reading.{Right, seen, Always, NoToken};
ghost use Rattle.task_model.specs.Terms.Basic.{basic_term};
ghost use Rattle.literal_text.specs.LiteralReading.{TypeName, ListName, PairName, NoBlank};

use crate::words::{begins, word};
use exact_reading::{ParseStop, unexpected};
use std::alloc::Global;
use std::sync::Arc;
use task_model::Basic;

/// A type, and how many symbols it has.
#[derive(Drop)]
pub(crate) struct Measured {
    pub(crate) basic: Basic,
    pub(crate) symbols: usize,
}

/// The name of a type of at most so many symbols.
#[cycle(basic)]
pub(crate) fn basic(
    alloc: Global,
    room: usize,
    bytes: &[u8],
) -> Result<(Measured, &[u8]), ParseStop>
    requires { 1 ≤ room }
    ensures { Right (TypeName room) Always NoBlank bytes.now (seen (λ r. ((basic_term r.0.basic, r.0.symbols), r.1.now)) result) }
{
    if begins(bytes, b'(') {
        return pair(alloc, room, bytes);
    }
    if begins(bytes, b'[') {
        return list(alloc, room, bytes);
    }
    if begins(bytes, b'u') {
        let rest = word(bytes, b"unit")?;
        return Ok((one(Basic::Unit), rest));
    }
    if begins(bytes, b'b') {
        let rest = word(bytes, b"bool")?;
        return Ok((one(Basic::Bool), rest));
    }
    if begins(bytes, b'i') {
        let rest = word(bytes, b"int")?;
        return Ok((one(Basic::Int), rest));
    }
    let rest = word(bytes, b"text")?;
    Ok((one(Basic::Text), rest))
}

fn one(basic: Basic) -> Measured
    ensures basic { result.basic ≡ basic }
    ensures symbols { result.symbols ≡ 1 }
{
    Measured { basic, symbols: 1 }
}

/// A pair, which is one symbol besides those of its parts.
#[cycle(basic)]
fn pair(alloc: Global, room: usize, bytes: &[u8]) -> Result<(Measured, &[u8]), ParseStop>
    ensures { Right (PairName room) Always NoBlank bytes.now (seen (λ r. ((basic_term r.0.basic, r.0.symbols), r.1.now)) result) }
{
    if room < 3 {
        return Err(unexpected(bytes));
    }
    let rest = word(bytes, b"(")?;
    let (first, rest) = basic(alloc, room - 2, rest)?;
    let rest = word(rest, b",")?;
    let (second, rest) = basic(alloc, room - 1 - first.symbols, rest)?;
    let rest = word(rest, b")")?;
    let symbols = 1 + first.symbols + second.symbols;
    let first = Arc::new(alloc, first.basic)?;
    let basic = Basic::Pair(first, Arc::new(alloc, second.basic)?);
    Ok((Measured { basic, symbols }, rest))
}

/// A list, which is one symbol besides those of its elements' type.
#[cycle(basic)]
fn list(alloc: Global, room: usize, bytes: &[u8]) -> Result<(Measured, &[u8]), ParseStop>
    ensures { Right (ListName room) Always NoBlank bytes.now (seen (λ r. ((basic_term r.0.basic, r.0.symbols), r.1.now)) result) }
{
    if room < 2 {
        return Err(unexpected(bytes));
    }
    let rest = word(bytes, b"[")?;
    let (item, rest) = basic(alloc, room - 1, rest)?;
    let rest = word(rest, b"]")?;
    let symbols = 1 + item.symbols;
    let basic = Basic::List(Arc::new(alloc, item.basic)?);
    Ok((Measured { basic, symbols }, rest))
}
