ghost use Rattle.std.specs.Prelude.{◌≡◌, ◌≤◌, ◌+◌, ℕ, length, IfOk, IfErr, MatchResult};
ghost use Rattle.exact_reading.specs.Reading.{Always};
ghost use Rattle.task_model.specs.Terms.Basic.{BasicTerm, basic_term};
ghost use Rattle.task_model.specs.Terms.Value.{ValueTerm, value_term};
ghost use Rattle.task_model.specs.Checking.TypeParts.{symbols_of};
ghost use Rattle.literal_text.specs.Literals.{IsLiteral, IsLiteralOf};
ghost use Rattle.literal_text.specs.Types.{IsTypeName};
ghost use Rattle.literal_text.specs.LiteralPlaces.{IsStopAt};
ghost use Rattle.literal_text.specs.LiteralReading.{Whole, want_of, fewest};

use crate::stop::{BadLiteral, LiteralStop};
use crate::types::basic;
use crate::values::value;
use crate::wanted::{Wanted, fits};
use exact_reading::{ParseStop, place, skip};
use std::alloc::Global;
use task_model::{Basic, LITERAL_LEVEL_LIMIT, TYPE_SYMBOL_LIMIT, Value};

/// The value of a literal of any type.
pub fn read_any(alloc: Global, bytes: &[u8]) -> Result<Value, LiteralStop>
    // The bytes are a literal of the value.
    ensures found { IfOk result (λ v. IsLiteral bytes.now (value_term v)) }
    // They are no literal of another value, and a literal is refused only for want of memory.
    ensures only { (v : ValueTerm) → IsLiteral bytes.now v
        → MatchResult result (λ w. value_term w ≡ v) (λ e. e ≡ LiteralStop.Memory) }
    // Else the place is the length of their longest prefix that begins a literal.
    ensures bad { IfErr result (λ e. IsStopAt IsLiteral bytes.now e) }
{
    whole(alloc, Wanted::Any, bytes)
}

/// The value of a literal of a type.
pub fn read_value(alloc: Global, bytes: &[u8], b: &Basic) -> Result<Value, LiteralStop>
    // The bytes are a literal of the value, which has the type.
    ensures found { IfOk result (λ v. IsLiteralOf (basic_term b.now) bytes.now (value_term v)) }
    // They are no literal of another value of the type, and such a literal is refused only for want of memory.
    ensures only { (v : ValueTerm) → IsLiteralOf (basic_term b.now) bytes.now v
        → MatchResult result (λ w. value_term w ≡ v) (λ e. e ≡ LiteralStop.Memory) }
    // Else the place is the length of their longest prefix that begins a literal of the type.
    ensures bad { IfErr result (λ e. IsStopAt (IsLiteralOf (basic_term b.now)) bytes.now e) }
{
    if !fits(Wanted::Of(b), LITERAL_LEVEL_LIMIT) {
        return Err(LiteralStop::Bad(BadLiteral { place: 0 }));
    }
    whole(alloc, Wanted::Of(b), bytes)
}

/// Spaces, and then a literal of what is wanted, to the end of the bytes.
fn whole(alloc: Global, wanted: Wanted, bytes: &[u8]) -> Result<Value, LiteralStop>
    requires { fewest (want_of wanted) ≤ 64 }
    ensures found { IfOk result (λ v. Whole (want_of wanted.entry) bytes.now (value_term v)) }
    ensures only { (v : ValueTerm) → Whole (want_of wanted.entry) bytes.now v
        → MatchResult result (λ w. value_term w ≡ v) (λ e. e ≡ LiteralStop.Memory) }
    ensures bad { IfErr result (λ e. IsStopAt (Whole (want_of wanted.entry)) bytes.now e) }
{
    match value(alloc, wanted, LITERAL_LEVEL_LIMIT, skip(bytes, b' ')) {
        Ok((value, rest)) => {
            if rest.is_empty() {
                return Ok(value);
            }
            Err(bad(bytes, rest.len()))
        }
        Err(ParseStop::Fault { left, .. }) => Err(bad(bytes, left)),
        Err(ParseStop::Memory) => Err(LiteralStop::Memory),
    }
}

/// The type of a name.
pub fn read_basic(alloc: Global, bytes: &[u8]) -> Result<Basic, LiteralStop>
    // The bytes are the name of the type, which has at most 64 symbols.
    ensures found { IfOk result (λ b. IsTypeName bytes.now (basic_term b)) }
    // They are the name of no other such type, and such a name is refused only for want of memory.
    ensures only { (b : BasicTerm) → IsTypeName bytes.now b
        → MatchResult result (λ c. basic_term c ≡ b) (λ e. e ≡ LiteralStop.Memory) }
    // Else the place is the length of their longest prefix that begins such a name.
    ensures bad { IfErr result (λ e. IsStopAt IsTypeName bytes.now e) }
{
    match basic(alloc, TYPE_SYMBOL_LIMIT, skip(bytes, b' ')) {
        Ok((measured, rest)) => {
            if rest.is_empty() {
                return Ok(measured.basic);
            }
            Err(bad(bytes, rest.len()))
        }
        Err(ParseStop::Fault { left, .. }) => Err(bad(bytes, left)),
        Err(ParseStop::Memory) => Err(LiteralStop::Memory),
    }
}

/// The bytes are bad where so many of them are left.
fn bad(bytes: &[u8], left: usize) -> LiteralStop
    requires { left ≤ length bytes.now }
    ensures { (n : ℕ) × (result ≡ LiteralStop.Bad (record { place = n })) × (n + left ≡ length bytes.now) }
{
    LiteralStop::Bad(BadLiteral {
        place: place(bytes, left) as u64,
    })
}
