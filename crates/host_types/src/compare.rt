ghost use Rattle.std.specs.Prelude.{◌≡◌, ◌+◌, ◌<◌, nat_le, MatchOption, MatchResult};
ghost use Rattle.task_model.specs.Terms.Basic.{basic_term};
ghost use Rattle.task_model.specs.Checking.TypeParts.{symbols_of};
ghost use Rattle.task_model.specs.Checking.TypeFault.{sized, compared, IsMet};
ghost use Rattle.host_types.specs.Answer.{IsStop};

use crate::fault::CheckStop;
use task_model::{Basic, TYPE_SYMBOL_LIMIT, TypeKind, copy_basic, same_basic};

/// How many of so many symbols a type leaves, if it has no more.
fn spare_symbols(basic: &Basic, most: usize) -> Option<usize>
    ensures { MatchOption result (most < symbols_of (basic_term basic.now)) (λ spare. most ≡ symbols_of (basic_term basic.now) + spare) }
{
    if most == 0 {
        return None;
    }
    let spare = most - 1;
    match basic {
        Basic::Pair(first, second) => spare_symbols(second, spare_symbols(first, spare)?),
        Basic::List(item) => spare_symbols(item, spare),
        _ => Some(spare),
    }
}

fn is_small(basic: &Basic) -> bool
    ensures { result ≡ nat_le (symbols_of (basic_term basic.now)) 64 }
{
    spare_symbols(basic, TYPE_SYMBOL_LIMIT).is_some()
}

/// A type has at most 64 symbols.
pub(crate) fn sized(node: u64, basic: &Basic) -> Result<(), CheckStop>
    ensures { MatchResult result (λ _. IsMet (sized node (basic_term basic.now))) (IsStop (sized node (basic_term basic.now))) }
{
    if is_small(basic) {
        Ok(())
    } else {
        Err(CheckStop::Fault {
            node,
            kind: TypeKind::BigType,
        })
    }
}

/// A part's type is the one wanted.
pub(crate) fn compared(node: u64, want: &Basic, got: &Basic) -> Result<(), CheckStop>
    ensures { MatchResult result (λ _. IsMet (compared node (basic_term want.now) (basic_term got.now)))
        (IsStop (compared node (basic_term want.now) (basic_term got.now))) }
{
    if same_basic(want, got) {
        return Ok(());
    }
    let want = copy_basic(want)?;
    let got = copy_basic(got)?;
    Err(CheckStop::Fault {
        node,
        kind: TypeKind::Mismatch { want, got },
    })
}
