ghost use Rattle.std.specs.Prelude.{◌≡◌, ℕ, List, IfSome, IfNone, MatchOption, decimal};
ghost use Rattle.task_model.specs.Running.State.{IsBudget};
ghost use Rattle.journal_bytes.specs.ReadRecords.{IsOpeningRecord};

use itoa::Buffer;
use memchr::memchr;
use task_model::BUDGET_LIMIT;

/// The budget and the text of an opening's record. The budget stands in decimal with no leading zero, and the text behind the first LF.
pub fn read_opening(bytes: &[u8]) -> Option<(u32, &[u8])>
    ensures some { IfSome result (λ x. IsOpeningRecord bytes.now x.0 x.1.now) }
    ensures only { (budget : ℕ) (text : List ℕ) → IsOpeningRecord bytes.now budget text
        → MatchOption result ⊥ (λ x. (x.0 ≡ budget) × (x.1.now ≡ text)) }
{
    let Some(end) = memchr(b'\n', bytes) else {
        return None;
    };
    let Some(budget) = read_budget(&bytes[..end]) else {
        return None;
    };
    Some((budget, &bytes[end + 1..]))
}

// A budget of 1 to 1,000,000 in decimal, with no leading zero.
fn read_budget(digits: &[u8]) -> Option<u32>
    ensures some { IfSome result (λ n. IsBudget n × (digits.now ≡ decimal n)) }
    ensures none { IfNone result ((n : ℕ) → IsBudget n → digits.now ≡ decimal n → ⊥) }
{
    let Ok(text) = str::from_utf8(digits) else {
        return None;
    };
    let Ok(budget) = text.parse::<u32>() else {
        return None;
    };
    if budget == 0 || budget > BUDGET_LIMIT {
        return None;
    }
    let mut printed = Buffer::new();
    if printed.format(budget).as_bytes() == digits {
        Some(budget)
    } else {
        None
    }
}
