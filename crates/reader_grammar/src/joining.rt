ghost use Rattle.std.specs.Prelude.{◌≡◌, ◌++◌, IfOk, IfErr};

use exact_reading::ParseStop;
use std::collections::VecDeque;

/// A list and the other behind it. Only the elements of the shorter one are moved.
pub fn joined<T: Drop>(
    mut front: VecDeque<T>,
    mut back: VecDeque<T>,
) -> Result<VecDeque<T>, ParseStop>
    ensures items { IfOk result (λ r. r.items ≡ front.items ++ back.items) }
    ensures memory { IfErr result (λ e. e ≡ ParseStop.Memory) }
{
    if back.len() <= front.len() {
        front.append(&mut back)?;
        return Ok(front);
    }
    while let Some(last) = front.pop_back() {
        back.push_front(last)?;
    }
    Ok(back)
}
