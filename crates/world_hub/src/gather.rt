ghost use Rattle.std.specs.Prelude.{◌≡◌, IfOk, Ok, map};

use std::alloc::Global;
use std::collections::VecDeque;
use task_model::OutOfMemory;

/// The results, in order, where memory ran out in none.
pub(crate) fn gather<T: Drop>(
    alloc: Global,
    back: Vec<Result<T, OutOfMemory>>,
) -> Result<Vec<T>, OutOfMemory>
    ensures { IfOk result (λ all. back.items ≡ map Ok all.items) }
{
    let mut all = Vec::new(alloc);
    all.reserve(back.len())?;
    let mut rest = VecDeque::from(back);
    while let Some(one) = rest.pop_front() {
        all.push_reserved(one?);
    }
    Ok(all)
}
