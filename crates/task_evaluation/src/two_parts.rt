ghost use Rattle.std.specs.Prelude.{◌≡◌, ℕ, List};
ghost use Rattle.task_evaluation.specs.FirstParts.{AreJoined, parts_joined};
ghost use Rattle.task_evaluation.specs.declared.first_part.FirstPart as declared;

use crate::first_part::FirstPart;

/// What a table tells of a task of two parts: how many nodes its first part has, and the first parts in each of the two.
#[derive(Clone, Copy)]
pub(crate) struct TwoParts<'p> {
    pub nodes: u64,
    pub first: &'p [FirstPart],
    pub second: &'p [FirstPart],
}

impl<'p> TwoParts<'p> {
    /// Taken apart as they were joined.
    pub(crate) fn of(parts: &'p [FirstPart]) -> TwoParts<'p>
        requires { AreJoined parts.now }
        ensures nodes { (n : ℕ) (xs ys : List declared.FirstPart) → parts.now ≡ parts_joined n xs ys → result.nodes ≡ n }
        ensures first { (n : ℕ) (xs ys : List declared.FirstPart) → parts.now ≡ parts_joined n xs ys → result.first.now ≡ xs }
        ensures second { (n : ℕ) (xs ys : List declared.FirstPart) → parts.now ≡ parts_joined n xs ys → result.second.now ≡ ys }
    {
        match parts {
            [inner @ .., own] => {
                let (first, second) = inner.split_at(own.parted);
                TwoParts {
                    nodes: own.nodes,
                    first,
                    second,
                }
            }
            [] => unreachable!(),
        }
    }
}
