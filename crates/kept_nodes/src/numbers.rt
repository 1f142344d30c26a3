ghost use Rattle.std.specs.Prelude.{◌≡◌, slice_get, Some};
ghost use Rattle.task_model.specs.Terms.Tree.{tree_term};
ghost use Rattle.task_model.specs.Running.Address.{Address};
ghost use Rattle.kept_nodes.specs.Kept.{addresses};
ghost use Rattle.kept_nodes.specs.KeptMarks.{told};
ghost use Rattle.kept_nodes.specs.NodeNumbers.{numbered};

use crate::marks::Marks;
use crate::parts::{Parts, parts_of};
use task_model::Tree;

impl Marks {
    /// Whether the node of a number is kept, counted in pre-order from 0, of the tree that these marks are of. It takes no memory.
    pub fn keeps(&self, t: &Tree, number: u64) -> bool
        ensures { (a : Address) → slice_get (addresses (tree_term t.now)) number ≡ Some a → result ≡ told self.now a }
    {
        match kept_at(self, t, number) {
            Ok(is_kept) => is_kept,
            Err(_) => false,
        }
    }
}

// Whether the node of a number is kept, or the number among the nodes behind the tree's own.
fn kept_at(marks: &Marks, t: &Tree, number: u64) -> Result<bool, u64>
    ensures { result ≡ numbered marks.now (addresses (tree_term t.now)) number }
{
    if number == 0 {
        return Ok(marks.is_whole());
    }
    let number = number - 1;
    match parts_of(t) {
        Parts::Leaf => Err(number),
        Parts::Step(left) => kept_at(marks.first(), left, number),
        Parts::Pair(first, second) => match kept_at(marks.first(), first, number) {
            Ok(is_kept) => Ok(is_kept),
            Err(behind) => kept_at(marks.second(), second, behind),
        },
    }
}
