ghost use Rattle.std.specs.Prelude.{◌≡◌, ◌+◌, IfOk};
ghost use Rattle.task_model.specs.Terms.Tree.{tree_term};
ghost use Rattle.node_rows.specs.TreeNodes.{tree_nodes};

use task_model::{OutOfMemory, Tree};

/// How many nodes a tree has, by one walk. A number that no 64 bits hold is want of memory.
pub(crate) fn count_nodes(t: &Tree) -> Result<u64, OutOfMemory>
    ensures { IfOk result (λ n. n ≡ tree_nodes (tree_term t.now)) }
{
    match t {
        Tree::Edit(..) => Ok(1),
        Tree::Enter(_) => Ok(1),
        Tree::Share(..) => Ok(1),
        Tree::Fail => Ok(1),
        Tree::Xor(..) => Ok(1),
        Tree::Then(left, _) => added(1, count_nodes(left)?),
        Tree::Next(left, _) => added(1, count_nodes(left)?),
        Tree::And(a, b) => {
            let n = count_nodes(a)?;
            let m = count_nodes(b)?;
            added(1, added(n, m)?)
        }
        Tree::Or(a, b) => {
            let n = count_nodes(a)?;
            let m = count_nodes(b)?;
            added(1, added(n, m)?)
        }
    }
}

fn added(a: u64, b: u64) -> Result<u64, OutOfMemory>
    ensures { IfOk result (λ n. n ≡ a + b) }
{
    match a.checked_add(b) {
        Some(n) => Ok(n),
        None => Err(OutOfMemory),
    }
}
