ghost use Rattle.std.specs.Prelude.{◌≡◌, ◌<◌, ◌++◌, drop, vec_len, IfOk, OnOk};
ghost use Rattle.task_model.specs.Terms.Tree.{tree_term};
ghost use Rattle.node_rows.specs.Rows.{sizes_closed};
ghost use Rattle.node_rows.specs.TreeNodes.{sizes_of};

use std::alloc::Global;
use task_model::{OutOfMemory, Tree};

/// How many nodes the part of each node of a tree has, in pre-order.
pub(crate) fn tree_sizes(alloc: Global, t: &Tree) -> Result<Vec<usize>, OutOfMemory>
    ensures { IfOk result (λ sizes. sizes.items ≡ sizes_of (tree_term t.now)) }
{
    let mut sizes = Vec::new(alloc);
    add_sizes(&mut sizes, t)?;
    Ok(sizes)
}

// Puts the sizes of a tree's parts behind others.
#[cycle(sizes)]
fn add_sizes(sizes: &mut Vec<usize>, t: &Tree) -> Result<(), OutOfMemory>
    ensures { OnOk result (sizes.new.items ≡ sizes.old.items ++ sizes_of (tree_term t.now)) }
{
    let number = sizes.len();
    sizes.push(1)?;
    add_parts(sizes, t)?;
    close(sizes, number);
    Ok(())
}

// Puts those of the parts of its root behind others.
#[cycle(sizes)]
fn add_parts(sizes: &mut Vec<usize>, t: &Tree) -> Result<(), OutOfMemory>
    ensures { OnOk result (sizes.new.items ≡ sizes.old.items ++ drop 1 (sizes_of (tree_term t.now))) }
{
    match t {
        Tree::Edit(..) => Ok(()),
        Tree::Enter(_) => Ok(()),
        Tree::Share(..) => Ok(()),
        Tree::Fail => Ok(()),
        Tree::Xor(..) => Ok(()),
        Tree::Then(left, _) => add_sizes(sizes, left),
        Tree::Next(left, _) => add_sizes(sizes, left),
        Tree::And(a, b) => {
            add_sizes(sizes, a)?;
            add_sizes(sizes, b)
        }
        Tree::Or(a, b) => {
            add_sizes(sizes, a)?;
            add_sizes(sizes, b)
        }
    }
}

/// The part of the node of this number is all from there on.
pub(crate) fn close(sizes: &mut Vec<usize>, number: usize)
    requires { number < vec_len sizes.old }
    ensures { sizes.new.items ≡ sizes_closed number sizes.old.items }
{
    let size = sizes.len() - number;
    sizes[number] = size;
}
