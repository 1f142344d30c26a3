ghost use Rattle.std.specs.Prelude.{◌≡◌, ◌+◌, ◌≤◌, ◌∷◌};
ghost use Rattle.task_model.specs.Running.Address.{Address, into_first, into_left, into_second};
ghost use Rattle.kept_nodes.specs.KeptMarks.{told};
ghost use Rattle.kept_nodes.specs.NodeParts.{first_part_of, left_part_of, second_part_of};
ghost use Rattle.kept_rows.specs.Follows.{former_nodes, former_root, tree_in, FormerSize};

use kept_nodes::{Marks, first_part, left_part, second_part};
use node_rows::NodeRows;
use task_model::Tree;

/// What stood in the place of a part: a tree, if any did, the number of its first row, and what is kept of it there.
#[derive(Drop)]
pub(crate) struct Former<'f> {
    pub(crate) tree: Option<&'f Tree>,
    pub(crate) from: usize,
    pub(crate) marks: &'f Marks,
}

impl<'f> Former<'f> {
    /// In the place of the left part of a step.
    pub(crate) fn left(&self) -> Former<'f>
        requires { self.now.from + former_nodes (tree_in self.now) ≤ usize.MAX }
        ensures tree { tree_in result ≡ left_part_of (tree_in self.now) }
        ensures from { result.from ≡ self.now.from + former_root (tree_in self.now) }
        ensures marks { (a : Address) → told result.marks.now a ≡ told self.now.marks.now (into_left ∷ a) }
    {
        Former {
            tree: left_part(self.tree),
            from: self.behind_root(),
            marks: self.marks.first(),
        }
    }

    /// In the place of the first part of a pair or a choice.
    pub(crate) fn first(&self) -> Former<'f>
        requires { self.now.from + former_nodes (tree_in self.now) ≤ usize.MAX }
        ensures tree { tree_in result ≡ first_part_of (tree_in self.now) }
        ensures from { result.from ≡ self.now.from + former_root (tree_in self.now) }
        ensures marks { (a : Address) → told result.marks.now a ≡ told self.now.marks.now (into_first ∷ a) }
    {
        Former {
            tree: first_part(self.tree),
            from: self.behind_root(),
            marks: self.marks.first(),
        }
    }

    /// In the place of the second part of a pair or a choice. The rows of its first part end before this number.
    pub(crate) fn second(&self, from: usize) -> Former<'f>
        ensures tree { tree_in result ≡ second_part_of (tree_in self.now) }
        ensures from { result.from ≡ from }
        ensures marks { (a : Address) → told result.marks.now a ≡ told self.now.marks.now (into_second ∷ a) }
    {
        Former {
            tree: second_part(self.tree),
            from,
            marks: self.marks.second(),
        }
    }

    /// The number of the first row behind those of what stood there.
    pub(crate) fn behind(&self, rows: &NodeRows) -> usize
        requires room { self.now.from + former_nodes (tree_in self.now) ≤ usize.MAX }
        requires size { FormerSize (tree_in self.now) self.now.from rows.now }
        ensures { result ≡ self.now.from + former_nodes (tree_in self.now) }
    {
        match self.tree {
            Some(_) => self.from + rows.size_at(self.from),
            None => self.from,
        }
    }

    /// The same, where the rows in the place of the left part of a step end before a number.
    pub(crate) fn behind_left(&self, rows: &NodeRows, left: usize) -> usize
        requires room { self.now.from + former_nodes (tree_in self.now) ≤ usize.MAX }
        requires size { FormerSize (tree_in self.now) self.now.from rows.now }
        requires left { left ≡ (self.now.from + former_root (tree_in self.now)) + former_nodes (left_part_of (tree_in self.now)) }
        ensures { result ≡ self.now.from + former_nodes (tree_in self.now) }
    {
        match left_part(self.tree) {
            Some(_) => left,
            None => self.behind(rows),
        }
    }

    /// The same, where the rows in the place of the second part of a pair or a choice end before a number.
    pub(crate) fn behind_second(&self, rows: &NodeRows, second: usize) -> usize
        requires room { self.now.from + former_nodes (tree_in self.now) ≤ usize.MAX }
        requires size { FormerSize (tree_in self.now) self.now.from rows.now }
        requires second { second ≡ ((self.now.from + former_root (tree_in self.now)) + former_nodes (first_part_of (tree_in self.now)))
            + former_nodes (second_part_of (tree_in self.now)) }
        ensures { result ≡ self.now.from + former_nodes (tree_in self.now) }
    {
        match second_part(self.tree) {
            Some(_) => second,
            None => self.behind(rows),
        }
    }

    // The number of the first row behind the one of the root of what stood there.
    fn behind_root(&self) -> usize
        requires { self.now.from + former_nodes (tree_in self.now) ≤ usize.MAX }
        ensures { result ≡ self.now.from + former_root (tree_in self.now) }
    {
        match self.tree {
            Some(_) => self.from + 1,
            None => self.from,
        }
    }
}
