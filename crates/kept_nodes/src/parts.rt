ghost use Rattle.std.specs.Prelude.{◌≡◌};
ghost use Rattle.std.specs.Option.{option_map};
ghost use Rattle.task_model.specs.Terms.Tree.{tree_term};
ghost use Rattle.kept_nodes.specs.NodeParts.{first_part_of, left_part_of, node_parts, node_parts_term, second_part_of};

use task_model::Tree;

/// The parts of a node: none, the left part of a step, or both parts of a pair or an internal choice.
#[derive(Drop)]
pub enum Parts<'t> {
    Leaf,
    Step(&'t Tree),
    Pair(&'t Tree, &'t Tree),
}

/// The parts of a tree's root.
pub fn parts_of(t: &Tree) -> Parts<'_>
    ensures { node_parts_term result ≡ node_parts (tree_term t.now) }
{
    match t {
        Tree::Then(left, _) => Parts::Step(left),
        Tree::Next(left, _) => Parts::Step(left),
        Tree::And(first, second) => Parts::Pair(first, second),
        Tree::Or(first, second) => Parts::Pair(first, second),
        _ => Parts::Leaf,
    }
}

/// The left part of a step, where one stands there.
pub fn left_part(t: Option<&Tree>) -> Option<&Tree>
    ensures { option_map (λ u. tree_term u.now) result ≡ left_part_of (option_map (λ u. tree_term u.now) t.entry) }
{
    match t {
        Some(Tree::Then(left, _)) => Some(left),
        Some(Tree::Next(left, _)) => Some(left),
        _ => None,
    }
}

/// The first part of a pair or an internal choice, where one stands there.
pub fn first_part(t: Option<&Tree>) -> Option<&Tree>
    ensures { option_map (λ u. tree_term u.now) result ≡ first_part_of (option_map (λ u. tree_term u.now) t.entry) }
{
    match t {
        Some(Tree::And(first, _)) => Some(first),
        Some(Tree::Or(first, _)) => Some(first),
        _ => None,
    }
}

/// The second part of a pair or an internal choice, where one stands there.
pub fn second_part(t: Option<&Tree>) -> Option<&Tree>
    ensures { option_map (λ u. tree_term u.now) result ≡ second_part_of (option_map (λ u. tree_term u.now) t.entry) }
{
    match t {
        Some(Tree::And(_, second)) => Some(second),
        Some(Tree::Or(_, second)) => Some(second),
        _ => None,
    }
}
