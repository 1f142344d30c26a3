ghost use Rattle.std.specs.Prelude.{◌≡◌, ◌+◌, ◌*◌, ◌<◌, ◌≤◌, ℕ, false, ◌∷◌, [], ◌++◌, length, map, slice_get, IfOk, OnOk, Some, List};
ghost use Rattle.task_model.specs.Terms.Value.{value_term};
ghost use Rattle.task_model.specs.Terms.Tree.{tree_term, at};
ghost use Rattle.task_model.specs.Running.Checked.{checked_term};
ghost use Rattle.task_model.specs.Checking.Fits.{Fits};
ghost use Rattle.task_model.specs.declared.value.Value.{Value};
ghost use Rattle.kept_nodes.specs.Kept.{addresses, IsRedrawn};
ghost use Rattle.kept_nodes.specs.KeptMarks.{told, untold, TellsKept};
ghost use Rattle.kept_nodes.specs.NodeParts.{node_parts};
ghost use Rattle.node_rows.specs.Rows.{AreRows};
ghost use Rattle.node_rows.specs.TreeNodes.{tree_nodes};
ghost use Rattle.kept_rows.specs.Follows.{former_nodes, tree_in, FormerIsTold, PartsFollow, RowsFollow};

use crate::drawn::Drawn;
use crate::former::Former;
use kept_nodes::{Marks, Parts, marks_count, parts_of};
use node_rows::NodeRows;
use shared_store::Store;
use std::sync::ledger::Ledger;
use task_evaluation::Engine;
use task_laws::foot_alone_decides;
use task_model::{OutOfMemory, Steps, Tree, Turn, Value};

/// The rows of a tree, of those of the tree that stood before it over the newest layer's list. Marks tell which nodes are kept: their rows
/// are taken over. Any other node is tested at most once, or twice at an external choice, and drawn once. The store stays.
pub fn next_rows<L: Ledger>(
    engine: &Engine,
    old: &Tree,
    rows: &NodeRows,
    new: &Tree,
    marks: &Marks,
    store: &mut Store<Value>,
    budget: u32,
    steps: &mut Steps<L>,
) -> Result<NodeRows, OutOfMemory>
    requires fits { Fits (checked_term engine.now) (at (tree_term new.now) (map value_term store.old.list)) }
    requires layer { 0 < length store.old.layers }
    requires rows { (σ : List Value) → slice_get store.old.layers 0 ≡ Some σ → AreRows (checked_term engine.now) budget (tree_term old.now)
        (map value_term σ) rows.now }
    requires marks { (σ : List Value) → slice_get store.old.layers 0 ≡ Some σ → TellsKept (map value_term σ) (map value_term store.old.list)
        (Some (tree_term old.now)) (tree_term new.now) marks.now }
    ensures store { store.new ≡ store.old }
    ensures rows { IfOk result (AreRows (checked_term engine.now) budget (tree_term new.now) (map value_term store.old.list)) }
    ensures most { OnOk result (steps.new ≤ steps.old + 3 * tree_nodes (tree_term new.now)) }
    ensures steps { OnOk result ((σ : List Value) → slice_get store.old.layers 0 ≡ Some σ → (n : ℕ)
        → IsRedrawn (at (tree_term old.now) (map value_term σ)) (at (tree_term new.now) (map value_term store.old.list)) n
        → steps.new ≤ steps.old + 3 * n) }
{
    marks_count();
    // An event seldom makes a tree much larger.
    let length = rows.len();
    let former = Former {
        tree: Some(old),
        from: 0,
        marks,
    };
    let mut drawn = Drawn::beside(engine.alloc(), rows, length)?;
    let _behind = add_rows(&mut drawn, engine, &former, new, store, budget, steps)?;
    let next = drawn.next.finish()?;
    Ok(next)
}

// Adds the rows of a part, and answers the number of the first row behind those of what stood in its place.
#[cycle(rows)]
fn add_rows<L: Ledger>(
    drawn: &mut Drawn<'_>,
    engine: &Engine,
    former: &Former<'_>,
    new: &Tree,
    store: &mut Store<Value>,
    budget: u32,
    steps: &mut Steps<L>,
) -> Result<usize, OutOfMemory>
    requires fits { Fits (checked_term engine.now) (at (tree_term new.now) (map value_term store.old.list)) }
    requires told { FormerIsTold (checked_term engine.now) budget (tree_in former.now) (tree_term new.now) (map value_term store.old.list)
        drawn.old.trail former.now.from drawn.old.next.older former.now.marks.now }
    requires room { former.now.from + former_nodes (tree_in former.now) ≤ usize.MAX }
    ensures trail { OnOk result (drawn.new.trail ≡ drawn.old.trail) }
    ensures older { drawn.new.next.older ≡ drawn.old.next.older }
    ensures store { store.new ≡ store.old }
    ensures behind { IfOk result (λ n. n ≡ former.now.from + former_nodes (tree_in former.now)) }
    ensures steps { OnOk result (steps.new ≤ steps.old + 3 * untold former.now.marks.now (addresses (tree_term new.now))) }
    ensures rows { OnOk result (RowsFollow (checked_term engine.now) budget (tree_term new.now) (map value_term store.old.list)
        drawn.old.trail drawn.old.next.rows drawn.new.next.rows) }
{
    if former.marks.is_whole() {
        foot_alone_decides();
        return drawn.take_over(former.from);
    }
    let number = drawn.next.len();
    drawn.add_root(engine, new, store, budget, steps)?;
    let behind = add_parts(drawn, engine, former, new, store, budget, steps)?;
    drawn.next.close(number);
    Ok(behind)
}

// Adds the rows of the parts of a node that isn't kept.
#[cycle(rows)]
fn add_parts<L: Ledger>(
    drawn: &mut Drawn<'_>,
    engine: &Engine,
    former: &Former<'_>,
    new: &Tree,
    store: &mut Store<Value>,
    budget: u32,
    steps: &mut Steps<L>,
) -> Result<usize, OutOfMemory>
    requires fits { Fits (checked_term engine.now) (at (tree_term new.now) (map value_term store.old.list)) }
    requires told { FormerIsTold (checked_term engine.now) budget (tree_in former.now) (tree_term new.now) (map value_term store.old.list)
        drawn.old.trail former.now.from drawn.old.next.older former.now.marks.now }
    requires room { former.now.from + former_nodes (tree_in former.now) ≤ usize.MAX }
    requires root { told former.now.marks.now [] ≡ false }
    ensures trail { OnOk result (drawn.new.trail ≡ drawn.old.trail) }
    ensures older { drawn.new.next.older ≡ drawn.old.next.older }
    ensures store { store.new ≡ store.old }
    ensures behind { IfOk result (λ n. n ≡ former.now.from + former_nodes (tree_in former.now)) }
    ensures steps { OnOk result (steps.new + 3 ≤ steps.old + 3 * untold former.now.marks.now (addresses (tree_term new.now))) }
    ensures rows { OnOk result (PartsFollow (checked_term engine.now) budget (node_parts (tree_term new.now)) (map value_term store.old.list)
        drawn.old.trail drawn.old.next.rows drawn.new.next.rows) }
{
    match parts_of(new) {
        Parts::Leaf => Ok(former.behind(drawn.next.older())),
        Parts::Step(part) => {
            let there = former.left();
            let left = add_rows(drawn, engine, &there, part, store, budget, steps)?;
            Ok(former.behind_left(drawn.next.older(), left))
        }
        Parts::Pair(a, b) => {
            let there = former.first();
            let first = add_part(drawn, Turn::First, engine, &there, a, store, budget, steps)?;
            let there = former.second(first);
            let second = add_part(drawn, Turn::Second, engine, &there, b, store, budget, steps)?;
            Ok(former.behind_second(drawn.next.older(), second))
        }
    }
}

// Adds the rows of the part that a turn leads to.
#[cycle(rows)]
fn add_part<L: Ledger>(
    drawn: &mut Drawn<'_>,
    turn: Turn,
    engine: &Engine,
    former: &Former<'_>,
    part: &Tree,
    store: &mut Store<Value>,
    budget: u32,
    steps: &mut Steps<L>,
) -> Result<usize, OutOfMemory>
    requires fits { Fits (checked_term engine.now) (at (tree_term part.now) (map value_term store.old.list)) }
    requires told { FormerIsTold (checked_term engine.now) budget (tree_in former.now) (tree_term part.now) (map value_term store.old.list)
        (drawn.old.trail ++ turn ∷ []) former.now.from drawn.old.next.older former.now.marks.now }
    requires room { former.now.from + former_nodes (tree_in former.now) ≤ usize.MAX }
    ensures trail { OnOk result (drawn.new.trail ≡ drawn.old.trail) }
    ensures older { drawn.new.next.older ≡ drawn.old.next.older }
    ensures store { store.new ≡ store.old }
    ensures behind { IfOk result (λ n. n ≡ former.now.from + former_nodes (tree_in former.now)) }
    ensures steps { OnOk result (steps.new ≤ steps.old + 3 * untold former.now.marks.now (addresses (tree_term part.now))) }
    ensures rows { OnOk result (RowsFollow (checked_term engine.now) budget (tree_term part.now) (map value_term store.old.list)
        (drawn.old.trail ++ turn ∷ []) drawn.old.next.rows drawn.new.next.rows) }
{
    drawn.trail.go(turn)?;
    let behind = add_rows(drawn, engine, former, part, store, budget, steps)?;
    drawn.trail.back();
    Ok(behind)
}
