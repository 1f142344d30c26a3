ghost use Rattle.std.specs.Prelude.{◌≡◌, map, IfOk};
ghost use Rattle.std.specs.Arc.{arc_value};
ghost use Rattle.task_model.specs.Terms.Basic.{basic_term};
ghost use Rattle.task_model.specs.Terms.Env.{slot_term};
ghost use Rattle.task_model.specs.Terms.Tree as trees;
ghost use Rattle.task_model.specs.Terms.Tree.{tree_term};
ghost use Rattle.task_model.specs.Running.Rules as rules;
ghost use Rattle.host_eval.specs.NamesTerm.{names_term, slots_in};
ghost use Rattle.task_evaluation.specs.Kinds as kinds;

use crate::kinds::{PairKind, StepKind, pair_tree, step_tree};
use host_eval::{Links, Names};
use std::alloc::Global;
use std::sync::Arc;
use task_model::{
    Basic, Cont, Delay, OutOfMemory, Row, Slot, Tree, copy_basic, copy_slots, copy_value, share,
    shared,
};

fn copy_slot(slot: &Slot) -> Result<Slot, OutOfMemory>
    ensures { IfOk result (λ copy. slot_term copy ≡ slot_term slot.now) }
{
    match slot {
        Slot::Plain(v) => Ok(Slot::Plain(copy_value(v)?)),
        Slot::Place(place) => Ok(Slot::Place(*place)),
    }
}

// One slot for each name, outermost first.
fn slots_of(alloc: Global, links: &Links) -> Result<Row<Slot>, OutOfMemory>
    ensures { IfOk result (λ r. map slot_term r.list ≡ slots_in links.now) }
{
    match links {
        Links::Parameters { slots, .. } => copy_slots(alloc, slots),
        Links::Scope { slots, .. } => copy_slots(alloc, slots),
        Links::Bound { outer, slot, .. } => {
            let mut slots = slots_of(alloc, outer)?;
            slots.push(copy_slot(slot)?)?;
            Ok(slots)
        }
    }
}

fn kept_slots(alloc: Global, names: &Names) -> Result<Arc<Row<Slot>>, OutOfMemory>
    ensures { IfOk result (λ r. map slot_term (arc_value r).list ≡ slots_in names.now.links) }
{
    shared(alloc, slots_of(alloc, &names.links)?)
}

pub(crate) fn enter_tree(b: &Basic) -> Result<Tree, OutOfMemory>
    ensures { IfOk result (λ t. tree_term t ≡ trees.enter_tree (basic_term b.now)) }
{
    Ok(Tree::Enter(copy_basic(b)?))
}

/// A step to a body of the program.
pub(crate) fn step_later(
    alloc: Global,
    kind: StepKind,
    left: Tree,
    body: u32,
    names: &Names,
) -> Result<Tree, OutOfMemory>
    ensures { IfOk result (λ t. tree_term t ≡ kinds.step_tree kind (tree_term left) (rules.later body (names_term names.now))) }
{
    let slots = kept_slots(alloc, names)?;
    let left = shared(alloc, left)?;
    Ok(step_tree(kind, left, Cont { body, slots }))
}

/// An external choice between two bodies of the program, which share their slots.
pub(crate) fn xor_later(
    alloc: Global,
    left: u32,
    right: u32,
    names: &Names,
) -> Result<Tree, OutOfMemory>
    ensures { IfOk result
        (λ t. tree_term t ≡ trees.xor_tree (rules.later left (names_term names.now)) (rules.later right (names_term names.now))) }
{
    let slots = kept_slots(alloc, names)?;
    let same = share(&slots)?;
    let left = Delay { body: left, slots };
    let right = Delay {
        body: right,
        slots: same,
    };
    Ok(Tree::Xor(left, right))
}

/// A pair of trees.
pub(crate) fn paired(alloc: Global, kind: PairKind, a: Tree, b: Tree) -> Result<Tree, OutOfMemory>
    ensures { IfOk result (λ t. tree_term t ≡ kinds.pair_tree kind (tree_term a) (tree_term b)) }
{
    let a = shared(alloc, a)?;
    Ok(pair_tree(kind, a, shared(alloc, b)?))
}
