ghost use Rattle.std.specs.Prelude.{◌≡◌, ◌↔◌, [], ◌∷◌, map, IsTrue};
ghost use Rattle.task_model.specs.Terms.Env.{slot_term};
ghost use Rattle.task_model.specs.Terms.Tree.{delay_term, tree_term};
ghost use Rattle.kept_nodes.specs.Own.{LaterStays, SlotsStay, StaysAlone};

use crate::changed::Changed;
use task_model::{Delay, Slot, Tree, same_basic, same_value};

/// Whether a node is the same as another besides their parts, and none of its own places is changed.
pub(crate) fn stays_alone(old: &Tree, new: &Tree, changed: &Changed) -> bool
    ensures { IsTrue result ↔ StaysAlone changed.now (tree_term old.now) (tree_term new.now) }
{
    match (old, new) {
        (Tree::Edit(a, v), Tree::Edit(b, w)) => same_basic(a, b) && same_value(v, w),
        (Tree::Enter(a), Tree::Enter(b)) => same_basic(a, b),
        (Tree::Share(a, n), Tree::Share(b, m)) => same_basic(a, b) && n == m && !changed.has(*m),
        (Tree::Then(_, k), Tree::Then(_, j)) => {
            k.body == j.body && slots_stay(k.slots.as_slice(), j.slots.as_slice(), changed)
        }
        (Tree::Next(_, k), Tree::Next(_, j)) => {
            k.body == j.body && slots_stay(k.slots.as_slice(), j.slots.as_slice(), changed)
        }
        (Tree::Fail, Tree::Fail) => true,
        (Tree::And(..), Tree::And(..)) => true,
        (Tree::Or(..), Tree::Or(..)) => true,
        (Tree::Xor(j, k), Tree::Xor(l, m)) => side_stays(j, l, changed)
            && side_stays(k, m, changed),
        _ => false,
    }
}

// Whether a side of a choice is the same as another, and none of its places is changed.
fn side_stays(old: &Delay, new: &Delay, changed: &Changed) -> bool
    ensures { IsTrue result ↔ LaterStays changed.now (delay_term old.now) (delay_term new.now) }
{
    old.body == new.body && slots_stay(old.slots.as_slice(), new.slots.as_slice(), changed)
}

// Whether slots are the same as others, and none of their places is changed.
fn slots_stay(olds: &[Slot], news: &[Slot], changed: &Changed) -> bool
    ensures { IsTrue result ↔ SlotsStay changed.now (map slot_term olds.now) (map slot_term news.now) }
{
    match (olds, news) {
        ([], []) => true,
        ([old, more @ ..], [new, rest @ ..]) => {
            slot_stays(old, new, changed) && slots_stay(more, rest, changed)
        }
        _ => false,
    }
}

fn slot_stays(old: &Slot, new: &Slot, changed: &Changed) -> bool
    ensures { IsTrue result ↔ SlotsStay changed.now (slot_term old.now ∷ []) (slot_term new.now ∷ []) }
{
    match (old, new) {
        (Slot::Plain(v), Slot::Plain(w)) => same_value(v, w),
        (Slot::Place(n), Slot::Place(m)) => n == m && !changed.has(*m),
        _ => false,
    }
}
