ghost use Rattle.std.specs.Prelude.{◌≡◌, ◌↔◌, IsTrue, map};
ghost use Rattle.task_model.specs.Terms.Value.{value_term};
ghost use Rattle.task_model.specs.Terms.Env.{slot_term};
ghost use Rattle.task_model.specs.Terms.Tree.{cont_term, delay_term, tree_term};

use task_model::{Cont, Delay, Slot, Tree, same_basic, same_value};

fn same_slot(a: &Slot, b: &Slot) -> bool
    ensures { IsTrue result ↔ (slot_term a.now ≡ slot_term b.now) }
{
    match (a, b) {
        (Slot::Plain(v), Slot::Plain(w)) => same_value(v, w),
        (Slot::Place(n), Slot::Place(m)) => n == m,
        _ => false,
    }
}

fn same_slots(xs: &[Slot], ys: &[Slot]) -> bool
    ensures { IsTrue result ↔ (map slot_term xs.now ≡ map slot_term ys.now) }
{
    if xs.len() != ys.len() {
        return false;
    }
    for (i, x) in xs.iter().enumerate() {
        if !same_slot(x, &ys[i]) {
            return false;
        }
    }
    true
}

fn same_cont(a: &Cont, b: &Cont) -> bool
    ensures { IsTrue result ↔ (cont_term a.now ≡ cont_term b.now) }
{
    a.body == b.body && same_slots(a.slots.as_slice(), b.slots.as_slice())
}

fn same_delay(a: &Delay, b: &Delay) -> bool
    ensures { IsTrue result ↔ (delay_term a.now ≡ delay_term b.now) }
{
    a.body == b.body && same_slots(a.slots.as_slice(), b.slots.as_slice())
}

/// Whether two trees are the same: of equal types, values, places, bodies and slots. It stops at the first difference, and takes
/// no memory.
pub fn same(a: &Tree, b: &Tree) -> bool
    ensures { IsTrue result ↔ (tree_term a.now ≡ tree_term b.now) }
{
    match (a, b) {
        (Tree::Edit(a, v), Tree::Edit(b, w)) => same_basic(a, b) && same_value(v, w),
        (Tree::Enter(a), Tree::Enter(b)) => same_basic(a, b),
        (Tree::Share(a, n), Tree::Share(b, m)) => same_basic(a, b) && n == m,
        (Tree::Then(t, k), Tree::Then(u, j)) => same(t, u) && same_cont(k, j),
        (Tree::Next(t, k), Tree::Next(u, j)) => same(t, u) && same_cont(k, j),
        (Tree::Fail, Tree::Fail) => true,
        (Tree::And(t, u), Tree::And(v, w)) => same(t, v) && same(u, w),
        (Tree::Or(t, u), Tree::Or(v, w)) => same(t, v) && same(u, w),
        (Tree::Xor(j, k), Tree::Xor(l, m)) => same_delay(j, l) && same_delay(k, m),
        _ => false,
    }
}
