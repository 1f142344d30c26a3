ghost use Rattle.std.specs.Prelude.{◌≡◌, ℕ, ◌∷◌, [], ◌++◌, map, drop, IfOk, OnOk};
ghost use Rattle.task_model.specs.Terms.Tree.{tree_term};
ghost use Rattle.task_model.specs.Running.Rules.{value_of};
ghost use Rattle.task_model.specs.Running.Checked.{CheckedTerm};
ghost use Rattle.task_model.specs.Running.Offer.{offer_term, AreOffers};
ghost use Rattle.task_model.specs.Showing.Widget.{here, shape_term, widget_term, AreWidgets};
ghost use Rattle.task_tree.specs.Below.{widget_below};
ghost use Rattle.interface.specs.Marks.{MarksStep};
ghost use Rattle.interface.specs.Walked.{Picked, Walked};

use crate::marks::{Tested, behind, first_sign};
use crate::shapes::{edit_shape, share_shape};
use crate::shown::Shown;
use std::alloc::Global;
use task_laws::next_stands_alone;
use task_model::{Offer, OutOfMemory, Reads, Row, Shape, Sign, Tree, Turn, Widget, copy_basic};
use task_tree::has_value;

/// The widgets of a tree over a store, one for each node in pre-order, where these are the tree's offers: no test is made again.
pub fn widgets<R: Reads>(
    alloc: Global,
    t: &Tree,
    reads: &R,
    offers: &[Offer],
) -> Result<Row<Widget>, OutOfMemory>
    ensures { IfOk result (λ ws. (c : CheckedTerm) (budget : ℕ) → AreOffers c budget (tree_term t.now) (R.values reads.now)
        (map offer_term offers.now)
        → AreWidgets c budget (tree_term t.now) (R.values reads.now) (map widget_term ws.list)) }
{
    let mut shown = Shown::new(alloc);
    let _rest = add_widgets(&mut shown, t, reads, offers)?;
    Ok(shown.widgets)
}

// Adds the widgets of a part, and answers the offers behind its own.
#[cycle(widgets)]
fn add_widgets<'o, R: Reads>(
    shown: &mut Shown,
    t: &Tree,
    reads: &R,
    offers: &'o [Offer],
) -> Result<&'o [Offer], OutOfMemory>
    ensures trail { OnOk result (shown.new.trail ≡ shown.old.trail) }
    ensures walked { IfOk result (λ rest. Walked (tree_term t.now) (R.values reads.now) shown.old.trail (map offer_term offers.now)
        (map offer_term rest.now)
        (map widget_term shown.old.widgets.list) (map widget_term shown.new.widgets.list)) }
{
    match t {
        Tree::Edit(b, v) => add_editor(shown, edit_shape(b, v)?, offers),
        Tree::Enter(b) => add_editor(shown, Shape::Enter(copy_basic(b)?), offers),
        Tree::Share(b, place) => add_editor(shown, share_shape(b, *place, reads)?, offers),
        Tree::Then(left, _) => {
            shown.push(Shape::Then)?;
            add_widgets(shown, left, reads, offers)
        }
        Tree::Next(left, _) => {
            // Where the left part has a value, it offers no Next at this path.
            next_stands_alone();
            let sign = step_sign(shown, left, reads, offers);
            shown.push(Shape::Step(sign))?;
            add_widgets(shown, left, reads, behind(offers, sign))
        }
        Tree::Fail => {
            shown.push(Shape::Fail)?;
            Ok(offers)
        }
        Tree::And(a, b) => {
            shown.push(Shape::And)?;
            let rest = add_part(shown, a, Turn::First, reads, offers)?;
            add_part(shown, b, Turn::Second, reads, rest)
        }
        Tree::Or(a, b) => {
            shown.push(Shape::Or)?;
            let rest = add_part(shown, a, Turn::First, reads, offers)?;
            add_part(shown, b, Turn::Second, reads, rest)
        }
        Tree::Xor(..) => add_pick(shown, offers),
    }
}

// An editor's widget. What it offers is one offer.
fn add_editor<'o>(
    shown: &mut Shown,
    shape: Shape,
    offers: &'o [Offer],
) -> Result<&'o [Offer], OutOfMemory>
    ensures trail { OnOk result (shown.new.trail ≡ shown.old.trail) }
    ensures widgets { OnOk result (map widget_term shown.new.widgets.list ≡ map widget_term shown.old.widgets.list
        ++ map (widget_below shown.old.trail) (here (shape_term shape) ∷ [])) }
    ensures rest { IfOk result (λ rest. map offer_term rest.now ≡ drop 1 (map offer_term offers.now)) }
{
    shown.push(shape)?;
    Ok(behind(offers, Sign::Yes))
}

// The widget of an external choice.
fn add_pick<'o>(shown: &mut Shown, offers: &'o [Offer]) -> Result<&'o [Offer], OutOfMemory>
    ensures trail { OnOk result (shown.new.trail ≡ shown.old.trail) }
    ensures picked { IfOk result (λ rest. Picked shown.old.trail (map offer_term offers.now) (map offer_term rest.now)
        (map widget_term shown.old.widgets.list) (map widget_term shown.new.widgets.list)) }
{
    let left = first_sign(offers, &shown.trail, Tested::Left);
    let rest = behind(offers, left);
    let right = first_sign(rest, &shown.trail, Tested::Right);
    shown.push(Shape::Pick(left, right))?;
    Ok(behind(rest, right))
}

// The sign of a user step whose left part this is: No where that has no value.
fn step_sign<R: Reads>(shown: &Shown, left: &Tree, reads: &R, offers: &[Offer]) -> Sign
    ensures { MarksStep (value_of (tree_term left.now) (R.values reads.now)) shown.now.trail (map offer_term offers.now) result }
{
    if has_value(left, reads) {
        first_sign(offers, &shown.trail, Tested::Next)
    } else {
        Sign::No
    }
}

// The widgets of the part that a turn leads to.
#[cycle(widgets)]
fn add_part<'o, R: Reads>(
    shown: &mut Shown,
    part: &Tree,
    turn: Turn,
    reads: &R,
    offers: &'o [Offer],
) -> Result<&'o [Offer], OutOfMemory>
    ensures trail { OnOk result (shown.new.trail ≡ shown.old.trail) }
    ensures walked { IfOk result (λ rest. Walked (tree_term part.now) (R.values reads.now) (shown.old.trail ++ turn ∷ [])
        (map offer_term offers.now)
        (map offer_term rest.now) (map widget_term shown.old.widgets.list) (map widget_term shown.new.widgets.list)) }
{
    shown.trail.go(turn)?;
    let rest = add_widgets(shown, part, reads, offers)?;
    shown.trail.back();
    Ok(rest)
}
