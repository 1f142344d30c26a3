ghost use Rattle.std.specs.Prelude.{◌≡◌, ◌≤◌, ◌++◌, ◌∷◌, [], ℕ, suc, length, IfOk, OnOk, OnErr};
ghost use mathlib.Core.List.{IsPrefix};
ghost use Rattle.logbook.specs.Pages.{nib, may_write};
ghost use Rattle.page_board.specs.BoardLists.{board_list};
ghost use Rattle.page_board.specs.Rolls.{count_word};

use crate::entered::Entered;
use crate::front::{Front, MOST};
use crate::law::{Idle, Law, Nothing, Whole};
use logbook::{Offer, Pen, Seen, Start, Word};
use std::marker::Model;
use task_model::{Item, OutOfMemory};

/// The whole list of a board, and the only right to add to it.
#[derive(Drop)]
pub(crate) struct Roll {
    head: Word<Entered, u64, Law>,
    pen: Pen,
    front: Front,
}

impl Model for Roll {
    ghost use Rattle.std.specs.Prelude.{◌≡◌, length, suc};
    ghost use Rattle.std.specs.Coded.{codes};
    ghost use Rattle.task_model.specs.contracts.item.Item as items;
    ghost use Rattle.logbook.specs.Pages.{nib, may_write};
    ghost use Rattle.page_board.specs.BoardLists.{BoardList};
    ghost use Rattle.page_board.specs.Rolls.{count_word};

    ghost Value = { BoardList };

    ghost coded = { Prim.hlevel (codes, items.the_row.coded) };

    ghost view = { λ r. r.front };

    ghost invariant = { λ r. (r.head ≡ count_word r.front.board) × (r.pen.book ≡ r.front.board)
        × (r.pen.nib ≡ nib may_write (suc (suc (length r.front.list))) 0) };
}

impl Roll {
    /// An empty list on a board of its own.
    pub(crate) fn start() -> Result<Roll, OutOfMemory>
        ensures { IfOk result (λ r. r.list ≡ []) }
    {
        let (seen, mut first, _second) = Seen::open(Start::alone(), 0, 0);
        let head = Word::tracked(0, &mut first);
        let front = Front { count: 0, seen };
        let pen = front.claim(&head, 0)?;
        Ok(Roll { head, pen, front })
    }

    /// The whole list, as a beginning.
    pub(crate) fn front(&self) -> Front
        ensures { result ≡ self.now }
    {
        self.front.again()
    }

    /// Adds an item. A refusal leaves the list. The next pen is taken first, so nothing can be refused once the item is added.
    pub(crate) fn add(&mut self, item: &Item) -> Result<(), OutOfMemory>
        ensures ok { OnOk result (self.new ≡ board_list self.old.board (self.old.list ++ item.now ∷ [])) }
        ensures err { OnErr result (self.new ≡ self.old) }
    {
        let count = self.front.len();
        if count >= MOST - 1 {
            return Err(OutOfMemory);
        }
        let mut pen = self.front.claim(&self.head, count + 1)?;
        std::mem::swap(&mut self.pen, &mut pen);
        self.front.extend(&self.head, pen, item);
        Ok(())
    }

    /// What anyone has seen of the list begins it.
    #[tactic(auto, using(crate::proofs::FrontLemmas::prefix_meets))]
    pub(crate) fn meet(&mut self, front: &Front)
        requires board { front.now.board ≡ self.old.board }
        ensures begins { IsPrefix front.now.list self.old.list }
        ensures same { self.new ≡ self.old }
    {
        let both = self.front.both(front);
        look(both, &self.head, &mut self.pen);
    }
}

// One look by the holder of the pen, who knows how long the list is.
fn look(
    seen: Seen<Entered, u64, Law>,
    head: &Word<Entered, u64, Law>,
    pen: &mut Pen,
) -> Seen<Entered, u64, Law>
    requires head { head.now ≡ count_word seen.book }
    requires pen { (pen.old.book ≡ seen.book) × ((n : ℕ) × (pen.old.nib ≡ nib may_write (suc (suc n)) 0)) }
    ensures seen { IsPrefix seen.log result.log }
    ensures whole { suc (suc (length result.log)) ≤ pen.old.nib.key }
    ensures pen { (pen.new.book ≡ pen.old.book) × (pen.new.nib ≡ pen.old.nib) }
{
    let mut seen = seen;
    let mut offer: Offer<Entered, u64, Law, Nothing> = seen.plain::<Nothing, Idle, Idle>(&Idle);
    head.compare_exchange::<Whole, Nothing>(0, 0, &mut seen, &mut offer, pen);
    seen
}
