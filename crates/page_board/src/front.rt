ghost use Rattle.std.specs.Prelude.{◌≡◌, ◌+◌, ◌≤◌, ◌++◌, ◌∷◌, [], ◌⊎◌, suc, length, IfOk};
ghost use mathlib.Core.List.{IsPrefix};
ghost use Rattle.logbook.specs.Pages.{nib, may_write};
ghost use Rattle.page_board.specs.BoardLists.{board_list};
ghost use Rattle.page_board.specs.Rolls.{count_word};

use crate::entered::Entered;
use crate::law::{Claim, Extend, Idle, Law, Nothing};
use logbook::{Offer, Pen, Seen, Word};
use std::marker::Model;
use task_model::{Item, OutOfMemory};

// No list is longer.
pub(crate) const MOST: u64 = 1 << 62;

/// A beginning of a board's list that was reached. It has no bytes but its length, and can be copied.
#[derive(Drop)]
pub struct Front {
    pub(crate) count: u64,
    pub(crate) seen: Seen<Entered, u64, Law>,
}

impl Model for Front {
    ghost use Rattle.std.specs.Prelude.{◌≡◌, length};
    ghost use Rattle.std.specs.Coded.{codes};
    ghost use Rattle.task_model.specs.contracts.item.Item as items;
    ghost use Rattle.page_board.specs.BoardLists.{BoardList, board_list};

    ghost Value = { BoardList };

    ghost coded = { Prim.hlevel (codes, items.the_row.coded) };

    ghost view = { λ f. board_list f.seen.book f.seen.log };

    ghost invariant = { λ f. f.count ≡ length f.seen.log };
}

impl Front {
    /// How many items the beginning has.
    pub fn len(&self) -> u64
        ensures { result ≡ length self.now.list }
    {
        self.count
    }

    /// A copy, in no memory.
    pub fn again(&self) -> Front
        ensures { result ≡ self.now }
    {
        Front {
            count: self.count,
            seen: self.seen.again(),
        }
    }

    /// It becomes the longer of two beginnings of one board's list.
    pub fn reach(&mut self, other: &Front)
        requires board { other.now.board ≡ self.old.board }
        ensures board { self.new.board ≡ self.old.board }
        ensures mine { IsPrefix self.old.list self.new.list }
        ensures theirs { IsPrefix other.now.list self.new.list }
        ensures longer { (self.new.list ≡ self.old.list) ⊎ (self.new.list ≡ other.now.list) }
    {
        if self.count < other.count {
            self.compare(other);
            *self = other.again();
        } else {
            other.compare(self);
        }
    }

    /// Of two beginnings of one board's list the shorter begins the longer.
    pub fn compare(&self, longer: &Front)
        requires board { longer.now.board ≡ self.now.board }
        requires longer { length self.now.list ≤ length longer.now.list }
        ensures { IsPrefix self.now.list longer.now.list }
    {
        self.both(longer);
    }

    // What both have seen.
    pub(crate) fn both(&self, other: &Front) -> Seen<Entered, u64, Law>
        requires board { other.now.board ≡ self.now.board }
        ensures { (result.book ≡ self.now.board) × IsPrefix self.now.list result.log × IsPrefix other.now.list result.log }
    {
        let mut both = self.seen.again();
        both.learn(&other.seen);
        both
    }

    // The right to add the item number `old`, once the ones before it are used up. It is refused where someone else has it.
    pub(crate) fn claim(&self, head: &Word<Entered, u64, Law>, old: u64) -> Result<Pen, OutOfMemory>
        requires head { head.now ≡ count_word self.now.board }
        requires low { old ≤ length self.now.list + 1 }
        ensures { IfOk result (λ p. (p.book ≡ self.now.board) × (p.nib ≡ nib may_write (suc (suc old)) 0)) }
    {
        if old >= MOST {
            return Err(OutOfMemory);
        }
        let mut seen = self.seen.again();
        let mut offer: Offer<Entered, u64, Law, Nothing> = seen.plain::<Nothing, Idle, Idle>(&Idle);
        let mut pen = seen.no_pen();
        let found = head.compare_exchange::<Claim, Nothing>(
            old,
            old + 1,
            &mut seen,
            &mut offer,
            &mut pen,
        );
        if found != old {
            return Err(OutOfMemory);
        }
        Word::<Entered, u64, Law>::tracked(0, &mut pen);
        Ok(pen)
    }

    // Adds an item to the list, which was seen whole.
    pub(crate) fn extend(&mut self, head: &Word<Entered, u64, Law>, mut pen: Pen, item: &Item)
        requires head { head.now ≡ count_word self.old.board }
        requires pen { (pen.book ≡ self.old.board) × (pen.nib ≡ nib may_write (suc (suc (length self.old.list))) 0) }
        requires room { length self.old.list + 1 ≤ 4611686018427387904 }
        ensures { self.new ≡ board_list self.old.board (self.old.list ++ item.now ∷ []) }
    {
        let mut offer: Offer<Entered, u64, Law, Nothing> = self
            .seen
            .plain::<Nothing, Item, Extend>(item);
        head.compare_exchange::<Extend, Nothing>(0, 0, &mut self.seen, &mut offer, &mut pen);
        self.count += 1;
    }
}
