ghost use Rattle.std.specs.Prelude.{◌≡◌, ◌≤◌, ◌⊎◌, IfOk, OnErr, length};
ghost use Rattle.std.specs.Fn.{FnOnceReturnsAt};
ghost use mathlib.Core.List.{IsPrefix};
ghost use Rattle.outer_io.specs.Causes.{Rose};
ghost use Rattle.page_board.specs.Moments.{StandsForItems};
ghost use Rattle.page_board.specs.declared.moment.Moment.{Moment};

use crate::front::Front;
use crate::moment::Moment;
use crate::no_entry::NoEntry;
use crate::places::{FaceReader, Sees};
use crate::told::Told;
use std::marker::Model;
use std::sync::Arc;

/// One who looks at a board. Contracts see which board it is, the list that was seen, and how often the board refused an entry.
#[derive(Drop)]
pub struct BoardReader {
    // None where the board had no place for it.
    pub(crate) place: Option<FaceReader>,
    pub(crate) front: Front,
    pub(crate) refused: u64,
}

impl Model for BoardReader {
    ghost use Rattle.std.specs.Coded.{codes};
    ghost use Rattle.task_model.specs.contracts.item.Item as items;
    ghost use Rattle.std.specs.Prelude.{◌≡◌, ◌<◌, IfSome, length};
    ghost use Rattle.left_right.specs.Sides.{view as place_view};
    ghost use Rattle.page_board.specs.BoardLists.{SeenReader};

    ghost Value = { SeenReader };

    ghost coded = { Prim.hlevel (codes, items.the_row.coded) };

    ghost view = { λ r. record { board = r.front.board; list = r.front.list; refusals = r.refused } };

    ghost invariant = { λ r. IfSome r.place (λ p. place_view p.place ≡ r.front) × (0 < length r.front.list) };
}

impl BoardReader {
    /// The length of the list that was seen.
    pub fn len(&self) -> u64
        ensures { result ≡ length self.now.list }
    {
        self.front.len()
    }

    /// The list that was seen, to be kept by another.
    pub fn front(&self) -> Front
        ensures { (result.board ≡ self.now.board) × (result.list ≡ self.now.list) }
    {
        self.front.again()
    }

    /// How often the board refused an entry, at most 2^64 - 1.
    pub fn refusals(&self) -> u64
        ensures { result ≡ self.now.refusals }
    {
        self.refused
    }

    /// From now on the reader sees no less than what was told. It takes no memory and waits for nobody.
    pub fn learn(&mut self, told: &mut Told)
        requires { told.old.board ≡ self.old.board }
        ensures told { told.new ≡ told.old }
        ensures same { (self.new.board ≡ self.old.board) × (self.new.refusals ≡ self.old.refusals) }
        ensures longer { (self.new.list ≡ self.old.list) ⊎ (self.new.list ≡ told.old.list) }
        ensures mine { IsPrefix self.old.list self.new.list }
        ensures learnt { IsPrefix told.old.list self.new.list }
    {
        if self.front.len() < told.front.len() {
            self.front.compare(&told.front);
            self.place = told.place.take();
            self.front = told.front.again();
        } else {
            told.front.compare(&self.front);
        }
    }

    /// Shows the newest moment to `look`. It stands for the list that is then seen, which goes on from the one before. It takes no lock and
    /// waits for nobody, and the writer waits for `look` only where no owner more of the moment can be counted. Where the board refuses the
    /// entry the list stays, `look` isn't called, and the count of refusals rises.
    pub fn read<A, F: FnOnce(&Moment) -> A>(&mut self, look: F) -> Result<A, NoEntry>
        requires { F.IsAlwaysCallable look }
        ensures shown { IfOk result (λ a. (x : Moment) × StandsForItems x self.new.list × FnOnceReturnsAt F.FnOnce look x a) }
        ensures later { (self.new.board ≡ self.old.board) × IsPrefix self.old.list self.new.list }
        ensures refused { OnErr result ((self.new.list ≡ self.old.list) × Rose self.old.refusals self.new.refusals) }
        ensures entered { IfOk result (λ a. self.new.refusals ≡ self.old.refusals) }
        ensures count { self.old.refusals ≤ self.new.refusals }
    {
        let Some(place) = self.place.take() else {
            self.refused = self.refused.saturating_add(1);
            return Err(NoEntry);
        };
        match place.enter_as::<Sees>() {
            Ok(reading) => {
                let face = reading.get();
                self.front = face.front.again();
                match Arc::try_clone(&face.moment) {
                    Ok(moment) => {
                        self.place = Some(reading.leave());
                        Ok(look(&moment))
                    }
                    // No owner more can be counted.
                    Err(_) => {
                        let answer = look(&face.moment);
                        self.place = Some(reading.leave());
                        Ok(answer)
                    }
                }
            }
            Err(place) => {
                self.place = Some(place);
                self.refused = self.refused.saturating_add(1);
                Err(NoEntry)
            }
        }
    }
}
