ghost use Rattle.std.specs.Prelude.{◌≡◌, ◌++◌, ◌∷◌, [], IfOk, IfSome, OnErr};
ghost use mathlib.Core.List.{IsPrefix};
ghost use Rattle.page_board.specs.BoardLists.{IsNewOn, board_list};
ghost use Rattle.page_board.specs.Moments.{StandsForItems};

use crate::front::Front;
use crate::moment::Moment;
use crate::published::Published;
use crate::reader::BoardReader;
use crate::told::Told;
use std::alloc::Global;
use std::marker::Model;
use std::sync::Wait;
use task_model::{Item, OutOfMemory};

/// The one who writes a board, which ends when the writer is dropped: readers are refused from then on, and the drop waits for those that
/// still read. For that the writer keeps the handle. Contracts see the published list.
pub struct BoardWriter<R: Wait + Copy> {
    pub(crate) published: Published,
    pub(crate) rt: R,
}

impl<R: Wait + Copy> Model for BoardWriter<R> {
    ghost use Rattle.std.specs.Coded.{codes};
    ghost use Rattle.task_model.specs.contracts.item.Item as items;
    ghost use Rattle.page_board.specs.BoardLists.{BoardList};

    ghost Value = { BoardList };

    ghost coded = { Prim.hlevel (codes, items.the_row.coded) };

    ghost view = { λ w. w.published };
}

impl<R: Wait + Copy> BoardWriter<R> {
    /// A reader that has seen the whole list. It is refused where the board has no place left.
    pub(crate) fn reader(&mut self) -> Option<BoardReader>
        ensures new { IfSome result (IsNewOn self.old) }
        ensures same { self.new ≡ self.old }
    {
        self.published.reader()
    }

    /// Shows the next moment, which stands for the published list and one item more. It may wait for readers, and is refused only for want
    /// of memory, before the first change.
    pub fn publish(&mut self, alloc: Global, next: Moment, item: &Item) -> Result<Told, OutOfMemory>
        requires stands { StandsForItems next (self.old.list ++ item.now ∷ []) }
        ensures ok { IfOk result (λ told. (self.new ≡ board_list self.old.board (self.old.list ++ item.now ∷ [])) × (told ≡ self.new)) }
        ensures err { OnErr result (self.new ≡ self.old) }
    {
        let rt = self.rt;
        self.published.publish(&rt, alloc, next, item)
    }

    /// The reader sees the whole list from now on. What it has seen before begins that list. It waits for nobody and takes no memory.
    pub fn meet(&mut self, reader: &mut BoardReader)
        requires board { reader.old.board ≡ self.old.board }
        ensures before { IsPrefix reader.old.list self.old.list }
        ensures after { (reader.new.board ≡ self.old.board) × (reader.new.list ≡ self.old.list)
            × (reader.new.refusals ≡ reader.old.refusals) }
        ensures same { self.new ≡ self.old }
    {
        self.published.meet(reader);
    }

    /// What was kept of a reader begins the whole list. It waits for nobody and takes no memory.
    pub fn holds(&mut self, front: &Front)
        requires board { front.now.board ≡ self.old.board }
        ensures begins { IsPrefix front.now.list self.old.list }
        ensures same { self.new ≡ self.old }
    {
        self.published.holds(front);
    }
}

impl<R: Wait + Copy> Drop for BoardWriter<R> {
    fn drop(self) {
        let Self { published, rt } = self;
        let Published {
            writer,
            roll: _roll,
        } = published;
        writer.take(&rt);
    }
}
