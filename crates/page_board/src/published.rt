ghost use Rattle.std.specs.Prelude.{◌≡◌, ◌++◌, ◌∷◌, [], drop, IfOk, IfSome, OnErr};
ghost use mathlib.Core.List.{IsPrefix};
ghost use Rattle.left_right.specs.Sides.{view};
ghost use Rattle.page_board.specs.BoardLists.{IsNewOn, board_list};
ghost use Rattle.page_board.specs.BoardPlaces.{IsKnownOf};
ghost use Rattle.page_board.specs.Moments.{StandsForItems};

use crate::face::Face;
use crate::front::Front;
use crate::moment::Moment;
use crate::places::{FaceReader, FaceWriter, Learns, Sees, Tells};
use crate::reader::BoardReader;
use crate::roll::Roll;
use crate::told::Told;
use core::mem::replace_with;
use std::alloc::Global;
use std::marker::Model;
use std::sync::Wait;
use task_model::{Item, OutOfMemory, shared};

/// What is published: the two copies, and the list. Contracts see the published list.
pub(crate) struct Published {
    pub(crate) writer: FaceWriter,
    pub(crate) roll: Roll,
}

impl Model for Published {
    ghost use Rattle.std.specs.Prelude.{◌≡◌, ◌<◌, [], drop, length};
    ghost use Rattle.std.specs.Coded.{codes};
    ghost use Rattle.task_model.specs.contracts.item.Item as items;
    ghost use Rattle.left_right.specs.Sides.{view as place_view};
    ghost use Rattle.page_board.specs.BoardLists.{BoardList};

    ghost Value = { BoardList };

    ghost coded = { Prim.hlevel (codes, items.the_row.coded) };

    ghost view = { λ w. w.roll };

    ghost invariant = { λ w. (w.writer.desk.shown.value.1 ≡ w.roll) × (drop w.writer.behind w.writer.log.items ≡ [])
        × (place_view w.writer.desk.place ≡ w.roll) × (0 < length w.roll.list) };
}

impl Published {
    /// A reader that has seen the whole list. It is refused where the board has no place left.
    pub(crate) fn reader(&mut self) -> Option<BoardReader>
        ensures new { IfSome result (IsNewOn self.old) }
        ensures same { self.new ≡ self.old }
    {
        let place = seat(&mut self.writer)?;
        Some(BoardReader {
            place: Some(place),
            front: self.roll.front(),
            refused: 0,
        })
    }

    /// The reader sees the whole list from now on. What it has seen before begins that list. It waits for nobody and takes no memory.
    pub(crate) fn meet(&mut self, reader: &mut BoardReader)
        requires board { reader.old.board ≡ self.old.board }
        ensures before { IsPrefix reader.old.list self.old.list }
        ensures after { (reader.new.board ≡ self.old.board) × (reader.new.list ≡ self.old.list)
            × (reader.new.refusals ≡ reader.old.refusals) }
        ensures same { self.new ≡ self.old }
    {
        self.roll.meet(&reader.front);
        // It gives its place back before it asks for one.
        reader.place = None;
        reader.place = seat(&mut self.writer);
        reader.front = self.roll.front();
    }

    /// What was kept of a reader begins the whole list.
    pub(crate) fn holds(&mut self, front: &Front)
        requires board { front.now.board ≡ self.old.board }
        ensures begins { IsPrefix front.now.list self.old.list }
        ensures same { self.new ≡ self.old }
    {
        self.roll.meet(front);
    }

    /// Shows the next moment. A refusal comes before the first change.
    pub(crate) fn publish<R: Wait>(
        &mut self,
        rt: &R,
        alloc: Global,
        next: Moment,
        item: &Item,
    ) -> Result<Told, OutOfMemory>
        requires stands { StandsForItems next (self.old.list ++ item.now ∷ []) }
        ensures ok { IfOk result (λ told. (self.new ≡ board_list self.old.board (self.old.list ++ item.now ∷ [])) × (told ≡ self.new)) }
        ensures err { OnErr result (self.new ≡ self.old) }
    {
        let moment = shared(alloc, next)?;
        self.roll.add(item)?;
        let face = Face {
            moment,
            front: self.roll.front(),
        };
        replace_with(&mut self.writer, face, |writer, face| {
            (put(rt, writer, face), ())
        });
        Ok(Told {
            place: seat(&mut self.writer),
            front: self.roll.front(),
        })
    }
}

// A place that knows what the writer knows. It waits for nobody and takes no memory.
fn seat(writer: &mut FaceWriter) -> Option<FaceReader>
    ensures kept { (writer.new.desk.shown ≡ writer.old.desk.shown) × (writer.new.log ≡ writer.old.log)
        × (writer.new.behind ≡ writer.old.behind) × (view writer.new.desk.place ≡ view writer.old.desk.place) }
    ensures place { IfSome result (λ r. view r.place ≡ view writer.old.desk.place) }
{
    let mut place = writer.factory().reader().ok()?;
    place.learn::<Learns>(writer.tell::<Tells>());
    Some(place)
}

// Publishes the face.
fn put<R: Wait>(rt: &R, writer: FaceWriter, face: Face) -> FaceWriter
    requires rest { drop writer.behind writer.log.items ≡ [] }
    requires follows { IsKnownOf writer.desk.shown.value.1 face.1 }
    ensures rest { drop result.behind result.log.items ≡ [] }
    ensures shown { result.desk.shown.value ≡ face }
    ensures place { view result.desk.place ≡ face.1 }
{
    show(rt, append(rt, writer, face))
}

// Asks until the log has room. It has, once anything was published.
fn append<R: Wait>(rt: &R, writer: FaceWriter, face: Face) -> FaceWriter
    requires rest { drop writer.behind writer.log.items ≡ [] }
    ensures desk { result.desk ≡ writer.desk }
    ensures pending { drop result.behind result.log.items ≡ face ∷ [] }
{
    let (mut writer, mut face) = (writer, face);
    for _ in rt.forever() {
        match writer.append(face) {
            Ok(()) => return writer,
            Err(back) => face = back,
        }
    }
    unreachable!()
}

// Shows the one face that is pending. The copy shares its memory, so only a full count of owners makes it try again.
pub(crate) fn show<R: Wait>(rt: &R, writer: FaceWriter) -> FaceWriter
    requires { (next : _) × (drop writer.behind writer.log.items ≡ next ∷ []) × IsKnownOf writer.desk.shown.value.1 next.1 }
    ensures rest { drop result.behind result.log.items ≡ [] }
    ensures shown { result.desk.shown.value ∷ [] ≡ drop writer.behind writer.log.items }
    ensures place { view result.desk.place ≡ result.desk.shown.value.1 }
{
    let mut writer = writer;
    for _ in rt.forever() {
        let (after, done) = writer.publish_as::<Sees, R>(rt);
        writer = after;
        if done.is_ok() {
            return writer;
        }
    }
    unreachable!()
}
