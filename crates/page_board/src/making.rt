ghost use Rattle.std.specs.Prelude.{◌≡◌, ◌≤◌, ◌∷◌, [], drop, length, IfOk, All};
ghost use Rattle.page_board.specs.BoardLists.{IsNewOn};
ghost use Rattle.page_board.specs.Moments.{StandsForItems};

use crate::face::Face;
use crate::moment::Moment;
use crate::places::FaceWriter;
use crate::published::{Published, show};
use crate::reader::BoardReader;
use crate::roll::Roll;
use crate::writer::BoardWriter;
use std::alloc::Global;
use std::sync::Wait;
use task_model::{Item, OutOfMemory, shared};

/// Makes a board that shows `first`, which stands for the list of one item, with so many readers, 1 to 64. A place that the board refuses
/// is want of memory.
pub fn board<R: Wait + Copy>(
    rt: &R,
    alloc: Global,
    first: Moment,
    item: &Item,
    readers: u8,
) -> Result<(BoardWriter<R>, Vec<BoardReader>), OutOfMemory>
    requires stands { StandsForItems first (item.now ∷ []) }
    requires readers { (1 ≤ readers) × (readers ≤ 64) }
    ensures writer { IfOk result (λ b. b.0.list ≡ item.now ∷ []) }
    ensures readers { IfOk result (λ b. (length b.1.items ≡ readers) × All (IsNewOn b.0) b.1.items) }
{
    let mut all = Vec::new(alloc);
    all.reserve(usize::from(readers))?;
    let mut writer = start(rt, alloc, first, item, usize::from(readers) + 2)?;
    for _ in 0..readers {
        let Some(reader) = writer.reader() else {
            return Err(OutOfMemory);
        };
        all.push_reserved(reader);
    }
    Ok((writer, all))
}

// A board that shows the first moment.
fn start<R: Wait + Copy>(
    rt: &R,
    alloc: Global,
    first: Moment,
    item: &Item,
    places: usize,
) -> Result<BoardWriter<R>, OutOfMemory>
    requires stands { StandsForItems first (item.now ∷ []) }
    requires places { (1 ≤ places) × (places ≤ 66) }
    ensures { IfOk result (λ w. w.list ≡ item.now ∷ []) }
{
    let mut roll = Roll::start()?;
    roll.add(item)?;
    let face = Face {
        moment: shared(alloc, first)?,
        front: roll.front(),
    };
    let writer = begin(rt, alloc, face, places)?;
    let published = Published {
        writer: show(rt, writer),
        roll,
    };
    Ok(BoardWriter { published, rt: *rt })
}

// Both copies, with the face to be published once more: so the writer's place sees it, and the log has its room.
fn begin<R: Wait>(
    rt: &R,
    alloc: Global,
    face: Face,
    places: usize,
) -> Result<FaceWriter, OutOfMemory>
    requires places { (1 ≤ places) × (places ≤ 66) }
    ensures shown { IfOk result (λ w. w.desk.shown.value ≡ face) }
    ensures pending { IfOk result (λ w. drop w.behind w.log.items ≡ face ∷ []) }
{
    let (Ok(one), Ok(two)) = (face.again(), face.again()) else {
        return Err(OutOfMemory);
    };
    let Ok(mut writer) = FaceWriter::new(alloc, one, two, places) else {
        return Err(OutOfMemory);
    };
    if writer.append(face).is_err() {
        writer.take(rt);
        return Err(OutOfMemory);
    }
    Ok(writer)
}
