ghost use Rattle.std.specs.Prelude.{◌≡◌, ◌<◌, [], ◌∷◌, All, None, IfErr, IfOk, length};
ghost use Rattle.task_model.specs.Terms.Tree.{State};
ghost use Rattle.task_model.specs.Terms.Item.{ItemTerm, opened, history_term};
ghost use Rattle.task_model.specs.Running.Checked.{checked_term};
ghost use Rattle.task_model.specs.Running.State.{IsBudget, IsOpening, IsSeat};
ghost use Rattle.page_board.specs.BoardLists.{IsNewOn};
ghost use Rattle.page_board.specs.Moments.{StandsFor};

use page_board::{BoardReader, BoardWriter, Moment, board};
use std::alloc::Global;
use std::marker::{Brand, Model};
use std::sync::Wait;
use std::sync::ledger::{Blank, Ledger};
use task_model::{Checked, OutOfMemory, Steps};
use world_core::{OpenStop, World};

/// An opened world with its board, before a mark names it. Contracts see its board, its history, a ledger's name, and its number of seats.
#[derive(Drop)]
pub struct Opening<R: Wait + Copy> {
    pub(crate) world: World,
    pub(crate) writer: BoardWriter<R>,
    pub(crate) readers: Vec<BoardReader>,
    pub(crate) blank: Blank,
    pub(crate) taken: Vec<u64>,
    pub(crate) seats: u8,
}

impl<R: Wait + Copy> Model for Opening<R> {
    ghost use Rattle.std.specs.Prelude.{vec_capacity};
    ghost use Rattle.std.specs.Coded.{codes};
    ghost use Rattle.task_model.specs.contracts.item.Item as items;
    ghost use Rattle.world_lock.specs.Openings.{SeenOpening, IsOpened};

    ghost Value = { SeenOpening };

    ghost coded = { Prim.hlevel (codes, items.the_row.coded) };

    ghost view = { λ o. record { board = o.writer.board; history = o.world.history; name = o.blank.name; seats = o.seats } };

    ghost invariant = { λ o. IsOpened o.world o.writer o.readers.items o.blank.parts o.taken.items (vec_capacity o.taken) o.seats };
}

// The world at its opening, and the moment of it.
fn open_world<L: Ledger>(
    alloc: Global,
    c: Checked,
    budget: u32,
    blank: Blank,
) -> Result<(World, Moment), OpenStop>
    requires budget { IsBudget budget }
    requires ledger { (blank.name ≡ L.name) × (blank.parts ≡ L.parts) × (0 < blank.parts) }
    ensures rest { IfOk result (λ r. r.0.next ≡ None) }
    ensures history { IfOk result (λ r. history_term r.0.history ≡ opened (checked_term c).program budget ∷ []) }
    ensures stands { IfOk result (λ r. StandsFor r.1 (history_term r.0.history)) }
    ensures over { IfErr result (λ stop. stop ≡ OpenStop.Over → (s : State) → IsOpening (checked_term c) budget s → ⊥) }
{
    let mut world = World::open(alloc, c, budget)?;
    match first_moment::<L>(&mut world, alloc, blank) {
        Ok(first) => Ok((world, first)),
        Err(OutOfMemory) => {
            drop(world);
            Err(OpenStop::Memory)
        }
    }
}

// What pages of a world at rest are made from.
fn first_moment<L: Ledger>(
    world: &mut World,
    alloc: Global,
    blank: Blank,
) -> Result<Moment, OutOfMemory>
    requires rest { world.old.next ≡ None }
    requires ledger { (blank.name ≡ L.name) × (blank.parts ≡ L.parts) × (0 < blank.parts) }
    ensures world { (world.new.history ≡ world.old.history) × (world.new.next ≡ None) }
    ensures stands { IfOk result (λ m. StandsFor m (history_term world.old.history)) }
{
    // The history is legal.
    let _legal = world.history();
    let version = world.version();
    let mut steps = Steps::<L>::new(blank);
    let fragments = world.fragments(alloc, &mut steps)?;
    Ok(Moment { version, fragments })
}

/// Opens a program within a budget, 1 to 1,000,000 units, with so many seats, 1 to 64. The history is that one item.
pub fn make_opening<R: Wait + Copy>(
    rt: &R,
    alloc: Global,
    c: Checked,
    budget: u32,
    seats: u8,
) -> Result<Opening<R>, OpenStop>
    requires budget { IsBudget budget }
    requires seats { IsSeat seats }
    ensures history { IfOk result (λ o. history_term o.history ≡ opened (checked_term c).program budget ∷ []) }
    ensures seats { IfOk result (λ o. o.seats ≡ seats) }
    ensures over { IfErr result (λ stop. stop ≡ OpenStop.Over → (s : State) → IsOpening (checked_term c) budget s → ⊥) }
{
    let mut taken = Vec::new(alloc);
    if taken.reserve(usize::from(seats)).is_err() {
        drop(c);
        return Err(OpenStop::Memory);
    }
    let (world, first) = open_world::<Brand>(alloc, c, budget, Blank::new(1))?;
    match first_board(rt, alloc, &world, first, seats) {
        Ok((writer, readers)) => Ok(Opening {
            world,
            writer,
            readers,
            blank: Blank::new(u64::from(seats)),
            taken,
            seats,
        }),
        Err(OutOfMemory) => {
            drop(world);
            Err(OpenStop::Memory)
        }
    }
}

// The board that shows an opened world, and its readers.
fn first_board<R: Wait + Copy>(
    rt: &R,
    alloc: Global,
    world: &World,
    first: Moment,
    seats: u8,
) -> Result<(BoardWriter<R>, Vec<BoardReader>), OutOfMemory>
    requires seats { IsSeat seats }
    requires stands { StandsFor first (history_term world.now.history) }
    requires one { (i : ItemTerm) × (history_term world.now.history ≡ i ∷ []) }
    ensures writer { IfOk result (λ b. b.0.list ≡ world.now.history) }
    ensures readers { IfOk result (λ b. (length b.1.items ≡ seats) × All (IsNewOn b.0) b.1.items) }
{
    let Some(item) = world.history().first() else {
        unreachable!()
    };
    board(rt, alloc, first, item, seats)
}
