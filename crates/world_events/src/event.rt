//! What happens to a world and to what is shown of it, each with a count of steps of its own.
ghost use Rattle.std.specs.Prelude.{◌≡◌, ◌<◌, None, Err, IfOk, OnErr};
ghost use Rattle.task_model.specs.Terms.Input.{input_term};
ghost use Rattle.task_model.specs.Terms.Item.{history_term};
ghost use Rattle.task_model.specs.Running.Outcome.{not_offered, over_budget};
ghost use Rattle.task_model.specs.Running.State.{IsSeat};
ghost use Rattle.task_model.specs.declared.stops.ActStop.TheVariants.{NotOffered, Over};
ghost use Rattle.session_desk.specs.Desks.{ShowsPage, seat_entry};
ghost use Rattle.session_desk.specs.Outcomes.{HasOutcome};
ghost use Rattle.world_core.specs.World.{world_term};
ghost use Rattle.world_events.specs.Events.{IsPrepared, IsPublished};

use html_pages::Page;
use page_board::{BoardWriter, Moment, Told};
use std::alloc::Global;
use std::sync::Wait;
use std::sync::ledger::{Blank, Ledger};
use task_model::{ActStop, Face, Input, OutOfMemory, Steps};
use world_core::{Taken, World};

// Prepares an input, and what is to be shown of the state that it leads to. A refusal leaves the world.
fn prepare<L: Ledger>(
    world: &mut World,
    alloc: Global,
    seat: u8,
    input: Input,
    blank: Blank,
) -> Result<Moment, ActStop>
    requires seat { IsSeat seat }
    requires rest { world.old.next ≡ None }
    requires ledger { (blank.name ≡ L.name) × (blank.parts ≡ L.parts) × (0 < blank.parts) }
    ensures ok { IfOk result (IsPrepared world.old world.new (seat_entry seat (input_term input))) }
    ensures not_offered { result ≡ Err NotOffered → HasOutcome (history_term world.old.history) (input_term input) not_offered }
    ensures over { result ≡ Err Over → HasOutcome (history_term world.old.history) (input_term input) over_budget }
    ensures left { OnErr result (world_term world.new ≡ world_term world.old) }
{
    // What is then refused is so at the state of the history.
    let _standing = world.history();
    world.prepare(seat, input)?;
    let mut steps = Steps::<L>::new(blank);
    match world.next_fragments(alloc, &mut steps) {
        Ok(fragments) => {
            let _leads = world.next_item();
            let version = world.next_version();
            Ok(Moment { version, fragments })
        }
        Err(OutOfMemory) => {
            world.abandon();
            Err(ActStop::Memory)
        }
    }
}

/// One event: what the input leads to is shown on the board, and then the input counts. All that can be refused comes before the first
/// change, and what follows the publishing takes no memory.
pub fn happen<L: Ledger, R: Wait + Copy>(
    world: &mut World,
    writer: &mut BoardWriter<R>,
    alloc: Global,
    seat: u8,
    input: Input,
    blank: Blank,
) -> Result<(Told, u64), ActStop>
    requires seat { IsSeat seat }
    requires rest { world.old.next ≡ None }
    requires published { history_term writer.old.list ≡ history_term world.old.history }
    requires ledger { (blank.name ≡ L.name) × (blank.parts ≡ L.parts) × (0 < blank.parts) }
    ensures ok { IfOk result (λ r. IsPublished world.old world.new writer.old writer.new r.0 (seat_entry seat (input_term input)) r.1) }
    ensures not_offered { result ≡ Err NotOffered → HasOutcome (history_term world.old.history) (input_term input) not_offered }
    ensures over { result ≡ Err Over → HasOutcome (history_term world.old.history) (input_term input) over_budget }
    ensures left { OnErr result ((world_term world.new ≡ world_term world.old) × (writer.new ≡ writer.old)) }
{
    let next = prepare::<L>(world, alloc, seat, input, blank)?;
    let Some(item) = world.next_item() else {
        unreachable!()
    };
    match writer.publish(alloc, next, item) {
        Ok(told) => {
            let Taken { version } = world.commit();
            Ok((told, version))
        }
        Err(OutOfMemory) => {
            world.abandon();
            Err(ActStop::Memory)
        }
    }
}

/// The page of the world for a seat, behind room for the head of a reply.
pub fn draw<L: Ledger>(
    world: &mut World,
    alloc: Global,
    face: Face,
    seat: u8,
    blank: Blank,
) -> Result<Page, OutOfMemory>
    requires seat { IsSeat seat }
    requires rest { world.old.next ≡ None }
    requires ledger { (blank.name ≡ L.name) × (blank.parts ≡ L.parts) × (0 < blank.parts) }
    ensures world { (world.new.history ≡ world.old.history) × (world.new.next ≡ None) }
    ensures page { IfOk result (ShowsPage face (history_term world.old.history) seat) }
    ensures room { IfOk result (λ page. page.room ≡ 256) }
{
    let mut steps = Steps::<L>::new(blank);
    world.page(alloc, face, seat, &mut steps)
}
