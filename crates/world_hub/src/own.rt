ghost use Rattle.std.specs.Prelude.{◌≡◌, ◌<◌, IfOk, None, map};
ghost use Rattle.std.specs.List.{All};
ghost use Rattle.input_lines.specs.ScriptLines.{HasSeat, line_term};
ghost use Rattle.hub_lines.specs.OwnLines.{addressed};
ghost use Rattle.world_hub.specs.Shares.{HasAnsweredOwn};

use hub_lines::HubLine;
use input_lines::Line;
use std::alloc::Global;
use std::marker::Brand;
use std::sync::ledger::{Blank, Ledger};
use task_model::{OutOfMemory, Row, Steps, copy_entry};
use world_answers::{Answering, LineForm};
use world_core::World;

/// A world, and its number.
#[derive(Drop)]
pub(crate) struct Numbered {
    pub(crate) number: u8,
    pub(crate) world: World,
}

/// A world, and the answers to its lines.
#[derive(Drop)]
pub(crate) struct Share {
    pub(crate) world: World,
    pub(crate) texts: Vec<Row<u8>>,
}

/// A world answers its own lines, in order.
pub(crate) fn answer_own<L: Ledger>(
    alloc: Global,
    job: Numbered,
    lines: &[HubLine],
    blank: Blank,
) -> Result<Share, OutOfMemory>
    requires rest { job.world.next ≡ None }
    requires seats { All (λ l. HasSeat (line_term l.line)) lines.now }
    requires ledger { (blank.name ≡ L.name) × (blank.parts ≡ L.parts) × (0 < blank.parts) }
    ensures { IfOk result (HasAnsweredOwn (map addressed lines.now) job) }
{
    let Numbered { number, world } = job;
    let mut texts = Vec::new(alloc);
    let mut answering = Answering::new(LineForm::Script, world, Steps::<L>::new(blank));
    for line in lines {
        if line.world == number {
            let asked = copy_line(alloc, &line.line)?;
            texts.push(answering.answer(alloc, asked)?)?;
        }
    }
    let world = answering.into_world();
    let _legal = world.history();
    Ok(Share { world, texts })
}

/// The same, with a count of steps of its own.
pub(crate) fn answer_job(
    alloc: Global,
    job: Numbered,
    lines: &[HubLine],
) -> Result<Share, OutOfMemory>
    requires rest { job.world.next ≡ None }
    requires seats { All (λ l. HasSeat (line_term l.line)) lines.now }
    ensures { IfOk result (HasAnsweredOwn (map addressed lines.now) job) }
{
    answer_own::<Brand>(alloc, job, lines, Blank::new(1))
}

/// An equal line.
fn copy_line(alloc: Global, line: &Line) -> Result<Line, OutOfMemory>
    ensures { IfOk result (λ l. line_term l ≡ line_term line.now) }
{
    match line {
        Line::Blank => Ok(Line::Blank),
        Line::Show { seat } => Ok(Line::Show { seat: *seat }),
        Line::Act(entry) => Ok(Line::Act(copy_entry(alloc, entry)?)),
    }
}
