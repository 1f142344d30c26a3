ghost use Rattle.std.specs.Prelude.{◌≡◌, ◌≤◌, IfOk, None, length, map};
ghost use Rattle.std.specs.List.{All};
ghost use Rattle.input_lines.specs.ScriptLines.{HasSeat, line_term};
ghost use Rattle.hub_lines.specs.OwnLines.{addressed};
ghost use Rattle.world_hub.specs.Shares.{HasAnsweredOwn, HaveAnsweredOwn, numbered_from, share_texts};

use crate::gather::gather;
use crate::own::{Numbered, Share, answer_job};
use hub_lines::{HubLine, lines_cross};
use std::alloc::Global;
use std::collections::VecDeque;
use std::thread;
use std::thread::Threads;
use task_model::{OutOfMemory, Row};
use world_core::World;
use world_crossing::worlds_cross;

/// Each world answers its own lines, from a thread of its own where one can be made, else one after another. Err: memory ran out.
pub(crate) fn answer_all<R: Threads + Sync>(
    rt: &R,
    alloc: Global,
    jobs: Vec<Numbered>,
    lines: &[HubLine],
) -> Result<Vec<Share>, OutOfMemory>
    requires rest { All (λ j. j.world.next ≡ None) jobs.items }
    requires seats { All (λ l. HasSeat (line_term l.line)) lines.now }
    ensures { IfOk result (λ shares. HaveAnsweredOwn (map addressed lines.now) jobs.items shares.items) }
{
    // A world may go to another thread, and the lines may be read from each.
    worlds_cross();
    lines_cross();
    let answered = thread::map_vec(
        rt,
        jobs,
        &|job: Numbered| -> Result<Share, OutOfMemory>
            requires { (job.world.next ≡ None) × All (λ l. HasSeat (line_term l.line)) lines.now }
            ensures { IfOk result (HasAnsweredOwn (map addressed lines.entry.now) job) }
        { answer_job(alloc, job, lines) },
    )?;
    gather(alloc, answered)
}

/// Worlds with their numbers, from 1 on.
pub(crate) fn number(alloc: Global, worlds: Vec<World>) -> Result<Vec<Numbered>, OutOfMemory>
    requires { length worlds.items ≤ 16 }
    ensures { IfOk result (λ jobs. jobs.items ≡ numbered_from 1 worlds.items) }
{
    let mut jobs = Vec::new(alloc);
    let mut rest = VecDeque::from(worlds);
    let mut number = 0;
    while let Some(world) = rest.pop_front() {
        number += 1;
        jobs.push(Numbered { number, world })?;
    }
    Ok(jobs)
}

/// The worlds of some shares, and their texts.
#[derive(Drop)]
pub(crate) struct Parted {
    pub(crate) worlds: Vec<World>,
    pub(crate) texts: Vec<VecDeque<Row<u8>>>,
}

/// Parts shares.
pub(crate) fn part(alloc: Global, shares: Vec<Share>) -> Result<Parted, OutOfMemory>
    ensures worlds { IfOk result (λ p. p.worlds.items ≡ map (λ s. s.world) shares.items) }
    ensures texts { IfOk result (λ p. map (λ q. map (λ t. t.list) q.items) p.texts.items ≡ map share_texts shares.items) }
{
    let mut worlds = Vec::new(alloc);
    let mut texts = Vec::new(alloc);
    let mut rest = VecDeque::from(shares);
    while let Some(share) = rest.pop_front() {
        worlds.push(share.world)?;
        texts.push(VecDeque::from(share.texts))?;
    }
    Ok(Parted { worlds, texts })
}
