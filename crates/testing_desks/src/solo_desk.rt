ghost use Rattle.std.specs.Prelude.{◌≡◌, ◌<◌, IsNone};
ghost use Rattle.task_model.specs.Terms.Item.{history_term};
ghost use Rattle.task_model.specs.Running.State.{IsLegal, IsSeat};
ghost use Rattle.world_core.specs.World.{IsStanding, world_term};

use html_pages::{Page, frame};
use session_desk::{Desk, PageStop, ViewStop};
use std::alloc::Global;
use std::sync::Wait;
use std::sync::ledger::{Blank, Ledger};
use task_model::{ActStop, Face, Input, OutOfMemory, Steps};
use testing_programs::accepted;
use world_core::{Taken, World};

/// A desk over a world of its own, with nobody else at it: it has always seen the whole history, and no entry is refused to it.
#[derive(Drop)]
pub struct SoloDesk<L: Ledger> {
    world: World,
    seat: u8,
    page_at_calls: u64,
    steps: Steps<L>,
    ghost seated: { IsSeat seat },
    ghost rest: { IsNone world.next },
}

impl<L: Ledger> SoloDesk<L> {
    /// The desk of seat 1 at the world of a text, opened within 10,000 units. A text that has none is as want of memory.
    pub fn open(alloc: Global, source: &str, blank: Blank) -> Result<SoloDesk<L>, OutOfMemory>
        requires name { blank.name ≡ L.name }
        requires parts { blank.parts ≡ L.parts }
        requires some { 0 < blank.parts }
    {
        match World::open(alloc, accepted(alloc, source)?, 10_000) {
            Ok(world) => Ok(SoloDesk {
                world,
                seat: 1,
                page_at_calls: 0,
                steps: Steps::new(blank),
            }),
            Err(_) => Err(OutOfMemory),
        }
    }

    /// What it has seen is a legal history, and its world stands at it.
    pub fn shows_legal(&self)
        ensures legal { IsLegal (history_term self.now.world.history) }
        ensures standing { IsStanding (world_term self.now.world) }
    {
        let _legal = self.world.history();
    }
}

impl<L: Ledger> Desk for SoloDesk<L> {
    ghost use Rattle.testing_desks.specs.SoloDesks.{solo_desk};

    ghost at = { λ d. solo_desk d.seat d.world d.page_at_calls };

    fn seat(&self) -> u8 {
        self.seat
    }

    fn seen(&self) -> u64 {
        self.world.version()
    }

    // With no room for the head of a reply, which the pages of `page_at` have.
    fn page(&mut self, alloc: Global, face: Face) -> Result<Page, ViewStop> {
        self.shows_legal();
        let fragments = self.world.fragments(alloc, &mut self.steps)?;
        let version = self.world.version();
        Ok(frame(alloc, face, version, self.seat, &fragments)?)
    }

    fn page_at<R: Wait>(
        &mut self,
        _rt: &R,
        alloc: Global,
        face: Face,
        at_least: u64,
    ) -> Result<Page, PageStop> {
        self.shows_legal();
        self.page_at_calls = self.page_at_calls.saturating_add(1);
        let have = self.world.version();
        if have < at_least {
            return Err(PageStop::Ahead { have });
        }
        Ok(self.world.page(alloc, face, self.seat, &mut self.steps)?)
    }

    fn act<R: Wait>(&mut self, _rt: &R, _alloc: Global, input: Input) -> Result<u64, ActStop> {
        self.shows_legal();
        let Taken { version } = self.world.handle(self.seat, input)?;
        self.shows_legal();
        Ok(version)
    }
}
