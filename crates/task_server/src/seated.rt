ghost use Rattle.std.specs.Prelude.{◌≡◌};

use html_pages::Page;
use session_desk::{Desk, PageStop, ViewStop};
use std::alloc::Global;
use std::sync::Wait;
use task_model::{ActStop, Face, Input};
use world_lock::{Mark, Session, Shared};

/// A session at its world. It owns the session, so that its holder knows what became of it.
#[derive(Drop)]
pub struct Seated<'a, M: Mark, S: Wait + Copy> {
    pub session: Session<M>,
    pub shared: &'a Shared<M, S>,
}

impl<'a, M: Mark, S: Wait + Copy> Desk for Seated<'a, M, S> {
    ghost use Rattle.world_lock.specs.Sessions.{session_term};

    ghost at = { λ s. session_term s.session };

    fn seat(&self) -> u8 {
        self.session.seat()
    }

    fn seen(&self) -> u64 {
        self.session.seen()
    }

    fn page(&mut self, alloc: Global, face: Face) -> Result<Page, ViewStop> {
        self.session.page(alloc, face)
    }

    fn page_at<R: Wait>(
        &mut self,
        rt: &R,
        alloc: Global,
        face: Face,
        at_least: u64,
    ) -> Result<Page, PageStop> {
        self.session.page_at(rt, alloc, self.shared, face, at_least)
    }

    fn act<R: Wait>(&mut self, rt: &R, alloc: Global, input: Input) -> Result<u64, ActStop> {
        self.session.act(rt, alloc, self.shared, input)
    }
}
