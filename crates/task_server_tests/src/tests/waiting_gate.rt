//! A gate of two links that have to do with each other.
ghost use Rattle.std.specs.Prelude.{◌≡◌, ◌≤◌, false};
ghost use Rattle.outer_io.specs.Causes.{Rose};
ghost use Rattle.outer_io.specs.StreamLinks.{told_over_stream};
ghost use Rattle.outer_gates.specs.Gates.{Accepts, faults_after_accept, told_by_listener};

use super::waiting_link::WaitingLink;
use outer_gates::{Accept, Gate};
use std::alloc::Global;

// A link that wasn't shut.
#[derive(Drop)]
struct Unserved {
    link: WaitingLink,
    ghost opens: { link.is_shut ≡ false },
}

/// A gate that hands out two links, and tells nothing.
#[derive(Drop)]
pub(super) struct WaitingGate {
    first: Option<Unserved>,
    second: Option<Unserved>,
    finished: Vec<WaitingLink>,
}

impl WaitingGate {
    pub(super) fn new(alloc: Global, first: WaitingLink, second: WaitingLink) -> WaitingGate
        requires first { first.is_shut ≡ false }
        requires second { second.is_shut ≡ false }
    {
        WaitingGate {
            first: Some(Unserved { link: first }),
            second: Some(Unserved { link: second }),
            finished: Vec::new(alloc),
        }
    }

    pub(super) fn finished(&self) -> &[WaitingLink] {
        self.finished.as_slice()
    }
}

impl Gate for WaitingGate {
    ghost use Rattle.std.specs.Prelude.{refl};

    type Link = WaitingLink;

    ghost told = { λ g. told_by_listener 0 };

    ghost tells = { λ l. told_over_stream 0 0 l.is_shut };

    fn accept(&mut self) -> Accept<WaitingLink>
        ensures links { Accepts (λ (l : WaitingLink). told_over_stream 0 0 l.is_shut) (told_by_listener 0) (told_by_listener 0) result }
        ensures count { 0 ≤ 0 }
        ensures failed { result ≡ Accept.Failed → Rose 0 0 }
        ensures exact { 0 ≡ faults_after_accept 0 result }
    {
        match self.first.take().or_else(|| self.second.take()) {
            Some(unserved) => Accept::Link(unserved.link),
            None => Accept::Closed,
        }
    }

    fn finish(&mut self, link: WaitingLink) {
        let _ = self.finished.push(link);
    }

    ghost tells_links = { λ l. refl };
}
