ghost use Rattle.std.specs.Prelude.{◌≡◌, ◌∷◌, [], All, IfSome, IfNone};
ghost use Rattle.outer_io.specs.Links.{IsFresh};
ghost use Rattle.outer_io.specs.MemLinks.{told_in_memory};

use outer_io::MemLink;
use std::collections::VecDeque;

/// Links in memory with which nothing was done.
#[derive(Drop)]
pub(crate) struct FreshLinks {
    links: VecDeque<MemLink>,
    ghost fresh: { All (λ l. IsFresh (told_in_memory l)) links.items },
}

impl FreshLinks {
    /// These links.
    pub(crate) fn new(links: VecDeque<MemLink>) -> FreshLinks
        requires fresh { All (λ l. IsFresh (told_in_memory l)) links.items }
        ensures { result.links ≡ links }
    {
        FreshLinks { links }
    }

    /// Takes the first one out.
    pub(crate) fn pop(&mut self) -> Option<MemLink>
        ensures first { IfSome result (λ l. (self.old.links.items ≡ l ∷ self.new.links.items) × IsFresh (told_in_memory l)) }
        ensures none { IfNone result ((self.old.links.items ≡ []) × (self.new.links.items ≡ [])) }
    {
        self.links.pop_front()
    }
}
