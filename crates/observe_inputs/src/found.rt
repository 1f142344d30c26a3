ghost use Rattle.std.specs.Prelude.{◌≡◌, [], ◌++◌, map, OnOk};
ghost use Rattle.task_model.specs.Running.Offer.{offered, offer_kind_term, offer_term};
ghost use Rattle.task_tree.specs.Below.{offer_below};

use std::alloc::Global;
use task_model::{Answer, Offer, OfferKind, OutOfMemory, Row, Sign};
use task_tree::Trail;

/// Where a walk through a tree is, and the offers that it has found.
#[derive(Drop)]
pub struct FoundOffers {
    pub trail: Trail,
    pub offers: Row<Offer>,
}

impl FoundOffers {
    /// At the root, with no offer.
    pub fn new(alloc: Global) -> FoundOffers
        ensures trail { result.trail ≡ [] }
        ensures offers { result.offers.list ≡ [] }
    {
        FoundOffers {
            trail: Trail::new(alloc),
            offers: Row::new(alloc),
        }
    }

    /// Adds what a sign offers at the node where the walk is.
    pub fn push(&mut self, kind: OfferKind, sign: Sign) -> Result<(), OutOfMemory>
        ensures trail { self.new.trail ≡ self.old.trail }
        ensures offers { OnOk result (map offer_term self.new.offers.list ≡ map offer_term self.old.offers.list
            ++ map (offer_below self.old.trail) (offered (offer_kind_term kind) sign)) }
    {
        let answer = match sign {
            Sign::No => return Ok(()),
            Sign::Yes => Answer::Yes,
            Sign::Over => Answer::Over,
        };
        let path = self.trail.path()?;
        self.offers.push(Offer { path, kind, answer })
    }
}
