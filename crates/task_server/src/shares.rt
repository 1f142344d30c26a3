ghost use Rattle.std.specs.Prelude.{◌≡◌, ◌+◌, ◌≤◌};

use crate::watch::Watch;
use std::sync::ledger::{Ledger, Share};

/// Parts of the three ledgers: of links that are out, of inputs that were taken, and of workers that were told that nothing
/// more comes.
#[derive(Drop)]
pub(crate) struct Shares<W: Watch, T: Ledger, E: Ledger> {
    pub(crate) out: Share<W>,
    pub(crate) gained: Share<T>,
    pub(crate) told: Share<E>,
}

impl<W: Watch, T: Ledger, E: Ledger> Shares<W, T, E> {
    /// One part of each, with no amount.
    pub(crate) fn split_one(&mut self) -> Shares<W, T, E>
        requires some { (1 ≤ self.old.out.parts) × (1 ≤ self.old.gained.parts) × (1 ≤ self.old.told.parts) }
        requires none { (self.old.out.amount ≡ 0) × (self.old.gained.amount ≡ 0) × (self.old.told.amount ≡ 0) }
        ensures parts { (result.out.parts ≡ 1) × (result.gained.parts ≡ 1) × (result.told.parts ≡ 1) }
        ensures amounts { (result.out.amount ≡ 0) × (result.gained.amount ≡ 0) × (result.told.amount ≡ 0) }
        ensures parts_left { (self.new.out.parts + 1 ≡ self.old.out.parts) × (self.new.gained.parts + 1 ≡ self.old.gained.parts)
            × (self.new.told.parts + 1 ≡ self.old.told.parts) }
        ensures amounts_left { (self.new.out.amount ≡ 0) × (self.new.gained.amount ≡ 0) × (self.new.told.amount ≡ 0) }
    {
        Shares {
            out: self.out.split_off(1, 0),
            gained: self.gained.split_off(1, 0),
            told: self.told.split_off(1, 0),
        }
    }

    /// Joins others to these.
    pub(crate) fn merge(&mut self, other: Shares<W, T, E>)
        ensures out { (self.new.out.parts ≡ self.old.out.parts + other.out.parts)
            × (self.new.out.amount ≡ self.old.out.amount + other.out.amount) }
        ensures gained { (self.new.gained.parts ≡ self.old.gained.parts + other.gained.parts)
            × (self.new.gained.amount ≡ self.old.gained.amount + other.gained.amount) }
        ensures told { (self.new.told.parts ≡ self.old.told.parts + other.told.parts)
            × (self.new.told.amount ≡ self.old.told.amount + other.told.amount) }
    {
        let Shares { out, gained, told } = other;
        self.out.merge(out);
        self.gained.merge(gained);
        self.told.merge(told);
    }
}
