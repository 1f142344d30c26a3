ghost use Rattle.std.specs.Prelude.{◌≡◌};
ghost use Rattle.stride_bound.specs.Sums as sums;

/// So many units, and so many rules nested: work that is at most this much. A number above 1,000,000 is 1,000,001.
#[derive(Clone, Copy, PartialEq, Eq, Debug)]
pub struct Bound {
    pub units: u64,
    pub height: u64,
}

const GREATEST: u64 = 1_000_001;

// The sum of two numbers, cut.
pub(crate) fn plus(a: u64, b: u64) -> u64
    ensures { result ≡ sums.plus a b }
{
    a.saturating_add(b).min(GREATEST)
}

// The product of two numbers, cut.
pub(crate) fn times(a: u64, b: u64) -> u64
    ensures { result ≡ sums.times a b }
{
    a.saturating_mul(b).min(GREATEST)
}

// One more, cut.
pub(crate) fn higher(a: u64) -> u64
    ensures { result ≡ sums.higher a }
{
    a.saturating_add(1).min(GREATEST)
}

impl Bound {
    ghost use Rattle.std.specs.Prelude.{◌≡◌, ◌↔◌, IsTrue};
    ghost use Rattle.stride_bound.specs.Sums as sums;
    ghost use Rattle.stride_bound.specs.Figures.{IsNoMore};

    /// Of a rule with no parts.
    pub(crate) fn leaf() -> Bound
        ensures { result ≡ sums.single_rule }
    {
        Bound {
            units: 0,
            height: 1,
        }
    }

    /// Of nothing at all.
    pub(crate) fn none() -> Bound
        ensures { result ≡ sums.naught }
    {
        Bound {
            units: 0,
            height: 0,
        }
    }

    /// Of two parts that are both derived.
    pub(crate) fn beside(self, other: Bound) -> Bound
        ensures { result ≡ sums.beside self other }
    {
        Bound {
            units: plus(self.units, other.units),
            height: self.height.max(other.height),
        }
    }

    /// Of two parts of which one is derived.
    pub(crate) fn either(self, other: Bound) -> Bound
        ensures { result ≡ sums.either self other }
    {
        Bound {
            units: self.units.max(other.units),
            height: self.height.max(other.height),
        }
    }

    /// Of a rule over this.
    pub(crate) fn above(self) -> Bound
        ensures { result ≡ sums.over_parts self }
    {
        Bound {
            units: self.units,
            height: higher(self.height),
        }
    }

    /// With one unit more.
    pub(crate) fn once(self) -> Bound
        ensures { result ≡ sums.once self }
    {
        Bound {
            units: higher(self.units),
            height: self.height,
        }
    }

    /// Whether units and height are at most the other's.
    pub(crate) fn is_within(self, other: Bound) -> bool
        ensures { IsTrue result ↔ IsNoMore self other }
    {
        self.units <= other.units && self.height <= other.height
    }
}
