use crate::bounds::{Bound, higher, plus, times};

/// What a text comes to at most: evaluating it; how many internal steps and internal choices may fire while it settles; one stride; one
/// test for failing. A function has the first alone.
#[derive(Clone, Copy, Debug)]
pub struct Figures {
    pub evaluating: Bound,
    pub fires: u64,
    pub striding: Bound,
    pub failing: Bound,
}

impl Figures {
    ghost use Rattle.std.specs.Prelude.{◌≡◌, ◌↔◌, IsTrue};
    ghost use Rattle.stride_bound.specs.Sums as sums;
    ghost use Rattle.stride_bound.specs.Figures.{AtMost};

    /// Of a text that isn't there.
    pub(crate) fn nothing() -> Figures
        ensures { result ≡ sums.nothing }
    {
        Figures {
            evaluating: Bound::none(),
            fires: 0,
            striding: Bound::none(),
            failing: Bound::none(),
        }
    }

    /// Of an expression.
    pub(crate) fn plain(evaluating: Bound) -> Figures
        ensures { result ≡ sums.plain evaluating }
    {
        Figures {
            evaluating,
            fires: 0,
            striding: Bound::none(),
            failing: Bound::none(),
        }
    }

    /// Of an editor, and of a task that fails.
    pub(crate) fn still(evaluating: Bound) -> Figures
        ensures { result ≡ sums.still evaluating }
    {
        Figures {
            evaluating,
            fires: 0,
            striding: Bound::leaf(),
            failing: Bound::leaf(),
        }
    }

    /// Of a call with such arguments.
    pub(crate) fn called(self, args: Bound) -> Figures
        ensures { result ≡ sums.called args self }
    {
        Figures {
            evaluating: args.beside(self.evaluating).once().above(),
            fires: self.fires,
            striding: self.striding,
            failing: self.failing,
        }
    }

    /// Behind an expression that is evaluated first.
    pub(crate) fn behind(self, first: Bound) -> Figures
        ensures { result ≡ sums.after_first first self }
    {
        Figures {
            evaluating: first.beside(self.evaluating).above(),
            fires: self.fires,
            striding: self.striding,
            failing: self.failing,
        }
    }

    /// The greater number of each.
    pub(crate) fn greater(self, other: Figures) -> Figures
        ensures { result ≡ sums.greater self other }
    {
        Figures {
            evaluating: self.evaluating.either(other.evaluating),
            fires: self.fires.max(other.fires),
            striding: self.striding.either(other.striding),
            failing: self.failing.either(other.failing),
        }
    }

    /// Of two tasks side by side.
    pub(crate) fn pair(self, other: Figures) -> Figures
        ensures { result ≡ sums.pair self other }
    {
        Figures {
            evaluating: self.evaluating.beside(other.evaluating).above(),
            fires: plus(self.fires, other.fires),
            striding: self.striding.beside(other.striding).above(),
            failing: self.failing.beside(other.failing).above(),
        }
    }

    /// Of an internal choice.
    pub(crate) fn choice(self, other: Figures) -> Figures
        ensures { result ≡ sums.choice self other }
    {
        let both = self.pair(other);
        Figures {
            evaluating: both.evaluating,
            fires: higher(both.fires),
            striding: both.striding,
            failing: both.failing,
        }
    }

    /// Of an internal step: a stride tries its body, and once it fires what the body leads to is there.
    pub(crate) fn then(self, body: Figures) -> Figures
        ensures { result ≡ sums.then self body }
    {
        let tried = body.evaluating.beside(body.failing);
        Figures {
            evaluating: self.evaluating.above(),
            fires: higher(plus(self.fires, body.fires)),
            striding: self.striding.beside(tried).above().either(body.striding),
            failing: self.failing.above().either(body.failing),
        }
    }

    /// Of a user step: its left part, or what its body leads to.
    pub(crate) fn next(self, body: Figures) -> Figures
        ensures { result ≡ sums.next self body }
    {
        Figures {
            evaluating: self.evaluating.above(),
            fires: self.fires.max(body.fires),
            striding: self.striding.above().either(body.striding),
            failing: self.failing.above().either(body.failing),
        }
    }

    /// All strides of settling.
    pub(crate) fn strides(self) -> Bound
        ensures { result ≡ sums.strides self }
    {
        Bound {
            units: times(higher(self.fires), higher(self.striding.units)),
            height: self.striding.height,
        }
    }

    /// Normalising.
    pub(crate) fn normal(self) -> Bound
        ensures { result ≡ sums.normal self }
    {
        self.evaluating.beside(self.strides()).above()
    }

    /// A test: normalising, and then the test for failing.
    pub(crate) fn tested(self) -> Bound
        ensures { result ≡ sums.test_bound self }
    {
        self.normal().beside(self.failing)
    }

    /// Of an external choice of two sides: its test for failing tests both.
    pub(crate) fn sides(self, other: Figures) -> Figures
        ensures { result ≡ sums.sides self other }
    {
        Figures {
            evaluating: Bound::leaf(),
            fires: self.fires.max(other.fires),
            striding: Bound::leaf().either(self.striding.either(other.striding)),
            failing: self.tested().beside(other.tested()).above(),
        }
    }

    /// Whether each number is at most the other's.
    pub(crate) fn is_at_most(self, other: Figures) -> bool
        ensures { IsTrue result ↔ AtMost self other }
    {
        self.evaluating.is_within(other.evaluating)
            && self.fires <= other.fires
            && self.striding.is_within(other.striding)
            && self.failing.is_within(other.failing)
    }
}
