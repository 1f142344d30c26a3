ghost use Rattle.std.specs.Prelude.{◌≡◌, ◌-◌, ◌<◌, ◌↔◌, IsTrue};

// How many inputs behind a page are drawn as they come.
const MOST: u8 = 8;

/// How many inputs more are drawn as they come. Those behind a page are, a few of them, since another page likely follows
/// (docs/DECISIONS.md, "A few inputs behind a page are drawn as they come").
#[derive(Clone, Copy, Debug, PartialEq, Eq)]
pub(crate) struct Rhythm {
    left: u8,
}

impl Rhythm {
    /// No page was shown yet.
    pub(crate) fn new() -> Rhythm
        ensures { result.left ≡ 0 }
    {
        Rhythm { left: 0 }
    }

    /// A page was shown.
    pub(crate) fn show(&mut self)
        ensures { self.new.left ≡ 8 }
    {
        self.left = MOST;
    }

    /// Whether the next input is drawn as it comes.
    pub(crate) fn draws(&self) -> bool
        ensures { IsTrue result ↔ (0 < self.now.left) }
    {
        self.left > 0
    }

    /// An input was drawn as it came.
    pub(crate) fn count(&mut self)
        ensures { self.new.left ≡ self.old.left - 1 }
    {
        self.left = self.left.saturating_sub(1);
    }
}
