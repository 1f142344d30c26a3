ghost use Rattle.std.specs.Prelude.{◌≡◌};
ghost use Rattle.session_desk.specs.declared.page_stop.PageStop.TheVariants.{Memory};

use task_model::OutOfMemory;

/// Why a page of at least some version wasn't shown.
#[derive(Clone, Copy, Debug, PartialEq, Eq)]
pub enum PageStop {
    /// The history has fewer entries: it has `have`.
    Ahead { have: u64 },
    /// Memory ran out.
    Memory,
}

impl From<OutOfMemory> for PageStop {
    ghost from_gives = { λ _ stop. stop ≡ Memory };

    fn from(_: OutOfMemory) -> PageStop {
        PageStop::Memory
    }
}
