ghost use Rattle.std.specs.Prelude.{◌≡◌};
ghost use Rattle.session_desk.specs.declared.view_stop.ViewStop.TheVariants.{Memory};

use task_model::OutOfMemory;

/// Why the newest page wasn't shown.
#[derive(Clone, Copy, Debug, PartialEq, Eq)]
pub enum ViewStop {
    /// The board refused the entry.
    NoEntry,
    /// Memory ran out.
    Memory,
}

impl From<OutOfMemory> for ViewStop {
    ghost from_gives = { λ _ stop. stop ≡ Memory };

    fn from(_: OutOfMemory) -> ViewStop {
        ViewStop::Memory
    }
}
