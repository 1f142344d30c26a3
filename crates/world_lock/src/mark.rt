use std::marker::Brand;
use std::sync::ledger::Ledger;

/// Which world it is: a ledger with a part for each seat, a board, and the history that the world was opened with. It has no calls.
/// All types that have to agree on these have one `M: Mark`.
pub trait Mark: Ledger {
    ghost use Rattle.std.specs.Prelude.{ℕ, List};
    ghost use Rattle.logbook.specs.Pages.{Book};
    ghost use Rattle.task_model.specs.Terms.Item.{ItemTerm};

    ghost board: { Book };

    ghost start: { List ItemTerm };

    ghost seats: { ℕ };
}

/// Each call that opens a world picks another one.
impl Mark for Brand {
    ghost use Rattle.std.specs.Prelude.{[]};

    ghost board = { record { number = 0; log_name = 0; cells_name = 0 } };

    ghost start = { [] };

    ghost seats = { 0 };
}
