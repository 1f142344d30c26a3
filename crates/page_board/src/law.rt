//! The rule of the book, and the steps on it.
use crate::entered::Entered;
use logbook::{Gain, Plain, Play, Rule};
use task_model::Item;

/// The book has a cell for each item, and one holder of the pen can add to it.
pub struct Law;

impl Rule<Entered, u64> for Law {
    ghost use Rattle.std.specs.Prelude.{[]};
    ghost use base.Fml.{ftrue};
    ghost use Rattle.page_board.specs.Rolls.{KeepsRoll};

    ghost holds = { λ cells log. KeepsRoll cells log };

    ghost first = { [] };

    ghost hinted = { λ n log. Unit {0} };

    ghost shows = { λ log. [] };

    ghost keeps = { λ names log. ftrue };

    ghost moves = { λ ask before after answer. Unit {0} };
}

/// Callers trade nothing.
pub struct Nothing;

impl Gain<Entered, u64> for Nothing {
    ghost use base.Fml.{ftrue};

    ghost after = { λ names about answer. ftrue };
}

/// A step that makes a cell, and gives its pen.
pub(crate) struct Claim;

impl Play<Entered, u64> for Claim {
    ghost use Rattle.page_board.specs.Rolls.{ClaimsPen};

    ghost then = { ClaimsPen };
}

/// A step by which the holder of the pen adds an item.
pub(crate) struct Extend;

impl Play<Entered, u64> for Extend {
    ghost use Rattle.page_board.specs.Rolls.{AddsItem};

    ghost then = { AddsItem };
}

impl Plain<Item, Entered, u64> for Extend {
    ghost use Rattle.std.specs.Prelude.{None};

    ghost ask = { λ item. item };

    ghost state = { λ item. None };
}

/// A step that adds nothing asks for an item that never comes.
pub(crate) struct Idle;

impl Plain<Idle, Entered, u64> for Idle {
    ghost use Rattle.std.specs.Prelude.{None};
    ghost use Rattle.page_board.specs.Rolls.{no_item};

    ghost ask = { λ idle. no_item };

    ghost state = { λ idle. None };
}

/// A step that tells the holder of the pen that nothing was added.
pub(crate) struct Whole;

impl Play<Entered, u64> for Whole {
    ghost use Rattle.page_board.specs.Rolls.{ToldByPen};

    ghost then = { ToldByPen };
}
