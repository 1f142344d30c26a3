use std::marker::Model;

/// An item as the book keeps it, in proofs alone. No value of it is made, and it has no bytes, so what names it lets nothing go.
pub struct Entered;

impl Model for Entered {
    ghost use Rattle.task_model.specs.contracts.item.Item as items;
    ghost use Rattle.task_model.specs.declared.item.Item.{Item};
    ghost use Rattle.page_board.specs.Rolls.{no_item};

    ghost Value = { Item };

    ghost coded = { items.the_row.coded };

    ghost view = { λ _. no_item };
}
