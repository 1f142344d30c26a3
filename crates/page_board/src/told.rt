use crate::front::Front;
use crate::places::FaceReader;
use std::marker::Model;

/// The list that one call published, for readers to learn. Contracts see that list and its board.
#[derive(Drop)]
pub struct Told {
    // None where the board had no place for it, or a reader took it.
    pub(crate) place: Option<FaceReader>,
    pub(crate) front: Front,
}

impl Model for Told {
    ghost use Rattle.std.specs.Coded.{codes};
    ghost use Rattle.task_model.specs.contracts.item.Item as items;
    ghost use Rattle.std.specs.Prelude.{◌≡◌, ◌<◌, IfSome, length};
    ghost use Rattle.left_right.specs.Sides.{view as place_view};
    ghost use Rattle.page_board.specs.BoardLists.{BoardList};

    ghost Value = { BoardList };

    ghost coded = { Prim.hlevel (codes, items.the_row.coded) };

    ghost view = { λ t. t.front };

    ghost invariant = { λ t. IfSome t.place (λ p. place_view p.place ≡ t.front) × (0 < length t.front.list) };
}
