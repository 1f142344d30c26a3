ghost use Rattle.std.specs.Prelude.{◌≡◌, IfOk};

use crate::front::Front;
use crate::moment::Moment;
use left_right::Absorb;
use std::alloc::AllocError;
use std::marker::Model;
use std::sync::Arc;

/// A moment, with the list that it stands for. Both copies of the board share the moment.
#[derive(Drop)]
pub(crate) struct Face {
    pub(crate) moment: Arc<Moment>,
    pub(crate) front: Front,
}

impl Model for Face {
    ghost use Rattle.std.specs.Coded.{codes};
    ghost use Rattle.std.specs.Arc.{arc_value};
    ghost use Rattle.task_model.specs.contracts.item.Item as items;
    ghost use Rattle.page_board.specs.BoardLists.{BoardList};
    ghost use Rattle.page_board.specs.Moments.{StandsForItems};
    ghost use Rattle.page_board.specs.declared.moment.Moment.{Moment};

    ghost Value = { Moment × BoardList };

    ghost coded = { Prim.hlevel (codes, items.the_row.coded) };

    ghost view = { λ f. (arc_value f.moment, f.front) };

    ghost invariant = { λ f. StandsForItems (arc_value f.moment) f.front.list };
}

impl Face {
    /// The same moment. It takes no memory, and is refused only where the count of owners is full.
    pub(crate) fn again(&self) -> Result<Face, AllocError>
        ensures { IfOk result (λ f. f ≡ self.now) }
    {
        Ok(Face {
            moment: Arc::try_clone(&self.moment)?,
            front: self.front.again(),
        })
    }
}

impl Absorb<Face> for Face {
    type State = Face;

    ghost state = { λ f. f };

    ghost applied = { λ _ next. next };

    fn absorb_first(&mut self, operation: &Face, _other: &Face) -> Result<(), AllocError> {
        *self = operation.again()?;
        Ok(())
    }

    fn absorb_second(&mut self, operation: Face, _other: &Face) -> Result<(), Face> {
        *self = operation;
        Ok(())
    }
}
