ghost use Rattle.std.specs.Prelude.{◌≡◌};
ghost use Rattle.task_model.specs.Showing.Widget.{shape_term};
ghost use Rattle.node_rows.specs.Rows.{left_sign, right_sign, signs_of, step_sign};

use task_model::{Shape, Sign};

/// The signs of the tests of a node: of a user step, or of both sides of an external choice. Any other node has none.
#[derive(Clone, Copy, Debug, PartialEq, Eq, Drop)]
pub enum Signs {
    Untested,
    Step(Sign),
    Pick(Sign, Sign),
}

impl Signs {
    /// The signs that a node shows.
    pub fn of(shape: &Shape) -> Signs
        ensures { result ≡ signs_of (shape_term shape.now) }
    {
        match shape {
            Shape::Step(sign) => Signs::Step(*sign),
            Shape::Pick(left, right) => Signs::Pick(*left, *right),
            _ => Signs::Untested,
        }
    }

    /// The sign of a user step: No of any other node.
    pub(crate) fn step(self) -> Sign
        ensures { result ≡ step_sign self }
    {
        match self {
            Signs::Step(sign) => sign,
            _ => Sign::No,
        }
    }

    /// The sign of the left side of an external choice: No of any other node.
    pub(crate) fn left(self) -> Sign
        ensures { result ≡ left_sign self }
    {
        match self {
            Signs::Pick(left, _) => left,
            _ => Sign::No,
        }
    }

    /// The sign of the right side of an external choice: No of any other node.
    pub(crate) fn right(self) -> Sign
        ensures { result ≡ right_sign self }
    {
        match self {
            Signs::Pick(_, right) => right,
            _ => Sign::No,
        }
    }
}
