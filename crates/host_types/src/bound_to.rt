ghost use Rattle.std.specs.Prelude.{◌≡◌};
ghost use Rattle.task_model.specs.Terms.Basic.{basic_term};
ghost use Rattle.task_model.specs.Terms.Program.{kind_term};
ghost use Rattle.host_types.specs.Bound.{bound_kind};

use task_model::{Basic, Kind};

/// What a task binds a name to: a value, or a new place of shared data.
#[derive(Clone, Copy)]
pub(crate) enum BoundTo {
    Value,
    Place,
}

impl BoundTo {
    /// The kind of a name that is bound to what has this type.
    pub(crate) fn kind(self, basic: Basic) -> Kind
        ensures { kind_term result ≡ bound_kind self (basic_term basic) }
    {
        match self {
            BoundTo::Value => Kind::Plain(basic),
            BoundTo::Place => Kind::Ref(basic),
        }
    }
}
