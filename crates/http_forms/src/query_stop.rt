ghost use Rattle.std.specs.Prelude.{◌≡◌};
ghost use Rattle.http_forms.specs.declared.query_stop.QueryStop.TheVariants.{Memory};

use task_model::OutOfMemory;

/// Why a query asks for no page (docs/FORMATS.md, "Query and form").
#[derive(Clone, Copy, Debug, PartialEq, Eq)]
pub enum QueryStop {
    /// A part is wrong.
    Malformed,
    /// Memory ran out.
    Memory,
}

impl From<OutOfMemory> for QueryStop {
    ghost from_gives = { λ _ e. e ≡ Memory };

    fn from(_e: OutOfMemory) -> QueryStop {
        QueryStop::Memory
    }
}
