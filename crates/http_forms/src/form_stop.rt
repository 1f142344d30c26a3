ghost use Rattle.std.specs.Prelude.{◌≡◌};
ghost use Rattle.http_forms.specs.declared.form_stop.FormStop.TheVariants.{Memory};

use literal_text::BadLiteral;
use task_model::OutOfMemory;

/// Why a form gives no input (docs/FORMATS.md, "Query and form").
#[derive(Clone, Copy, Debug, PartialEq, Eq)]
pub enum FormStop {
    /// A part is missing or wrong.
    Malformed,
    /// The value is no literal of its type, and all else is right.
    Bad(BadLiteral),
    /// Memory ran out.
    Memory,
}

impl From<OutOfMemory> for FormStop {
    ghost from_gives = { λ _ e. e ≡ Memory };

    fn from(_e: OutOfMemory) -> FormStop {
        FormStop::Memory
    }
}
