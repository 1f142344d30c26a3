ghost use Rattle.std.specs.Prelude.{◌≡◌, ◌∷◌, OnOk};
ghost use Rattle.task_model.specs.Terms.Basic.{basic_term};
ghost use Rattle.task_model.specs.Syntax.Printed.{basic_tokens};
ghost use Rattle.reader_printer.specs.Lines.{with_tokens};

use crate::printer::Printer;
use task_model::{Basic, OutOfMemory};

/// The tokens of a type.
pub(crate) fn write_basic(out: &mut Printer, b: &Basic) -> Result<(), OutOfMemory>
    ensures { OnOk result (out.new ≡ with_tokens out.old (basic_tokens (basic_term b.now))) }
{
    match b {
        Basic::Unit => out.token("unit"),
        Basic::Bool => out.token("bool"),
        Basic::Int => out.token("int"),
        Basic::Text => out.token("text"),
        Basic::Pair(first, second) => {
            out.token("(")?;
            write_basic(out, first)?;
            out.token(",")?;
            write_basic(out, second)?;
            out.token(")")
        }
        Basic::List(item) => {
            out.token("[")?;
            write_basic(out, item)?;
            out.token("]")
        }
    }
}

/// A word, and a type behind it.
pub(crate) fn write_typed(out: &mut Printer, word: &str, b: &Basic) -> Result<(), OutOfMemory>
    ensures { OnOk result (out.new ≡ with_tokens out.old (word.now ∷ basic_tokens (basic_term b.now))) }
{
    out.token(word)?;
    write_basic(out, b)
}
