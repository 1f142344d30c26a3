ghost use Rattle.std.specs.Prelude.{IfErr, IfOk};
ghost use Rattle.input_lines.specs.ScriptLines.{HasSeat, line_term};
ghost use Rattle.tophat.specs.LineForms as lines;
ghost use Rattle.world_answers.specs.declared.line_form.LineForm.TheVariants as forms;

use input_lines::{Line, parse_line};
use json_face::{JsonStop, parse_json_line};
use line_frame::LineStop;
use std::alloc::Global;
use world_answers::LineForm;

/// What a line of a form asks for.
pub(crate) fn read_asked(alloc: Global, form: LineForm, line: &[u8]) -> Result<Line, LineStop>
    ensures found { IfOk result (λ l. lines.IsAsking form 1048576 line.now (line_term l)) }
    ensures bad { IfErr result (λ stop. lines.IsOutsideColumn form 1048576 line.now stop) }
    ensures seat { IfOk result (λ l. HasSeat (line_term l)) }
{
    match form {
        LineForm::Script => parse_line(alloc, line),
        LineForm::Json => json_asked(alloc, line),
    }
}

fn json_asked(alloc: Global, line: &[u8]) -> Result<Line, LineStop>
    ensures found { IfOk result (λ l. lines.IsAsking forms.Json 1048576 line.now (line_term l)) }
    ensures bad { IfErr result (λ stop. lines.IsOutsideColumn forms.Json 1048576 line.now stop) }
    ensures seat { IfOk result (λ l. HasSeat (line_term l)) }
{
    match parse_json_line(alloc, line) {
        Ok(asked) => Ok(asked),
        Err(JsonStop::Bad) => Err(LineStop::Bad { column: 1 }),
        Err(JsonStop::Memory) => Err(LineStop::Memory),
    }
}
