ghost use Rattle.std.specs.Prelude.{◌≡◌, pos};
ghost use Rattle.task_model.specs.Terms.Input.{input_term};
ghost use Rattle.drill_program.specs.Drill.{drill_number, set_input};

use std::alloc::Global;
use task_model::{Act, Input, Path, Turns, Value};

/// The input of this number of a seat, from 1 on. It takes no memory.
pub fn drill_input(alloc: Global, seat: u8, k: u32) -> Input
    ensures { input_term result ≡ set_input (pos (drill_number seat k)) }
{
    let number = u64::from(seat) * 100_000 + u64::from(k);
    Input {
        path: Path {
            turns: Turns::new(alloc),
        },
        act: Act::Set(Value::Int(number as i64)),
    }
}
