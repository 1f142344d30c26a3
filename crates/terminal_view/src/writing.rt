ghost use Rattle.std.specs.Prelude.{◌≡◌, ◌++◌, ◌∷◌, [], IfOk, OnErr, OnOk, string_bytes};
ghost use Rattle.task_model.specs.Showing.Page as model;

use std::alloc::Global;
use task_model::{OutOfMemory, Turn};

/// These bytes behind the text.
pub fn push(text: &mut String, piece: &str) -> Result<(), OutOfMemory>
    ensures { OnOk result (string_bytes text.new ≡ string_bytes text.old ++ piece.now) }
{
    Ok(text.push_str(piece)?)
}

/// The text of a path: a dot, and a letter for each turn.
pub fn print_path(alloc: Global, path: &[Turn]) -> Result<String, OutOfMemory>
    ensures { IfOk result (λ text. string_bytes text ≡ model.path_text path.now) }
{
    let mut text = String::new(alloc);
    text.reserve(path.len())?;
    push_path(&mut text, path)?;
    Ok(text)
}

fn push_path(text: &mut String, path: &[Turn]) -> Result<(), OutOfMemory>
    ensures { OnOk result (string_bytes text.new ≡ string_bytes text.old ++ model.path_text path.now) }
{
    push(text, ".")?;
    for turn in path {
        push_turn(text, *turn)?;
    }
    Ok(())
}

/// The letter of a turn behind the text. A refusal changes nothing.
pub(crate) fn push_turn(text: &mut String, turn: Turn) -> Result<(), OutOfMemory>
    ensures ok { OnOk result (string_bytes text.new ≡ string_bytes text.old ++ model.turns_text (turn ∷ [])) }
    ensures err { OnErr result (string_bytes text.new ≡ string_bytes text.old) }
{
    match turn {
        Turn::First => Ok(text.push('F')?),
        Turn::Second => Ok(text.push('S')?),
    }
}
