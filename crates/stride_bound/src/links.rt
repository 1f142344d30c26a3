ghost use Rattle.std.specs.Prelude.{◌≡◌, [], ◌∷◌, ◌++◌, map, OnOk, IfOk, not, ◌&&◌};
ghost use Rattle.task_model.specs.Terms.Task.{task_term};
ghost use Rattle.task_model.specs.Terms.Program.{program_term};
ghost use Rattle.task_model.specs.Checking.Names.{first_named};
ghost use Rattle.stride_bound.specs.TextLinks.{call_links, body_link, links_of_task, links_of_text, links_from};
ghost use Rattle.stride_bound.specs.BoundTerms.{piece_term};

use crate::pieces::Piece;
use host_eval::Definitions;
use std::alloc::Global;
use task_model::{OutOfMemory, Task, TaskText};

/// A text leads to another: it names that body, or calls that task. It does so loosely behind a user step, at the end of its task.
#[derive(Clone, Copy)]
pub struct TextLink {
    pub from: usize,
    pub to: usize,
    pub tight: bool,
}

/// The text that links are looked for in, and whether it is a body.
#[derive(Clone, Copy)]
pub(crate) struct Spot<'d> {
    definitions: &'d Definitions,
    from: usize,
    inside: bool,
}

/// All links of a program, in the order of its texts.
pub(crate) fn links(
    alloc: Global,
    definitions: &Definitions,
    pieces: &[Piece],
) -> Result<Vec<TextLink>, OutOfMemory>
    ensures { IfOk result (λ all. all.items ≡ links_from (program_term definitions.now.program) 0 (map piece_term pieces.now)) }
{
    let before = definitions.checked().program().defs.as_slice().len();
    let mut all = Vec::new(alloc);
    for (from, piece) in pieces.iter().enumerate() {
        let spot = Spot {
            definitions,
            from,
            inside: before <= from,
        };
        text_links(&spot, piece, &mut all)?;
    }
    Ok(all)
}

// Those of a text.
fn text_links(spot: &Spot, piece: &Piece, all: &mut Vec<TextLink>) -> Result<(), OutOfMemory>
    ensures { OnOk result (all.new.items ≡ all.old.items
        ++ links_of_text (program_term spot.now.definitions.now.program) spot.now.from spot.now.inside (piece_term piece.now)) }
{
    match piece {
        Piece::Function(_) => Ok(()),
        Piece::Task(t) => task_links(spot, true, t, all),
    }
}

// Those of a task, which stands at the end of its text or not.
fn task_links(spot: &Spot, last: bool, t: &Task, all: &mut Vec<TextLink>) -> Result<(), OutOfMemory>
    ensures { OnOk result (all.new.items ≡ all.old.items
        ++ links_of_task (program_term spot.now.definitions.now.program) spot.now.from spot.now.inside last (task_term t.now)) }
{
    match t {
        Task::Edit(_) | Task::Enter(_) | Task::Share(_) | Task::Fail(_) => Ok(()),
        Task::Call { name, .. } => add_call(spot, last, name, all),
        Task::Then { left, body } => {
            task_links(spot, false, left, all)?;
            add_body(spot, true, *body, all)
        }
        Task::Next { left, body } => {
            task_links(spot, false, left, all)?;
            add_body(spot, !last, *body, all)
        }
        Task::And(a, b) | Task::Or(a, b) => {
            task_links(spot, false, a, all)?;
            task_links(spot, false, b, all)
        }
        Task::Xor { left, right } => {
            add_body(spot, true, *left, all)?;
            add_body(spot, true, *right, all)
        }
        Task::If { yes: a, no: b, .. }
        | Task::Case {
            empty: a,
            more: b,
            ..
        } => {
            task_links(spot, last, a, all)?;
            task_links(spot, last, b, all)
        }
        Task::Let { rest, .. } | Task::New { rest, .. } | Task::Put { rest, .. } => {
            task_links(spot, last, rest, all)
        }
    }
}

// The link to a task that is called.
fn add_call(
    spot: &Spot,
    last: bool,
    name: &TaskText,
    all: &mut Vec<TextLink>,
) -> Result<(), OutOfMemory>
    ensures { OnOk result (all.new.items ≡ all.old.items ++ call_links spot.now.from (not (spot.now.inside && last))
        (first_named 0 (program_term spot.now.definitions.now.program).defs name.now)) }
{
    if let Some(found) = spot.definitions.first(name) {
        all.push(TextLink {
            from: spot.from,
            to: found.number,
            tight: !(spot.inside && last),
        })?;
    }
    Ok(())
}

// The link to a body.
fn add_body(spot: &Spot, tight: bool, body: u32, all: &mut Vec<TextLink>) -> Result<(), OutOfMemory>
    ensures { OnOk result (all.new.items ≡ all.old.items
        ++ body_link (program_term spot.now.definitions.now.program) spot.now.from tight body ∷ []) }
{
    let before = spot.definitions.checked().program().defs.as_slice().len();
    let Some(to) = before.checked_add(body as usize) else {
        return Err(OutOfMemory);
    };
    all.push(TextLink {
        from: spot.from,
        to,
        tight,
    })?;
    Ok(())
}
