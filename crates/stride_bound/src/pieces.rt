ghost use Rattle.std.specs.Prelude.{◌≡◌, map, IfOk};
ghost use Rattle.task_model.specs.Terms.Program.{def_body_term, program_term};
ghost use Rattle.stride_bound.specs.Figures.{texts_of};
ghost use Rattle.stride_bound.specs.BoundTerms.{piece_term};

use std::alloc::Global;
use task_model::{DefBody, Host, OutOfMemory, Program, Task};

/// A text of a program: what a definition has, or a body's task.
#[derive(Clone, Copy)]
pub(crate) enum Piece<'p> {
    Function(&'p Host),
    Task(&'p Task),
}

/// The texts of a program, by their numbers.
pub(crate) fn pieces(alloc: Global, program: &Program) -> Result<Vec<Piece<'_>>, OutOfMemory>
    ensures { IfOk result (λ all. map piece_term all.items ≡ texts_of (program_term program.now)) }
{
    let mut all = Vec::new(alloc);
    for def in program.defs.as_slice() {
        all.push(what(&def.what))?;
    }
    for body in program.bodies.as_slice() {
        all.push(Piece::Task(&body.task))?;
    }
    Ok(all)
}

// What a definition has.
fn what(body: &DefBody) -> Piece<'_>
    ensures { piece_term result ≡ def_body_term body.now }
{
    match body {
        DefBody::Fun(e) => Piece::Function(e),
        DefBody::Task(t) => Piece::Task(t),
    }
}
