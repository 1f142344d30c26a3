ghost use Rattle.std.specs.Prelude.{◌≡◌, map, IfOk};
ghost use Rattle.task_model.specs.Terms.Program.{program_term};
ghost use Rattle.task_model.specs.Running.Checked.{checked_term};
ghost use Rattle.stride_bound.specs.Figures.{greatest_test, whole_bound};
ghost use Rattle.stride_bound.specs.Bounds.{IsBound};
ghost use Rattle.stride_bound.specs.BoundTerms.{piece_term, table_term};

use crate::bounds::{Bound, plus};
use crate::figures::Figures;
use crate::links::links;
use crate::orders::Orders;
use crate::pieces::{Piece, pieces};
use crate::returning::leads_back;
use crate::settling::least_figures;
use crate::table::Table;
use crate::tasks::tests;
use host_eval::Definitions;
use std::alloc::Global;
use task_model::{Checked, OutOfMemory, Row, TaskText, copy_basic};

/// The bound of a program, or none where a call leads back to the text that it is in and isn't the end of a body of a user step
/// (docs/RULES.md, "A printed bound on work").
pub fn bound(alloc: Global, c: &Checked) -> Result<Option<Bound>, OutOfMemory>
    ensures { IfOk result (λ found. IsBound (program_term c.now.program) found) }
{
    let definitions = Definitions::new(alloc, same(alloc, c)?)?;
    let pieces = pieces(alloc, definitions.checked().program())?;
    let pieces = pieces.as_slice();
    let links = links(alloc, &definitions, pieces)?;
    let orders = Orders::of(alloc, links.as_slice(), pieces.len())?;
    if leads_back(alloc, links.as_slice(), &orders)? {
        return Ok(None);
    }
    let figures = least_figures(alloc, &definitions, pieces, orders.texts.as_slice())?;
    let table = Table {
        definitions: &definitions,
        figures: figures.as_slice(),
    };
    let name = TaskText::of(alloc, "main")?;
    Ok(Some(whole(table.definition(&name), greatest(&table, pieces))))
}

// The same program with the same types.
fn same(alloc: Global, c: &Checked) -> Result<Checked, OutOfMemory>
    ensures { IfOk result (λ copy. copy.program ≡ c.now.program) }
{
    let program = c.share_program()?;
    let mut types = Row::new(alloc);
    for basic in c.types() {
        types.push(copy_basic(basic)?)?;
    }
    let _accepted = c.program();
    Ok(Checked::of(program, types))
}

// The bound of a program where `main` and the greatest test come to this.
fn whole(main: Figures, tests: Bound) -> Bound
    ensures { result ≡ whole_bound main tests }
{
    let call = main.called(Bound::none());
    Bound {
        units: plus(call.evaluating.either(tests).units, main.strides().units),
        height: call
            .normal()
            .either(main.striding.above().either(tests))
            .height,
    }
}

// The greatest test that an input makes in these texts.
fn greatest(table: &Table, pieces: &[Piece]) -> Bound
    ensures { result ≡ greatest_test (table_term table.now) (map piece_term pieces.now) }
{
    let mut most = Bound::none();
    for piece in pieces {
        if let Piece::Task(t) = piece {
            most = most.either(tests(table, t));
        }
    }
    most
}
