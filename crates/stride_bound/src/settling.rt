ghost use Rattle.std.specs.Prelude.{◌≡◌, ◌<◌, true, false, length, map, replicate, IfOk};
ghost use Rattle.task_model.specs.Terms.Program.{program_term};
ghost use Rattle.stride_bound.specs.Figures.{IsAmple, IsLeast, texts_of, text_figures};
ghost use Rattle.stride_bound.specs.Sums.{nothing};
ghost use Rattle.stride_bound.specs.BoundTerms.{figures_at, piece_term, table_term};
ghost use Rattle.stride_bound.specs.Least.{IsBelow, ComesTo, room};

use crate::expressions::expression;
use crate::figures::Figures;
use crate::pieces::Piece;
use crate::table::Table;
use crate::tasks::task;
use host_eval::Definitions;
use std::alloc::Global;
use task_model::OutOfMemory;

/// The least table that holds. The hints are numbers of texts, in an order in which they are well looked at first; the answer doesn't
/// depend on them.
pub(crate) fn least_figures(
    alloc: Global,
    definitions: &Definitions,
    pieces: &[Piece],
    hints: &[usize],
) -> Result<Vec<Figures>, OutOfMemory>
    requires { map piece_term pieces.now ≡ texts_of (program_term definitions.now.program) }
    ensures { IfOk result (λ all. IsLeast (program_term definitions.now.program) (figures_at all.items)) }
{
    let mut figures = no_figures(alloc, pieces.len())?;
    for number in hints {
        if *number < pieces.len() {
            raise(definitions, pieces, *number, &mut figures);
        }
    }
    while raise_all(definitions, pieces, &mut figures) {}
    Ok(figures)
}

// Nothing for each text.
fn no_figures(alloc: Global, count: usize) -> Result<Vec<Figures>, OutOfMemory>
    ensures { IfOk result (λ all. all.items ≡ replicate count nothing) }
{
    Ok(vec![in alloc; Figures::nothing(); count]?)
}

// What a text comes to.
fn come_to(table: &Table, piece: &Piece) -> Figures
    ensures { result ≡ text_figures (table_term table.now) (piece_term piece.now) }
{
    match piece {
        Piece::Function(e) => Figures::plain(expression(table, e)),
        Piece::Task(t) => task(table, t),
    }
}

// Raises the figures of a text to what it comes to; whether they weren't there.
fn raise(
    definitions: &Definitions,
    pieces: &[Piece],
    number: usize,
    figures: &mut Vec<Figures>,
) -> bool
    requires texts { map piece_term pieces.now ≡ texts_of (program_term definitions.now.program) }
    requires long { length figures.old.items ≡ length pieces.now }
    requires within { number < length pieces.now }
    ensures long { length figures.new.items ≡ length figures.old.items }
    ensures below { IsBelow (program_term definitions.now.program) figures.old.items → IsBelow (program_term definitions.now.program) figures.new.items }
    ensures raises { result ≡ true → room figures.new.items < room figures.old.items }
    ensures leaves { result ≡ false → (figures.new.items ≡ figures.old.items)
        × ComesTo (program_term definitions.now.program) figures.old.items number }
{
    let piece = pieces[number];
    let table = Table {
        definitions,
        figures: figures.as_slice(),
    };
    let found = come_to(&table, &piece);
    let known = figures[number];
    if found.is_at_most(known) {
        return false;
    }
    figures[number] = known.greater(found);
    true
}

// Does so with each text; whether some weren't there.
fn raise_all(definitions: &Definitions, pieces: &[Piece], figures: &mut Vec<Figures>) -> bool
    requires texts { map piece_term pieces.now ≡ texts_of (program_term definitions.now.program) }
    requires long { length figures.old.items ≡ length pieces.now }
    ensures long { length figures.new.items ≡ length figures.old.items }
    ensures below { IsBelow (program_term definitions.now.program) figures.old.items → IsBelow (program_term definitions.now.program) figures.new.items }
    ensures raises { result ≡ true → room figures.new.items < room figures.old.items }
    ensures leaves { result ≡ false → (figures.new.items ≡ figures.old.items)
        × IsAmple (program_term definitions.now.program) (figures_at figures.new.items) }
{
    let mut changed = false;
    for number in 0..pieces.len() {
        if raise(definitions, pieces, number, figures) {
            changed = true;
        }
    }
    changed
}
