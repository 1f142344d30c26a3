//! Values of each type, set at editors of each type.

use super::events::told;
use std::alloc::Global;
use task_model::OutOfMemory;

/// Values, and programs with a mark for each of the values: `y` where it is taken, and a dot where it isn't.
pub(super) const SETS: &str = r#"()@true@-5@"a"@(1, true)@[1, 2]@[]@["a"]@(true, 1)@[1, true]@[[]]
y..........@task main() : unit = enter unit
y..........@task main() : unit = edit ()
y..........@task main() : unit = new r = () in share r
.y.........@task main() : bool = enter bool
.y.........@task main() : bool = edit false
.y.........@task main() : bool = new r = false in share r
..y........@task main() : int = enter int
..y........@task main() : int = edit 1
..y........@task main() : int = new r = 1 in share r
...y.......@task main() : text = enter text
...y.......@task main() : text = edit "b"
...y.......@task main() : text = new r = "b" in share r
....y......@task main() : (int, bool) = enter (int, bool)
....y......@task main() : (int, bool) = edit (2, false)
....y......@task main() : (int, bool) = new r = (2, false) in share r
.....yy....@task main() : [int] = enter [int]
.....yy....@task main() : [int] = edit nil int
.....yy....@task main() : [int] = new r = [3] in share r
......yy...@task main() : [text] = enter [text]
......yy...@task main() : [text] = edit nil text
......yy...@task main() : [text] = new r = ["b"] in share r
......y...y@task main() : [[int]] = enter [[int]]
......y...y@task main() : [[int]] = edit [[1]]
......y...y@task main() : [[int]] = new r = nil [int] in share r"#;

// The mark of a value at a program.
fn mark(alloc: Global, source: &str, literal: &str) -> Result<char, OutOfMemory> {
    let line = format!(in alloc; "1 . set {literal}")?;
    let told = told(alloc, source, 10_000, line.as_str())?;
    Ok(if told.as_str().starts_with("taken ") {
        'y'
    } else {
        '.'
    })
}

// The marks of values at a program.
fn marks(alloc: Global, source: &str, literals: &str) -> Result<String, OutOfMemory> {
    let mut text = String::new(alloc);
    for literal in literals.split('@') {
        text.push(mark(alloc, source, literal)?)?;
    }
    Ok(text)
}

// Puts a row with the marks that were found, where others are wanted.
fn put_row(
    found: &mut String,
    alloc: Global,
    row: &str,
    literals: &str,
) -> Result<(), OutOfMemory> {
    let (wanted, source) = row.split_once('@').unwrap_or((row, ""));
    let told = marks(alloc, source, literals)?;
    if told.as_str() != wanted {
        write!(found, "{}@{source}\n", told.as_str())?;
    }
    Ok(())
}

/// Puts what differs from the marks of a table.
pub(super) fn put_table(found: &mut String, alloc: Global, table: &str) -> Result<(), OutOfMemory> {
    let (literals, rows) = table.split_once('\n').unwrap_or((table, ""));
    for row in rows.split('\n') {
        put_row(found, alloc, row, literals)?;
    }
    Ok(())
}
