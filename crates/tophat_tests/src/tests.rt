mod block;
mod bounds;
mod budgets;
mod case;
mod json;
mod programs;
mod refusals;
mod scripts;
mod tutorial;
mod typing;
mod worded;
mod worked_rows;

use block::put_table;
use case::{Case, RUN, put_compared, told};
use std::alloc::Global;
use std::test::Fail;
use task_model::OutOfMemory;
use typing::{put_blocks, put_rows};

fn put_rows_of_programs(found: &mut String, alloc: Global) -> Result<(), OutOfMemory> {
    put_table(found, alloc, worked_rows::WORKED_ROWS, 4_096)?;
    put_table(found, alloc, worked_rows::LONG_TEXTS, 4_096)?;
    put_table(found, alloc, worked_rows::LONG_WALKS, 4_096)?;
    put_table(found, alloc, worked_rows::SOAKS, 4_096)?;
    put_table(found, alloc, worked_rows::WORDS, 4_096)?;
    put_table(found, alloc, worked_rows::MILLION, 4_096)?;
    put_table(found, alloc, tutorial::TUTORIAL, 4_096)?;
    put_table(found, alloc, tutorial::REFUSED, 4_096)?;
    put_table(found, alloc, programs::PROGRAMS, 4_096)?;
    put_table(found, alloc, bounds::BOUNDS, 4_096)?;
    put_table(found, alloc, budgets::BUDGETS, 4_096)?;
    put_table(found, alloc, budgets::HEIGHTS, 4_096)?;
    put_table(found, alloc, refusals::REFUSALS, 4_096)
}

/// Scripts in pieces of some sizes, in which files are read and written, too.
fn put_rows_of_scripts(found: &mut String, alloc: Global) -> Result<(), OutOfMemory> {
    put_table(found, alloc, scripts::SCRIPTS, 1)?;
    put_table(found, alloc, scripts::SCRIPTS, 7)?;
    put_table(found, alloc, scripts::SCRIPTS, 4_096)?;
    put_table(found, alloc, scripts::FAULTS, 10)?;
    put_table(found, alloc, scripts::LIMITS, 65_536)
}

#[test]
fn commands_on_programs_and_scripts(rt: HostRuntime) -> Result<(), Fail> {
    let mut found = String::new(rt.alloc());
    put_rows_of_programs(&mut found, rt.alloc())?;
    put_rows_of_scripts(&mut found, rt.alloc())?;
    assert!(rt; found.is_empty(), "{}", found.as_str());
    Ok(())
}

// A script of the most bytes, and one of one more.
fn put_long_scripts(found: &mut String, alloc: Global) -> Result<(), OutOfMemory> {
    for (end, last) in [("0", ""), ("7 tophat: input too long", "\n> #\\")] {
        let script = worded::long_script(alloc, end, last)?;
        put_table(found, alloc, script.as_str(), 65_536)?;
    }
    Ok(())
}

fn put_no_text(found: &mut String, alloc: Global) -> Result<(), OutOfMemory> {
    let case = Case {
        program: b"task \xff",
        ..RUN
    };
    let told = told(alloc, &case, 5)?;
    let wanted = "= 1\ntophat: p.th: byte 5: NotUtf8\n";
    put_compared(found, "no text", told.as_str(), wanted)
}

fn put_wrong_words(found: &mut String, alloc: Global) -> Result<(), OutOfMemory> {
    let words = worded::wrong_words(alloc, worked_rows::WRONG_WORDS)?;
    put_table(found, alloc, words.as_str(), 4_096)
}

fn put_bad_lines(found: &mut String, alloc: Global) -> Result<(), OutOfMemory> {
    let lines = worded::bad_lines(alloc, refusals::BAD_LINES)?;
    put_table(found, alloc, lines.as_str(), 7)
}

fn put_others(found: &mut String, alloc: Global) -> Result<(), OutOfMemory> {
    put_wrong_words(found, alloc)?;
    put_bad_lines(found, alloc)?;
    worded::put_other_words(found, alloc, worked_rows::DRILL_WORDS)?;
    worded::put_other_words(found, alloc, worked_rows::SERVED_WORDS)?;
    put_no_text(found, alloc)?;
    put_long_scripts(found, alloc)
}

#[test]
fn words_lines_and_long_scripts(rt: HostRuntime) -> Result<(), Fail> {
    let mut found = String::new(rt.alloc());
    put_others(&mut found, rt.alloc())?;
    assert!(rt; found.is_empty(), "{}", found.as_str());
    Ok(())
}

#[test]
fn lines_of_json(rt: HostRuntime) -> Result<(), Fail> {
    let mut found = String::new(rt.alloc());
    json::put_json(&mut found, rt.alloc())?;
    json::put_pages(&mut found, rt.alloc())?;
    assert!(rt; found.is_empty(), "{}", found.as_str());
    Ok(())
}

/// Rows of functions and tasks.
const ROWS: &[(&str, &str)] = &[
    ("fun", typing::expressions::FORMS),
    ("fun", typing::expressions::LATER_NODES),
    ("task", typing::tasks::FORMS),
    ("task", typing::tasks::LATER_NODES),
];

const WHOLE: &[&str] = &[
    typing::programs::DEFINITIONS,
    typing::programs::ORDER,
    typing::programs::SCOPES,
    typing::programs::SYMBOLS,
];

fn put_types(found: &mut String, alloc: Global) -> Result<(), OutOfMemory> {
    for (word, rows) in ROWS {
        put_rows(found, alloc, word, rows)?;
    }
    for blocks in WHOLE {
        put_blocks(found, alloc, blocks)?;
    }
    Ok(())
}

#[test]
fn first_faults_of_types(rt: HostRuntime) -> Result<(), Fail> {
    let mut found = String::new(rt.alloc());
    put_types(&mut found, rt.alloc())?;
    assert!(rt; found.is_empty(), "{}", found.as_str());
    Ok(())
}
