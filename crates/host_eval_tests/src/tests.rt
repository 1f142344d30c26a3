use crate::value_of;
use host_eval::Definitions;
use host_types::check;
use literal_text::print_value;
use std::alloc::Global;
use std::test::Fail;
use task_model::{OutOfMemory, Purse, Stop, TaskText};
use task_reader::read_program;
use testing_programs::repeated;

mod expressions;
mod heights;

/// What stands behind the definitions of a table, so that they are a program.
const MAIN: &str = "\ntask main() : unit = enter unit\n";

fn accepted(alloc: Global, source: &str) -> Result<Definitions, OutOfMemory> {
    let source = repeated(alloc, source)?;
    match read_program(alloc, source.as_str().as_bytes()) {
        Ok(read) => match check(alloc, read.program) {
            Ok(checked) => Definitions::new(alloc, checked),
            Err(_) => Err(OutOfMemory),
        },
        Err(_) => Err(OutOfMemory),
    }
}

// What the function `it` gives with so many units, with the units that are left; `none` where it gives nothing.
fn given(
    alloc: Global,
    definitions: &Definitions,
    units: u32,
) -> Result<(TaskText, u32), OutOfMemory> {
    let name = TaskText::of(alloc, "it")?;
    let mut purse = Purse::new(units);
    match value_of(alloc, definitions, &name, &mut purse) {
        Some(Ok(v)) => Ok((print_value(alloc, &v)?, purse.units_left())),
        Some(Err(Stop::Over)) => Ok((TaskText::of(alloc, "none")?, 0)),
        Some(Err(Stop::Memory)) => Err(OutOfMemory),
        None => Ok((TaskText::of(alloc, "no function")?, 0)),
    }
}

// What the function `it` of a program gives with so many units, with one fewer, and what is left of many: each with what is left.
fn told(alloc: Global, source: &str, units: u32) -> Result<String, OutOfMemory> {
    let program = accepted(alloc, source)?;
    let (exact, left) = given(alloc, &program, units)?;
    let (fewer, _) = given(alloc, &program, units.saturating_sub(1))?;
    let (_, most) = given(alloc, &program, 1_000_000)?;
    let fewer = if units > 0 { fewer.as_str() } else { "none" };
    Ok(format!(in alloc; "{} {left}, {fewer}, {most}", exact.as_str())?)
}

// Puts what differs where it is to give this value with so many units and nothing with fewer.
fn put_difference(
    found: &mut String,
    alloc: Global,
    source: &str,
    value: &str,
    units: u32,
) -> Result<(), OutOfMemory> {
    let told = told(alloc, source, units)?;
    let most = 1_000_000u32.saturating_sub(units);
    let want = format!(in alloc; "{value} 0, none, {most}")?;
    if told.as_str() != want.as_str() {
        write!(found, "{source}\nis {}\n", told.as_str())?;
    }
    Ok(())
}

// What it gives, however many units there are.
fn given_ever(alloc: Global, source: &str) -> Result<TaskText, OutOfMemory> {
    let program = accepted(alloc, source)?;
    let (text, _) = given(alloc, &program, 1_000_000)?;
    Ok(text)
}

// Puts what differs where it is never to give anything.
fn put_given(found: &mut String, alloc: Global, source: &str) -> Result<(), OutOfMemory> {
    let text = given_ever(alloc, source)?;
    if text.as_str() != "none" {
        write!(found, "{source}\nis {}\n", text.as_str())?;
    }
    Ok(())
}

// Puts what differs from a line of expressions. Lines that are none are comments.
fn put_expression(found: &mut String, alloc: Global, line: &str) -> Result<(), OutOfMemory> {
    let Some((head, rest)) = line.split_once(": ") else {
        return Ok(());
    };
    let (units, kind) = head.split_once(' ').unwrap_or((head, ""));
    let (expression, value) = rest.split_once(" => ").unwrap_or((rest, ""));
    let units = units.parse::<u32>().unwrap_or(0);
    let functions = expressions::FUNCTIONS;
    let source = format!(in alloc; "{functions}fun it() : {kind} = {expression}{MAIN}")?;
    put_difference(found, alloc, source.as_str(), value, units)
}

fn put_height(found: &mut String, alloc: Global, line: &str) -> Result<(), OutOfMemory> {
    let Some((units, rest)) = line.split_once(": ") else {
        return Ok(());
    };
    let (definitions, value) = rest.split_once(" => ").unwrap_or((rest, ""));
    let units = units.parse::<u32>().unwrap_or(0);
    let source = format!(in alloc; "{definitions}{MAIN}")?;
    if value == "none" {
        return put_given(found, alloc, source.as_str());
    }
    put_difference(found, alloc, source.as_str(), value, units)
}

fn put_all(found: &mut String, alloc: Global) -> Result<(), OutOfMemory> {
    for line in expressions::EXPRESSIONS.split('\n') {
        put_expression(found, alloc, line)?;
    }
    for line in heights::HEIGHTS.split('\n') {
        put_height(found, alloc, line)?;
    }
    Ok(())
}

#[test]
fn worked_expressions_and_heights(rt: HostRuntime) -> Result<(), Fail> {
    let mut found = String::new(rt.alloc());
    put_all(&mut found, rt.alloc())?;
    assert!(rt; found.is_empty(), "{}", found.as_str());
    Ok(())
}
