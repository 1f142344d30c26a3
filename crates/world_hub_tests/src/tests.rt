mod at_once;
mod columns;

use std::test::Fail;

/// Lines for 2, 9 and 16 worlds: which world each names, or the column at which it is bad.
#[test]
fn lines_and_columns(rt: HostRuntime) -> Result<(), Fail> {
    let mut found = String::new(rt.alloc());
    columns::put_all(&mut found, rt.alloc())?;
    assert!(rt; found.is_empty(), "{}", found.as_str());
    Ok(())
}

/// Two worlds answer three lines: the texts stand in the order of the lines.
#[test]
fn two_worlds(rt: HostRuntime) -> Result<(), Fail> {
    assert!(rt; at_once::answers_two(&rt, rt.alloc())?);
    Ok(())
}

/// Of three programs the second and the third have no opening: the second is named.
#[test]
fn lowest_over(rt: HostRuntime) -> Result<(), Fail> {
    assert!(rt; at_once::names_the_lowest(rt.alloc())?);
    Ok(())
}
