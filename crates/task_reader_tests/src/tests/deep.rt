//! Texts as long and as deep as they may be, on the first thread and on one that it starts.

use super::{FUNCTION, TASK, told};
use std::alloc::{AllocError, Global};
use std::test::Fail;
use std::thread;
use task_model::PROGRAM_BYTE_LIMIT;

// A text so many times.
fn many(alloc: Global, text: &str, times: usize) -> Result<String, AllocError> {
    let mut all = String::new(alloc);
    for _ in 0..times {
        all.push_str(text)?;
    }
    Ok(all)
}

// What is told of a head, and as many parentheses behind it as have room.
fn of_parentheses(alloc: Global, head: &str) -> Result<String, AllocError> {
    let mut source = String::from_str(alloc, head)?;
    for _ in head.len()..PROGRAM_BYTE_LIMIT {
        source.push('(')?;
    }
    told(alloc, source.as_str().as_bytes())
}

// What is told of a long program, each definition of which has 200 levels.
fn of_definitions(alloc: Global) -> Result<String, AllocError> {
    let (open, close) = (many(alloc, "(", 199)?, many(alloc, ")", 199)?);
    let definition = format!(in alloc; "{FUNCTION}{}1{}\n", open.as_str(), close.as_str())?;
    let source = many(alloc, definition.as_str(), 2_500)?;
    told(alloc, source.as_str().as_bytes())
}

// What is told of them all.
fn all_told(alloc: Global) -> Result<String, AllocError> {
    let (none, task) = (of_parentheses(alloc, "")?, of_parentheses(alloc, TASK)?);
    let (function, all) = (of_parentheses(alloc, FUNCTION)?, of_definitions(alloc)?);
    let parentheses = format!(in alloc; "{}, {}", none.as_str(), task.as_str())?;
    format!(in alloc;
        "{}, {}, {}",
        parentheses.as_str(),
        function.as_str(),
        all.as_str()
    )
}

const TOLD: &str = "Unexpected { token: 0 } at 0, TooNested at 219, TooNested at 216, read";

#[test]
fn deep_texts(rt: HostRuntime) -> Result<(), Fail> {
    assert_eq!(rt; all_told(rt.alloc())?.as_str(), TOLD);
    Ok(())
}

#[test]
fn deep_texts_on_another_thread(rt: HostRuntime) -> Result<(), Fail> {
    let alloc = rt.alloc();
    let other = thread::spawn(
        &rt,
        move || matches!(all_told(alloc), Ok(told) if told.as_str() == TOLD),
    )?;
    assert!(rt; other.join(&rt));
    Ok(())
}
