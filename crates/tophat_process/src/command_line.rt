ghost use Rattle.std.specs.Prelude.{◌≡◌, IfOk, drop, map, string_bytes};
ghost use Rattle.std.specs.Vec.Iter.{into_iter_items};

use std::alloc::{Allocator, Global};
use std::env;
use std::io::ErrorKind;
use std::vec::IntoIter;
use task_model::{OutOfMemory, Row, TaskText};

/// The words of a command line, without the first one, which is the program's name. It fails only where memory runs out.
pub fn words_of<A: Allocator>(
    alloc: Global,
    line: IntoIter<String<A>, A>,
) -> Result<Row<TaskText>, OutOfMemory>
    ensures words { IfOk result (λ row. row.list ≡ map string_bytes (drop 1 (into_iter_items line))) }
{
    let mut line = line;
    let mut words = Row::new(alloc);
    let _ = line.next();
    while let Some(word) = line.next() {
        words.push(TaskText::of(alloc, word.as_str())?)?;
    }
    Ok(words)
}

/// The words of this process's command line without the program's name. None where one isn't UTF-8, which is outside the grammar.
pub fn words(
    rt: &(impl std::rt::Env + Alloc),
    alloc: Global,
) -> Result<Row<TaskText>, OutOfMemory> {
    match env::args(rt) {
        Ok(line) => words_of(alloc, line),
        Err(e) if e.kind() == ErrorKind::OutOfMemory => Err(OutOfMemory),
        Err(_) => Ok(Row::new(alloc)),
    }
}
