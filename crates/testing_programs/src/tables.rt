//! Tables of tests, in blocks with an empty line between each two.
ghost use Rattle.std.specs.Prelude.{◌≡◌, ◌<◌};

use std::alloc::Global;
use std::marker::Brand;
use std::sync::ledger::{Blank, Ledger};
use task_model::{OutOfMemory, Steps};

/// What the blocks of a table are compared with.
pub trait BlockTest {
    /// What differs in a block, with steps of its own.
    fn block_differences<L: Ledger>(
        &self,
        alloc: Global,
        block: &str,
        steps: &mut Steps<L>,
    ) -> Result<String, OutOfMemory>;
}

fn counted_differences<T: BlockTest, L: Ledger>(
    alloc: Global,
    block: &[u8],
    test: &T,
    blank: Blank,
) -> Result<String, OutOfMemory>
    requires name { blank.name ≡ L.name }
    requires parts { blank.parts ≡ L.parts }
    requires some { 0 < blank.parts }
{
    let Ok(block) = str::from_utf8(block) else {
        return Err(OutOfMemory);
    };
    let mut steps = Steps::<L>::new(blank);
    test.block_differences(alloc, block, &mut steps)
}

fn differences_in<T: BlockTest>(
    alloc: Global,
    block: &str,
    test: &T,
) -> Result<String, OutOfMemory> {
    counted_differences::<T, Brand>(alloc, block.as_bytes(), test, Blank::new(1))
}

/// What differs from a table.
pub fn table_differences<T: BlockTest>(
    alloc: Global,
    table: &str,
    test: &T,
) -> Result<String, OutOfMemory> {
    let mut all = String::new(alloc);
    for block in table.split("\n\n") {
        all.push_str(differences_in(alloc, block, test)?.as_str())?;
    }
    Ok(all)
}

/// Whether nothing differs from a table, and memory did not run out.
pub fn is_right<T: BlockTest>(alloc: Global, table: &str, test: &T) -> bool {
    match table_differences(alloc, table, test) {
        Ok(found) => found.is_empty(),
        Err(_) => false,
    }
}
