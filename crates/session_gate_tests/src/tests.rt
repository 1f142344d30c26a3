mod cases;
mod serving;

use cases::{CLOSING, FAILING, GOING_ON};
use serving::{Wire, put_table};
use std::alloc::Global;
use std::sync::Wait;
use std::test::Fail;
use task_model::OutOfMemory;

fn put_all<R: Wait>(found: &mut String, rt: &R, alloc: Global) -> Result<(), OutOfMemory> {
    for piece in [100_000, 7, 1] {
        for table in [GOING_ON, CLOSING] {
            put_table(found, rt, alloc, table, Wire::whole(piece))?;
        }
    }
    for (row, wire) in FAILING {
        put_table(found, rt, alloc, row, *wire)?;
    }
    Ok(())
}

#[test]
fn connections_over_links_in_memory(rt: HostRuntime) -> Result<(), Fail> {
    let mut found = String::new(rt.alloc());
    put_all(&mut found, &rt, rt.alloc())?;
    assert!(rt; found.is_empty(), "{}", found.as_str());
    Ok(())
}
