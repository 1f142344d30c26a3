//! Lines at the limits: of their bytes, of levels, of elements and of texts.

use crate::lines::put_row;
use std::alloc::Global;
use std::test::Fail;
use task_model::OutOfMemory;
use testing_programs::repeated;

/// Lines, each before what it comes to. `{N PIECE}` stands for N times the piece. What there is no room for within the limit is bad where it
/// begins, and not at the limit.
const LINES: &str = r#"#{1048575 a}@blank
#{1048575 a}^@column 1048577
#{1048575 a}^a@column 1048577
1 . set 4{1048566  }^@1 . set 4
1 . set 4{1048566  }^^@column 1048577
1 . set 4{1048568  }@column 1048577
1 . set 4x{1048568  }@column 10
1 . set {1048565  }[]^@1 . set []
1 . set {1048564  }(1,2)@column 1048574
1 . set {1048565  }[(1@column 1048575
1 . set {1048565  }true@column 1048574
1 . set {1048562  }"\x41"@1 . set "A"
1 . set {1048563  }"\x41"@column 1048574
1 . set {1048566  }"a@column 1048576
1 . set {1048563  }"😀"@column 1048573
1 .{1048574 F}@column 1048572
1 .{1048568 F} next^@column 1048577
1 . set {65 [}@column 73
1 . set [1{1024 ,1}@column 2057
1 . set "{65537 a}@column 65546
1 .{1000 F}@column 1004"#;

fn put_all(found: &mut String, alloc: Global) -> Result<(), OutOfMemory> {
    for row in LINES.split('\n') {
        let row = repeated(alloc, row)?;
        put_row(found, alloc, row.as_str())?;
    }
    Ok(())
}

#[test]
fn limits(rt: HostRuntime) -> Result<(), Fail> {
    let mut found = String::new(rt.alloc());
    put_all(&mut found, rt.alloc())?;
    assert!(rt; found.is_empty(), "{}", found.as_str());
    Ok(())
}
