mod reading;
mod tables;
mod telling;

use reading::{Rows, differences};
use std::test::Fail;
use tables::{ASKED, CHECKS, FORMS, LIMITS, LONG_FORMS};

#[test]
fn first_requests(rt: HostRuntime) -> Result<(), Fail> {
    for (rows, table) in [
        (Rows::Requests, ASKED),
        (Rows::Requests, CHECKS),
        (Rows::Requests, LIMITS),
        (Rows::Forms, FORMS),
        (Rows::Forms, LONG_FORMS),
    ] {
        let found = differences(rt.alloc(), rows, table)?;
        assert!(rt; found.is_empty(), "{}", found.as_str());
    }
    Ok(())
}
