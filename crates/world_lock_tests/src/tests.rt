ghost use Rattle.std.specs.Prelude.{◌≡◌};

mod at_once;
mod opened;

use at_once::drilled;
use opened::opening_of;
use std::marker::Brand;
use std::test::Fail;

/// Seats that act from threads of their own, with pages between: each seat's entries are its own, in order.
#[test]
fn sessions_at_once(rt: HostRuntime) -> Result<(), Fail> {
    let opening = opening_of(&rt, rt.alloc(), "task main() : int = edit 0", 8)?;
    drilled::<Brand, _>(&rt, rt.alloc(), opening)
}
