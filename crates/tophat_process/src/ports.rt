ghost use Rattle.std.specs.Prelude.{◌≡◌};
ghost use Rattle.std.specs.Duration.{as_nanos};

use outer_io::LinkTimes;
use outer_ports::SystemPorts;
use std::net::Net;
use std::time::{Clock, Duration};

/// The ports of this machine, with the times of docs/FORMATS.md, "Times": a client of their gates has 10 seconds for its first request, and
/// then 50 milliseconds until another one begins, 500 for the rest of it, and 10 seconds to take a reply. No call of them failed yet.
pub fn ports_of_machine<R: Net + Clock>(rt: &R) -> SystemPorts<'_, R>
    ensures faults { result.faults ≡ 0 }
    ensures first { as_nanos result.first ≡ 10_000_000_000 }
    ensures idle { as_nanos result.times.idle ≡ 50_000_000 }
    ensures request { as_nanos result.times.request ≡ 500_000_000 }
    ensures reply { as_nanos result.times.reply ≡ 10_000_000_000 }
{
    let times = LinkTimes {
        idle: Duration::from_millis(50),
        request: Duration::from_millis(500),
        reply: Duration::from_secs(10),
    };
    SystemPorts::new(rt, Duration::from_secs(10), times)
}
