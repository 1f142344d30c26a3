ghost use Rattle.std.specs.Prelude.{◌≡◌, if◌then◌else◌, unwrap_or};
ghost use Rattle.http_heads.specs.Checks.{is_end};
ghost use Rattle.http_heads.specs.Spans.{AreFieldsWithin, head_of, SaysOf};

use crate::check::Check;
use crate::head::Head;

/// What the head of a request says of it (docs/FORMATS.md, "Checks").
#[derive(Drop)]
pub struct HeadFacts<'b> {
    /// The first of the checks 3 to 9 that it fails.
    pub failed: Option<Check>,
    /// Whether the reply has its head alone.
    pub head_only: bool,
    /// Whether the body asks, and not the query.
    pub posts: bool,
    /// Whether it asks for the end of the connection.
    pub closes: bool,
    /// How many bytes of the body belong to it.
    pub taken: usize,
    /// What stands behind the "?" of its target.
    pub query: &'b [u8],
}

impl<'b> HeadFacts<'b> {
    /// What this head says.
    pub(crate) fn of(head: &Head<'b, '_>) -> HeadFacts<'b>
        requires { AreFieldsWithin head.now.block.now head.now.fields.now }
        ensures { SaysOf result (head_of head.now) }
    {
        let failed = head.failed_check();
        HeadFacts {
            failed,
            head_only: head.is_head(),
            posts: head.is_post(),
            closes: head.asks_close(),
            taken: taken(failed, head.length()),
            query: head.query().unwrap_or(&[]),
        }
    }

    /// Whether the connection ends with the request, since a check that it fails says so (docs/FORMATS.md, "Checks").
    pub fn ends(&self) -> bool
        ensures { result ≡ is_end self.now.failed }
    {
        match self.failed {
            Some(check) => check.ends(),
            None => false,
        }
    }
}

/// How many bytes of a body of this length belong to a request with this fault.
fn taken(failed: Option<Check>, length: Option<u64>) -> usize
    ensures { result ≡ (if is_end failed then 0 else unwrap_or length 0) }
{
    match failed {
        Some(check) if check.ends() => 0,
        _ => length.unwrap_or(0) as usize,
    }
}
