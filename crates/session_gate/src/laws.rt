ghost use Rattle.std.specs.Prelude.{◌≡◌, ◌<◌, ◌≤◌, ◌++◌, List, Some, length};
ghost use Rattle.outer_io.specs.Links.{LinkTold};
ghost use Rattle.task_model.specs.Terms.Text.{Text};
ghost use Rattle.http_requests.specs.Requests.{RequestTerm};
ghost use Rattle.http_requests.specs.Streams.{HasNoRequest, Requests};
ghost use Rattle.session_desk.specs.Desks.{DeskTerm};
ghost use Rattle.session_gate.specs.Completeness.{AreAnswerable, HasNoFault, IsWholeEnd};
ghost use Rattle.session_gate.specs.Connections.{AllGoOn, HoldsRequests, MayEndLast, Served};
ghost use Rattle.session_gate.specs.declared.ending.Ending.{Ending};
ghost use Rattle.session_gate.specs.declared.note.Note.{Note};

use http_requests::each_byte_string;

/// The requests that a connection answered are the first of those that its bytes begin with, whatever follows the bytes that it read.
/// They are all of them where none ended the connection and no whole one is left (docs/RULES.md, "Connections").
pub fn answered_requests_come_first()
    ensures first { (asked behind : Text) (rs qs : List RequestTerm) (rest : Text) → HoldsRequests asked rs → MayEndLast rs
        → length rs ≤ 100 → Requests (asked ++ behind) qs rest → (others : List RequestTerm) × (qs ≡ rs ++ others) }
    ensures only { (asked behind : Text) (rs qs : List RequestTerm) (rest : Text) → HoldsRequests asked rs → AllGoOn rs
        → length rs < 100 → HasNoRequest behind → Requests (asked ++ behind) qs rest → (qs ≡ rs) × (rest ≡ behind) }
{}

/// Where a link tells its bytes and fails at nothing, and the bytes are requests, none of which is refused with a closing status, and then blank
/// lines alone, its connection ends with each request answered, as `Ended`, `Parted` or `Spent`, or for want of memory.
pub fn connections_are_complete()
    ensures { (old new : DeskTerm) (before after : LinkTold) (notes : List Note) (end : Ending) (bytes : Text)
        → Served old new before after notes end → before.left ≡ Some bytes → AreAnswerable bytes → HasNoFault before after
        → IsWholeEnd end }
{
    each_byte_string();
}
