ghost use Rattle.std.specs.Prelude.{◌≡◌, ℕ, List, Some};
ghost use Rattle.outer_io.specs.Links.{LinkTold};
ghost use Rattle.task_model.specs.Terms.Item.{ItemTerm};
ghost use Rattle.task_model.specs.Terms.Text.{Text};
ghost use Rattle.task_model.specs.Running.State.{IsLegal};
ghost use Rattle.http_requests.specs.Requests.{RequestTerm};
ghost use Rattle.http_requests.specs.Streams.{Requests};
ghost use Rattle.task_server.specs.Answering.{IsAnswered};
ghost use Rattle.task_server.specs.LinkReplies.{HasReplies};

use http_requests::each_byte_string;

/// What `IsAnswered` says of a link that tells its bytes: the requests of all of its bytes have their replies, each of them at the one
/// history that is closed in the end (docs/RULES.md, "Serving").
pub fn answered_links_have_replies()
    ensures { (start history : List ItemTerm) (link : LinkTold) (count : ℕ) → IsLegal history → IsAnswered start history link count
        → (whole taken : Text) → link.whole ≡ Some whole → link.taken ≡ Some taken
        → (requests : List RequestTerm) (rest : Text) → Requests whole requests rest → HasReplies history link taken requests count }
{
    each_byte_string();
}
