ghost use Rattle.std.specs.Prelude.{◌≡◌, ◌⊎◌, List};
ghost use Rattle.task_model.specs.Terms.Text.{Text};
ghost use Rattle.http_requests.specs.Requests.{RequestTerm};
ghost use Rattle.http_requests.specs.Streams.{BeginsWith, HasNoRequest, BeginsSome, IsIdle, IsOfCheck, Requests};

/// Bytes begin with at most one first request, whatever follows it.
pub fn one_first_request()
    ensures { (bytes : Text) (r s : RequestTerm) (x y : Text) → BeginsWith bytes r x → BeginsWith bytes s y → (r ≡ s) × (x ≡ y) }
{}

/// Bytes have at most one list of requests, and one rest.
pub fn one_list_of_requests()
    ensures { (bytes : Text) (rs qs : List RequestTerm) (x y : Text) → Requests bytes rs x → Requests bytes qs y → (rs ≡ qs) × (x ≡ y) }
{}

/// Each byte string begins with a whole request, or with none while more bytes make it one; blank lines alone are of the second kind.
pub fn each_byte_string()
    ensures some { (bytes : Text)
        → ((r : RequestTerm) × (rest : Text) × BeginsWith bytes r rest) ⊎ (HasNoRequest bytes × BeginsSome bytes) }
    ensures idle { (bytes : Text) → IsIdle bytes → HasNoRequest bytes × BeginsSome bytes }
{}

/// A request that is refused has the status of one of the checks, and the connection ends with it where the check says so.
pub fn refusals_are_of_checks()
    ensures { (bytes : Text) (r : RequestTerm) (rest : Text) → BeginsWith bytes r rest → IsOfCheck r.asked }
{}
