ghost use Rattle.std.specs.Prelude.{◌≡◌, ◌≤◌, IsSome, Some, length};
ghost use Rattle.http_replies.specs.Replies.{phrase_of};

/// The phrase of a status that has one.
pub(crate) fn phrase(status: u16) -> &'static str
    requires { IsSome (phrase_of status) }
    ensures phrase { phrase_of status ≡ Some result.now }
    ensures short { length result.now ≤ 31 }
{
    match status {
        200 => "OK",
        303 => "See Other",
        400 => "Bad Request",
        404 => "Not Found",
        405 => "Method Not Allowed",
        409 => "Conflict",
        411 => "Length Required",
        413 => "Content Too Large",
        431 => "Request Header Fields Too Large",
        500 => "Internal Server Error",
        501 => "Not Implemented",
        _ => unreachable!(),
    }
}
