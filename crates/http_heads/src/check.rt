ghost use Rattle.std.specs.Prelude.{◌≡◌};
ghost use Rattle.http_heads.specs.Checks.{check_status, ends_at, check_text};

/// The checks of a request, in their order (docs/FORMATS.md, "Checks").
#[derive(Clone, Copy, Debug, PartialEq, Eq)]
pub enum Check {
    /// The block ends within 8,192 bytes, and has at most 64 lines between its first and the empty one.
    ShortHead,
    /// The block is one whole head.
    WholeHead,
    /// HTTP/1.1 has exactly one `Host`.
    OneHost,
    /// There is no `Transfer-Encoding`.
    NoCoding,
    /// There is at most one `Content-Length`, of 1 to 19 digits.
    OneLength,
    /// It says at most 65,536.
    ShortBody,
    /// The target is "/", alone or with "?" and a query behind it.
    KnownTarget,
    /// The method is GET, HEAD or POST.
    KnownMethod,
    /// POST has a `Content-Length`.
    LengthOfPost,
    /// The query of GET and HEAD, or the form of POST, asks for something.
    GoodContent,
}

impl Check {
    /// The status of a request that fails it (docs/FORMATS.md, "Checks").
    pub fn status(self) -> u16
        ensures { result ≡ check_status self }
    {
        match self {
            Check::ShortHead => 431,
            Check::WholeHead | Check::OneHost | Check::OneLength | Check::GoodContent => 400,
            Check::NoCoding => 501,
            Check::ShortBody => 413,
            Check::KnownTarget => 404,
            Check::KnownMethod => 405,
            Check::LengthOfPost => 411,
        }
    }

    /// Whether the connection ends with a request that fails it (docs/FORMATS.md, "Checks").
    pub fn ends(self) -> bool
        ensures { result ≡ ends_at self }
    {
        match self {
            Check::ShortHead
            | Check::WholeHead
            | Check::OneHost
            | Check::NoCoding
            | Check::OneLength
            | Check::ShortBody => true,
            Check::KnownTarget | Check::KnownMethod | Check::LengthOfPost | Check::GoodContent =>
                false,
        }
    }

    /// What a request that fails it is told (docs/FORMATS.md, "Replies").
    pub fn text(self) -> &'static str
        ensures { result.now ≡ check_text self }
    {
        match self {
            Check::ShortHead => "head too large",
            Check::WholeHead | Check::OneHost | Check::OneLength | Check::GoodContent =>
                "bad request",
            Check::NoCoding => "not implemented",
            Check::ShortBody => "body too large",
            Check::KnownTarget => "not found",
            Check::KnownMethod => "method not allowed",
            Check::LengthOfPost => "length required",
        }
    }
}
