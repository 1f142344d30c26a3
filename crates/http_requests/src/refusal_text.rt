ghost use Rattle.std.specs.Prelude.{◌≡◌, ◌≤◌, ◌++◌, codes, decimal, length};
ghost use Rattle.http_heads.specs.Checks.{check_text};

use arrayvec::ArrayString;
use http_heads::Check;
use itoa::Buffer;
use std::marker::Model;

/// The most bytes of such a text.
const TEXT_LIMIT: usize = 48;

/// The text of a refusal, which takes no memory. Contracts see its bytes.
#[derive(Drop)]
pub struct RefusalText {
    text: ArrayString<TEXT_LIMIT>,
}

impl Model for RefusalText {
    ghost use Rattle.std.specs.Prelude.{List, ℕ};

    ghost Value = { List ℕ };

    ghost view = { λ t. t.text.bytes };
}

impl RefusalText {
    /// What a request is told that fails a check.
    pub(crate) fn of_check(check: Check) -> RefusalText
        ensures { result ≡ check_text check }
    {
        let mut text = ArrayString::new();
        text.push_str(check.text());
        RefusalText { text }
    }

    /// What a request is told that has a bad literal at this place.
    pub(crate) fn bad_literal(place: u64) -> RefusalText
        ensures { result ≡ codes "bad literal at " ++ decimal place }
    {
        let mut text = ArrayString::new();
        text.push_str("bad literal at ");
        text.push_str(Buffer::new().format(place));
        RefusalText { text }
    }

    /// The text's bytes, which are UTF-8, and no LF (docs/FORMATS.md, "Replies").
    pub fn as_str(&self) -> &str
        ensures text { result.now ≡ self.now }
        ensures short { length result.now ≤ 48 }
    {
        self.text.as_str()
    }
}
