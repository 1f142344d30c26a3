ghost use Rattle.std.specs.Prelude.{◌≡◌, ◌≤◌, ℕ, List, length};
ghost use Rattle.task_syntax.specs.Runs.{goes_on, IsRun};

use crate::cursor::first_char;
use unicode_ident::is_xid_continue;

/// A run of characters: up to the end of a line, in a word, or in a number.
#[derive(Clone, Copy)]
pub(crate) enum Run {
    Line,
    Word,
    Digits,
}

impl Run {
    fn goes_on(self, character: char) -> bool
        ensures { result ≡ goes_on self character }
    {
        match self {
            Run::Line => character != '\n',
            Run::Word => is_xid_continue(character),
            Run::Digits => character.is_ascii_digit(),
        }
    }

    /// What stands after the run at the front of a text.
    pub(crate) fn strip(self, text: &str) -> &str
        ensures { (front : List ℕ) × IsRun (goes_on self) text.now front result.now }
    {
        let mut rest = text;
        while let Some((character, more)) = first_char(rest) {
            if !self.goes_on(character) {
                return rest;
            }
            rest = more;
        }
        rest
    }
}
