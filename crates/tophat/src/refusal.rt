ghost use Rattle.std.specs.Prelude.{◌≡◌, ◌≤◌, ◌++◌, codes, decimal};
ghost use Rattle.outer_io.specs.Causes.{Rose};
ghost use Rattle.outer_io.specs.Sink.{Wrote};
ghost use Rattle.tophat.specs.Ending.{lex_text, read_text, refusal_text};

use itoa::Buffer;
use outer_io::{Sink, Written, write_all, write_two};
use task_model::TaskText;
use task_syntax::{LexKind, ReadKind};

/// Why a program is refused.
#[derive(Drop)]
pub enum Refusal {
    /// No program was read.
    Read(ReadKind),
    /// A demand on its types isn't met: the text of what is wrong.
    Typed(TaskText),
}

impl Refusal {
    /// Writes what is wrong with a program, piece by piece. It takes no memory.
    pub(crate) fn write<E: Sink>(&self, err: &mut E) -> Written
        ensures text { Wrote (E.taken err.old) (E.taken err.new) (refusal_text self.now) result }
        ensures count { E.faults err.old ≤ E.faults err.new }
        ensures failed { result ≡ Written.Failed → Rose (E.faults err.old) (E.faults err.new) }
    {
        match self {
            Refusal::Read(kind) => write_kind(err, kind),
            Refusal::Typed(text) => write_all(err, text.as_str().as_bytes()),
        }
    }
}

fn write_kind<E: Sink>(err: &mut E, kind: &ReadKind) -> Written
    ensures text { Wrote (E.taken err.old) (E.taken err.new) (read_text kind.now) result }
    ensures count { E.faults err.old ≤ E.faults err.new }
    ensures failed { result ≡ Written.Failed → Rose (E.faults err.old) (E.faults err.new) }
{
    match kind {
        ReadKind::TooLong => write_all(err, b"TooLong"),
        ReadKind::NotUtf8 => write_all(err, b"NotUtf8"),
        ReadKind::Lex(kind) => write_all(err, lexing_text(kind)),
        ReadKind::Unexpected { token } => write_token(err, *token),
        ReadKind::TooNested => write_all(err, b"TooNested"),
    }
}

fn write_token<E: Sink>(err: &mut E, token: u64) -> Written
    ensures text { Wrote (E.taken err.old) (E.taken err.new) (codes "Unexpected token " ++ decimal token) result }
    ensures count { E.faults err.old ≤ E.faults err.new }
    ensures failed { result ≡ Written.Failed → Rose (E.faults err.old) (E.faults err.new) }
{
    let mut number = Buffer::new();
    write_two(err, b"Unexpected token ", number.format(token).as_bytes())
}

fn lexing_text(kind: &LexKind) -> &'static [u8]
    ensures { result.now ≡ lex_text kind.now }
{
    match kind {
        LexKind::BadChar => b"BadChar",
        LexKind::BadEscape => b"BadEscape",
        LexKind::OpenText => b"OpenText",
        LexKind::LongText => b"LongText",
        LexKind::WideNumber => b"WideNumber",
    }
}
