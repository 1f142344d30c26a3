ghost use Rattle.std.specs.Prelude.{◌≡◌, ◌<◌, ◌≤◌, ◌↔◌, IsTrue, Some, false, length};
ghost use Rattle.outer_io.specs.Causes.{Rose};
ghost use Rattle.outer_io.specs.FailingCalls.{fails_next, IsCounted};
ghost use Rattle.outer_io.specs.Links.{beside_reads, beside_writes, shut_link};
ghost use Rattle.outer_io.specs.MemLinks.{told_in_memory};
ghost use Rattle.outer_io.specs.PlainSource.{left_of};
ghost use Rattle.outer_io.specs.Sink.{Took, TookAtMost, faults_after_write};
ghost use Rattle.outer_io.specs.Source.{Gave, GaveAtMost, faults_after_read};

use crate::link::Link;
use crate::mem_sink::MemSink;
use crate::mem_source::MemSource;
use crate::sink::{Put, Sink};
use crate::source::{Got, Source};

/// A link in memory, which gives what its source gives, takes what its sink takes, and fails as they do. Once it is shut it takes nothing:
/// each write fails.
#[derive(Drop)]
pub struct MemLink {
    source: MemSource,
    // where its whole bytes begin in those of the source
    start: usize,
    sink: MemSink,
    is_shut: bool,
}

impl MemLink {
    /// A link over these. Its whole bytes are those that the source has left.
    pub fn new(source: MemSource, sink: MemSink) -> MemLink
        ensures whole { (⟦<MemLink as Link>⟧.told result).whole ≡ ⟦<MemSource as Source>⟧.left source }
        ensures left { (⟦<MemLink as Link>⟧.told result).left ≡ ⟦<MemSource as Source>⟧.left source }
        ensures taken { (⟦<MemLink as Link>⟧.told result).taken ≡ ⟦<MemSink as Sink>⟧.taken sink }
        ensures read_faults { (⟦<MemLink as Link>⟧.told result).read_faults ≡ ⟦<MemSource as Source>⟧.faults source }
        ensures write_faults { (⟦<MemLink as Link>⟧.told result).write_faults ≡ ⟦<MemSink as Sink>⟧.faults sink }
        ensures opens { (⟦<MemLink as Link>⟧.told result).is_shut ≡ false }
    {
        MemLink {
            start: source.at(),
            source,
            sink,
            is_shut: false,
        }
    }

    /// The bytes that were taken.
    pub fn taken(&self) -> &[u8]
        ensures { (⟦<MemLink as Link>⟧.told self.now).taken ≡ Some result.now }
    {
        self.sink.taken()
    }
}

impl Source for MemLink {
    ghost left = { λ l. Some (left_of l.source.plain) };

    ghost faults = { λ l. l.source.plan.faults };

    ghost beside = { λ l. beside_reads (told_in_memory l) };

    fn read(&mut self, room: &mut [u8]) -> Got
        requires { 0 < length room.old }
        ensures bytes { Gave (Some (left_of self.old.source.plain)) (Some (left_of self.new.source.plain)) room.new result }
        ensures count { self.old.source.plan.faults ≤ self.new.source.plan.faults }
        ensures failed { result ≡ Got.Failed → Rose self.old.source.plan.faults self.new.source.plan.faults }
        ensures exact { self.new.source.plan.faults ≡ faults_after_read self.old.source.plan.faults result }
        ensures beside { beside_reads (told_in_memory self.new) ≡ beside_reads (told_in_memory self.old) }
        ensures at_most { GaveAtMost self.old.source.plain.piece result }
        ensures listed { (result ≡ Got.Failed) ↔ IsTrue (fails_next self.old.source.plan) }
        ensures counted { IsCounted self.old.source.plan self.new.source.plan }
    {
        self.source.read(room)
    }
}

impl Sink for MemLink {
    ghost taken = { λ l. Some l.sink.bytes.list };

    ghost faults = { λ l. l.sink.plan.faults };

    ghost beside = { λ l. beside_writes (told_in_memory l) };

    fn write(&mut self, piece: &[u8]) -> Put
        requires { 0 < length piece.now }
        ensures bytes { Took (Some self.old.sink.bytes.list) (Some self.new.sink.bytes.list) piece.now result }
        ensures count { self.old.sink.plan.faults ≤ self.new.sink.plan.faults }
        ensures failed { result ≡ Put.Failed → Rose self.old.sink.plan.faults self.new.sink.plan.faults }
        ensures exact { self.new.sink.plan.faults ≡ faults_after_write self.old.sink.plan.faults result }
        ensures beside { beside_writes (told_in_memory self.new) ≡ beside_writes (told_in_memory self.old) }
        ensures at_most { TookAtMost self.old.sink.piece result }
        ensures listed { IsTrue (fails_next self.old.sink.plan) → result ≡ Put.Failed }
        ensures counted { IsCounted self.old.sink.plan self.new.sink.plan }
        ensures shut { IsTrue self.old.is_shut → result ≡ Put.Failed }
    {
        if self.is_shut {
            return self.sink.refuse();
        }
        self.sink.write(piece)
    }
}

impl Link for MemLink {
    ghost use Rattle.std.specs.Prelude.{refl};

    ghost told = { told_in_memory };

    /// It takes nothing from now on.
    fn shut(&mut self)
        ensures { told_in_memory self.new ≡ shut_link (told_in_memory self.old) }
    {
        self.is_shut = true;
    }

    ghost tells = { λ l. record { left = refl; taken = refl; read_faults = refl; write_faults = refl } };

    ghost keeps_reads = { λ l. refl };

    ghost keeps_writes = { λ l. refl };
}
