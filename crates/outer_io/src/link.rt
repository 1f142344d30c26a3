ghost use Rattle.std.specs.Prelude.{◌≡◌};
ghost use Rattle.outer_io.specs.Links.{LinkTold, TellsSides, beside_reads, beside_writes, shut_link};

use crate::sink::Sink;
use crate::source::Source;

/// A connection: bytes come in, and bytes go out. Where it tells its bytes, it also tells its
/// whole bytes, those that it had to give when it was made; no call changes them.
pub trait Link: Source + Sink {
    // All that the link tells.
    ghost told: { Self → LinkTold };

    /// Ends the link, which tells that. It waits for nobody, and takes no memory.
    fn shut(&mut self)
        ensures { told self.new ≡ shut_link (told self.old) };

    // What the link tells is what its two sides tell, and its whole bytes.
    ghost tells: { (l : Self) → TellsSides (told l) (Self.left l) (Self.taken l) (Self.Source.faults l) (Self.Sink.faults l) };

    // A read leaves the whole bytes, those that were taken, the count of failed writes, and whether the link was shut.
    ghost keeps_reads: { (l : Self) → Self.Source.beside l ≡ beside_reads (told l) };

    // A write leaves the whole bytes, those that are left, the count of failed reads, and whether the link was shut.
    ghost keeps_writes: { (l : Self) → Self.Sink.beside l ≡ beside_writes (told l) };
}
