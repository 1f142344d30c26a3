ghost use Rattle.std.specs.Prelude.{◌≡◌, ◌<◌, ◌≤◌, None, IfSome, false, true, length};
ghost use Rattle.std.specs.Duration.{as_nanos};
ghost use Rattle.outer_io.specs.Causes.{Rose};
ghost use Rattle.outer_io.specs.Sink.{Took, faults_after_write};
ghost use Rattle.outer_io.specs.Source.{Gave, faults_after_read};
ghost use Rattle.outer_io.specs.StreamLinks.{IsLinkRead, IsLinkWrite, count_beside, told_over_stream};

use crate::call_limits::CallLimits;
use crate::link::Link;
use crate::link_times::LinkTimes;
use crate::phase::Phase;
use crate::read_calls::read_some;
use crate::sink::{Put, Sink};
use crate::source::{Got, Source};
use crate::system_stream::SystemStream;
use crate::write_calls::write_some;
use std::net::{Shutdown, TcpStream};
use std::time::{Clock, Duration, Instant};

/// A link over a connection of the system. It tells nothing of its bytes.
///
/// A client has so long to begin a request, so long for the rest of it, and so long to take what is
/// written until it asks again (docs/FORMATS.md, "Times"). A call for which no time is left, or no
/// clock tells how much, is a fault. The system is told of another limit only where it changes. Calls that a signal interrupts are tried again, as at
/// `ReaderSource` and `WriterSink`. After `shut` a read answers `End`, and a write `Failed`.
#[derive(Drop)]
pub struct StreamLink<'r, R: Clock> {
    calls: SystemStream<TcpStream>,
    limits: CallLimits,
    clock: &'r R,
    times: LinkTimes,
    phase: Phase,
    had_time: bool,
    is_shut: bool,
    read_faults: u64,
    write_faults: u64,
}

impl<'r, R: Clock> StreamLink<'r, R> {
    /// A link of which no call failed yet. What is written is sent at once, where the system can do so.
    pub fn new(stream: TcpStream, clock: &'r R, times: LinkTimes) -> StreamLink<'r, R>
        ensures read_faults { ⟦<StreamLink<'r, R> as Source>⟧.faults result ≡ 0 }
        ensures write_faults { ⟦<StreamLink<'r, R> as Sink>⟧.faults result ≡ 0 }
        ensures times { result.times ≡ times }
        ensures opens { result.is_shut ≡ false }
        ensures phase { result.phase ≡ Phase.Idle }
    {
        let _ = stream.set_nodelay(true);
        StreamLink {
            calls: SystemStream::new(stream),
            limits: CallLimits::new(),
            clock,
            times,
            phase: Phase::Idle,
            had_time: true,
            is_shut: false,
            read_faults: 0,
            write_faults: 0,
        }
    }

    // When a time that begins now ends.
    fn end_of(&self, time: Duration) -> Option<Instant> {
        Instant::now(self.clock).ok()?.checked_add(time)
    }

    // How much time is left until then. None: none is, or no clock tells it.
    fn left_until(&self, end: Option<Instant>) -> Option<Duration>
        ensures { IfSome result (λ left. 0 < as_nanos left) }
    {
        let now = Instant::now(self.clock).ok()?;
        let left = end?.checked_duration_since(now)?;
        if left.is_zero() { None } else { Some(left) }
    }

    // How long a read may wait.
    fn time_to_read(&self) -> Option<Duration> {
        match self.phase {
            Phase::Idle | Phase::Replying(_) => Some(self.times.idle),
            Phase::Asking(end) => self.left_until(end),
        }
    }

    // How long a write may wait, where the time for what is written ends then. None: no time is left, or no clock tells it.
    fn time_to_write(&self, end: Option<Instant>) -> Option<Duration> {
        match self.phase {
            Phase::Replying(_) => self.left_until(end),
            Phase::Idle | Phase::Asking(_) => end.and(Some(self.times.reply)),
        }
    }

    // Has the next read wait so long at most. False: there is no time for it.
    fn set_read_time(&mut self, time: Option<Duration>) -> bool
        ensures { self.new ≡ record self.old { limits = self.new.limits } }
    {
        match time {
            Some(left) => self.limits.limit_reads(&self.calls.stream, left),
            None => false,
        }
    }

    // Has the next write wait so long at most. False: there is no time for it.
    fn set_write_time(&mut self, time: Option<Duration>) -> bool
        ensures { self.new ≡ record self.old { limits = self.new.limits } }
    {
        match time {
            Some(left) => self.limits.limit_writes(&self.calls.stream, left),
            None => false,
        }
    }

    // Reads, where there is time for it.
    fn read_in_time(&mut self, room: &mut [u8]) -> Got
        requires { 0 < length room.old }
        ensures bytes { Gave None None room.new result }
        ensures stays { (self.new.is_shut ≡ self.old.is_shut) × (self.new.times ≡ self.old.times) }
        ensures counts { (self.new.read_faults ≡ self.old.read_faults) × (self.new.write_faults ≡ self.old.write_faults) }
        ensures told { IsLinkRead false self.new.had_time self.new.calls.last self.new.calls.interruptions result }
    {
        let time = self.time_to_read();
        self.had_time = self.set_read_time(time);
        if !self.had_time {
            return Got::Failed;
        }
        let got = read_some(&mut self.calls, room);
        self.phase = match (got, self.phase) {
            (Got::Took(_), Phase::Idle | Phase::Replying(_)) => {
                Phase::Asking(self.end_of(self.times.request))
            }
            (_, phase) => phase,
        };
        got
    }

    // Writes, where there is time for it.
    fn write_in_time(&mut self, piece: &[u8]) -> Put
        requires { 0 < length piece.now }
        ensures bytes { Took None None piece.now result }
        ensures stays { (self.new.is_shut ≡ self.old.is_shut) × (self.new.times ≡ self.old.times) }
        ensures counts { (self.new.read_faults ≡ self.old.read_faults) × (self.new.write_faults ≡ self.old.write_faults) }
        ensures told { IsLinkWrite false self.new.had_time self.new.calls.last self.new.calls.interruptions result }
    {
        let end = match self.phase {
            Phase::Replying(end) => end,
            Phase::Idle | Phase::Asking(_) => self.end_of(self.times.reply),
        };
        let time = self.time_to_write(end);
        self.phase = Phase::Replying(end);
        self.had_time = self.set_write_time(time);
        if !self.had_time {
            return Put::Failed;
        }
        write_some(&mut self.calls, piece)
    }
}

impl<'r, R: Clock> Source for StreamLink<'r, R> {
    ghost left = { λ _. None };

    ghost faults = { λ l. l.read_faults };

    ghost beside = { λ l. count_beside l.write_faults l.is_shut };

    fn read(&mut self, room: &mut [u8]) -> Got
        requires { 0 < length room.old }
        ensures bytes { Gave None None room.new result }
        ensures count { self.old.read_faults ≤ self.new.read_faults }
        ensures failed { result ≡ Got.Failed → Rose self.old.read_faults self.new.read_faults }
        ensures exact { self.new.read_faults ≡ faults_after_read self.old.read_faults result }
        ensures beside { count_beside self.new.write_faults self.new.is_shut ≡ count_beside self.old.write_faults self.old.is_shut }
        ensures told { IsLinkRead self.old.is_shut self.new.had_time self.new.calls.last self.new.calls.interruptions result }
    {
        if self.is_shut {
            return Got::End;
        }
        let got = self.read_in_time(room);
        if got == Got::Failed {
            self.read_faults = self.read_faults.saturating_add(1);
        }
        got
    }
}

impl<'r, R: Clock> Sink for StreamLink<'r, R> {
    ghost taken = { λ _. None };

    ghost faults = { λ l. l.write_faults };

    ghost beside = { λ l. count_beside l.read_faults l.is_shut };

    fn write(&mut self, piece: &[u8]) -> Put
        requires { 0 < length piece.now }
        ensures bytes { Took None None piece.now result }
        ensures count { self.old.write_faults ≤ self.new.write_faults }
        ensures failed { result ≡ Put.Failed → Rose self.old.write_faults self.new.write_faults }
        ensures exact { self.new.write_faults ≡ faults_after_write self.old.write_faults result }
        ensures beside { count_beside self.new.read_faults self.new.is_shut ≡ count_beside self.old.read_faults self.old.is_shut }
        ensures told { IsLinkWrite self.old.is_shut self.new.had_time self.new.calls.last self.new.calls.interruptions result }
    {
        let put = if self.is_shut {
            Put::Failed
        } else {
            self.write_in_time(piece)
        };
        if put == Put::Failed {
            self.write_faults = self.write_faults.saturating_add(1);
        }
        put
    }
}

impl<'r, R: Clock> Link for StreamLink<'r, R> {
    ghost use Rattle.std.specs.Prelude.{refl};

    ghost told = { λ l. told_over_stream l.read_faults l.write_faults l.is_shut };

    fn shut(&mut self)
        ensures { told_over_stream self.new.read_faults self.new.write_faults self.new.is_shut
            ≡ told_over_stream self.old.read_faults self.old.write_faults true }
    {
        self.is_shut = true;
        let _ = self.calls.stream.shutdown(Shutdown::Both);
    }

    ghost tells = { λ l. record { left = refl; taken = refl; read_faults = refl; write_faults = refl } };

    ghost keeps_reads = { λ l. refl };

    ghost keeps_writes = { λ l. refl };
}
