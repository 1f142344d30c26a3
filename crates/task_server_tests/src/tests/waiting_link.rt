//! A link that gives its bytes once another one has taken a reply.
ghost use Rattle.std.specs.Prelude.{◌≡◌, ◌<◌, ◌≤◌, IfOk, None, false, length, true};
ghost use Rattle.outer_io.specs.Causes.{Rose};
ghost use Rattle.outer_io.specs.Sink.{Took, faults_after_write};
ghost use Rattle.outer_io.specs.Source.{Gave, faults_after_read};
ghost use Rattle.outer_io.specs.StreamLinks.{count_beside, told_over_stream};

use outer_io::{Got, Link, Put, Sink, Source};
use std::alloc::Global;
use std::hint::spin_loop;
use std::sync::Arc;
use std::sync::atomic::AtomicBool;
use std::sync::atomic::Ordering::SeqCst;
use task_model::OutOfMemory;

// How often a link that waits looks whether it may go on.
const LOOKS: u32 = 50_000_000;

// What two links tell each other.
#[derive(Drop)]
struct Flags {
    is_given: AtomicBool,
    was_missed: AtomicBool,
}

/// A signal that one link gives and another waits for.
#[derive(Drop)]
pub(super) struct Signal {
    flags: Arc<Flags>,
}

impl Signal {
    pub(super) fn new(alloc: Global) -> Result<Signal, OutOfMemory> {
        let flags = Flags {
            is_given: AtomicBool::new(false),
            was_missed: AtomicBool::new(false),
        };
        Ok(Signal {
            flags: Arc::new(alloc, flags)?,
        })
    }

    /// Whether a link waited for it in vain.
    pub(super) fn was_missed(&self) -> bool {
        self.flags.was_missed.load(SeqCst)
    }

    fn copy(&self) -> Result<Signal, OutOfMemory> {
        Ok(Signal {
            flags: self.flags.clone()?,
        })
    }

    fn give(&self) {
        self.flags.is_given.store(true, SeqCst);
    }

    fn wait(&self) {
        for _ in 0..LOOKS {
            if self.flags.is_given.load(SeqCst) {
                return;
            }
            spin_loop();
        }
        self.flags.was_missed.store(true, SeqCst);
    }
}

// What a link has to do with the signal.
#[derive(Clone, Copy, PartialEq, Eq)]
enum Part {
    Waits,
    Gives,
}

/// A link that tells only whether it was shut: it gives a request, and keeps what it takes, which is nothing once it was shut.
#[derive(Drop)]
pub(super) struct WaitingLink {
    request: &'static str,
    at: usize,
    taken: Vec<u8>,
    signal: Signal,
    part: Part,
    is_shut: bool,
}

impl WaitingLink {
    /// A link that waits for the signal before it gives its request.
    pub(super) fn behind(
        alloc: Global,
        request: &'static str,
        signal: &Signal,
    ) -> Result<WaitingLink, OutOfMemory>
        ensures { IfOk result (λ link. link.is_shut ≡ false) }
    {
        WaitingLink::new(alloc, request, signal, Part::Waits)
    }

    /// A link that gives the signal when it takes a reply.
    pub(super) fn before(
        alloc: Global,
        request: &'static str,
        signal: &Signal,
    ) -> Result<WaitingLink, OutOfMemory>
        ensures { IfOk result (λ link. link.is_shut ≡ false) }
    {
        WaitingLink::new(alloc, request, signal, Part::Gives)
    }

    fn new(
        alloc: Global,
        request: &'static str,
        signal: &Signal,
        part: Part,
    ) -> Result<WaitingLink, OutOfMemory>
        ensures { IfOk result (λ link. link.is_shut ≡ false) }
    {
        Ok(WaitingLink {
            request,
            at: 0,
            taken: Vec::new(alloc),
            signal: signal.copy()?,
            part,
            is_shut: false,
        })
    }

    pub(super) fn taken(&self) -> &[u8] {
        self.taken.as_slice()
    }
}

impl Source for WaitingLink {
    ghost left = { λ l. None };

    ghost faults = { λ l. 0 };

    ghost beside = { λ l. count_beside 0 l.is_shut };

    fn read(&mut self, room: &mut [u8]) -> Got
        requires { 0 < length room.old }
        ensures bytes { Gave None None room.new result }
        ensures count { 0 ≤ 0 }
        ensures failed { result ≡ Got.Failed → Rose 0 0 }
        ensures exact { 0 ≡ faults_after_read 0 result }
        ensures beside { count_beside 0 self.new.is_shut ≡ count_beside 0 self.old.is_shut }
    {
        if self.part == Part::Waits {
            self.signal.wait();
        }
        let left = self.request.as_bytes().get(self.at..).unwrap_or(&[]);
        let count = left.len().min(room.len());
        if count == 0 {
            return Got::End;
        }
        room[..count].copy_from_slice(&left[..count]);
        self.at = self.at.saturating_add(count);
        Got::Took(count)
    }
}

impl Sink for WaitingLink {
    ghost taken = { λ l. None };

    ghost faults = { λ l. 0 };

    ghost beside = { λ l. count_beside 0 l.is_shut };

    fn write(&mut self, piece: &[u8]) -> Put
        requires { 0 < length piece.now }
        ensures bytes { Took None None piece.now result }
        ensures count { 0 ≤ 0 }
        ensures failed { result ≡ Put.Failed → Rose 0 0 }
        ensures exact { 0 ≡ faults_after_write 0 result }
        ensures beside { count_beside 0 self.new.is_shut ≡ count_beside 0 self.old.is_shut }
    {
        // What there is no memory for isn't kept, and neither is what comes once it was shut: the test fails.
        if !self.is_shut {
            let _ = self.taken.extend_from_slice(piece);
        }
        if self.part == Part::Gives {
            self.signal.give();
        }
        Put::Took(piece.len())
    }
}

impl Link for WaitingLink {
    ghost use Rattle.std.specs.Prelude.{refl};

    ghost told = { λ l. told_over_stream 0 0 l.is_shut };

    fn shut(&mut self)
        ensures { told_over_stream 0 0 self.new.is_shut ≡ told_over_stream 0 0 true }
    {
        self.is_shut = true;
    }

    ghost tells = { λ l. record { left = refl; taken = refl; read_faults = refl; write_faults = refl } };

    ghost keeps_reads = { λ l. refl };

    ghost keeps_writes = { λ l. refl };
}
