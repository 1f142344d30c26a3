ghost use Rattle.std.specs.Prelude.{◌≡◌, ◌≤◌, [], false, true, length};
ghost use Rattle.outer_gates.specs.Arrivals.{BeginsWhole};

use crate::arrival::Arrival;
use crate::first_request::FirstRequest;
use mio::Token;
use mio::net::TcpStream;
use std::alloc::Global;
use std::time::{Duration, Instant};

/// A client whose first request isn't there whole yet: what waits tell it by, whether one told that it has sent something or gone since it
/// was read last, what it has sent of its request, since when it waits, and when its time for that ends. None: it has sent nothing.
#[derive(Drop)]
pub(crate) struct Client {
    stream: TcpStream,
    token: Token,
    is_told: bool,
    request: FirstRequest,
    since: Instant,
    end: Option<Instant>,
    ghost within: { length request ≤ 73728 },
}

impl Client {
    /// One that was not read yet, and waits since now.
    pub(crate) fn new(alloc: Global, stream: TcpStream, token: Token, now: Instant) -> Client
        ensures stream { (result.stream ≡ stream) × (result.token ≡ token) × (result.is_told ≡ true) }
        ensures waits { (result.request ≡ []) × (result.since ≡ now) }
    {
        Client {
            stream,
            token,
            is_told: true,
            request: FirstRequest::new(alloc),
            since: now,
            end: None,
        }
    }

    /// Its connection.
    pub(crate) fn into_stream(self) -> TcpStream
        ensures { result ≡ self.stream }
    {
        self.stream
    }

    /// Since when it waits.
    pub(crate) fn since(&self) -> Instant
        ensures { result ≡ self.now.since }
    {
        self.since
    }

    /// When its time ends.
    pub(crate) fn end(&self) -> Option<Instant>
        ensures { result ≡ self.now.end }
    {
        self.end
    }

    /// What waits tell it by.
    pub(crate) fn token(&self) -> Token
        ensures { result ≡ self.now.token }
    {
        self.token
    }

    /// A wait told that it has sent something, or gone.
    pub(crate) fn tell(&mut self)
        ensures { self.new ≡ record self.old { is_told = true } }
    {
        self.is_told = true;
    }

    /// What has come of its request by now. It is read only where a wait told of it. It has so much time for its request from its first
    /// bytes on.
    pub(crate) fn receive(&mut self, alloc: Global, now: Instant, time: Duration) -> Arrival
        ensures whole { BeginsWhole result }
        ensures unread { self.old.is_told ≡ false → (self.new.stream ≡ self.old.stream) × (self.new.request ≡ self.old.request) }
        ensures once { self.new.is_told ≡ false }
    {
        match self.read(alloc) {
            Arrival::Part if self.is_late(now, time) => Arrival::Never,
            arrival => arrival,
        }
    }

    // Takes in what it has sent, where a wait told of it.
    fn read(&mut self, alloc: Global) -> Arrival
        ensures whole { BeginsWhole result }
        ensures unread { self.old.is_told ≡ false → (self.new.stream ≡ self.old.stream) × (self.new.request ≡ self.old.request) }
        ensures once { self.new.is_told ≡ false }
    {
        if !self.is_told {
            return Arrival::Part;
        }
        self.is_told = false;
        self.request.receive(alloc, &mut self.stream)
    }

    // Whether its time is over.
    fn is_late(&mut self, now: Instant, time: Duration) -> bool
        ensures { self.new ≡ record self.old { end = self.new.end } }
    {
        if self.request.is_empty() {
            return false;
        }
        if self.end.is_none() {
            self.end = now.checked_add(time);
        }
        match self.end {
            Some(end) => end <= now,
            None => true,
        }
    }
}
