ghost use Rattle.std.specs.Prelude.{◌≡◌, ◌<◌, ◌≤◌, ◌-◌, ◌+◌, ◌↔◌, [], IfOk, IfSome, IsTrue, length, vec_capacity};
ghost use Rattle.http_requests.specs.Streams.{BeginsWithRequest};

use crate::arrival::Arrival;
use crate::client::Client;
use mio::Token;
use mio::net::TcpStream;
use std::alloc::Global;
use std::time::{Duration, Instant};
use task_model::{OutOfMemory, Row};

// How many clients wait at once.
const MOST: usize = 256;

/// Clients whose first requests aren't there whole yet, in the order in which they came.
#[derive(Drop)]
pub(crate) struct WaitingClients {
    clients: Vec<Client>,
    // how many were told apart so far
    count: usize,
    ghost room: { 256 ≤ vec_capacity clients },
}

/// A connection, and the bytes that came of it: they begin with a whole request.
#[derive(Drop)]
pub(crate) struct ReadyClient {
    pub(crate) stream: TcpStream,
    pub(crate) received: Row<u8>,
}

impl WaitingClients {
    /// No client, and room for all that wait at once.
    pub(crate) fn new(alloc: Global) -> Result<WaitingClients, OutOfMemory>
        ensures { IfOk result (λ waiting. waiting.clients.items ≡ []) }
    {
        let mut clients = Vec::new(alloc);
        clients.reserve(MOST)?;
        Ok(WaitingClients { clients, count: 0 })
    }

    /// Whether no client waits.
    pub(crate) fn is_empty(&self) -> bool
        ensures { IsTrue result ↔ (self.now.clients.items ≡ []) }
    {
        self.clients.is_empty()
    }

    /// Whether no other one can wait.
    pub(crate) fn is_full(&self) -> bool
        ensures { IsTrue result ↔ (256 ≤ length self.now.clients.items) }
    {
        self.clients.len() >= MOST
    }

    /// What waits tell the next one by, which isn't 0.
    pub(crate) fn next_token(&mut self) -> Token
        ensures { self.new.clients ≡ self.old.clients }
    {
        self.count = self.count.checked_add(1).unwrap_or(1);
        Token(self.count)
    }

    /// A wait told that the client of this token has sent something, or gone.
    pub(crate) fn tell(&mut self, token: Token)
        ensures { length self.new.clients.items ≡ length self.old.clients.items }
    {
        let mut at = 0;
        while at < self.clients.len() {
            if self.clients[at].token() == token {
                self.clients[at].tell();
            }
            at += 1;
        }
    }

    /// Keeps another one. It takes no memory.
    pub(crate) fn keep(&mut self, client: Client)
        requires { length self.old.clients.items < 256 }
        ensures { length self.new.clients.items ≡ length self.old.clients.items + 1 }
    {
        self.clients.push_reserved(client);
    }

    /// Closes the one that has waited for longest.
    pub(crate) fn close_oldest(&mut self)
        ensures { length self.new.clients.items ≡ length self.old.clients.items - 1 }
    {
        if !self.clients.is_empty() {
            self.clients.remove(0);
        }
    }

    /// Takes in what those clients have sent of which a wait told, up to the first one whose request is there whole. Those whose requests
    /// never come are closed, and so are those whose time is over.
    pub(crate) fn take_ready(
        &mut self,
        alloc: Global,
        now: Instant,
        time: Duration,
    ) -> Option<ReadyClient>
        ensures { IfSome result (λ ready. BeginsWithRequest ready.received.list) }
    {
        let mut at = 0;
        while at < self.clients.len() {
            match self.clients[at].receive(alloc, now, time) {
                Arrival::Part => at += 1,
                Arrival::Whole(received) => {
                    let stream = self.clients.remove(at).into_stream();
                    return Some(ReadyClient { stream, received });
                }
                Arrival::Never => {
                    self.clients.remove(at);
                }
            }
        }
        None
    }

    /// How long the client has waited that came first.
    pub(crate) fn longest_wait(&self, now: Instant) -> Duration {
        match self.clients.first() {
            Some(client) => now.saturating_duration_since(client.since()),
            None => Duration::ZERO,
        }
    }

    /// How long it is until the first time of a client ends. None: no client's time does.
    pub(crate) fn time_left(&self, now: Instant) -> Option<Duration> {
        let mut first: Option<Instant> = None;
        for client in &self.clients {
            first = earlier(first, client.end());
        }
        Some(first?.saturating_duration_since(now))
    }
}

// The earlier one of two ends, of which there may be none.
fn earlier(one: Option<Instant>, other: Option<Instant>) -> Option<Instant> {
    match (one, other) {
        (Some(a), Some(b)) => Some(a.min(b)),
        (Some(end), None) | (None, Some(end)) => Some(end),
        (None, None) => None,
    }
}
