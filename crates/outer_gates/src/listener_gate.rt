ghost use Rattle.std.specs.Prelude.{◌≡◌, ◌≤◌, [], false, IfOk, IfSome};
ghost use Rattle.outer_io.specs.Causes.{Rose};
ghost use Rattle.outer_io.specs.PlainSource.{left_of};
ghost use Rattle.outer_io.specs.StreamLinks.{told_over_stream};
ghost use Rattle.http_requests.specs.Streams.{BeginsWithRequest};
ghost use Rattle.outer_gates.specs.Gates.{Accepts, IfLink, faults_after_accept, told_by_listener};
ghost use Rattle.outer_gates.specs.ReceivedLinks.{is_closed};

use crate::accept::Accept;
use crate::client::Client;
use crate::gate::Gate;
use crate::received_link::ReceivedLink;
use crate::waiting_clients::{ReadyClient, WaitingClients};
use mio::net::{TcpListener, TcpStream};
use mio::{Events, Interest, Poll, Token};
use outer_io::{LinkTimes, StreamLink};
use std::alloc::Global;
use std::io::ErrorKind;
use std::net::Net;
use std::time::{Clock, Duration, Instant};
use std::{io, net};
use task_model::OutOfMemory;

// How often in a row a client may go away before it was accepted.
const ABORTS: u32 = 1000;

// How many events one wait tells at most. Nothing hangs on it.
const EVENTS: usize = 64;

// How long in milliseconds a client has at least to send its first request, where too many files are open, before it is closed for
// another one.
const PAUSE: u64 = 50;

// The socket that listens, in what waits tell.
const LISTENER: Token = Token(0);

// The numbers of the system's errors: the system has too many open files (ENFILE), and the process has (EMFILE).
const FILES_OF_ALL: i32 = 23;

const FILES_OF_ONE: i32 = 24;

/// Why a gate over a socket wasn't made.
#[derive(Clone, Copy, Debug, PartialEq, Eq)]
pub enum GateStop {
    /// The system refused it.
    Failed,
    /// Memory ran out.
    Memory,
}

impl From<OutOfMemory> for GateStop {
    fn from(_: OutOfMemory) -> GateStop {
        GateStop::Memory
    }
}

/// A gate over a socket of the system that listens. It tells its count alone, and never answers `Closed`.
///
/// A link is handed out once its first request is there whole. Until then its client costs a place among 256 and the memory of what
/// it has sent, and no more. It is read when it comes, and when a wait tells of it. It is closed where that request never comes: it goes,
/// its time for it is over, or there is no memory for it. Where all places are taken and another client comes, the client that has waited for longest is closed; and so it is where too
/// many files are open, once it has waited for 50 milliseconds. None of these is a link or a fault, nor is a client that goes before it
/// was accepted, up to 1,000 in a row. All else that the system refuses is a fault.
#[derive(Drop)]
pub struct ListenerGate<'r, R: Clock> {
    listener: TcpListener,
    poll: Poll,
    events: Events,
    waiting: WaitingClients,
    alloc: Global,
    clock: &'r R,
    first: Duration,
    times: LinkTimes,
    faults: u64,
}

// What was taken in.
#[derive(Clone, Copy, Debug, PartialEq, Eq)]
enum Admitted {
    // Nobody else waits to be accepted.
    All,
    // There is no place for another one.
    Full,
    // Too many files are open for another one.
    NoFile,
    // The system refused something.
    Failed,
}

impl<'r, R: Clock> ListenerGate<'r, R> {
    /// A gate over this socket, of which no call failed yet. A client has `first` for its first request. The links have these times
    /// behind it.
    pub fn new<N: Net>(
        net: &N,
        alloc: Global,
        listener: net::TcpListener,
        clock: &'r R,
        first: Duration,
        times: LinkTimes,
    ) -> Result<ListenerGate<'r, R>, GateStop>
        ensures faults { IfOk result (λ gate. gate.faults ≡ 0) }
        ensures times { IfOk result (λ gate. (gate.first ≡ first) × (gate.times ≡ times)) }
    {
        let waiting = WaitingClients::new(alloc)?;
        let Ok(events) = Events::with_capacity(alloc, EVENTS) else {
            return Err(GateStop::Memory);
        };
        let Ok((listener, poll)) = watch(net, listener) else {
            return Err(GateStop::Failed);
        };
        Ok(ListenerGate {
            listener,
            poll,
            events,
            waiting,
            alloc,
            clock,
            first,
            times,
            faults: 0,
        })
    }

    // The next client, if one waits to be accepted.
    fn next_client(&self) -> io::Result<Option<TcpStream>> {
        for _ in 0..ABORTS {
            match self.listener.accept() {
                Ok((stream, _)) => return Ok(Some(stream)),
                Err(error) if error.kind() == ErrorKind::WouldBlock => return Ok(None),
                Err(error) if error.kind() == ErrorKind::ConnectionAborted => {}
                Err(error) => return Err(error),
            }
        }
        Err(io::Error::from(ErrorKind::ConnectionAborted))
    }

    // Takes in the clients that wait to be accepted, as long as there is room.
    fn admit(&mut self, now: Instant) -> Admitted
        ensures { (self.new.faults ≡ self.old.faults) × (self.new.first ≡ self.old.first) × (self.new.times ≡ self.old.times) }
    {
        for _ in 0..u64::MAX {
            if self.waiting.is_full() {
                return Admitted::Full;
            }
            match self.next_client() {
                Ok(Some(mut stream)) => {
                    let token = self.waiting.next_token();
                    if self.watch_client(&mut stream, token).is_err() {
                        return Admitted::Failed;
                    }
                    self.waiting
                        .keep(Client::new(self.alloc, stream, token, now));
                }
                Ok(None) => return Admitted::All,
                Err(error) if are_too_many_files(&error) => return Admitted::NoFile,
                Err(_) => return Admitted::Failed,
            }
        }
        Admitted::Failed
    }

    // Has waits end, and tell this token, when this client sends something or goes.
    fn watch_client(&self, stream: &mut TcpStream, token: Token) -> io::Result<()> {
        self.poll
            .registry()
            .register(stream, token, Interest::READABLE)
    }

    // The first client whose first request is there whole. It waits for one. None: the system refused something.
    fn next_ready(&mut self) -> Option<ReadyClient>
        ensures stays { (self.new.faults ≡ self.old.faults) × (self.new.first ≡ self.old.first) × (self.new.times ≡ self.old.times) }
        ensures ready { IfSome result (λ ready. BeginsWithRequest ready.received.list) }
    {
        // Who has sent something by now is read, though others come all the time.
        self.wait(Some(Duration::ZERO))?;
        for _ in 0..u64::MAX {
            let now = Instant::now(self.clock).ok()?;
            let admitted = self.admit(now);
            if let Some(ready) = self.waiting.take_ready(self.alloc, now, self.first) {
                return Some(ready);
            }
            self.make_room(admitted, now)?;
        }
        None
    }

    // Waits, or closes a client, so that more can be taken in. None: the system refused something.
    fn make_room(&mut self, admitted: Admitted, now: Instant) -> Option<()>
        ensures { (self.new.faults ≡ self.old.faults) × (self.new.first ≡ self.old.first) × (self.new.times ≡ self.old.times) }
    {
        match admitted {
            Admitted::All => {
                let time = self.waiting.time_left(now);
                self.wait(time)
            }
            Admitted::Full => {
                self.waiting.close_oldest();
                Some(())
            }
            Admitted::NoFile => self.wait_for_file(now),
            Admitted::Failed => None,
        }
    }

    // Waits until a client comes, sends something or goes, or so much time is over. None: the system refused it.
    fn wait(&mut self, time: Option<Duration>) -> Option<()>
        ensures { (self.new.faults ≡ self.old.faults) × (self.new.first ≡ self.old.first) × (self.new.times ≡ self.old.times) }
    {
        self.poll.poll(&mut self.events, time).ok()?;
        tell_all(&self.events, &mut self.waiting);
        Some(())
    }

    // Waits for a file, where too many are open; or closes the client that has waited for longest, where it had some time and another
    // one waits to be accepted. None: the system refused something.
    fn wait_for_file(&mut self, now: Instant) -> Option<()>
        ensures { (self.new.faults ≡ self.old.faults) × (self.new.first ≡ self.old.first) × (self.new.times ≡ self.old.times) }
    {
        let pause = Duration::from_millis(PAUSE);
        let left = pause.saturating_sub(self.waiting.longest_wait(now));
        if !left.is_zero() {
            return self.wait(Some(left));
        }
        if self.is_asked()? {
            self.waiting.close_oldest();
            return Some(());
        }
        if self.events.is_empty() {
            self.wait(Some(pause))
        } else {
            Some(())
        }
    }

    // Whether a client waits to be accepted. None: the system refused something.
    fn is_asked(&mut self) -> Option<bool>
        ensures { (self.new.faults ≡ self.old.faults) × (self.new.first ≡ self.old.first) × (self.new.times ≡ self.old.times) }
    {
        // A socket that is registered anew is told where a client waits now, not only where another one comes.
        self.poll
            .registry()
            .reregister(&mut self.listener, LISTENER, Interest::READABLE)
            .ok()?;
        self.wait(Some(Duration::ZERO))?;
        Some(self.events.iter().any(|event| event.token() == LISTENER))
    }

    // The link of a client, of which no wait tells any more. None: the system refused it.
    fn link(&self, ready: ReadyClient) -> Option<ReceivedLink<'r, R>>
        ensures { IfSome result (λ l. (left_of l.received ≡ ready.received.list) × (l.read_faults ≡ 0) × (l.write_faults ≡ 0)
            × (is_closed l.connection ≡ false)) }
    {
        let ReadyClient {
            mut stream,
            received,
        } = ready;
        self.poll.registry().deregister(&mut stream).ok()?;
        let stream = net::TcpStream::from(stream);
        stream.set_nonblocking(false).ok()?;
        let link = StreamLink::new(stream, self.clock, self.times);
        Some(ReceivedLink::new(received, link))
    }

    // The link of the first client whose first request is there whole. None: the system refused something.
    fn next_link(&mut self) -> Option<ReceivedLink<'r, R>>
        ensures stays { (self.new.faults ≡ self.old.faults) × (self.new.first ≡ self.old.first) × (self.new.times ≡ self.old.times) }
        ensures link { IfSome result (λ l. BeginsWithRequest (left_of l.received) × (l.read_faults ≡ 0) × (l.write_faults ≡ 0)
            × (is_closed l.connection ≡ false)) }
    {
        let ready = self.next_ready()?;
        self.link(ready)
    }
}

// Tells the clients of which a wait told that they have sent something, or gone.
fn tell_all(events: &Events, waiting: &mut WaitingClients) {
    for event in events.iter() {
        waiting.tell(event.token());
    }
}

// Whether an error says that too many files are open.
fn are_too_many_files(error: &io::Error) -> bool {
    matches!(error.raw_os_error(), Some(FILES_OF_ALL | FILES_OF_ONE))
}

// A socket whose `accept` doesn't wait, and waits that end when a client comes.
fn watch<N: Net>(net: &N, listener: net::TcpListener) -> io::Result<(TcpListener, Poll)> {
    listener.set_nonblocking(true)?;
    let mut listener = TcpListener::from_std(listener);
    let poll = Poll::new(net)?;
    poll.registry()
        .register(&mut listener, LISTENER, Interest::READABLE)?;
    Ok((listener, poll))
}

impl<'r, R: Clock + Sync> Gate for ListenerGate<'r, R> {
    ghost use Rattle.std.specs.Prelude.{refl};

    type Link = ReceivedLink<'r, R>;

    ghost told = { λ g. told_by_listener g.faults };

    ghost tells = { λ l. told_over_stream l.read_faults l.write_faults (is_closed l.connection) };

    fn accept(&mut self) -> Accept<ReceivedLink<'r, R>>
        ensures links { Accepts (λ l. told_over_stream l.read_faults l.write_faults (is_closed l.connection)) (told_by_listener self.old.faults)
            (told_by_listener self.new.faults) result }
        ensures count { self.old.faults ≤ self.new.faults }
        ensures failed { result ≡ Accept.Failed → Rose self.old.faults self.new.faults }
        ensures exact { self.new.faults ≡ faults_after_accept self.old.faults result }
        ensures open { result ≡ Accept.Closed → ⊥ }
        ensures times { (self.new.first ≡ self.old.first) × (self.new.times ≡ self.old.times) }
        ensures ready { IfLink result (λ l. BeginsWithRequest (left_of l.received)) }
    {
        match self.next_link() {
            Some(link) => Accept::Link(link),
            None => {
                self.faults = self.faults.saturating_add(1);
                Accept::Failed
            }
        }
    }

    fn finish(&mut self, _link: ReceivedLink<'r, R>)
        ensures { self.new ≡ self.old }
    {}

    ghost tells_links = { λ l. refl };
}
