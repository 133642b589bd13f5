// Where a coordinator listens, what waits for connections, and the sockets of the peers that were accepted.
ghost use Rattle.std.specs.Prelude.{◌≤◌, IfOk, IfSome, length};
ghost use Rattle.peers.specs.Terms.{FitsIn};

use crate::coordinator_socket::Herald;
use crate::guests::{Guests, is_guest};
use crate::peer_sockets::{Leaving, Origin, PeerSocket, PeerStream, Socket};
use crate::places::Places;
use crate::watched_files::Seconds;
use cmd_nodes::Admission;
use mio::{Events, Interest, Poll, Token};
use peers::{Arrival, Dismissal};
use std::fs;
use std::io::{self, ErrorKind};
use std::net::{self, Ipv4Addr, SocketAddr};
use std::os::unix::fs::FileTypeExt;
use std::os::unix::net::UnixStream;
use std::time::Duration;

/// Where a coordinator listens, and workers connect with it.
#[derive(Clone, Copy, Debug, PartialEq, Eq)]
pub enum Address<'a> {
    /// A host, by name or number, and a port, as in `example.org:7007`.
    Host(&'a str),
    /// A port of this computer, 127.0.0.1.
    Port(u16),
    /// The path of a socket file.
    File(&'a str),
    /// A number that is no port.
    NoPort,
}

impl<'a> Address<'a> {
    /// The address that a text names: a path where it has a `/`, a port where it is a number.
    pub fn of(text: &'a str) -> Address<'a> {
        if text.contains('/') {
            return Address::File(text);
        }
        match text.parse::<u16>() {
            Ok(port) => Address::Port(port),
            Err(_) if text.bytes().all(|byte| byte.is_ascii_digit()) => Address::NoPort,
            Err(_) => Address::Host(text),
        }
    }

    /// Whether any port will do: the system picks one for port 0.
    pub fn has_any_port(&self) -> bool {
        match self {
            Address::Host(host) => host.ends_with(":0"),
            Address::Port(port) => *port == 0,
            Address::File(_) | Address::NoPort => false,
        }
    }
}

// A listener whose `accept` doesn't wait.
pub(crate) type Listener = Socket<mio::net::TcpListener, mio::net::UnixListener>;

impl Listener {
    // Listens at an address. A socket file that nobody listens at any more is made anew.
    pub(crate) fn at(rt: &HostRuntime, address: Address<'_>) -> io::Result<Listener> {
        match address {
            Address::Host(host) => Listener::over(net::TcpListener::bind(rt, host)?),
            Address::Port(port) => {
                Listener::over(net::TcpListener::bind(rt, (Ipv4Addr::LOCALHOST, port))?)
            }
            Address::NoPort => Err(io::Error::other("a port is 1 to 65535")),
            Address::File(path) => {
                remove_left_over(rt, path)?;
                Ok(Socket::Unix(mio::net::UnixListener::bind(rt, path)?))
            }
        }
    }

    fn over(listener: net::TcpListener) -> io::Result<Listener> {
        listener.set_nonblocking(true)?;
        Ok(Socket::Tcp(mio::net::TcpListener::from_std(listener)))
    }

    // The address and the port at which it listens; an error of a socket file.
    pub(crate) fn place(&self) -> io::Result<SocketAddr> {
        match self {
            Socket::Tcp(listener) => listener.local_addr(),
            Socket::Unix(_) => Err(io::Error::from(ErrorKind::Unsupported)),
        }
    }

    // The connection that has waited longest; `WouldBlock` where none waits.
    pub(crate) fn accept(&self) -> io::Result<(PeerStream, Origin)> {
        match self {
            Socket::Tcp(listener) => {
                let (stream, place) = listener.accept()?;
                // What is written goes out at once: answers aren't held back until the last is acknowledged.
                stream.set_nodelay(true)?;
                Ok((Socket::Tcp(stream), Origin::Address(place)))
            }
            Socket::Unix(listener) => {
                let (stream, _) = listener.accept()?;
                Ok((Socket::Unix(stream), Origin::SocketFile))
            }
        }
    }
}

// Removes the socket file of a listener that is gone: nobody answers at it. Whatever else stands there stays: of a file that is
// no socket, and of a link, a connection is refused too.
fn remove_left_over(rt: &HostRuntime, path: &str) -> io::Result<()> {
    match fs::symlink_metadata(rt, path) {
        Ok(found) if found.file_type().is_socket() => remove_unheard(rt, path),
        Ok(_) => Err(io::Error::other("what stands there is no socket")),
        Err(fault) if fault.kind() == ErrorKind::NotFound => Ok(()),
        Err(fault) => Err(fault),
    }
}

// Removes a socket file, unless somebody listens at it.
fn remove_unheard(rt: &HostRuntime, path: &str) -> io::Result<()> {
    match UnixStream::connect(rt, path) {
        Err(fault) if fault.kind() == ErrorKind::ConnectionRefused => fs::remove_file(rt, path),
        Err(fault) => Err(fault),
        Ok(_) => Err(io::Error::from(ErrorKind::AddrInUse)),
    }
}

// How many peers there are at most.
const MAX_PEERS: usize = 1_000;

// How many events of sockets are taken at once.
const EVENTS: usize = 1_024;

// After how many turns the system is asked at the latest what is new.
const MOST_TURNS: usize = 64;

// The listener's name among the sources of events; no peer has this place.
const LISTENER_TOKEN: Token = Token(usize::MAX);

#[derive(Drop)]
pub(crate) struct Listening<'a> {
    rt: &'a HostRuntime,
    poll: Poll,
    events: Events,
    listener: Listener,
    // whether connections may wait to be accepted
    is_asked: bool,
    // whether a peer came in the last turn, so that in this one nobody is let in
    has_let_in: bool,
    // how many turns are left in this round
    turns: usize,
    places: Places<'a>,
    // none where anyone may come
    guests: Option<Guests<'a>>,
    per_address: usize,
    herald: Herald<'a>,
    seconds: Seconds<'a>,
}

impl<'a> Listening<'a> {
    pub fn at(
        rt: &'a HostRuntime,
        herald: Herald<'a>,
        address: Address<'_>,
        admission: Admission,
    ) -> io::Result<Listening<'a>> {
        let poll = Poll::new(rt)?;
        let mut listener = Listener::at(rt, address)?;
        poll.registry()
            .register(&mut listener, LISTENER_TOKEN, Interest::READABLE)?;
        let Admission { token, per_address } = admission;
        Ok(Listening {
            rt,
            poll,
            events: Events::with_capacity(rt.alloc(), EVENTS)?,
            listener,
            is_asked: true,
            has_let_in: false,
            turns: 0,
            places: Places::new(rt.alloc(), herald),
            guests: guests_of(rt, herald, token),
            per_address: usize::try_from(per_address).unwrap_or(MAX_PEERS),
            herald,
            seconds: Seconds::new(rt)?,
        })
    }

    // The address and the port at which it listens.
    pub fn place(&self) -> io::Result<SocketAddr> {
        self.listener.place()
    }

    // What comes next.
    pub fn next(&mut self, buf: &mut [u8]) -> io::Result<Option<Arrival>>
        ensures { IfOk result (λ arrival. IfSome arrival (FitsIn (length buf.new))) }
    {
        for _ in 0..u64::MAX {
            if self.turns == 0 && self.has_more() {
                self.ask(Duration::ZERO)?;
            }
            self.turns = self.turns.saturating_sub(1);
            if let Some(arrival) = self.turn(buf)? {
                return Ok(Some(arrival));
            }
            if !self.has_more() {
                let rest = self.seconds.rest()?;
                self.ask(rest)?;
            }
        }
        Ok(None)
    }

    // Whether there may be something at hand.
    fn has_more(&self) -> bool {
        let has_guests = match &self.guests {
            Some(guests) => guests.has_ready(),
            None => false,
        };
        self.is_asked || has_guests || self.places.has_ready()
    }

    // What has come, where nothing has to be waited for: at most one peer is let in before one is read.
    fn turn(&mut self, buf: &mut [u8]) -> io::Result<Option<Arrival>>
        ensures { IfOk result (λ arrival. IfSome arrival (FitsIn (length buf.new))) }
    {
        if let Some(second) = self.seconds.next()? {
            self.begin_second(second)?;
            return Ok(Some(Arrival::Passed(second)));
        }
        if !self.has_let_in && (self.accepts()? || self.lets_in()?) {
            self.has_let_in = true;
            return Ok(Some(Arrival::Opened));
        }
        self.has_let_in = false;
        if let Some(room) = self.places.next_room() {
            return Ok(Some(room));
        }
        let arrival = self.places.read_next(buf)?;
        if let Some(Arrival::Gone { .. }) = &arrival {
            // A place is free.
            self.is_asked = true;
        }
        Ok(arrival)
    }

    fn begin_second(&mut self, second: u64) -> io::Result<()> {
        // Nobody is late whose bytes have come.
        self.ask(Duration::ZERO)?;
        // A connection that couldn't be accepted is tried again.
        self.is_asked = true;
        self.herald.begin_second();
        if let Some(guests) = &mut self.guests {
            guests.begin_second(second);
        }
        Ok(self.places.begin_second(second)?)
    }

    // Accepts a connection that waits, if there is one. Whether it is a peer.
    fn accepts(&mut self) -> io::Result<bool> {
        if !self.is_asked {
            return Ok(false);
        }
        if self.places.is_calm() {
            self.is_asked = false;
            return Ok(false);
        }
        if self.guests.is_none() && self.is_full()? {
            self.is_asked = false;
            return Ok(false);
        }
        let Ok((stream, origin)) = self.listener.accept() else {
            self.is_asked = false;
            return Ok(false);
        };
        if self.has_enough_from(&origin) {
            self.herald.say(
                origin,
                "isn't let in: too many come from there (--per-address)",
            );
            return Ok(false);
        }
        match &mut self.guests {
            Some(guests) => {
                // One that can't be kept is closed again.
                let _ = guests.welcome(self.poll.registry(), stream, origin);
                Ok(false)
            }
            None => Ok(self.seats(
                PeerSocket::of(stream, origin, Vec::new(self.rt.alloc())),
                false,
            )),
        }
    }

    // Lets in a guest that shows the token, if there is one. Whether there is.
    fn lets_in(&mut self) -> io::Result<bool> {
        let newcomer = match &mut self.guests {
            Some(guests) => guests.let_in()?,
            None => None,
        };
        match newcomer {
            Some(socket) if self.is_full()? => {
                self.herald
                    .say(socket.origin, "isn't let in: no place is free");
                Ok(false)
            }
            Some(socket) => Ok(self.seats(socket, true)),
            None => Ok(false),
        }
    }

    // Whether no place is free. One that was silent for long is ended then.
    fn is_full(&mut self) -> io::Result<bool> {
        if self.places.count() < MAX_PEERS {
            return Ok(false);
        }
        self.places.displace()?;
        Ok(true)
    }

    // Whether no more may come from there.
    fn has_enough_from(&self, origin: &Origin) -> bool {
        let Some(ip) = origin.ip() else {
            return false;
        };
        let guests = match &self.guests {
            Some(guests) => guests.count_from(ip),
            None => 0,
        };
        self.places.count_from(ip).saturating_add(guests) >= self.per_address
    }

    // Gives a peer the next place. One that can't be kept is closed again.
    fn seats(&mut self, socket: PeerSocket, is_known: bool) -> bool {
        let Ok(mut socket) = Box::new(self.rt.alloc(), socket) else {
            return false;
        };
        let name = Token(self.places.next_place());
        let interests = Interest::READABLE | Interest::WRITABLE;
        let registry = self.poll.registry();
        let registered = if is_known {
            registry.reregister(&mut socket.stream, name, interests)
        } else {
            registry.register(&mut socket.stream, name, interests)
        };
        registered.is_ok() && self.places.open(socket).is_ok()
    }

    // Asks the system what is new, and waits so long for it at most. Another round begins.
    fn ask(&mut self, wait: Duration) -> io::Result<()> {
        self.poll.poll(&mut self.events, Some(wait))?;
        for event in self.events.iter() {
            let token = event.token();
            if token == LISTENER_TOKEN {
                self.is_asked = true;
            } else if is_guest(token.0) {
                if let Some(guests) = &mut self.guests {
                    guests.note(token.0)?;
                }
            } else {
                self.places.note(token.0, event)?;
            }
        }
        self.turns = self.places.ready_count().max(1).min(MOST_TURNS);
        Ok(())
    }

    // As `Places::send`.
    pub fn send(&mut self, place: usize, bytes: &[u8]) -> usize
        ensures { result ≤ length bytes.now }
    {
        self.places.send(place, bytes)
    }

    // The peer at a place is gone in its next turn.
    pub fn dismiss(&mut self, place: usize, why: Dismissal) {
        // Where memory is refused, it is gone once something comes from it.
        let _ = self.places.leave(place, Leaving::Dismissed(why));
    }
}

// Guests are kept where there is a token.
fn guests_of<'a>(
    rt: &'a HostRuntime,
    herald: Herald<'a>,
    token: Option<Vec<u8>>,
) -> Option<Guests<'a>> {
    Some(Guests::new(rt, herald, token?))
}
