// One peer's socket, over TCP or at a socket file, and all of them as `Connections`: whence each comes, its turn, and why it leaves.
ghost use Rattle.std.specs.Prelude.{◌≤◌, IfOk, IfSome, length};

use crate::coordinator_socket::Herald;
use crate::listening::{Address, Listening};
use cmd_nodes::Admission;
use mio::event::Source;
use mio::{Interest, Registry, Token};
use peers::{Arrival, Connections, Dismissal, Dismissed};
use std::alloc::{AllocError as NoMemory, Global};
use std::collections::VecDeque;
use std::fmt;
use std::io::{self, ErrorKind, Read, Write};
use std::net::{IpAddr, SocketAddr};
use wire::Fault;

/// A socket over TCP, or at a socket file.
#[derive(Drop)]
pub enum Socket<T, U> {
    /// Over TCP.
    Tcp(T),
    /// At a socket file.
    Unix(U),
}

impl<T: Read, U: Read> Read for Socket<T, U> {
    fn read(&mut self, buf: &mut [u8]) -> io::Result<usize> {
        match self {
            Socket::Tcp(socket) => socket.read(buf),
            Socket::Unix(socket) => socket.read(buf),
        }
    }
}

impl<T: Write, U: Write> Write for Socket<T, U> {
    fn write(&mut self, buf: &[u8]) -> io::Result<usize> {
        match self {
            Socket::Tcp(socket) => socket.write(buf),
            Socket::Unix(socket) => socket.write(buf),
        }
    }

    fn flush(&mut self) -> io::Result<()> {
        match self {
            Socket::Tcp(socket) => socket.flush(),
            Socket::Unix(socket) => socket.flush(),
        }
    }
}

impl<T: Source, U: Source> Source for Socket<T, U> {
    fn register(
        &mut self,
        registry: &Registry,
        token: Token,
        interests: Interest,
    ) -> io::Result<()> {
        match self {
            Socket::Tcp(socket) => socket.register(registry, token, interests),
            Socket::Unix(socket) => socket.register(registry, token, interests),
        }
    }

    fn reregister(
        &mut self,
        registry: &Registry,
        token: Token,
        interests: Interest,
    ) -> io::Result<()> {
        match self {
            Socket::Tcp(socket) => socket.reregister(registry, token, interests),
            Socket::Unix(socket) => socket.reregister(registry, token, interests),
        }
    }

    fn deregister(&mut self, registry: &Registry) -> io::Result<()> {
        match self {
            Socket::Tcp(socket) => socket.deregister(registry),
            Socket::Unix(socket) => socket.deregister(registry),
        }
    }
}

#[derive(Clone, Copy)]
pub(crate) enum Origin {
    Address(SocketAddr),
    SocketFile,
}

impl Origin {
    // The address of its computer; none where it is this one, over a socket file.
    pub fn ip(&self) -> Option<IpAddr> {
        match self {
            Origin::Address(place) => Some(place.ip()),
            Origin::SocketFile => None,
        }
    }
}

impl fmt::Display for Origin {
    fn fmt<W: fmt::Write>(&self, f: &mut fmt::Formatter<W>) -> fmt::Result {
        match self {
            Origin::Address(place) => write!(f, "{place}"),
            Origin::SocketFile => f.write_str("one over the socket file"),
        }
    }
}

// How often in a second one is read that is told to come later, and nothing else: as often as an honest one has ids. That one
// waits before it asks again.
const MOST_PUT_OFF: u32 = 64;

// The places from which there may be something to read.
#[derive(Drop)]
pub(crate) struct Turns {
    // in turn
    ready: VecDeque<usize>,
    // those that are read again in the next second
    put_off: VecDeque<usize>,
}

impl Turns {
    pub fn new(alloc: Global) -> Turns {
        Turns {
            ready: VecDeque::new(alloc),
            put_off: VecDeque::new(alloc),
        }
    }

    // How many are to be read next.
    pub fn count(&self) -> usize {
        self.ready.len()
    }

    // Another second begins: those that were put off are read again.
    pub fn begin_second(&mut self) -> Result<(), NoMemory> {
        self.ready.append(&mut self.put_off)
    }

    // A peer is read in its turn, once.
    pub fn add(&mut self, place: usize, socket: &mut PeerSocket) -> Result<(), NoMemory> {
        if socket.is_ready {
            return Ok(());
        }
        if socket.put_offs < MOST_PUT_OFF {
            self.ready.push_back(place)?;
        } else {
            self.put_off.push_back(place)?;
        }
        socket.is_ready = true;
        Ok(())
    }

    // The place whose turn it is.
    pub fn next(&mut self) -> Option<usize> {
        self.ready.pop_front()
    }
}

#[derive(Clone, Copy)]
pub(crate) enum Leaving {
    // The peer has closed it.
    Ended,
    // The connection has failed.
    Failed,
    // The coordinator lets the peer go.
    Dismissed(Dismissal),
    // No line of it was whole for too long.
    Mute,
    // Nothing has come for too long.
    Silent,
    // Others wait, and of all it has been silent longest.
    Displaced,
    // A table may be granted to it, nothing comes from it, and others have none.
    Idle,
}

impl fmt::Display for Leaving {
    fn fmt<W: fmt::Write>(&self, f: &mut fmt::Formatter<W>) -> fmt::Result {
        match self {
            Leaving::Ended => f.write_str("is gone: it has closed the connection"),
            Leaving::Failed => f.write_str("is gone: the connection failed"),
            Leaving::Dismissed(why) => write!(f, "is gone: {why}"),
            Leaving::Mute => f.write_str("is gone: it sent no whole line within 10 seconds"),
            Leaving::Silent => f.write_str("is gone: nothing came for an hour"),
            Leaving::Displaced => f.write_str("is gone: it was silent longest, and others wait"),
            Leaving::Idle => f.write_str(
                "is gone: it has a table and was silent for 5 seconds, and for others there was none",
            ),
        }
    }
}

// A connection that never waits.
pub(crate) type PeerStream = Socket<mio::net::TcpStream, mio::net::UnixStream>;

// A peer's connection, and what is known of it.
#[derive(Drop)]
pub(crate) struct PeerSocket {
    pub stream: PeerStream,
    pub origin: Origin,
    // What came behind the line by which it was let in, and is handed over first.
    pub first: Vec<u8>,
    // Fewer bytes were taken than were given: nothing is read until more are.
    pub is_full: bool,
    // Whether the peer stands among those that are read next.
    pub is_ready: bool,
    // Why it is closed in its next turn.
    pub leaving: Option<Leaving>,
    // The second in which it came.
    pub since: u64,
    // The second in which something came from it last; before that, the one in which it came.
    pub heard: u64,
    // Whether a line of it was whole.
    pub has_spoken: bool,
    // Whether it was told anything but to come later: it may have been granted a table.
    pub was_served: bool,
    // How often in this second it was told nothing else.
    pub put_offs: u32,
}

impl PeerSocket {
    pub fn of(stream: PeerStream, origin: Origin, first: Vec<u8>) -> PeerSocket {
        PeerSocket {
            stream,
            origin,
            first,
            is_full: false,
            is_ready: false,
            leaving: None,
            since: 0,
            heard: 0,
            has_spoken: false,
            was_served: false,
            put_offs: 0,
        }
    }

    // So many bytes have come; none where they have to be waited for.
    pub fn read(&mut self, buf: &mut [u8], second: u64) -> Result<Option<usize>, Leaving>
        ensures { IfOk result (λ count. IfSome count (λ count. count ≤ length buf.new)) }
    {
        if !self.first.is_empty() {
            return Ok(Some(self.take_first(buf)));
        }
        match self.stream.read(buf) {
            Ok(0) => Err(Leaving::Ended),
            Ok(count) => {
                self.note(&buf[..count], second);
                Ok(Some(count))
            }
            Err(fault) if waits(&fault) => Ok(None),
            Err(_) => Err(Leaving::Failed),
        }
    }

    // What came behind the line by which it was let in.
    fn take_first(&mut self, buf: &mut [u8]) -> usize
        ensures { result ≤ length buf.new }
    {
        let count = self.first.len().min(buf.len());
        buf[..count].copy_from_slice(&self.first[..count]);
        let _ = self.first.drain(..count);
        count
    }

    // Remembers that something has come.
    fn note(&mut self, piece: &[u8], second: u64) {
        self.heard = second;
        if !self.has_spoken {
            self.has_spoken = piece.contains(&b'\n');
        }
    }

    // Writes as much as it takes without being waited for, and says how many bytes that are. The system says that it takes
    // bytes again only of a socket that has refused some.
    pub fn write_all_now(&mut self, bytes: &[u8]) -> io::Result<usize>
        ensures { IfOk result (λ count. count ≤ length bytes.now) }
    {
        let mut written = 0;
        'writes: while written < bytes.len() {
            match self.stream.write(&bytes[written..]) {
                Ok(0) => return Err(io::Error::from(ErrorKind::WriteZero)),
                Ok(count) => written += count,
                Err(fault) if waits(&fault) => {
                    self.is_full = true;
                    break;
                }
                Err(fault) => return Err(fault),
            }
        }
        Ok(written)
    }
}

// Whether a socket would have to be waited for.
pub(crate) fn waits(fault: &io::Error) -> bool {
    matches!(fault.kind(), ErrorKind::WouldBlock | ErrorKind::Interrupted)
}

/// The peers that connect at an address, 1,000 at most at once, and so many from one address. None of them is waited
/// for, each is read in its turn, and nothing is read from one that doesn't take what it is sent; one that was told
/// 64 times in a second to come later, and nothing else, is read again in the next. Each second is said once. Where
/// there is a token, only those are peers that have shown it. One whose first line doesn't come within ten seconds is
/// gone, and so is one of whom nothing comes for an hour; where all places are taken and others wait, the one that
/// was silent longest, for a minute at least, makes room.
#[derive(Drop)]
pub struct PeerSockets<'a> {
    listening: Listening<'a>,
    failures: u64,
    dismissed: Option<Dismissed>,
}

impl<'a> PeerSockets<'a> {
    /// Listens at an address. A socket file at which nobody listens any more is made anew; whatever else stands at the path of
    /// one stays, and is an error.
    pub(crate) fn at(
        rt: &'a HostRuntime,
        herald: Herald<'a>,
        address: Address<'_>,
        admission: Admission,
    ) -> io::Result<PeerSockets<'a>> {
        Ok(PeerSockets {
            listening: Listening::at(rt, herald, address, admission)?,
            failures: 0,
            dismissed: None,
        })
    }

    /// The address and the port at which it listens; an error where it is a socket file.
    pub fn place(&self) -> io::Result<SocketAddr> {
        self.listening.place()
    }
}

impl<'a> Connections for PeerSockets<'a> {
    ghost use Rattle.std.specs.Prelude.{None};

    ghost arrived = { λ sockets. None };

    ghost sent = { λ sockets place. None };

    // Of how much a socket takes nothing is known.
    ghost takes = { λ sockets place bytes count. Unit {0} };

    ghost failures = { λ sockets. sockets.failures };

    ghost dismissed = { λ sockets. sockets.dismissed };

    fn next_arrival(&mut self, buf: &mut [u8]) -> Result<Arrival, Fault> {
        if let Ok(Some(arrival)) = self.listening.next(buf) {
            return Ok(arrival);
        }
        self.failures = self.failures.wrapping_add(1);
        Err(Fault)
    }

    fn send(&mut self, place: usize, bytes: &[u8]) -> usize {
        self.listening.send(place, bytes)
    }

    fn dismiss(&mut self, place: usize, why: Dismissal) {
        self.listening.dismiss(place, why);
        self.dismissed = Some(Dismissed { place, why });
    }
}
