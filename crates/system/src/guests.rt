// Guests: who has connected and hasn't shown the token yet, where there is one.
use crate::coordinator_socket::{Herald, nonce_from};
use crate::peer_sockets::{Origin, PeerSocket, PeerStream, waits};
use cmd_options::release;
use mio::{Interest, Registry, Token};
use peers::{Digits, Guest, Heard, Refusal};
use std::alloc::AllocError as NoMemory;
use std::collections::VecDeque;
use std::fmt;
use std::io::{self, ErrorKind, Read, Write};
use std::net::IpAddr;

// How many guests there are at most.
const MAX_GUESTS: usize = 50;

// How many seconds a guest has.
const MOST_SECONDS: u64 = 5;

// How many bytes of a guest are read at once.
const PIECE_BYTES: usize = 256;

// The names of guests among the sources of events: no peer has such a place.
const FIRST_NAME: usize = 1 << 62;

// Why a guest isn't let in.
#[derive(Clone, Copy)]
enum TurnedAway {
    Ended,
    Refused(Refusal),
    Late,
    Displaced,
}

impl fmt::Display for TurnedAway {
    fn fmt<W: fmt::Write>(&self, f: &mut fmt::Formatter<W>) -> fmt::Result {
        match self {
            TurnedAway::Ended => f.write_str("isn't let in: the connection ended"),
            TurnedAway::Refused(why) => write!(f, "isn't let in: {why}"),
            TurnedAway::Late => f.write_str("isn't let in: it showed no token within 5 seconds"),
            TurnedAway::Displaced => f.write_str(
                "isn't let in: it showed no token, and others wait",
            ),
        }
    }
}

// What a turn of a guest comes to.
#[derive(Drop)]
enum Turn {
    Waits,
    Away(TurnedAway),
    // The token is shown; this came behind it.
    In(Vec<u8>),
}

#[derive(Drop)]
struct GuestSocket {
    name: usize,
    stream: PeerStream,
    origin: Origin,
    guest: Guest,
    // the second in which it came
    since: u64,
}

impl GuestSocket {
    // What it has sent.
    fn hear(&mut self, token: &[u8], rt: &HostRuntime) -> Result<Turn, NoMemory> {
        let mut piece = [0; PIECE_BYTES];
        match self.stream.read(&mut piece) {
            Ok(0) => Ok(Turn::Away(TurnedAway::Ended)),
            Ok(count) => self.weigh(token, rt, &piece[..count]),
            Err(fault) if waits(&fault) => Ok(Turn::Waits),
            Err(_) => Ok(Turn::Away(TurnedAway::Ended)),
        }
    }

    // What a piece of it comes to.
    fn weigh(&mut self, token: &[u8], rt: &HostRuntime, piece: &[u8]) -> Result<Turn, NoMemory> {
        match self.guest.hear(token, release().as_bytes(), piece)? {
            Heard::More => Ok(Turn::Waits),
            Heard::Refused(why) => Ok(Turn::Away(TurnedAway::Refused(why))),
            Heard::Shown { taken, answer } => {
                if self.says(rt, &answer)? {
                    let rest = piece.get(taken..).unwrap_or_default();
                    Ok(Turn::In(Vec::from_slice(rt.alloc(), rest)?))
                } else {
                    Ok(Turn::Away(TurnedAway::Ended))
                }
            }
        }
    }

    // Whether it takes the coordinator's proof.
    fn says(&mut self, rt: &HostRuntime, answer: &Digits) -> Result<bool, NoMemory> {
        let mut line = Vec::from_slice(rt.alloc(), answer.as_slice())?;
        line.push(b'\n')?;
        match self.stream.write(&line) {
            Ok(count) => Ok(count == line.len()),
            Err(_) => Ok(false),
        }
    }
}

#[derive(Drop)]
pub(crate) struct Guests<'a> {
    rt: &'a HostRuntime,
    herald: Herald<'a>,
    token: Vec<u8>,
    // the oldest first
    sockets: VecDeque<GuestSocket>,
    // the names of those from whom there may be something to read, in turn
    ready: VecDeque<usize>,
    next_name: usize,
    second: u64,
}

// Whether a source of events is a guest.
pub(crate) fn is_guest(name: usize) -> bool {
    name >= FIRST_NAME
}

impl<'a> Guests<'a> {
    pub fn new(rt: &'a HostRuntime, herald: Herald<'a>, token: Vec<u8>) -> Guests<'a> {
        Guests {
            rt,
            herald,
            token,
            sockets: VecDeque::new(rt.alloc()),
            ready: VecDeque::new(rt.alloc()),
            next_name: FIRST_NAME,
            second: 0,
        }
    }

    // How many come from an address.
    pub fn count_from(&self, ip: IpAddr) -> usize {
        let mut count: usize = 0;
        for socket in self.sockets.iter() {
            if socket.origin.ip() == Some(ip) {
                count = count.saturating_add(1);
            }
        }
        count
    }

    // Whether something may have come.
    pub fn has_ready(&self) -> bool {
        !self.ready.is_empty()
    }

    // One has connected: it is said a number. Where there are too many, the oldest is turned away.
    pub fn welcome(
        &mut self,
        registry: &Registry,
        stream: PeerStream,
        origin: Origin,
    ) -> io::Result<()> {
        let mut stream = stream;
        let guest = Guest::new(self.rt.alloc(), nonce_from(self.rt)?);
        let line = guest.greeting(self.rt.alloc(), release().as_bytes())?;
        if stream.write(&line)? != line.len() {
            return Err(io::Error::from(ErrorKind::WriteZero));
        }
        let name = self.next_name;
        self.next_name = name.wrapping_add(1).max(FIRST_NAME);
        registry.register(&mut stream, Token(name), Interest::READABLE)?;
        if self.sockets.len() >= MAX_GUESTS {
            self.turn_away(0, TurnedAway::Displaced);
        }
        Ok(self.seat(GuestSocket {
            name,
            stream,
            origin,
            guest,
            since: self.second,
        })?)
    }

    fn seat(&mut self, socket: GuestSocket) -> Result<(), NoMemory> {
        self.sockets.push_back(socket)?;
        Ok(())
    }

    // Something may have come from the guest of this name.
    pub fn note(&mut self, name: usize) -> Result<(), NoMemory> {
        if !self.ready.contains(&name) {
            self.ready.push_back(name)?;
        }
        Ok(())
    }

    // Another second begins: those are turned away whose time is over.
    pub fn begin_second(&mut self, second: u64) {
        self.second = second;
        self.herald.begin_second();
        for _ in 0..MAX_GUESTS {
            if !self.is_oldest_late() {
                break;
            }
            self.turn_away(0, TurnedAway::Late);
        }
    }

    // Whether the time of the oldest is over, and nothing has come from it that wasn't read.
    fn is_oldest_late(&self) -> bool {
        match self.sockets.front() {
            Some(oldest) => {
                self.second.saturating_sub(oldest.since) > MOST_SECONDS
                    && !self.ready.contains(&oldest.name)
            }
            None => false,
        }
    }

    fn turn_away(&mut self, index: usize, why: TurnedAway) {
        if let Some(socket) = self.sockets.remove(index) {
            self.herald.warn(socket.origin, why);
        }
    }

    // Hears one guest that is ready, if there is one, and lets it in where it has shown the token.
    pub fn let_in(&mut self) -> Result<Option<PeerSocket>, NoMemory> {
        let Some(name) = self.ready.pop_front() else {
            return Ok(None);
        };
        let Some(index) = self.sockets.iter().position(|socket| socket.name == name) else {
            return Ok(None);
        };
        let Some(socket) = self.sockets.get_mut(index) else {
            return Ok(None);
        };
        match socket.hear(&self.token, self.rt)? {
            Turn::Waits => Ok(None),
            Turn::Away(why) => {
                self.turn_away(index, why);
                Ok(None)
            }
            Turn::In(first) => Ok(self.taken_out(index, first)),
        }
    }

    // A guest becomes a peer. It has said a line.
    fn taken_out(&mut self, index: usize, first: Vec<u8>) -> Option<PeerSocket> {
        let GuestSocket { stream, origin, .. } = self.sockets.remove(index)?;
        let mut socket = PeerSocket::of(stream, origin, first);
        socket.has_spoken = true;
        Some(socket)
    }
}
