// A worker's connection with its coordinator, the token that is shown there, and `Herald`, who says a few lines a second.
use crate::listening::Address;
use crate::named::Failures;
use crate::peer_sockets::Socket;
use crate::watched_files::Watch;
use cmd_nodes::{CoordinatorCaller, Destination};
use cmd_options::release;
use peers::{Digits, MAX_GUEST_BYTES, greeted, is_answer, letter, nonce_of};
use std::alloc::AllocError as NoMemory;
use std::fmt;
use std::io::{self, ErrorKind, IsTerminal, Read, Write};
use std::net::{Ipv4Addr, TcpStream};
use std::os::unix::net::UnixStream;
use std::random::RandomSource;
use std::time::{Duration, Instant};

// How many lines are said in a second at most.
const MOST_LINES: u32 = 20;

// Says it on standard error, and not too much of it.
#[derive(Clone, Copy)]
pub(crate) struct Herald<'a> {
    rt: &'a HostRuntime,
    watch: &'a Watch,
    // whether all is said, or only who is turned away
    says_all: bool,
    // how many lines were said in this second
    said: u32,
    // and how many weren't
    unsaid: u32,
}

impl<'a> Herald<'a> {
    pub fn new(rt: &'a HostRuntime, watch: &'a Watch, says_all: bool) -> Herald<'a> {
        Herald {
            rt,
            watch,
            says_all,
            said: 0,
            unsaid: 0,
        }
    }

    // Another second begins.
    pub fn begin_second(&mut self) {
        let unsaid = self.unsaid;
        self.said = 0;
        self.unsaid = 0;
        if unsaid > 0 {
            // What can't be said for want of memory isn't.
            let _ = self.write(unsaid, "more came or went");
        }
    }

    // Says what became of somebody, where all is said.
    pub fn say<T: fmt::Display + Drop, V: fmt::Display + Drop>(&mut self, who: T, what: V) {
        if self.says_all {
            self.warn(who, what);
        }
    }

    // Says it in any case.
    pub fn warn<T: fmt::Display + Drop, V: fmt::Display + Drop>(&mut self, who: T, what: V) {
        if self.said >= MOST_LINES {
            self.unsaid = self.unsaid.saturating_add(1);
            return;
        }
        self.said = self.said.saturating_add(1);
        let _ = self.write(who, what);
    }

    fn write<T: fmt::Display + Drop, V: fmt::Display + Drop>(
        &self,
        who: T,
        what: V,
    ) -> Result<(), NoMemory> {
        let line = format!(in self.rt.alloc(); "{who} {what}\n")?;
        self.watch.clear(self.rt);
        // Nothing hangs on whether it can be said.
        let _ = self.rt.stderr().write_all(line.as_bytes());
        Ok(())
    }
}

// How long the coordinator has for each of its lines, in seconds.
const MOST_SECONDS: u64 = 5;

/// Shows a coordinator the token, and sees that it has it too.
pub(crate) fn show_token(
    rt: &HostRuntime,
    stream: &mut CoordinatorStream,
    token: &[u8],
) -> io::Result<()> {
    let theirs = greeting_of(rt, stream)?;
    let ours = nonce_from(rt)?;
    let line = letter(rt.alloc(), token, release().as_bytes(), &theirs, &ours)?;
    stream.write_all(&line)?;
    match line_from(rt, stream)? {
        Some(answer) if is_answer(token, &theirs, &ours, &answer) => Ok(()),
        Some(_) => Err(io::Error::other("it has another token")),
        None => Err(io::Error::other("it doesn't take the token")),
    }
}

// The number that the coordinator says first.
fn greeting_of(rt: &HostRuntime, stream: &mut CoordinatorStream) -> io::Result<Digits> {
    let Some(greeting) = line_from(rt, stream)? else {
        return Err(io::Error::other("it asks for no token"));
    };
    match greeted(release().as_bytes(), &greeting) {
        Ok(nonce) => Ok(nonce),
        Err(why) => {
            let told = format!(in rt.alloc(); "{why}")?;
            Err(io::Error::other(&told))
        }
    }
}

// A line, without its newline; none where it doesn't come in time, or the connection ends. It is read byte by byte, since the
// frames behind it are read by others.
fn line_from(rt: &HostRuntime, stream: &mut CoordinatorStream) -> io::Result<Option<Vec<u8>>> {
    let start = Instant::now(rt)?;
    let mut line = Vec::new(rt.alloc());
    for _ in 0..u64::MAX {
        let gone = Instant::now(rt)?.duration_since(start);
        if gone >= Duration::from_secs(MOST_SECONDS) || line.len() >= MAX_GUEST_BYTES {
            break;
        }
        match stream.next_byte() {
            Ok(Some(b'\n')) => return Ok(Some(line)),
            Ok(Some(byte)) => line.push(byte)?,
            Ok(None) => {}
            Err(fault) if fault.kind() == ErrorKind::UnexpectedEof => break,
            Err(fault) => return Err(fault),
        }
    }
    Ok(None)
}

/// A number that is used once.
pub(crate) fn nonce_from(rt: &HostRuntime) -> io::Result<Digits> {
    let mut bytes = [0; 32];
    rt.fill_bytes(&mut bytes)?;
    Ok(nonce_of(&bytes))
}

// How long a read or a write waits before it says that nothing moved, in seconds.
const TIMEOUT_SECONDS: u64 = 30;

// How long that is while the token is shown.
const SHORT_TIMEOUT_SECONDS: u64 = 1;

/// Who calls coordinators over the system's sockets. A call that fails is remembered, and one that doesn't is said at a terminal.
#[derive(Drop)]
pub struct SocketCaller<'a> {
    rt: &'a HostRuntime,
    failures: &'a Failures,
    calls: u64,
}

impl<'a> SocketCaller<'a> {
    pub(crate) fn of(rt: &'a HostRuntime, failures: &'a Failures) -> SocketCaller<'a> {
        SocketCaller {
            rt,
            failures,
            calls: 0,
        }
    }
}

impl<'a> CoordinatorCaller for SocketCaller<'a> {
    type Stream = CoordinatorStream;

    ghost calls = { λ caller. caller.calls };

    fn call(&mut self, to: Destination<'_>) -> io::Result<CoordinatorStream> {
        self.calls = self.calls.saturating_add(1);
        let connected = CoordinatorStream::connect(self.rt, to);
        match &connected {
            Ok(_) => {
                let mut terminal = self.rt.stderr();
                if terminal.is_terminal() {
                    // Nothing hangs on whether it can be said.
                    let _ = writeln!(terminal, "connected with {}", to.address);
                }
            }
            Err(fault) => self.failures.remember(to.address, fault),
        }
        connected
    }
}

/// A connection with a coordinator. A read for which nothing comes within 30 seconds ends with `WouldBlock`, and so does a
/// write of which nothing is taken.
pub type CoordinatorStream = Socket<TcpStream, UnixStream>;

impl CoordinatorStream {
    /// Connects with a coordinator. Where there is a token, each shows the other that it has it.
    pub fn connect(rt: &HostRuntime, to: Destination<'_>) -> io::Result<CoordinatorStream> {
        let mut stream = CoordinatorStream::reached(rt, Address::of(to.address))?;
        if let Some(token) = to.token {
            stream.set_timeout(SHORT_TIMEOUT_SECONDS)?;
            show_token(rt, &mut stream, token)?;
        }
        stream.set_timeout(TIMEOUT_SECONDS)?;
        Ok(stream)
    }

    fn reached(rt: &HostRuntime, address: Address<'_>) -> io::Result<CoordinatorStream> {
        match address {
            Address::Host(host) => without_delay(TcpStream::connect(rt, host)?),
            Address::Port(port) => {
                without_delay(TcpStream::connect(rt, (Ipv4Addr::LOCALHOST, port))?)
            }
            Address::NoPort => Err(io::Error::other("a port is 1 to 65535")),
            Address::File(path) => Ok(Socket::Unix(UnixStream::connect(rt, path)?)),
        }
    }

    fn set_timeout(&self, seconds: u64) -> io::Result<()> {
        let timeout = Some(Duration::from_secs(seconds));
        match self {
            Socket::Tcp(stream) => {
                stream.set_read_timeout(timeout)?;
                stream.set_write_timeout(timeout)
            }
            Socket::Unix(stream) => {
                stream.set_read_timeout(timeout)?;
                stream.set_write_timeout(timeout)
            }
        }
    }

    // The next byte; none where it hasn't come yet. An error where the connection has ended.
    pub(crate) fn next_byte(&mut self) -> io::Result<Option<u8>> {
        let mut byte = [0];
        match self.read(&mut byte) {
            Ok(0) => Err(io::Error::from(ErrorKind::UnexpectedEof)),
            Ok(_) => Ok(Some(byte[0])),
            Err(fault) if has_waited(&fault) => Ok(None),
            Err(fault) => Err(fault),
        }
    }
}

// What is written goes out at once.
fn without_delay(stream: TcpStream) -> io::Result<CoordinatorStream> {
    stream.set_nodelay(true)?;
    Ok(Socket::Tcp(stream))
}

// Whether nothing has come for a while.
fn has_waited(fault: &io::Error) -> bool {
    matches!(
        fault.kind(),
        ErrorKind::WouldBlock | ErrorKind::TimedOut | ErrorKind::Interrupted
    )
}
