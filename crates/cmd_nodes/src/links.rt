// Links of workers: two streams, sockets in pairs, and the network.
ghost use Rattle.std.specs.Prelude.{◌≢◌};

use crate::calling::CoordinatorCaller;
use cmd_options::Ended;
use peers::Connections;
use std::io::{self, Read, Write};
use std::time::Duration;
use wire::{Fault, Link};

/// A stream that is read and one that is written, as a link. Frames may wait in the written one: it is flushed
/// before more is awaited, so that no peer waits for an answer that was given. Which bytes the other end has
/// isn't known.
#[derive(Drop)]
pub struct Streams<'a, R, W> {
    input: &'a mut R,
    output: &'a mut W,
    failures: u64,
}

impl<'a, R: Read, W: Write> Streams<'a, R, W> {
    /// The link of two streams.
    pub fn of(input: &'a mut R, output: &'a mut W) -> Streams<'a, R, W> {
        Streams {
            input,
            output,
            failures: 0,
        }
    }

    // Counts a failure.
    fn fail(&mut self) -> Fault
        ensures { self.old.failures ≢ self.new.failures }
    {
        self.failures = self.failures.wrapping_add(1);
        Fault
    }
}

impl<'a, R: Read, W: Write> Link for Streams<'a, R, W> {
    ghost use Rattle.std.specs.Prelude.{None};

    ghost waiting = { λ s. None };

    ghost sent = { λ s. None };

    ghost failures = { λ s. s.failures };

    fn receive(&mut self, buf: &mut [u8]) -> Result<usize, Fault> {
        if self.output.flush().is_err() {
            return Err(self.fail());
        }
        match self.input.read(buf) {
            Ok(count) => Ok(count),
            Err(_) => Err(self.fail()),
        }
    }

    fn send(&mut self, bytes: &[u8]) -> Result<usize, Fault> {
        match self.output.write(bytes) {
            Ok(count) if count > 0 || bytes.is_empty() => Ok(count),
            _ => Err(self.fail()),
        }
    }
}

// What is read comes from the one, what is written goes to the other.
#[derive(Drop)]
pub(crate) struct TwoStreams<'a, R, W> {
    pub input: &'a mut R,
    pub output: &'a mut W,
}

impl<R: Read, W> Read for TwoStreams<'_, R, W> {
    fn read(&mut self, buf: &mut [u8]) -> io::Result<usize> {
        self.input.read(buf)
    }
}

impl<R, W: Write> Write for TwoStreams<'_, R, W> {
    fn write(&mut self, buf: &[u8]) -> io::Result<usize> {
        self.output.write(buf)
    }

    fn flush(&mut self) -> io::Result<()> {
        self.output.flush()
    }
}

/// Where sockets are had that are connected with one another.
pub trait Sockets {
    type Listener: Drop;

    type Stream: Read + Write + Drop;

    /// What waits for connections from this computer.
    fn listen(&self) -> io::Result<Self::Listener>;

    /// Connects a socket with a listener.
    fn connect(&self, listener: &Self::Listener) -> io::Result<Self::Stream>;

    /// The other end of the connection that has waited longest.
    fn accept(&self, listener: &Self::Listener) -> io::Result<Self::Stream>;
}

/// Both ends of a connection.
#[derive(Drop)]
pub struct SocketPair<S> {
    /// The worker's end.
    pub near: S,
    /// The coordinator's end.
    pub far: S,
}

/// Connects a socket, and accepts the connection before another is made.
pub fn connected<S: Sockets>(
    sockets: &S,
    listener: &S::Listener,
) -> Result<SocketPair<S::Stream>, Ended> {
    let near = sockets.connect(listener)?;
    let far = sockets.accept(listener)?;
    Ok(SocketPair { near, far })
}

/// Whom a coordinator lets in.
#[derive(Drop)]
pub struct Admission {
    /// The token that workers have to show; none where anyone may come.
    pub token: Option<Vec<u8>>,
    /// How many connections may come from one address, over TCP.
    pub per_address: u64,
}

/// A network, in which a coordinator listens at an address and workers call it there.
pub trait Network {
    type Connections: Connections + Drop;

    type Caller: CoordinatorCaller + Drop;

    /// The bytes of the file of a token. Where others can read it, that is said at a terminal.
    fn token_at(&self, path: &str) -> io::Result<Vec<u8>>;

    /// The workers that connect at an address from now on, and are let in.
    fn listen_at(&self, address: &str, admission: Admission) -> io::Result<Self::Connections>;

    /// One who calls coordinators.
    fn caller(&self) -> Self::Caller;

    /// Remembers why a connection with what listens at an address is of no use any more.
    fn remember_loss(&self, address: &str, why: &str);

    /// Says on a terminal what was remembered last of a connection, and after how long it is tried again.
    fn tell_again(&self, wait: Duration);

    /// Whether the workers have come again in vain for so long that they pause for a second: where that is new, a
    /// terminal shows it.
    fn tell_idle(&self, _idle: bool) {}
}
