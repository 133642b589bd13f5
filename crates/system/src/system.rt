// The files, the clock and the sockets of the system.
use crate::coordinator_socket::{Herald, SocketCaller};
use crate::disk::Disk;
use crate::disk_ledger::Storage;
use crate::listening::Address;
use crate::named::{Failures, LOOPBACK, NamedSocket};
use crate::peer_sockets::PeerSockets;
use crate::progress::{ProgressTold, Telling};
use crate::watched_files::{Odd, Saying, Watch};
use cmd_nodes::{Admission, Network, Sockets};
use sha2::{Digest, Sha256};
use std::alloc::AllocError as NoMemory;
use std::cell::Cell;
use std::env;
use std::fs::{self, Files, OpenFile};
use std::io::{self, IsTerminal, Read, Write};
use std::net::{TcpListener, TcpStream};
use std::os::unix::fs::PermissionsExt;
use std::time::{Clock, Duration};

// The rights to read a file that aren't its owner's.
const READ_BY_OTHERS: u32 = 0o044;

/// The files, the clock and the sockets of the system.
#[derive(Drop)]
pub struct System<'a> {
    disk: Disk<'a>,
    // whether it was said last that no table is free
    idle: Cell<bool>,
    // whether all words are said, also where standard error isn't a terminal
    why: Cell<bool>,
}

impl<'a> System<'a> {
    /// The system's files, clock and sockets that the program was given; what fails is remembered, and what is read is
    /// watched.
    pub fn of(rt: &'a HostRuntime, failures: &'a Failures, watch: &'a Watch) -> System<'a> {
        System {
            disk: Disk {
                rt,
                failures,
                watch,
            },
            idle: Cell::new(false),
            why: Cell::new(false),
        }
    }

    fn named_socket(&self, stream: TcpStream) -> NamedSocket<'a> {
        NamedSocket {
            stream,
            failures: self.disk.failures,
        }
    }

    // Whether all words are said.
    fn says_all(&self) -> bool {
        self.why.get() || self.tells_terminal()
    }

    // Says a line at a terminal, and elsewhere where all is said; if there was memory for it.
    fn tell(&self, line: Result<String, NoMemory>) {
        if self.says_all()
            && let Ok(line) = line
        {
            // Nothing hangs on whether it can be said.
            self.disk.watch.clear(self.disk.rt);
            let _ = writeln!(self.disk.rt.stderr(), "{line}");
        }
    }
}

impl<'a> Storage for System<'a> {
    type Files = Disk<'a>;

    fn files(&self) -> Disk<'a> {
        self.disk
    }
}

impl Saying for System<'_> {
    fn say_all(&self, why: bool) {
        self.why.set(why);
    }

    fn tell_waiting(&self) {
        if self.disk.rt.stdin().is_terminal() {
            // Nothing hangs on whether it can be said.
            let _ = writeln!(
                self.disk.rt.stderr(),
                "reading lines of standard input, to Ctrl-D"
            );
        }
    }

    fn tells_terminal(&self) -> bool {
        self.disk.rt.stderr().is_terminal()
    }

    fn remember(&self, name: &str, fault: &io::Error) {
        self.disk.failures.remember(name, fault);
    }

    fn reason(&self) -> Option<String> {
        self.disk.failures.take()
    }

    fn program_sum(&self) -> Option<[u8; 32]> {
        let rt = self.disk.rt;
        let mut file = fs::open(rt, env::current_exe(rt).ok()?).ok()?;
        let mut bytes = Vec::new(rt.alloc());
        file.read_to_end(&mut bytes).ok()?;
        Some(Sha256::digest(&bytes))
    }

    fn odd(&self) -> Option<Odd> {
        self.disk.failures.take_odd()
    }
}

impl ProgressTold for System<'_> {
    fn show(&self, telling: Telling, line: &str) {
        self.disk.watch.show(self.disk.rt, telling, line);
    }

    fn finish(&self, telling: Telling, line: &str) {
        self.disk.watch.finish(self.disk.rt, telling, line);
    }

    fn clear(&self) {
        self.disk.watch.clear(self.disk.rt);
    }

    fn tell_reading(&self, telling: Telling, paths: &[&str]) {
        let mut total: u64 = 0;
        for path in paths {
            total = total.saturating_add(bytes_at(self.disk.rt, path));
        }
        if total > 0 {
            self.disk.watch.begin(self.disk.rt, telling, total);
        }
    }

    fn end_reading(&self) {
        self.disk.watch.end(self.disk.rt);
    }
}

// How many bytes a file has, or the files in a folder; none where neither is there.
fn bytes_at(rt: &HostRuntime, path: &str) -> u64 {
    match fs::metadata(rt, path) {
        Ok(found) if found.is_dir() => folder_bytes(rt, path).unwrap_or_default(),
        Ok(found) if found.is_file() => found.len(),
        _ => 0,
    }
}

// How many bytes the files in a folder have together.
fn folder_bytes(rt: &HostRuntime, path: &str) -> io::Result<u64> {
    let mut total: u64 = 0;
    for entry in fs::read_dir(rt, path)? {
        total = total.saturating_add(entry?.metadata()?.len());
    }
    Ok(total)
}

impl<'a> Clock for System<'a> {
    fn sleep(&self, duration: Duration) {
        self.disk.rt.sleep(duration)
    }

    fn monotonic(&self) -> io::Result<Duration> {
        self.disk.rt.monotonic()
    }

    fn since_1970(&self) -> io::Result<Duration> {
        self.disk.rt.since_1970()
    }
}

impl<'a> Sockets for System<'a> {
    type Listener = TcpListener;

    type Stream = NamedSocket<'a>;

    fn listen(&self) -> io::Result<TcpListener> {
        self.disk
            .noted(LOOPBACK, TcpListener::bind(self.disk.rt, "127.0.0.1:0"))
    }

    fn connect(&self, listener: &TcpListener) -> io::Result<NamedSocket<'a>> {
        let stream = self
            .disk
            .noted(LOOPBACK, connected(self.disk.rt, listener))?;
        Ok(self.named_socket(stream))
    }

    fn accept(&self, listener: &TcpListener) -> io::Result<NamedSocket<'a>> {
        let stream = self.disk.noted(LOOPBACK, accepted(listener))?;
        Ok(self.named_socket(stream))
    }
}

impl<'a> Network for System<'a> {
    type Connections = PeerSockets<'a>;

    type Caller = SocketCaller<'a>;

    fn token_at(&self, path: &str) -> io::Result<Vec<u8>> {
        let mut file = self.disk.noted(path, fs::open(self.disk.rt, path))?;
        let mut token = Vec::new(self.disk.rt.alloc());
        self.disk.noted(path, file.read_to_end(&mut token))?;
        let found = self.disk.noted(path, file.metadata())?;
        if found.permissions().mode() & READ_BY_OTHERS != 0 {
            self.tell(format!(in self.disk.rt.alloc(); "{path}: others can read this token"));
        }
        Ok(token)
    }

    fn listen_at(&self, address: &str, admission: Admission) -> io::Result<PeerSockets<'a>> {
        let address_of = Address::of(address);
        let herald = Herald::new(self.disk.rt, self.disk.watch, self.says_all());
        let sockets = self.disk.noted(
            address,
            PeerSockets::at(self.disk.rt, herald, address_of, admission),
        )?;
        if address_of.has_any_port() {
            let place = self.disk.noted(address, sockets.place())?;
            // Nothing else says where it listens: a script reads it too.
            let _ = writeln!(self.disk.rt.stderr(), "listening at {place}");
        } else {
            self.tell(format!(in self.disk.rt.alloc(); "listening at {address}"));
        }
        Ok(sockets)
    }

    fn caller(&self) -> SocketCaller<'a> {
        SocketCaller::of(self.disk.rt, self.disk.failures)
    }

    fn remember_loss(&self, address: &str, why: &str) {
        self.disk.failures.remember(address, &io::Error::other(why));
    }

    fn tell_again(&self, wait: Duration) {
        if let Some(reason) = self.disk.failures.take() {
            // Nothing hangs on whether it can be said.
            let _ = writeln!(
                self.disk.rt.stderr(),
                "{}; trying again in {} s",
                reason.trim_end(),
                wait.as_secs()
            );
        }
    }

    fn tell_idle(&self, idle: bool) {
        if idle && !self.idle.get() {
            self.tell(format!(in self.disk.rt.alloc();
                "the coordinator has no table to grant: asking again each second"
            ));
        }
        self.idle.set(idle);
    }
}

// The end that asks for the link. What is written goes out at once: the pieces of a link aren't held back until the last is
// acknowledged.
fn connected(rt: &HostRuntime, listener: &TcpListener) -> io::Result<TcpStream> {
    let stream = TcpStream::connect(rt, listener.local_addr()?)?;
    stream.set_nodelay(true)?;
    Ok(stream)
}

// The end that is asked.
fn accepted(listener: &TcpListener) -> io::Result<TcpStream> {
    let (stream, _) = listener.accept()?;
    stream.set_nodelay(true)?;
    Ok(stream)
}
