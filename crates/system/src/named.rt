// Files and sockets that remember what of them fails.
use crate::watched_files::{Odd, Oddity};
use std::alloc::{AllocError as NoMemory, Global};
use std::cell::RefCell;
use std::fs::{self, Metadata, OpenFile};
use std::io::{self, ErrorKind, Read, Write};
use std::net::TcpStream;

/// What failed last of the system's files and streams, and why; and what was found odd first of the files that were read.
#[derive(Drop)]
pub struct Failures {
    alloc: Global,
    last: RefCell<Option<String>>,
    odd: RefCell<Option<Odd>>,
}

impl Failures {
    /// Nothing has failed.
    pub fn new(alloc: Global) -> Failures {
        Failures {
            alloc,
            last: RefCell::new(None),
            odd: RefCell::new(None),
        }
    }

    // Remembers what failed; where memory is refused for that, nothing is.
    pub(crate) fn remember(&self, name: &str, fault: &io::Error) {
        if fault.kind() == ErrorKind::IsADirectory {
            self.note_odd(name, Oddity::Folder);
        }
        let told = self.told(name, fault).ok();
        if let Ok(mut last) = self.last.try_borrow_mut() {
            *last = told;
        }
    }

    fn told(&self, name: &str, fault: &io::Error) -> Result<String, NoMemory> {
        format!(in self.alloc; "{name}: {fault}\n")
    }

    // Something is odd of what is read under a name. What was odd before stands, and where memory is refused nothing does.
    pub(crate) fn note_odd(&self, name: &str, oddity: Oddity) {
        if let Ok(mut odd) = self.odd.try_borrow_mut()
            && odd.is_none()
            && let Ok(name) = name.to_string(self.alloc)
        {
            *odd = Some(Odd { name, oddity });
        }
    }

    // What was odd first, which is forgotten.
    pub(crate) fn take_odd(&self) -> Option<Odd> {
        match self.odd.try_borrow_mut() {
            Ok(mut odd) => odd.take(),
            Err(_) => None,
        }
    }

    // What failed last, which is forgotten.
    pub(crate) fn take(&self) -> Option<String> {
        match self.last.try_borrow_mut() {
            Ok(mut last) => last.take(),
            Err(_) => None,
        }
    }
}

/// A file of the system under the path at which it was opened: what of it fails is remembered.
#[derive(Drop)]
pub struct NamedFile<'a> {
    pub(crate) file: fs::File,
    // None where memory was refused for it.
    pub(crate) path: Option<String>,
    pub(crate) failures: &'a Failures,
}

impl NamedFile<'_> {
    pub(crate) fn metadata(&self) -> io::Result<Metadata> {
        self.noted(self.file.metadata())
    }

    // Keeps its first bytes, so many of them.
    pub(crate) fn cut(&self, len: u64) -> io::Result<()> {
        self.noted(self.file.set_len(len))
    }

    // Waits until what it holds is on the disk.
    pub(crate) fn wait(&self) -> io::Result<()> {
        self.noted(self.file.sync_data())
    }

    fn noted<T>(&self, done: io::Result<T>) -> io::Result<T> {
        if let Err(fault) = &done {
            self.remember(fault);
        }
        done
    }

    fn remember(&self, fault: &io::Error) {
        self.failures.remember(self.name(), fault);
    }

    pub(crate) fn note_odd(&self, oddity: Oddity) {
        self.failures.note_odd(self.name(), oddity);
    }

    fn name(&self) -> &str {
        self.path.as_deref().unwrap_or("a file")
    }
}

impl Read for NamedFile<'_> {
    fn read(&mut self, buf: &mut [u8]) -> io::Result<usize> {
        match self.file.read(buf) {
            Ok(count) => Ok(count),
            Err(fault) => {
                self.remember(&fault);
                Err(fault)
            }
        }
    }
}

impl Write for NamedFile<'_> {
    fn write(&mut self, buf: &[u8]) -> io::Result<usize> {
        match self.file.write(buf) {
            Ok(count) => {
                if count == 0 && !buf.is_empty() {
                    self.remember(&io::Error::from(ErrorKind::WriteZero));
                }
                Ok(count)
            }
            Err(fault) => {
                self.remember(&fault);
                Err(fault)
            }
        }
    }

    fn flush(&mut self) -> io::Result<()> {
        let done = self.file.flush();
        self.noted(done)
    }
}

/// The address of the two ends of a link, by which what fails of them is named.
pub(crate) const LOOPBACK: &str = "127.0.0.1";

/// One end of a link: what of it fails is remembered, and so is that nothing moves.
#[derive(Drop)]
pub struct NamedSocket<'a> {
    pub(crate) stream: TcpStream,
    pub(crate) failures: &'a Failures,
}

impl NamedSocket<'_> {
    fn remember(&self, fault: &io::Error) {
        self.failures.remember(LOOPBACK, fault);
    }
}

impl Read for NamedSocket<'_> {
    fn read(&mut self, buf: &mut [u8]) -> io::Result<usize> {
        match self.stream.read(buf) {
            Ok(count) => {
                if count == 0 {
                    self.remember(&io::Error::from(ErrorKind::UnexpectedEof));
                }
                Ok(count)
            }
            Err(fault) => {
                self.remember(&fault);
                Err(fault)
            }
        }
    }
}

impl Write for NamedSocket<'_> {
    fn write(&mut self, buf: &[u8]) -> io::Result<usize> {
        match self.stream.write(buf) {
            Ok(count) => {
                if count == 0 {
                    self.remember(&io::Error::from(ErrorKind::WriteZero));
                }
                Ok(count)
            }
            Err(fault) => {
                self.remember(&fault);
                Err(fault)
            }
        }
    }

    fn flush(&mut self) -> io::Result<()> {
        match self.stream.flush() {
            Ok(()) => Ok(()),
            Err(fault) => {
                self.remember(&fault);
                Err(fault)
            }
        }
    }
}
