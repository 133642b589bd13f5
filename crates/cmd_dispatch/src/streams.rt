// Streams: one to which several write whole lines, one whose faults are remembered by its name, and one whose beginning is kept.
use crate::manner::{Lines, Manner, Source};
use crate::refusal_reasons::Refusals;
use cmd_lines::LineLoop;
use cmd_words::CommandLine;
use std::alloc::Global;
use std::cell::{Cell, RefCell};
use std::io::{self, Error, ErrorKind, Read, Write};
use system::{FirstBytes, Oddity, ProgressTold, Saying};

// A stream that several write to, each a line of its own.
#[derive(Drop)]
pub(crate) struct Shared<'a, E> {
    stream: RefCell<&'a mut E>,
    // Whether the last line that was written has ended.
    is_ended: Cell<bool>,
    // Whether a command said that a ledger's header or a root was refused.
    has_refused: Cell<bool>,
}

impl<'a, E: Write> Shared<'a, E> {
    pub fn of(stream: &'a mut E) -> Shared<'a, E> {
        Shared {
            stream: RefCell::new(stream),
            is_ended: Cell::new(true),
            has_refused: Cell::new(false),
        }
    }

    // One who writes to it.
    pub fn writer(&self) -> SharedWriter<'_, 'a, E> {
        SharedWriter { shared: self }
    }

    // Whether a command said that a ledger's header or a root was refused.
    pub fn has_refused(&self) -> bool {
        self.has_refused.get()
    }

    // Says a line beside what the command says. Nothing hangs on whether it can be said.
    pub fn say(&self, line: &str) {
        let mut writer = self.writer();
        if !self.is_ended.get() {
            let _ = writer.write_all(b"\n");
        }
        let _ = writer.write_all(line.as_bytes());
    }
}

// One who writes to it.
#[derive(Drop)]
pub(crate) struct SharedWriter<'b, 'a, E> {
    shared: &'b Shared<'a, E>,
}

impl<E: Write> Write for SharedWriter<'_, '_, E> {
    fn write(&mut self, buf: &[u8]) -> io::Result<usize> {
        let Ok(mut stream) = self.shared.stream.try_borrow_mut() else {
            return Err(io::Error::from(ErrorKind::ResourceBusy));
        };
        let count = stream.write(buf)?;
        if buf.starts_with(b"refused 404\n") || buf.starts_with(b"refused 405\n") {
            self.shared.has_refused.set(true);
        }
        if let Some(last) = buf[..count.min(buf.len())].last() {
            self.shared.is_ended.set(*last == b'\n');
        }
        Ok(count)
    }

    fn flush(&mut self) -> io::Result<()> {
        match self.shared.stream.try_borrow_mut() {
            Ok(mut stream) => stream.flush(),
            Err(_) => Err(io::Error::from(ErrorKind::ResourceBusy)),
        }
    }
}

// A stream under its name.
#[derive(Drop)]
pub(crate) struct Named<'a, T, S> {
    system: &'a T,
    name: &'a str,
    stream: &'a mut S,
}

impl<'a, T: Saying, S> Named<'a, T, S> {
    pub(crate) fn of(system: &'a T, name: &'a str, stream: &'a mut S) -> Named<'a, T, S> {
        Named {
            system,
            name,
            stream,
        }
    }
}

impl<T: Saying, S: Read> Read for Named<'_, T, S> {
    ghost remaining = { λ named. S.remaining named.stream.now };

    fn read(&mut self, buf: &mut [u8]) -> io::Result<usize> {
        match self.stream.read(buf) {
            Ok(count) => Ok(count),
            Err(fault) => {
                self.system.remember(self.name, &fault);
                Err(fault)
            }
        }
    }
}

impl<T: Saying, S> Named<'_, T, S> {
    // Who reads no more, as `head`, needs no words for it.
    fn remember(&self, fault: &Error) {
        if fault.kind() == ErrorKind::BrokenPipe {
            let _ = self.system.reason();
        } else {
            self.system.remember(self.name, fault);
        }
    }
}

impl<T: Saying + ProgressTold, S: Write> Write for Named<'_, T, S> {
    ghost contents = { λ named. S.contents named.stream.now };

    fn write(&mut self, buf: &[u8]) -> io::Result<usize> {
        self.system.clear();
        match self.stream.write(buf) {
            Ok(count) => {
                if count == 0 && !buf.is_empty() {
                    self.remember(&Error::from(ErrorKind::WriteZero));
                }
                Ok(count)
            }
            Err(fault) => {
                self.remember(&fault);
                Err(fault)
            }
        }
    }

    fn flush(&mut self) -> io::Result<()> {
        match self.stream.flush() {
            Ok(()) => Ok(()),
            Err(fault) => {
                self.remember(&fault);
                Err(fault)
            }
        }
    }
}

// A stream of lines.
#[derive(Drop)]
pub(crate) struct Heard<'a, 'b, 'c, R, E> {
    stream: &'a mut R,
    source: Source,
    beginning: FirstBytes,
    lines: LineLoop,
    // none where nothing is to be said of lines
    refusals: Option<Refusals<'b, 'c, E>>,
}

impl<'a, 'b, 'c, R: Read, E: Write> Heard<'a, 'b, 'c, R, E> {
    // The input of a command. Of lines it is said why they are refused where that is asked for; that a second table isn't drawn is said
    // in any case.
    pub fn of(
        alloc: Global,
        stream: &'a mut R,
        manner: Manner,
        line: &CommandLine<'_>,
        faults: &'b Shared<'c, E>,
    ) -> Heard<'a, 'b, 'c, R, E> {
        let refusals = if line.why || manner.lines == Lines::One {
            Some(Refusals::new(alloc, manner.lines, line, faults))
        } else {
            None
        };
        Heard {
            stream,
            source: manner.source,
            beginning: FirstBytes::none(),
            lines: LineLoop::new(alloc),
            refusals,
        }
    }

    // The first bytes of the input.
    pub fn beginning(&self) -> &[u8] {
        self.beginning.bytes()
    }

    // Says what belongs behind the answer.
    pub fn tell_rest(&mut self) {
        if let Some(refusals) = &mut self.refusals {
            refusals.tell_rest();
        }
    }

    // What is odd of how it begins.
    pub fn oddity(&self) -> Option<Oddity> {
        self.beginning.oddity()
    }

    // Whether it has no lines though these are wanted: it is compressed, or no text.
    pub fn has_no_lines(&self) -> bool {
        self.source == Source::Lines && self.oddity().is_some_and(Oddity::has_no_lines)
    }

    // Says why lines are refused, of those that end in a piece; behind the last piece of the one that has no newline.
    fn tell(&mut self, piece: &[u8]) {
        let Some(refusals) = &mut self.refusals else {
            return;
        };
        // What can't be said for want of memory isn't.
        let _ = if piece.is_empty() {
            self.lines.end(refusals)
        } else {
            self.lines.take(piece, refusals)
        };
    }
}

impl<R: Read, E: Write> Read for Heard<'_, '_, '_, R, E> {
    fn read(&mut self, buf: &mut [u8]) -> io::Result<usize> {
        let room = buf.len();
        let count = self.stream.read(buf)?;
        let piece = &buf[..count.min(room)];
        self.beginning.take(piece);
        if self.has_no_lines() {
            return Err(io::Error::from(ErrorKind::InvalidData));
        }
        if room > 0 {
            self.tell(piece);
        }
        Ok(count)
    }
}
