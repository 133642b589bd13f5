// Who answers at an address, by the first line that comes from there.
use std::alloc::Global;
use std::io::{self, ErrorKind, Read, Write};
use text::cut_at;
use wire::{Msg, decode};

// More bytes than the longest line of a coordinator, a `GRANT`, has.
const MOST_BYTES: usize = 128;

// Who answers.
#[derive(Clone, Copy, Debug, PartialEq, Eq)]
pub(crate) enum Answerer {
    // No line has come.
    Nobody,
    Coordinator,
    // Somebody whose first line is no message of a coordinator.
    Stranger,
}

// A connection of which it is known who answers there. A stranger's isn't read on.
#[derive(Drop)]
pub(crate) struct Answered<S> {
    stream: S,
    // the first line, as far as it has come
    line: Vec<u8>,
    answerer: Answerer,
    // whether a record of a holdout was sent
    has_holdout: bool,
}

impl<S> Answered<S> {
    pub fn over(alloc: Global, stream: S) -> Answered<S> {
        Answered {
            stream,
            line: Vec::new(alloc),
            answerer: Answerer::Nobody,
            has_holdout: false,
        }
    }

    pub fn answerer(&self) -> Answerer {
        self.answerer
    }

    // Whether a record of a holdout was sent: a coordinator that takes none lets a worker go then.
    pub fn has_holdout(&self) -> bool {
        self.has_holdout
    }

    // The first line, as far as it has come.
    pub fn line(&self) -> &[u8] {
        &self.line
    }

    // Looks at what came, as long as it is of the first line.
    fn look(&mut self, piece: &[u8]) -> io::Result<()> {
        if self.answerer != Answerer::Nobody {
            return Ok(());
        }
        let (begun, is_whole) = match cut_at(b'\n', piece) {
            Some((end, _)) => (end, true),
            None => (piece, false),
        };
        let room = MOST_BYTES.saturating_sub(self.line.len());
        self.line
            .extend_from_slice(begun.get(..room).unwrap_or(begun))?;
        if is_whole {
            self.answerer = who_says(&self.line);
        } else if self.line.len() >= MOST_BYTES {
            self.answerer = Answerer::Stranger;
        }
        Ok(())
    }
}

// Who says a line.
fn who_says(line: &[u8]) -> Answerer {
    match decode(line) {
        Ok(Msg::Grant { .. } | Msg::Ack(_) | Msg::Later(_) | Msg::Stop) => Answerer::Coordinator,
        Ok(Msg::Ask { .. } | Msg::Rec(_) | Msg::Done { .. }) | Err(_) => Answerer::Stranger,
    }
}

// Whether one of the lines is a record of a holdout.
fn has_holdout(lines: &[u8]) -> bool {
    lines
        .split(|byte| *byte == b'\n')
        .any(|line| line.ends_with(b" U"))
}

impl<S: Read> Read for Answered<S> {
    fn read(&mut self, buf: &mut [u8]) -> io::Result<usize> {
        let count = self.stream.read(buf)?;
        self.look(&buf[..count])?;
        if self.answerer == Answerer::Stranger {
            return Err(io::Error::from(ErrorKind::InvalidData));
        }
        Ok(count)
    }
}

impl<S: Write> Write for Answered<S> {
    fn write(&mut self, buf: &[u8]) -> io::Result<usize> {
        let count = self.stream.write(buf)?;
        if let Some(sent) = buf.get(..count) {
            self.has_holdout |= has_holdout(sent);
        }
        Ok(count)
    }

    fn flush(&mut self) -> io::Result<()> {
        self.stream.flush()
    }
}
