// Lines as people keep them: carriage returns, blank lines and comments are passed over.
ghost use Rattle.std.specs.Prelude.{◌≤◌, length};

use std::io::{self, Read};

const CARRIAGE_RETURN: u8 = 13;

// What a byte stands in.
#[derive(Clone, Copy, PartialEq, Eq)]
enum Place {
    // Nothing but blanks of its line came before it.
    Start,
    Line,
    // A line that begins with #.
    Comment,
}

// A stream of lines without their carriage returns, and without blank lines and comments.
#[derive(Drop)]
pub(crate) struct Lenient<'a, R> {
    stream: &'a mut R,
    place: Place,
}

// What is kept of a line: nothing of one that is blank or a comment.
pub(crate) fn kept_of(line: &[u8]) -> Option<&[u8]> {
    let kept = line.trim_ascii();
    if kept.is_empty() || kept.starts_with(b"#") {
        None
    } else {
        Some(kept)
    }
}

impl<'a, R: Read> Lenient<'a, R> {
    pub fn of(stream: &'a mut R) -> Lenient<'a, R> {
        Lenient {
            stream,
            place: Place::Start,
        }
    }

    // Moves what is kept of a piece to its front. So many bytes are.
    fn keep(&mut self, piece: &mut [u8]) -> usize
        ensures { result ≤ length piece.old }
    {
        let mut kept = 0;
        for at in 0..piece.len() {
            let byte = piece[at];
            if self.keeps(byte) {
                piece[kept] = byte;
                kept += 1;
            }
        }
        kept
    }

    // Whether the next byte is kept.
    fn keeps(&mut self, byte: u8) -> bool {
        let (place, is_kept) = match (self.place, byte) {
            (place, CARRIAGE_RETURN) => (place, false),
            (Place::Start, b'#') => (Place::Comment, false),
            (Place::Start, b' ' | b'\t') => (Place::Start, false),
            (Place::Start | Place::Comment, b'\n') => (Place::Start, false),
            (Place::Comment, _) => (Place::Comment, false),
            (Place::Line, b'\n') => (Place::Start, true),
            (Place::Start | Place::Line, _) => (Place::Line, true),
        };
        self.place = place;
        is_kept
    }
}

impl<R: Read> Read for Lenient<'_, R> {
    fn read(&mut self, buf: &mut [u8]) -> io::Result<usize> {
        // A piece of which nothing is kept isn't the end of the stream.
        for _ in 0..u64::MAX {
            let count = self.stream.read(buf)?.min(buf.len());
            let kept = self.keep(&mut buf[..count]);
            if kept > 0 || count == 0 {
                return Ok(kept);
            }
        }
        Ok(0)
    }
}
