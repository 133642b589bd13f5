// Files that are watched as they are read, what is odd of them, who says words on standard error (`Saying`), and a clock of seconds.
use crate::named::NamedFile;
use crate::progress::{Meter, Telling, Work};
use arrayvec::ArrayVec;
use std::cell::{Cell, RefCell};
use std::fs::Metadata;
use std::io::{self, IsTerminal, Read, Write};
use std::time::{Duration, Instant};

// A clock that says each second once.
#[derive(Drop)]
pub(crate) struct Seconds<'a> {
    rt: &'a HostRuntime,
    start: Instant,
    // the second that was said last
    said: Option<u64>,
}

impl<'a> Seconds<'a> {
    pub fn new(rt: &'a HostRuntime) -> io::Result<Seconds<'a>> {
        Ok(Seconds {
            rt,
            start: Instant::now(rt)?,
            said: None,
        })
    }

    // The second, where it wasn't said yet.
    pub fn next(&mut self) -> io::Result<Option<u64>> {
        let second = self.gone()?.as_secs();
        if self.said == Some(second) {
            return Ok(None);
        }
        self.said = Some(second);
        Ok(Some(second))
    }

    // How long it is until the next one.
    pub fn rest(&self) -> io::Result<Duration> {
        let gone = self.gone()?;
        Ok(Duration::from_secs(1).saturating_sub(Duration::from_nanos(u64::from(
            gone.subsec_nanos(),
        ))))
    }

    fn gone(&self) -> io::Result<Duration> {
        Ok(Instant::now(self.rt)?.duration_since(self.start))
    }
}

/// By what a file is compressed.
#[derive(Clone, Copy, Debug, PartialEq, Eq)]
pub enum Packing {
    Xz,
    Gzip,
    Zstd,
    Bzip2,
}

/// Why what is read isn't what is wanted, whatever its lines say.
#[derive(Clone, Copy, Debug, PartialEq, Eq)]
pub enum Oddity {
    /// A compressed file.
    Packed(Packing),
    /// No text: several of its first bytes are 0.
    NoText,
    /// A text whose first line ends in CR LF.
    CarriageReturn,
    /// A folder.
    Folder,
}

impl Oddity {
    /// Whether there are no lines in it at all.
    pub fn has_no_lines(self) -> bool {
        matches!(self, Oddity::Packed(_) | Oddity::NoText)
    }
}

// What the bytes of each begin with.
const PACKINGS: [(&[u8], Packing); 4] = [
    (&[0xfd, 0x37, 0x7a, 0x58, 0x5a, 0x00], Packing::Xz),
    (&[0x1f, 0x8b, 0x08], Packing::Gzip),
    (&[0x28, 0xb5, 0x2f, 0xfd], Packing::Zstd),
    (b"BZh", Packing::Bzip2),
];

// A line with a damaged byte is a line still; a program, say, has more zeros than these where it begins.
const MANY_ZEROS: usize = 8;

/// What is odd of what begins so.
pub fn oddity_of(bytes: &[u8]) -> Option<Oddity> {
    for (magic, packing) in PACKINGS {
        if bytes.starts_with(magic) {
            return Some(Oddity::Packed(packing));
        }
    }
    if bytes.iter().filter(|byte| **byte == 0).count() >= MANY_ZEROS {
        return Some(Oddity::NoText);
    }
    let mut lines = bytes.split(|byte| *byte == b'\n');
    match (lines.next(), lines.next()) {
        (Some(first), Some(_)) if first.ends_with(b"\r") => Some(Oddity::CarriageReturn),
        _ => None,
    }
}

// How many bytes of a beginning are kept: more than a ledger's header has, or a line that is a table.
const KEPT_BYTES: usize = 80;

/// The first bytes of what is read.
#[derive(Drop)]
pub struct FirstBytes {
    bytes: ArrayVec<u8, KEPT_BYTES>,
}

impl FirstBytes {
    /// Nothing is read.
    pub fn none() -> FirstBytes {
        FirstBytes {
            bytes: ArrayVec::new(),
        }
    }

    /// Reads these bytes next.
    pub fn take(&mut self, piece: &[u8]) {
        let count = self.bytes.remaining_capacity().min(piece.len());
        let _ = self.bytes.try_extend_from_slice(&piece[..count]);
    }

    /// Whether what comes doesn't matter any more.
    pub fn is_full(&self) -> bool {
        self.bytes.is_full()
    }

    /// The bytes.
    pub fn bytes(&self) -> &[u8] {
        &self.bytes
    }

    /// What is odd of it.
    pub fn oddity(&self) -> Option<Oddity> {
        oddity_of(&self.bytes)
    }
}

/// Something odd of what was read, under its name.
#[derive(Drop)]
pub struct Odd {
    pub name: String,
    pub oddity: Oddity,
}

/// One who says words on standard error, and knows what failed, what is odd of the files that were read, and which program runs.
pub trait Saying {
    /// From now on all words are said, or only those that come unasked, where standard error isn't a terminal.
    fn say_all(&self, why: bool);

    /// Says that lines are awaited, where they are typed at a terminal.
    fn tell_waiting(&self);

    /// Whether standard error is shown on a terminal.
    fn tells_terminal(&self) -> bool;

    /// Remembers what failed, and why.
    fn remember(&self, name: &str, fault: &io::Error);

    /// What failed last, and why; that is forgotten.
    fn reason(&self) -> Option<String>;

    /// The SHA-256 of the running program's own bytes; none where they can't be read.
    fn program_sum(&self) -> Option<[u8; 32]>;

    /// What was found odd first of the files that were read; that is forgotten.
    fn odd(&self) -> Option<Odd>;
}

/// What is told of how much of some files is read, while that is asked for; whether a line that is written over is on the
/// terminal; and whether it was said that Skelet 1 is judged.
#[derive(Drop)]
pub struct Watch {
    reading: RefCell<Option<Meter>>,
    is_shown: Cell<bool>,
    has_named: Cell<bool>,
}

impl Watch {
    /// Nothing is told.
    pub fn new() -> Watch {
        Watch {
            reading: RefCell::new(None),
            is_shown: Cell::new(false),
            has_named: Cell::new(false),
        }
    }

    // Whether it is to be said that Skelet 1 is judged: a file that is read twice, for its sum too, names it once.
    pub(crate) fn names_first(&self) -> bool {
        !self.has_named.replace(true)
    }

    // Prints a line, on a terminal over the one before: it is cut where the terminal ends, and what is left of the one before is
    // cleared. Nothing hangs on whether it can be printed, here and below.
    pub(crate) fn show(&self, rt: &HostRuntime, telling: Telling, line: &str) {
        let mut terminal = rt.stderr();
        let _ = match telling {
            Telling::Nothing => Ok(()),
            Telling::Lines => writeln!(terminal, "{line}"),
            Telling::OneLine => {
                self.is_shown.set(true);
                write!(terminal, "\r\x1b[?7l{line}\x1b[?7h\x1b[K")
            }
        };
    }

    // Prints the last line, except where the terminal shows something else by now.
    pub(crate) fn finish(&self, rt: &HostRuntime, telling: Telling, line: &str) {
        if telling == Telling::OneLine && !self.is_shown.get() {
            return;
        }
        self.show(rt, telling, line);
        if self.is_shown.replace(false) {
            let _ = writeln!(rt.stderr());
        }
    }

    // Takes the line off the terminal, if one is there.
    pub(crate) fn clear(&self, rt: &HostRuntime) {
        if self.is_shown.replace(false) {
            let _ = write!(rt.stderr(), "\r\x1b[K");
        }
    }

    // How much of so many bytes is read is told from now on.
    pub(crate) fn begin(&self, rt: &HostRuntime, telling: Telling, total: u64) {
        if let Ok(mut reading) = self.reading.try_borrow_mut() {
            *reading = Some(Meter::new(rt.alloc(), telling, Work::Bytes(total), rt));
        }
    }

    // So many bytes more are read.
    pub(crate) fn tell(&self, rt: &HostRuntime, count: usize) {
        if let Ok(mut reading) = self.reading.try_borrow_mut()
            && let Some(meter) = reading.as_mut()
            && let Some(line) = meter.counted(count as u64, rt)
        {
            self.show(rt, meter.telling, &line);
        }
    }

    // Nothing is told any more of what is read.
    pub(crate) fn end(&self, rt: &HostRuntime) {
        if let Ok(mut reading) = self.reading.try_borrow_mut() {
            if let Some(meter) = reading.as_mut()
                && let Some(line) = meter.last_line(rt)
            {
                self.finish(rt, meter.telling, &line);
            }
            *reading = None;
        }
    }
}

// What the line of Skelet 1 in a ledger begins with, behind the newline of the line before it.
const SKELET_1: &[u8] = b"\n1RB1RD_1LC0RC_1RA1LD_0RE0LB_---1RC P";

// The letter of its kind, which few lines have.
const LETTER: u8 = b'P';

/// A file of the system that is only read. It is told how far the reading is, where that is asked for; and where standard
/// error is a terminal, that Skelet 1 is about to be judged, before its line is passed on.
#[derive(Drop)]
pub struct WatchedFile<'a> {
    pub(crate) file: NamedFile<'a>,
    pub(crate) rt: &'a HostRuntime,
    pub(crate) watch: &'a Watch,
    // how many bytes of that line have come last
    pub(crate) come: usize,
    // how it begins
    pub(crate) beginning: FirstBytes,
}

impl WatchedFile<'_> {
    pub(crate) fn metadata(&self) -> io::Result<Metadata> {
        self.file.metadata()
    }

    // Follows the bytes that are passed on, and tells where the line is among them.
    fn follow(&mut self, piece: &[u8]) {
        let mut recent = piece;
        if piece.len() > SKELET_1.len() && !has_letter(piece) {
            // The line isn't whole here, but it may begin.
            self.come = 0;
            recent = &piece[piece.len() - SKELET_1.len()..];
        }
        if self.comes_in(recent) && self.watch.names_first() {
            self.tell();
        }
    }

    // Looks at how the file begins, and remembers what is odd of that.
    fn look_at(&mut self, piece: &[u8]) {
        if self.beginning.is_full() {
            return;
        }
        self.beginning.take(piece);
        if let Some(oddity) = self.beginning.oddity() {
            self.file.note_odd(oddity);
        }
    }

    // Whether the line becomes whole with these bytes.
    fn comes_in(&mut self, bytes: &[u8]) -> bool {
        let mut is_whole = false;
        for byte in bytes {
            self.come = match SKELET_1.get(self.come) {
                Some(next) if *next == *byte => self.come + 1,
                _ => usize::from(*byte == b'\n'),
            };
            is_whole |= self.come == SKELET_1.len();
        }
        is_whole
    }

    fn tell(&self) {
        let mut terminal = self.rt.stderr();
        if terminal.is_terminal() {
            self.watch.clear(self.rt);
            // Nothing hangs on whether it can be said.
            let _ = writeln!(terminal, "judging Skelet 1, some half a minute ..");
        }
    }
}

// Whether the letter is among bytes. It looks at each, which is faster than to end at the first.
fn has_letter(bytes: &[u8]) -> bool {
    let mut is_found = false;
    for byte in bytes {
        is_found |= *byte == LETTER;
    }
    is_found
}

impl Read for WatchedFile<'_> {
    fn read(&mut self, buf: &mut [u8]) -> io::Result<usize> {
        let count = self.file.read(buf)?;
        self.watch.tell(self.rt, count);
        self.look_at(&buf[..count]);
        self.follow(&buf[..count]);
        Ok(count)
    }
}
