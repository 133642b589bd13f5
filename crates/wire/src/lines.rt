// A stream of bytes that comes in pieces, and its lines.
ghost use Rattle.std.specs.Prelude.{◌≡◌, ◌∷◌, [], map, Some, IfSome, IfOk, IfNone, OnOk, OnErr};
ghost use Rattle.std.specs.List.{All};
ghost use Rattle.wire.specs.Fulfilled.{IsShortLine, known, fed, lines_from, rest_from};
ghost use Rattle.text.specs.Terms.{IsShort, bounded_line};

use kind_evidence::NoMemory;
use std::alloc::Global;
use std::collections::VecDeque;
use std::marker::Model;
use std::mem;
use text::{Cutter, cut_at};

/// A line of a stream, without its newline.
#[derive(Drop, Debug, PartialEq, Eq)]
pub enum Line {
    /// All its bytes, at most text's `MAX_LINE_BYTES` of them.
    Whole(Vec<u8>),
    /// The line has more.
    Overlong,
}

impl Line {
    // The line that was read.
    pub(crate) fn of(read: Cutter) -> Line
        ensures known { known result ≡ read }
        ensures short { IsShortLine result }
    {
        match read.into_bytes() {
            Some(bytes) => Line::Whole(bytes),
            None => Line::Overlong,
        }
    }
}

/// The lines of a stream of bytes, however it is cut into pieces. Of the line that has begun, at most
/// `MAX_LINE_BYTES` bytes are kept.
#[derive(Drop)]
pub struct Lines {
    alloc: Global,
    waiting: VecDeque<Line>,
    rest: Cutter,
}

impl Model for Lines {
    ghost use Rattle.std.specs.Prelude.{map};
    ghost use Rattle.std.specs.List.{All};
    ghost use Rattle.text.specs.Terms.{IsShort};
    ghost use Rattle.wire.specs.Fulfilled.{Stream, IsShortLine, known};

    ghost Value = { Stream };

    ghost view = { λ a. record { waiting = map known a.waiting.items; rest = a.rest } };

    ghost invariant = { λ a. All IsShortLine a.waiting.items × IsShort a.rest };
}

impl Lines {
    /// A stream of which nothing has come.
    pub fn new(alloc: Global) -> Lines
        ensures { result ≡ record { waiting = []; rest = Some [] } }
    {
        Lines {
            alloc,
            waiting: VecDeque::new(alloc),
            rest: Cutter::new(alloc),
        }
    }

    // The memory that it takes lines from.
    pub(crate) fn alloc(&self) -> Global {
        self.alloc
    }

    /// Takes the next piece of the stream. Where memory is refused, nothing of it is taken.
    pub fn feed(&mut self, piece: &[u8]) -> Result<(), NoMemory>
        ensures ok { OnOk result (self.new ≡ fed self.old piece.now) }
        ensures err { OnErr result (self.new ≡ self.old) }
        ensures within { IsShort self.new.rest }
    {
        let Some((end, left)) = cut_at(b'\n', piece) else {
            return self.rest.take(piece);
        };
        // All that can be refused comes while the lines are still the old ones, and makes room for the new ones.
        let (mut more, rest) = cut_lines(self.alloc, left)?;
        self.waiting.reserve(more.len() + 1)?;
        self.rest.take(end)?;
        let line = mem::replace(&mut self.rest, rest);
        self.waiting.push_back_reserved(Line::of(line));
        self.waiting.append(&mut more)
    }

    /// Takes out the first line that is left; none where no line is.
    pub fn next(&mut self) -> Option<Line>
        ensures some { IfSome result (λ line. self.old ≡ record self.new { waiting = known line ∷ self.new.waiting }) }
        ensures none { IfNone result ((self.old.waiting ≡ []) × (self.new ≡ self.old)) }
        ensures within { IfSome result IsShortLine }
    {
        self.waiting.pop_front()
    }
}

// The lines of a text, and what follows its last newline.
fn cut_lines(alloc: Global, text: &[u8]) -> Result<(VecDeque<Line>, Cutter), NoMemory>
    ensures lines { IfOk result (λ cut. map known cut.0.items ≡ lines_from (Some []) text.now) }
    ensures rest { IfOk result (λ cut. cut.1 ≡ rest_from (Some []) text.now) }
    ensures within { IfOk result (λ cut. All IsShortLine cut.0.items × IsShort cut.1) }
{
    let mut lines = VecDeque::new(alloc);
    let mut left = text;
    'lines: while let Some((line, behind)) = cut_at(b'\n', left) {
        lines.push_back(Line::of(begun(alloc, line)?))?;
        left = behind;
    }
    Ok((lines, begun(alloc, left)?))
}

// A line that begins with these bytes.
fn begun(alloc: Global, bytes: &[u8]) -> Result<Cutter, NoMemory>
    ensures kept { IfOk result (λ line. line ≡ bounded_line bytes.now) }
    ensures short { IfOk result IsShort }
{
    let mut line = Cutter::new(alloc);
    line.take(bytes)?;
    Ok(line)
}
