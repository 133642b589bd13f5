// How the lines of a run are laid out, and words that repeat are folded.
ghost use Rattle.std.specs.Prelude.{◌<◌, ◌≤◌, length, IfSome};
ghost use Rattle.cmd_show.specs.Shown.{AreWithinRuns};
ghost use Rattle.machine_text.specs.Terms.{state_limit};

use crate::rows::{Ending, Row, Rows, Times};
use crate::visits::{Span, placement};
use cmd_options::Showing;
use machine_text::{State, Sym, Table};
use std::alloc::Global;
use tape::{NoMemory, Tape};
use text::append_number;

// Which cells each line of a run has, and how they are written.
#[derive(Clone, Copy)]
pub(crate) enum Layout {
    // The cells from the first to the last that holds a one or has the head.
    Plain,
    // Words that repeat are folded, of the same cells.
    Folded,
    // The cells of one frame, with `.` for a blank one.
    Framed(Frame),
}

// The cells that the head visits up to a time.
#[derive(Clone, Copy)]
pub(crate) struct Frame {
    pub(crate) cells: Span,
    // how many digits the time has
    pub(crate) digits: usize,
}

impl Layout {
    // The one that is asked for, of the lines of a table's run at some times.
    pub(crate) fn of(
        alloc: Global,
        t: &Table,
        showing: &Showing,
        times: Times,
    ) -> Result<Layout, NoMemory>
        requires { AreWithinRuns times }
    {
        if showing.align {
            return Ok(Layout::Framed(frame_of(alloc, t, times)?));
        }
        if showing.fold {
            return Ok(Layout::Folded);
        }
        Ok(Layout::Plain)
    }
}

// The frame of a table's run up to the last of some times. It carries out the steps up to then.
fn frame_of(alloc: Global, t: &Table, times: Times) -> Result<Frame, NoMemory>
    requires { AreWithinRuns times }
{
    let mut digits = Vec::new(alloc);
    append_number(times.last(), &mut digits)?;
    let cells = placement(alloc, *t, times.all())?;
    Ok(Frame {
        cells,
        digits: digits.len(),
    })
}

// The most symbols of a word that is folded, and how often it stands at least.
const WORD_LIMIT: usize = 16;

const LEAST_COUNT: usize = 3;

// A word that stands so often at the beginning of a text, one behind the other, and what follows.
#[derive(Clone, Copy)]
struct Power<'a> {
    word: &'a [u8],
    count: usize,
    rest: &'a [u8],
}

// Appends a text with its words folded that stand three times at least, one behind the other, and have 16 symbols at most:
// `1^4` for `1111`, `(01)^3` for `010101`. Of several words that repeat at a place the shortest is folded.
pub(crate) fn append_folded(text: &[u8], out: &mut Vec<u8>) -> Result<(), NoMemory> {
    let mut rest = text;
    // How often the word stands that was appended last.
    let mut before = 0;
    'words: while !rest.is_empty() {
        let power = first_power(rest);
        // Symbols that aren't folded stand side by side.
        if before > 1 || (before == 1 && power.count > 1) {
            out.extend_from_slice(b" ")?;
        }
        append_power(&power, out)?;
        before = power.count;
        rest = power.rest;
    }
    Ok(())
}

// What a text begins with that isn't empty: a word that is folded, or its first symbol.
fn first_power(text: &[u8]) -> Power<'_>
    requires { 0 < length text.now }
    ensures { length result.rest.now < length text.now }
{
    for len in 1..text.len().min(WORD_LIMIT) + 1 {
        let power = power_of(text, len);
        if power.count >= LEAST_COUNT {
            return power;
        }
    }
    let (word, rest) = text.split_at(1);
    Power {
        word,
        count: 1,
        rest,
    }
}

// The word of the first symbols of a text, as often as it stands there.
fn power_of(text: &[u8], len: usize) -> Power<'_>
    requires some { 1 ≤ len }
    requires within { len ≤ length text.now }
    ensures { length result.rest.now < length text.now }
{
    let (word, mut rest) = text.split_at(len);
    let mut count = 1;
    'words: while let Some(more) = behind(word, rest) {
        rest = more;
        count += 1;
    }
    Power { word, count, rest }
}

// What stands behind a word where a text begins with that.
fn behind<'a>(word: &[u8], text: &'a [u8]) -> Option<&'a [u8]>
    requires { 0 < length word.now }
    ensures { IfSome result (λ rest. length rest.now < length text.now) }
{
    text.strip_prefix(word)
}

// Appends a word, in parentheses unless it is one symbol, and how often it stands, unless that is once.
fn append_power(power: &Power<'_>, out: &mut Vec<u8>) -> Result<(), NoMemory> {
    if power.count == 1 {
        return out.extend_from_slice(power.word);
    }
    if power.word.len() == 1 {
        out.extend_from_slice(power.word)?;
    } else {
        out.extend_from_slice(b"(")?;
        out.extend_from_slice(power.word)?;
        out.extend_from_slice(b")")?;
    }
    out.extend_from_slice(b"^")?;
    append_number(power.count as u64, out)
}

// Appends the line of a row, without a newline: the time, and the tape with the head in it. `sides` is memory for that.
pub(crate) fn append_line(
    layout: Layout,
    row: Row,
    rows: &Rows,
    sides: &mut Sides,
    out: &mut Vec<u8>,
) -> Result<(), NoMemory>
    requires { row.state.0 < state_limit }
{
    append_time(layout, row.time, sides, out)?;
    out.extend_from_slice(b"  ")?;
    sides.fill(layout, rows.tape(), rows.cells())?;
    match layout {
        Layout::Plain | Layout::Framed(_) => append_both(row.state, sides, out),
        Layout::Folded => append_both_folded(row.state, sides, out),
    }
}

// Appends a time, in a frame as long as the last one.
fn append_time(
    layout: Layout,
    time: u64,
    sides: &mut Sides,
    out: &mut Vec<u8>,
) -> Result<(), NoMemory> {
    match layout {
        Layout::Plain | Layout::Folded => append_number(time, out),
        Layout::Framed(frame) => append_padded(frame, time, &mut sides.left, out),
    }
}

// Appends a time, with spaces in front where the last one is longer.
fn append_padded(
    frame: Frame,
    time: u64,
    digits: &mut Vec<u8>,
    out: &mut Vec<u8>,
) -> Result<(), NoMemory> {
    digits.clear();
    append_number(time, digits)?;
    for _ in digits.len()..frame.digits {
        out.push(b' ')?;
    }
    out.extend_from_slice(digits)
}

// Appends what is on both sides of the head, with its mark between them.
fn append_both(q: State, sides: &Sides, out: &mut Vec<u8>) -> Result<(), NoMemory>
    requires { q.0 < state_limit }
{
    out.extend_from_slice(&sides.left)?;
    append_mark(q, out)?;
    out.extend_from_slice(&sides.right)
}

// Appends the same with both sides folded.
fn append_both_folded(q: State, sides: &Sides, out: &mut Vec<u8>) -> Result<(), NoMemory>
    requires { q.0 < state_limit }
{
    append_folded(&sides.left, out)?;
    if !sides.left.is_empty() {
        out.extend_from_slice(b" ")?;
    }
    append_mark(q, out)?;
    out.extend_from_slice(b" ")?;
    append_folded(&sides.right, out)
}

// Appends the mark of the head.
fn append_mark(q: State, out: &mut Vec<u8>) -> Result<(), NoMemory>
    requires { q.0 < state_limit }
{
    out.extend_from_slice(&[b'A' + q.0, b'>'])
}

// Appends how a run ends.
pub(crate) fn append_ending(ending: Ending, out: &mut Vec<u8>) -> Result<(), NoMemory> {
    out.extend_from_slice(b"halts ")?;
    append_number(ending.steps, out)?;
    out.extend_from_slice(b" ones ")?;
    append_number(ending.ones, out)
}

// The cells on the left of a head, and those from the head on, a byte a cell. They are filled again and again.
#[derive(Drop)]
pub(crate) struct Sides {
    pub(crate) left: Vec<u8>,
    pub(crate) right: Vec<u8>,
}

impl Sides {
    // No cells. It takes no memory.
    pub(crate) fn new(alloc: Global) -> Sides {
        Sides {
            left: Vec::new(alloc),
            right: Vec::new(alloc),
        }
    }

    // Puts the cells that a layout has of a tape in the place of those that were here; `visited` has all ones.
    pub(crate) fn fill(
        &mut self,
        layout: Layout,
        tape: &Tape,
        visited: Span,
    ) -> Result<(), NoMemory> {
        let (cells, blank) = match layout {
            Layout::Plain | Layout::Folded => (kept_cells(tape, visited), b'0'),
            Layout::Framed(frame) => (frame.cells, b'.'),
        };
        let head = tape.head();
        self.left.clear();
        append_cells(tape, cells.first, head, blank, &mut self.left)?;
        self.right.clear();
        append_cells(
            tape,
            head,
            cells.last.saturating_add(1),
            blank,
            &mut self.right,
        )
    }
}

// The cells from the first to the last that holds a one or has the head.
fn kept_cells(tape: &Tape, visited: Span) -> Span {
    let head = tape.head();
    Span {
        first: first_one(tape, visited.first, head).unwrap_or(head),
        last: last_one(tape, head, visited.last).unwrap_or(head),
    }
}

// The first place from one on, and before another, that holds a one.
fn first_one(tape: &Tape, from: i64, to: i64) -> Option<i64> {
    for x in from..to {
        if tape.cell(x) == Sym::One {
            return Some(x);
        }
    }
    None
}

// The last place up to one, and behind another, that holds a one.
fn last_one(tape: &Tape, behind: i64, last: i64) -> Option<i64> {
    for distance in 0..last.abs_diff(behind) {
        let x = last.saturating_sub_unsigned(distance);
        if tape.cell(x) == Sym::One {
            return Some(x);
        }
    }
    None
}

// Appends the cells from one place on, and before another.
fn append_cells(
    tape: &Tape,
    from: i64,
    to: i64,
    blank: u8,
    out: &mut Vec<u8>,
) -> Result<(), NoMemory> {
    for x in from..to {
        out.push(match tape.cell(x) {
            Sym::Zero => blank,
            Sym::One => b'1',
        })?;
    }
    Ok(())
}
