// Lists of short texts in columns, and numbers and sides in words.
use crate::closed_sets::{append_counted, append_far, append_listed, append_ngram};
use cert::Certificate;
use kind_evidence::NoMemory;
use machine_text::Dir;
use std::alloc::Global;
use std::fmt;
use text::append_number;

/// Appends the lists of a certificate, automata or words, where it has some; each line with its newline in front.
pub(crate) fn append_lists(
    alloc: Global,
    certificate: &Certificate,
    out: &mut Vec<u8>,
) -> Result<(), NoMemory> {
    match certificate {
        Certificate::Ngram(e) => append_ngram(alloc, e, out),
        Certificate::Far(e) => append_far(alloc, e, out),
        Certificate::Listed(e) => append_listed(alloc, e, out),
        Certificate::Counted(e) => append_counted(alloc, e, out),
        Certificate::Halts(_)
        | Certificate::Cycle(_)
        | Certificate::Translated(_)
        | Certificate::Backward(_)
        | Certificate::Rules(_)
        | Certificate::Named(_)
        | Certificate::Undecided => Ok(()),
    }
}

// The most cells of a list that are printed: so the lists of `F` are whole, and the transitions of `W`.
const MAX_CELLS: usize = 128;

// The most columns of its lines.
const MAX_LINE_COLUMNS: usize = 100;

/// Appends a list under its heading, each line with its newline in front: its first cells in columns, and how many more
/// there are.
pub(crate) fn append_list(
    heading: &str,
    cells: &[Vec<u8>],
    out: &mut Vec<u8>,
) -> Result<(), NoMemory> {
    out.push(b'\n')?;
    out.extend_from_slice(heading.as_bytes())?;
    out.extend_from_slice(b":\n")?;
    append_cells(shown(cells), out)?;
    append_more(cells.len().saturating_sub(MAX_CELLS), out)
}

// The cells that are printed.
fn shown(cells: &[Vec<u8>]) -> &[Vec<u8>] {
    if cells.len() > MAX_CELLS {
        &cells[..MAX_CELLS]
    } else {
        cells
    }
}

// Appends cells in columns that are two wider than the longest.
fn append_cells(cells: &[Vec<u8>], out: &mut Vec<u8>) -> Result<(), NoMemory> {
    let width = longest_cell(cells).saturating_add(2);
    let mut columns: usize = 0;
    for cell in cells {
        columns = columns.saturating_add(width);
        if columns > MAX_LINE_COLUMNS {
            out.push(b'\n')?;
            columns = width;
        }
        append_cell(width, cell, out)?;
    }
    Ok(())
}

// How long the longest of the cells is.
fn longest_cell(cells: &[Vec<u8>]) -> usize {
    let mut longest = 0;
    for cell in cells {
        longest = cell.len().max(longest);
    }
    longest
}

// Appends a cell at the right of its column.
fn append_cell(width: usize, cell: &[u8], out: &mut Vec<u8>) -> Result<(), NoMemory> {
    for _ in cell.len()..width {
        out.push(b' ')?;
    }
    out.extend_from_slice(cell)
}

fn append_more(more: usize, out: &mut Vec<u8>) -> Result<(), NoMemory> {
    if more == 0 {
        return Ok(());
    }
    out.extend_from_slice(b"\n  and ")?;
    append_number(more as u64, out)?;
    out.extend_from_slice(b" more")
}

/// So many of what a noun names, as `1 step` and `2 steps`.
#[derive(Clone, Copy, Debug)]
pub(crate) struct Quantity {
    number: u64,
    noun: &'static str,
}

impl Quantity {
    pub fn of(number: u64, noun: &'static str) -> Quantity {
        Quantity { number, noun }
    }
}

impl fmt::Display for Quantity {
    fn fmt<W: fmt::Write>(&self, f: &mut fmt::Formatter<W>) -> fmt::Result {
        let ending = if self.number == 1 { "" } else { "s" };
        write!(f, "{} {}{ending}", self.number, self.noun)
    }
}

/// A count behind `every`, as `step` and `2 steps`.
#[derive(Clone, Copy, Debug)]
pub(crate) struct Interval {
    number: u64,
    noun: &'static str,
}

impl Interval {
    pub fn of(number: u64, noun: &'static str) -> Interval {
        Interval { number, noun }
    }
}

impl fmt::Display for Interval {
    fn fmt<W: fmt::Write>(&self, f: &mut fmt::Formatter<W>) -> fmt::Result {
        if self.number == 1 {
            return f.write_str(self.noun);
        }
        write!(f, "{} {}s", self.number, self.noun)
    }
}

/// The side that is looked to.
pub(crate) fn ahead(side: Dir) -> &'static str {
    match side {
        Dir::L => "left",
        Dir::R => "right",
    }
}

/// The other one.
pub(crate) fn side_behind(side: Dir) -> &'static str {
    match side {
        Dir::L => "right",
        Dir::R => "left",
    }
}
