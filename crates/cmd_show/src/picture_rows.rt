// What is drawn of the rows of a picture, colour by colour.
ghost use Rattle.std.specs.Prelude.{◌+◌, ◌<◌, ◌≤◌, IfOk};
ghost use Rattle.run.specs.Terms.{run_step_limit};

use crate::rows::{Row, Rows};
use crate::view::{Reach, View};
use crate::visits::Span;
use machine_text::{State, Sym};
use std::alloc::{AllocError as NoMemory, Global};
use std::io::Write;
use tape::Tape;

// Where a head stands, and in which state it is.
#[derive(Clone, Copy)]
pub(crate) struct Head {
    pub(crate) state: State,
    pub(crate) column: u64,
    pub(crate) row: u64,
}

// How dark a column is drawn that holds a one.
#[derive(Clone, Copy, PartialEq, Eq)]
enum Tone {
    // Some of its cells hold a one, but not more than half.
    Pale,
    // More than half of its cells hold a one.
    Dark,
}

// What is drawn of so many columns and rows.
#[derive(Drop)]
pub(crate) struct Drawn {
    pub(crate) columns: u64,
    pub(crate) rows: u64,
    // the machine halts on the last row
    pub(crate) halts: bool,
    // the paths of the dark columns, and of the pale ones
    pub(crate) dark: Vec<u8>,
    pub(crate) pale: Vec<u8>,
    pub(crate) heads: Vec<Head>,
}

impl Drawn {
    // What is drawn of all the rows.
    pub(crate) fn of(alloc: Global, mut rows: Rows, view: &View) -> Result<Drawn, NoMemory>
        requires { 0 < view.now.share }
        ensures { IfOk result (λ drawn. drawn.rows ≤ run_step_limit + run_step_limit + 1) }
    {
        let mut drawn = Drawn {
            columns: view.columns(),
            rows: 0,
            halts: false,
            dark: Vec::new(alloc),
            pale: Vec::new(alloc),
            heads: Vec::new(alloc),
        };
        'each: while let Some(row) = rows.next_row()? {
            drawn.take_columns(row, rows.tape(), rows.cells(), view)?;
            if let Some(column) = view.column(rows.tape().head()) {
                drawn.heads.push(Head {
                    state: row.state,
                    column,
                    row: row.number,
                })?;
            }
        }
        drawn.rows = rows.number();
        drawn.halts = rows.halts();
        Ok(drawn)
    }

    // Draws the columns of a row; `visited` has all ones.
    fn take_columns(
        &mut self,
        row: Row,
        tape: &Tape,
        visited: Span,
        view: &View,
    ) -> Result<(), NoMemory>
        requires { 0 < view.now.share }
    {
        let cells = view.reach(visited);
        let columns = view.columns_of(cells);
        let mut tone = None;
        let mut first = columns.from;
        for column in columns.from..columns.to {
            let next = tone_of(tape, view, view.cells_of(column), cells);
            if next != tone {
                self.take_run(row, tone, first, column)?;
                tone = next;
                first = column;
            }
        }
        self.take_run(row, tone, first, columns.to)
    }

    // Draws the columns of a row from the first to before the last.
    fn take_run(
        &mut self,
        row: Row,
        tone: Option<Tone>,
        first: u64,
        end: u64,
    ) -> Result<(), NoMemory> {
        match tone {
            None => Ok(()),
            Some(Tone::Dark) => {
                append_columns(first, row.number, end.saturating_sub(first), &mut self.dark)
            }
            Some(Tone::Pale) => {
                append_columns(first, row.number, end.saturating_sub(first), &mut self.pale)
            }
        }
    }
}

// The tone of a column with these cells, of which those outside of `reached` are blank.
fn tone_of(tape: &Tape, view: &View, cells: Reach, reached: Reach) -> Option<Tone> {
    let ones = ones_among(
        tape,
        view,
        cells.from.max(reached.from),
        cells.to.min(reached.to),
    );
    if ones == 0 {
        return None;
    }
    if ones > cells.to.saturating_sub(cells.from) / 2 {
        Some(Tone::Dark)
    } else {
        Some(Tone::Pale)
    }
}

// How many cells hold a one, from the first to before the last.
fn ones_among(tape: &Tape, view: &View, from: u64, to: u64) -> u64 {
    let mut ones = 0;
    for cell in from..to {
        if tape.cell(view.place(cell)) == Sym::One {
            ones += 1;
        }
    }
    ones
}

// Appends the path of so many columns of a row, from one on.
pub(crate) fn append_columns(
    column: u64,
    row: u64,
    count: u64,
    out: &mut Vec<u8>,
) -> Result<(), NoMemory> {
    write!(out, "M{column} {row}h{count}v1h-{count}z").map_err(|_| NoMemory)
}
