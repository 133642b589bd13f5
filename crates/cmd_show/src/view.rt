// Which cells are drawn, and the picture of a table as it is asked for.
ghost use Rattle.std.specs.Prelude.{◌≡◌, ◌<◌, IfOk};
ghost use Rattle.cmd_show.specs.Drawn.{IsPictureOf, IsOneTableAPath};
ghost use Rattle.cmd_show.specs.Shown.{AreWithinRuns};

use crate::document::{Pixels, picture};
use crate::picture_rows::Drawn;
use crate::rows::{Rows, Times};
use crate::visits::{Span, placement};
use cmd_options::Drawing;
use machine_text::Table;
use std::alloc::Global;
use tape::NoMemory;

// Which cells are drawn, and how many of them share a column of the picture.
#[derive(Clone, Copy)]
pub(crate) struct View {
    // the place of the leftmost cell
    left: i64,
    // how many cells are drawn, from there to the right
    width: u64,
    // how many neighbouring cells share a column: 1 at least, and in the last column maybe fewer
    share: u64,
}

// Some cells of a view, by their numbers from the left: from the first to before the last.
#[derive(Clone, Copy)]
pub(crate) struct Reach {
    pub(crate) from: u64,
    pub(crate) to: u64,
}

impl View {
    // The view of the cells of a span, in no more than so many columns; one at least.
    pub(crate) fn of(cells: Span, columns: u64) -> View
        ensures { 0 < result.share }
    {
        View::in_columns(cells.first, cells.width(), columns)
    }

    // The view of so many cells, the one of the first head in the middle.
    pub(crate) fn centred(width: u64, columns: u64) -> View
        ensures { 0 < result.share }
    {
        View::in_columns(0_i64.saturating_sub_unsigned(width / 2), width, columns)
    }

    fn in_columns(left: i64, width: u64, columns: u64) -> View
        ensures { 0 < result.share }
    {
        View {
            left,
            width,
            share: width.div_ceil(columns.max(1)).max(1),
        }
    }

    // How many columns there are.
    pub(crate) fn columns(&self) -> u64
        requires { 0 < self.now.share }
    {
        self.width.div_ceil(self.share)
    }

    // The column of a place; none where the view hasn't that.
    pub(crate) fn column(&self, x: i64) -> Option<u64>
        requires { 0 < self.now.share }
    {
        if x < self.left {
            return None;
        }
        let cell = x.abs_diff(self.left);
        if cell < self.width {
            Some(cell / self.share)
        } else {
            None
        }
    }

    // The place of a cell.
    #[inline]
    pub(crate) fn place(&self, cell: u64) -> i64 {
        self.left.saturating_add_unsigned(cell)
    }

    // The cells that a span has.
    pub(crate) fn reach(&self, cells: Span) -> Reach {
        Reach {
            from: self.cells_before(cells.first),
            to: self.cells_before(cells.last.saturating_add(1)),
        }
    }

    // How many cells are on the left of a place.
    fn cells_before(&self, x: i64) -> u64 {
        if x < self.left {
            0
        } else {
            x.abs_diff(self.left).min(self.width)
        }
    }

    // The columns of some cells, from the first to before the last.
    pub(crate) fn columns_of(&self, cells: Reach) -> Reach
        requires { 0 < self.now.share }
    {
        Reach {
            from: cells.from / self.share,
            to: cells.to.div_ceil(self.share),
        }
    }

    // The cells of a column.
    pub(crate) fn cells_of(&self, column: u64) -> Reach {
        let from = column.saturating_mul(self.share);
        Reach {
            from,
            to: from.saturating_add(self.share).min(self.width),
        }
    }
}

// The picture of a table's run from the blank tape, as an SVG document: at the times and of the cells that are asked for.
pub(crate) fn picture_of(
    alloc: Global,
    t: &Table,
    drawing: &Drawing<'_>,
) -> Result<Vec<u8>, NoMemory>
    ensures { IfOk result (λ text. IsPictureOf t.now text.items) }
{
    let times = times_of(drawing);
    let view = view_of(alloc, t, times, drawing)?;
    let rows = Rows::new(alloc, *t, times)?;
    let drawn = Drawn::of(alloc, rows, &view)?;
    let pixels = Pixels::of(drawing, drawn.columns, drawn.rows);
    picture(alloc, t, &drawn, pixels)
}

// The times that are drawn.
fn times_of(drawing: &Drawing<'_>) -> Times
    ensures { AreWithinRuns result }
{
    // Each step makes one row, where it isn't said how many there are.
    let steps = drawing.steps.unwrap_or(drawing.rows.max(1) - 1);
    Times::new(drawing.from, steps, 1).in_rows(drawing.rows)
}

// The cells that are drawn: so many, or those that the head visits.
fn view_of(alloc: Global, t: &Table, times: Times, drawing: &Drawing<'_>) -> Result<View, NoMemory>
    requires { AreWithinRuns times }
    ensures { IfOk result (λ view. 0 < view.share) }
{
    if drawing.width == 0 {
        let visited = placement(alloc, *t, times)?;
        Ok(View::of(visited, drawing.columns))
    } else {
        Ok(View::centred(drawing.width, drawing.columns))
    }
}

/// In one folder no two tables have one path, so no picture is put over that of another table.
pub fn paths_are_apart()
    ensures { IsOneTableAPath }
{}
