// A picture as an SVG document, and how large it is made.
ghost use Rattle.std.specs.Prelude.{◌≡◌, ◌*◌, ◌/◌, ◌≤◌, max, min, ◌+◌, ◌++◌, ◌<◌, ◌^◌, IfOk, OnOk};
ghost use Rattle.machine_text.specs.Terms.{state_limit};
ghost use Rattle.cmd_show.specs.Drawn.{IsPictureOf, document, heading, opening};

use crate::picture_rows::{Drawn, Head, append_columns};
use cmd_options::Drawing;
use machine_text::{TEXT_BYTES, Table};
use std::alloc::{AllocError as NoMemory, Global};
use std::io::Write;

// Behind a document's title: the colours, and what stands behind the rows. Ones are dark on a light ground, or light on a
// dark one, as the reader has it. The colours of the seven states, of pale columns and of the line have a contrast of 3:1 to
// both grounds and to ones on both, and are told apart also by people who don't see red, green or blue.
pub(crate) const STYLE: &[u8] =
    b"</title>\n<style>.ground{fill:#fff}.dark{fill:#000}.pale{fill:#808080}.s0{fill:#e66950}.s1{fill:#195feb}.s2{fill:#696400}.s3{fill:#d76ebe}.s4{fill:#2391fa}.s5{fill:#a52daa}.s6{fill:#c3870f}.halt{stroke:#a04b46;stroke-width:2px;vector-effect:non-scaling-stroke}.letter{fill:#000;font:12px sans-serif}@media(prefers-color-scheme:dark){.ground{fill:#111}.dark,.letter{fill:#fff}}</style>\n<rect class='ground' width='100%' height='100%'/>\n";

// The most pixels of a side of a picture whose columns and rows aren't one pixel each.
const MAX_SIDE: u64 = 1000;

// The most pixels that a picture is made high.
const MAX_HEIGHT: u64 = 65_535;

// How many pixels a column is wide, and a row high: one at least.
#[derive(Clone, Copy)]
pub(crate) struct Pixels {
    pub(crate) across: u64,
    pub(crate) down: u64,
}

impl Pixels {
    // As many as are asked for of so many columns and rows, as long as no side is longer than it may be.
    pub(crate) fn of(drawing: &Drawing<'_>, columns: u64, rows: u64) -> Pixels
        ensures across { columns * result.across ≤ max columns 65535 }
        ensures down { rows * result.down ≤ max rows 65535 }
    {
        match drawing.height {
            None => {
                let side = pixels_each(drawing.square, MAX_SIDE, columns.max(rows));
                Pixels {
                    across: side,
                    down: side,
                }
            }
            Some(height) => Pixels {
                across: pixels_each(drawing.square, MAX_SIDE, columns),
                down: pixels_each(height, height.min(MAX_HEIGHT), rows),
            },
        }
    }

    // Whether a cell has room for a mark beside its own colour.
    pub(crate) fn has_room(&self) -> bool {
        self.across >= 3 && self.down >= 3
    }
}

// So many pixels that n of them make no more than a limit, at most so many, and one at least.
fn pixels_each(most: u64, limit: u64, n: u64) -> u64
    ensures { result ≡ max 1 (min most (limit / max n 1)) }
{
    most.min(limit / n.max(1)).max(1)
}

// The document of what is drawn of a table, in so many pixels. Its title is the table's text; a line beneath the last row
// says that the machine halts there, and beneath that stands which colour is which state.
pub(crate) fn picture(
    alloc: Global,
    t: &Table,
    drawn: &Drawn,
    pixels: Pixels,
) -> Result<Vec<u8>, NoMemory>
    requires width { drawn.now.columns * pixels.across < 2 ^ 64 }
    requires height { drawn.now.rows * pixels.down + 65536 ≤ 2 ^ 64 }
    ensures { IfOk result (λ text. IsPictureOf t.now text.items) }
{
    let states = t.states();
    let width = (drawn.columns * pixels.across).max(32 * u64::from(states));
    let height = drawn.rows * pixels.down;
    let mut body = Vec::new(alloc);
    append_rows(states, pixels, drawn, &mut body)?;
    append_halting(pixels, drawn, &mut body)?;
    append_legend(height + 8, states, &mut body)?;
    let mut text = Vec::new(alloc);
    append_document(t, width, height + 24, &body, &mut text)?;
    Ok(text)
}

// Appends the document of a table that is so wide and so high, around what is drawn.
#[tactic(auto, unfolding(crate::specs::Drawn::document))]
fn append_document(
    t: &Table,
    width: u64,
    height: u64,
    drawn: &[u8],
    out: &mut Vec<u8>,
) -> Result<(), NoMemory>
    ensures { OnOk result (out.new.items ≡ out.old.items ++ document t.now width height drawn.now) }
{
    append_heading(t, width, height, out)?;
    out.extend_from_slice(drawn)?;
    out.extend_from_slice(b"</svg>\n")
}

// Appends what stands before the rows.
#[tactic(auto, unfolding(crate::specs::Drawn::heading))]
fn append_heading(t: &Table, width: u64, height: u64, out: &mut Vec<u8>) -> Result<(), NoMemory>
    ensures { OnOk result (out.new.items ≡ out.old.items ++ heading t.now width height) }
{
    let mut buffer = [0; TEXT_BYTES];
    append_opening(width, height, out)?;
    out.extend_from_slice(t.text(&mut buffer))?;
    out.extend_from_slice(STYLE)
}

// Appends the beginning of a document that is so wide and so high, up to its title.
#[tactic(auto, unfolding(crate::specs::Drawn::opening))]
fn append_opening(width: u64, height: u64, out: &mut Vec<u8>) -> Result<(), NoMemory>
    ensures { OnOk result (out.new.items ≡ out.old.items ++ opening width height) }
{
    write!(
        out,
        "<svg xmlns='http://www.w3.org/2000/svg' width='{width}' height='{height}' viewBox='0 0 {width} {height}'>\n\
         <title>"
    )
    .map_err(|_| NoMemory)
}

// Appends the columns, and the heads over them, in a group in which a column and a row are one unit each.
fn append_rows(
    states: u8,
    pixels: Pixels,
    drawn: &Drawn,
    out: &mut Vec<u8>,
) -> Result<(), NoMemory> {
    let Pixels { across, down } = pixels;
    write!(
        out,
        "<g transform='scale({across} {down})' shape-rendering='crispEdges'>\n<path class='dark' d='"
    )
    .map_err(|_| NoMemory)?;
    out.extend_from_slice(&drawn.dark)?;
    out.extend_from_slice(b"'/>\n<path class='pale' d='")?;
    out.extend_from_slice(&drawn.pale)?;
    out.extend_from_slice(b"'/>\n")?;
    for q in 0..states {
        append_heads(q, pixels.has_room(), &drawn.heads, out)?;
    }
    out.extend_from_slice(b"</g>\n")
}

// Appends the heads that are in one state.
fn append_heads(q: u8, room: bool, heads: &[Head], out: &mut Vec<u8>) -> Result<(), NoMemory> {
    write!(out, "<path class='s{q}' d='").map_err(|_| NoMemory)?;
    for head in heads {
        if head.state.0 == q {
            append_head(room, head.column, head.row, out)?;
        }
    }
    out.extend_from_slice(b"'/>\n")
}

// Appends a head: the middle of its cell where that has room, so that its symbol is seen beside it; else the whole cell.
fn append_head(room: bool, column: u64, row: u64, out: &mut Vec<u8>) -> Result<(), NoMemory> {
    if room {
        write!(out, "M{column}.25 {row}.25h.5v.5h-.5z").map_err(|_| NoMemory)
    } else {
        append_columns(column, row, 1, out)
    }
}

// Appends the line of halting, which is empty where the machine doesn't halt.
fn append_halting(pixels: Pixels, drawn: &Drawn, out: &mut Vec<u8>) -> Result<(), NoMemory> {
    let Pixels { across, down } = pixels;
    write!(
        out,
        "<path class='halt' transform='translate(0 1) scale({across} {down})' d='"
    )
    .map_err(|_| NoMemory)?;
    if drawn.halts {
        let Drawn { columns, rows, .. } = drawn;
        write!(out, "M0 {rows}h{columns}").map_err(|_| NoMemory)?;
    }
    out.extend_from_slice(b"'/>\n")
}

// Appends each state's colour, as a square, and its letter beside that, so far from the top.
fn append_legend(y: u64, states: u8, out: &mut Vec<u8>) -> Result<(), NoMemory>
    requires y { y + 1000 ≤ 2 ^ 64 }
    requires states { states ≤ state_limit }
{
    for q in 0..states {
        let left = 32 * u64::from(q);
        let (square, letter, base) = (left + 4, left + 20, y + 11);
        let name = char::from(b'A' + q);
        write!(
            out,
            "<path class='s{q}' d='M{square} {y}h12v12h-12z'/><text class='letter' x='{letter}' y='{base}'>{name}</text>\n"
        )
        .map_err(|_| NoMemory)?;
    }
    Ok(())
}
