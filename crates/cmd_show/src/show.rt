// `bb show`: lines, the tables that they ask for, and their runs out.
ghost use Rattle.std.specs.Prelude.{◌≡◌, ◌⊎◌, IfErr, IfOk};
ghost use Rattle.text.specs.Terms.{cut_at};
ghost use Rattle.cert.specs.Terms.{record_of};
ghost use Rattle.cmd_lines.specs.Terms.{lent};
ghost use Rattle.cmd_show.specs.Drawn.{table_asked, table_cut, table_recorded};
ghost use Rattle.cmd_show.specs.Shown.{EndsInLines, GrowsByLines};

use crate::printer::Printer;
use cert::{Record, RecordFault};
use cmd_lines::{LineLoop, LineTaker};
use cmd_options::{Ended, Outcome, Showing, told};
use machine_text::Table;
use std::alloc::Global;
use std::io::{Read, Write};
use text::cut_at;

/// The table of a line, which is a table or a record of one, or the fault of its text; the line is none where it was too
/// long.
pub fn table_asked(line: Option<&[u8]>) -> Result<Table, RecordFault>
    ensures { result ≡ table_asked (lent line.entry) }
{
    match line {
        Some(text) => table_in(text),
        None => Err(RecordFault::TooLong),
    }
}

// The table of a text: with a space it is a record.
fn table_in(text: &[u8]) -> Result<Table, RecordFault>
    ensures { result ≡ table_cut (cut_at 32 text.now) text.now }
{
    if cut_at(b' ', text).is_some() {
        return table_recorded(text);
    }
    match Table::parse(text) {
        Ok(table) => Ok(table),
        Err(fault) => Err(RecordFault::BadTable(fault)),
    }
}

// The table of a record's text.
fn table_recorded(text: &[u8]) -> Result<Table, RecordFault>
    ensures { result ≡ table_recorded (record_of text.now) }
{
    match Record::parse(text) {
        Ok(record) => Ok(record.table),
        Err(fault) => Err(fault),
    }
}

// How many bytes are read at once: of a few tables, so that each is answered before many others are shown.
const FEW_BYTES: usize = 64;

// Reads a few lines at a time.
#[derive(Drop)]
pub(crate) struct Asking {
    lines: LineLoop,
    tables: Tables,
}

impl Asking {
    pub fn new(alloc: Global) -> Asking {
        Asking {
            lines: LineLoop::new(alloc),
            tables: Tables {
                asked: Vec::new(alloc),
            },
        }
    }

    // What the lines ask for that were read last.
    pub fn asked(&self) -> &[Result<Table, RecordFault>] {
        &self.tables.asked
    }

    // Reads some bytes more, and answers whether there were any; where there were none, a last line without newline is taken.
    pub fn read<R: Read>(&mut self, input: &mut R) -> Result<bool, Ended>
        ensures { IfErr result (λ e. (e ≡ Ended.NoMemory) ⊎ (e ≡ Ended.Stream)) }
    {
        self.tables.asked.clear();
        let mut buf = [0; FEW_BYTES];
        let count = input.read(&mut buf)?;
        if count == 0 {
            self.lines.end(&mut self.tables)?;
            return Ok(false);
        }
        self.lines.take(&buf[..count], &mut self.tables)?;
        Ok(true)
    }
}

// The tables of lines, and the faults of others.
#[derive(Drop)]
struct Tables {
    asked: Vec<Result<Table, RecordFault>>,
}

impl LineTaker for Tables {
    ghost use Rattle.std.specs.Prelude.{◌≡◌};
    ghost use Rattle.cmd_options.specs.declared.ended.Ended.TheVariants.{NoMemory as WantsMemory};

    ghost takes = { λ old line new. Unit {0} };

    ghost ends = { λ e. e ≡ WantsMemory };

    fn take_line(&mut self, line: Option<&[u8]>) -> Result<(), Ended> {
        match self.asked.push(table_asked(line)) {
            Ok(()) => Ok(()),
            Err(_) => Err(Ended::NoMemory),
        }
    }
}

/// Reads a table or a record a line, and prints the run of each table, as `append_shown` does; of any other line its fault. The
/// lines of a run are printed as they come, in memory for some of them. What a failed stream or refused memory ends is said on
/// `faults`.
pub fn cmd_show<R: Read, W: Write, E: Write>(
    alloc: Global,
    showing: &Showing,
    input: &mut R,
    answers: &mut W,
    faults: &mut E,
) -> Outcome
    ensures { EndsInLines (W.contents answers.old) (W.contents answers.new) result }
{
    told(show_for(alloc, showing, input, answers), faults)
}

// Shows as `cmd_show` does, but answers what ends it early, and doesn't say it.
fn show_for<R: Read, W: Write>(
    alloc: Global,
    showing: &Showing,
    input: &mut R,
    answers: &mut W,
) -> Result<Outcome, Ended>
    ensures lines { IfOk result (λ o. GrowsByLines (W.contents answers.old) (W.contents answers.new)) }
    ensures err { IfErr result (λ e. (e ≡ Ended.NoMemory) ⊎ (e ≡ Ended.Stream)) }
{
    let mut asking = Asking::new(alloc);
    let mut printer = Printer::new(alloc, *showing);
    'pieces: for _ in 0..u64::MAX {
        let more = asking.read(input)?;
        printer.print_all(asking.asked(), answers)?;
        if !more {
            return Ok(printer.outcome());
        }
    }
    // No stream has so many pieces.
    Err(Ended::Stream)
}
