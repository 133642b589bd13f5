// Runs of tables, printed a line at a time.
ghost use Rattle.std.specs.Prelude.{◌≡◌, ◌++◌, ℕ, List, OnOk, ◌⊎◌, [], IfErr, IfOk};
ghost use Rattle.cmd_show.specs.Shown.{IsShownRun, AreWithinRuns};
ghost use Rattle.cmd_show.specs.inside.{KeepsLines};

use crate::lines::{Layout, Sides, append_ending, append_line};
use crate::rows::{Ending, Rows, Times};
use cert::{RecordFault, append_table};
use cmd_lines::append_fault;
use cmd_options::{Ended, Outcome, Showing, write_in_full};
use machine_text::Table;
use std::alloc::Global;
use std::io::Write;
use tape::NoMemory;

/// Appends a table's text, and behind it a line for each time of its run from the blank tape that is asked for: the time, and
/// the tape with the head in it, folded where that is asked for. Where each row is to begin at the same cell, all have those
/// that the head visits up to the last time that is asked for, and times are as long as that one. A run that halts ends with
/// its last configuration, and with a line that says so.
pub fn append_shown(
    alloc: Global,
    showing: &Showing,
    t: &Table,
    out: &mut Vec<u8>,
) -> Result<(), NoMemory>
    ensures { OnOk result ((answer : List ℕ) × IsShownRun t.now answer
        × (out.new.items ≡ out.old.items ++ answer)) }
{
    let mut lines = Vec::new(alloc);
    append_lines(alloc, showing, t, &mut lines)?;
    append_table(t, out)?;
    out.extend_from_slice(&lines)
}

// Appends the lines of a run, each with its newline in front.
fn append_lines(
    alloc: Global,
    showing: &Showing,
    t: &Table,
    out: &mut Vec<u8>,
) -> Result<(), NoMemory> {
    let times = shown_times(showing);
    let layout = Layout::of(alloc, t, showing, times)?;
    let mut rows = Rows::new(alloc, *t, times)?;
    let mut sides = Sides::new(alloc);
    'each: while let Some(row) = rows.next_row()? {
        out.extend_from_slice(b"\n")?;
        append_line(layout, row, &rows, &mut sides, out)?;
    }
    if let Some(ending) = rows.ending() {
        out.extend_from_slice(b"\n")?;
        append_ending(ending, out)?;
    }
    Ok(())
}

// The times that are shown.
pub(crate) fn shown_times(showing: &Showing) -> Times
    ensures { AreWithinRuns result }
{
    Times::new(showing.from, showing.steps, showing.every)
}

// So many bytes of lines are gathered before they are written.
const MANY_BYTES: usize = 16_384;

// Prints the runs of the tables that lines ask for.
#[derive(Drop)]
pub(crate) struct Printer {
    alloc: Global,
    showing: Showing,
    // whole lines that wait to be written
    waits: Vec<u8>,
    // the line that is made
    line: Vec<u8>,
    outcome: Outcome,
}

impl Printer {
    pub fn new(alloc: Global, showing: Showing) -> Printer
        ensures { result.waits.items ≡ [] }
    {
        Printer {
            alloc,
            showing,
            waits: Vec::new(alloc),
            line: Vec::new(alloc),
            outcome: Outcome::Accepted,
        }
    }

    // Accepted where each line was.
    pub fn outcome(&self) -> Outcome {
        self.outcome
    }

    // Prints what each line asked for.
    pub fn print_all<W: Write>(
        &mut self,
        asked: &[Result<Table, RecordFault>],
        answers: &mut W,
    ) -> Result<(), Ended>
        ensures lines { OnOk result (KeepsLines self.old.waits.items (W.contents answers.old)
            self.new.waits.items (W.contents answers.new)) }
        ensures err { IfErr result (λ e. (e ≡ Ended.NoMemory) ⊎ (e ≡ Ended.Stream)) }
    {
        'lines: for table in asked {
            self.print(table, answers)?;
        }
        Ok(())
    }

    // Prints what a line asked for, and writes it.
    fn print<W: Write>(
        &mut self,
        asked: &Result<Table, RecordFault>,
        answers: &mut W,
    ) -> Result<(), Ended>
        ensures lines { OnOk result (KeepsLines self.old.waits.items (W.contents answers.old)
            self.new.waits.items (W.contents answers.new)) }
        ensures err { IfErr result (λ e. (e ≡ Ended.NoMemory) ⊎ (e ≡ Ended.Stream)) }
    {
        self.line.clear();
        let outcome = self.answer(asked, answers)?;
        self.end_line(answers)?;
        self.write(answers)?;
        if self.outcome == Outcome::Accepted {
            self.outcome = outcome;
        }
        Ok(())
    }

    // Makes the answer to a line; what is the last of it isn't ended.
    fn answer<W: Write>(
        &mut self,
        asked: &Result<Table, RecordFault>,
        answers: &mut W,
    ) -> Result<Outcome, Ended>
        ensures lines { IfOk result (λ o. KeepsLines self.old.waits.items (W.contents answers.old)
            self.new.waits.items (W.contents answers.new)) }
        ensures err { IfErr result (λ e. (e ≡ Ended.NoMemory) ⊎ (e ≡ Ended.Stream)) }
    {
        match asked {
            Ok(t) => {
                self.show(t, answers)?;
                Ok(Outcome::Accepted)
            }
            Err(fault) => {
                append_fault(*fault, &mut self.line)?;
                Ok(Outcome::Refused)
            }
        }
    }

    // The table's text, and behind it a line for each time of its run that is asked for.
    fn show<W: Write>(&mut self, t: &Table, answers: &mut W) -> Result<(), Ended>
        ensures lines { OnOk result (KeepsLines self.old.waits.items (W.contents answers.old)
            self.new.waits.items (W.contents answers.new)) }
        ensures err { IfErr result (λ e. (e ≡ Ended.NoMemory) ⊎ (e ≡ Ended.Stream)) }
    {
        append_table(t, &mut self.line)?;
        let times = shown_times(&self.showing);
        let layout = Layout::of(self.alloc, t, &self.showing, times)?;
        let rows = Rows::new(self.alloc, *t, times)?;
        self.show_rows(layout, rows, answers)
    }

    // The lines of all rows, and how the run ends.
    fn show_rows<W: Write>(
        &mut self,
        layout: Layout,
        mut rows: Rows,
        answers: &mut W,
    ) -> Result<(), Ended>
        ensures lines { OnOk result (KeepsLines self.old.waits.items (W.contents answers.old)
            self.new.waits.items (W.contents answers.new)) }
        ensures err { IfErr result (λ e. (e ≡ Ended.NoMemory) ⊎ (e ≡ Ended.Stream)) }
    {
        let mut sides = Sides::new(self.alloc);
        'each: while let Some(row) = rows.next_row()? {
            self.end_line(answers)?;
            append_line(layout, row, &rows, &mut sides, &mut self.line)?;
        }
        self.end_run(rows.ending(), answers)
    }

    // How a run ends, where it does.
    fn end_run<W: Write>(&mut self, ending: Option<Ending>, answers: &mut W) -> Result<(), Ended>
        ensures lines { OnOk result (KeepsLines self.old.waits.items (W.contents answers.old)
            self.new.waits.items (W.contents answers.new)) }
        ensures err { IfErr result (λ e. (e ≡ Ended.NoMemory) ⊎ (e ≡ Ended.Stream)) }
    {
        match ending {
            Some(ending) => self.show_ending(ending, answers),
            None => Ok(()),
        }
    }

    // The line that says so.
    fn show_ending<W: Write>(&mut self, ending: Ending, answers: &mut W) -> Result<(), Ended>
        ensures lines { OnOk result (KeepsLines self.old.waits.items (W.contents answers.old)
            self.new.waits.items (W.contents answers.new)) }
        ensures err { IfErr result (λ e. (e ≡ Ended.NoMemory) ⊎ (e ≡ Ended.Stream)) }
    {
        self.end_line(answers)?;
        append_ending(ending, &mut self.line)?;
        Ok(())
    }

    // Ends the line that was made; lines are written once there are many.
    fn end_line<W: Write>(&mut self, answers: &mut W) -> Result<(), Ended>
        ensures lines { OnOk result (KeepsLines self.old.waits.items (W.contents answers.old)
            self.new.waits.items (W.contents answers.new)) }
        ensures err { IfErr result (λ e. (e ≡ Ended.NoMemory) ⊎ (e ≡ Ended.Stream)) }
    {
        self.line.extend_from_slice(b"\n")?;
        self.waits.append(&mut self.line)?;
        if self.waits.len() < MANY_BYTES {
            return Ok(());
        }
        self.write(answers)
    }

    // Writes the lines that wait.
    fn write<W: Write>(&mut self, answers: &mut W) -> Result<(), Ended>
        ensures lines { OnOk result (KeepsLines self.old.waits.items (W.contents answers.old)
            self.new.waits.items (W.contents answers.new)) }
        ensures err { IfErr result (λ e. e ≡ Ended.Stream) }
    {
        let written = write_in_full(&self.waits, answers);
        self.waits.clear();
        Ok(written?)
    }
}
