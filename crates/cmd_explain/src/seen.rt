// `bb explain --run`: what is seen of runs in their first steps, in words, where nothing is claimed of a table.
ghost use Rattle.std.specs.Prelude.{◌≡◌, ℕ, ◌+◌, ◌≤◌, IfOk, ◌⊎◌, ◌∷◌, [], ◌++◌, List, min, IfErr, OnOk};
ghost use Rattle.machine_text.specs.Terms.{entry_of, table_of, text_of};
ghost use Rattle.law_turing.specs.Terms.{HaltsAt};
ghost use Rattle.run.specs.Terms.{run_step_limit};
ghost use Rattle.cmd_explain.specs.Explained.{IsSeen, SaysSeen, SeesRun, seen_text, table_alone, table_if, table_parsed, table_run};
ghost use Rattle.cert.specs.Terms.{claim_of, read_as};
ghost use Rattle.cmd_lines.specs.Terms.{read_line, AnswersFirst, WritesFirst, AnswersStream, lent};

use crate::columns::Quantity;
use crate::explain::explain_line;
use cert::{Certificate, Record, RecordFault, append_table};
use cmd_lines::{Sayer, read_line, say_lines};
use cmd_options::{Ended, Outcome, Showing};
use cmd_show::{Visits, append_shown};
use kind_evidence::NoMemory;
use machine_text::Table;
use run::{MAX_RUN_STEPS, Runner, Step};
use std::alloc::Global;
use std::io::{Read, Write};
use text::append_number;

/// The growth from one number to another in 64 times the steps, in words: it is 64, 8, 4 or 1 times as much, whichever is
/// nearest on a scale of ratios. So the squares of the numbers are compared: 512 is 64 times 8, and so on.
pub(crate) fn growth_text(early: u64, late: u64) -> &'static str {
    let before = square(early);
    let behind = square(late);
    if before <= behind / 512 {
        "linearly: of 64, 8, 4 and 1 times as many cells, 64 times is nearest"
    } else if before <= behind / 32 {
        "like the square root of the time: of 64, 8, 4 and 1 times as many cells, 8 times is nearest"
    } else if before <= behind / 4 {
        "like the cube root of the time: of 64, 8, 4 and 1 times as many cells, 4 times is nearest"
    } else {
        "like a logarithm of the time, or more slowly: of 64, 8, 4 and 1 times as many cells, 1 time is nearest"
    }
}

// No square of a number of 64 bits is too large.
fn square(number: u64) -> u128 {
    u128::from(number).saturating_mul(u128::from(number))
}

/// Cells that a head visited, on both sides of its start.
#[derive(Clone, Copy, Debug, PartialEq, Eq)]
pub(crate) struct Cells {
    /// How many are left of the start.
    pub left: u64,
    /// How many are right of it.
    pub right: u64,
}

impl Cells {
    fn of(visits: &Visits) -> Cells {
        Cells {
            left: visits.first().unsigned_abs(),
            right: visits.last().unsigned_abs(),
        }
    }

    /// How many they are, with the start.
    pub fn count(self) -> u64 {
        self.left.saturating_add(self.right).saturating_add(1)
    }
}

/// What is seen of a run.
#[derive(Clone, Copy, Debug, PartialEq, Eq)]
pub(crate) enum Seen {
    /// A run that halts after so many steps, with so many ones.
    Halts { steps: u64, ones: u64 },
    /// One that goes on; the cells that are visited in a 64th of the steps, and in all of them.
    Goes { early: Cells, cells: Cells },
}

/// Carries out so many steps of a table's run, unless it halts before.
pub(crate) fn see(alloc: Global, t: Table, steps: u64) -> Result<Seen, NoMemory>
    requires { steps ≤ run_step_limit }
    ensures { IfOk result (λ seen. IsSeen (entry_of t) steps seen) }
{
    let mut runner = Runner::new(alloc, t)?;
    let mut visits = Visits::at_start();
    let step = visits.visit_to(&mut runner, steps / 64)?;
    match step {
        Step::Halts { count } => Ok(halted(runner, count)),
        Step::Went => see_on(runner, visits, steps),
    }
}

// Goes on from a 64th of the steps, with the cells that were visited up to then.
fn see_on(mut runner: Runner, mut visits: Visits, steps: u64) -> Result<Seen, NoMemory>
    requires onward { runner.steps ≤ steps }
    requires limit { steps ≤ run_step_limit }
    ensures { IfOk result (λ seen. IsSeen (entry_of runner.table) steps seen) }
{
    let early = Cells::of(&visits);
    let step = visits.visit_to(&mut runner, steps)?;
    match step {
        Step::Halts { count } => Ok(halted(runner, count)),
        Step::Went => Ok(Seen::Goes {
            early,
            cells: Cells::of(&visits),
        }),
    }
}

// What is seen of a run that stands on a halting pair.
fn halted(runner: Runner, count: u64) -> Seen
    requires halts { HaltsAt (entry_of runner.table) count }
    requires last { count ≡ runner.steps + 1 }
    ensures { (k : ℕ) → count ≤ k → IsSeen (entry_of runner.table) k result }
{
    // Opens the invariant of the runner: it stands on its table's run.
    let _ = runner.steps();
    Seen::Halts {
        steps: count,
        ones: runner.into_score(),
    }
}

/// The words for what is seen in so many steps, each line with its newline.
pub(crate) fn seen_words(alloc: Global, steps: u64, seen: Seen) -> Result<String, NoMemory> {
    match seen {
        Seen::Halts { steps, ones } => halted_words(alloc, steps, ones),
        Seen::Goes { early, cells } => goes_words(alloc, steps, early, cells),
    }
}

fn halted_words(alloc: Global, steps: u64, ones: u64) -> Result<String, NoMemory> {
    let steps = Quantity::of(steps, "step");
    let ones = Quantity::of(ones, "one");
    format!(in alloc;
        "It halts after {steps}, the halting step counted, with {ones} on its tape.\n"
    )
}

fn goes_words(alloc: Global, steps: u64, early: Cells, cells: Cells) -> Result<String, NoMemory> {
    let visited = visited_words(alloc, cells)?;
    let growth = growth_words(alloc, steps, early, cells)?;
    let steps = Quantity::of(steps, "step");
    format!(in alloc; "Seen in {steps}, not proved:\n{visited}{growth}")
}

// Which cells the head visits: the start is cell 0, and each beyond those before it is new once.
fn visited_words(alloc: Global, cells: Cells) -> Result<String, NoMemory> {
    let count = cells_of(cells);
    let (left, right) = (cells.left, cells.right);
    let sign = if left == 0 { "" } else { "-" };
    let at_left = Quantity::of(left, "time");
    let at_right = Quantity::of(right, "time");
    format!(in alloc;
        "The head visits {count}, from {sign}{left} to {right}.\nIt comes to a new cell {at_left} at the left and \
         {at_right} at the right.\n"
    )
}

// How they grow; of fewer than 64 steps no growth is told.
fn growth_words(alloc: Global, steps: u64, early: Cells, cells: Cells) -> Result<String, NoMemory> {
    if steps < 64 {
        return Ok(String::new(alloc));
    }
    let before = cells_of(early);
    let behind = cells_of(cells);
    let early_steps = Quantity::of(steps / 64, "step");
    let all_steps = Quantity::of(steps, "step");
    let growth = growth_text(early.count(), cells.count());
    format!(in alloc;
        "From {before} after {early_steps} to {behind} after {all_steps} they grow {growth}.\n"
    )
}

fn cells_of(cells: Cells) -> Quantity {
    Quantity::of(cells.count(), "cell")
}

// How many bytes are read at once: of a few tables, so that each is answered before many others are run.
const FEW_BYTES: usize = 64;

// How many steps are shown.
const SHOWN_STEPS: u64 = 100;

/// Explains as `cmd_explain` does; but a table alone, and that of a record without a certificate, is run for so many steps,
/// and what was seen is printed. Where that ends early, what was printed is the answers to the first lines, in full unless a
/// stream failed.
pub fn explain_run_for<R: Read, W: Write>(
    alloc: Global,
    steps: u64,
    input: &mut R,
    answers: &mut W,
) -> Result<Outcome, Ended>
    ensures ok { IfOk result (AnswersStream (SaysSeen steps) (R.remaining input.old) (R.remaining input.new)
        (W.contents answers.old) (W.contents answers.new)) }
    ensures first { IfErr result (WritesFirst (AnswersFirst (SaysSeen steps) (R.remaining input.old)
        (R.remaining input.new)) (W.contents answers.old) (W.contents answers.new)) }
    ensures err { IfErr result (λ e. (e ≡ Ended.NoMemory) ⊎ (e ≡ Ended.Stream)) }
{
    let seer = Seer { alloc, steps };
    let (outcome, _) = say_lines(alloc, seer, FEW_BYTES, input, answers)?;
    Ok(outcome)
}

// Says what is seen in so many steps.
#[derive(Drop)]
struct Seer {
    alloc: Global,
    steps: u64,
}

impl Sayer for Seer {
    ghost use Rattle.std.specs.Prelude.{◌≡◌};
    ghost use Rattle.cmd_options.specs.declared.ended.Ended.TheVariants.{NoMemory as WantsMemory};
    ghost use Rattle.cmd_explain.specs.inside.{KeepsSteps};

    ghost takes = { KeepsSteps (λ s. s.steps) };

    ghost ends = { λ e. e ≡ WantsMemory };

    fn take_line(&mut self, line: Option<&[u8]>, said: &mut Vec<u8>) -> Result<Outcome, Ended> {
        Ok(see_line(self.alloc, self.steps, line, said)?)
    }
}

/// Appends the answer to a line, which is none where it was too long, with a newline.
pub fn see_line(
    alloc: Global,
    steps: u64,
    line: Option<&[u8]>,
    out: &mut Vec<u8>,
) -> Result<Outcome, NoMemory>
    ensures { IfOk result (λ o. (answer : List ℕ) × SaysSeen steps (lent line.entry) o answer
        × (out.new.items ≡ out.old.items ++ answer ++ 10 ∷ [])) }
{
    match table_run(line, &read_line(line)) {
        Some(t) => {
            append_run(alloc, steps.min(MAX_RUN_STEPS), &t, out)?;
            out.push(b'\n')?;
            Ok(Outcome::Accepted)
        }
        None => {
            let outcome = explain_line(alloc, line, out)?;
            Ok(outcome)
        }
    }
}

// The table that is run.
fn table_run(line: Option<&[u8]>, read: &Result<Record<'_>, RecordFault>) -> Option<Table>
    ensures { result ≡ table_run (lent line.entry) (read_as read.now) }
{
    match read {
        Ok(record) => table_if(&record.certificate, record.table),
        Err(_) => table_alone(line),
    }
}

// A table, where nothing is claimed of it.
fn table_if(certificate: &Certificate, t: Table) -> Option<Table>
    ensures { result ≡ table_if (claim_of certificate.now) t }
{
    match certificate {
        Certificate::Undecided => Some(t),
        _ => None,
    }
}

fn table_alone(line: Option<&[u8]>) -> Option<Table>
    ensures { result ≡ table_alone (lent line.entry) }
{
    match line {
        Some(text) => table_parsed(text),
        None => None,
    }
}

fn table_parsed(text: &[u8]) -> Option<Table>
    ensures { result ≡ table_parsed (table_of text.now) }
{
    match Table::parse(text) {
        Ok(table) => Some(table),
        Err(_) => None,
    }
}

// Appends a table, what is seen of its run, and its first configurations.
fn append_run(alloc: Global, steps: u64, t: &Table, out: &mut Vec<u8>) -> Result<(), NoMemory>
    requires { steps ≤ run_step_limit }
    ensures { OnOk result ((answer : List ℕ) × SeesRun steps t.now answer
        × (out.new.items ≡ out.old.items ++ answer)) }
{
    let seen = see(alloc, *t, steps)?;
    let told = told_of(alloc, steps, t, seen)?;
    append_answer(t, seen, out)?;
    out.extend_from_slice(&told)?;
    out.push(b'\n')?;
    Ok(())
}

// Appends the line of a table and of what is seen.
fn append_answer(t: &Table, seen: Seen, out: &mut Vec<u8>) -> Result<(), NoMemory>
    ensures { OnOk result (out.new.items ≡ out.old.items ++ text_of t.now ++ seen_text seen ++ 10 ∷ []) }
{
    append_table(t, out)?;
    append_verdict(seen, out)?;
    out.push(b'\n')?;
    Ok(())
}

// Appends what is seen as `bb check` says it.
#[tactic(auto, unfolding(crate::specs::Explained::seen_text))]
fn append_verdict(seen: Seen, out: &mut Vec<u8>) -> Result<(), NoMemory>
    ensures { OnOk result (out.new.items ≡ out.old.items ++ seen_text seen) }
{
    match seen {
        Seen::Halts { steps, ones } => {
            out.extend_from_slice(b" halts ")?;
            append_number(steps, out)?;
            out.extend_from_slice(b" ones ")?;
            append_number(ones, out)
        }
        Seen::Goes { .. } => out.extend_from_slice(b" undecided"),
    }
}

// The words for what is seen, and the first configurations, without the newline of the last line.
fn told_of(alloc: Global, steps: u64, t: &Table, seen: Seen) -> Result<Vec<u8>, NoMemory> {
    let words = seen_words(alloc, steps, seen)?;
    let mut told = Vec::from_slice(alloc, words.as_bytes())?;
    append_shown(alloc, &first_steps(steps), t, &mut told)?;
    Ok(told)
}

// A hundred steps are shown, folded, and none beyond those that are seen.
fn first_steps(steps: u64) -> Showing {
    Showing {
        from: 0,
        steps: steps.min(SHOWN_STEPS),
        every: 1,
        fold: true,
        align: false,
    }
}
