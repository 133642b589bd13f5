// Why lines, ledgers and roots are refused, in words.
ghost use Rattle.std.specs.Prelude.{◌≤◌, IfOk};

use crate::lenient::kept_of;
use crate::likely_lines::{Likeness, likeness_in, likeness_of};
use crate::manner::Lines;
use crate::streams::Shared;
use cert::RecordFault;
use cmd_explain::why_of;
use cmd_lines::LineTaker;
use cmd_options::{Ended, NoMemory, Options};
use cmd_parts::trunk_path;
use cmd_show::table_asked;
use cmd_words::CommandLine;
use files::Files;
use ledger::{LoadFault, peek_root};
use machine_text::{TEXT_BYTES, Table, TextFault};
use std::alloc::Global;
use std::io::{self, Read, Write};
use tnf::{in_order, root};

// Takes lines, and says of each that is refused why it is, behind its number.
#[derive(Drop)]
pub(crate) struct Refusals<'a, 'b, E> {
    alloc: Global,
    lines: Lines,
    // whether blank lines and comments are passed over
    is_lenient: bool,
    // whether it is said of each line
    why: bool,
    // what is said behind the answer
    rest: Option<String>,
    // how many lines there were, and whether one of them is drawn
    count: u64,
    has_drawn: bool,
    faults: &'a Shared<'b, E>,
}

// Why a line is refused.
#[derive(Drop)]
enum Refusal {
    Table(TextFault),
    Record(RecordFault),
    Explained(String),
    TooLong,
    // A table is drawn already.
    AfterOne,
    // A text that is like a table.
    Like(Likeness),
}

impl<'a, 'b, E: Write> Refusals<'a, 'b, E> {
    pub fn new(
        alloc: Global,
        lines: Lines,
        line: &CommandLine<'_>,
        faults: &'a Shared<'b, E>,
    ) -> Refusals<'a, 'b, E> {
        Refusals {
            alloc,
            lines,
            is_lenient: line.lenient,
            why: line.why,
            rest: None,
            count: 0,
            has_drawn: false,
            faults,
        }
    }

    // Says what belongs behind the answer.
    pub fn tell_rest(&mut self) {
        if let Some(rest) = self.rest.take() {
            self.faults.say(&rest);
        }
    }

    // Why the next line is refused, if it is.
    fn refusal_of(&mut self, line: Option<&[u8]>) -> Result<Option<Refusal>, NoMemory> {
        let Some(text) = line else {
            // The command says it itself.
            return Ok(if self.lines == Lines::Others {
                None
            } else {
                Some(Refusal::TooLong)
            });
        };
        match self.refusal_by_text(line, text)? {
            Some(refusal) => match likeness_of(text) {
                Some(likeness) => Ok(Some(Refusal::Like(likeness))),
                None => Ok(Some(refusal)),
            },
            None => Ok(None),
        }
    }

    // Why a line is refused, whatever its text is like.
    fn refusal_by_text(
        &mut self,
        line: Option<&[u8]>,
        text: &[u8],
    ) -> Result<Option<Refusal>, NoMemory> {
        match self.lines {
            Lines::Tables => match Table::parse(text) {
                Ok(_) => Ok(None),
                Err(fault) => Ok(Some(Refusal::Table(fault))),
            },
            Lines::Asked => Ok(fault_of(text)),
            Lines::One => Ok(self.refusal_of_one(text)),
            Lines::Explained => match why_of(self.alloc, line)? {
                Some(words) => Ok(Some(Refusal::Explained(words))),
                None => Ok(None),
            },
            Lines::Any => Ok(passed_over(text)),
            Lines::Others => Ok(None),
        }
    }

    // Why the next line isn't the one that is drawn.
    fn refusal_of_one(&mut self, text: &[u8]) -> Option<Refusal> {
        let refusal = fault_of(text);
        if refusal.is_some() {
            return refusal;
        }
        if self.has_drawn {
            return Some(Refusal::AfterOne);
        }
        self.has_drawn = true;
        None
    }

    fn told(&self, refusal: &Refusal) -> Result<String, NoMemory> {
        let (alloc, line) = (self.alloc, self.count);
        match refusal {
            Refusal::Like(likeness) => format!(in alloc; "line {line}: {likeness}\n"),
            Refusal::Table(fault) => format!(in alloc; "line {line}: {fault}\n"),
            Refusal::Record(fault) => format!(in alloc; "line {line}: {fault}\n"),
            Refusal::Explained(words) => format!(in alloc; "line {line}: {words}\n"),
            Refusal::TooLong => format!(in alloc; "line {line}: it is longer than 65536 bytes\n"),
            Refusal::AfterOne => {
                format!(in alloc;
                    "line {line}: a table is drawn already; --out DIR makes a file of each\n"
                )
            }
        }
    }
}

// What `bb tables` passes over in a line that is like a table.
fn passed_over(text: &[u8]) -> Option<Refusal> {
    let likeness = likeness_in(text)?;
    Some(Refusal::Like(likeness))
}

// Why a line is neither a table nor a record.
fn fault_of(text: &[u8]) -> Option<Refusal> {
    match table_asked(Some(text)) {
        Ok(_) => None,
        Err(RecordFault::BadTable(fault)) => Some(Refusal::Table(fault)),
        Err(fault) => Some(Refusal::Record(fault)),
    }
}

impl<E: Write> LineTaker for Refusals<'_, '_, E> {
    ghost use Rattle.cmd_options.specs.declared.ended.Ended.TheVariants.{NoMemory as WantsMemory};
    ghost use Rattle.std.specs.Prelude.{◌≡◌};

    ghost takes = { λ old line new. Unit {0} };

    ghost ends = { λ e. e ≡ WantsMemory };

    fn take_line(&mut self, line: Option<&[u8]>) -> Result<(), Ended> {
        self.count = self.count.saturating_add(1);
        let line = match line {
            Some(text) if self.is_lenient => match kept_of(text) {
                Some(kept) => Some(kept),
                None => return Ok(()),
            },
            taken => taken,
        };
        match self.refusal_of(line)? {
            Some(Refusal::AfterOne) => self.rest = Some(self.told(&Refusal::AfterOne)?),
            Some(refusal) if self.why => {
                let told = self.told(&refusal)?;
                self.faults.say(&told);
            }
            _ => {}
        }
        Ok(())
    }
}

// More bytes than the first line of a ledger has.
const BEGINNING: usize = 128;

// So many states in words.
const NUMBERS: [&str; 8] = [
    "no states",
    "one state",
    "two states",
    "three states",
    "four states",
    "five states",
    "six states",
    "seven states",
];

/// What is said of it; nothing where nothing was wrong with how ledgers and roots begin. `of_input` are the first bytes of standard
/// input.
pub(crate) fn reason_of<H: Files>(
    alloc: Global,
    files: &H,
    asked: &Options<'_>,
    of_input: &[u8],
) -> Result<Option<String>, NoMemory> {
    match asked {
        Options::Report(reporting) => of_read(alloc, files, reporting.file, of_input),
        Options::Mend(mending) => of_read(alloc, files, mending.ledger, of_input),
        Options::Page(paging) => of_read(alloc, files, paging.ledger.unwrap_or_default(), of_input),
        Options::Look(looking) => of_read(alloc, files, looking.path, of_input),
        Options::Retry(retrying) => of_ledger(alloc, files, retrying.file.path, None),
        Options::Settle(settling) => of_ledger(alloc, files, settling.file.path, None),
        Options::CoordPart(coordinating) => of_ledger(alloc, files, coordinating.file.path, None),
        Options::Carry(carrying) => of_ledger(alloc, files, carrying.ledger, None),
        Options::Merge(merging) => of_two(alloc, files, merging.first, merging.second),
        Options::Coord {
            beginning,
            ledger: Some(file),
            ..
        } => of_ledger(alloc, files, file.path, Some(beginning.states)),
        Options::Run {
            settling,
            ledger: Some(file),
        }
        | Options::Loop {
            settling,
            ledger: Some(file),
        } => of_ledger(alloc, files, file.path, Some(settling.states)),
        Options::Split(splitting) => {
            let trunk = trunk_path(alloc, splitting.folder)?;
            of_ledger(alloc, files, &trunk, Some(splitting.states))
        }
        Options::Walk(walking) => match walking.root {
            Some(text) => of_root(alloc, text, walking.states),
            None => Ok(None),
        },
        Options::Check(_)
        | Options::Decide(_)
        | Options::Explain(_)
        | Options::Show(_)
        | Options::Tables(_)
        | Options::Coord { .. }
        | Options::Work(_)
        | Options::Run { .. }
        | Options::Loop { .. }
        | Options::Join(_)
        | Options::Draw(_) => Ok(None),
    }
}

// Of a ledger that is only read, which may be standard input.
fn of_read<H: Files>(
    alloc: Global,
    files: &H,
    path: &str,
    of_input: &[u8],
) -> Result<Option<String>, NoMemory> {
    if path == "-" {
        let (_, said) = of_bytes(alloc, "standard input", of_input)?;
        return Ok(said);
    }
    of_ledger(alloc, files, path, None)
}

// Of the ledger at a path, which may have to be that of the tree of so many states.
fn of_ledger<H: Files>(
    alloc: Global,
    files: &H,
    path: &str,
    states: Option<u8>,
) -> Result<Option<String>, NoMemory> {
    let (found, said) = of_path(alloc, files, path)?;
    let (Some(found), Some(states)) = (found, states) else {
        return Ok(said);
    };
    if found.states() != states {
        let (has, wanted) = (number(found.states()), number(states));
        let said = format!(in alloc; "{path}: it is of {has}, not of {wanted} as asked\n")?;
        return Ok(Some(said));
    }
    if 1 <= states && states <= 7 && found != root(states) {
        let name = text_of(alloc, &found)?;
        let said = format!(in alloc;
            "{path}: it is of the tree of {name} alone: bb settle goes on with it\n"
        )?;
        return Ok(Some(said));
    }
    Ok(said)
}

// Of two ledgers, which have to be of one tree.
fn of_two<H: Files>(
    alloc: Global,
    files: &H,
    first: &str,
    second: &str,
) -> Result<Option<String>, NoMemory> {
    let (one, said) = of_path(alloc, files, first)?;
    if said.is_some() {
        return Ok(said);
    }
    let (other, said) = of_path(alloc, files, second)?;
    let (Some(one), Some(other)) = (one, other) else {
        return Ok(said);
    };
    if one == other {
        return Ok(said);
    }
    let (one, other) = (text_of(alloc, &one)?, text_of(alloc, &other)?);
    let said = format!(in alloc; "{second}: its root is {other}, and that of {first} is {one}\n")?;
    Ok(Some(said))
}

// Of a table below which a tree of so many states is walked.
fn of_root(alloc: Global, text: &str, states: u8) -> Result<Option<String>, NoMemory> {
    match Table::parse(text.as_bytes()) {
        Err(fault) => Ok(Some(format!(in alloc; "--root {text}: it is no table: {fault}\n")?)),
        Ok(table) if table.states() != states => {
            let (has, wanted) = (number(table.states()), number(states));
            let said = format!(in alloc; "--root {text}: it has {has}, not {wanted} as asked\n")?;
            Ok(Some(said))
        }
        Ok(table) if !in_order(&table) => Ok(Some(out_of_order(alloc, text)?)),
        Ok(_) => Ok(None),
    }
}

// The root of the ledger at a path, or what is wrong with how it begins.
fn of_path<H: Files>(
    alloc: Global,
    files: &H,
    path: &str,
) -> Result<(Option<Table>, Option<String>), NoMemory> {
    if files.is_folder(path) {
        return Ok((None, None));
    }
    let Ok(mut file) = files.open_to_end(path) else {
        return Ok((None, None));
    };
    let mut buffer = [0; BEGINNING];
    let Ok(count) = fill(&mut file.reader, &mut buffer) else {
        return Ok((None, None));
    };
    of_bytes(alloc, path, &buffer[..count])
}

// Reads until the buffer is full, or nothing comes: how many bytes came.
fn fill<R: Read>(from: &mut R, buffer: &mut [u8; BEGINNING]) -> io::Result<usize>
    ensures { IfOk result (λ count. count ≤ 128) }
{
    let mut count = 0;
    for _ in 0..BEGINNING {
        let more = from.read(&mut buffer[count..])?;
        if more == 0 {
            break;
        }
        count += more;
    }
    Ok(count)
}

// The root that the first bytes of a ledger name, or what is wrong with them.
fn of_bytes(
    alloc: Global,
    name: &str,
    bytes: &[u8],
) -> Result<(Option<Table>, Option<String>), NoMemory> {
    let first = match bytes.iter().position(|byte| *byte == b'\n') {
        Some(end) => bytes.get(..=end).unwrap_or(bytes),
        None => bytes,
    };
    let said = match peek_root(first) {
        Ok(Some(root)) => return Ok((Some(root), None)),
        Ok(None) if bytes.is_empty() => format!(in alloc; "{name}: it is empty\n")?,
        Ok(None) if is_out_of_order(first) => out_of_order(alloc, name)?,
        Ok(None) => format!(in alloc; "{name}: its first line isn't whole\n")?,
        Err(LoadFault::WrongRoot) => out_of_order(alloc, name)?,
        Err(_) => format!(in alloc;
            "{name}: it is no ledger: its first line isn't `bb-ledger 2 TABLE`\n"
        )?,
    };
    Ok((None, Some(said)))
}

// Whether a header without its newline names a table whose states aren't in order.
fn is_out_of_order(first: &[u8]) -> bool {
    let mut line = [b'\n'; BEGINNING + 1];
    let length = first.len().min(BEGINNING);
    line[..length].copy_from_slice(&first[..length]);
    peek_root(&line[..=length]) == Err(LoadFault::WrongRoot)
}

fn out_of_order(alloc: Global, name: &str) -> Result<String, NoMemory> {
    format!(in alloc;
        "{name}: its states aren't A, B, C and so on in the order in which they come first\n"
    )
}

fn number(states: u8) -> &'static str {
    NUMBERS
        .get(usize::from(states))
        .copied()
        .unwrap_or("more states")
}

fn text_of(alloc: Global, t: &Table) -> Result<String, NoMemory> {
    let mut buffer = [0; TEXT_BYTES];
    match str::from_utf8(t.text(&mut buffer)) {
        Ok(text) => text.to_string(alloc),
        Err(_) => Ok(String::new(alloc)),
    }
}
