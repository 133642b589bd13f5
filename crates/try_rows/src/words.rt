// What the words of a row stand for, the calls by their names, and what a call says that came of it.
ghost use Rattle.std.specs.Prelude.{◌<◌, IfSome};

use crate::boards::say_of;
use crate::devices::Session;
use crate::finding::{Finding, say_automaton, say_scaled};
use crate::keeping::Caller;
use crate::nodes::Station;
use crate::records::{say_judged, say_repeats};
use crate::tapes::{say_steps, say_sweeps};
use machine_text::{TEXT_BYTES, Table};
use std::alloc::{AllocError as NoMemory, Global};
use text::append_number;

/// The first word, and those behind it.
pub fn parted(words: &str) -> (&str, &str) {
    match words.split_once(' ') {
        Some(parts) => parts,
        None => (words, ""),
    }
}

/// A table, by its text.
pub fn table_of(word: &str) -> Option<Table> {
    match Table::parse(word.as_bytes()) {
        Ok(table) => Some(table),
        Err(_) => None,
    }
}

/// A number.
pub fn number_of(word: &str) -> Option<u64> {
    text::decimal_value(word.as_bytes())
}

/// Says that a row can't be read.
pub fn unread(said: &mut Said) -> Result<(), NoMemory> {
    said.text("the row can't be read")
}

/// Says a table.
pub fn say_table(table: &Table, said: &mut Said) -> Result<(), NoMemory> {
    said.bytes(table.text(&mut [0; TEXT_BYTES]))
}

// The most bytes that one escape stands for.
const MOST: usize = 1_000_000;

/// Appends the bytes of a text and says whether it could be read. In it `|` is a newline, `\\` a backslash, `\x41` the
/// byte with this hexadecimal number, and `\*300:x;` so many times the byte `x`.
pub fn unescaped(text: &str, out: &mut Vec<u8>) -> Result<bool, NoMemory> {
    let mut rest = text.as_bytes();
    for _ in 0..text.len() {
        let more = match rest {
            [] => break,
            [b'\\', escape @ ..] => append_escaped(escape, out)?,
            [b'|', more @ ..] => {
                out.push(b'\n')?;
                Some(more)
            }
            [byte, more @ ..] => {
                out.push(*byte)?;
                Some(more)
            }
        };
        match more {
            Some(more) => rest = more,
            None => return Ok(false),
        }
    }
    Ok(true)
}

// Appends what an escape stands for, and answers what follows it; nothing where it is none.
fn append_escaped<'a>(escape: &'a [u8], out: &mut Vec<u8>) -> Result<Option<&'a [u8]>, NoMemory> {
    match escape {
        [b'\\', more @ ..] => {
            out.push(b'\\')?;
            Ok(Some(more))
        }
        [b'x', high, low, more @ ..] => match (digit_of(*high), digit_of(*low)) {
            (Some(high), Some(low)) => {
                out.push(16 * high + low)?;
                Ok(Some(more))
            }
            _ => Ok(None),
        },
        [b'*', run @ ..] => append_run(run, out),
        _ => Ok(None),
    }
}

// Appends a byte as often as is said, `300:x;`.
fn append_run<'a>(run: &'a [u8], out: &mut Vec<u8>) -> Result<Option<&'a [u8]>, NoMemory> {
    let Some((count, more)) = text::cut_at(b':', run) else {
        return Ok(None);
    };
    match (text::decimal_value(count), more) {
        (Some(count), [byte, b';', more @ ..]) if count <= MOST as u64 => {
            for _ in 0..count {
                out.push(*byte)?;
            }
            Ok(Some(more))
        }
        _ => Ok(None),
    }
}

// The value of a hexadecimal digit.
fn digit_of(byte: u8) -> Option<u8>
    ensures { IfSome result (λ digit. digit < 16) }
{
    match byte {
        b'0'..=b'9' => Some(byte - b'0'),
        b'a'..=b'f' => Some(byte - b'a' + 10),
        _ => None,
    }
}

// Room for what most calls say, so that saying it takes no memory.
const ROOM: usize = 16_384;

/// What a call says: words, with a space between each two, and `nothing` where it says none.
#[derive(Drop)]
pub struct Said {
    bytes: Vec<u8>,
}

impl Said {
    /// Nothing yet, with room for more.
    pub fn new(alloc: Global) -> Result<Said, NoMemory> {
        Ok(Said {
            bytes: Vec::with_capacity(alloc, ROOM)?,
        })
    }

    /// Forgets what was said.
    pub fn clear(&mut self) {
        self.bytes.clear();
    }

    /// Says a word.
    pub fn text(&mut self, text: &str) -> Result<(), NoMemory> {
        self.bytes.push(b' ')?;
        self.bytes.extend_from_slice(text.as_bytes())
    }

    /// Says a number.
    pub fn number(&mut self, n: u64) -> Result<(), NoMemory> {
        self.bytes.push(b' ')?;
        append_number(n, &mut self.bytes)
    }

    /// Says a number, or `none`.
    pub fn perhaps(&mut self, n: Option<u64>) -> Result<(), NoMemory> {
        match n {
            Some(n) => self.number(n),
            None => self.text("none"),
        }
    }

    /// Says the number of a refusal; one without a number is want of memory.
    pub fn refusal(&mut self, number: Option<u16>) -> Result<(), NoMemory> {
        match number {
            Some(number) => self.number(u64::from(number)),
            None => Err(NoMemory),
        }
    }

    /// Says bytes: a newline among them as `|`, and one that can't be printed as `?`.
    pub fn bytes(&mut self, bytes: &[u8]) -> Result<(), NoMemory> {
        self.bytes.push(b' ')?;
        for byte in bytes {
            self.bytes.push(match *byte {
                b'\n' => b'|',
                b' '..=b'~' => *byte,
                _ => b'?',
            })?;
        }
        Ok(())
    }

    /// What was said.
    pub fn as_bytes(&self) -> &[u8] {
        match self.bytes.as_slice() {
            [_, said @ ..] => said,
            [] => b"nothing",
        }
    }
}

/// What calls are made on.
#[derive(Drop)]
pub struct Desk {
    alloc: Global,
    // the bytes of a row's text
    bytes: Vec<u8>,
    finding: Finding,
    station: Station,
    // the rows of a session, and what its ledger holds at its end
    given: String,
    kept: Vec<u8>,
}

impl Desk {
    /// Nothing yet.
    pub fn new(alloc: Global) -> Desk {
        Desk {
            alloc,
            bytes: Vec::new(alloc),
            finding: Finding::new(alloc),
            station: Station::new(alloc),
            given: String::new(alloc),
            kept: Vec::new(alloc),
        }
    }

    // Calls whose words end with a text of bytes.
    fn call_with_bytes(
        &mut self,
        name: &str,
        words: &str,
        text: &str,
        said: &mut Said,
    ) -> Result<(), NoMemory> {
        self.bytes.clear();
        if !unescaped(text, &mut self.bytes)? {
            return unread(said);
        }
        let bytes = self.bytes.as_slice();
        match name {
            "on" => self.station.hear(bytes, said),
            "worker" => self.station.begin_worker(bytes, said),
            "kept" => {
                self.kept.clear();
                self.kept.extend_from_slice(bytes)?;
                said.text("given")
            }
            "fails" => Session {
                alloc: self.alloc,
                rows: self.given.as_str(),
                kept: &self.kept,
            }
            .say_failing(words, bytes, said),
            _ => {
                let (states, era) = parted(words);
                self.station.begin_coordinator(states, era, bytes, said)
            }
        }
    }

    // Calls on a node.
    fn call_node(&mut self, name: &str, rest: &str, said: &mut Said) -> Result<(), NoMemory> {
        match name {
            "tick" => self.station.tick(rest, said),
            "work" => self.station.work(said),
            "restart" => self.station.restart(said),
            "stop" => self.station.stop(said),
            "ledger" => self.station.say_ledger(said),
            _ => match self.station.board() {
                Some(board) => say_of(board, name, rest, said),
                None => said.text("no board"),
            },
        }
    }
}

impl Caller for Desk {
    fn call(&mut self, name: &str, rest: &str, said: &mut Said) -> Result<(), NoMemory> {
        match name {
            "steps" => say_steps(self.alloc, rest, said),
            "sweeps" => say_sweeps(self.alloc, rest, said),
            "judge" => say_judged(self.alloc, rest, said),
            "repeats" => say_repeats(self.alloc, rest, said),
            "finder" => self.finding.begin(self.alloc, rest, said),
            "find" => self.finding.find(self.alloc, rest, false, said),
            "seek" => self.finding.find(self.alloc, rest, true, said),
            "automaton" => say_automaton(self.alloc, rest, false, said),
            "stage" => say_automaton(self.alloc, rest, true, said),
            "scaled" => say_scaled(rest, said),
            "given" => {
                self.given.clear();
                self.given.push_str(rest)?;
                said.text("given")
            }
            "on" | "worker" | "kept" => self.call_with_bytes(name, "", rest, said),
            "fails" => {
                let (device, text) = parted(rest);
                self.call_with_bytes(name, device, text, said)
            }
            "coordinator" => {
                let (states, more) = parted(rest);
                let (era, text) = parted(more);
                let len = states.len().saturating_add(1).saturating_add(era.len());
                self.call_with_bytes(name, rest.get(..len).unwrap_or(rest), text, said)
            }
            _ => self.call_node(name, rest, said),
        }
    }
}
