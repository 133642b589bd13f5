// What a line that is no table may be meant for, and what is said of what is odd.
use crate::manner::{Manner, Source};
use cmd_options::NoMemory;
use machine_text::Table;
use std::alloc::Global;
use std::fmt;
use system::{Oddity, Packing};

// The text of a table of seven states, the largest there are, has so many bytes.
const LONGEST: usize = 48;

// An entry has so many bytes.
const ENTRY: usize = 3;

// A table has so many states at most.
const STATES: usize = 7;

// What a word is like that is no table.
#[derive(Clone, Copy, Debug, PartialEq, Eq)]
pub(crate) enum Likeness {
    // A table with letters in lower case.
    LowerCase,
    // A table of so many symbols, more than two.
    Symbols(usize),
    // A table of so many states, more than seven.
    States(usize),
    // A table with this byte behind it.
    Followed(u8),
    // A table with spaces between its entries.
    Spaced,
}

impl fmt::Display for Likeness {
    fn fmt<W: fmt::Write>(&self, f: &mut fmt::Formatter<W>) -> fmt::Result {
        match self {
            Likeness::LowerCase => write!(f, "its letters are in lower case"),
            Likeness::Symbols(count) => {
                write!(f, "it is like a table of {count} symbols, and bb's have 2")
            }
            Likeness::States(count) => {
                write!(
                    f,
                    "it is like a table of {count} states, and bb's have 1 to 7"
                )
            }
            Likeness::Followed(b'\r') => write!(f, "a CR is behind the table: --lenient takes it"),
            Likeness::Followed(byte) if byte.is_ascii_graphic() => {
                let character = char::from(*byte);
                write!(
                    f,
                    "`{character}` is behind the table: bb tables takes the table alone"
                )
            }
            Likeness::Followed(_) => {
                write!(
                    f,
                    "a blank is behind the table: bb tables takes the table alone"
                )
            }
            Likeness::Spaced => write!(
                f,
                "it is like a table with spaces, and bb's entries stand together: 1RB1LB_1LA---"
            ),
        }
    }
}

// What the first word of a line is like.
pub(crate) fn likeness_of(line: &[u8]) -> Option<Likeness> {
    let word = match line.iter().position(|byte| *byte == b' ') {
        Some(end) => &line[..end],
        None => line,
    };
    if is_in_lower_case(word) {
        return Some(Likeness::LowerCase);
    }
    if let Some(byte) = byte_behind(line) {
        return Some(Likeness::Followed(byte));
    }
    if is_spaced(line) {
        return Some(Likeness::Spaced);
    }
    match shape_of(word)? {
        (states, 2) if states > STATES => Some(Likeness::States(states)),
        (_, 2) => None,
        (_, symbols) => Some(Likeness::Symbols(symbols)),
    }
}

// The byte behind a table at a line's beginning, where it isn't the record's space.
fn byte_behind(line: &[u8]) -> Option<u8> {
    for states in 1..=STATES {
        let (table, rest) = line.split_at_checked(7 * states - 1)?;
        let byte = *rest.first()?;
        let is_alone = byte != b' ' || rest.iter().all(|byte| *byte == b' ');
        if !is_of_table(byte) && is_alone && Table::parse(table).is_ok() {
            return Some(byte);
        }
    }
    None
}

// Whether a line has entries alone, two of each of two states or more, with spaces between them.
fn is_spaced(line: &[u8]) -> bool {
    let mut count = 0_usize;
    for word in line
        .split(|byte| *byte == b' ')
        .filter(|word| !word.is_empty())
    {
        if word.len() != ENTRY || !word.iter().all(|byte| is_of_table(*byte)) {
            return false;
        }
        count = count.saturating_add(1);
    }
    count >= 4 && count % 2 == 0
}

// What the first of a text's words that are like tables is like.
pub(crate) fn likeness_in(text: &[u8]) -> Option<Likeness> {
    if is_spaced(text) {
        return Some(Likeness::Spaced);
    }
    for word in text.split(|byte| !is_of_table(byte.to_ascii_uppercase())) {
        let likeness = likeness_of(word);
        if likeness.is_some() {
            return likeness;
        }
    }
    None
}

// Whether a word is a table only once its letters are in upper case.
fn is_in_lower_case(word: &[u8]) -> bool {
    if word.len() > LONGEST || !word.iter().any(|byte| byte.is_ascii_lowercase()) {
        return false;
    }
    let mut upper = [0; LONGEST];
    for (place, byte) in word.iter().enumerate() {
        upper[place] = byte.to_ascii_uppercase();
    }
    Table::parse(&upper[..word.len()]).is_ok()
}

// How many states and symbols a table has whose rows, of two entries or more, are as long as one another.
fn shape_of(word: &[u8]) -> Option<(usize, usize)> {
    let row = word
        .iter()
        .position(|byte| *byte == b'_')
        .unwrap_or(word.len());
    let is_table = row >= 2 * ENTRY
        && row % ENTRY == 0
        && word.iter().enumerate().all(|(place, byte)| {
            (place % (row + 1) == row) == (*byte == b'_') && is_of_table(*byte)
        })
        && word.len() % (row + 1) == row;
    if is_table {
        Some(((word.len() + 1) / (row + 1), row / ENTRY))
    } else {
        None
    }
}

// Whether a byte may stand in a table of however many symbols and states.
fn is_of_table(byte: u8) -> bool {
    byte == b'-' || byte == b'_' || byte.is_ascii_digit() || byte.is_ascii_uppercase()
}

// Of what a name stands for: a file, or standard input.
#[derive(Clone, Copy, Debug, PartialEq, Eq)]
pub(crate) enum Place<'a> {
    File(&'a str),
    Input,
}

// The line that says it. A folder may have a trunk and parts.
pub(crate) fn advice(
    alloc: Global,
    manner: Manner,
    place: Place<'_>,
    oddity: Oddity,
    has_parts: bool,
) -> Result<String, NoMemory> {
    let (name, file) = match place {
        Place::File(path) => (path, path),
        Place::Input => ("standard input", "FILE"),
    };
    match oddity {
        Oddity::Packed(packing) => {
            let (by, command) = unpacking_of(packing);
            let rest = rest_of(alloc, manner, place)?;
            format!(in alloc; "{name}: it is compressed by {by}: {command} -dc {file}{rest}\n")
        }
        Oddity::CarriageReturn => {
            let rest = rest_of(alloc, manner, place)?;
            format!(in alloc; "{name}: its first line ends in CR LF: tr -d '\\r' < {file}{rest}\n")
        }
        Oddity::NoText => format!(in alloc; "{name}: it is no text\n"),
        Oddity::Folder if !has_parts => format!(in alloc; "{name}: it is a folder\n"),
        Oddity::Folder if manner.name == "settle" => {
            format!(in alloc;
                "{name}: it is a folder: contrib/parallel.sh {file} settles its parts\n"
            )
        }
        Oddity::Folder if manner.name == "report -" => {
            format!(in alloc; "{name}: it is a folder: bb join {file}\n")
        }
        Oddity::Folder => format!(in alloc;
            "{name}: it is a folder: bb join {file} --ledger NEW writes one ledger of it\n"
        ),
    }
}

// What something is compressed by, and the command that unpacks it.
fn unpacking_of(packing: Packing) -> (&'static str, &'static str) {
    match packing {
        Packing::Xz => ("xz", "xz"),
        Packing::Gzip => ("gzip", "gzip"),
        Packing::Zstd => ("zstd", "zstd"),
        Packing::Bzip2 => ("bzip2", "bzip2"),
    }
}

// Where what is right then goes: to the command, where it reads that on standard input, or to a file.
fn rest_of(alloc: Global, manner: Manner, place: Place<'_>) -> Result<String, NoMemory> {
    match (manner.source, place) {
        (Source::LedgerOrInput, _) | (Source::Lines | Source::LedgersOrInput, Place::Input) => {
            format!(in alloc; " | bb {}", manner.name)
        }
        _ => " > NEW".to_string(alloc),
    }
}
