// What the words of an argument or an option are: numbers, lines, addresses and files.
ghost use Rattle.std.specs.Prelude.{◌≡◌, ◌*◌, ◌^◌, ◌∷◌, ℕ, List, IfSome, IfOk, map, option_map};
ghost use Rattle.cmd_words.specs.Asked.{ReadsOn, IsDecimal, IsGrouped, IsNumeral, IsSource, rows_found};
ghost use Rattle.clap.specs.Words.{all_of};

use crate::arguments::{INPUT, LINES};
use crate::line_fault::LineFault;
use crate::reading::text_of;
use clap::ArgMatches;
use cmd_options::{LedgerFile, NoMemory, Number, Options};
use std::alloc::Global;

/// An argument or an option of a command.
#[derive(Clone, Copy)]
pub(crate) enum Argument {
    Number(Number),
    Text(Text),
    /// A text that is given where the flag of the name isn't, and only there.
    TextUnless(Text, &'static str),
    /// A text that can be given only where the option of the name is.
    TextWith(Text, &'static str),
    /// Any number of texts, which can be given only where the option of the name isn't.
    Texts(Text, &'static str),
    Flag(Flag),
}

/// Any text, as a path or a title.
#[derive(Clone, Copy)]
pub(crate) struct Text {
    /// What it is read by, and the word of an option.
    pub(crate) name: &'static str,
    /// What help calls the value of an option; none of an argument, which has to be given.
    pub(crate) value: Option<&'static str>,
    /// What help says of it.
    pub(crate) help: &'static str,
}

/// An option without a value.
#[derive(Clone, Copy)]
pub(crate) struct Flag {
    /// What it is read by, and its word.
    pub(crate) name: &'static str,
    /// The names of options without which it can't be given.
    pub(crate) needs: &'static [&'static str],
    /// The names of options with which it can't be given.
    pub(crate) excludes: &'static [&'static str],
    /// What help says of it.
    pub(crate) help: &'static str,
}

/// The fault where a word is no number of the range, in clap's words; with a hint where it is a path.
pub(crate) fn no_number(alloc: Global, word: &str, number: Number) -> LineFault {
    match refusal(alloc, word, number) {
        Ok(text) => {
            if is_path(word) {
                LineFault::PathForNumber(text)
            } else {
                LineFault::NoNumber(text)
            }
        }
        Err(NoMemory) => LineFault::NoMemory,
    }
}

// Whether a word is more likely a path than a number that is written in another way.
fn is_path(word: &str) -> bool {
    let is_name = word
        .bytes()
        .any(|byte| byte.is_ascii_alphabetic() && byte != b'e');
    word.contains('/') || (word.contains('.') && is_name)
}

fn refusal(alloc: Global, word: &str, number: Number) -> Result<String, NoMemory> {
    let name = number.name;
    let place = match number.value {
        Some(value) => format!(in alloc; "--{name} <{value}>")?,
        None => format!(in alloc; "<{name}>")?,
    };
    let reason = reason(alloc, word, number)?;
    Ok(format!(in alloc;
        "error: invalid value '{word}' for '{place}': {reason}\n\nFor more information, try '--help'.\n"
    )?)
}

// Why it is no number of the range.
fn reason(alloc: Global, word: &str, number: Number) -> Result<String, NoMemory> {
    let (least, most) = (number.least, number.most);
    match number_read(word) {
        Some(given) if most == u64::MAX => {
            Ok(format!(in alloc; "{given} is not in {least}..{most}")?)
        }
        Some(given) => Ok(format!(in alloc; "{given} is not in {least}..={most}")?),
        None => "a number is written as 1000, 1_000 or 1e3".to_string(alloc),
    }
}

/// The number that a word is, if it is one.
pub(crate) fn number_read(word: &str) -> Option<u64>
    ensures { IfSome result (IsNumeral word.now) }
{
    if let Ok(number) = word.parse::<u64>() {
        return Some(number);
    }
    match word.split_once('e') {
        Some((digits, zeros)) => scaled(digits, zeros),
        None => grouped(word),
    }
}

// Digits, with so many zeros behind them.
fn scaled(digits: &str, zeros: &str) -> Option<u64>
    ensures { IfSome result (λ n. (a : ℕ) × IsDecimal digits.now a × (e : ℕ) × IsDecimal zeros.now e
        × (n ≡ a * 10 ^ e)) }
{
    let (Ok(number), Ok(zeros)) = (digits.parse::<u64>(), zeros.parse::<u32>()) else {
        return None;
    };
    number.checked_mul(10_u64.checked_pow(zeros)?)
}

// What was read of a word so far: its number, and whether it ends with a digit.
#[derive(Clone, Copy)]
struct Front {
    number: u64,
    ends_with_digit: bool,
}

// Digits, with a `_` between some of them.
fn grouped(word: &str) -> Option<u64>
    ensures { IfSome result (IsGrouped word.now) }
{
    let mut front = Front {
        number: 0,
        ends_with_digit: false,
    };
    for byte in word.as_bytes() {
        front = with_byte(front, *byte)?;
    }
    if front.ends_with_digit {
        Some(front.number)
    } else {
        None
    }
}

// One byte more.
#[tactic(auto, unfolding(crate::specs::Asked::are_between))]
fn with_byte(front: Front, byte: u8) -> Option<Front>
    ensures { IfSome result (λ next. (rest : List ℕ) (n : ℕ)
        → ReadsOn next.number next.ends_with_digit rest n
        → ReadsOn front.number front.ends_with_digit (byte ∷ rest) n) }
{
    if byte == b'_' {
        return if front.ends_with_digit {
            Some(Front {
                number: front.number,
                ends_with_digit: false,
            })
        } else {
            None
        };
    }
    if !byte.is_ascii_digit() {
        return None;
    }
    let number = front
        .number
        .checked_mul(10)?
        .checked_add(u64::from(byte - b'0'))?;
    Some(Front {
        number,
        ends_with_digit: true,
    })
}

// In place of a path: standard input.
const STANDARD_INPUT: &str = "-";

/// Where `check`, `decide`, `explain`, `show` and `draw` read their lines; any other command has the standard input here.
#[derive(Debug, Drop)]
pub enum Source<'a> {
    /// On standard input.
    Standard,
    /// In the file at this path, which `--input` names.
    File(&'a str),
    /// On the command line: each argument is one, in their order.
    Lines(Vec<&'a str>),
}

// Where the lines of a command are. clap has refused arguments beside a file.
pub(crate) fn source_of<'a>(
    alloc: Global,
    command: &ArgMatches<'a>,
) -> Result<Source<'a>, LineFault>
    ensures { IfOk result (IsSource (rows_found command.now)) }
{
    match (text_of(command, INPUT), texts_of(command, LINES)) {
        (None | Some(STANDARD_INPUT), None) => Ok(Source::Standard),
        (Some(path), None) => Ok(Source::File(path)),
        (None, Some(lines)) if lines.iter().any(|line| names_file(line)) => {
            Err(LineFault::FileForLine)
        }
        (None, Some(lines)) if lines.iter().any(|line| is_kind(line)) => Err(LineFault::Unquoted),
        (None, Some(lines)) => Ok(Source::Lines(Vec::from_slice(alloc, lines)?)),
        (Some(_), Some(_)) => Err(LineFault::TwoSources),
    }
}

// The texts of an argument, if one is given.
fn texts_of<'b, 'a>(matches: &'b ArgMatches<'a>, text: Text) -> Option<&'b [&'a str]>
    ensures { option_map (λ texts. map (λ text. text.now) texts.now) result
        ≡ all_of text.name.now (rows_found matches.now) }
{
    matches.get_strs(text.name)
}

// Whether an argument is no line but the kind of a record.
fn is_kind(line: &str) -> bool {
    line.len() == 1 && line.bytes().all(|byte| byte.is_ascii_uppercase())
}

// Whether an argument is no line but the path of a file of lines: no table has such characters.
fn names_file(line: &str) -> bool {
    let word = match line.split_once(' ') {
        Some((word, _)) => word,
        None => line,
    };
    word.bytes().any(|byte| byte == b'/' || byte == b'.' || byte.is_ascii_lowercase())
}

/// The path of the file, or of the folder of files, that is written or gone on with; none where nothing but the answer is written.
pub(crate) fn written_by<'a>(asked: &Options<'a>) -> Option<&'a str> {
    match asked {
        Options::Coord { ledger, .. }
        | Options::Run { ledger, .. }
        | Options::Loop { ledger, .. } => path_of(ledger),
        Options::Work(working) => path_of(&working.ledger),
        Options::CoordPart(coordinating) => Some(coordinating.file.path),
        Options::Retry(retrying) => Some(retrying.file.path),
        Options::Settle(settling) => Some(settling.file.path),
        Options::Split(splitting) => Some(splitting.folder),
        Options::Walk(walking) => walking.saving.map(|saving| saving.path),
        Options::Merge(merging) => Some(merging.out),
        Options::Carry(carrying) => Some(carrying.out),
        Options::Mend(mending) => Some(mending.out),
        Options::Join(joining) => joining.out,
        Options::Draw(drawing) => drawing.out,
        Options::Check(_)
        | Options::Decide(_)
        | Options::Explain(_)
        | Options::Show(_)
        | Options::Tables(_)
        | Options::Look(_)
        | Options::Page(_)
        | Options::Report(_) => None,
    }
}

fn path_of<'a>(ledger: &Option<LedgerFile<'a>>) -> Option<&'a str> {
    ledger.map(|file| file.path)
}

// The hosts that only this computer reaches.
const LOOPBACK: [&str; 4] = ["127.0.0.1", "localhost", "::1", "[::1]"];

/// Whether other computers can reach what listens at an address: at a host and a port, and that host isn't this computer alone. A
/// socket file has a `/`, and a port alone is one of 127.0.0.1.
pub(crate) fn is_reachable(address: &str) -> bool {
    if address.contains('/') {
        return false;
    }
    match address.rsplit_once(':') {
        Some((host, _)) => !LOOPBACK.contains(&host),
        None => false,
    }
}
