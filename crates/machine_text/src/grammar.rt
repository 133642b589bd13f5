// Which table a text names, why a text is no table, and how the text of a table is written.
ghost use Rattle.std.specs.Prelude.{◌≡◌, ◌≢◌, ℕ, ◌+◌, ◌*◌, ◌%◌, ◌^◌, ◌<◌, ◌≤◌, true, false, [], ◌∷◌, List, length, slice_index, IfSome, IfNone};
ghost use Rattle.std.specs.Option.{ForSome};
ghost use Rattle.machine_text.specs.declared.grammar.TextFault.{TextFault as Fault};
ghost use Rattle.machine_text.specs.Text.{is_table_length, states_in, fault_at, faults_of, entry_named, table_named, may_begin, may_direct, may_end, is_state_letter, symbol_byte, direction_byte};
ghost use Rattle.machine_text.specs.inside.{code_at, with_entry_bytes};
ghost use Rattle.machine_text.specs.Limits.{state_limit, text_byte_limit};

use crate::limits::{MAX_ENTRIES, MAX_STATES, TEXT_BYTES};
use crate::table::{Code, Dir, Entry, State, Sym};
use std::error::Error;
use std::fmt;

/// Why a text is no table. A place counts the bytes before it; the fault is the one at the leftmost
/// faulty place, and the length is judged before any place.
#[derive(Clone, Copy, Debug, PartialEq, Eq)]
pub enum TextFault {
    /// The length is that of no number of states.
    BadLength,
    /// Two rows aren't parted by `_` there.
    BadBar(usize),
    /// An entry begins there with none of `0`, `1` and `-`.
    BadSymbol(usize),
    /// The direction there is neither `L` nor `R`, or not `-` in an undefined entry.
    BadDir(usize),
    /// There stands no letter of a state, `Z` or `H`, or not `-` in an undefined entry.
    BadState(usize),
}

impl TextFault {
    ghost use Rattle.std.specs.Prelude.{◌≡◌};
    ghost use Rattle.machine_text.specs.Text.{text_fault_number, place_of};

    /// The refusal number: 101 to 105.
    pub fn number(&self) -> u16
        ensures { result ≡ text_fault_number self.now }
    {
        match self {
            TextFault::BadLength => 101,
            TextFault::BadBar(_) => 102,
            TextFault::BadSymbol(_) => 103,
            TextFault::BadDir(_) => 104,
            TextFault::BadState(_) => 105,
        }
    }

    /// The place of the fault; none for a length.
    pub fn place(&self) -> Option<usize>
        ensures { result ≡ place_of self.now }
    {
        match *self {
            TextFault::BadLength => None,
            TextFault::BadBar(place)
            | TextFault::BadSymbol(place)
            | TextFault::BadDir(place)
            | TextFault::BadState(place) => Some(place),
        }
    }
}

impl fmt::Display for TextFault {
    fn fmt<W: fmt::Write>(&self, f: &mut fmt::Formatter<W>) -> fmt::Result {
        match self {
            TextFault::BadLength => write!(f, "no table's text has this length"),
            TextFault::BadBar(place) => write!(f, "no `_` between two rows at byte {place}"),
            TextFault::BadSymbol(place) => {
                write!(
                    f,
                    "none of `0`, `1` and `-` begins the entry at byte {place}"
                )
            }
            TextFault::BadDir(place) => write!(f, "no direction at byte {place}"),
            TextFault::BadState(place) => write!(f, "no state at byte {place}"),
        }
    }
}

impl Error for TextFault {}

/// How many states a text of this length has; none where that is no table's length.
pub(crate) fn states_in(text: &[u8]) -> Option<u8>
    ensures some { IfSome result (λ n. n ≡ states_in (length text.now)) }
    ensures length { IfSome result (λ n. is_table_length (length text.now) ≡ true) }
    ensures none { IfNone result (is_table_length (length text.now) ≡ false) }
{
    let states = (text.len() + 1) / 7;
    if 7 * states == text.len() + 1 && 1 <= states && states <= MAX_STATES as usize {
        Some(states as u8)
    } else {
        None
    }
}

/// The codes of the table that a text of so many states names; none where one of its places is faulty.
pub(crate) fn codes_named(states: u8, text: &[u8]) -> Option<[Code; MAX_ENTRIES]>
    requires length { 7 * states ≡ length text.now + 1 }
    requires limit { states ≤ state_limit }
    ensures clean { IfSome result (λ codes. faults_of states text.now ≡ []) }
    ensures some { IfSome result (λ codes. codes ≡ (table_named states text.now).codes) }
    ensures none { IfNone result (faults_of states text.now ≢ []) }
{
    if !bars_stand(text) {
        return None;
    }
    let mut codes = [Code::UNDEFINED; MAX_ENTRIES];
    for row in 0..states as usize {
        codes[2 * row] = code_at(states, text, 7 * row)?;
        codes[2 * row + 1] = code_at(states, text, 7 * row + 3)?;
    }
    Some(codes)
}

/// The leftmost fault of a text of so many states; only where `codes_named` gives none, which is faster.
pub(crate) fn leftmost_fault(states: u8, text: &[u8]) -> TextFault
    requires limit { states ≤ state_limit }
    requires faulty { faults_of states text.now ≢ [] }
    ensures { (others : List Fault) × (faults_of states text.now ≡ result ∷ others) }
{
    for place in 0..text.len() {
        if let Some(fault) = fault_at(states, text, place) {
            return fault;
        }
    }
    unreachable!()
}

// Whether a bar stands at each place of one.
fn bars_stand(text: &[u8]) -> bool
    ensures all { result ≡ true → (i : ℕ) → i < length text.now → i % 7 ≡ 6 → slice_index text.now i ≡ 95 }
    ensures one { result ≡ false → (i : ℕ) × (i < length text.now) × (i % 7 ≡ 6) × (slice_index text.now i ≢ 95) }
{
    for row in 0..text.len() / 7 {
        if text[7 * row + 6] != b'_' {
            return false;
        }
    }
    true
}

// The code of the entry that the three bytes from a place on name; none where one of them is faulty.
#[inline]
fn code_at(states: u8, text: &[u8], place: usize) -> Option<Code>
    requires place { place + 2 < length text.now }
    requires limit { states ≤ state_limit }
    ensures { result ≡ code_at states text.now place }
{
    let symbol = text[place];
    if may_begin(symbol)
        && may_direct(symbol, text[place + 1])
        && may_end(states, symbol, text[place + 2])
    {
        Some(Code::of(entry_named(states, text, place)))
    } else {
        None
    }
}

// The fault at a place, if there is one.
#[tactic(auto, unfolding(crate::specs::Text::fault_at))]
fn fault_at(states: u8, text: &[u8], place: usize) -> Option<TextFault>
    requires place { place < length text.now }
    requires limit { states ≤ state_limit }
    ensures { result ≡ fault_at states text.now place }
{
    let byte = text[place];
    let (fits, fault) = if place % 7 == 6 {
        (byte == b'_', TextFault::BadBar(place))
    } else if place % 7 % 3 == 0 {
        (may_begin(byte), TextFault::BadSymbol(place))
    } else if place % 7 % 3 == 1 {
        (may_direct(text[place - 1], byte), TextFault::BadDir(place))
    } else {
        (
            may_end(states, text[place - 2], byte),
            TextFault::BadState(place),
        )
    };
    if fits { None } else { Some(fault) }
}

// Whether an entry may begin with this byte.
fn may_begin(byte: u8) -> bool
    ensures { result ≡ may_begin byte }
{
    byte == b'0' || byte == b'1' || byte == b'-'
}

// Whether this byte may stand second in an entry that begins so.
fn may_direct(begun: u8, byte: u8) -> bool
    ensures { result ≡ may_direct begun byte }
{
    if begun == b'-' {
        byte == b'-'
    } else {
        byte == b'L' || byte == b'R'
    }
}

// Whether this byte may stand third in an entry that begins so.
fn may_end(states: u8, begun: u8, byte: u8) -> bool
    requires { states ≤ state_limit }
    ensures { result ≡ may_end states begun byte }
{
    if begun == b'-' {
        byte == b'-'
    } else {
        is_state_letter(states, byte) || byte == b'Z' || byte == b'H'
    }
}

// Whether the byte is the letter of one of so many states.
fn is_state_letter(states: u8, byte: u8) -> bool
    requires { states ≤ state_limit }
    ensures { result ≡ is_state_letter states byte }
{
    b'A' <= byte && byte < b'A' + states
}

// The entry that the three bytes from a place on name.
#[tactic(auto, unfolding(crate::specs::Text::entry_named))]
fn entry_named(states: u8, text: &[u8], place: usize) -> Option<Entry>
    requires place { place + 2 < length text.now }
    requires limit { states ≤ state_limit }
    ensures named { result ≡ entry_named states text.now place }
    ensures next { IfSome result (λ e. e.next.0 < states) }
{
    let letter = text[place + 2];
    if !is_state_letter(states, letter) {
        return None;
    }
    Some(Entry {
        write: if text[place] == b'0' {
            Sym::Zero
        } else {
            Sym::One
        },
        dir: if text[place + 1] == b'L' {
            Dir::L
        } else {
            Dir::R
        },
        next: State(letter - b'A'),
    })
}

/// Writes the three bytes of an entry from a place on.
#[inline]
pub(crate) fn put_entry(entry: Option<Entry>, place: usize, buf: &mut [u8; TEXT_BYTES])
    requires place { place + 2 < text_byte_limit }
    requires next { ForSome entry (λ e. e.next.0 < 26) }
    ensures { buf.new ≡ with_entry_bytes buf.old place entry }
{
    let (symbol, direction, letter) = match entry {
        None => (b'-', b'-', b'-'),
        Some(e) => (symbol_byte(e.write), direction_byte(e.dir), b'A' + e.next.0),
    };
    buf[place] = symbol;
    buf[place + 1] = direction;
    buf[place + 2] = letter;
}

fn symbol_byte(s: Sym) -> u8
    ensures { result ≡ symbol_byte s }
{
    match s {
        Sym::Zero => b'0',
        Sym::One => b'1',
    }
}

fn direction_byte(d: Dir) -> u8
    ensures { result ≡ direction_byte d }
{
    match d {
        Dir::L => b'L',
        Dir::R => b'R',
    }
}
