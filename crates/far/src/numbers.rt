// The numbers of automata, read from their texts, written, and tested without memory.
ghost use Rattle.std.specs.Prelude.{◌≡◌, ◌+◌, ◌-◌, ◌*◌, ◌^◌, ◌<◌, ◌≤◌, ◌↔◌, IsTrue, IfSome, IfNone, length, take, ◌++◌, ◌∷◌, ℕ, OnOk, slice_index, true, false, is_some};
ghost use Rattle.far.specs.Limits.{size_limit, move_limit, pair_limit, row_limit, listed_size_limit};
ghost use Rattle.far.specs.inside.Reading.{AreBelow};
ghost use Rattle.far.specs.Texts.{IsDelta, IsRows, delta_of, rows_of, hex_text, delta_text, rows_text};
ghost use Rattle.machine_text.specs.Terms.{state_limit};
ghost use Rattle.text.specs.Terms.{parts_of};
ghost use Rattle.far.specs.ListedTexts.{numbers_in, row_in, rows_in, has_count, automata_in};

use crate::fields::{MAX_DIGITS, hex_digit, hex_glyph, hex_number, hex_text};
use crate::limits::{MAX_MOVES, MAX_ROWS, Set};
use crate::listed_reading::{next_low, number_in};
use kind_evidence::NoMemory;
use machine_text::Dir;
use text::Parts;

// Where the first automaton goes.
pub(crate) fn delta_of(text: &[u8], size: u8) -> Option<[u8; MAX_MOVES]>
    requires { (1 ≤ size) × (size ≤ size_limit) }
    ensures some { IfSome result (λ d. (take (2 * size) d ≡ delta_of text.now) × IsDelta size text.now
        × (length d ≡ move_limit)) }
    ensures none { IfNone result (IsDelta size text.now → ⊥) }
{
    let count = 2 * size as usize;
    if text.len() != count {
        return None;
    }
    let mut delta = [0; MAX_MOVES];
    for k in 0..count {
        delta[k] = hex_digit(text[k], size)?;
    }
    Some(delta)
}

// So many edges of the second automaton, each number below a limit.
pub(crate) fn rows_of(text: &[u8], count: usize, limit: Set) -> Option<[Set; MAX_ROWS]>
    requires count { count ≤ row_limit }
    requires limit { limit ≤ 2 ^ (pair_limit + 1) }
    ensures some { IfSome result (λ r. (take count r ≡ rows_of text.now) × IsRows count limit text.now
        × (length r ≡ row_limit)) }
    ensures none { IfNone result (IsRows count limit text.now → ⊥) }
{
    let mut rows = [0; MAX_ROWS];
    let mut parts = Parts::of(b',', text);
    for k in 0..count {
        let part = parts.next()?;
        rows[k] = hex_number(part, limit)?;
    }
    match parts.next() {
        Some(_) => None,
        None => Some(rows),
    }
}

// The first number that isn't a set of the states of a second automaton with so many pairs: it has one bit more.
pub(crate) fn set_limit(last: usize) -> Set
    requires { last ≤ pair_limit }
    ensures limit { result ≡ 2 ^ (last + 1) }
    ensures small { result ≤ 2 ^ (pair_limit + 1) }
{
    1 << (last + 1)
}

// Whether each number is a state of a first automaton of a size.
pub(crate) fn are_states(numbers: &[u8], size: u8) -> bool
    requires { 1 ≤ size }
    ensures { IsTrue result ↔ AreBelow size numbers.now }
{
    numbers.iter().all(|number| *number < size)
}

// Whether each number is below a limit.
pub(crate) fn are_sets(numbers: &[Set], limit: Set) -> bool
    requires { 1 ≤ limit }
    ensures { IsTrue result ↔ AreBelow limit numbers.now }
{
    numbers.iter().all(|number| *number < limit)
}

// Where the first automaton goes, digit by digit.
pub(crate) fn append_delta(delta: &[u8], out: &mut Vec<u8>) -> Result<(), NoMemory>
    requires { (k : ℕ) → slice_index delta.now k < 16 }
    ensures ok { OnOk result (out.new.items ≡ out.old.items ++ delta_text delta.now) }
    ensures kept { take (length out.old.items) out.new.items ≡ out.old.items }
{
    for target in delta {
        out.push(hex_glyph(*target))?;
    }
    Ok(())
}

// The edges of the second, with a comma between each two.
pub(crate) fn append_rows(rows: &[Set], out: &mut Vec<u8>) -> Result<(), NoMemory>
    requires { 1 ≤ length rows.now }
    ensures ok { OnOk result (out.new.items ≡ out.old.items ++ rows_text rows.now) }
    ensures kept { take (length out.old.items) out.new.items ≡ out.old.items }
{
    append_hex(rows[0], out)?;
    for k in 1..rows.len() {
        append_row(rows[k], out)?;
    }
    Ok(())
}

// A comma and a row.
fn append_row(row: Set, out: &mut Vec<u8>) -> Result<(), NoMemory>
    ensures ok { OnOk result (out.new.items ≡ out.old.items ++ 44 ∷ hex_text row) }
    ensures kept { take (length out.old.items) out.new.items ≡ out.old.items }
{
    out.extend_from_slice(b",")?;
    append_hex(row, out)
}

// A number in hexadecimal.
pub(crate) fn append_hex(number: Set, out: &mut Vec<u8>) -> Result<(), NoMemory>
    ensures ok { OnOk result (out.new.items ≡ out.old.items ++ hex_text number) }
    ensures kept { take (length out.old.items) out.new.items ≡ out.old.items }
{
    let mut buf = [0; MAX_DIGITS];
    out.extend_from_slice(hex_text(number, &mut buf))
}

// Whether three texts are those of automata of a size, made for so many states.
#[tactic(auto, unfolding(crate::specs::ListedTexts::automata_in))]
pub(crate) fn are_texts(
    states: u8,
    side: Dir,
    size: u16,
    delta: &[u8],
    rows: &[u8],
    keep: &[u8],
) -> bool
    requires states { (1 ≤ states) × (states ≤ state_limit) }
    requires size { (1 ≤ size) × (size ≤ listed_size_limit) }
    ensures { result ≡ is_some (automata_in states side size delta.now rows.now keep.now) }
{
    let _ = side;
    let last = size * states as u16;
    if !are_moves(Parts::of(b',', delta), size, 2 * size) {
        return false;
    }
    if !are_rows(Parts::of(b',', rows), last, 2 * last) {
        return false;
    }
    are_numbers(Parts::of(b',', keep), last)
}

// Whether parts are so many numbers below a limit.
fn are_moves(mut parts: Parts<'_>, limit: u16, count: u16) -> bool
    ensures { result ≡ has_count (numbers_in false 0 limit parts.entry) count }
{
    let mut left = count;
    'parts: while let Some(part) = parts.next() {
        if left == 0 {
            return false;
        }
        if number_in(part, 0, limit).is_none() {
            return false;
        }
        left -= 1;
    }
    left == 0
}

// Whether parts are so many rows.
fn are_rows(mut parts: Parts<'_>, last: u16, count: u16) -> bool
    ensures { result ≡ has_count (rows_in last parts.entry) count }
{
    let mut left = count;
    'parts: while let Some(part) = parts.next() {
        if left == 0 {
            return false;
        }
        if !is_row(part, last) {
            return false;
        }
        left -= 1;
    }
    left == 0
}

// Whether a text is the edges of a state on a symbol.
#[tactic(auto, unfolding(crate::specs::ListedTexts::row_in))]
fn is_row(text: &[u8], last: u16) -> bool
    ensures { result ≡ is_some (row_in last text.now) }
{
    if text == b"-".as_slice() {
        return true;
    }
    if text == b".".as_slice() {
        return true;
    }
    are_numbers(Parts::of(b'.', text), last)
}

// Whether parts are numbers below a limit that rise.
fn are_numbers(mut parts: Parts<'_>, limit: u16) -> bool
    ensures { result ≡ is_some (numbers_in true 0 limit parts.entry) }
{
    let mut low = 0;
    'parts: while let Some(part) = parts.next() {
        match number_in(part, low, limit) {
            Some(number) => low = next_low(true, number),
            None => return false,
        }
    }
    true
}
