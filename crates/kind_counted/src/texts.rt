// The texts of automata, rows and bases, and letters, which name counts.
ghost use Rattle.std.specs.Prelude.{◌≡◌, ◌<◌, ◌≤◌, IsTrue, IfSome, length, IfOk, is_some, option_map, unsigned_abs, ◌*◌, ◌/◌, nat_le, if◌then◌else◌, Some, None};
ghost use Rattle.kind_counted.specs.Texts.{is_letter, letter_count, ranged, ranged_number, ranged_count, last_byte, pivot_of, row_from, rows_from, signed_from, terms_from, numbers_from, exit_from, pair_from, exits_from, begins_blank, automaton_from, half_states};
ghost use Rattle.kind_counted.specs.Limits.{count_limit, written_limit};
ghost use Rattle.kind_counted.specs.Pivots.{points, AreRising};
ghost use Rattle.kind_counted.specs.Numbers.{no_numbers};
ghost use Rattle.text.specs.Terms.{parts_of};

use crate::certificate::{Automaton, Exits};
use crate::item::Terms;
use crate::limits::{MAX_HALF_STATES, WRITTEN_LIMIT};
use crate::numbers::Counts;
use crate::rows::Row;
use law_machines::{Count, Transition};
use std::alloc::{AllocError as NoMemory, Global};
use text::{Parts, decimal_value};

// Whether a byte is a letter.
#[tactic(auto, unfolding(crate::specs::Texts::is_letter))]
pub(crate) fn is_letter(b: u8) -> bool
    ensures { result ≡ is_letter b }
{
    (b'A' <= b && b <= b'Z') || (b'a' <= b && b <= b'z')
}

// Whether a text ends in a letter.
#[tactic(auto, unfolding(crate::specs::Texts::is_letter))]
pub(crate) fn ends_in_letter(text: &[u8]) -> bool
    ensures letter { result ≡ is_letter (last_byte text.now) }
    ensures some { IsTrue result → 0 < length text.now }
{
    if text.is_empty() {
        return false;
    }
    is_letter(text[text.len() - 1])
}

// The number of a range that a text is.
#[tactic(auto, unfolding(crate::specs::Texts::ranged_number))]
pub(crate) fn ranged_number(text: &[u8], low: usize, limit: usize) -> Option<usize>
    ensures number { result ≡ ranged_number low limit text.now }
    ensures least { IfSome result (λ n. low ≤ n) }
    ensures below { IfSome result (λ n. n < limit) }
{
    let number = decimal_value(text)?;
    if number < low as u64 {
        return None;
    }
    if number >= limit as u64 {
        return None;
    }
    Some(number as usize)
}

// The count of a range that a byte names.
#[tactic(auto, unfolding(crate::specs::Texts::ranged_count))]
pub(crate) fn ranged_count(b: u8, low: usize, limit: usize) -> Option<usize>
    ensures count { result ≡ ranged_count low limit b }
    ensures least { IfSome result (λ x. low ≤ x) }
    ensures below { IfSome result (λ x. x < limit) }
{
    if !is_letter(b) {
        return None;
    }
    let count = letter_count(b);
    if count < low {
        return None;
    }
    if count >= limit {
        return None;
    }
    Some(count)
}

// The count that a letter names.
#[tactic(auto, unfolding(crate::specs::Texts::is_letter))]
fn letter_count(letter: u8) -> usize
    requires { IsTrue (is_letter letter) }
    ensures { result ≡ letter_count letter }
{
    if letter >= b'a' {
        (letter - b'a') as usize
    } else {
        (letter - b'A') as usize + 26
    }
}

// The row that a text is, whose pivot stands at a place or further right.
#[tactic(auto, unfolding(crate::specs::Texts::row_from))]
fn row_from(text: &[u8], limit: usize, low: usize) -> Option<Row>
    requires { limit ≤ count_limit }
    ensures row { option_map (λ row. row.counts.numbers) result ≡ row_from limit low text.now }
    ensures place { IfSome result (λ row. row.pivot ≡ pivot_of row.counts.numbers) }
    ensures least { IfSome result (λ row. low ≤ row.pivot) }
{
    let row = Row::of(numbers_from(text, limit)?)?;
    if row.pivot < low {
        return None;
    }
    Some(row)
}

// Whether parts are rows in echelon form.
pub(crate) fn are_rows(mut parts: Parts<'_>, limit: usize) -> bool
    requires { limit ≤ count_limit }
    ensures { result ≡ is_some (rows_from limit 0 parts.entry) }
{
    let mut low = 0;
    'parts: while let Some(part) = parts.next() {
        match row_from(part, limit, low) {
            Some(row) => low = row.pivot + 1,
            None => return false,
        }
    }
    true
}

// The rows in echelon form that parts are.
pub(crate) fn read_rows(
    alloc: Global,
    mut parts: Parts<'_>,
    limit: usize,
) -> Result<Option<Vec<Row>>, NoMemory>
    requires { limit ≤ count_limit }
    ensures rows { IfOk result (λ rows. option_map (λ r. points r.items) rows ≡ rows_from limit 0 parts.entry) }
    ensures rising { IfOk result (λ rows. IfSome rows (λ r. AreRising r.items)) }
{
    let mut rows = Vec::new(alloc);
    let mut low = 0;
    'parts: while let Some(part) = parts.next() {
        match row_from(part, limit, low) {
            Some(row) => {
                low = row.pivot + 1;
                rows.push(row)?;
            }
            None => return Ok(None),
        }
    }
    Ok(Some(rows))
}

// The numbers of a base or a row, by counts below a limit.
#[tactic(auto, unfolding(crate::specs::Texts::numbers_from))]
pub(crate) fn numbers_from(text: &[u8], limit: usize) -> Option<Counts>
    requires { limit ≤ count_limit }
    ensures { option_map (λ c. c.numbers) result ≡ numbers_from limit text.now }
{
    if text == b"0".as_slice() {
        return Some(Counts::zeros());
    }
    if text.is_empty() {
        return None;
    }
    terms_from(Terms::of(text), limit)
}

// The numbers of terms, each in the place of its count; the counts rise.
fn terms_from(mut terms: Terms<'_>, limit: usize) -> Option<Counts>
    requires { limit ≤ count_limit }
    ensures { option_map (λ c. c.numbers) result ≡ terms_from limit 0 no_numbers terms.entry }
{
    let Counts { mut numbers } = Counts::zeros();
    let mut low = 0;
    'terms: while let Some(term) = terms.next() {
        let end = term.len() - 1;
        let count = ranged_count(term[end], low, limit)?;
        numbers[count] = signed_from(&term[..end])?;
        low = count + 1;
    }
    Some(Counts { numbers })
}

// A number that isn't 0, with `-` before it where it is negative.
#[tactic(auto, unfolding(crate::specs::Texts::signed_from))]
fn signed_from(text: &[u8]) -> Option<i64>
    ensures number { result ≡ signed_from text.now }
    ensures small { IfSome result (λ n. unsigned_abs n < written_limit) }
{
    if text.is_empty() || text[0] != b'-' {
        let size = ranged_number(text, 1, WRITTEN_LIMIT)?;
        return Some(size as i64);
    }
    let size = ranged_number(&text[1..], 1, WRITTEN_LIMIT)?;
    Some(-(size as i64))
}

// The transition that an item gives, of an automaton with so many states and the counts of a range.
#[tactic(auto, unfolding(crate::specs::Texts::exit_from))]
pub(crate) fn exit_from(
    text: &[u8],
    states: usize,
    low: usize,
    limit: usize,
) -> Option<Option<Transition>>
    ensures { result ≡ exit_from states low limit text.now }
{
    if text == b"-".as_slice() {
        return Some(None);
    }
    if !ends_in_letter(text) {
        let to = ranged_number(text, 0, states)?;
        return Some(Some(Transition { to, count: None }));
    }
    let end = text.len() - 1;
    let to = ranged_number(&text[..end], 0, states)?;
    let number = ranged_count(text[end], low, limit)?;
    Some(Some(Transition {
        to,
        count: Some(Count { number }),
    }))
}

// How many states an automaton has by its text: half as many as there are items, where there are no more than may be.
#[tactic(auto, unfolding(crate::specs::Texts::half_states))]
pub(crate) fn half_states(text: &[u8]) -> Option<usize>
    ensures { result ≡ half_states (parts_of 44 text.now) }
{
    let mut parts = Parts::of(b',', text);
    let mut count = 0;
    'parts: while let Some(_) = parts.next() {
        if count == 2 * MAX_HALF_STATES {
            return None;
        }
        count += 1;
    }
    Some(count / 2)
}

// Whether a text is that of an automaton of so many states, with the counts of a range.
#[tactic(auto, unfolding(crate::specs::Texts::automaton_from))]
pub(crate) fn is_automaton(text: &[u8], states: usize, low: usize, limit: usize) -> bool
    ensures { result ≡ is_some (automaton_from states low limit (parts_of 44 text.now)) }
{
    if !begins_blank(text) {
        return false;
    }
    are_exits(Parts::of(b',', text), states, low, limit)
}

// Whether the first transition is to 0, without a count.
fn begins_blank(text: &[u8]) -> bool
    ensures { result ≡ begins_blank (parts_of 44 text.now) }
{
    match Parts::of(b',', text).next() {
        Some(part) => part == b"0".as_slice(),
        None => false,
    }
}

// Whether parts are the transitions of states.
fn are_exits(mut parts: Parts<'_>, states: usize, low: usize, limit: usize) -> bool
    ensures { result ≡ is_some (exits_from states low limit parts.entry) }
{
    'parts: while let Some(zero) = parts.next() {
        let Some(one) = parts.next() else {
            return false;
        };
        if pair_from(zero, one, states, low, limit).is_none() {
            return false;
        }
    }
    true
}

// The automaton of so many states that a text gives, with the counts of a range.
#[tactic(auto, unfolding(crate::specs::Texts::automaton_from))]
pub(crate) fn read_automaton(
    alloc: Global,
    text: &[u8],
    states: usize,
    low: usize,
    limit: usize,
) -> Result<Option<Automaton>, NoMemory>
    requires states { half_states (parts_of 44 text.now) ≡ Some states }
    requires limit { limit ≤ count_limit }
    ensures { IfOk result
        (λ a. option_map (λ a. a.states.items) a ≡ automaton_from states low limit (parts_of 44 text.now)) }
{
    if !begins_blank(text) {
        return Ok(None);
    }
    let Some(exits) = read_exits(alloc, Parts::of(b',', text), states, low, limit)? else {
        return Ok(None);
    };
    Ok(Some(Automaton { states: exits }))
}

// The transitions of states that parts are.
fn read_exits(
    alloc: Global,
    mut parts: Parts<'_>,
    states: usize,
    low: usize,
    limit: usize,
) -> Result<Option<Vec<Exits>>, NoMemory>
    ensures { IfOk result (λ exits. option_map (λ e. e.items) exits ≡ exits_from states low limit parts.entry) }
{
    let mut exits = Vec::new(alloc);
    'parts: while let Some(zero) = parts.next() {
        let Some(one) = parts.next() else {
            return Ok(None);
        };
        match pair_from(zero, one, states, low, limit) {
            Some(pair) => exits.push(pair)?,
            None => return Ok(None),
        }
    }
    Ok(Some(exits))
}

// The transitions of a state that two items give.
#[tactic(auto, unfolding(crate::specs::Texts::pair_from))]
fn pair_from(zero: &[u8], one: &[u8], states: usize, low: usize, limit: usize) -> Option<Exits>
    ensures { result ≡ pair_from states low limit zero.now one.now }
{
    let zero = exit_from(zero, states, low, limit)?;
    let one = exit_from(one, states, low, limit)?;
    Some(Exits { zero, one })
}
