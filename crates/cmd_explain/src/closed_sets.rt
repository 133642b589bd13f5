// What is told of closed position sets and of automata, in words and in lists.
ghost use Rattle.std.specs.Prelude.{◌<◌, ◌≤◌, ◌+◌, ◌*◌, length};
ghost use Rattle.machine_text.specs.Terms.{state_limit};

use crate::columns::{Quantity, ahead, append_list, side_behind};
use far::{Far, Listed};
use kind_counted::CountedCosets;
use kind_evidence::NoMemory;
use machine_text::Dir;
use ngram_cps::Ngram;
use std::alloc::Global;
use text::{Parts, append_number, decimal_value};

/// The words for a closed position set.
pub(crate) fn ngram_words(alloc: Global, e: &Ngram) -> Result<String, NoMemory> {
    let width = u64::from(e.width());
    let cells = Quantity::of(width, "cell");
    let left = items_of(width, "word", e.left());
    let right = items_of(width, "word", e.right());
    let contexts = items_of(2 * width + 2, "context", e.local());
    format!(in alloc;
        "A closed position set (n-gram CPS): left of the head stand only {left} of {cells}, right of it only \
         {right}, and around it there are {contexts}: a word, the state, the symbol read, and a word.\nThe blank tape \
         is of this kind, each step from such a configuration leads to one, and none of the contexts lacks an \
         entry.\nSo it never halts."
    )
}

// How many items of so many bytes a list has.
fn items_of(width: u64, noun: &'static str, text: &[u8]) -> Quantity
    requires { width < 1024 }
{
    Quantity::of((text.len() as u64 + 1) / (width + 1), noun)
}

/// Appends its three lists, each line with its newline in front.
pub(crate) fn append_ngram(alloc: Global, e: &Ngram, out: &mut Vec<u8>) -> Result<(), NoMemory> {
    append_list("Words on the left", &part_cells(alloc, e.left())?, out)?;
    append_list("Words on the right", &part_cells(alloc, e.right())?, out)?;
    append_list(
        "Contexts (left word, state, symbol read, right word)",
        &part_cells(alloc, e.local())?,
        out,
    )
}

/// The words for two automata of which the first one reads this side, and has so many states.
pub(crate) fn reduction_words(alloc: Global, side: Dir, size: u64) -> Result<String, NoMemory> {
    let states = Quantity::of(size, "state");
    let (behind, ahead) = (side_behind(side), ahead(side));
    format!(in alloc;
        "Finite automata reduction (FAR): a first automaton, of {states}, reads the half tape on the {behind} of the \
         head, from far away to the head.\nFrom the pair of its last state and the machine's a second one reads on: \
         the symbol under the head, and then those on the {ahead}.\nKept are the configurations from which that \
         cannot come to its halt state: the start is one, and none that halts, at once or later.\nSo it never halts."
    )
}

// How many numbers a set of 128 bits may have.
const SET_BITS: u32 = 128;

/// Appends the lists of two automata, each line with its newline in front.
pub(crate) fn append_far(alloc: Global, e: &Far, out: &mut Vec<u8>) -> Result<(), NoMemory> {
    let targets = far_targets(alloc, e)?;
    let kept = kept_cells(alloc, e.states(), hex_number(e.keep()))?;
    append_reduction(alloc, &targets, &kept, out)
}

/// Appends those of two automata of which the edges of the second one are listed.
pub(crate) fn append_listed(alloc: Global, e: &Listed, out: &mut Vec<u8>) -> Result<(), NoMemory> {
    let targets = part_cells(alloc, e.delta())?;
    let kept = listed_kept(alloc, e.states(), e.keep())?;
    append_reduction(alloc, &targets, &kept, out)
}

fn append_reduction(
    alloc: Global,
    targets: &[Vec<u8>],
    kept: &[Vec<u8>],
    out: &mut Vec<u8>,
) -> Result<(), NoMemory> {
    append_transitions(
        alloc,
        "The first automaton (state: next on 0, next on 1)",
        targets,
        out,
    )?;
    append_list(
        "States of the second automaton that are kept (state of the first, state of the machine)",
        kept,
        out,
    )
}

/// Where the states of the first automaton go on 0 and on 1, as numbers in decimal.
pub(crate) fn far_targets(alloc: Global, e: &Far) -> Result<Vec<Vec<u8>>, NoMemory> {
    let mut targets = Vec::new(alloc);
    for digit in e.delta() {
        let mut target = Vec::new(alloc);
        append_number(u64::from(hex_value(*digit)), &mut target)?;
        targets.push(target)?;
    }
    Ok(targets)
}

// What a digit in hexadecimal is worth.
fn hex_value(byte: u8) -> u8 {
    if byte < 58 {
        byte.saturating_sub(b'0')
    } else {
        byte.saturating_sub(b'a' - 10)
    }
}

// The number of a text of at most 32 digits in hexadecimal.
fn hex_number(text: &[u8]) -> u128 {
    let mut number: u128 = 0;
    for byte in text {
        number = (number << 4) | u128::from(hex_value(*byte));
    }
    number
}

// The pairs of which a set has the number.
fn kept_cells(alloc: Global, states: u8, set: u128) -> Result<Vec<Vec<u8>>, NoMemory>
    requires { (1 ≤ states) × (states ≤ state_limit) }
{
    let mut cells = Vec::new(alloc);
    for number in 0..SET_BITS {
        if (set >> number) & 1 == 1 {
            cells.push(pair_cell(alloc, states, u64::from(number))?)?;
        }
    }
    Ok(cells)
}

fn listed_kept(alloc: Global, states: u8, keep: &[u8]) -> Result<Vec<Vec<u8>>, NoMemory>
    requires { (1 ≤ states) × (states ≤ state_limit) }
{
    let mut cells = Vec::new(alloc);
    let mut parts = Parts::of(b',', keep);
    'parts: while let Some(part) = parts.next() {
        let number = decimal_value(part).unwrap_or(0);
        cells.push(pair_cell(alloc, states, number)?)?;
    }
    Ok(cells)
}

// A pair of a state of an automaton and one of a table of so many, by its number, as `2B`.
fn pair_cell(alloc: Global, states: u8, number: u64) -> Result<Vec<u8>, NoMemory>
    requires { (1 ≤ states) × (states ≤ state_limit) }
{
    let states = u64::from(states);
    let mut cell = Vec::new(alloc);
    append_number(number / states, &mut cell)?;
    cell.push(b'A' + (number % states) as u8)?;
    Ok(cell)
}

/// The fields of a record of counted automata.
#[derive(Clone, Copy)]
pub(crate) struct CountedFields<'a> {
    pub left_counts: &'a [u8],
    pub right_counts: &'a [u8],
    pub left: &'a [u8],
    pub right: &'a [u8],
    pub cosets: &'a [u8],
}

impl<'a> CountedFields<'a> {
    /// The fields of a text, each with a space in front.
    pub fn of(text: &'a [u8]) -> CountedFields<'a> {
        let mut fields = Parts::of(b' ', text);
        let _ = next_field(&mut fields);
        let left_counts = next_field(&mut fields);
        let right_counts = next_field(&mut fields);
        let left = next_field(&mut fields);
        let right = next_field(&mut fields);
        let cosets = next_field(&mut fields);
        CountedFields {
            left_counts,
            right_counts,
            left,
            right,
            cosets,
        }
    }
}

fn next_field<'a>(fields: &mut Parts<'a>) -> &'a [u8] {
    match fields.next() {
        Some(field) => field,
        None => b"",
    }
}

/// Appends the lists of counted automata, each line with its newline in front.
pub(crate) fn append_counted(
    alloc: Global,
    e: &CountedCosets,
    out: &mut Vec<u8>,
) -> Result<(), NoMemory> {
    let mut text = Vec::new(alloc);
    e.append_fields(&mut text)?;
    let fields = CountedFields::of(&text);
    append_counts(&fields, out)?;
    append_transitions(
        alloc,
        "The left automaton (state: next on 0, next on 1; a letter is the count)",
        &part_cells(alloc, fields.left)?,
        out,
    )?;
    append_transitions(
        alloc,
        "The right automaton (state: next on 0, next on 1; a letter is the count)",
        &part_cells(alloc, fields.right)?,
        out,
    )?;
    append_list(
        "Contexts with a coset (left state, state of the machine, symbol read, right state)",
        &context_cells(alloc, fields.cosets)?,
        out,
    )
}

fn append_counts(fields: &CountedFields<'_>, out: &mut Vec<u8>) -> Result<(), NoMemory> {
    out.extend_from_slice(b"\nCounts: ")?;
    out.extend_from_slice(fields.left_counts)?;
    out.extend_from_slice(b" of the left automaton, ")?;
    out.extend_from_slice(fields.right_counts)?;
    out.extend_from_slice(b" of the right one")
}

// What the cosets are of.
fn context_cells(alloc: Global, cosets: &[u8]) -> Result<Vec<Vec<u8>>, NoMemory> {
    let mut cells = Vec::new(alloc);
    let mut parts = Parts::of(b',', cosets);
    'parts: while let Some(coset) = parts.next() {
        cells.push(Vec::from_slice(alloc, context_of(coset))?)?;
    }
    Ok(cells)
}

// What stands before the first colon.
fn context_of(coset: &[u8]) -> &[u8] {
    match Parts::of(b':', coset).next() {
        Some(context) => context,
        None => b"",
    }
}

/// Appends the states of an automaton as a list, by where each of them goes on 0 and on 1.
pub(crate) fn append_transitions(
    alloc: Global,
    heading: &str,
    targets: &[Vec<u8>],
    out: &mut Vec<u8>,
) -> Result<(), NoMemory> {
    let mut cells = Vec::new(alloc);
    for state in 0..targets.len() / 2 {
        cells.push(transition_cell(alloc, state, targets)?)?;
    }
    append_list(heading, &cells, out)
}

// Where a state goes.
fn transition_cell(alloc: Global, state: usize, targets: &[Vec<u8>]) -> Result<Vec<u8>, NoMemory>
    requires { 2 * state + 1 < length targets.now }
{
    let mut cell = Vec::new(alloc);
    append_number(state as u64, &mut cell)?;
    cell.extend_from_slice(b": ")?;
    cell.extend_from_slice(&targets[2 * state])?;
    cell.extend_from_slice(b" ")?;
    cell.extend_from_slice(&targets[2 * state + 1])?;
    Ok(cell)
}

/// The parts of a text at commas.
pub(crate) fn part_cells(alloc: Global, text: &[u8]) -> Result<Vec<Vec<u8>>, NoMemory> {
    let mut cells = Vec::new(alloc);
    let mut parts = Parts::of(b',', text);
    'parts: while let Some(part) = parts.next() {
        cells.push(Vec::from_slice(alloc, part)?)?;
    }
    Ok(cells)
}
