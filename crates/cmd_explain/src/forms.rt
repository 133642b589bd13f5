// Exponents and forms of tape, as people write them.
use crate::halts_and_loops::{digit_of, letter_of_state};
use kind_evidence::NoMemory;
use kind_rules::{Form, symbols_of};
use law_induction::{Block, Exponent, Exponents};
use machine_text::{Dir, State, Sym};
use std::alloc::Global;

const NEVER: Exponent = Exponent {
    ones: 0,
    a: 0,
    b: 0,
    c: 0,
    d: 0,
};

const ONCE: Exponent = Exponent {
    ones: 1,
    a: 0,
    b: 0,
    c: 0,
    d: 0,
};

/// Whether it is 0.
pub(crate) fn is_never(times: Exponent) -> bool {
    times == NEVER
}

/// Whether it is 1.
pub(crate) fn is_once(times: Exponent) -> bool {
    times == ONCE
}

// Adds a multiple of a variable to a sum.
fn add_multiple(factor: u32, variable: &str, sum: &mut String) -> Result<(), NoMemory> {
    if factor == 0 {
        return Ok(());
    }
    if !sum.is_empty() {
        sum.push_str("+")?;
    }
    if factor != 1 {
        write!(sum, "{factor}")?;
    }
    sum.push_str(variable)
}

// The multiples of variables in an exponent.
fn sum_of(alloc: Global, times: Exponent) -> Result<String, NoMemory> {
    let mut sum = String::new(alloc);
    add_multiple(times.a, "n", &mut sum)?;
    add_multiple(times.b, "m", &mut sum)?;
    add_multiple(times.c, "k", &mut sum)?;
    add_multiple(times.d, "j", &mut sum)?;
    Ok(sum)
}

/// An exponent as a sum.
pub(crate) fn exponent_text(alloc: Global, times: Exponent) -> Result<String, NoMemory> {
    let sum = sum_of(alloc, times)?;
    let ones = times.ones;
    if sum.is_empty() {
        return format!(in alloc; "{ones}");
    }
    if ones == 0 {
        return Ok(sum);
    }
    format!(in alloc; "{sum}+{ones}")
}

/// An exponent behind `^`.
pub(crate) fn power_text(alloc: Global, times: Exponent) -> Result<String, NoMemory> {
    let sum = sum_of(alloc, times)?;
    let text = exponent_text(alloc, times)?;
    if sum.is_empty() || text.len() == 1 {
        return Ok(text);
    }
    format!(in alloc; "({text})")
}

fn fourth_text(alloc: Global, d: Exponent) -> Result<String, NoMemory> {
    if is_never(d) {
        return Ok(String::new(alloc));
    }
    let last = exponent_text(alloc, d)?;
    format!(in alloc; ",{last}")
}

fn third_text(alloc: Global, c: Exponent, d: Exponent) -> Result<String, NoMemory> {
    if is_never(c) && is_never(d) {
        return Ok(String::new(alloc));
    }
    let third = exponent_text(alloc, c)?;
    let rest = fourth_text(alloc, d)?;
    format!(in alloc; ",{third}{rest}")
}

fn second_text(alloc: Global, b: Exponent, c: Exponent, d: Exponent) -> Result<String, NoMemory> {
    if is_never(b) && is_never(c) && is_never(d) {
        return Ok(String::new(alloc));
    }
    let second = exponent_text(alloc, b)?;
    let rest = third_text(alloc, c, d)?;
    format!(in alloc; ",{second}{rest}")
}

/// What stands for the variables of a rule that is used.
pub(crate) fn given_text(alloc: Global, by: &Exponents) -> Result<String, NoMemory> {
    let first = exponent_text(alloc, by.a)?;
    let rest = second_text(alloc, by.b, by.c, by.d)?;
    format!(in alloc; "({first}{rest})")
}

/// What stands for a variable at first.
pub(crate) fn value_text(
    alloc: Global,
    variable: &str,
    times: Exponent,
) -> Result<String, NoMemory> {
    let value = exponent_text(alloc, times)?;
    format!(in alloc; " {variable}={value}")
}

/// What stands for a variable at first, and nothing for 0.
pub(crate) fn value_unless_none(
    alloc: Global,
    variable: &str,
    times: Exponent,
) -> Result<String, NoMemory> {
    if is_never(times) {
        return Ok(String::new(alloc));
    }
    value_text(alloc, variable, times)
}

// Symbols as they stand on the tape.
fn digits_of(alloc: Global, symbols: &[Sym]) -> Result<String, NoMemory> {
    let mut text = String::new(alloc);
    for symbol in symbols {
        text.push_str(digit_of(*symbol))?;
    }
    Ok(text)
}

// A word on a half tape as it is read from left to right.
fn word_digits(alloc: Global, side: Dir, word: u64) -> Result<String, NoMemory> {
    let mut symbols = symbols_of(alloc, word)?;
    match side {
        Dir::L => symbols.reverse(),
        Dir::R => {}
    }
    digits_of(alloc, &symbols)
}

// A block; a word that stands once joins symbols before it.
fn block_text(alloc: Global, side: Dir, joins: bool, block: &Block) -> Result<String, NoMemory> {
    let word = word_digits(alloc, side, block.word)?;
    if is_once(block.times) {
        if joins {
            return Ok(word);
        }
        return format!(in alloc; " {word}");
    }
    let times = power_text(alloc, block.times)?;
    format!(in alloc; " ({word})^{times}")
}

// The blocks of a half tape from left to right.
fn half_text(alloc: Global, side: Dir, blocks: &[Block]) -> Result<String, NoMemory> {
    let mut text = String::new(alloc);
    let mut joins = false;
    for block in blocks {
        text.push_str(&block_text(alloc, side, joins, block)?)?;
        joins = is_once(block.times);
    }
    Ok(text)
}

// The head: its state, and a bracket that points to the half tape on whose first cell it is.
fn head_sign(alloc: Global, heading: Dir, state: u8) -> Result<String, NoMemory> {
    let state = letter_of_state(State(state));
    match heading {
        Dir::L => format!(in alloc; " <{state}"),
        Dir::R => format!(in alloc; " {state}>"),
    }
}

fn end_text(is_open: bool) -> &'static str {
    if is_open { "*" } else { "$" }
}

/// A form between two ends.
pub(crate) fn form_text(
    alloc: Global,
    open_left: bool,
    open_right: bool,
    form: &Form,
) -> Result<String, NoMemory> {
    let mut left = Vec::from_slice(alloc, &form.left)?;
    left.reverse();
    let left = half_text(alloc, Dir::L, &left)?;
    let head = head_sign(alloc, form.heading, form.state)?;
    let right = half_text(alloc, Dir::R, &form.right)?;
    let (start, end) = (end_text(open_left), end_text(open_right));
    format!(in alloc; "{start}{left}{head}{right} {end}")
}
