// The fields of a record of rules.
use crate::block::{Block, Times, VARIABLES};
use crate::nested_family::NestedFamily;
use crate::rules::{Rule, append_renumbered, mark_used};
use crate::tapes::Half;
use crate::words::Word;
use machine_text::{Dir, State, Sym};
use std::alloc::{AllocError as NoMemory, Global};
use text::append_number;

pub(crate) fn append_word(word: Word, out: &mut Vec<u8>) -> Result<(), NoMemory> {
    for k in 0..word.length() {
        out.push(digit(word.symbol(k)))?;
    }
    Ok(())
}

pub(crate) fn append_times(times: Times, out: &mut Vec<u8>) -> Result<(), NoMemory> {
    append_number(times.number(), out)?;
    for (variable, letter) in b"abcd".iter().enumerate() {
        let factor = times.factor_of(variable);
        if factor != 0 {
            out.push(*letter)?;
            append_number(factor, out)?;
        }
    }
    Ok(())
}

fn append_block(block: Block, out: &mut Vec<u8>) -> Result<(), NoMemory> {
    append_word(block.word, out)?;
    if block.times != Times::ONCE {
        out.push(b'^')?;
        append_times(block.times, out)?;
    }
    Ok(())
}

pub(crate) fn append_half(half: &Half, out: &mut Vec<u8>) -> Result<(), NoMemory> {
    for (place, block) in half.blocks().iter().rev().enumerate() {
        if place > 0 {
            out.push(b'.')?;
        }
        append_block(*block, out)?;
    }
    Ok(())
}

// A state, and on which half the head is.
pub(crate) fn append_head(state: State, side: Dir, out: &mut Vec<u8>) -> Result<(), NoMemory> {
    out.push(b'A'.saturating_add(state.0))?;
    out.push(match side {
        Dir::L => b'<',
        Dir::R => b'>',
    })?;
    Ok(())
}

// A half, a place on it, and the letter of an equation.
pub(crate) fn append_equation(
    side: Dir,
    place: u64,
    letter: u8,
    out: &mut Vec<u8>,
) -> Result<(), NoMemory> {
    out.push(match side {
        Dir::L => b'l',
        Dir::R => b'r',
    })?;
    append_number(place, out)?;
    out.push(letter)?;
    Ok(())
}

// A comma, where moves stand before.
pub(crate) fn begin_move(out: &mut Vec<u8>) -> Result<(), NoMemory> {
    if !out.is_empty() {
        out.push(b',')?;
    }
    Ok(())
}

fn digit(symbol: Sym) -> u8 {
    match symbol {
        Sym::Zero => b'0',
        Sym::One => b'1',
    }
}

// The other side.
pub(crate) fn opposite(side: Dir) -> Dir {
    match side {
        Dir::L => Dir::R,
        Dir::R => Dir::L,
    }
}

// Writes the fields for a family: the rules that it uses, and those that these use.
pub(crate) fn write_fields(
    alloc: Global,
    rules: &[Rule],
    family: &NestedFamily,
    out: &mut Vec<u8>,
) -> Result<(), NoMemory> {
    let mut used = Vec::new(alloc);
    for _ in rules.iter() {
        used.push(false)?;
    }
    mark_used(&family.begin.text, &mut used);
    mark_used(&family.again.text, &mut used);
    // Rules that are proved together use one another in any order.
    for _ in rules.iter() {
        if !marks_more(rules, &mut used) {
            break;
        }
    }
    let mut numbers = Vec::new(alloc);
    let mut count = 0u64;
    for is_used in used.iter() {
        numbers.push(count)?;
        if *is_used {
            count = count.saturating_add(1);
        }
    }
    out.clear();
    append_rules(rules, &used, &numbers, out)?;
    append_family(family, &numbers, out)
}

// Marks what the marked rules use; whether more are marked then.
fn marks_more(rules: &[Rule], used: &mut [bool]) -> bool {
    let before = used.iter().filter(|is_used| **is_used).count();
    for (number, rule) in rules.iter().enumerate().rev() {
        if used.get(number).copied().unwrap_or(false) {
            mark_used(&rule.none, used);
            mark_used(&rule.more, used);
        }
    }
    used.iter().filter(|is_used| **is_used).count() > before
}

// The rules that are used, with these numbers; those that are proved together are a group.
fn append_rules(
    rules: &[Rule],
    used: &[bool],
    numbers: &[u64],
    out: &mut Vec<u8>,
) -> Result<(), NoMemory> {
    let mut was_joint = false;
    for (rule, is_used) in rules.iter().zip(used.iter()) {
        if *is_used {
            if !out.is_empty() {
                out.push(if was_joint && rule.is_joint {
                    b'&'
                } else {
                    b';'
                })?;
            }
            was_joint = rule.is_joint;
            rule.append(numbers, out)?;
        }
    }
    if out.is_empty() {
        out.push(b'-')?;
    }
    Ok(())
}

// The family, its beginning and its loop.
fn append_family(
    family: &NestedFamily,
    numbers: &[u64],
    out: &mut Vec<u8>,
) -> Result<(), NoMemory> {
    out.push(b' ')?;
    family.form.append(out)?;
    out.push(b' ')?;
    append_values(&family.first, out)?;
    out.push(b' ')?;
    append_renumbered(&family.begin.text, numbers, out)?;
    out.push(b' ')?;
    append_values(&family.next, out)?;
    out.push(b' ')?;
    append_renumbered(&family.again.text, numbers, out)
}

// What stands for the variables; those at the end that are 0 aren't said.
fn append_values(values: &[Times; VARIABLES], out: &mut Vec<u8>) -> Result<(), NoMemory> {
    let mut count = 1usize;
    for (place, value) in values.iter().enumerate().skip(1) {
        if *value != Times::NEVER {
            count = place.saturating_add(1);
        }
    }
    for (place, value) in values.iter().take(count).enumerate() {
        if place > 0 {
            out.push(b'.')?;
        }
        append_times(*value, out)?;
    }
    Ok(())
}
