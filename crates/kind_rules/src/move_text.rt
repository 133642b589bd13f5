// The texts of moves and scripts.
ghost use Rattle.std.specs.Prelude.{◌≡◌, ◌-◌, [], Some, None, IfOk, is_some, length, option_map};
ghost use Rattle.text.specs.Terms.{parts_of};
ghost use Rattle.kind_rules.specs.Texts.{if_none, use_from, again_from, together_from, split_from, spell_from, roll_from, power_from, empty_from, blank_from, equation_from, is_capital, change_by, change_from, move_by, move_named, moves_from, script_from};

use crate::numbers::{four_from, next_times, number_from, times_from, word_from};
use law_induction::{Equation, Move};
use machine_text::Dir;
use std::alloc::{AllocError as NoMemory, Global};
use text::Parts;

// The use of a rule.
fn use_from(mut parts: Parts<'_>) -> Option<Move>
    ensures { result ≡ use_from parts.entry }
{
    let rule = number_from(parts.next()?)?;
    let by = four_from(parts)?;
    Some(Move::Use(rule, by))
}

// The use of the rule that is being proved.
fn again_from(mut parts: Parts<'_>) -> Option<Move>
    ensures { result ≡ again_from parts.entry }
{
    if !parts.next()?.is_empty() {
        return None;
    }
    let b = next_times(&mut parts)?;
    let c = next_times(&mut parts)?;
    let d = next_times(&mut parts)?;
    if parts.next().is_some() {
        return None;
    }
    Some(Move::Again(b, c, d))
}

// The use of a rule that is proved together with it.
fn together_from(mut parts: Parts<'_>) -> Option<Move>
    ensures { result ≡ together_from parts.entry }
{
    let rule = number_from(parts.next()?)?;
    let b = next_times(&mut parts)?;
    let c = next_times(&mut parts)?;
    let d = next_times(&mut parts)?;
    if parts.next().is_some() {
        return None;
    }
    Some(Move::Together(rule, b, c, d))
}

// Nothing stands behind an equation.
fn if_last(mut parts: Parts<'_>, e: Equation) -> Option<Equation>
    ensures { result ≡ if_none parts.entry e }
{
    match parts.next() {
        Some(_) => None,
        None => Some(e),
    }
}

fn split_from(mut parts: Parts<'_>) -> Option<Equation>
    ensures { result ≡ split_from parts.entry }
{
    let word = word_from(parts.next()?)?;
    let first = times_from(parts.next()?)?;
    let second = times_from(parts.next()?)?;
    if_last(parts, Equation::Split(word, first, second))
}

fn spell_from(mut parts: Parts<'_>) -> Option<Equation>
    ensures { result ≡ spell_from parts.entry }
{
    let word = word_from(parts.next()?)?;
    if_last(parts, Equation::Spell(word))
}

fn roll_from(mut parts: Parts<'_>) -> Option<Equation>
    ensures { result ≡ roll_from parts.entry }
{
    let over = word_from(parts.next()?)?;
    let word = word_from(parts.next()?)?;
    let other = word_from(parts.next()?)?;
    let times = times_from(parts.next()?)?;
    if_last(parts, Equation::Roll(over, word, other, times))
}

fn power_from(mut parts: Parts<'_>) -> Option<Equation>
    ensures { result ≡ power_from parts.entry }
{
    let long = word_from(parts.next()?)?;
    let word = word_from(parts.next()?)?;
    let copies = number_from(parts.next()?)?;
    let times = times_from(parts.next()?)?;
    if_last(parts, Equation::Power(long, word, copies, times))
}

fn empty_from(mut parts: Parts<'_>) -> Option<Equation>
    ensures { result ≡ empty_from parts.entry }
{
    let word = word_from(parts.next()?)?;
    if_last(parts, Equation::Empty(word))
}

fn blank_from(mut parts: Parts<'_>) -> Option<Equation>
    ensures { result ≡ blank_from parts.entry }
{
    let word = word_from(parts.next()?)?;
    let times = times_from(parts.next()?)?;
    if_last(parts, Equation::Blank(word, times))
}

// An equation by its small letter.
#[tactic(auto, unfolding(crate::specs::Texts::equation_from))]
fn equation_from(letter: u8, parts: Parts<'_>) -> Option<Equation>
    ensures { result ≡ equation_from letter parts.entry }
{
    match letter {
        b's' => split_from(parts),
        b'w' => spell_from(parts),
        b'r' => roll_from(parts),
        b'p' => power_from(parts),
        b'e' => empty_from(parts),
        b'b' => blank_from(parts),
        _ => None,
    }
}

// An equation at a place of a half tape, a capital for the way back.
#[tactic(auto, unfolding(crate::specs::Texts::change_by))]
fn change_by(side: Dir, place: u32, letter: u8, parts: Parts<'_>) -> Option<Move>
    ensures { result ≡ change_by side place letter parts.entry }
{
    if b'A' <= letter && letter <= b'Z' {
        let e = equation_from(letter + 32, parts)?;
        Some(Move::Back(side, place, e))
    } else {
        let e = equation_from(letter, parts)?;
        Some(Move::Forth(side, place, e))
    }
}

fn change_from(side: Dir, mut parts: Parts<'_>) -> Option<Move>
    ensures { result ≡ change_from side parts.entry }
{
    let place = parts.next()?;
    if place.is_empty() {
        return None;
    }
    let end = place.len() - 1;
    let at = number_from(&place[..end])?;
    change_by(side, at, place[end], parts)
}

// A move by its first byte, what stands behind that, and its whole text.
#[tactic(auto, unfolding(crate::specs::Texts::move_by))]
fn move_by(letter: u8, rest: &[u8], text: &[u8]) -> Option<Move>
    ensures { result ≡ move_by letter rest.now text.now }
{
    match letter {
        b't' => if rest.is_empty() {
            Some(Move::Turn)
        } else {
            None
        },
        b'u' => use_from(Parts::of(b'.', rest)),
        b'i' => again_from(Parts::of(b'.', rest)),
        b'g' => together_from(Parts::of(b'.', rest)),
        b'l' => change_from(Dir::L, Parts::of(b'.', rest)),
        b'r' => change_from(Dir::R, Parts::of(b'.', rest)),
        _ => {
            let steps = number_from(text)?;
            Some(Move::Steps(steps))
        }
    }
}

// The move that a text is.
#[tactic(auto, unfolding(crate::specs::Texts::move_named))]
fn move_from(text: &[u8]) -> Option<Move>
    ensures { result ≡ move_named text.now }
{
    if text.is_empty() {
        return None;
    }
    move_by(text[0], &text[1..], text)
}

// Whether parts are moves.
fn are_moves(mut parts: Parts<'_>) -> bool
    ensures { result ≡ is_some (moves_from parts.entry) }
{
    'parts: while let Some(part) = parts.next() {
        if move_from(part).is_none() {
            return false;
        }
    }
    true
}

// The moves that parts are.
fn read_moves(alloc: Global, mut parts: Parts<'_>) -> Result<Option<Vec<Move>>, NoMemory>
    ensures { IfOk result (λ moves. option_map (λ l. l.items) moves ≡ moves_from parts.entry) }
{
    let mut moves = Vec::new(alloc);
    'parts: while let Some(part) = parts.next() {
        match move_from(part) {
            Some(x) => moves.push(x)?,
            None => return Ok(None),
        }
    }
    Ok(Some(moves))
}

// Whether a text is that of a script.
#[tactic(auto, unfolding(crate::specs::Texts::script_from))]
pub(crate) fn is_script(text: &[u8]) -> bool
    ensures { result ≡ is_some (script_from text.now) }
{
    if text.is_empty() {
        return true;
    }
    are_moves(Parts::of(b',', text))
}

// The script that a text is.
#[tactic(auto, unfolding(crate::specs::Texts::script_from))]
pub(crate) fn read_script(alloc: Global, text: &[u8]) -> Result<Option<Vec<Move>>, NoMemory>
    ensures { IfOk result (λ script. option_map (λ l. l.items) script ≡ script_from text.now) }
{
    if text.is_empty() {
        return Ok(Some(Vec::new(alloc)));
    }
    read_moves(alloc, Parts::of(b',', text))
}
