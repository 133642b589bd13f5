// Sums and multiples of exponents, the symbols of words, and the texts of both.
ghost use Rattle.std.specs.Prelude.{◌≡◌, ◌++◌, IfOk, ◌*◌, ◌<◌, ◌≤◌, IfSome, option_map};
ghost use Rattle.law_induction.specs.Terms.{word_symbols, symbols_eq, digit, within_limit, sum_of, product_of, substituted};
ghost use Rattle.text.specs.Terms.{parts_of};
ghost use Rattle.kind_rules.specs.Limits.{symbol_weight_limit};
ghost use Rattle.kind_rules.specs.Views.{factored_of};
ghost use Rattle.kind_rules.specs.Texts.{number_from, factor_from, symbol_onto, word_from, factored, exponent_from, next_times, parts_behind, four_from};

use crate::limits::{MAX_NUMBER, MAX_SYMBOL_WEIGHT, MAX_WORD};
use crate::sides::never_once;
use law_induction::{Exponent, Exponents};
use machine_text::Sym;
use std::alloc::{AllocError as NoMemory, Global};
use text::{Parts, decimal_value};

// The symbol of a binary digit.
fn digit(n: u64) -> Sym
    ensures { result ≡ digit n }
{
    if n == 0 { Sym::Zero } else { Sym::One }
}

/// The symbols of a word, the first one first.
pub fn symbols_of(alloc: Global, word: u64) -> Result<Vec<Sym>, NoMemory>
    ensures { IfOk result (λ symbols. symbols.items ≡ word_symbols word) }
{
    let mut symbols = Vec::new(alloc);
    spell(&mut symbols, word)?;
    Ok(symbols)
}

// Puts the symbols of a word behind others.
#[tactic(auto, unfolding(law_induction::specs::Words::word_symbols))]
pub(crate) fn spell(row: &mut Vec<Sym>, word: u64) -> Result<(), NoMemory>
    ensures { IfOk result (λ _. row.new.items ≡ row.old.items ++ word_symbols word) }
{
    let mut rest = word;
    for i in 0..MAX_WORD {
        if rest <= 1 {
            return Ok(());
        }
        row.push(digit(rest % 2))?;
        rest /= 2;
    }
    Ok(())
}

// Whether two rows of symbols are the same.
pub(crate) fn are_same(a: &[Sym], b: &[Sym]) -> bool
    ensures { result ≡ symbols_eq a.now b.now }
{
    a == b
}

// A number that isn't too large.
#[tactic(auto, unfolding(law_induction::specs::Scripts::within_limit, law_induction::specs::Words::exponent_limit))]
fn within_limit(n: u64) -> Option<u32>
    ensures { result ≡ within_limit n }
{
    if n <= MAX_NUMBER {
        Some(n as u32)
    } else {
        None
    }
}

// The sum of two.
#[tactic(auto, unfolding(law_induction::specs::Scripts::sum_of))]
pub(crate) fn sum_of(first: Exponent, second: Exponent) -> Option<Exponent>
    ensures { result ≡ sum_of first second }
{
    let ones = within_limit(first.ones as u64 + second.ones as u64)?;
    let a = within_limit(first.a as u64 + second.a as u64)?;
    let b = within_limit(first.b as u64 + second.b as u64)?;
    let c = within_limit(first.c as u64 + second.c as u64)?;
    let d = within_limit(first.d as u64 + second.d as u64)?;
    Some(Exponent { ones, a, b, c, d })
}

// So many times as often.
#[tactic(auto, unfolding(law_induction::specs::Scripts::product_of))]
pub(crate) fn product_of(k: u32, times: Exponent) -> Option<Exponent>
    ensures { result ≡ product_of k times }
{
    let ones = within_limit(k as u64 * times.ones as u64)?;
    let a = within_limit(k as u64 * times.a as u64)?;
    let b = within_limit(k as u64 * times.b as u64)?;
    let c = within_limit(k as u64 * times.c as u64)?;
    let d = within_limit(k as u64 * times.d as u64)?;
    Some(Exponent { ones, a, b, c, d })
}

// With others in place of the variables.
#[tactic(auto, unfolding(law_induction::specs::Scripts::substituted))]
pub(crate) fn substituted(times: Exponent, by: &Exponents) -> Option<Exponent>
    ensures { result ≡ substituted times by.now }
{
    let a = product_of(times.a, by.a)?;
    let b = product_of(times.b, by.b)?;
    let c = product_of(times.c, by.c)?;
    let d = product_of(times.d, by.d)?;
    let cd = sum_of(c, d)?;
    let bcd = sum_of(b, cd)?;
    let abcd = sum_of(a, bcd)?;
    let ones = Exponent {
        ones: times.ones,
        a: 0,
        b: 0,
        c: 0,
        d: 0,
    };
    sum_of(ones, abcd)
}

// The number that a text is.
#[tactic(auto, unfolding(crate::specs::Texts::number_from, law_induction::specs::Words::exponent_limit))]
pub(crate) fn number_from(text: &[u8]) -> Option<u32>
    ensures { result ≡ number_from text.now }
{
    let number = decimal_value(text)?;
    if number <= MAX_NUMBER {
        Some(number as u32)
    } else {
        None
    }
}

// A number that isn't 0.
#[tactic(auto, unfolding(crate::specs::Texts::factor_from))]
fn factor_from(text: &[u8]) -> Option<u32>
    ensures { result ≡ factor_from text.now }
{
    let number = number_from(text)?;
    if number == 0 { None } else { Some(number) }
}

// The number of a word with one more symbol, of such a weight.
#[tactic(auto, unfolding(crate::specs::Texts::symbol_onto))]
fn symbol_onto(weight: u64, number: u64, b: u8) -> Option<u64>
    requires { number < weight }
    ensures number { result ≡ symbol_onto weight number b }
    ensures below { IfSome result (λ n. (n < 2 * weight) × (weight ≤ symbol_weight_limit)) }
{
    if weight > MAX_SYMBOL_WEIGHT {
        return None;
    }
    match b {
        b'0' => Some(number),
        b'1' => Some(number + weight),
        _ => None,
    }
}

// The number of a word.
#[tactic(auto, unfolding(crate::specs::Texts::word_from))]
pub(crate) fn word_from(text: &[u8]) -> Option<u64>
    ensures { result ≡ word_from text.now }
{
    if text.is_empty() {
        return None;
    }
    let mut weight: u64 = 1;
    let mut number: u64 = 0;
    for b in text {
        number = symbol_onto(weight, number, *b)?;
        weight *= 2;
    }
    Some(number + weight)
}

// What stands before a letter, and the factor behind it.
#[derive(Clone, Copy)]
pub(crate) struct Factor<'a> {
    pub before: &'a [u8],
    pub factor: u32,
}

// The factor of a letter in an exponent.
fn factored<'a>(letter: u8, text: &'a [u8]) -> Option<Factor<'a>>
    ensures { option_map factored_of result ≡ factored (parts_of letter text.now) }
{
    let mut parts = Parts::of(letter, text);
    let before = parts.next()?;
    let Some(factor) = parts.next() else {
        return Some(Factor { before, factor: 0 });
    };
    let factor = factor_from(factor)?;
    if parts.next().is_some() {
        return None;
    }
    Some(Factor { before, factor })
}

// The exponent that a text is.
#[tactic(auto, unfolding(crate::specs::Texts::exponent_from))]
pub(crate) fn times_from(text: &[u8]) -> Option<Exponent>
    ensures { result ≡ exponent_from text.now }
{
    let d = factored(b'd', text)?;
    let c = factored(b'c', d.before)?;
    let b = factored(b'b', c.before)?;
    let a = factored(b'a', b.before)?;
    let ones = number_from(a.before)?;
    Some(Exponent {
        ones,
        a: a.factor,
        b: b.factor,
        c: c.factor,
        d: d.factor,
    })
}

// The next exponent, which is 0 where none is left.
pub(crate) fn next_times(parts: &mut Parts<'_>) -> Option<Exponent>
    ensures times { result ≡ next_times parts.old }
    ensures parts_behind { IfSome result (λ _. parts.new ≡ parts_behind parts.old) }
{
    match parts.next() {
        Some(part) => times_from(part),
        None => Some(never_once()),
    }
}

// Four in place of the variables.
#[tactic(auto, unfolding(crate::specs::Texts::four_from))]
pub(crate) fn four_from(mut parts: Parts<'_>) -> Option<Exponents>
    ensures { result ≡ four_from parts.entry }
{
    let a = next_times(&mut parts)?;
    let b = next_times(&mut parts)?;
    let c = next_times(&mut parts)?;
    let d = next_times(&mut parts)?;
    if parts.next().is_some() {
        return None;
    }
    Some(Exponents { a, b, c, d })
}
