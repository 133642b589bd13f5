// The two sides of an equation.
ghost use Rattle.std.specs.Prelude.{◌≡◌, ◌↔◌, ◌++◌, [], Some, map, IfOk, IsTrue};
ghost use Rattle.machine_text.specs.declared.table.Sym.TheVariants.{One};
ghost use Rattle.law_machines.specs.Terms.{repeat};
ghost use Rattle.law_induction.specs.declared.scripts.Equation.TheVariants.{Split, Spell, Roll, Power, Empty, Blank};
ghost use Rattle.law_induction.specs.Terms.{one_time, never_once, single, word_symbols, sides, sides_of, is_at_end, are_blanks};
ghost use Rattle.kind_rules.specs.Views.{Yields, sides_in};

use crate::limits::MAX_COPIES;
use crate::numbers::{are_same, product_of, spell, sum_of};
use crate::running::Stop;
use law_induction::{Block, Equation, Exponent};
use machine_text::Sym;
use std::alloc::{AllocError as NoMemory, Global};

// The two sides of an equation.
#[derive(Drop)]
pub(crate) struct BothSides {
    pub before: Vec<Block>,
    pub after: Vec<Block>,
}

// Once.
pub(crate) fn once() -> Exponent
    ensures { result ≡ one_time }
{
    Exponent {
        ones: 1,
        a: 0,
        b: 0,
        c: 0,
        d: 0,
    }
}

// Not once.
pub(crate) fn never_once() -> Exponent
    ensures { result ≡ never_once }
{
    Exponent {
        ones: 0,
        a: 0,
        b: 0,
        c: 0,
        d: 0,
    }
}

// The block of one symbol.
pub(crate) fn single(s: Sym) -> Block
    ensures { result ≡ single s }
{
    match s {
        Sym::Zero => Block {
            word: 2,
            times: once(),
        },
        Sym::One => Block {
            word: 3,
            times: once(),
        },
    }
}

// Two rows as sides.
fn both(alloc: Global, before: &[Block], after: &[Block]) -> Result<BothSides, Stop>
    ensures { Yields sides_in (Some (sides_of before.now after.now)) result }
{
    let before = Vec::from_slice(alloc, before)?;
    let after = Vec::from_slice(alloc, after)?;
    Ok(BothSides { before, after })
}

// A word so many times, and more.
#[tactic(auto, unfolding(law_induction::specs::Scripts::sides))]
fn split(alloc: Global, word: u64, first: Exponent, second: Exponent) -> Result<BothSides, Stop>
    ensures { Yields sides_in (sides (Split word first second)) result }
{
    let Some(times) = sum_of(first, second) else {
        return Err(Stop::Fails);
    };
    let whole = [Block { word, times }];
    let parts = [
        Block { word, times: first },
        Block {
            word,
            times: second,
        },
    ];
    both(alloc, &whole, &parts)
}

// The blocks of symbols.
fn singles(alloc: Global, symbols: &[Sym]) -> Result<Vec<Block>, NoMemory>
    ensures { IfOk result (λ row. row.items ≡ map single symbols.now) }
{
    let mut row = Vec::new(alloc);
    for s in symbols {
        row.push(single(*s))?;
    }
    Ok(row)
}

// The symbols of a word.
fn spelled(alloc: Global, word: u64) -> Result<Vec<Sym>, NoMemory>
    ensures { IfOk result (λ row. row.items ≡ word_symbols word) }
{
    let mut row = Vec::new(alloc);
    spell(&mut row, word)?;
    Ok(row)
}

// The symbols of two words.
fn spelled_both(alloc: Global, first: u64, second: u64) -> Result<Vec<Sym>, NoMemory>
    ensures { IfOk result (λ row. row.items ≡ word_symbols first ++ word_symbols second) }
{
    let mut row = Vec::new(alloc);
    spell(&mut row, first)?;
    spell(&mut row, second)?;
    Ok(row)
}

// The symbols of a word so many times.
fn spelled_often(alloc: Global, word: u64, copies: u32) -> Result<Vec<Sym>, NoMemory>
    ensures { IfOk result (λ row. row.items ≡ repeat (word_symbols word) copies []) }
{
    let mut row = Vec::new(alloc);
    for i in 0..copies {
        spell(&mut row, word)?;
    }
    Ok(row)
}

// A word as its symbols.
#[tactic(auto, unfolding(law_induction::specs::Scripts::sides))]
fn as_symbols(alloc: Global, word: u64) -> Result<BothSides, Stop>
    ensures { Yields sides_in (sides (Spell word)) result }
{
    let row = spelled(alloc, word)?;
    let after = singles(alloc, &row)?;
    let before = Vec::from_slice(
        alloc,
        &[Block {
            word,
            times: once(),
        }],
    )?;
    Ok(BothSides { before, after })
}

// A word that others are rolled over.
#[tactic(auto, unfolding(law_induction::specs::Scripts::sides))]
fn rolled(
    alloc: Global,
    over: u64,
    word: u64,
    other: u64,
    times: Exponent,
) -> Result<BothSides, Stop>
    ensures { Yields sides_in (sides (Roll over word other times)) result }
{
    let before = spelled_both(alloc, over, word)?;
    let after = spelled_both(alloc, other, over)?;
    if !are_same(&before, &after) {
        return Err(Stop::Fails);
    }
    let first = [
        Block {
            word: over,
            times: once(),
        },
        Block { word, times },
    ];
    let second = [
        Block { word: other, times },
        Block {
            word: over,
            times: once(),
        },
    ];
    both(alloc, &first, &second)
}

// A word that is another so many times.
#[tactic(auto, unfolding(law_induction::specs::Scripts::sides))]
fn powered(
    alloc: Global,
    long: u64,
    word: u64,
    copies: u32,
    times: Exponent,
) -> Result<BothSides, Stop>
    ensures { Yields sides_in (sides (Power long word copies times)) result }
{
    if copies > MAX_COPIES {
        return Err(Stop::Fails);
    }
    let whole = spelled(alloc, long)?;
    let parts = spelled_often(alloc, word, copies)?;
    if !are_same(&whole, &parts) {
        return Err(Stop::Fails);
    }
    let Some(more) = product_of(copies, times) else {
        return Err(Stop::Fails);
    };
    both(
        alloc,
        &[Block { word: long, times }],
        &[Block { word, times: more }],
    )
}

// A word not once.
#[tactic(auto, unfolding(law_induction::specs::Scripts::sides))]
fn emptied(alloc: Global, word: u64) -> Result<BothSides, Stop>
    ensures { Yields sides_in (sides (Empty word)) result }
{
    both(
        alloc,
        &[Block {
            word,
            times: never_once(),
        }],
        &[],
    )
}

// Whether all symbols are blank.
#[tactic(auto, unfolding(law_induction::specs::Scripts::are_blanks))]
fn are_blanks(row: &[Sym]) -> bool
    ensures { result ≡ are_blanks row.now }
{
    for s in row {
        if is_one(*s) {
            return false;
        }
    }
    true
}

// Whether a symbol is a one.
fn is_one(s: Sym) -> bool
    ensures { IsTrue result ↔ (s ≡ One) }
{
    matches!(s, Sym::One)
}

// Blanks.
#[tactic(auto, unfolding(law_induction::specs::Scripts::sides))]
fn blank(alloc: Global, word: u64, times: Exponent) -> Result<BothSides, Stop>
    ensures { Yields sides_in (sides (Blank word times)) result }
{
    let row = spelled(alloc, word)?;
    if !are_blanks(&row) {
        return Err(Stop::Fails);
    }
    both(alloc, &[Block { word, times }], &[])
}

// The two sides of an equation, where it is one.
pub(crate) fn sides(alloc: Global, e: Equation) -> Result<BothSides, Stop>
    ensures { Yields sides_in (sides e) result }
{
    match e {
        Equation::Split(word, first, second) => split(alloc, word, first, second),
        Equation::Spell(word) => as_symbols(alloc, word),
        Equation::Roll(over, word, other, times) => rolled(alloc, over, word, other, times),
        Equation::Power(long, word, copies, times) => powered(alloc, long, word, copies, times),
        Equation::Empty(word) => emptied(alloc, word),
        Equation::Blank(word, times) => blank(alloc, word, times),
    }
}

// Whether it holds at a blank end alone.
pub(crate) fn is_at_end(e: Equation) -> bool
    ensures { result ≡ is_at_end e }
{
    matches!(e, Equation::Blank(_, _))
}
