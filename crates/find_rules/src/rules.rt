// Rules, the texts in which they are used, and whether a rule fits a tape.
use crate::block::{Block, Times, VARIABLES};
use crate::runs::Stop;
use crate::script::Script;
use crate::tapes::{Form, Half};
use crate::words::Word;
use machine_text::{Dir, Sym};
use std::alloc::{AllocError as NoMemory, Global};
use text::{append_number, decimal_value};

// From the first form the run comes to the second one; the ends are those of the first form. Its proof by induction:
// the scripts for 0 and for one more.
#[derive(Drop)]
pub(crate) struct Rule {
    pub from: Form,
    pub to: Form,
    pub none: Vec<u8>,
    pub more: Vec<u8>,
    // Whether it is proved together with those beside it of which that is so.
    pub is_joint: bool,
}

impl Rule {
    // The blank tape stays; takes no memory.
    pub fn new(alloc: Global) -> Rule {
        Rule {
            from: Form::new(alloc),
            to: Form::new(alloc),
            none: Vec::new(alloc),
            more: Vec::new(alloc),
            is_joint: false,
        }
    }

    // The text of a record, in which the rules have these numbers.
    pub fn append(&self, numbers: &[u64], out: &mut Vec<u8>) -> Result<(), NoMemory> {
        for side in [Dir::L, Dir::R] {
            out.push(if self.from.half(side).is_open {
                b'o'
            } else {
                b'b'
            })?;
        }
        out.push(b':')?;
        self.from.append(out)?;
        out.push(b':')?;
        self.to.append(out)?;
        out.push(b':')?;
        append_renumbered(&self.none, numbers, out)?;
        out.push(b':')?;
        append_renumbered(&self.more, numbers, out)
    }
}

// Of a move that uses a rule: its letter, its number, and where what is behind it begins.
fn used_rule(part: &[u8]) -> Option<(u8, u64, usize)> {
    let (letter, rest) = match part {
        [letter @ (b'u' | b'g'), rest @ ..] => (*letter, rest),
        _ => return None,
    };
    let mut count = 0usize;
    for byte in rest.iter() {
        if *byte == b'.' {
            break;
        }
        count = count.saturating_add(1);
    }
    let number = decimal_value(rest.get(..count)?)?;
    Some((letter, number, count.saturating_add(1)))
}

// Appends a script, in which the rules have these numbers.
pub(crate) fn append_renumbered(
    script: &[u8],
    numbers: &[u64],
    out: &mut Vec<u8>,
) -> Result<(), NoMemory> {
    let mut is_first = true;
    for part in script.split(|byte| *byte == b',') {
        if !is_first {
            out.push(b',')?;
        }
        is_first = false;
        let Some((letter, number, end)) = used_rule(part) else {
            out.extend_from_slice(part)?;
            continue;
        };
        let number = numbers.get(number as usize).copied().unwrap_or(0);
        out.push(letter)?;
        append_number(number, out)?;
        if let Some(rest) = part.get(end..) {
            out.extend_from_slice(rest)?;
        }
    }
    Ok(())
}

// Marks the rules that a script uses.
pub(crate) fn mark_used(script: &[u8], used: &mut [bool]) {
    for part in script.split(|byte| *byte == b',') {
        if let Some((_, number, _)) = used_rule(part)
            && let Some(mark) = used.get_mut(number as usize)
        {
            *mark = true;
        }
    }
}

// A block that a rule wants, and what is there.
#[derive(Clone, Copy, Debug, PartialEq, Eq)]
pub(crate) struct Pair {
    pub side: Dir,
    pub place: usize,
    pub wanted: Times,
    seen: Times,
    // Whether more may be there: the half goes on behind it.
    may_go_on: bool,
}

impl Pair {
    // Whether more is there than a rule takes with these values for its variables; none where there is less, or where
    // no more may be there.
    pub fn goes_on(&self, values: &[Times; VARIABLES]) -> Option<bool> {
        let rest = self.seen.without(self.wanted.put(values))?;
        if rest != Times::NEVER && !self.may_go_on {
            return None;
        }
        Some(rest != Times::NEVER)
    }
}

// How a move says which rule it uses: one that is known, with all values, or one that is guessed, without the first.
#[derive(Clone, Copy, Debug, PartialEq, Eq)]
pub(crate) enum Name {
    Known(usize),
    Guessed(usize),
}

// A half tape block by block, from the head on. Where a symbol is asked for, the first copy of a block is read as
// symbols.
#[derive(Drop)]
struct Reading<'a> {
    half: &'a Half,
    place: usize,
    spelled: Word,
    rest: Option<Block>,
    // Whether blanks are read beyond the last block.
    reads_blanks: bool,
}

impl Reading<'_> {
    fn next(&mut self) -> Option<Block> {
        if self.spelled.length() > 0 {
            let symbol = self.spelled.symbol(0);
            self.spelled = self
                .spelled
                .part(1, self.spelled.length().saturating_sub(1));
            return Some(Block::symbol(symbol));
        }
        if let Some(rest) = self.rest {
            self.rest = None;
            return Some(rest);
        }
        let block = self.half.at(self.place);
        self.place = self.place.saturating_add(1);
        if block.is_none() && self.reads_blanks {
            return Some(Block::symbol(Sym::Zero));
        }
        block
    }

    // Whether what was read last is beyond the last block.
    fn is_beyond(&self) -> bool {
        self.place > self.half.len()
    }

    // The first symbol of a block, the rest of which is read next.
    fn spell(&mut self, block: Block) -> Option<Block> {
        let rest = block.times.without(Times::ONCE)?;
        self.spelled = block.word.part(1, block.word.length().saturating_sub(1));
        if rest != Times::NEVER {
            self.rest = Some(Block {
                times: rest,
                ..block
            });
        }
        Some(Block::symbol(block.word.symbol(0)))
    }

    fn is_at_end(&self) -> bool {
        self.spelled.length() == 0 && self.rest.is_none() && self.place >= self.half.len()
    }
}

// What is known of a rule at a tape. It keeps the memory of its lists.
#[derive(Drop)]
pub(crate) struct Fitting {
    pub pairs: Vec<Pair>,
    // Where a copy of a block has to be spelled first.
    pub spelled: Vec<(Dir, usize)>,
}

impl Fitting {
    // Takes no memory.
    pub fn new(alloc: Global) -> Fitting {
        Fitting {
            pairs: Vec::new(alloc),
            spelled: Vec::new(alloc),
        }
    }

    // Whether a tape has the words with which a rule begins.
    pub fn reads(&mut self, rule: &Rule, tape: &Form) -> Result<bool, NoMemory> {
        self.pairs.clear();
        self.spelled.clear();
        let Form { state, side, .. } = &rule.from;
        if *state != tape.state || *side != tape.side {
            return Ok(false);
        }
        Ok(
            self.reads_half(Dir::L, rule, &tape.left)?
                && self.reads_half(Dir::R, rule, &tape.right)?,
        )
    }

    fn reads_half(&mut self, side: Dir, rule: &Rule, half: &Half) -> Result<bool, NoMemory> {
        let wanted = rule.from.half(side);
        if half.is_open && !wanted.is_open {
            return Ok(false);
        }
        let mut reading = Reading {
            half,
            place: 0,
            spelled: Word::EMPTY,
            rest: None,
            reads_blanks: rule.is_joint && !half.is_open,
        };
        for (place, block) in wanted.blocks().iter().rev().enumerate() {
            let may_go_on = wanted.is_open && place.saturating_add(1) == wanted.len();
            if !self.reads_block(&mut reading, side, place, *block, may_go_on)? {
                return Ok(false);
            }
        }
        Ok(wanted.is_open || reading.is_at_end())
    }

    fn reads_block(
        &mut self,
        reading: &mut Reading<'_>,
        side: Dir,
        place: usize,
        wanted: Block,
        may_go_on: bool,
    ) -> Result<bool, NoMemory> {
        let Some(seen) = reading.next() else {
            return Ok(false);
        };
        if !wanted.is_symbol() {
            self.pairs.push(Pair {
                side,
                place,
                wanted: wanted.times,
                seen: seen.times,
                may_go_on,
            })?;
            return Ok(seen.word == wanted.word && !seen.is_symbol());
        }
        if reading.is_beyond() {
            self.spelled.push((side, place))?;
        }
        if seen.is_symbol() {
            return Ok(seen == wanted);
        }
        if seen.word.symbol(0) != wanted.word.symbol(0) {
            return Ok(false);
        }
        self.spelled.push((side, place))?;
        Ok(reading.spell(seen).is_some())
    }

    // What stands for the rule's variables where it is used as often as it goes; none where it doesn't fit.
    pub fn values(&self) -> Result<Option<[Times; VARIABLES]>, Stop> {
        let Some(often) = self.times()? else {
            return Ok(None);
        };
        let mut values = [often, Times::NEVER, Times::NEVER, Times::NEVER];
        for pair in self.pairs.iter() {
            let taken = Times::of(pair.wanted.number()).plus(often.multiple(pair.wanted.factor()));
            let Some(rest) = pair.seen.without(taken) else {
                return Ok(None);
            };
            let Some((variable, factor)) = own_variable(pair.wanted) else {
                continue;
            };
            if !Times::of(rest.number()).rest_of(factor).is_never() {
                return Ok(None);
            }
            let share = shared(rest, factor)?;
            if let Some(value) = values.get_mut(variable) {
                *value = share;
            }
        }
        if self.fits(&values) {
            Ok(Some(values))
        } else {
            Ok(None)
        }
    }

    // Whether as much is there as the rule takes with these values, and no more than may be.
    pub fn fits(&self, values: &[Times; VARIABLES]) -> bool {
        self.pairs.iter().all(|pair| pair.goes_on(values).is_some())
    }

    // Has a script use the rule that was read, with these values.
    pub fn apply(
        &self,
        rule: &Rule,
        values: &[Times; VARIABLES],
        name: Name,
        script: &mut Script,
    ) -> Result<(), Stop> {
        let (letter, number, first) = match name {
            Name::Known(number) => (b'u', number, 0),
            Name::Guessed(number) => (b'g', number, 1),
        };
        for (side, place) in self.spelled.iter() {
            let _ = script.expose(*side, *place)?;
        }
        for pair in self.pairs.iter() {
            if pair.goes_on(values) == Some(true) {
                script.split(pair.side, pair.place, pair.wanted.put(values))?;
            }
        }
        script.begin_use(letter)?;
        append_number(number as u64, &mut script.text)?;
        script.say_values(values, first)?;
        script.replace(&rule.from, &rule.to, values)
    }

    // How often it may be used: as the block that is used up first allows.
    fn times(&self) -> Result<Option<Times>, Stop> {
        let mut least: Option<Times> = None;
        for pair in self.pairs.iter() {
            let factor = pair.wanted.factor();
            if factor == 0 {
                continue;
            }
            let Some(rest) = pair.seen.without(Times::of(pair.wanted.number())) else {
                return Ok(None);
            };
            let whole = rest.minus(Times::of(rest.number() % factor));
            let often = shared(whole, factor)?;
            least = Some(match least {
                Some(other) => lesser(other, often).ok_or(Stop::Fails)?,
                None => often,
            });
        }
        Ok(match least {
            Some(often) if often == Times::NEVER => None,
            Some(often) => Some(often),
            None => Some(Times::ONCE),
        })
    }
}

// The variable besides the first one on which a block depends, and how often.
fn own_variable(times: Times) -> Option<(usize, u64)> {
    for variable in 1..VARIABLES {
        let factor = times.factor_of(variable);
        if factor != 0 {
            return Some((variable, factor));
        }
    }
    None
}

// The share of one of so many; where the variables aren't multiples of that, they have to be.
pub(crate) fn shared(times: Times, count: u64) -> Result<Times, Stop> {
    for variable in 0..VARIABLES {
        let factor = times.factor_of(variable);
        if count != 0 && factor % count != 0 {
            let divisor = common_divisor(factor, count);
            return Err(Stop::Multiple(count.checked_div(divisor).unwrap_or(count)));
        }
    }
    Ok(times.share(count))
}

// The one that is at most the other for all values of the variables.
fn lesser(a: Times, b: Times) -> Option<Times> {
    let common = a.common(b);
    if common == a || common == b {
        Some(common)
    } else {
        None
    }
}

// The greatest common divisor, by Euclid; 1 for none.
pub(crate) fn common_divisor(a: u64, b: u64) -> u64 {
    let (mut large, mut small) = (a, b);
    for _ in 0..u64::BITS * 2 {
        if small == 0 {
            break;
        }
        (large, small) = (small, large % small);
    }
    large.max(1)
}
