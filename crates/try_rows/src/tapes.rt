// A tape in words, held against a plain one of two lists of symbols.
use crate::words::{Said, number_of, unread};
use machine_text::{Dir, Sym};
use std::alloc::{AllocError as NoMemory, Global};
use std::cmp::Ordering;
use tape::Tape;

// Each list has the nearest cell last.
#[derive(Drop)]
pub struct Plain {
    pub head: i64,
    left: Vec<Sym>,
    pub read: Sym,
    right: Vec<Sym>,
}

impl Plain {
    /// The blank tape.
    pub fn new(alloc: Global) -> Plain {
        Plain {
            head: 0,
            left: Vec::new(alloc),
            read: Sym::Zero,
            right: Vec::new(alloc),
        }
    }

    /// Writes a symbol and moves. Where memory is refused, nothing changes.
    pub fn write(&mut self, s: Sym, side: Dir) -> Result<(), NoMemory> {
        match side {
            Dir::L => {
                self.right.push(s)?;
                self.read = self.left.pop().unwrap_or(Sym::Zero);
                self.head = self.head.wrapping_sub(1);
            }
            Dir::R => {
                self.left.push(s)?;
                self.read = self.right.pop().unwrap_or(Sym::Zero);
                self.head = self.head.wrapping_add(1);
            }
        }
        Ok(())
    }

    /// The symbol at a place.
    pub fn cell(&self, x: i64) -> Sym {
        let distance = self.head.abs_diff(x) as usize;
        match x.cmp(&self.head) {
            Ordering::Less => at_distance(&self.left, distance),
            Ordering::Equal => self.read,
            Ordering::Greater => at_distance(&self.right, distance),
        }
    }

    /// How many ones there are.
    pub fn ones(&self) -> u64 {
        let head = u64::from(self.read == Sym::One);
        head.saturating_add(ones_of(&self.left))
            .saturating_add(ones_of(&self.right))
    }
}

fn ones_of(side: &[Sym]) -> u64 {
    let mut count = 0u64;
    for s in side {
        if *s == Sym::One {
            count = count.saturating_add(1);
        }
    }
    count
}

// The symbol so many cells from the head.
fn at_distance(side: &[Sym], distance: usize) -> Sym {
    match side.len().checked_sub(distance) {
        Some(at) if at < side.len() => side[at],
        _ => Sym::Zero,
    }
}

// How far heads go, and how many cells are looked at.
const FAR: i64 = 1_000;

// A tape in words and a plain one, on which the same is done.
#[derive(Drop)]
struct Both {
    packed: Tape,
    plain: Plain,
    // whether all was the same so far
    agrees: bool,
}

impl Both {
    fn new(alloc: Global) -> Both {
        Both {
            packed: Tape::new(alloc),
            plain: Plain::new(alloc),
            agrees: true,
        }
    }

    // The heads, what they read and the numbers of ones are the same.
    fn look(&mut self) {
        let is_same = self.packed.head() == self.plain.head
            && self.packed.read() == self.plain.read
            && self.packed.ones() == self.plain.ones();
        self.agrees = self.agrees && is_same;
    }

    // Writes and moves.
    fn step(&mut self, s: Sym, side: Dir) -> Result<(), NoMemory> {
        let head = self.packed.head();
        if head <= -FAR || FAR <= head {
            self.agrees = false;
            return Ok(());
        }
        match side {
            Dir::L => self.packed.write_left(s)?,
            Dir::R => self.packed.write_right(s)?,
        }
        self.plain.write(s, side)?;
        self.look();
        Ok(())
    }

    // Sweeps over cells with the symbol under the head, and writes and moves as often. It stops for its limit, for another
    // symbol, or at the edge of a word.
    fn sweep(&mut self, side: Dir, s: Sym, limit: u64) -> Result<(), NoMemory> {
        let head = self.packed.head();
        if head <= -FAR || FAR <= head || limit == 0 || limit > 100 {
            self.agrees = false;
            return Ok(());
        }
        let over = self.plain.read;
        let count = self.packed.sweep(side, s, limit)?;
        for _ in 0..count {
            self.agrees = self.agrees && self.plain.read == over;
            self.plain.write(s, side)?;
        }
        self.look();
        let edge = match side {
            Dir::L => 63,
            Dir::R => 0,
        };
        let is_edge = self.plain.head.rem_euclid(64) == edge;
        let may_stop = count == limit || self.plain.read != over || is_edge;
        self.agrees = self.agrees && 0 < count && count <= limit && may_stop;
        Ok(())
    }

    // Says whether the tapes are the same, all their cells too.
    fn say(&mut self, said: &mut Said) -> Result<(), NoMemory> {
        for x in -FAR..FAR {
            self.agrees = self.agrees && self.packed.cell(x) == self.plain.cell(x);
        }
        said.text(if self.agrees { "agree" } else { "disagree" })
    }
}

// Numbers that look random: a linear congruential generator.
#[derive(Drop)]
struct Draws(u64);

impl Draws {
    fn next(&mut self) -> u64 {
        self.0 = self
            .0
            .wrapping_mul(6_364_136_223_846_793_005)
            .wrapping_add(1_442_695_040_888_963_407);
        self.0 >> 33
    }
}

fn symbol(is_one: bool) -> Sym {
    if is_one { Sym::One } else { Sym::Zero }
}

/// `steps SEED`: 600 random moves and writes. The head turns seldom; by the seed half of the symbols are ones, few are, or
/// most.
pub fn say_steps(alloc: Global, rest: &str, said: &mut Said) -> Result<(), NoMemory> {
    let Some(seed) = number_of(rest) else {
        return unread(said);
    };
    let (mut draws, mut side, mut both) = (Draws(seed), Dir::R, Both::new(alloc));
    for _ in 0..600 {
        let draw = draws.next();
        if draw & 0xf0 == 0 {
            side = match side {
                Dir::L => Dir::R,
                Dir::R => Dir::L,
            };
        }
        let is_one = match seed % 3 {
            0 => draw & 1 == 1,
            1 => draw & 7 == 7,
            _ => draw & 7 != 7,
        };
        both.step(symbol(is_one), side)?;
    }
    both.say(said)
}

/// `sweeps SEED`: 100 random sweeps over long runs of like cells, as machines leave them.
pub fn say_sweeps(alloc: Global, rest: &str, said: &mut Said) -> Result<(), NoMemory> {
    let Some(seed) = number_of(rest) else {
        return unread(said);
    };
    let (mut draws, mut both) = (Draws(seed), Both::new(alloc));
    write_runs(&mut draws, &mut both)?;
    for _ in 0..100 {
        let draw = draws.next();
        let side = match both.plain.head {
            ..-600 => Dir::R,
            600.. => Dir::L,
            _ if draw & 6 == 0 => Dir::L,
            _ => Dir::R,
        };
        let limit = 1 + (draw >> 3) % 100;
        both.sweep(side, symbol(draw & 1 == 1), limit)?;
    }
    both.say(said)
}

// Writes runs of like cells, up to 89 long.
fn write_runs(draws: &mut Draws, both: &mut Both) -> Result<(), NoMemory> {
    for run in 0..8u8 {
        let length = draws.next() % 90;
        write_run(both, symbol(run & 1 == 0), length)?;
    }
    Ok(())
}

fn write_run(both: &mut Both, s: Sym, length: u64) -> Result<(), NoMemory> {
    for _ in 0..length {
        both.step(s, Dir::R)?;
    }
    Ok(())
}
