// Equations in a script, what they make of the tape, and the one shape of a half tape.
use crate::block::{Block, Times};
use crate::limits::{GATHERED, MAX_CHANGES, NESTED_COPIES, NESTED_WORDS};
use crate::records::{append_equation, begin_move};
use crate::runs::Stop;
use crate::script::Script;
use crate::words::Word;
use machine_text::{Dir, Sym};

impl Script {
    // The beginning of an equation at a place of one half.
    fn begin_equation(&mut self, side: Dir, place: usize, letter: u8) -> Result<(), Stop> {
        self.flush()?;
        begin_move(&mut self.text)?;
        append_equation(side, place as u64, letter, &mut self.text)?;
        Ok(())
    }

    // The block at a place becomes two: so often, and the rest.
    pub fn split(&mut self, side: Dir, place: usize, first: Times) -> Result<(), Stop> {
        let block = self.block(side, place).ok_or(Stop::Fails)?;
        let rest = block.times.minus(first);
        if rest.plus(first) != block.times {
            return Err(Stop::More);
        }
        self.begin_equation(side, place, b's')?;
        self.say_word(block.word)?;
        self.say_times(first)?;
        self.say_times(rest)?;
        let half = self.half_mut(side);
        half.take_many(place, 1);
        half.put(
            place,
            Block {
                times: rest,
                ..block
            },
        )?;
        half.put(
            place,
            Block {
                times: first,
                ..block
            },
        )?;
        Ok(())
    }

    // The block at a place and the next one, of the same word, become one.
    pub fn join(&mut self, side: Dir, place: usize) -> Result<(), Stop> {
        let block = self.block(side, place).ok_or(Stop::Fails)?;
        let next = self
            .block(side, place.saturating_add(1))
            .ok_or(Stop::Fails)?;
        self.begin_equation(side, place, b'S')?;
        self.say_word(block.word)?;
        self.say_times(block.times)?;
        self.say_times(next.times)?;
        let half = self.half_mut(side);
        half.take_many(place, 2);
        half.put(
            place,
            Block {
                word: block.word,
                times: block.times.plus(next.times),
            },
        )?;
        Ok(())
    }

    // The word at a place, once, becomes its symbols.
    pub fn spell(&mut self, side: Dir, place: usize) -> Result<(), Stop> {
        let block = self.block(side, place).ok_or(Stop::Fails)?;
        if block.word.length() > 1 {
            self.begin_equation(side, place, b'w')?;
            self.say_word(block.word)?;
            let half = self.half_mut(side);
            half.take_many(place, 1);
            half.put_symbols(place, block.word)?;
        }
        Ok(())
    }

    // The symbols at a place become the word that they are.
    pub fn gather(&mut self, side: Dir, place: usize, word: Word) -> Result<(), Stop> {
        if word.length() > 1 {
            self.begin_equation(side, place, b'W')?;
            self.say_word(word)?;
            let half = self.half_mut(side);
            half.take_many(place, word.length() as usize);
            half.put(place, Block::once(word))?;
        }
        Ok(())
    }

    // The word at a place, once, is rolled over by the block behind it, which then has the other word.
    pub fn roll(&mut self, side: Dir, place: usize, other: Word) -> Result<(), Stop> {
        let over = self.block(side, place).ok_or(Stop::Fails)?;
        let block = self
            .block(side, place.saturating_add(1))
            .ok_or(Stop::Fails)?;
        self.begin_equation(side, place, b'r')?;
        self.say_word(over.word)?;
        self.say_word(block.word)?;
        self.say_word(other)?;
        self.say_times(block.times)?;
        let half = self.half_mut(side);
        half.take_many(place, 2);
        half.put(place, over)?;
        half.put(
            place,
            Block {
                word: other,
                times: block.times,
            },
        )?;
        Ok(())
    }

    // The block at a place is rolled over by the symbol behind it, with which its word begins.
    pub fn roll_back(&mut self, side: Dir, place: usize) -> Result<(), Stop> {
        let block = self.block(side, place).ok_or(Stop::Fails)?;
        let over = self
            .block(side, place.saturating_add(1))
            .ok_or(Stop::Fails)?;
        let other = block.word.turned(1);
        self.begin_equation(side, place, b'R')?;
        self.say_word(over.word)?;
        self.say_word(other)?;
        self.say_word(block.word)?;
        self.say_times(block.times)?;
        let half = self.half_mut(side);
        half.take_many(place, 2);
        half.put(
            place,
            Block {
                word: other,
                times: block.times,
            },
        )?;
        half.put(place, over)?;
        Ok(())
    }

    // The block at a place becomes one of a shorter word, of which its word is a power.
    pub fn unpack(&mut self, side: Dir, place: usize, word: Word) -> Result<(), Stop> {
        let block = self.block(side, place).ok_or(Stop::Fails)?;
        let copies = block.word.copies_of(word).ok_or(Stop::Fails)?;
        self.begin_equation(side, place, b'p')?;
        self.say_word(block.word)?;
        self.say_word(word)?;
        self.say_number(copies)?;
        self.say_times(block.times)?;
        let half = self.half_mut(side);
        half.take_many(place, 1);
        half.put(
            place,
            Block {
                word,
                times: block.times.multiple(copies),
            },
        )?;
        Ok(())
    }

    // The block at a place becomes one of a power of its word.
    pub fn pack(&mut self, side: Dir, place: usize, copies: u64) -> Result<(), Stop> {
        let block = self.block(side, place).ok_or(Stop::Fails)?;
        let word = block.word.power(copies).ok_or(Stop::Fails)?;
        if block.times.rest_of(copies) != Times::NEVER {
            return Err(Stop::Multiple(copies));
        }
        let times = block.times.share(copies);
        self.begin_equation(side, place, b'P')?;
        self.say_word(word)?;
        self.say_word(block.word)?;
        self.say_number(copies)?;
        self.say_times(times)?;
        let half = self.half_mut(side);
        half.take_many(place, 1);
        half.put(place, Block { word, times })?;
        Ok(())
    }

    // The block at a place, which is there never, is dropped.
    pub fn drop_empty(&mut self, side: Dir, place: usize) -> Result<(), Stop> {
        let block = self.block(side, place).ok_or(Stop::Fails)?;
        self.begin_equation(side, place, b'e')?;
        self.say_word(block.word)?;
        self.half_mut(side).take_many(place, 1);
        Ok(())
    }

    // A word is put at a place, never.
    pub fn put_empty(&mut self, side: Dir, place: usize, word: Word) -> Result<(), Stop> {
        self.begin_equation(side, place, b'E')?;
        self.say_word(word)?;
        self.half_mut(side).put(
            place,
            Block {
                word,
                times: Times::NEVER,
            },
        )?;
        Ok(())
    }

    // The last block of a half, which is blank, is dropped.
    pub fn drop_blanks(&mut self, side: Dir) -> Result<(), Stop> {
        let place = self.half(side).len().saturating_sub(1);
        let block = self.block(side, place).ok_or(Stop::Fails)?;
        self.begin_equation(side, place, b'b')?;
        self.say_word(block.word)?;
        self.say_times(block.times)?;
        let half = self.half_mut(side);
        half.take_many(place, 1);
        half.keeps_end = false;
        Ok(())
    }

    // Blanks are put behind a half, as a block.
    pub fn put_blanks(&mut self, side: Dir, block: Block) -> Result<(), Stop> {
        let place = self.half(side).len();
        self.begin_equation(side, place, b'B')?;
        self.say_word(block.word)?;
        self.say_times(block.times)?;
        let half = self.half_mut(side);
        half.put(place, block)?;
        half.keeps_end = false;
        Ok(())
    }

    // Has a symbol by itself stand at a place, and gives it.
    pub fn expose(&mut self, side: Dir, place: usize) -> Result<Sym, Stop> {
        let mut next = self.block(side, place);
        for _ in 0..=self.half(side).len() {
            match next {
                Some(block) if block.times == Times::NEVER => self.drop_empty(side, place)?,
                _ => break,
            }
            next = self.block(side, place);
        }
        let Some(block) = next else {
            self.put_blank(side)?;
            return Ok(Sym::Zero);
        };
        if block.times.number() == 0 {
            return Err(Stop::More);
        }
        if block.times != Times::ONCE {
            self.split(side, place, Times::ONCE)?;
        }
        self.spell(side, place)?;
        Ok(block.word.symbol(0))
    }
}

// How many blocks before those that changed are looked at again, as long as they are symbols.
const LOOK_BACK: usize = (NESTED_COPIES * NESTED_WORDS + 8) as usize;

impl Script {
    // Brings both halves into their normal shapes, by equations: copies of at least so many cells together become
    // blocks.
    pub fn normalize(&mut self, cells: u32) -> Result<(), Stop> {
        self.normalize_half(Dir::L, cells)?;
        self.normalize_half(Dir::R, cells)
    }

    // Blocks are counted from the far end here.
    fn normalize_half(&mut self, side: Dir, cells: u32) -> Result<(), Stop> {
        let mut index = self.first_unsettled(side);
        for _ in 0..MAX_CHANGES {
            let before = index.saturating_add(1);
            let Some(place) = self.half(side).len().checked_sub(before) else {
                break;
            };
            index = self.normalize_block(side, index, place, cells)?;
        }
        let half = self.half_mut(side);
        half.settled = half.len();
        Ok(())
    }

    // The first block that may not be in its shape.
    fn first_unsettled(&self, side: Dir) -> usize {
        let half = self.half(side);
        let mut index = half.settled;
        if index >= half.len() {
            return index;
        }
        for _ in 0..LOOK_BACK {
            let Some(before) = index.checked_sub(1) else {
                return 0;
            };
            index = before;
            match half.blocks().get(index) {
                Some(block) if block.is_symbol() => {}
                _ => return index,
            }
        }
        index
    }

    // One equation or none at a block, and which block is the next.
    fn normalize_block(
        &mut self,
        side: Dir,
        index: usize,
        place: usize,
        cells: u32,
    ) -> Result<usize, Stop> {
        let block = self.block(side, place).ok_or(Stop::Fails)?;
        let root = block.word.root();
        if index == 0 && !self.half(side).is_open && block.word.is_blank() {
            self.drop_blanks(side)?;
        } else if block.is_symbol() {
            return self.gather_copies(side, index, cells);
        } else if block.times.is_never() {
            self.drop_empty(side, place)?;
            return Ok(index.saturating_sub(LOOK_BACK));
        } else if block.times.is_once() {
            self.spell(side, place)?;
        } else if root != block.word {
            self.unpack(side, place, root)?;
        } else {
            return self.merge(side, index, place);
        }
        Ok(index)
    }

    // A block takes up copies of its word on both sides of it, or goes further from the head.
    fn merge(&mut self, side: Dir, index: usize, place: usize) -> Result<usize, Stop> {
        let Block { word, .. } = self.block(side, place).ok_or(Stop::Fails)?;
        if let Some(far) = self.block(side, place.saturating_add(1)) {
            if far.word == word {
                self.join(side, place)?;
                return Ok(index.saturating_sub(1));
            }
            if far.is_symbol() && far.word.symbol(0) == word.symbol(0) {
                self.roll_back(side, place)?;
                return Ok(index.saturating_sub(1));
            }
        }
        let length = u64::from(word.length());
        if let Some(near) = place.checked_sub(word.length() as usize)
            && self.symbols_of(side, near, word, length) == length
        {
            self.gather(side, near, word)?;
            self.join(side, near)?;
            return Ok(index);
        }
        Ok(index.saturating_add(1))
    }

    // The first repetition from a symbol on, towards the head, becomes a block; which block is the next.
    fn gather_copies(&mut self, side: Dir, index: usize, cells: u32) -> Result<usize, Stop> {
        let seen = self.symbols_from(side, index);
        let mut last = seen.length();
        if last >= GATHERED {
            last = GATHERED - NESTED_COPIES * NESTED_WORDS;
        }
        for start in 0..last {
            let next = index.saturating_add(start as usize);
            let rest = seen.part(start, seen.length().saturating_sub(start));
            if let Some((word, copies)) = repetition(rest, cells) {
                self.pack_copies(side, next, word, copies)?;
                return Ok(next);
            }
        }
        Ok(index.saturating_add(last as usize))
    }

    // The copies of a word from a symbol on, towards the head, become a block.
    fn pack_copies(
        &mut self,
        side: Dir,
        index: usize,
        word: Word,
        copies: u64,
    ) -> Result<(), Stop> {
        // The nearest symbol comes first.
        let word = word.reversed();
        let power = word.power(copies).ok_or(Stop::Fails)?;
        let end = index.saturating_add(power.length() as usize);
        let place = self.half(side).len().saturating_sub(end);
        self.gather(side, place, power)?;
        self.unpack(side, place, word)
    }

    // The symbols from a block on, towards the head, as far as they stand by themselves and are put together at once.
    fn symbols_from(&self, side: Dir, index: usize) -> Word {
        let mut word = Word::EMPTY;
        let blocks = self.half(side).blocks().iter().skip(index);
        for block in blocks.take(GATHERED as usize) {
            if !block.is_symbol() {
                break;
            }
            word = word.then(block.word).unwrap_or(word);
        }
        word
    }
}

// The shortest word that symbols repeat from the first on, often enough for a block, and how often.
fn repetition(seen: Word, cells: u32) -> Option<(Word, u64)> {
    for length in 1..=NESTED_WORDS {
        if length * NESTED_COPIES > seen.length() {
            return None;
        }
        let later = seen.part(length, seen.length().saturating_sub(length));
        let copies = (seen.agreement(later) / length).saturating_add(1);
        if copies >= NESTED_COPIES && copies.saturating_mul(length) >= cells {
            return Some((seen.part(0, length), u64::from(copies)));
        }
    }
    None
}
