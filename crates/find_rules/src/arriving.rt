// Has a half tape be another one, by equations alone.
use crate::block::{Block, Times};
use crate::limits::LONGEST_WORD;
use crate::runs::Stop;
use crate::script::Script;
use crate::tapes::Half;
use crate::words::Word;
use machine_text::{Dir, Sym};

// How many equations one block of the other half tape may take.
const MAX_PARTS: usize = 200;

// What stands where copies of a word are wanted.
#[derive(Clone, Copy, Debug, PartialEq, Eq)]
enum Copies {
    Ready,
    NotYet,
}

impl Script {
    // Has a half be this one.
    pub fn arrive(&mut self, side: Dir, target: &Half) -> Result<(), Stop> {
        for place in 0..target.len() {
            let Some(block) = target.at(place) else {
                return Err(Stop::Fails);
            };
            if block.is_symbol() {
                if self.expose(side, place)? != block.word.symbol(0) {
                    return Err(Stop::Fails);
                }
            } else {
                self.collect(side, place, block)?;
            }
        }
        self.clear_behind(side, target.len())
    }

    // Has a block stand at a place, put together of parts.
    fn collect(&mut self, side: Dir, place: usize, wanted: Block) -> Result<(), Stop> {
        let mut have = Times::NEVER;
        let mut at = place;
        for _ in 0..MAX_PARTS {
            let rest = wanted.times.minus(have);
            if rest == Times::NEVER {
                if have == Times::NEVER {
                    self.put_empty(side, place, wanted.word)?;
                }
                return Ok(());
            }
            have = have.plus(self.collect_part(side, at, wanted.word, rest)?);
            if at != place {
                self.join(side, place)?;
            }
            at = place.saturating_add(1);
        }
        Err(Stop::Fails)
    }

    // Has copies of a word stand at a place, some of those that are wanted, and says how many.
    fn collect_part(
        &mut self,
        side: Dir,
        at: usize,
        word: Word,
        wanted: Times,
    ) -> Result<Times, Stop> {
        for _ in 0..MAX_PARTS {
            if self.copies_at(side, at, word, wanted)? == Copies::Ready {
                let block = self.block(side, at).ok_or(Stop::Fails)?;
                let taken = block.times.common(wanted);
                if taken == Times::NEVER {
                    return Err(Stop::More);
                }
                if taken != block.times {
                    self.split(side, at, taken)?;
                }
                return Ok(taken);
            }
        }
        Err(Stop::Fails)
    }

    // One equation towards copies of a word at a place.
    fn copies_at(
        &mut self,
        side: Dir,
        at: usize,
        word: Word,
        wanted: Times,
    ) -> Result<Copies, Stop> {
        let Some(block) = self.block(side, at) else {
            if !word.is_blank() {
                return Err(Stop::Fails);
            }
            self.put_blanks(
                side,
                Block {
                    word,
                    times: wanted,
                },
            )?;
            return Ok(Copies::Ready);
        };
        if block.times == Times::NEVER {
            self.drop_empty(side, at)?;
            Ok(Copies::NotYet)
        } else if block.is_symbol() {
            self.copies_of_symbols(side, at, word, wanted)
        } else if block.word == word {
            Ok(Copies::Ready)
        } else {
            self.change_word(side, at, word)
        }
    }

    // A block of another word becomes one of this word; where that can't be, its first copy its symbols.
    fn change_word(&mut self, side: Dir, at: usize, word: Word) -> Result<Copies, Stop> {
        let block = self.block(side, at).ok_or(Stop::Fails)?;
        let root = word.root();
        if block.word.copies_of(word).is_some() {
            self.unpack(side, at, word)?;
            return Ok(Copies::Ready);
        }
        if block.word != root && block.word.root() == root {
            self.unpack(side, at, root)?;
            return Ok(Copies::NotYet);
        }
        if block.word == root && self.pack_whole(side, at, word)? {
            return Ok(Copies::Ready);
        }
        let _ = self.expose(side, at)?;
        Ok(Copies::NotYet)
    }

    // Of a block of a word's root, as much becomes one of the word as can; says whether anything does.
    fn pack_whole(&mut self, side: Dir, at: usize, word: Word) -> Result<bool, Stop> {
        let block = self.block(side, at).ok_or(Stop::Fails)?;
        let copies = word.copies_of(block.word).ok_or(Stop::Fails)?;
        let whole = block.times.minus(block.times.rest_of(copies));
        if whole == Times::NEVER {
            return Ok(false);
        }
        if whole != block.times {
            self.split(side, at, whole)?;
        }
        if copies > 1 {
            self.pack(side, at, copies)?;
        }
        Ok(true)
    }

    // How many symbols stand by themselves from a place on, which are those of a word again and again.
    pub fn symbols_of(&self, side: Dir, at: usize, word: Word, most: u64) -> u64 {
        let mut next = 0;
        for k in 0..most {
            let Some(block) = self.block(side, at.saturating_add(k as usize)) else {
                return k;
            };
            if !block.is_symbol() || block.word.symbol(0) != word.symbol(next) {
                return k;
            }
            next = next.saturating_add(1);
            if next >= word.length() {
                next = 0;
            }
        }
        most
    }

    // Copies of a word where there are symbols.
    fn copies_of_symbols(
        &mut self,
        side: Dir,
        at: usize,
        word: Word,
        wanted: Times,
    ) -> Result<Copies, Stop> {
        let length = u64::from(word.length());
        if length == 0 {
            return Err(Stop::Fails);
        }
        let most = wanted
            .number()
            .min(u64::from(LONGEST_WORD) / length)
            .max(1)
            .saturating_mul(length);
        let count = self.symbols_of(side, at, word, most);
        if count < length {
            return self.roll_symbols(side, at, word, count as u32);
        }
        let copies = at_once(count / length, length);
        self.gather(side, at, word.power(copies).ok_or(Stop::Fails)?)?;
        if copies > 1 {
            self.unpack(side, at, word)?;
        }
        Ok(Copies::Ready)
    }

    // Copies of a word where its first symbols stand, so many: they are rolled over by the block behind them.
    fn roll_symbols(
        &mut self,
        side: Dir,
        at: usize,
        word: Word,
        count: u32,
    ) -> Result<Copies, Stop> {
        let behind = at.saturating_add(count as usize);
        let turned = word.turned(count);
        let Some(block) = self.block(side, behind) else {
            if word.symbol(count) != Sym::Zero {
                return Err(Stop::Fails);
            }
            self.put_blank(side)?;
            return Ok(Copies::NotYet);
        };
        if block.times == Times::NEVER {
            self.drop_empty(side, behind)?;
            return Ok(Copies::NotYet);
        }
        if block.is_symbol() {
            return Err(Stop::Fails);
        }
        if block.times == Times::ONCE || block.word.root() != turned.root() {
            let _ = self.expose(side, behind)?;
            return Ok(Copies::NotYet);
        }
        self.turn_word(side, behind, turned)?;
        self.gather(side, at, word.part(0, count))?;
        self.roll(side, at, word)?;
        self.spell(side, at.saturating_add(1))?;
        Ok(Copies::Ready)
    }

    // A block becomes one of another word with the same root.
    fn turn_word(&mut self, side: Dir, at: usize, word: Word) -> Result<(), Stop> {
        let block = self.block(side, at).ok_or(Stop::Fails)?;
        if block.word == word {
            return Ok(());
        }
        if block.word.copies_of(word).is_some() {
            return self.unpack(side, at, word);
        }
        let root = word.root();
        if block.word != root {
            self.unpack(side, at, root)?;
        }
        if self.pack_whole(side, at, word)? {
            Ok(())
        } else {
            Err(Stop::More)
        }
    }

    // Drops what stands behind so many blocks, where it is blank.
    fn clear_behind(&mut self, side: Dir, count: usize) -> Result<(), Stop> {
        for _ in 0..=self.half(side).len() {
            let length = self.half(side).len();
            if length <= count {
                return Ok(());
            }
            let blanks = self.far_blanks(side, length.saturating_sub(count));
            if blanks.length() > 1 {
                let place = length.saturating_sub(blanks.length() as usize);
                self.gather(side, place, blanks)?;
            }
            let last = self.half(side).len().saturating_sub(1);
            let block = self.block(side, last).ok_or(Stop::Fails)?;
            if block.times == Times::NEVER {
                self.drop_empty(side, last)?;
            } else if block.word.is_blank() {
                self.drop_blanks(side)?;
            } else {
                return Err(Stop::Fails);
            }
        }
        Err(Stop::Fails)
    }

    // The last symbols of a half, no more than so many, which are blanks.
    fn far_blanks(&self, side: Dir, most: usize) -> Word {
        let mut blanks = Word::EMPTY;
        for block in self.half(side).blocks().iter().take(most) {
            if !block.is_symbol() || !block.word.is_blank() {
                break;
            }
            match blanks.then(block.word) {
                Some(more) => blanks = more,
                None => break,
            }
        }
        blanks
    }
}

// How many of so many copies of a word of this length are put together at once: all, where that is shorter than one after
// another.
fn at_once(copies: u64, length: u64) -> u64 {
    let is_short = copies.saturating_mul(7) > length.saturating_add(12);
    if is_short && (length > 1 || copies > 3) {
        copies
    } else {
        1
    }
}
