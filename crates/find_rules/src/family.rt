// Families: tapes at records of one side and state, whose blocks grow by constants.
use crate::block::{Block, Times};
use crate::limits::LONGEST_WORD;
use crate::recorded_run::{RecordedRun, TapeRecord};
use crate::tapes::{Half, cut_blanks};
use crate::words::list_blocks;
use machine_text::Sym;
use std::alloc::{AllocError as NoMemory, Global};

// How many members have to be seen.
pub(crate) const MEMBERS: usize = 5;

// The record so many members before the last one.
pub(crate) fn member(list: &[TapeRecord], stride: usize, back: usize) -> Option<TapeRecord> {
    let index = list
        .len()
        .checked_sub(1)?
        .checked_sub(stride.saturating_mul(back))?;
    list.get(index).copied()
}

// Whether the last records of a list, so far apart, may be those of a family: the tape grows by a constant, and the time
// between two of them too.
pub(crate) fn may_be_family(list: &[TapeRecord], stride: usize) -> bool {
    let mut times = [0u64; MEMBERS];
    let mut lengths = [0u64; MEMBERS];
    for back in 0..MEMBERS {
        let Some(record) = member(list, stride, back) else {
            return false;
        };
        times[back] = record.time;
        lengths[back] = record.length();
    }
    let times = gaps(times);
    let lengths = gaps(lengths);
    let grows = lengths[0] > 0
        && lengths[0] == lengths[1]
        && lengths[1] == lengths[2]
        && lengths[2] == lengths[3];
    grows
        && times[0] > times[1]
        && times[0].saturating_add(times[2]) == times[1].saturating_mul(2)
        && times[1].saturating_add(times[3]) == times[2].saturating_mul(2)
}

// By how much each number is more than the next one.
fn gaps(numbers: [u64; MEMBERS]) -> [u64; 4] {
    [
        numbers[0].saturating_sub(numbers[1]),
        numbers[1].saturating_sub(numbers[2]),
        numbers[2].saturating_sub(numbers[3]),
        numbers[3].saturating_sub(numbers[4]),
    ]
}

// How many records stand before the first of the five that may be of the family too, and no more than so many.
pub(crate) fn earlier_members(list: &[TapeRecord], stride: usize, most: u64) -> usize {
    let mut count = 0usize;
    for _ in 0..most {
        let back = count.saturating_add(MEMBERS);
        if !is_earlier(list, stride, back) {
            return count;
        }
        count = back.saturating_sub(MEMBERS).saturating_add(1);
    }
    count
}

// Whether the record so many members before the last one is where it has to be, by the four that come next.
fn is_earlier(list: &[TapeRecord], stride: usize, back: usize) -> bool {
    let four = (
        member(list, stride, back),
        member(list, stride, back.saturating_sub(1)),
        member(list, stride, back.saturating_sub(2)),
        member(list, stride, back.saturating_sub(3)),
    );
    let (Some(a), Some(b), Some(c), Some(d)) = four else {
        return false;
    };
    let first = b.time.saturating_sub(a.time);
    let second = c.time.saturating_sub(b.time);
    let third = d.time.saturating_sub(c.time);
    first.saturating_add(third) == second.saturating_mul(2)
        && b.length().saturating_sub(a.length()) == c.length().saturating_sub(b.length())
}

// The blocks of five tapes, and how they grow.
#[derive(Drop)]
pub(crate) struct Shapes {
    symbols: Vec<Sym>,
    blocks: Vec<Block>,
    // The first one's, the nearest first, each with what is added from one tape to the next.
    shape: Vec<Block>,
}

impl Shapes {
    // Takes no memory.
    pub fn new(alloc: Global) -> Shapes {
        Shapes {
            symbols: Vec::new(alloc),
            blocks: Vec::new(alloc),
            shape: Vec::new(alloc),
        }
    }

    // Reads the last five members, with words of up to so many symbols; whether they are of one shape, which grows.
    pub fn read(
        &mut self,
        run: &RecordedRun,
        list: &[TapeRecord],
        stride: usize,
        longest: usize,
    ) -> Result<bool, NoMemory> {
        for k in 0..MEMBERS {
            let Some(record) = member(list, stride, MEMBERS - 1 - k) else {
                return Ok(false);
            };
            self.symbols.clear();
            for symbol in run.behind(&record).iter().rev() {
                self.symbols.push(*symbol)?;
            }
            cut_blanks(&mut self.symbols);
            list_blocks(&self.symbols, longest, &mut self.blocks)?;
            if k == 0 {
                self.shape.clear();
                self.shape.extend_from_slice(&self.blocks)?;
            } else if !self.goes_on(k as u64) {
                return Ok(false);
            }
        }
        Ok(self.shape.iter().any(|block| block.times.factor() > 0))
    }

    // Whether the blocks are those of the shape so many members later; those of the next member say how it grows.
    fn goes_on(&mut self, k: u64) -> bool {
        if self.shape.len() != self.blocks.len() {
            return false;
        }
        for (block, now) in self.shape.iter_mut().zip(self.blocks.iter()) {
            if k == 1 {
                let number = block.times.number();
                let factor = now.times.number().saturating_sub(number);
                block.times = Times::growing(number, factor);
            }
            if block.word != now.word || block.times.at(k) != now.times.number() {
                return false;
            }
        }
        true
    }

    // How many members may stand before the first one.
    pub fn room_before(&self) -> u64 {
        let mut room = u64::MAX;
        for block in self.shape.iter() {
            let factor = block.times.factor();
            if factor > 0 {
                room = room.min(block.times.number() / factor);
            }
        }
        room
    }

    // Puts the shape, so many members before the first one, onto a half tape; what doesn't grow as symbols, where it is
    // short.
    pub fn put_earlier(&self, members: u64, half: &mut Half) -> Result<(), NoMemory> {
        half.clear();
        for block in self.shape.iter().rev() {
            let Block { word, times } = *block;
            let symbols = times.number().saturating_mul(u64::from(word.length()));
            if times.is_number() && symbols <= u64::from(LONGEST_WORD) {
                for _ in 0..times.number() {
                    half.put_symbols(0, word)?;
                }
                continue;
            }
            let before = times.factor().saturating_mul(members);
            half.push(Block {
                word,
                times: times.minus(Times::of(before)),
            })?;
        }
        Ok(())
    }
}
