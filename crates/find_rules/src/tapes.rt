// Tapes of blocks, and their half tapes.
use crate::block::{Block, Change, Times, VARIABLES, marked};
use crate::limits::MAX_COMPARED;
use crate::records::{append_half, append_head};
use crate::words::Word;
use machine_text::{Dir, State, Sym};
use std::alloc::{AllocError as NoMemory, Global};

// Two half tapes, the head between them, on the first cell of one of them.
#[derive(Drop)]
pub(crate) struct Form {
    pub left: Half,
    pub right: Half,
    pub state: State,
    pub side: Dir,
}

impl Form {
    // The blank tape at the start. Takes no memory.
    pub fn new(alloc: Global) -> Form {
        Form {
            left: Half::new(alloc),
            right: Half::new(alloc),
            state: State(0),
            side: Dir::R,
        }
    }

    // The blank tape, in a state and with the head on a side; keeps the memory.
    pub fn restart(&mut self, state: State, side: Dir) {
        self.left.clear();
        self.right.clear();
        self.state = state;
        self.side = side;
    }

    pub fn half(&self, side: Dir) -> &Half {
        match side {
            Dir::L => &self.left,
            Dir::R => &self.right,
        }
    }

    pub fn half_mut(&mut self, side: Dir) -> &mut Half {
        match side {
            Dir::L => &mut self.left,
            Dir::R => &mut self.right,
        }
    }

    // How many blocks it has.
    pub fn len(&self) -> usize {
        self.left.len().saturating_add(self.right.len())
    }

    // Becomes the other one, with these values for the variables.
    pub fn copy_put(&mut self, other: &Form, values: &[Times; VARIABLES]) -> Result<(), NoMemory> {
        self.state = other.state;
        self.side = other.side;
        self.left.copy_put(&other.left, values)?;
        self.right.copy_put(&other.right, values)
    }

    // Becomes the other one, in which the blocks are repeated so often: first those on the left, the farthest first.
    pub fn copy_filled(&mut self, other: &Form, times: &[Times]) -> Result<(), NoMemory> {
        self.state = other.state;
        self.side = other.side;
        let count = self.left.copy_filled(&other.left, times)?;
        let rest = match times.get(count..) {
            Some(rest) => rest,
            None => &[],
        };
        let _ = self.right.copy_filled(&other.right, rest)?;
        Ok(())
    }

    // Whether both are the same.
    pub fn is(&self, other: &Form) -> bool {
        self.state == other.state
            && self.side == other.side
            && self.left.blocks() == other.left.blocks()
            && self.right.blocks() == other.right.blocks()
    }

    // How often its blocks are repeated, in the order of `copy_filled`, in the place of what stood in the list.
    pub fn list_times(&self, times: &mut Vec<Times>) -> Result<(), NoMemory> {
        times.clear();
        self.left.append_times(times)?;
        self.right.append_times(times)
    }

    // A number that tells forms apart, whose blocks may be repeated otherwise.
    pub fn shape(&self) -> u64 {
        let head = marked(u64::from(self.state.0), self.side as u64);
        self.right.mark(self.left.mark(head))
    }

    // The text of a record.
    pub fn append(&self, out: &mut Vec<u8>) -> Result<(), NoMemory> {
        append_half(&self.left, out)?;
        append_head(self.state, self.side, out)?;
        append_half(&self.right, out)
    }
}

// A half tape. Places are counted from the head; the nearest block stands last.
#[derive(Drop)]
pub(crate) struct Half {
    blocks: Vec<Block>,
    // Whether anything may stand beyond the last block; else there are blanks.
    pub is_open: bool,
    // How many of the farthest blocks stayed, and whether nothing was done at the end either, since this was set last.
    pub kept: usize,
    pub keeps_end: bool,
    // So many of the farthest blocks are in their normal shape.
    pub settled: usize,
}

impl Half {
    // Nothing. Takes no memory.
    pub fn new(alloc: Global) -> Half {
        Half {
            blocks: Vec::new(alloc),
            is_open: false,
            kept: 0,
            keeps_end: true,
            settled: 0,
        }
    }

    // Nothing, with blanks beyond.
    pub fn clear(&mut self) {
        self.blocks.clear();
        self.is_open = false;
        self.watch();
        self.settled = 0;
    }

    // From here on it is seen how much stays.
    pub fn watch(&mut self) {
        self.kept = self.blocks.len();
        self.keeps_end = true;
    }

    // Only so many of the farthest blocks stay.
    fn touch(&mut self, left: usize) {
        self.kept = self.kept.min(left);
        self.settled = self.settled.min(left);
    }

    pub fn len(&self) -> usize {
        self.blocks.len()
    }

    // The blocks, the nearest last.
    pub fn blocks(&self) -> &[Block] {
        &self.blocks
    }

    // The block at a place.
    pub fn at(&self, place: usize) -> Option<Block> {
        let index = self.blocks.len().checked_sub(place)?.checked_sub(1)?;
        self.blocks.get(index).copied()
    }

    pub fn pop(&mut self) -> Option<Block> {
        let left = self.blocks.len().saturating_sub(1);
        self.touch(left);
        self.blocks.pop()
    }

    pub fn push(&mut self, block: Block) -> Result<(), NoMemory> {
        let left = self.blocks.len();
        self.touch(left);
        self.blocks.push(block)?;
        Ok(())
    }

    // A block at a place, before what stood there; at the far end, where there is no such place.
    pub fn put(&mut self, place: usize, block: Block) -> Result<(), NoMemory> {
        let index = self.blocks.len().saturating_sub(place);
        self.blocks.insert(index, block)?;
        self.touch(index);
        Ok(())
    }

    // Takes the block at a place off.
    pub fn take(&mut self, place: usize) -> Option<Block> {
        let index = self.blocks.len().checked_sub(place)?.checked_sub(1)?;
        if index < self.blocks.len() {
            let block = self.blocks.remove(index);
            self.touch(index);
            Some(block)
        } else {
            None
        }
    }

    // The symbols of a word at a place, each by itself.
    pub fn put_symbols(&mut self, place: usize, word: Word) -> Result<(), NoMemory> {
        let last = word.length().saturating_sub(1);
        for k in 0..word.length() {
            self.put(place, Block::symbol(word.symbol(last.saturating_sub(k))))?;
        }
        Ok(())
    }

    // Takes so many blocks off from a place on.
    pub fn take_many(&mut self, place: usize, count: usize) {
        for _ in 0..count {
            let _ = self.take(place);
        }
    }

    // The known symbols next to the head, so many of them at most; beyond the last block there are blanks.
    pub fn known(&self, most: u32) -> Word {
        let word = self.known_here(most);
        if self.blocks.iter().all(|block| block.times.is_number()) {
            return joined(word, Word::blanks(u64::from(most)), most);
        }
        word
    }

    // The known symbols next to the head, so many of them at most, as far as there are blocks.
    pub fn known_here(&self, most: u32) -> Word {
        let mut word = Word::EMPTY;
        for block in self.blocks.iter().rev() {
            for _ in 0..block.times.number().min(u64::from(most)) {
                word = joined(word, block.word, most);
            }
            if !block.times.is_number() || word.length() >= most {
                return word;
            }
        }
        word
    }

    // How many cells its blocks have.
    pub fn cells(&self) -> Times {
        let mut cells = Times::NEVER;
        for block in self.blocks.iter() {
            let length = u64::from(block.word.length());
            cells = cells.plus(block.times.multiple(length));
        }
        cells
    }

    // Appends its symbols with a value for the variable, the nearest first, without blanks far away.
    pub fn append_symbols(&self, value: u64, out: &mut Vec<Sym>) -> Result<(), NoMemory> {
        for block in self.blocks.iter().rev() {
            for _ in 0..block.times.at(value).min(MAX_COMPARED as u64) {
                if out.len() > MAX_COMPARED {
                    return Ok(());
                }
                for k in 0..block.word.length() {
                    out.push(block.word.symbol(k))?;
                }
            }
        }
        cut_blanks(out);
        Ok(())
    }

    // Becomes the other one, with other exponents.
    pub fn copy_changed(&mut self, other: &Half, change: Change) -> Result<(), NoMemory> {
        self.blocks.clear();
        for block in other.blocks.iter() {
            self.blocks.push(Block {
                word: block.word,
                times: block.times.changed(change),
            })?;
        }
        Ok(())
    }

    // Becomes the other one, with these values for the variables.
    pub fn copy_put(&mut self, other: &Half, values: &[Times; VARIABLES]) -> Result<(), NoMemory> {
        self.clear();
        self.is_open = other.is_open;
        self.append_put(other, values)
    }

    // The other one's blocks come nearest, with these values for the variables.
    pub fn append_put(
        &mut self,
        other: &Half,
        values: &[Times; VARIABLES],
    ) -> Result<(), NoMemory> {
        for block in other.blocks.iter() {
            self.push(Block {
                word: block.word,
                times: block.times.put(values),
            })?;
        }
        Ok(())
    }

    // Becomes the other one, in which blocks, the farthest first, are repeated so often; says how many are.
    pub fn copy_filled(&mut self, other: &Half, times: &[Times]) -> Result<usize, NoMemory> {
        self.clear();
        self.is_open = other.is_open;
        let mut count = 0usize;
        for block in other.blocks.iter() {
            let mut filled = *block;
            if !block.is_symbol() {
                if let Some(times) = times.get(count) {
                    filled.times = *times;
                }
                count = count.saturating_add(1);
            }
            self.blocks.push(filled)?;
        }
        Ok(count)
    }

    // Takes so many of the farthest blocks off, beyond which anything may stand then.
    pub fn open(&mut self, count: usize) {
        self.is_open = true;
        for _ in 0..count {
            let last = self.blocks.len().saturating_sub(1);
            let _ = self.take(last);
        }
    }

    // How many of its farthest blocks, so many, are no symbols.
    pub fn repeated(&self, most: usize) -> usize {
        let mut count = 0usize;
        for block in self.blocks.iter().take(most) {
            if !block.is_symbol() {
                count = count.saturating_add(1);
            }
        }
        count
    }

    // Appends how often its blocks are repeated, the farthest first.
    pub fn append_times(&self, out: &mut Vec<Times>) -> Result<(), NoMemory> {
        for block in self.blocks.iter() {
            if !block.is_symbol() {
                out.push(block.times)?;
            }
        }
        Ok(())
    }

    // A number that tells half tapes apart, whose blocks may be repeated otherwise, by what stood before it.
    pub fn mark(&self, before: u64) -> u64 {
        let mut mark = marked(before, u64::MAX);
        for block in self.blocks.iter() {
            mark = marked(mark, block.word.number());
            if !block.is_symbol() {
                mark = marked(mark, u64::MAX);
            }
        }
        mark
    }

    // Each block is repeated as often as it is for the next value of the variable.
    pub fn go_on(&mut self) {
        for block in self.blocks.iter_mut() {
            block.times = block.times.changed(Change::Next);
        }
    }
}

// A word with another behind it, cut to so many symbols.
fn joined(word: Word, other: Word, most: u32) -> Word {
    let rest = most.saturating_sub(word.length()).min(other.length());
    match word.then(other.part(0, rest)) {
        Some(more) => more,
        None => word,
    }
}

// Drops the blanks behind the last one.
pub(crate) fn cut_blanks(symbols: &mut Vec<Sym>) {
    let mut length = symbols.len();
    for symbol in symbols.iter().rev() {
        if *symbol != Sym::Zero {
            break;
        }
        length = length.saturating_sub(1);
    }
    symbols.truncate(length);
}
