// A tape of blocks, and the script by which it came about.
use crate::block::{Block, Times, VARIABLES};
use crate::limits::{LONGEST_MOVE, LONGEST_WORD};
use crate::records::{append_equation, append_times, append_word, begin_move, opposite};
use crate::runs::Stop;
use crate::tapes::{Form, Half};
use crate::words::Word;
use machine_text::{Dir, State, Table};
use std::alloc::Global;
use text::append_number;

// Blanks that are put behind a half tape: how many, and how long that was before.
#[derive(Clone, Copy, Debug, PartialEq, Eq)]
struct Blanks {
    count: u64,
    place: usize,
}

// What was done since the last equation or rule. The blanks are put down together, before the steps that read them.
#[derive(Clone, Copy, Debug, PartialEq, Eq)]
struct Stretch {
    steps: u64,
    left: Blanks,
    right: Blanks,
}

impl Stretch {
    fn begin(left: usize, right: usize) -> Stretch {
        Stretch {
            steps: 0,
            left: Blanks {
                count: 0,
                place: left,
            },
            right: Blanks {
                count: 0,
                place: right,
            },
        }
    }

    fn is_empty(&self) -> bool {
        self.steps == 0 && self.left.count == 0 && self.right.count == 0
    }
}

// A tape of blocks, and the script by which it came about.
#[derive(Drop)]
pub(crate) struct Script {
    pub tape: Form,
    pub text: Vec<u8>,
    stretch: Stretch,
}

impl Script {
    // The blank tape, and no moves. Takes no memory.
    pub fn new(alloc: Global) -> Script {
        Script {
            tape: Form::new(alloc),
            text: Vec::new(alloc),
            stretch: Stretch::begin(0, 0),
        }
    }

    // The blank tape again, in a state and with the head on a side; keeps the memory.
    pub fn restart(&mut self, state: State, side: Dir) {
        self.tape.restart(state, side);
        self.text.clear();
        self.stretch = Stretch::begin(0, 0);
    }

    // A form, with these values for its variables, and no moves; keeps the memory.
    pub fn start(&mut self, form: &Form, values: &[Times; VARIABLES]) -> Result<(), Stop> {
        self.text.clear();
        self.stretch = Stretch::begin(0, 0);
        self.tape.copy_put(form, values)?;
        Ok(())
    }

    pub fn half(&self, side: Dir) -> &Half {
        self.tape.half(side)
    }

    pub fn half_mut(&mut self, side: Dir) -> &mut Half {
        self.tape.half_mut(side)
    }

    pub fn block(&self, side: Dir, place: usize) -> Option<Block> {
        self.half(side).at(place)
    }

    // One step; the symbol under the head stands by itself.
    pub fn step(&mut self, t: &Table) -> Result<(), Stop> {
        self.begin_stretch();
        let Some(block) = self.half_mut(self.tape.side).pop() else {
            return Err(Stop::Fails);
        };
        if self.tape.state.0 >= t.states() {
            return Err(Stop::Fails);
        }
        let Some(entry) = t.get(self.tape.state, block.word.symbol(0)) else {
            return Err(Stop::Fails);
        };
        let behind = opposite(entry.dir);
        self.half_mut(behind).push(Block::symbol(entry.write))?;
        self.tape.state = entry.next;
        self.tape.side = entry.dir;
        self.stretch.steps = self.stretch.steps.saturating_add(1);
        Ok(())
    }

    // Begins a move that uses a rule: what stands for its variables is said behind it.
    pub fn begin_use(&mut self, letter: u8) -> Result<(), Stop> {
        self.flush()?;
        begin_move(&mut self.text)?;
        self.text.push(letter)?;
        Ok(())
    }

    // The move that uses the rule which is being proved, with these values.
    pub fn use_itself(&mut self, values: &[Times; VARIABLES]) -> Result<(), Stop> {
        self.begin_use(b'i')?;
        self.say_values(values, 1)
    }

    // What stands for the variables from one on; those at the end that are 0 aren't said.
    pub fn say_values(&mut self, values: &[Times; VARIABLES], first: usize) -> Result<(), Stop> {
        let mut count = 0usize;
        for (place, value) in values.iter().enumerate() {
            if *value != Times::NEVER {
                count = place.saturating_add(1);
            }
        }
        for value in values.iter().take(count).skip(first) {
            self.say_times(*value)?;
        }
        Ok(())
    }

    // What is next to the head, as much as a rule begins with, becomes what it ends with, with these values.
    pub fn replace(
        &mut self,
        from: &Form,
        to: &Form,
        values: &[Times; VARIABLES],
    ) -> Result<(), Stop> {
        for side in [Dir::L, Dir::R] {
            let half = self.half_mut(side);
            half.keeps_end = half.keeps_end && from.half(side).is_open;
            half.take_many(0, from.half(side).len());
            half.append_put(to.half(side), values)?;
        }
        self.tape.state = to.state;
        self.tape.side = to.side;
        Ok(())
    }

    // One more blank behind a half.
    pub fn put_blank(&mut self, side: Dir) -> Result<(), Stop> {
        if self.half(side).is_open {
            return Err(Stop::Fails);
        }
        self.begin_stretch();
        let end = self.half(side).len();
        let half = self.half_mut(side);
        half.put(end, Block::once(Word::blanks(1)))?;
        half.keeps_end = false;
        let Stretch { left, right, .. } = &mut self.stretch;
        match side {
            Dir::L => left.count = left.count.saturating_add(1),
            Dir::R => right.count = right.count.saturating_add(1),
        }
        Ok(())
    }

    // So many steps from the blank tape, over so many blanks on each side; the tape is put down by the caller.
    pub fn run(&mut self, steps: u64, left: u64, right: u64) -> Result<(), Stop> {
        self.stretch = Stretch::begin(0, 0);
        self.stretch.left.count = left;
        self.stretch.right.count = right;
        self.stretch.steps = steps;
        self.flush()
    }

    fn begin_stretch(&mut self) {
        if self.stretch.is_empty() {
            self.stretch = Stretch::begin(self.tape.left.len(), self.tape.right.len());
        }
    }

    // Writes down what was done since the last equation or rule.
    pub fn flush(&mut self) -> Result<(), Stop> {
        let stretch = self.stretch;
        self.stretch = Stretch::begin(0, 0);
        self.append_blanks(Dir::L, stretch.left)?;
        self.append_blanks(Dir::R, stretch.right)?;
        let mut steps = stretch.steps;
        for _ in 0..=stretch.steps / LONGEST_MOVE {
            let count = steps.min(LONGEST_MOVE);
            if count > 0 {
                begin_move(&mut self.text)?;
                append_number(count, &mut self.text)?;
            }
            steps = steps.saturating_sub(count);
        }
        Ok(())
    }

    fn append_blanks(&mut self, side: Dir, blanks: Blanks) -> Result<(), Stop> {
        let mut rest = blanks.count;
        let mut place = blanks.place as u64;
        for _ in 0..=blanks.count / u64::from(LONGEST_WORD) {
            let word = Word::blanks(rest);
            let count = u64::from(word.length());
            if count == 0 {
                break;
            }
            begin_move(&mut self.text)?;
            append_equation(side, place, b'B', &mut self.text)?;
            self.say_word(word)?;
            self.say_number(1)?;
            if count > 1 {
                begin_move(&mut self.text)?;
                append_equation(side, place, b'w', &mut self.text)?;
                self.say_word(word)?;
            }
            rest = rest.saturating_sub(count);
            place = place.saturating_add(count);
        }
        Ok(())
    }

    // Parts of a move, behind a point each.
    pub fn say_word(&mut self, word: Word) -> Result<(), Stop> {
        self.text.push(b'.')?;
        append_word(word, &mut self.text)?;
        Ok(())
    }

    pub fn say_number(&mut self, number: u64) -> Result<(), Stop> {
        self.text.push(b'.')?;
        append_number(number, &mut self.text)?;
        Ok(())
    }

    pub fn say_times(&mut self, times: Times) -> Result<(), Stop> {
        self.text.push(b'.')?;
        append_times(times, &mut self.text)?;
        Ok(())
    }
}
