// Sweeps over copies of a word, and the rules that they are.
use crate::block::{Block, Times, marked, with_first};
use crate::limits::{LONGEST_WORD, MAX_COPIES, MAX_SWEEP_STEPS};
use crate::records::opposite;
use crate::rules::Rule;
use crate::runs::Stop;
use crate::script::Script;
use crate::tapes::Form;
use crate::words::Word;
use machine_text::{Dir, State, Sym, Table};
use std::alloc::{AllocError as NoMemory, Global};

// What a table does: in a state before copies of a word, with some symbols behind the head, it comes to their end in the same
// state with the same symbols behind the head, and has left another word for each copy. Words are read from the head on.
#[derive(Clone, Copy, Debug, PartialEq, Eq)]
pub(crate) struct Sweep {
    pub state: State,
    pub side: Dir,
    pub context: Word,
    pub word: Word,
    pub left: Word,
    // How often it has the word that was asked for.
    pub copies: u64,
    // The steps over one copy.
    pub steps: u64,
}

// What is asked for: a sweep from a state, to a side, over copies of a word, with no more than these symbols behind the head.
#[derive(Clone, Copy, Debug, PartialEq, Eq)]
pub(crate) struct Question {
    pub state: State,
    pub side: Dir,
    pub word: Word,
    pub context: Word,
}

impl Question {
    // A number that tells it from others.
    pub fn mark(&self) -> u64 {
        let head = marked(u64::from(self.state.0), self.side as u64);
        marked(marked(head, self.word.number()), self.context.number())
    }
}

// What looks for sweeps, by running the table on the symbols behind the head and some copies of the word.
#[derive(Drop)]
pub(crate) struct Sweeper {
    // In the direction of the sweep.
    cells: Vec<Sym>,
    at: usize,
    // The least cell that was visited.
    least: usize,
    state: State,
    copies: u64,
    // How many steps are left for all that is asked for.
    pub work: u64,
}

impl Sweeper {
    // Takes no memory.
    pub fn new(alloc: Global) -> Sweeper {
        Sweeper {
            cells: Vec::new(alloc),
            at: 0,
            least: 0,
            state: State(0),
            copies: 0,
            work: 0,
        }
    }

    // A sweep over a word that is taken up to `MAX_COPIES` times.
    pub fn search(&mut self, t: &Table, asked: &Question) -> Result<Option<Sweep>, Stop> {
        self.begin(asked)?;
        for steps in 0..MAX_SWEEP_STEPS {
            if self.work == 0 {
                return Err(Stop::Fails);
            }
            self.work = self.work.saturating_sub(1);
            if !self.step(t, asked.side) {
                return Ok(None);
            }
            if self.at < self.cells.len() {
                continue;
            }
            if let Some(sweep) = self.found(asked, steps.saturating_add(1)) {
                return Ok(Some(sweep));
            }
            if !self.has_room(asked.word) {
                return Ok(None);
            }
            self.append_copy(asked.word)?;
        }
        Ok(None)
    }

    fn begin(&mut self, asked: &Question) -> Result<(), NoMemory> {
        self.cells.clear();
        let last = asked.context.length().saturating_sub(1);
        for k in 0..asked.context.length() {
            self.cells
                .push(asked.context.symbol(last.saturating_sub(k)))?;
        }
        self.at = self.cells.len();
        self.least = self.at;
        self.state = asked.state;
        self.copies = 0;
        self.append_copy(asked.word)
    }

    fn append_copy(&mut self, word: Word) -> Result<(), NoMemory> {
        for k in 0..word.length() {
            self.cells.push(word.symbol(k))?;
        }
        self.copies = self.copies.saturating_add(1);
        Ok(())
    }

    // Whether one more copy may be looked at.
    fn has_room(&self, word: Word) -> bool {
        let copies = self.copies.saturating_add(1);
        copies <= MAX_COPIES
            && copies.saturating_mul(u64::from(word.length())) <= u64::from(LONGEST_WORD)
    }

    // One step; whether there was one that stays on the cells, or leaves them on the far side.
    fn step(&mut self, t: &Table, side: Dir) -> bool {
        if self.state.0 >= t.states() {
            return false;
        }
        let Some(cell) = self.cells.get_mut(self.at) else {
            return false;
        };
        let Some(entry) = t.get(self.state, *cell) else {
            return false;
        };
        *cell = entry.write;
        self.state = entry.next;
        if entry.dir == side {
            self.at = self.at.saturating_add(1);
            return true;
        }
        let Some(at) = self.at.checked_sub(1) else {
            return false;
        };
        self.at = at;
        self.least = self.least.min(at);
        true
    }

    // The sweep, where the head has just left the cells on the far side as it came, after so many steps.
    fn found(&self, asked: &Question, steps: u64) -> Option<Sweep> {
        if self.state != asked.state {
            return None;
        }
        let before = asked.context.length();
        let visited = (before as usize).saturating_sub(self.least);
        for count in 0..=before {
            if count as usize >= visited && self.keeps(asked.context, count) {
                return self.with_context(asked, count, steps);
            }
        }
        None
    }

    // Whether the last so many cells are as those behind the head were.
    fn keeps(&self, context: Word, count: u32) -> bool {
        for (k, cell) in self.cells.iter().rev().take(count as usize).enumerate() {
            if *cell != context.symbol(k as u32) {
                return false;
            }
        }
        true
    }

    // The sweep with so many symbols behind the head.
    fn with_context(&self, asked: &Question, count: u32, steps: u64) -> Option<Sweep> {
        let word = asked.word.power(self.copies)?;
        let mut left = Word::EMPTY;
        let cells = self.cells.iter().rev().skip(count as usize);
        for cell in cells.take(word.length() as usize) {
            left = left.pushed(*cell)?;
        }
        Some(Sweep {
            state: asked.state,
            side: asked.side,
            context: asked.context.part(0, count),
            word,
            left,
            copies: self.copies,
            steps,
        })
    }
}

impl Sweep {
    // Whether it goes over the same word with the same symbols behind the head.
    pub fn is_same(&self, other: &Sweep) -> bool {
        self.state == other.state
            && self.side == other.side
            && self.context == other.context
            && self.word == other.word
    }
}

// The rule of a sweep over a block of a word, of which the sweep takes some copies at once.
pub(crate) fn rule_of_sweep(
    alloc: Global,
    t: &Table,
    sweep: &Sweep,
    word: Word,
) -> Result<Rule, Stop> {
    let copies = sweep.word.copies_of(word).ok_or(Stop::Fails)?;
    let behind = opposite(sweep.side);
    let mut rule = Rule::new(alloc);
    begin_form(sweep, &mut rule.from)?;
    begin_form(sweep, &mut rule.to)?;
    rule.from.half_mut(sweep.side).push(Block {
        word,
        times: Times::growing(0, copies),
    })?;
    let place = sweep.context.length() as usize;
    rule.to.half_mut(behind).put(
        place,
        Block {
            word: sweep.left,
            times: Times::growing(0, 1),
        },
    )?;
    let mut script = Script::new(alloc);
    go_over_none(&mut script, sweep, &rule)?;
    rule.none.extend_from_slice(&script.text)?;
    go_over_more(&mut script, t, sweep, copies, &rule)?;
    rule.more.extend_from_slice(&script.text)?;
    Ok(rule)
}

// What is the same before and behind it.
fn begin_form(sweep: &Sweep, form: &mut Form) -> Result<(), NoMemory> {
    form.restart(sweep.state, sweep.side);
    form.left.is_open = true;
    form.right.is_open = true;
    form.half_mut(opposite(sweep.side))
        .put_symbols(0, sweep.context)
}

// The script for no copy.
fn go_over_none(script: &mut Script, sweep: &Sweep, rule: &Rule) -> Result<(), Stop> {
    let place = sweep.context.length() as usize;
    script.start(&rule.from, &with_first(Times::NEVER))?;
    script.drop_empty(sweep.side, 0)?;
    script.put_empty(opposite(sweep.side), place, sweep.left)
}

// The script for one more.
fn go_over_more(
    script: &mut Script,
    t: &Table,
    sweep: &Sweep,
    copies: u64,
    rule: &Rule,
) -> Result<(), Stop> {
    let behind = opposite(sweep.side);
    let place = sweep.context.length() as usize;
    script.start(&rule.from, &with_first(Times::growing(1, 1)))?;
    script.split(sweep.side, 0, Times::of(copies))?;
    if copies > 1 {
        script.pack(sweep.side, 0, copies)?;
    }
    script.spell(sweep.side, 0)?;
    for _ in 0..sweep.steps {
        script.step(t)?;
    }
    script.begin_use(b'i')?;
    script.replace(&rule.from, &rule.to, &with_first(Times::growing(0, 1)))?;
    script.gather(behind, place.saturating_add(1), sweep.left)?;
    script.join(behind, place)
}
