// Rules of counters. What a table does to a few copies of a word is guessed to go on so, and the guesses are proved
// together: each for one copy more by all of them for as many copies as there were.
use crate::block::{Block, Times, with_first};
use crate::copies::{Passage, Start, count_starts};
use crate::limits::{JOINT_PLACES, JOINT_ROUNDS, JOINT_WORK, MAX_JOINT};
use crate::records::opposite;
use crate::rules::Rule;
use crate::runs::{BlockRun, Stop};
use crate::script::Script;
use crate::tapes::Form;
use machine_text::{Dir, Sym, Table};
use std::alloc::{AllocError as NoMemory, Global};

// What guesses such rules. It keeps the memory of its tapes.
#[derive(Drop)]
pub(crate) struct JointRules {
    alloc: Global,
    // Where the guesses begin, and whether the head leaves them at the far end.
    starts: Vec<(Start, bool)>,
    goal: Form,
    script: Script,
    // Symbols that are compared.
    wanted: Vec<Sym>,
    seen: Vec<Sym>,
}

impl JointRules {
    // Takes no memory.
    pub fn new(alloc: Global) -> JointRules {
        JointRules {
            alloc,
            starts: Vec::new(alloc),
            goal: Form::new(alloc),
            script: Script::new(alloc),
            wanted: Vec::new(alloc),
            seen: Vec::new(alloc),
        }
    }

    // Has a run know a table's rules of counters; whether there are any. Those that have no proof go, until all that
    // are left have one by one another, and by the same other rules.
    pub fn learn(&mut self, t: &Table, run: &mut BlockRun) -> Result<bool, NoMemory> {
        self.guess_all(t, run)?;
        run.allow(JOINT_WORK);
        for _ in 0..JOINT_ROUNDS {
            let before = (run.rules.len(), run.guesses.len());
            self.drop_unproved(t, run)?;
            if before == (run.rules.len(), run.guesses.len()) {
                return self.settle(run);
            }
        }
        run.guesses.clear();
        Ok(false)
    }

    // The guesses become rules; whether there are any.
    fn settle(&self, run: &mut BlockRun) -> Result<bool, NoMemory> {
        let guesses = std::mem::replace(&mut run.guesses, Vec::new(self.alloc));
        let any = !guesses.is_empty();
        for guess in guesses {
            run.rules.push(guess)?;
        }
        Ok(any)
    }

    // Guesses what is seen; none where that is too much.
    fn guess_all(&mut self, t: &Table, run: &mut BlockRun) -> Result<(), NoMemory> {
        self.starts.clear();
        for number in 0..count_starts(t.states()) {
            let start = Start::numbered(number, t.states());
            if self.is_covered(&start) {
                continue;
            }
            let Some(passage) = start.passage(t) else {
                continue;
            };
            if self.starts.len() >= MAX_JOINT {
                run.guesses.clear();
                return Ok(());
            }
            self.starts.push((start, passage.is_far))?;
            match self.guess(run, &start, &passage) {
                Err(Stop::NoMemory) => return Err(NoMemory),
                _ => {}
            }
        }
        Ok(())
    }

    // Whether a start is one that was guessed of, with more symbols.
    fn is_covered(&self, start: &Start) -> bool {
        self.starts
            .iter()
            .any(|(known, is_far)| known.covers(*is_far, start))
    }

    // Guesses that a passage goes on for all numbers of copies.
    fn guess(&mut self, run: &mut BlockRun, start: &Start, passage: &Passage) -> Result<(), Stop> {
        let mut rule = Rule::new(self.alloc);
        rule.is_joint = true;
        begin_form(&mut rule.from, start)?;
        end_form(&mut rule.to, start, passage)?;
        run.normalize(&mut rule.from, &mut self.script)?;
        run.normalize(&mut rule.to, &mut self.script)?;
        run.guesses.push(rule)?;
        Ok(())
    }

    // Drops guesses that have no proof by those that are left.
    fn drop_unproved(&mut self, t: &Table, run: &mut BlockRun) -> Result<(), NoMemory> {
        let mut number = 0usize;
        for _ in 0..run.guesses.len() {
            match self.prove(t, run, number) {
                Ok(()) => number = number.saturating_add(1),
                Err(Stop::NoMemory) => return Err(NoMemory),
                Err(_) => {
                    if number < run.guesses.len() {
                        let _ = run.guesses.remove(number);
                    }
                }
            }
        }
        Ok(())
    }

    // Writes the proof of a guess: for 0, and for one more than the variable.
    fn prove(&mut self, t: &Table, run: &mut BlockRun, number: usize) -> Result<(), Stop> {
        self.lead(t, run, number, Times::NEVER)?;
        if let Some(guess) = run.guesses.get_mut(number) {
            guess.none.clear();
            guess.none.extend_from_slice(&self.script.text)?;
        }
        self.lead(t, run, number, Times::growing(1, 1))?;
        if let Some(guess) = run.guesses.get_mut(number) {
            guess.more.clear();
            guess.more.extend_from_slice(&self.script.text)?;
        }
        Ok(())
    }

    // Has the script lead from a guess's first form to its second one, with this for the variable.
    fn lead(
        &mut self,
        t: &Table,
        run: &mut BlockRun,
        number: usize,
        first: Times,
    ) -> Result<(), Stop> {
        let guess = run.guesses.get(number).ok_or(Stop::Fails)?;
        self.goal.copy_put(&guess.to, &with_first(first))?;
        self.script.start(&guess.from, &with_first(first))?;
        for _ in 0..JOINT_PLACES {
            run.advance(t, &mut self.script)?;
            if self.is_at_goal(Dir::L)? && self.is_at_goal(Dir::R)? {
                self.script.arrive(Dir::L, &self.goal.left)?;
                self.script.arrive(Dir::R, &self.goal.right)?;
                return self.script.flush();
            }
        }
        Err(Stop::Fails)
    }

    // Whether a half has the symbols of the goal, as far as its length and two values of the variable tell.
    fn is_at_goal(&mut self, side: Dir) -> Result<bool, NoMemory> {
        let tape = &self.script.tape;
        if tape.state != self.goal.state
            || tape.side != self.goal.side
            || tape.half(side).cells() != self.goal.half(side).cells()
        {
            return Ok(false);
        }
        for value in [2, 3] {
            self.wanted.clear();
            self.seen.clear();
            let goal = self.goal.half(side);
            goal.append_symbols(value, &mut self.wanted)?;
            let half = self.script.half(side);
            half.append_symbols(value, &mut self.seen)?;
            if self.wanted != self.seen {
                return Ok(false);
            }
        }
        Ok(true)
    }
}

// The head before two copies more than the variable says.
fn begin_form(form: &mut Form, start: &Start) -> Result<(), NoMemory> {
    form.restart(start.state, start.side);
    form.left.is_open = true;
    form.right.is_open = true;
    form.half_mut(opposite(start.side))
        .put_symbols(0, start.behind)?;
    let half = form.half_mut(start.side);
    half.put_symbols(0, start.beyond)?;
    half.put(
        0,
        Block {
            word: start.word,
            times: Times::growing(2, 1),
        },
    )
}

// What the head leaves: all of it behind it.
fn end_form(form: &mut Form, start: &Start, passage: &Passage) -> Result<(), NoMemory> {
    let Passage {
        state,
        is_far,
        first,
        word,
        last,
    } = *passage;
    let behind = if is_far {
        opposite(start.side)
    } else {
        start.side
    };
    form.restart(state, opposite(behind));
    form.left.is_open = true;
    form.right.is_open = true;
    // From the far end to the head.
    let parts = if is_far {
        [first.reversed(), word.reversed(), last.reversed()]
    } else {
        [last, word, first]
    };
    let half = form.half_mut(behind);
    let [outer, word, inner] = parts;
    half.put_symbols(0, outer)?;
    half.put(
        0,
        Block {
            word,
            times: Times::growing(0, 1),
        },
    )?;
    half.put_symbols(0, inner)
}
