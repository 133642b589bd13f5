// Chain rules: what changed blocks twice in the same way may be done as often as they allow.
use crate::block::{Times, VARIABLES, marked, with_first};
use crate::limits::{MAX_CHANGED, MAX_LEAST, MAX_RULE_SCALE};
use crate::rules::{Rule, common_divisor};
use crate::runs::{BlockRun, Places, Stayed, Stop};
use crate::script::Script;
use crate::tapes::Form;
use machine_text::{Dir, Table};
use std::alloc::{AllocError as NoMemory, Global};

// What a turn does to a block: how often it was repeated, and by how much it becomes more or less. Of what has to be
// there besides, so much is a number, and the rest may be a variable.
#[derive(Clone, Copy, Debug, PartialEq, Eq)]
struct Turn {
    seen: u64,
    up: u64,
    down: u64,
    least: u64,
    own: Option<usize>,
}

// Blocks get variables in this order, as long as there are any.
#[derive(Clone, Copy, Debug, PartialEq, Eq)]
enum Course {
    Grows,
    Shrinks,
    Stays,
}

impl Turn {
    fn course(&self) -> Course {
        if self.up > 0 {
            Course::Grows
        } else if self.down > 0 {
            Course::Shrinks
        } else {
            Course::Stays
        }
    }

    // How often the block is repeated before so many turns at once as the first variable says, or after them.
    fn times(&self, scale: u64, is_after: bool) -> Times {
        let turned = if is_after { self.up } else { self.down };
        let times = Times::growing(self.least, turned.saturating_mul(scale));
        match self.own {
            Some(variable) => times.plus_variable(variable, scale),
            None => times,
        }
    }
}

// A guess, and its proof. It keeps the memory of its tapes.
#[derive(Drop)]
pub(crate) struct Chain {
    alloc: Global,
    // What was touched of the tape, and what a turn does to each of its blocks.
    form: Form,
    turns: Vec<Turn>,
    // So many turns are one, for what takes more copies at once.
    scale: u64,
    rule: Rule,
    goal: Form,
    times: Vec<Times>,
    script: Script,
}

impl Chain {
    // Takes no memory.
    pub fn new(alloc: Global) -> Chain {
        Chain {
            alloc,
            form: Form::new(alloc),
            turns: Vec::new(alloc),
            scale: 1,
            rule: Rule::new(alloc),
            goal: Form::new(alloc),
            times: Vec::new(alloc),
            script: Script::new(alloc),
        }
    }

    // Reads three places of one shape, the last of which has this tape; whether blocks change twice in the same way,
    // and some get less.
    pub fn read(
        &mut self,
        places: &Places,
        tape: &Form,
        numbers: [usize; 3],
    ) -> Result<bool, NoMemory> {
        let [first, second, last] = numbers;
        self.turns.clear();
        let times = places.times(first).iter().zip(places.times(second).iter());
        for ((before, between), now) in times.zip(places.times(last).iter()) {
            let turn = Turn {
                seen: now.number(),
                up: now.minus(*between).number(),
                down: between.minus(*now).number(),
                least: 0,
                own: None,
            };
            let is_same = between.minus(*before) == Times::of(turn.up)
                && before.minus(*between) == Times::of(turn.down);
            if !is_same {
                return Ok(false);
            }
            self.turns.push(turn)?;
        }
        self.form.copy_put(tape, &with_first(Times::NEVER))?;
        self.cut(Dir::R, places.stayed(Dir::R, second));
        self.cut(Dir::L, places.stayed(Dir::L, second));
        Ok(self.turns.iter().any(|turn| turn.down > 0))
    }

    // Takes off what stayed of a half.
    fn cut(&mut self, side: Dir, stayed: Stayed) {
        if !stayed.end {
            return;
        }
        let half = self.form.half(side);
        let cut = stayed.blocks.min(half.len());
        let count = half.repeated(cut);
        let first = match side {
            Dir::L => 0,
            Dir::R => self.form.left.repeated(self.form.left.len()),
        };
        for _ in 0..count {
            if first < self.turns.len() {
                let _ = self.turns.remove(first);
            }
        }
        self.form.half_mut(side).open(cut);
    }

    // A number that tells guesses apart; by the direction alone, where the same is done in larger turns.
    pub fn mark(&self, by_direction: bool) -> u64 {
        let mut divisor = 0;
        for turn in self.turns.iter() {
            divisor = common_divisor(divisor, turn.up.max(turn.down));
        }
        if !by_direction {
            divisor = 1;
        }
        let mut mark = marked(self.form.shape(), u64::from(by_direction));
        for turn in self.turns.iter() {
            mark = marked(mark, turn.up / divisor.max(1));
            mark = marked(mark, turn.down / divisor.max(1));
        }
        mark
    }

    // Has the guess be a rule, if it has a proof by a run of so many places; whether it has.
    pub fn prove(&mut self, t: &Table, run: &mut BlockRun, most: u64) -> Result<bool, NoMemory> {
        self.scale = 1;
        if !self.choose_variables() {
            return Ok(false);
        }
        for _ in 0..MAX_CHANGED {
            match self.go_round(t, run, most.saturating_mul(self.scale)) {
                Ok(()) => return self.add_to(run),
                Err(Stop::NoMemory) => return Err(NoMemory),
                Err(Stop::More) if self.asks_for_more() => {}
                Err(Stop::Multiple(count)) if self.scales(count) => {}
                Err(_) => return Ok(false),
            }
        }
        Ok(false)
    }

    // Whether all blocks that grow can have a variable of their own.
    fn choose_variables(&mut self) -> bool {
        let grown = self.choose_for(Course::Grows, 1);
        let shrunk = self.choose_for(Course::Shrinks, grown);
        let _ = self.choose_for(Course::Stays, shrunk);
        self.turns
            .iter()
            .all(|turn| turn.up == 0 || turn.own.is_some())
    }

    // The blocks of a course get variables from one on, the others stay as they were seen; which variable is next.
    fn choose_for(&mut self, course: Course, first: usize) -> usize {
        let mut next = first;
        for turn in self.turns.iter_mut() {
            if turn.course() != course {
                continue;
            }
            if next < VARIABLES {
                turn.own = Some(next);
                next = next.saturating_add(1);
            } else if course == Course::Stays {
                turn.least = turn.seen;
            }
        }
        next
    }

    // Has the script lead once round, from one turn more than the first variable says.
    fn go_round(&mut self, t: &Table, run: &mut BlockRun, most: u64) -> Result<(), Stop> {
        self.times.clear();
        for turn in self.turns.iter() {
            self.times.push(turn.times(self.scale, false))?;
        }
        self.rule.from.copy_filled(&self.form, &self.times)?;
        let values = self.once_more();
        self.goal.copy_put(&self.rule.from, &values)?;
        let one_more = with_first(Times::growing(1, 1));
        self.script.start(&self.rule.from, &one_more)?;
        for _ in 0..most {
            run.advance(t, &mut self.script)?;
            if self.script.tape.is(&self.goal) {
                return Ok(());
            }
        }
        Err(Stop::Fails)
    }

    // What stands for the variables when the rule is used after one turn.
    fn once_more(&self) -> [Times; VARIABLES] {
        let mut values = [
            Times::growing(0, 1),
            Times::NEVER,
            Times::NEVER,
            Times::NEVER,
        ];
        for turn in self.turns.iter() {
            if let Some(variable) = turn.own
                && let Some(value) = values.get_mut(variable)
            {
                *value = Times::of(turn.up).plus_variable(variable, 1);
            }
        }
        values
    }

    // Where the script is stuck on a block, more of it has to be there; whether it may be so much.
    fn asks_for_more(&mut self) -> bool {
        let Some(block) = self.script.block(self.script.tape.side, 0) else {
            return false;
        };
        let scale = self.scale;
        for turn in self.turns.iter_mut() {
            let is_meant = match turn.own {
                Some(variable) => block.times.factor_of(variable) > 0,
                None => turn.down > 0 && block.times.factor() > 0,
            };
            if is_meant {
                turn.least = turn.least.saturating_add(scale);
                return turn.least <= scale.saturating_mul(2).saturating_add(MAX_LEAST);
            }
        }
        false
    }

    // So many turns more become one; whether they may.
    fn scales(&mut self, count: u64) -> bool {
        let scale = self.scale.saturating_mul(count);
        if scale > MAX_RULE_SCALE || scale <= self.scale {
            return false;
        }
        self.scale = scale;
        for turn in self.turns.iter_mut() {
            if turn.own.is_some() {
                turn.least = turn.seen % scale.max(1);
            }
        }
        true
    }

    // Puts the rule to those that are known.
    fn add_to(&mut self, run: &mut BlockRun) -> Result<bool, NoMemory> {
        self.times.clear();
        for turn in self.turns.iter() {
            self.times.push(turn.times(self.scale, true))?;
        }
        self.rule.to.copy_filled(&self.form, &self.times)?;
        let values = self.once_more();
        if self.script.use_itself(&values).is_err() {
            return Err(NoMemory);
        }
        self.rule.more.clear();
        self.rule.more.extend_from_slice(&self.script.text)?;
        let rule = std::mem::replace(&mut self.rule, Rule::new(self.alloc));
        run.rules.push(rule)?;
        Ok(true)
    }
}
