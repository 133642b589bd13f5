// Families of a run on blocks: a shape that comes again, of which no block has become less.
use crate::block::{Times, VARIABLES, marked, with_first};
use crate::limits::MAX_FAMILY_SCALE;
use crate::rules::common_divisor;
use crate::runs::{BlockRun, Places, Stop};
use crate::script::Script;
use crate::tapes::Form;
use machine_text::{Dir, State, Table};
use std::alloc::{AllocError as NoMemory, Global};

// How often a guess is changed.
const MAX_TRIES: u64 = 9;

// What is guessed of the blocks of three places: they grow by the same once more, or in the same direction, or each
// that grows by itself.
#[derive(Clone, Copy, Debug, PartialEq, Eq)]
pub(crate) enum Growth {
    BySteps,
    InDirection,
    Apart,
}

// A guess, and its proof. It keeps the memory of its tapes.
#[derive(Drop)]
pub(crate) struct NestedFamily {
    // How often each block is repeated, in variables; and with what stands for these.
    pattern: Vec<Times>,
    times: Vec<Times>,
    now: Vec<Times>,
    // What stands for a variable: a number, and so many times itself.
    least: [u64; VARIABLES],
    scale: u64,
    pub form: Form,
    pub first: [Times; VARIABLES],
    pub next: [Times; VARIABLES],
    pub begin: Script,
    pub again: Script,
}

impl NestedFamily {
    // Takes no memory.
    pub fn new(alloc: Global) -> NestedFamily {
        NestedFamily {
            pattern: Vec::new(alloc),
            times: Vec::new(alloc),
            now: Vec::new(alloc),
            least: [0; VARIABLES],
            scale: 1,
            form: Form::new(alloc),
            first: with_first(Times::NEVER),
            next: with_first(Times::NEVER),
            begin: Script::new(alloc),
            again: Script::new(alloc),
        }
    }

    // Reads three places of one shape; whether their blocks may grow so.
    pub fn read(
        &mut self,
        places: &Places,
        numbers: [usize; 3],
        growth: Growth,
    ) -> Result<bool, NoMemory> {
        let [first, second, last] = numbers;
        let (first, second) = (places.times(first), places.times(second));
        let last = places.times(last);
        if !is_growing(first, second) || !is_growing(second, last) || second == last {
            return Ok(false);
        }
        self.pattern.clear();
        match growth {
            Growth::Apart => self.read_apart(first, second, last),
            _ => self.read_direction(first, second, last, growth),
        }
    }

    // Each block that grows has a variable of its own; whether there are enough.
    fn read_apart(
        &mut self,
        first: &[Times],
        second: &[Times],
        last: &[Times],
    ) -> Result<bool, NoMemory> {
        let mut variable = 0usize;
        for ((before, between), now) in first.iter().zip(second.iter()).zip(last.iter()) {
            if *before == *between && *between == *now {
                self.pattern.push(*now)?;
            } else {
                self.pattern.push(Times::NEVER.plus_variable(variable, 1))?;
                variable = variable.saturating_add(1);
            }
        }
        Ok(variable > 1 && variable <= VARIABLES)
    }

    // All grow with one variable; whether they grew in one direction.
    fn read_direction(
        &mut self,
        first: &[Times],
        second: &[Times],
        last: &[Times],
        growth: Growth,
    ) -> Result<bool, NoMemory> {
        let steps = (
            divisor_of_growth(first, second),
            divisor_of_growth(second, last),
        );
        let mut is_same = true;
        for ((before, between), now) in first.iter().zip(second.iter()).zip(last.iter()) {
            let grown = between.minus(*before).number();
            let way = grown / steps.0.max(1);
            if now.minus(*between).number() != way.saturating_mul(steps.1) {
                return Ok(false);
            }
            is_same = is_same && steps.0 == steps.1;
            let factor = match growth {
                Growth::BySteps => grown,
                _ => way,
            };
            self.pattern.push(between.plus(Times::growing(0, factor)))?;
        }
        Ok(steps.0 > 0 && (is_same || growth == Growth::InDirection))
    }

    // A number that tells guesses apart, of tapes of a shape.
    pub fn mark(&self, shape: u64) -> u64 {
        let mut mark = marked(shape, u64::MAX);
        for times in self.pattern.iter() {
            mark = times.mark(mark);
        }
        mark
    }

    // Whether the family has a loop, found in so many places, and a beginning.
    pub fn prove(
        &mut self,
        t: &Table,
        run: &mut BlockRun,
        tape: &Form,
        most: u64,
    ) -> Result<bool, NoMemory> {
        self.least = [0; VARIABLES];
        self.scale = 1;
        for _ in 0..MAX_TRIES {
            match self.go_round(t, run, tape, most) {
                Ok(()) => return Ok(true),
                Err(Stop::NoMemory) => return Err(NoMemory),
                Err(Stop::More) if self.asks_for_more() => {}
                Err(Stop::Multiple(count)) if self.scales(count) => {}
                Err(_) => return Ok(false),
            }
        }
        Ok(false)
    }

    // Has the script lead from the family to a member of it.
    fn go_round(
        &mut self,
        t: &Table,
        run: &mut BlockRun,
        tape: &Form,
        most: u64,
    ) -> Result<(), Stop> {
        let mut values = [Times::NEVER; VARIABLES];
        for (variable, value) in values.iter_mut().enumerate() {
            let least = self.least.get(variable).copied().unwrap_or(0);
            *value = Times::of(least).plus_variable(variable, self.scale);
        }
        self.times.clear();
        for times in self.pattern.iter() {
            self.times.push(times.put(&values))?;
        }
        self.form.copy_filled(tape, &self.times)?;
        self.again
            .start(&self.form, &with_first(Times::growing(0, 1)))?;
        for _ in 0..most {
            run.advance(t, &mut self.again)?;
            if is_of_shape(&self.form, &self.again.tape) {
                self.again.tape.list_times(&mut self.now)?;
                if let Some(next) = values_of(&self.times, &self.now) {
                    self.next = next;
                    return self.again.flush();
                }
            }
        }
        Err(Stop::Fails)
    }

    // Where the script is stuck on a block, its variable has to be more; whether there is one.
    fn asks_for_more(&mut self) -> bool {
        let Some(block) = self.again.block(self.again.tape.side, 0) else {
            return false;
        };
        for (variable, least) in self.least.iter_mut().enumerate() {
            if block.times.factor_of(variable) > 0 {
                *least = least.saturating_add(*least / 2).saturating_add(1);
                return true;
            }
        }
        false
    }

    // The variables become so many times themselves; whether they may.
    fn scales(&mut self, count: u64) -> bool {
        let scale = self.scale.saturating_mul(count);
        let is_more = scale > self.scale && scale <= MAX_FAMILY_SCALE;
        if is_more {
            self.scale = scale;
        }
        is_more
    }

    // Whether the run from the blank tape, by all rules, comes to a member of the family within so many places.
    pub fn has_beginning(
        &mut self,
        t: &Table,
        run: &mut BlockRun,
        most: u64,
    ) -> Result<bool, NoMemory> {
        self.begin.restart(State(0), Dir::R);
        for _ in 0..most {
            match run.advance(t, &mut self.begin) {
                Ok(()) => {}
                Err(Stop::NoMemory) => return Err(NoMemory),
                Err(_) => return Ok(false),
            }
            if is_of_shape(&self.form, &self.begin.tape) {
                self.begin.tape.list_times(&mut self.now)?;
                if let Some(first) = values_of(&self.times, &self.now) {
                    self.first = first;
                    return Ok(self.begin.flush().is_ok());
                }
            }
        }
        Ok(false)
    }
}

// Whether two tapes differ in how often their blocks are repeated alone.
fn is_of_shape(form: &Form, tape: &Form) -> bool {
    form.state == tape.state && form.len() == tape.len() && form.shape() == tape.shape()
}

// Whether no block is repeated less often than before.
fn is_growing(before: &[Times], now: &[Times]) -> bool {
    before
        .iter()
        .zip(now.iter())
        .all(|(before, now)| before.common(*now) == *before)
}

// The greatest number of which all blocks grow by a multiple; 0 where none grows.
fn divisor_of_growth(before: &[Times], now: &[Times]) -> u64 {
    let mut divisor = 0;
    for (before, now) in before.iter().zip(now.iter()) {
        let grown = now.minus(*before).number();
        if grown > 0 {
            divisor = common_divisor(divisor, grown);
        }
    }
    divisor
}

// What has to stand for the variables so that these blocks are repeated so often now.
fn values_of(times: &[Times], now: &[Times]) -> Option<[Times; VARIABLES]> {
    let mut values = [Times::NEVER; VARIABLES];
    for (variable, value) in values.iter_mut().enumerate() {
        for (times, now) in times.iter().zip(now.iter()) {
            let factor = times.factor_of(variable);
            if factor > 0 {
                let rest = now.without(Times::of(times.number()))?;
                if rest.rest_of(factor) != Times::NEVER {
                    return None;
                }
                *value = rest.share(factor);
                break;
            }
        }
    }
    for (times, now) in times.iter().zip(now.iter()) {
        if times.put(&values) != *now {
            return None;
        }
    }
    Some(values)
}
