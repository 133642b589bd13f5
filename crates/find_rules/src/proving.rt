// Rules and scripts for a family.
use crate::block::{Block, Change, Times};
use crate::limits::{LONGEST_WORD, MAX_CONTEXT, MAX_SCALE, STEPS_A_MOVE, SWEEP_STEPS};
use crate::recorded_run::TapeRecord;
use crate::records::{append_half, append_head, append_times, begin_move, opposite};
use crate::runs::Stop;
use crate::script::Script;
use crate::sweeps::{Question, Sweep, Sweeper, rule_of_sweep};
use crate::tapes::{Half, cut_blanks};
use machine_text::{Dir, State, Sym, Table};
use std::alloc::{AllocError as NoMemory, Global};
use text::append_number;

// What writes a record for a family. It keeps the memory of its tapes and texts.
#[derive(Drop)]
pub(crate) struct Prover {
    alloc: Global,
    sweeper: Sweeper,
    sweeps: Vec<Sweep>,
    script: Script,
    // What stands behind the head in the family, and what in its next member.
    first: Half,
    next: Half,
    // Symbols that are compared.
    wanted: Vec<Sym>,
    seen: Vec<Sym>,
    // The script that leads from the family to its next member.
    again: Vec<u8>,
    // The fields of the record.
    pub fields: Vec<u8>,
}

impl Prover {
    // Takes no memory.
    pub fn new(alloc: Global) -> Prover {
        Prover {
            alloc,
            sweeper: Sweeper::new(alloc),
            sweeps: Vec::new(alloc),
            script: Script::new(alloc),
            first: Half::new(alloc),
            next: Half::new(alloc),
            wanted: Vec::new(alloc),
            seen: Vec::new(alloc),
            again: Vec::new(alloc),
            fields: Vec::new(alloc),
        }
    }

    // Writes the fields for the family of a form, of which each turn of the loop takes so many members, from the one that
    // stands at a record on; within moves and tries of so many steps.
    pub fn prove(
        &mut self,
        t: &Table,
        form: &Half,
        scale: u64,
        record: &TapeRecord,
        behind: &[Sym],
        effort: u64,
    ) -> Result<(), Stop> {
        self.first.copy_changed(form, Change::Multiple(scale))?;
        self.next.copy_changed(&self.first, Change::Next)?;
        self.go_round(t, record.state, record.side, effort)?;
        self.again.clear();
        self.again.extend_from_slice(&self.script.text)?;
        self.begin(record, behind)?;
        self.write_fields(t, record.state, record.side)
    }

    // Has the script lead from the family to its next member.
    fn go_round(&mut self, t: &Table, state: State, side: Dir, effort: u64) -> Result<(), Stop> {
        let behind = opposite(side);
        self.sweeps.clear();
        self.sweeper.work = effort.saturating_mul(SWEEP_STEPS);
        self.script.restart(state, side);
        let half = self.script.half_mut(behind);
        half.copy_changed(&self.first, Change::Multiple(1))?;
        for _ in 0..effort / STEPS_A_MOVE {
            if self.has_arrived(state, side)? {
                self.script.arrive(behind, &self.next)?;
                return self.script.flush();
            }
            self.go_on(t)?;
        }
        Err(Stop::Fails)
    }

    // Whether the tape is that of the next member, as far as two values of the variable tell.
    fn has_arrived(&mut self, state: State, side: Dir) -> Result<bool, NoMemory> {
        if self.script.tape.state != state || self.script.tape.side != side {
            return Ok(false);
        }
        if self.script.half(side).len() > 0 {
            return Ok(false);
        }
        for value in [2, 3] {
            self.wanted.clear();
            self.seen.clear();
            self.next.append_symbols(value, &mut self.wanted)?;
            let half = self.script.half(opposite(side));
            half.append_symbols(value, &mut self.seen)?;
            if self.wanted != self.seen {
                return Ok(false);
            }
        }
        Ok(true)
    }

    // One step, or what has to be done before one.
    fn go_on(&mut self, t: &Table) -> Result<(), Stop> {
        let side = self.script.tape.side;
        let Some(block) = self.script.block(side, 0) else {
            return self.script.put_blank(side);
        };
        let Block { word, times } = block;
        if block.is_symbol() {
            return self.script.step(t);
        }
        if times == Times::NEVER {
            return self.script.drop_empty(side, 0);
        }
        if times == Times::ONCE {
            return self.script.spell(side, 0);
        }
        let symbols = times.number().saturating_mul(u64::from(word.length()));
        if times.is_number() && symbols <= u64::from(LONGEST_WORD) {
            return self.script.pack(side, 0, times.number());
        }
        self.cross(t, block)
    }

    // Goes over the block ahead by a sweep; where there is none, a copy is taken out.
    fn cross(&mut self, t: &Table, block: Block) -> Result<(), Stop> {
        let side = self.script.tape.side;
        let behind = self.script.half(opposite(side));
        let asked = Question {
            state: self.script.tape.state,
            side,
            word: block.word,
            context: behind.known(MAX_CONTEXT),
        };
        match self.sweeper.search(t, &asked)? {
            Some(sweep) => self.sweep(block, &sweep),
            None if block.times.number() == 0 => Err(Stop::More),
            None => self.script.split(side, 0, Times::ONCE),
        }
    }

    // Uses a sweep on the block ahead, as far as it is of whole copies.
    fn sweep(&mut self, block: Block, sweep: &Sweep) -> Result<(), Stop> {
        let rest = block.times.rest_of(sweep.copies);
        let whole = block.times.minus(rest);
        if rest.factor() != 0 {
            return Err(Stop::Multiple(sweep.copies));
        }
        if whole == Times::NEVER {
            return Err(Stop::Fails);
        }
        let behind = opposite(sweep.side);
        for place in 0..sweep.context.length() {
            let _ = self.script.expose(behind, place as usize)?;
        }
        if rest != Times::NEVER {
            self.script.split(sweep.side, 0, whole)?;
        }
        if sweep.copies > 1 {
            self.script.pack(sweep.side, 0, sweep.copies)?;
        }
        self.script.flush()?;
        let number = self.number_of(sweep)?;
        let times = whole.share(sweep.copies);
        let text = &mut self.script.text;
        begin_move(text)?;
        text.push(b'u')?;
        append_number(number, text)?;
        text.push(b'.')?;
        append_times(times, text)?;
        let _ = self.script.half_mut(sweep.side).pop();
        let place = sweep.context.length() as usize;
        self.script.half_mut(behind).put(
            place,
            Block {
                word: sweep.left,
                times,
            },
        )?;
        Ok(())
    }

    // The number of a sweep among the rules, of which it becomes one.
    fn number_of(&mut self, sweep: &Sweep) -> Result<u64, NoMemory> {
        for (number, other) in self.sweeps.iter().enumerate() {
            if other.is_same(sweep) {
                return Ok(number as u64);
            }
        }
        let number = self.sweeps.len() as u64;
        self.sweeps.push(*sweep)?;
        Ok(number)
    }

    // Has the script lead from the blank tape to the family's member at a record, with these symbols behind the head.
    fn begin(&mut self, record: &TapeRecord, behind: &[Sym]) -> Result<(), Stop> {
        self.wanted.clear();
        self.first.append_symbols(0, &mut self.wanted)?;
        self.seen.clear();
        for symbol in behind.iter().rev() {
            self.seen.push(*symbol)?;
        }
        cut_blanks(&mut self.seen);
        if self.wanted != self.seen {
            return Err(Stop::More);
        }
        // The head's own cell isn't read.
        let (left, right) = match record.side {
            Dir::L => (record.left.saturating_sub(1), record.right),
            Dir::R => (record.left, record.right.saturating_sub(1)),
        };
        self.script.restart(record.state, record.side);
        self.script.run(record.time, left, right)?;
        let side = opposite(record.side);
        let half = self.script.half_mut(side);
        for symbol in behind {
            half.push(Block::symbol(*symbol))?;
        }
        self.next.copy_changed(&self.first, Change::Zero)?;
        self.script.arrive(side, &self.next)?;
        self.script.flush()
    }

    // Puts the fields of the record together.
    fn write_fields(&mut self, t: &Table, state: State, side: Dir) -> Result<(), Stop> {
        let out = &mut self.fields;
        out.clear();
        for (number, sweep) in self.sweeps.iter().enumerate() {
            if number > 0 {
                out.push(b';')?;
            }
            let rule = rule_of_sweep(self.alloc, t, sweep, sweep.word)?;
            rule.append(&[], out)?;
        }
        if out.is_empty() {
            out.push(b'-')?;
        }
        out.push(b' ')?;
        if side == Dir::R {
            append_half(&self.first, out)?;
        }
        append_head(state, side, out)?;
        if side == Dir::L {
            append_half(&self.first, out)?;
        }
        out.extend_from_slice(b" 0 ")?;
        out.extend_from_slice(&self.script.text)?;
        out.extend_from_slice(b" 1a1 ")?;
        out.extend_from_slice(&self.again)?;
        Ok(())
    }
}

// How many members one turn of the loop takes, where it has to be a multiple of so many.
pub(crate) fn next_scale(scale: u64, count: u64) -> Option<u64> {
    let more = scale.saturating_mul(count);
    if more > scale && more <= MAX_SCALE {
        Some(more)
    } else {
        None
    }
}
