// A run from the blank tape, and its records: the steps that go to a new cell.
use crate::limits::{CELLS_A_STEP, MAX_KEPT_CELLS};
use machine_text::{Dir, State, Sym, Table};
use std::alloc::{AllocError as NoMemory, Global};

// A step to a new cell: after how many steps, in which state, on which side, how many cells of each side were visited by
// then, and where what stands behind the head is kept.
#[derive(Clone, Copy, Debug, PartialEq, Eq)]
pub(crate) struct TapeRecord {
    pub time: u64,
    pub state: State,
    pub side: Dir,
    pub left: u64,
    pub right: u64,
    kept: usize,
    behind: usize,
}

impl TapeRecord {
    // How many cells were visited.
    pub fn length(&self) -> u64 {
        self.left.saturating_add(self.right)
    }
}

// A run from the blank tape. The half tapes have the visited cells, the nearest last.
#[derive(Drop)]
pub(crate) struct RecordedRun {
    left: Vec<Sym>,
    right: Vec<Sym>,
    read: Sym,
    state: State,
    time: u64,
    left_count: u64,
    right_count: u64,
    kept: Vec<Sym>,
    room: u64,
    pub records: Vec<TapeRecord>,
}

impl RecordedRun {
    // At the start. Takes no memory.
    pub fn new(alloc: Global) -> RecordedRun {
        RecordedRun {
            left: Vec::new(alloc),
            right: Vec::new(alloc),
            read: Sym::Zero,
            state: State(0),
            time: 0,
            left_count: 0,
            right_count: 1,
            kept: Vec::new(alloc),
            room: 0,
            records: Vec::new(alloc),
        }
    }

    // At the start again; keeps the memory.
    pub fn restart(&mut self) {
        self.left.clear();
        self.right.clear();
        self.read = Sym::Zero;
        self.state = State(0);
        self.time = 0;
        self.left_count = 0;
        self.right_count = 1;
        self.kept.clear();
        self.records.clear();
    }

    // How many steps were done.
    pub fn time(&self) -> u64 {
        self.time
    }

    // Runs until so many steps were done; whether they were, and the records' tapes had room.
    pub fn run_to(&mut self, t: &Table, time: u64) -> Result<bool, NoMemory> {
        self.room = time.saturating_mul(CELLS_A_STEP).min(MAX_KEPT_CELLS);
        for _ in self.time..time {
            if !self.step(t)? {
                return Ok(false);
            }
        }
        Ok(true)
    }

    // One step; whether there was one, and room for its record.
    fn step(&mut self, t: &Table) -> Result<bool, NoMemory> {
        if self.state.0 >= t.states() {
            return Ok(false);
        }
        let Some(entry) = t.get(self.state, self.read) else {
            return Ok(false);
        };
        self.state = entry.next;
        self.time = self.time.saturating_add(1);
        let next = match entry.dir {
            Dir::L => {
                self.right.push(entry.write)?;
                self.left.pop()
            }
            Dir::R => {
                self.left.push(entry.write)?;
                self.right.pop()
            }
        };
        match next {
            Some(symbol) => {
                self.read = symbol;
                Ok(true)
            }
            None => {
                self.read = Sym::Zero;
                self.record(entry.dir)
            }
        }
    }

    // The head is on a new cell on this side; whether there was room for what stands behind it.
    fn record(&mut self, side: Dir) -> Result<bool, NoMemory> {
        let behind = match side {
            Dir::L => self.right.len(),
            Dir::R => self.left.len(),
        };
        let kept = self.kept.len();
        if behind as u64 > self.room.saturating_sub(kept as u64) {
            return Ok(false);
        }
        match side {
            Dir::L => {
                self.kept.extend_from_slice(&self.right)?;
                self.left_count = self.left_count.saturating_add(1);
            }
            Dir::R => {
                self.kept.extend_from_slice(&self.left)?;
                self.right_count = self.right_count.saturating_add(1);
            }
        }
        self.records.push(TapeRecord {
            time: self.time,
            state: self.state,
            side,
            left: self.left_count,
            right: self.right_count,
            kept,
            behind,
        })?;
        Ok(true)
    }

    // The symbols behind the head at a record, the nearest last.
    pub fn behind(&self, record: &TapeRecord) -> &[Sym] {
        let end = record.kept.saturating_add(record.behind);
        match self.kept.get(record.kept..end) {
            Some(symbols) => symbols,
            None => &[],
        }
    }

    // Puts the records of a state and side into a list, in the place of what stood there.
    pub fn list(
        &self,
        state: State,
        side: Dir,
        list: &mut Vec<TapeRecord>,
    ) -> Result<(), NoMemory> {
        list.clear();
        for record in self.records.iter() {
            if record.state == state && record.side == side {
                list.push(*record)?;
            }
        }
        Ok(())
    }
}
