// The least cosets that go with two automata.
use crate::automata::{Automaton, Transition, bit};
use crate::cosets::{Coset, Kept, Vector};
use crate::limits::{MAX_EDGES, MAX_FOUND_COUNTS, MAX_FOUND_STATES};
use machine_text::{Dir, Entry, State, Sym, Table};
use std::alloc::{AllocError as NoMemory, Global};

// What stands around the head.
#[derive(Clone, Copy, PartialEq, Eq)]
pub(crate) struct Local {
    pub left: usize,
    pub state: State,
    pub read: Sym,
    pub right: usize,
}

// What stands around the head with its coset, and whether that has grown since it was looked at.
#[derive(Clone, Copy)]
pub(crate) struct Found {
    pub at: Local,
    pub coset: Coset,
    waits: bool,
}

// Two automata, the counts that are used in them, and the cosets so far.
#[derive(Drop)]
pub(crate) struct Closing<'a> {
    left: &'a Automaton,
    right: &'a Automaton,
    used_left: [u64; MAX_FOUND_STATES],
    used_right: [u64; MAX_FOUND_STATES],
    split: usize,
    end: usize,
    pub found: Vec<Found>,
    queue: Vec<usize>,
}

// A step to a side: the transition that reads what it writes, and the table's next state.
#[derive(Clone, Copy)]
struct Step {
    side: Dir,
    by: Transition,
    next: State,
}

impl<'a> Closing<'a> {
    // Of the blank tape alone. The counts below `split` are the left automaton's.
    pub fn new(
        alloc: Global,
        left: &'a Automaton,
        right: &'a Automaton,
        split: usize,
        end: usize,
    ) -> Result<Closing<'a>, NoMemory> {
        let mut found = Vec::new(alloc);
        let mut queue = Vec::new(alloc);
        found.push(Found {
            at: Local {
                left: 0,
                state: State(0),
                read: Sym::Zero,
                right: 0,
            },
            coset: Coset {
                base: Vector::zeros(),
                rows: [None; MAX_FOUND_COUNTS],
            },
            waits: true,
        })?;
        queue.push(0)?;
        Ok(Closing {
            left,
            right,
            used_left: left.used(),
            used_right: right.used(),
            split,
            end,
            found,
            queue,
        })
    }

    // Takes in what the cosets so far lead to, until they lead to nothing new; whether they came to an end so.
    pub fn close(&mut self, t: &Table) -> Result<bool, NoMemory> {
        let mut edges = 0;
        for k in 0..MAX_EDGES {
            let Some(place) = self.queue.get(k) else {
                return Ok(true);
            };
            let place = *place;
            match self.close_at(t, place)? {
                Some(more) => edges = more.saturating_add(edges),
                None => return Ok(false),
            }
            if edges > MAX_EDGES {
                return Ok(false);
            }
        }
        Ok(false)
    }

    // Takes in what one coset leads to: how many transitions that went back by; nothing where it can't be closed.
    fn close_at(&mut self, t: &Table, place: usize) -> Result<Option<usize>, NoMemory> {
        let Some(found) = self.found.get_mut(place) else {
            return Ok(None);
        };
        found.waits = false;
        let Found { at, coset, .. } = *found;
        if at.state.0 >= t.states() {
            return Ok(None);
        }
        let Some(Entry { write, dir, next }) = t.get(at.state, at.read) else {
            return Ok(None);
        };
        let (by, end) = match dir {
            Dir::L => (self.right.get(at.right, write), at.left),
            Dir::R => (self.left.get(at.left, write), at.right),
        };
        let Some(by) = by else {
            return Ok(None);
        };
        self.go_back(
            &coset,
            Step {
                side: dir,
                by,
                next,
            },
            end,
        )
    }

    // Goes back by each transition of the automaton ahead that leads to a state.
    fn go_back(
        &mut self,
        coset: &Coset,
        step: Step,
        end: usize,
    ) -> Result<Option<usize>, NoMemory> {
        let ahead = match step.side {
            Dir::L => self.left,
            Dir::R => self.right,
        };
        let mut edges = 0;
        for q in 0..ahead.states() {
            for b in [Sym::Zero, Sym::One] {
                let Some(last) = ahead.get(q, b) else {
                    continue;
                };
                if last.to != end {
                    continue;
                }
                edges = 1usize.saturating_add(edges);
                if !self.take_back(coset, step, q, b, last)? {
                    return Ok(None);
                }
            }
        }
        Ok(Some(edges))
    }

    // Goes back by one transition; whether that could be done.
    fn take_back(
        &mut self,
        coset: &Coset,
        step: Step,
        q: usize,
        b: Sym,
        last: Transition,
    ) -> Result<bool, NoMemory> {
        let base = coset
            .base
            .with_more(step.by.count, 1)
            .with_more(last.count, -1);
        let moved = Coset {
            base,
            rows: coset.rows,
        };
        match self.kept(step.side, q, moved) {
            Some(Kept::Some(points)) => {
                if points.is_negative() {
                    return Ok(true);
                }
                self.take_in(moved_to(step, q, b), &points)
            }
            Some(Kept::None) => Ok(true),
            None => Ok(false),
        }
    }

    // The points that are 0 in each count of the side that is unused at a state.
    fn kept(&self, side: Dir, q: usize, moved: Coset) -> Option<Kept> {
        let (used, from, to) = match side {
            Dir::L => (self.used_left.get(q), 0, self.split),
            Dir::R => (self.used_right.get(q), self.split, self.end),
        };
        let used = *used?;
        let mut points = moved;
        for count in from..to {
            if used & bit(count) == 0 {
                match points.zero(count)? {
                    Kept::Some(fewer) => points = fewer,
                    Kept::None => return Some(Kept::None),
                }
            }
        }
        Some(Kept::Some(points))
    }

    // Takes points into the coset of what stands around the head; whether that could be done.
    fn take_in(&mut self, at: Local, points: &Coset) -> Result<bool, NoMemory> {
        for k in 0..self.found.len() {
            if self.found[k].at == at {
                return self.grow(k, points);
            }
        }
        let Some(coset) = points.in_echelon() else {
            return Ok(false);
        };
        let place = self.found.len();
        self.found.push(Found {
            at,
            coset,
            waits: true,
        })?;
        self.queue.push(place)?;
        Ok(true)
    }

    fn grow(&mut self, place: usize, points: &Coset) -> Result<bool, NoMemory> {
        let Some(found) = self.found.get_mut(place) else {
            return Ok(false);
        };
        let Some(has_grown) = found.coset.grow(points) else {
            return Ok(false);
        };
        if has_grown && !found.waits {
            found.waits = true;
            self.queue.push(place)?;
        }
        Ok(true)
    }
}

// What stands around the head after a step.
fn moved_to(step: Step, q: usize, b: Sym) -> Local {
    let to = step.by.to;
    let (left, right) = match step.side {
        Dir::L => (q, to),
        Dir::R => (to, q),
    };
    Local {
        left,
        state: step.next,
        read: b,
        right,
    }
}
