// Automata that read half tapes, which of their transitions they count, and their texts.
use crate::closing::{Closing, Found, Local};
use crate::cosets::{Coset, Vector};
use crate::half_tapes::HalfTree;
use crate::limits::{MAX_FOUND_COUNTS, MAX_FOUND_STATES};
use machine_text::{State, Sym, Table};
use std::alloc::{AllocError as NoMemory, Global};
use text::append_number;

// Where a transition leads, and its count, if it has one.
#[derive(Clone, Copy)]
pub(crate) struct Transition {
    pub to: usize,
    pub count: Option<usize>,
}

// The transitions of states, number 2q + s of state q by the symbol s. Some may be missing.
#[derive(Drop)]
pub(crate) struct Automaton {
    pub transitions: Vec<Option<Transition>>,
}

impl Automaton {
    // The automaton of a tree: beginnings that are followed alike are one state. None where it gets too large.
    pub fn of(alloc: Global, tree: &HalfTree, time: u64) -> Result<Option<Automaton>, NoMemory> {
        let mut states = Vec::new(alloc);
        let mut transitions = Vec::new(alloc);
        states.push(0)?;
        for q in 0..MAX_FOUND_STATES {
            let Some(node) = states.get(q) else {
                return Ok(Some(Automaton { transitions }));
            };
            let node = *node;
            for s in [Sym::Zero, Sym::One] {
                let to = match tree.child_before(node, s, time) {
                    Some(child) => Some(state_of(tree, &mut states, child)?),
                    None => None,
                };
                transitions.push(to.map(|to| Transition { to, count: None }))?;
            }
        }
        Ok(None)
    }

    // Counts all transitions but the first into each state and the one that keeps blank cells blank, from a count on.
    // The first count that isn't taken.
    pub fn count(&mut self, from: usize) -> usize {
        let mut count = from;
        let mut reached = [false; MAX_FOUND_STATES];
        reached[0] = true;
        for transition in self.transitions.iter_mut().skip(1) {
            let Some(transition) = transition else {
                continue;
            };
            match reached.get_mut(transition.to) {
                Some(is_reached) if !*is_reached => *is_reached = true,
                _ => {
                    transition.count = Some(count);
                    count = count.saturating_add(1);
                }
            }
        }
        count
    }

    // How many states it has.
    pub fn states(&self) -> usize {
        self.transitions.len() / 2
    }

    // The transition of a state by a symbol.
    pub fn get(&self, state: usize, s: Sym) -> Option<Transition> {
        let place = state.saturating_mul(2).saturating_add(s as usize);
        match self.transitions.get(place) {
            Some(transition) => *transition,
            None => None,
        }
    }

    // For each state, the counts that some path to it has, as the bits of a number.
    pub fn used(&self) -> [u64; MAX_FOUND_STATES] {
        let mut used = [0; MAX_FOUND_STATES];
        for _ in 0..MAX_FOUND_STATES.saturating_mul(MAX_FOUND_COUNTS) {
            if !self.use_once(&mut used) {
                return used;
            }
        }
        used
    }

    // Takes over what each transition tells; whether that was more.
    fn use_once(&self, used: &mut [u64; MAX_FOUND_STATES]) -> bool {
        let mut is_more = false;
        for (place, transition) in self.transitions.iter().enumerate() {
            let Some(transition) = transition else {
                continue;
            };
            let mut set = match used.get(place / 2) {
                Some(set) => *set,
                None => 0,
            };
            if let Some(count) = transition.count {
                set |= bit(count);
            }
            if let Some(old) = used.get_mut(transition.to) {
                if *old | set != *old {
                    *old |= set;
                    is_more = true;
                }
            }
        }
        is_more
    }
}

// The set with one count.
pub(crate) fn bit(count: usize) -> u64 {
    if count < 64 { 1 << count } else { 0 }
}

// The state of a beginning: that of one that is followed alike, or a new one.
fn state_of(tree: &HalfTree, states: &mut Vec<usize>, node: usize) -> Result<usize, NoMemory> {
    for q in 0..states.len() {
        if tree.are_alike(states[q], node) {
            return Ok(q);
        }
    }
    let state = states.len();
    states.push(node)?;
    Ok(state)
}

// The transitions of an automaton, with commas between them.
pub(crate) fn append_automaton(a: &Automaton, out: &mut Vec<u8>) -> Result<(), NoMemory> {
    for (place, transition) in a.transitions.iter().enumerate() {
        if place > 0 {
            out.push(b',')?;
        }
        match transition {
            Some(transition) => {
                append_number(transition.to as u64, out)?;
                if let Some(count) = transition.count {
                    out.push(letter(count))?;
                }
            }
            None => out.push(b'-')?,
        }
    }
    Ok(())
}

// The cosets, in their order.
pub(crate) fn append_cosets(
    closing: &Closing<'_>,
    t: &Table,
    left: usize,
    right: usize,
    out: &mut Vec<u8>,
) -> Result<(), NoMemory> {
    let mut is_first = true;
    for l in 0..left {
        for f in 0..t.states() {
            for read in [Sym::Zero, Sym::One] {
                for r in 0..right {
                    let at = Local {
                        left: l,
                        state: State(f),
                        read,
                        right: r,
                    };
                    if let Some(found) = closing.found.iter().find(|found| found.at == at) {
                        if !is_first {
                            out.push(b',')?;
                        }
                        is_first = false;
                        append_item(found, out)?;
                    }
                }
            }
        }
    }
    Ok(())
}

fn append_item(found: &Found, out: &mut Vec<u8>) -> Result<(), NoMemory> {
    let Local {
        left,
        state,
        read,
        right,
    } = found.at;
    append_number(left as u64, out)?;
    out.push(b'A'.saturating_add(state.0))?;
    out.push(b'0'.saturating_add(read as u8))?;
    append_number(right as u64, out)?;
    append_coset(&found.coset, out)
}

fn append_coset(coset: &Coset, out: &mut Vec<u8>) -> Result<(), NoMemory> {
    append_vector(&coset.base, out)?;
    for row in &coset.rows {
        if let Some(row) = row {
            append_vector(row, out)?;
        }
    }
    Ok(())
}

// A colon, and the numbers that aren't 0.
fn append_vector(v: &Vector, out: &mut Vec<u8>) -> Result<(), NoMemory> {
    out.push(b':')?;
    let mut is_zero = true;
    for count in 0..MAX_FOUND_COUNTS {
        let number = v.at(count);
        if number == 0 {
            continue;
        }
        is_zero = false;
        if number < 0 {
            out.push(b'-')?;
        }
        append_number(number.unsigned_abs(), out)?;
        out.push(letter(count))?;
    }
    if is_zero {
        out.push(b'0')?;
    }
    Ok(())
}

fn letter(count: usize) -> u8 {
    b'a'.saturating_add(u8::try_from(count).unwrap_or(0))
}
