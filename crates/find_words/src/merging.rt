// States of the first automaton that do the same become one.
use crate::closing::Closing;
use crate::edges::{END, Row};
use crate::words::{FirstAutomaton, FirstState};
use kind_evidence::NoMemory;
use machine_text::Sym;
use std::alloc::Global;

// The first automaton of classes of states: where each goes on a blank and on a one, by its number.
#[derive(Drop)]
pub(crate) struct Classes {
    next: Vec<(u32, u32)>,
}

impl FirstAutomaton for Classes {
    fn start(&self) -> FirstState {
        FirstState::Class(0)
    }

    fn push(&self, state: FirstState, symbol: Sym) -> Option<FirstState> {
        let FirstState::Class(class) = state else {
            return None;
        };
        let (zero, one) = self.next.get(class as usize).copied()?;
        let to = match symbol {
            Sym::Zero => zero,
            Sym::One => one,
        };
        if to == END {
            None
        } else {
            Some(FirstState::Class(to))
        }
    }
}

impl Closing {
    // The first automaton with those states as one whose rows are alike and that go to alike states (Moore 1956). A class
    // is known by the least of its states.
    pub(crate) fn classes(&self, alloc: Global, states: u8) -> Result<Classes, NoMemory> {
        let mut classes = Vec::new(alloc);
        let mut marks = Vec::new(alloc);
        let mut nodes = Vec::new(alloc);
        for _ in 0..self.places.len() {
            classes.push(0)?;
        }
        let mut count = 1;
        for _ in 0..self.places.len() {
            self.list_marks(states, &classes, &mut nodes, &mut marks)?;
            marks.sort_unstable();
            let more = regroup(&marks, &mut classes);
            if more == count {
                break;
            }
            count = more;
        }
        self.of_classes(alloc, &classes)
    }

    // A mark of what each state has and where it goes up to these classes, with the state's number.
    fn list_marks(
        &self,
        states: u8,
        classes: &[u32],
        nodes: &mut Vec<u32>,
        marks: &mut Vec<(u64, u32)>,
    ) -> Result<(), NoMemory> {
        marks.clear();
        for state in 0..self.places.len() {
            let mark = self.mark_of(states, state, classes, nodes)?;
            marks.push((mark, (state as u64).min(u64::from(END)) as u32))?;
        }
        Ok(())
    }

    // A number of what a state has. Two that differ have the same one but once in very many; then what is made of
    // them doesn't stand, and nothing is given.
    fn mark_of(
        &self,
        states: u8,
        state: usize,
        classes: &[u32],
        nodes: &mut Vec<u32>,
    ) -> Result<u64, NoMemory> {
        let Some(place) = self.places.get(state) else {
            return Ok(0);
        };
        let own = class_at(classes, state);
        let mut mark = mixed(u64::from(own), u64::from(class_of(classes, place.zero)));
        mark = mixed(mark, u64::from(class_of(classes, place.one)));
        let width = 2 * states as usize;
        let first = state.saturating_mul(width);
        for k in 0..width {
            let Some(row) = self.rows.get(first.saturating_add(k)) else {
                break;
            };
            self.list_classes(states, row, classes, nodes)?;
            mark = mixed(mark, u64::from(row.called));
            for node in nodes.iter() {
                mark = mixed(mark, u64::from(*node) + 2);
            }
        }
        Ok(mark)
    }

    // The nodes to which the edges of a row go, with the classes for the states, each once and in order.
    fn list_classes(
        &self,
        states: u8,
        row: &Row,
        classes: &[u32],
        nodes: &mut Vec<u32>,
    ) -> Result<(), NoMemory> {
        self.rows.list_nodes(row, nodes)?;
        let states = u32::from(states.max(1));
        for node in nodes.iter_mut() {
            let class = class_of(classes, *node / states);
            *node = class.saturating_mul(states).saturating_add(*node % states);
        }
        nodes.sort_unstable();
        nodes.dedup();
        Ok(())
    }

    // Where the classes go, by new numbers.
    fn of_classes(&self, alloc: Global, classes: &[u32]) -> Result<Classes, NoMemory> {
        let numbers = numbered(alloc, classes)?;
        let mut next = Vec::new(alloc);
        for state in 0..classes.len() {
            if is_least(classes, state) {
                if let Some(place) = self.places.get(state) {
                    next.push((
                        class_of(&numbers, class_of(classes, place.zero)),
                        class_of(&numbers, class_of(classes, place.one)),
                    ))?;
                }
            }
        }
        Ok(Classes { next })
    }
}

// The new numbers of classes, each at the place of its least state.
fn numbered(alloc: Global, classes: &[u32]) -> Result<Vec<u32>, NoMemory> {
    let mut numbers = Vec::new(alloc);
    let mut count: u32 = 0;
    for state in 0..classes.len() {
        if is_least(classes, state) {
            numbers.push(count)?;
            count = count.saturating_add(1);
        } else {
            numbers.push(END)?;
        }
    }
    Ok(numbers)
}

// Makes classes of the states with the same mark, where marks stand in order; how many there are.
fn regroup(marks: &[(u64, u32)], classes: &mut [u32]) -> u32 {
    let mut count: u32 = 0;
    let mut least = 0;
    for k in 0..marks.len() {
        let (mark, state) = marks[k];
        if k == 0 || marks[k - 1].0 != mark {
            least = state;
            count = count.saturating_add(1);
        }
        if let Some(class) = classes.get_mut(state as usize) {
            *class = least;
        }
    }
    count
}

// Whether a state is the least of its class.
fn is_least(classes: &[u32], state: usize) -> bool {
    class_at(classes, state) as usize == state
}

// The class of a state; `END` of what isn't one.
fn class_of(classes: &[u32], state: u32) -> u32 {
    class_at(classes, state as usize)
}

fn class_at(classes: &[u32], state: usize) -> u32 {
    classes.get(state).copied().unwrap_or(END)
}

// A number mixed into another: by an odd factor of the golden ratio's digits, and with the high bits once more below.
fn mixed(mark: u64, number: u64) -> u64 {
    let product = (mark ^ number).wrapping_mul(0x9e37_79b9_7f4a_7c15);
    product ^ product >> 29
}
