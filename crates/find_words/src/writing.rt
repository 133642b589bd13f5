// What was closed, as automata: their transitions, and the texts of a record.
use crate::closing::Closing;
use crate::edges::{END, Row};
use kind_evidence::NoMemory;
use std::alloc::Global;
use text::append_number;

impl Closing {
    // How many states the first automaton has, with one for all transitions that no step takes.
    pub(crate) fn size(&self) -> u64 {
        self.places.len() as u64 + u64::from(self.is_open())
    }

    // Whether a transition is never taken.
    fn is_open(&self) -> bool {
        self.places
            .iter()
            .any(|place| place.zero == END || place.one == END)
    }

    // Where the first automaton goes, from state q on the symbol s number 2q + s. What is never taken goes to one more
    // state, which is never left.
    pub(crate) fn list_targets(&self, targets: &mut Vec<u64>) -> Result<(), NoMemory> {
        let dead = self.places.len() as u64;
        for place in self.places.iter() {
            targets.push(target(place.zero, dead))?;
            targets.push(target(place.one, dead))?;
        }
        if self.is_open() {
            targets.push(dead)?;
            targets.push(dead)?;
        }
        Ok(())
    }

    // The edges of the second automaton as text; what was never called isn't listed.
    pub(crate) fn append_rows(
        &self,
        alloc: Global,
        states: u8,
        out: &mut Vec<u8>,
    ) -> Result<(), NoMemory> {
        let mut nodes = Vec::new(alloc);
        for k in 0..self.rows.len() {
            if let Some(row) = self.rows.get(k) {
                self.append_row(row, &mut nodes, out)?;
            }
        }
        if self.is_open() {
            for _ in 0..2 * u16::from(states) {
                begin_item(out)?;
                out.extend_from_slice(b"-")?;
            }
        }
        Ok(())
    }

    fn append_row(
        &self,
        row: &Row,
        nodes: &mut Vec<u32>,
        out: &mut Vec<u8>,
    ) -> Result<(), NoMemory> {
        begin_item(out)?;
        if !row.called {
            return out.extend_from_slice(b"-");
        }
        if row.edges == END {
            return out.extend_from_slice(b".");
        }
        self.rows.list_nodes(row, nodes)?;
        nodes.sort_unstable();
        for k in 0..nodes.len() {
            if k > 0 {
                out.extend_from_slice(b".")?;
            }
            append_number(u64::from(nodes[k]), out)?;
        }
        Ok(())
    }

    // What is kept, as text.
    pub(crate) fn append_keep(&self, out: &mut Vec<u8>) -> Result<(), NoMemory> {
        for node in 0..self.kept.len() {
            if self.kept[node] {
                begin_item(out)?;
                append_number(node as u64, out)?;
            }
        }
        Ok(())
    }
}

fn target(state: u32, dead: u64) -> u64 {
    if state == END { dead } else { u64::from(state) }
}

// Numbers with a comma between each two.
pub(crate) fn append_numbers(numbers: &[u64], out: &mut Vec<u8>) -> Result<(), NoMemory> {
    for number in numbers {
        begin_item(out)?;
        append_number(*number, out)?;
    }
    Ok(())
}

// A comma, where items stand before.
fn begin_item(out: &mut Vec<u8>) -> Result<(), NoMemory> {
    if out.is_empty() {
        return Ok(());
    }
    out.extend_from_slice(b",")
}
