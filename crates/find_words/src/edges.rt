// The second automaton in the making: the edges that its states have, and what waits for them.
use kind_evidence::NoMemory;
use machine_text::Sym;
use std::alloc::Global;

// No list, or the end of one.
pub(crate) const END: u32 = u32::MAX;

// Items, each with the place of the next one of its list.
#[derive(Drop)]
pub(crate) struct Links<T> {
    items: Vec<(T, u32)>,
}

impl<T: Copy + Drop + PartialEq> Links<T> {
    // No list.
    pub fn new(alloc: Global) -> Links<T> {
        Links {
            items: Vec::new(alloc),
        }
    }

    // Drops them all, and keeps their memory.
    pub fn clear(&mut self) {
        self.items.clear();
    }

    // How many items there are in all lists.
    pub fn len(&self) -> usize {
        self.items.len()
    }

    // The item at a place, and the place of the next one of its list; none behind a list's end.
    pub fn get(&self, place: u32) -> Option<(T, u32)> {
        self.items.get(place as usize).copied()
    }

    // One more item, before a list; where it stands. There are never so many that one would stand at `END`.
    pub fn push(&mut self, item: T, next: u32) -> Result<u32, NoMemory> {
        let place = self.items.len() as u64;
        self.items.push((item, next))?;
        Ok(place.min(u64::from(END)) as u32)
    }

    // Whether an item is in a list.
    pub fn has(&self, list: u32, item: T) -> bool {
        let mut at = list;
        for _ in 0..self.items.len() {
            let Some((other, next)) = self.get(at) else {
                return false;
            };
            if other == item {
                return true;
            }
            at = next;
        }
        false
    }
}

// What is to be done with each edge of a row.
#[derive(Clone, Copy, Debug, PartialEq, Eq)]
pub(crate) enum Then {
    // to keep the node to which it goes
    Keep,
    // to read one more symbol there, and give a row what comes of it
    Read { symbol: Sym, row: u32 },
    // to give it to a row
    Edge { row: u32 },
}

// What is still to be done.
#[derive(Clone, Copy, Debug, PartialEq, Eq)]
pub(crate) enum Task {
    // to do something with each edge of a row, now and later
    Call { row: u32, then: Then },
    // to do it with one edge, by the node to which that goes
    Do { then: Then, node: u32 },
}

// The edges of a node on a symbol, and what waits for more of them. A row that was never called has edges to all.
#[derive(Clone, Copy, Debug, PartialEq, Eq)]
pub(crate) struct Row {
    pub called: bool,
    pub edges: u32,
    waits: u32,
}

// All rows: that of node j on the symbol r has the number 2j + r.
#[derive(Drop)]
pub(crate) struct Rows {
    rows: Vec<Row>,
    edges: Links<u32>,
    waits: Links<Then>,
}

impl Rows {
    // None.
    pub fn new(alloc: Global) -> Rows {
        Rows {
            rows: Vec::new(alloc),
            edges: Links::new(alloc),
            waits: Links::new(alloc),
        }
    }

    // Drops them all, and keeps their memory.
    pub fn clear(&mut self) {
        self.rows.clear();
        self.edges.clear();
        self.waits.clear();
    }

    // Whether there are no more edges than these, and no more that waits for one.
    pub fn are_within(&self, edges: usize) -> bool {
        self.edges.len() <= edges && self.waits.len() <= edges
    }

    // One more, which wasn't called.
    pub fn add(&mut self) -> Result<(), NoMemory> {
        self.rows.push(Row {
            called: false,
            edges: END,
            waits: END,
        })?;
        Ok(())
    }

    // A row by its number.
    pub fn get(&self, row: usize) -> Option<&Row> {
        self.rows.get(row)
    }

    // How many there are.
    pub fn len(&self) -> usize {
        self.rows.len()
    }

    // Lists the nodes to which the edges of a row go, in the place of what stood there.
    pub fn list_nodes(&self, row: &Row, nodes: &mut Vec<u32>) -> Result<(), NoMemory> {
        nodes.clear();
        let mut at = row.edges;
        for _ in 0..self.edges.len() {
            let Some((node, next)) = self.edges.get(at) else {
                break;
            };
            nodes.push(node)?;
            at = next;
        }
        Ok(())
    }

    // What is done with the edges of a row from now on, and with those that are there. Whether it is the first call.
    pub fn call(&mut self, row: u32, then: Then, tasks: &mut Vec<Task>) -> Result<bool, NoMemory> {
        let Some(found) = self.rows.get_mut(row as usize) else {
            return Ok(false);
        };
        if self.waits.has(found.waits, then) {
            return Ok(false);
        }
        let is_first = !found.called;
        found.called = true;
        found.waits = self.waits.push(then, found.waits)?;
        let mut at = found.edges;
        for _ in 0..self.edges.len() {
            let Some((node, next)) = self.edges.get(at) else {
                break;
            };
            tasks.push(Task::Do { then, node })?;
            at = next;
        }
        Ok(is_first)
    }

    // An edge of a row, to a node: where it is new, all is done with it that waits for one.
    pub fn give(&mut self, row: u32, node: u32, tasks: &mut Vec<Task>) -> Result<(), NoMemory> {
        let Some(found) = self.rows.get_mut(row as usize) else {
            return Ok(());
        };
        if self.edges.has(found.edges, node) {
            return Ok(());
        }
        found.edges = self.edges.push(node, found.edges)?;
        let mut at = found.waits;
        for _ in 0..self.waits.len() {
            let Some((then, next)) = self.waits.get(at) else {
                break;
            };
            tasks.push(Task::Do { then, node })?;
            at = next;
        }
        Ok(())
    }
}
