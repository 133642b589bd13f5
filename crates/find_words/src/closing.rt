// The least second automaton, as far as the blank tape asks for it.
use crate::edges::{END, Links, Rows, Task, Then};
use crate::words::{FirstAutomaton, FirstState, Room};
use kind_evidence::NoMemory;
use machine_text::{Dir, Entry, State, Sym, Table};
use std::alloc::Global;
use std::collections::BTreeMap;

// What is closed: a table, which way is ahead, and the first automaton.
#[derive(Drop)]
pub(crate) struct Reduction<'a, F> {
    pub table: &'a Table,
    pub side: Dir,
    pub first: &'a F,
}

// A state of the first automaton: where it goes, the transitions that come to it, and the entries that take its symbol.
#[derive(Clone, Copy, Debug, PartialEq, Eq)]
pub(crate) struct Place {
    state: FirstState,
    pub zero: u32,
    pub one: u32,
    before: u32,
    pops: u32,
}

// A transition that comes to a state: from where, and on which symbol.
#[derive(Clone, Copy, Debug, PartialEq, Eq)]
struct Before {
    place: u32,
    symbol: Sym,
}

// An entry that goes back from a state of the first automaton, for a row: it writes a symbol and goes on in a state.
#[derive(Clone, Copy, Debug, PartialEq, Eq)]
struct Pop {
    next: State,
    write: Sym,
    row: u32,
}

// The two automata in the making. The states of the second one, its nodes, are numbered as in a record: number q n + f is
// the pair of the first automaton's state q and the machine's state f, of n.
#[derive(Drop)]
pub(crate) struct Closing {
    numbers: BTreeMap<FirstState, u32>,
    pub places: Vec<Place>,
    pub rows: Rows,
    pub kept: Vec<bool>,
    before: Links<Before>,
    pops: Links<Pop>,
    tasks: Vec<Task>,
}

// How many tasks a try may have, and how many of them may be left at once: a row with many edges for which much waits has
// many.
const MAX_TASKS: u64 = 10_000_000;

const MAX_TASKS_LEFT: usize = 1_000_000;

impl Closing {
    // Nothing. Takes no memory.
    pub fn new(alloc: Global) -> Closing {
        Closing {
            numbers: BTreeMap::new(alloc),
            places: Vec::new(alloc),
            rows: Rows::new(alloc),
            kept: Vec::new(alloc),
            before: Links::new(alloc),
            pops: Links::new(alloc),
            tasks: Vec::new(alloc),
        }
    }

    // Closes the automata, and says whether the blank tape is kept from the halting pairs, within some room.
    pub fn close<F: FirstAutomaton>(
        &mut self,
        reduction: &Reduction<'_, F>,
        room: Room,
    ) -> Result<bool, NoMemory> {
        self.begin(reduction)?;
        for _ in 0..MAX_TASKS {
            let Some(task) = self.tasks.pop() else {
                return Ok(true);
            };
            if !self.does_task(reduction, task)? || !self.has_room(room) {
                return Ok(false);
            }
        }
        Ok(false)
    }

    fn has_room(&self, room: Room) -> bool {
        self.places.len() <= room.states
            && self.rows.are_within(room.edges)
            && self.tasks.len() <= MAX_TASKS_LEFT
    }

    // The first state, which goes to itself on a blank, and its pair with the machine's first state, which is kept.
    fn begin<F: FirstAutomaton>(&mut self, reduction: &Reduction<'_, F>) -> Result<(), NoMemory> {
        self.numbers.clear();
        self.places.clear();
        self.rows.clear();
        self.kept.clear();
        self.before.clear();
        self.pops.clear();
        self.tasks.clear();
        let first = self.place_of(reduction.table, reduction.first.start())?;
        self.goes(first, Sym::Zero, first)?;
        self.tasks.push(Task::Do {
            then: Then::Keep,
            node: 0,
        })?;
        Ok(())
    }

    // The number of a state of the first automaton, a new one where it has none.
    fn place_of(&mut self, t: &Table, state: FirstState) -> Result<u32, NoMemory> {
        if let Some(number) = self.numbers.get(&state) {
            return Ok(*number);
        }
        let number = (self.places.len() as u64).min(u64::from(END)) as u32;
        self.numbers.insert(state, number)?;
        self.places.push(Place {
            state,
            zero: END,
            one: END,
            before: END,
            pops: END,
        })?;
        for _ in 0..t.states() {
            self.kept.push(false)?;
            self.rows.add()?;
            self.rows.add()?;
        }
        Ok(number)
    }

    // The first automaton goes from a state to another on a symbol.
    fn goes(&mut self, from: u32, symbol: Sym, to: u32) -> Result<(), NoMemory> {
        if let Some(place) = self.places.get_mut(from as usize) {
            match symbol {
                Sym::Zero => place.zero = to,
                Sym::One => place.one = to,
            }
        }
        let Some(place) = self.places.get_mut(to as usize) else {
            return Ok(());
        };
        let before = Before {
            place: from,
            symbol,
        };
        place.before = self.before.push(before, place.before)?;
        Ok(())
    }

    // Whether that was done without coming to a halting pair.
    fn does_task<F: FirstAutomaton>(
        &mut self,
        reduction: &Reduction<'_, F>,
        task: Task,
    ) -> Result<bool, NoMemory> {
        match task {
            Task::Call { row, then } => {
                if self.rows.call(row, then, &mut self.tasks)? {
                    return self.asks(reduction, row);
                }
            }
            Task::Do { then, node } => self.does(then, node)?,
        }
        Ok(true)
    }

    // What a row asks for that is called for the first time. Whether its pair has an entry.
    fn asks<F: FirstAutomaton>(
        &mut self,
        reduction: &Reduction<'_, F>,
        row: u32,
    ) -> Result<bool, NoMemory> {
        let states = u32::from(reduction.table.states());
        let read = if row % 2 == 1 { Sym::One } else { Sym::Zero };
        let place = row / 2 / states;
        let machine = State((row / 2 % states) as u8);
        let Some(entry) = reduction.table.get(machine, read) else {
            return Ok(false);
        };
        if entry.dir == reduction.side {
            self.goes_ahead(reduction, place, row, entry)
        } else {
            self.goes_back(reduction.table, place, row, entry)?;
            Ok(true)
        }
    }

    // An entry that moves ahead leaves its symbol to the first automaton.
    fn goes_ahead<F: FirstAutomaton>(
        &mut self,
        reduction: &Reduction<'_, F>,
        from: u32,
        row: u32,
        entry: Entry,
    ) -> Result<bool, NoMemory> {
        let Some(to) = self.pushed(reduction, from, entry.write)? else {
            return Ok(false);
        };
        let node = node_of(reduction.table, to, entry.next);
        self.rows.give(row, node, &mut self.tasks)?;
        Ok(true)
    }

    // Where the first automaton goes from a state on a symbol. A transition that wasn't there is one more from which those
    // entries take the symbol that go back from where it leads.
    fn pushed<F: FirstAutomaton>(
        &mut self,
        reduction: &Reduction<'_, F>,
        from: u32,
        symbol: Sym,
    ) -> Result<Option<u32>, NoMemory> {
        let Some(place) = self.places.get(from as usize).copied() else {
            return Ok(None);
        };
        let known = match symbol {
            Sym::Zero => place.zero,
            Sym::One => place.one,
        };
        if known != END {
            return Ok(Some(known));
        }
        let Some(state) = reduction.first.push(place.state, symbol) else {
            return Ok(None);
        };
        let to = self.place_of(reduction.table, state)?;
        self.goes(from, symbol, to)?;
        let before = Before {
            place: from,
            symbol,
        };
        let mut at = self.pops_of(to);
        for _ in 0..self.pops.len() {
            let Some((pop, after)) = self.pops.get(at) else {
                break;
            };
            self.call_before(reduction.table, before, pop)?;
            at = after;
        }
        Ok(Some(to))
    }

    fn pops_of(&self, place: u32) -> u32 {
        match self.places.get(place as usize) {
            Some(place) => place.pops,
            None => END,
        }
    }

    // An entry that moves back takes the symbol that the first automaton read last, by each transition that comes here.
    fn goes_back(&mut self, t: &Table, from: u32, row: u32, entry: Entry) -> Result<(), NoMemory> {
        let Some(place) = self.places.get_mut(from as usize) else {
            return Ok(());
        };
        let pop = Pop {
            next: entry.next,
            write: entry.write,
            row,
        };
        place.pops = self.pops.push(pop, place.pops)?;
        let mut at = place.before;
        for _ in 0..self.before.len() {
            let Some((before, after)) = self.before.get(at) else {
                break;
            };
            self.call_before(t, before, pop)?;
            at = after;
        }
        Ok(())
    }

    // The second automaton reads the symbol that was taken, and then the one that the entry wrote.
    fn call_before(&mut self, t: &Table, before: Before, pop: Pop) -> Result<(), NoMemory> {
        let node = node_of(t, before.place, pop.next);
        self.tasks.push(Task::Call {
            row: row_of(node, before.symbol),
            then: Then::Read {
                symbol: pop.write,
                row: pop.row,
            },
        })?;
        Ok(())
    }

    // Does with an edge what waits for one, by the node to which it goes.
    fn does(&mut self, then: Then, node: u32) -> Result<(), NoMemory> {
        match then {
            Then::Keep => self.keep(node),
            Then::Read { symbol, row } => {
                self.tasks.push(Task::Call {
                    row: row_of(node, symbol),
                    then: Then::Edge { row },
                })?;
                Ok(())
            }
            Then::Edge { row } => self.rows.give(row, node, &mut self.tasks),
        }
    }

    // Keeps a node, and all to which it goes on blanks.
    fn keep(&mut self, node: u32) -> Result<(), NoMemory> {
        let Some(kept) = self.kept.get_mut(node as usize) else {
            return Ok(());
        };
        if *kept {
            return Ok(());
        }
        *kept = true;
        self.tasks.push(Task::Call {
            row: row_of(node, Sym::Zero),
            then: Then::Keep,
        })?;
        Ok(())
    }
}

// The number of a pair. There are never so many that it would be more than `END`.
fn node_of(t: &Table, place: u32, state: State) -> u32 {
    let number = u64::from(place) * u64::from(t.states()) + u64::from(state.0);
    number.min(u64::from(END)) as u32
}

// The number of a node's row.
fn row_of(node: u32, symbol: Sym) -> u32 {
    let number = 2 * u64::from(node) + u64::from(symbol == Sym::One);
    number.min(u64::from(END)) as u32
}
