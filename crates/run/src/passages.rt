// What a run does to sixteen cells until its head leaves them, remembered as it comes.
ghost use Rattle.std.specs.Prelude.{◌<◌, IfSome, ◌≡◌, IfOk};
ghost use Rattle.machine_text.specs.Terms.{entry_of};
ghost use Rattle.run.specs.Steps.{TellsPassage, IsWindowNumber};

use machine_text::{Dir, State, Table};
use std::alloc::Global;
use std::marker::Model;
use tape::{NoMemory, Window};

// The most steps of a passage: one that takes longer is carried out step by step.
const MAX_PASSAGE_STEPS: u32 = 100_000;

/// What becomes of a window when the head has left it.
#[derive(Clone, Copy, Debug, PartialEq, Eq)]
pub struct Passage {
    /// How many steps lead out of it.
    pub steps: u32,
    /// The state then.
    pub state: State,
    /// The cells then.
    pub cells: u16,
    /// The side to which the head left.
    pub side: Dir,
}

impl Passage {
    /// The passage of a table's run through a window in which it stands; none where it halts there, or stays for ever.
    pub fn of(table: &Table, state: State, window: Window) -> Option<Passage>
        requires state { state.0 < table.now.states }
        requires at { window.at < 16 }
        ensures passes { IfSome result (TellsPassage (entry_of table.now) state.0 window) }
        ensures state { IfSome result (λ p. p.state.0 < table.now.states) }
    {
        let mut now = window;
        let mut at_state = state;
        for done in 0..MAX_PASSAGE_STEPS {
            let entry = table.get(at_state, now.read())?;
            now.write(entry.write);
            at_state = entry.next;
            match now.moved(entry.dir) {
                Some(next) => now = next,
                None => {
                    return Some(Passage {
                        steps: done + 1,
                        state: at_state,
                        cells: now.cells,
                        side: entry.dir,
                    });
                }
            }
        }
        None
    }
}

// So many numbers of a state, an end of a window, and its cells.
const NUMBERS: usize = 1_048_576;

/// What is remembered of a state and a window.
#[derive(Clone, Copy, Debug, PartialEq, Eq)]
pub enum Known {
    /// Nothing yet.
    Unknown,
    /// The head doesn't leave it.
    Stays,
    /// The head leaves it so.
    Leaves(Passage),
}

/// The passages of a table's run through windows that it comes to at an end of them.
#[derive(Drop)]
pub struct Passages {
    table: Table,
    known: Vec<Known>,
}

impl Model for Passages {
    ghost use Rattle.std.specs.Prelude.{◌≡◌, length};
    ghost use Rattle.machine_text.specs.Terms.{Packed};
    ghost use Rattle.run.specs.Steps.{packed_code, AreRight};

    ghost Value = { Packed };

    ghost coded = { packed_code };

    ghost view = { λ a. a.table };

    ghost invariant = { λ a. (length a.known.items ≡ 1048576) × AreRight a.table a.known.items };
}

impl Passages {
    /// The passages of a table, of which none is remembered yet.
    pub fn new(alloc: Global, table: Table) -> Result<Passages, NoMemory>
        ensures { IfOk result (λ passages. passages ≡ table) }
    {
        let mut known = Vec::new(alloc);
        known.resize(NUMBERS, Known::Unknown)?;
        Ok(Passages { table, known })
    }

    /// The passage through a window in which the run stands in a state; none where it halts there or stays for ever, or isn't at an
    /// end of the window.
    #[inline]
    pub fn through(&mut self, state: State, window: Window) -> Option<Passage>
        requires state { state.0 < self.old.states }
        requires at { window.at < 16 }
        ensures kept { self.new ≡ self.old }
        ensures passes { IfSome result (TellsPassage (entry_of self.old) state.0 window) }
    {
        // The proof needs how many states a table has.
        let _ = self.table.states();
        let number = number_of(state, window)?;
        match self.known[number] {
            Known::Unknown => self.find(number, state, window),
            Known::Stays => None,
            Known::Leaves(passage) => Some(passage),
        }
    }

    // Finds it, and remembers it.
    #[inline(never)]
    fn find(&mut self, number: usize, state: State, window: Window) -> Option<Passage>
        requires state { state.0 < self.old.states }
        requires at { window.at < 16 }
        requires number { IsWindowNumber number state.0 window }
        ensures kept { self.new ≡ self.old }
        ensures passes { IfSome result (TellsPassage (entry_of self.old) state.0 window) }
    {
        let found = Passage::of(&self.table, state, window);
        self.known[number] = match found {
            Some(passage) => Known::Leaves(passage),
            None => Known::Stays,
        };
        found
    }
}

// The number of a state and a window at an end of which the head stands; none where it stands elsewhere.
#[inline]
fn number_of(state: State, window: Window) -> Option<usize>
    requires state { state.0 < 8 }
    ensures { IfSome result (λ number. IsWindowNumber number state.0 window) }
{
    let side = match window.at {
        0 => 0,
        15 => 65_536,
        _ => return None,
    };
    Some(131_072 * state.0 as usize + side + window.cells as usize)
}
