// The numbers of two automata with listed edges, unpacked.
ghost use Rattle.std.specs.Prelude.{◌≡◌, ◌≤◌, IfOk, option_map};
ghost use Rattle.machine_text.specs.Terms.{state_limit};
ghost use Rattle.far.specs.Limits.{listed_size_limit, listed_pair_limit};
ghost use Rattle.far.specs.ListedTexts.{listed_automata, AreListed, AreOfSize};

use crate::listed_reading::{Lists, numbers_of, rows_of};
use kind_evidence::NoMemory;
use machine_text::{Dir, Table};
use std::alloc::Global;

// The numbers of a claim.
#[derive(Drop)]
pub(crate) struct Unpacked {
    pub states: u8,
    pub side: Dir,
    pub size: u16,
    pub delta: Vec<u16>,
    pub rows: Lists,
    pub keep: Vec<u16>,
    ghost limits: { (1 ≤ states) × (states ≤ state_limit) × (1 ≤ size) × (size ≤ listed_size_limit) },
    ghost numbers: { AreListed (listed_automata states side size delta.items rows keep.items) },
}

impl Unpacked {
    ghost use Rattle.std.specs.Prelude.{◌↔◌, IsTrue};
    ghost use Rattle.far.specs.ListedTexts.{AreListedOf, halt_number, automata_in};
    ghost use Rattle.far.specs.inside.ListedUnpacked.{numbers_of_unpacked};

    // The numbers that three texts give, for tables of so many states; none where a text isn't such numbers.
    #[tactic(auto, unfolding(crate::specs::ListedTexts::automata_in))]
    pub fn of_texts(
        alloc: Global,
        states: u8,
        side: Dir,
        size: u16,
        delta: &[u8],
        rows: &[u8],
        keep: &[u8],
    ) -> Result<Option<Unpacked>, NoMemory>
        requires states { (1 ≤ states) × (states ≤ state_limit) }
        requires size { (1 ≤ size) × (size ≤ listed_size_limit) }
        ensures { IfOk result (λ read. option_map numbers_of_unpacked read
            ≡ automata_in states side size delta.now rows.now keep.now) }
    {
        let last = size * states as u16;
        let Some(delta) = numbers_of(alloc, delta, false, size)? else {
            return Ok(None);
        };
        let Some(rows) = rows_of(alloc, rows, last)? else {
            return Ok(None);
        };
        let Some(keep) = numbers_of(alloc, keep, true, last)? else {
            return Ok(None);
        };
        if delta.len() != 2 * size as usize {
            return Ok(None);
        }
        if rows.len() != 2 * last as usize {
            return Ok(None);
        }
        Ok(Some(Unpacked {
            states,
            side,
            size,
            delta,
            rows,
            keep,
        }))
    }

    // How many states the tables have for which the automata are made.
    pub fn states(&self) -> u8
        ensures states { result ≡ (numbers_of_unpacked self.now).states }
        ensures numbers { AreListed (numbers_of_unpacked self.now) }
        ensures limits { AreOfSize (numbers_of_unpacked self.now) }
    {
        self.states
    }

    // The number of the halt state.
    pub fn last(&self) -> u16
        ensures last { result ≡ halt_number (numbers_of_unpacked self.now) }
        ensures limit { result ≤ listed_pair_limit }
        ensures some { 1 ≤ result }
    {
        self.size * self.states as u16
    }

    // Whether the automata are those of a table.
    pub fn hold(&self, alloc: Global, t: &Table) -> Result<bool, NoMemory>
        ensures { IfOk result (λ hold. IsTrue hold ↔ AreListedOf (numbers_of_unpacked self.now) t.now) }
    {
        if self.states != t.states() {
            return Ok(false);
        }
        self.fits(alloc, t)
    }
}
