// The numbers of two automata, unpacked.
ghost use Rattle.std.specs.Prelude.{◌≡◌, ◌+◌, ◌*◌, ◌≤◌, take};
ghost use Rattle.machine_text.specs.Terms.{state_limit};
ghost use Rattle.far.specs.Limits.{size_limit, pair_limit};
ghost use Rattle.far.specs.Texts.{automata, AreAutomata, AreSized};

use crate::fields::hex_number;
use crate::limits::{MAX_MOVES, MAX_ROWS, Set};
use crate::numbers::{are_sets, are_states, delta_of, rows_of, set_limit};
use machine_text::{Dir, Table};

// The numbers of a claim, in room for the largest ones: some 3,600 bytes.
#[derive(Clone, Copy)]
pub(crate) struct Unpacked {
    pub states: u8,
    pub side: Dir,
    pub size: u8,
    pub delta: [u8; MAX_MOVES],
    pub rows: [Set; MAX_ROWS],
    pub keep: Set,
    ghost limits: { (1 ≤ states) × (states ≤ state_limit) × (1 ≤ size) × (size ≤ size_limit) },
    ghost numbers: { AreAutomata (automata states side size (take (2 * size) delta) (take (2 * (size * states)) rows)
        keep) },
}

impl Unpacked {
    ghost use Rattle.std.specs.Prelude.{◌↔◌, IsTrue, IfSome, IfNone};
    ghost use Rattle.far.specs.Texts.{AreTexts, automata_by, AreAutomataOf};
    ghost use Rattle.far.specs.inside.Unpacked.{unpacked_of};
    ghost use Rattle.far.specs.inside.Steps.{last};

    // The numbers that three texts give, for tables of so many states; none where a text isn't such numbers.
    pub fn of_texts(
        states: u8,
        side: Dir,
        size: u8,
        delta: &[u8],
        rows: &[u8],
        keep: &[u8],
    ) -> Option<Unpacked>
        requires states { (1 ≤ states) × (states ≤ state_limit) }
        requires size { (1 ≤ size) × (size ≤ size_limit) }
        ensures some { IfSome result (λ e. unpacked_of e ≡ automata_by states side size delta.now rows.now keep.now) }
        ensures texts { IfSome result (λ e. AreTexts states size delta.now rows.now keep.now) }
        ensures none { IfNone result (AreTexts states size delta.now rows.now keep.now → ⊥) }
    {
        let last = size as usize * states as usize;
        let limit = set_limit(last);
        let delta = delta_of(delta, size)?;
        let rows = rows_of(rows, 2 * last, limit)?;
        let keep = hex_number(keep, limit)?;
        Some(Unpacked {
            states,
            side,
            size,
            delta,
            rows,
            keep,
        })
    }

    // The automata with these numbers; none where one is too large.
    pub fn of_numbers(
        states: u8,
        side: Dir,
        size: u8,
        delta: [u8; MAX_MOVES],
        rows: [Set; MAX_ROWS],
        keep: Set,
    ) -> Option<Unpacked>
        requires states { (1 ≤ states) × (states ≤ state_limit) }
        requires size { (1 ≤ size) × (size ≤ size_limit) }
        ensures { IfSome result (λ e. unpacked_of e
            ≡ automata states side size (take (2 * size) delta) (take (2 * (size * states)) rows) keep) }
    {
        let limit = set_limit(size as usize * states as usize);
        if !are_states(&delta, size) {
            return None;
        }
        if !are_sets(&rows, limit) {
            return None;
        }
        if keep >= limit {
            return None;
        }
        Some(Unpacked {
            states,
            side,
            size,
            delta,
            rows,
            keep,
        })
    }

    // How many states the tables have for which the automata are made.
    pub fn states(&self) -> u8
        ensures states { result ≡ (unpacked_of self.now).states }
        ensures numbers { AreAutomata (unpacked_of self.now) }
        ensures limits { AreSized (unpacked_of self.now) }
    {
        self.states
    }

    // Where the first automaton goes: from state q on the symbol s, number 2q + s.
    pub fn delta(&self) -> &[u8]
        ensures { result.now ≡ (unpacked_of self.now).delta }
    {
        &self.delta[..2 * self.size as usize]
    }

    // The edges of the second automaton: from (q, f), whose number is j = q times `states` + f, on the symbol r,
    // number 2j + r. In a set a bit stands for the state of its number; the halt state is the last.
    pub fn rows(&self) -> &[Set]
        ensures { result.now ≡ (unpacked_of self.now).rows }
    {
        &self.rows[..2 * self.last()]
    }

    // The number of the halt state.
    pub fn last(&self) -> usize
        ensures last { result ≡ last (unpacked_of self.now) }
        ensures limit { result ≤ pair_limit }
        ensures some { 1 ≤ result }
    {
        self.size as usize * self.states as usize
    }

    // Whether the automata are those of a table.
    pub fn hold(&self, t: &Table) -> bool
        ensures { IsTrue result ↔ AreAutomataOf (unpacked_of self.now) t.now }
    {
        self.states == t.states() && self.fits(t)
    }
}
