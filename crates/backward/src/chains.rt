// One step back: the pairs of a table whose entries lead to one state, as chains of places.
ghost use Rattle.std.specs.Prelude.{◌≡◌, ◌+◌, ◌*◌, ◌<◌, ℕ, Some, ◌==◌, ◌&&◌, ◌^◌, ◌≤◌, ℤ, pos, ◌+ℤ◌, length, slice_set, IfSome, IfNone, None};
ghost use Rattle.law_turing.specs.Terms.{left_behind, may_hold};
ghost use Rattle.backward.specs.inside.{known_about, known_from, pair_at, HasRoom};

use machine_text::{Dir, Entry, MAX_STATES, Pair, State, Sym, Table};
use std::marker::Model;

/// A table, and its pairs in chains: those whose entries lead to one state, in the order A0, A1, B0, and so on. So
/// what can come before a state is gone through without a look at the other pairs.
#[derive(Drop)]
pub(crate) struct Chains {
    table: Table,
    // For each state its first place, and for each place the next one; the number of places where there is none.
    first: [u8; MAX_STATES as usize],
    next: [u8; 2 * MAX_STATES as usize],
}

impl Model for Chains {
    ghost use Rattle.machine_text.specs.Terms.{Packed, IsTable};
    ghost use Rattle.backward.specs.inside.{AreChains};

    ghost Value = { Packed };

    ghost view = { λ a. a.table };

    ghost invariant = { λ a. IsTable a.table × AreChains a.table 0 a.first a.next };
}

impl Chains {
    ghost use Rattle.machine_text.specs.Terms.{IsTable};
    ghost use Rattle.backward.specs.inside.{IsFirst, target_at};

    /// The chains of a table.
    pub fn of(table: &Table) -> Chains
        ensures { result ≡ table.now }
    {
        let places = 2 * table.states();
        let mut first = [places; MAX_STATES as usize];
        let mut next = [places; 2 * MAX_STATES as usize];
        // From the last place on, so that each place is put before those of its chain.
        for done in 0..places {
            let place = places - 1 - done;
            let pair = pair_at(place);
            let Some(entry) = table.get(pair.state, pair.symbol) else {
                continue;
            };
            let state = entry.next.0 as usize;
            next[place as usize] = first[state];
            first[state] = place;
        }
        Chains {
            table: *table,
            first,
            next,
        }
    }

    /// The table.
    pub fn table(&self) -> &Table
        ensures { result.now ≡ self.now }
    {
        &self.table
    }

    /// How many places there are.
    pub fn places(&self) -> u8
        ensures places { result ≡ 2 * self.now.states }
        ensures table { IsTable self.now }
    {
        2 * self.table.states()
    }

    /// The first place whose pair leads to a state; the number of places where none does.
    pub fn first(&self, state: State) -> u8
        requires { state.0 < self.now.states }
        ensures { IsFirst self.now 0 state.0 result }
    {
        self.first[state.0 as usize]
    }

    /// The next place whose pair leads where that at a place does; the number of places where none does.
    pub fn next(&self, place: u8) -> u8
        requires { place < 2 * self.now.states }
        ensures { (state : ℕ) → target_at self.now place ≡ Some state → IsFirst self.now (place + 1) state result }
    {
        self.next[place as usize]
    }
}

// The pair at a place in the order A0, A1, B0, and so on.
pub(crate) fn pair_at(place: u8) -> Pair
    ensures state { result.state.0 ≡ (pair_at place).state }
    ensures symbol { result.symbol ≡ (pair_at place).symbol }
{
    let symbol = if place % 2 == 0 { Sym::Zero } else { Sym::One };
    Pair {
        state: State(place / 2),
        symbol,
    }
}

// Where the head stands at a pair, if the step from there can lead to a state with the head at `head` and
// these cells, as far as they are known.
pub(crate) fn place_before(
    pair: Pair,
    table: &Table,
    cells: &[Option<Sym>],
    state: State,
    head: usize,
) -> Option<usize>
    requires pair { pair.state.0 < table.now.states }
    requires room { HasRoom (length cells.now) head 1 }
    ensures room { IfSome result (λ place. (place < length cells.now) × (place ≤ head + 1) × (head ≤ place + 1)) }
    ensures some { IfSome result (λ place. known_from table.now pair.state.0 pair.symbol
        (known_about cells.now state.0 head)
        ≡ Some (known_about (slice_set cells.now place (Some pair.symbol)) pair.state.0 place)) }
    ensures none { IfNone result (known_from table.now pair.state.0 pair.symbol (known_about cells.now state.0 head)
        ≡ None) }
{
    let entry = table.get(pair.state, pair.symbol)?;
    let place = left_behind(entry.dir, head);
    can_lead_to(entry, cells[place], state).then_some(place)
}

// Where a head came from by a move to `head`.
fn left_behind(dir: Dir, head: usize) -> usize
    requires some { 1 ≤ head }
    requires fits { head + 1 < 2 ^ 64 }
    ensures place { pos result ≡ pos head +ℤ left_behind dir }
    ensures right { result ≤ head + 1 }
    ensures left { head ≤ result + 1 }
{
    match dir {
        Dir::L => head + 1,
        Dir::R => head - 1,
    }
}

// Whether a step by an entry can lead to a state, and leave behind a cell of which so much is known.
fn can_lead_to(entry: Entry, behind: Option<Sym>, state: State) -> bool
    ensures { result ≡ ((state.0 == entry.next.0) && may_hold behind entry.write) }
{
    state == entry.next && may_hold(behind, entry.write)
}

// Whether a cell can hold a symbol: one that isn't known can.
fn may_hold(cell: Option<Sym>, symbol: Sym) -> bool
    ensures { result ≡ may_hold cell symbol }
{
    match cell {
        Some(known) => known == symbol,
        None => true,
    }
}
