// Whether the numbers of two automata with listed edges hold what a table asks for.
ghost use Rattle.std.specs.Prelude.{◌≡◌, ◌<◌, IfOk, IsPermutation, ◌↔◌, length, IsTrue, ◌+◌, ◌*◌, ◌≤◌};
ghost use Rattle.far.specs.inside.Steps.{all_moves, move_from, IsPartTo, LeadsInto, LeadInto, GoesAhead, PairFits, EachPairFits, BackOver, GoesBack, FitsBack, EachFitsBack, AreSeen, BlankIsKept};
ghost use Rattle.far.specs.inside.ListedUnpacked.{numbers_of_unpacked};
ghost use Rattle.far.specs.ListedTexts.{has_item, IsRising, AreListedOf, halt_number, edges_at, target_of};
ghost use Rattle.machine_text.specs.Terms.{entry_of, symbol_number};
ghost use Rattle.far.specs.Limits.{listed_pair_limit};

use crate::fits::{is_ahead, symbol_number};
use crate::listed_unpacked::Unpacked;
use kind_evidence::NoMemory;
use machine_text::{Entry, State, Sym, Table};
use std::alloc::Global;

// A transition: to where, from a state, on a symbol.
#[derive(Clone, Copy, Debug, PartialEq, Eq, PartialOrd, Ord)]
pub(crate) struct Move {
    pub to: u16,
    pub from: u16,
    pub read: Sym,
}

impl Unpacked {
    // All transitions, those to one state one behind another.
    pub fn moves(&self, alloc: Global) -> Result<Vec<Move>, NoMemory>
        ensures { IfOk result (λ moves. IsPermutation (all_moves (numbers_of_unpacked self.now) self.now.size)
            moves.items) }
    {
        let mut moves = self.moves_by_state(alloc)?;
        moves.sort_unstable();
        Ok(moves)
    }

    // The transitions by the states from which they go.
    fn moves_by_state(&self, alloc: Global) -> Result<Vec<Move>, NoMemory>
        ensures { IfOk result (λ moves. moves.items ≡ all_moves (numbers_of_unpacked self.now) self.now.size) }
    {
        let mut moves = Vec::new(alloc);
        for q in 0..self.size {
            moves.push(self.move_from(q, Sym::Zero))?;
            moves.push(self.move_from(q, Sym::One))?;
        }
        Ok(moves)
    }

    fn move_from(&self, q: u16, s: Sym) -> Move
        requires { q < self.now.size }
        ensures { result ≡ move_from (numbers_of_unpacked self.now) q s }
    {
        Move {
            to: self.target(q, s),
            from: q,
            read: s,
        }
    }
}

// Whether a number is in a list.
pub(crate) fn has(list: &[u16], k: u16) -> bool
    requires { IsRising list.now }
    ensures { result ≡ has_item list.now k }
{
    list.binary_search(&k).is_ok()
}

// How much longer a list is that isn't gone through whole.
const LONGER: usize = 16;

// Whether all of a list is in another.
pub(crate) fn is_part(a: &[u16], b: &[u16]) -> bool
    requires first { IsRising a.now }
    requires second { IsRising b.now }
    ensures { IsTrue result ↔ IsPartTo a.now b.now (length a.now) }
{
    if a.len() < b.len() / LONGER {
        is_part_of_long(a, b)
    } else {
        is_part_of_near(a, b)
    }
}

// Whether a list is part of one that is much longer: each number is searched.
fn is_part_of_long(a: &[u16], b: &[u16]) -> bool
    requires { IsRising b.now }
    ensures { IsTrue result ↔ IsPartTo a.now b.now (length a.now) }
{
    for i in 0..a.len() {
        if !has(b, a[i]) {
            return false;
        }
    }
    true
}

// Whether a list is part of one that isn't much longer: both are gone through once.
fn is_part_of_near(a: &[u16], b: &[u16]) -> bool
    requires first { IsRising a.now }
    requires second { IsRising b.now }
    ensures { IsTrue result ↔ IsPartTo a.now b.now (length a.now) }
{
    let mut i = 0;
    let mut j = 0;
    'items: while i < a.len() {
        if j == b.len() {
            return false;
        }
        if b[j] > a[i] {
            return false;
        }
        if b[j] == a[i] {
            i += 1;
        }
        j += 1;
    }
    true
}

impl Unpacked {
    // Whether the automata fit a table of their number of states.
    pub(crate) fn fits(&self, alloc: Global, t: &Table) -> Result<bool, NoMemory>
        requires { self.now.states ≡ t.now.states }
        ensures { IfOk result (λ fits. IsTrue fits ↔ AreListedOf (numbers_of_unpacked self.now) t.now) }
    {
        // The proof needs that the table is one.
        let _ = t.states();
        if !self.keeps_blank() {
            return Ok(false);
        }
        if !self.each_pair_fits(t) {
            return Ok(false);
        }
        self.each_fits_back(alloc, t)
    }

    // Whether the blank tape is kept away from the halt state.
    fn keeps_blank(&self) -> bool
        ensures { IsTrue result ↔ BlankIsKept (numbers_of_unpacked self.now) }
    {
        if self.target(0, Sym::Zero) != 0 {
            return false;
        }
        let keep = self.keep();
        if !has(keep, 0) {
            return false;
        }
        self.lead_into(keep, Sym::Zero, keep)
    }

    // Whether each pair of the second automaton has the edges that an undefined entry asks for, or one that moves ahead.
    fn each_pair_fits(&self, t: &Table) -> bool
        requires { self.now.states ≡ t.now.states }
        ensures { IsTrue result ↔ EachPairFits (entry_of t.now) (numbers_of_unpacked self.now)
            (halt_number (numbers_of_unpacked self.now)) }
    {
        let states = self.states as u16;
        for j in 0..self.last() {
            if !self.fits_pair(t, j / states, j % states, Sym::Zero) {
                return false;
            }
            if !self.fits_pair(t, j / states, j % states, Sym::One) {
                return false;
            }
        }
        true
    }

    // Whether (q, f) has them on a symbol.
    #[tactic(auto, unfolding(crate::specs::inside::Steps::PairFits))]
    fn fits_pair(&self, t: &Table, q: u16, f: u16, r: Sym) -> bool
        requires states { self.now.states ≡ t.now.states }
        requires first { q < self.now.size }
        requires second { f < self.now.states }
        ensures { IsTrue result ↔ PairFits (entry_of t.now) (numbers_of_unpacked self.now) q f r }
    {
        match t.get(State(f as u8), r) {
            Some(entry) => self.fits_ahead(q, f, r, entry),
            None => has(self.row(q, f, r), self.last()),
        }
    }

    // An entry that moves ahead: the first automaton reads the written symbol.
    fn fits_ahead(&self, q: u16, f: u16, r: Sym, entry: Entry) -> bool
        requires first { q < self.now.size }
        requires second { f < self.now.states }
        requires next { entry.next.0 < self.now.states }
        ensures { IsTrue result ↔ (entry.dir ≡ self.now.side → GoesAhead (numbers_of_unpacked self.now) q f r entry) }
    {
        if !is_ahead(entry.dir, self.side) {
            return true;
        }
        let row = self.row(q, f, r);
        if has(row, self.last()) {
            return true;
        }
        has(
            row,
            self.number(self.target(q, entry.write), entry.next.0 as u16),
        )
    }

    // Whether there are the edges that the entries ask for which move back.
    fn each_fits_back(&self, alloc: Global, t: &Table) -> Result<bool, NoMemory>
        requires { self.now.states ≡ t.now.states }
        ensures { IfOk result (λ fits. IsTrue fits
            ↔ EachFitsBack (entry_of t.now) (numbers_of_unpacked self.now) self.now.states) }
    {
        let moves = self.moves(alloc)?;
        let mut seen = self.none_seen(alloc)?;
        for f in 0..self.states {
            if !self.fits_back(t, f, Sym::Zero, &moves, &mut seen) {
                return Ok(false);
            }
            if !self.fits_back(t, f, Sym::One, &moves, &mut seen) {
                return Ok(false);
            }
        }
        Ok(true)
    }

    // A number for each state of the second automaton but the halt state.
    fn none_seen(&self, alloc: Global) -> Result<Vec<u16>, NoMemory>
        ensures { IfOk result (λ seen. length seen.items ≡ halt_number (numbers_of_unpacked self.now)) }
    {
        let mut seen = Vec::new(alloc);
        for u in 0..self.last() {
            seen.push(0)?;
        }
        Ok(seen)
    }

    // Whether there are those that one entry asks for.
    fn fits_back(&self, t: &Table, f: u8, r: Sym, moves: &[Move], seen: &mut [u16]) -> bool
        requires states { self.now.states ≡ t.now.states }
        requires second { f < self.now.states }
        requires moves { IsPermutation (all_moves (numbers_of_unpacked self.now) self.now.size) moves.now }
        requires seen { length seen.old ≡ halt_number (numbers_of_unpacked self.now) }
        ensures fits { IsTrue result ↔ FitsBack (entry_of t.now f r) (numbers_of_unpacked self.now) f r }
        ensures seen { length seen.new ≡ length seen.old }
    {
        let Some(entry) = t.get(State(f), r) else {
            return true;
        };
        if is_ahead(entry.dir, self.side) {
            return true;
        }
        self.goes_back(f as u16, r, entry, moves, seen)
    }

    // Whether an entry that moves back fits. The transitions to one state stand one behind another: what leads into the list
    // of a target is then looked at once, however many of them there are.
    fn goes_back(&self, f: u16, r: Sym, entry: Entry, moves: &[Move], seen: &mut [u16]) -> bool
        requires second { f < self.now.states }
        requires next { entry.next.0 < self.now.states }
        requires moves { IsPermutation (all_moves (numbers_of_unpacked self.now) self.now.size) moves.now }
        requires seen { length seen.old ≡ halt_number (numbers_of_unpacked self.now) }
        ensures fits { IsTrue result ↔ GoesBack (numbers_of_unpacked self.now) f r entry }
        ensures seen { length seen.new ≡ length seen.old }
    {
        seen.fill(self.size);
        for k in 0..moves.len() {
            if !self.goes_back_over(f, r, entry, moves[k], seen) {
                return false;
            }
        }
        true
    }

    // An entry that moves back over a transition: the second automaton reads the symbol of that again, and then the written
    // one.
    fn goes_back_over(&self, f: u16, r: Sym, entry: Entry, over: Move, seen: &mut [u16]) -> bool
        requires second { f < self.now.states }
        requires next { entry.next.0 < self.now.states }
        requires from { over.from < self.now.size }
        requires to { over.to < self.now.size }
        requires seen { AreSeen (numbers_of_unpacked self.now) f r entry.write seen.old }
        ensures fits { IsTrue result ↔ BackOver (numbers_of_unpacked self.now) f r entry over }
        ensures seen { AreSeen (numbers_of_unpacked self.now) f r entry.write seen.new }
    {
        if has(self.row(over.to, f, r), self.last()) {
            return true;
        }
        let set = self.row(over.from, entry.next.0 as u16, over.read);
        self.lead_into_target(set, entry.write, over.to, f, r, seen)
    }

    // Whether the edges of a list's states on a symbol are all in the list of a target, of which some were seen before.
    fn lead_into_target(
        &self,
        set: &[u16],
        s: Sym,
        to: u16,
        f: u16,
        r: Sym,
        seen: &mut [u16],
    ) -> bool
        requires to { to < self.now.size }
        requires second { f < self.now.states }
        requires seen { AreSeen (numbers_of_unpacked self.now) f r s seen.old }
        ensures fits { IsTrue result ↔ LeadInto (numbers_of_unpacked self.now) set.now s
            (edges_at (numbers_of_unpacked self.now) (to * self.now.states + f) r) (length set.now) }
        ensures seen { AreSeen (numbers_of_unpacked self.now) f r s seen.new }
    {
        for i in 0..set.len() {
            if !self.leads_into_target(set[i], s, to, f, r, seen) {
                return false;
            }
        }
        true
    }

    // Whether those of one state are.
    fn leads_into_target(&self, u: u16, s: Sym, to: u16, f: u16, r: Sym, seen: &mut [u16]) -> bool
        requires to { to < self.now.size }
        requires second { f < self.now.states }
        requires seen { AreSeen (numbers_of_unpacked self.now) f r s seen.old }
        ensures fits { IsTrue result ↔ LeadsInto (numbers_of_unpacked self.now) u s
            (edges_at (numbers_of_unpacked self.now) (to * self.now.states + f) r) }
        ensures seen { AreSeen (numbers_of_unpacked self.now) f r s seen.new }
    {
        if u >= self.last() {
            return false;
        }
        if seen[u as usize] == to {
            return true;
        }
        if !self.leads_into(u, s, self.row(to, f, r)) {
            return false;
        }
        seen[u as usize] = to;
        true
    }

    // Whether the edges of a list's states on a symbol are all in another list, and none is the halt state.
    fn lead_into(&self, set: &[u16], s: Sym, into: &[u16]) -> bool
        requires { IsRising into.now }
        ensures { IsTrue result ↔ LeadInto (numbers_of_unpacked self.now) set.now s into.now (length set.now) }
    {
        for i in 0..set.len() {
            if !self.leads_into(set[i], s, into) {
                return false;
            }
        }
        true
    }

    // Whether those of one state are.
    fn leads_into(&self, u: u16, s: Sym, into: &[u16]) -> bool
        requires { IsRising into.now }
        ensures { IsTrue result ↔ LeadsInto (numbers_of_unpacked self.now) u s into.now }
    {
        if u >= self.last() {
            return false;
        }
        is_part(self.row_at(u, s), into)
    }

    // What is kept.
    fn keep(&self) -> &[u16]
        ensures keep { result.now ≡ (numbers_of_unpacked self.now).keep }
        ensures rising { IsRising result.now }
    {
        &self.keep
    }

    // The edges of (q, f) on a symbol.
    fn row(&self, q: u16, f: u16, r: Sym) -> &[u16]
        requires first { q < self.now.size }
        requires second { f < self.now.states }
        ensures row { result.now ≡ edges_at (numbers_of_unpacked self.now) (q * self.now.states + f) r }
        ensures rising { IsRising result.now }
    {
        self.row_at(self.number(q, f), r)
    }

    // The edges of a state by its number.
    fn row_at(&self, j: u16, r: Sym) -> &[u16]
        requires { j < halt_number (numbers_of_unpacked self.now) }
        ensures row { result.now ≡ edges_at (numbers_of_unpacked self.now) j r }
        ensures rising { IsRising result.now }
    {
        self.rows.get(2 * j as usize + symbol_number(r))
    }

    // The number of (q, f).
    fn number(&self, q: u16, f: u16) -> u16
        requires first { q < self.now.size }
        requires second { f < self.now.states }
        ensures number { result ≡ q * self.now.states + f }
        ensures below { result < halt_number (numbers_of_unpacked self.now) }
        ensures limit { result < listed_pair_limit }
    {
        q * self.states as u16 + f
    }

    // Where the first automaton goes from q on a symbol.
    pub(crate) fn target(&self, q: u16, s: Sym) -> u16
        requires { q < self.now.size }
        ensures target { result ≡ target_of (numbers_of_unpacked self.now) q s }
        ensures below { result < self.now.size }
    {
        self.delta[2 * q as usize + symbol_number(s)]
    }
}
