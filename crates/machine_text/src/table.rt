// A table, one byte an entry, and its parts: states, symbols, directions, pairs and entries.
ghost use Rattle.std.specs.Prelude.{◌≡◌, ◌==◌, ◌<◌, ℕ, None, ◌+◌, ◌*◌, ◌≤◌, ◌≢◌, IfSome, Ok, [], ◌∷◌, ◌++◌, length, take, drop, slice_index, EachIndex, count_by};
ghost use Rattle.std.specs.Option.{ForSome};
ghost use Rattle.machine_text.specs.Packed.{code_of, coded_entry, pair_place};
ghost use Rattle.machine_text.specs.Limits.{state_limit, text_byte_limit};
ghost use Rattle.machine_text.specs.inside.{word_of};

use crate::grammar;
use crate::grammar::TextFault;
use crate::limits::{MAX_ENTRIES, TEXT_BYTES};
use std::cmp::Ordering;
use std::marker::Model;

/// A state by its number: 0 is A, the state in which each run starts.
#[derive(Clone, Copy, Debug, PartialEq, Eq, PartialOrd, Ord, Hash)]
pub struct State(pub u8);

/// One of the two symbols of the tape; the blank one is `Zero`.
#[derive(Clone, Copy, Debug, PartialEq, Eq, PartialOrd, Ord, Hash)]
pub enum Sym {
    Zero,
    One,
}

/// The direction of a move.
#[derive(Clone, Copy, Debug, PartialEq, Eq, PartialOrd, Ord, Hash)]
pub enum Dir {
    L,
    R,
}

/// A pair of a state and a symbol read: a table has an entry or none at it.
#[derive(Clone, Copy, Debug, PartialEq, Eq, PartialOrd, Ord, Hash)]
pub struct Pair {
    pub state: State,
    pub symbol: Sym,
}

/// What a machine does on one pair of a state and a symbol read.
#[derive(Clone, Copy, Debug, PartialEq, Eq, PartialOrd, Ord, Hash)]
pub struct Entry {
    pub write: Sym,
    pub dir: Dir,
    pub next: State,
}

/// An entry or none as one byte, which rises as the text of the entry does; 0 is for none.
#[derive(Clone, Copy, Debug, PartialEq, Eq, PartialOrd, Ord, Hash)]
pub(crate) struct Code {
    byte: u8,
}

impl Model for Code {
    ghost use Rattle.std.specs.Prelude.{ℕ};

    ghost Value = { ℕ };

    ghost view = { λ a. a.byte };

    ghost inverse = { λ n. record { byte = n } };
}

impl Code {
    /// The code of an undefined entry.
    pub const UNDEFINED: Code = Code { byte: 0 };

    /// The code of an entry.
    pub fn of(e: Option<Entry>) -> Code
        requires { ForSome e (λ e. e.next.0 < 8) }
        ensures { result ≡ code_of e }
    {
        let byte = match e {
            None => 0,
            Some(e) => 16 * e.write as u8 + 8 * e.dir as u8 + e.next.0 + 1,
        };
        Code { byte }
    }

    /// The entry whose code this is, or none.
    #[inline]
    pub fn entry(self) -> Option<Entry>
        ensures { result ≡ coded_entry self }
    {
        let bits = self.byte.checked_sub(1)?;
        Some(Entry {
            write: if bits / 16 == 0 { Sym::Zero } else { Sym::One },
            dir: if bits / 8 % 2 == 0 { Dir::L } else { Dir::R },
            next: State(bits % 8),
        })
    }

    /// The byte itself.
    #[inline]
    pub fn byte(self) -> u8
        ensures { result ≡ self }
    {
        self.byte
    }

    /// Whether the code is that of no entry.
    pub fn is_undefined(self) -> bool
        ensures { result ≡ (self == 0) }
    {
        self.byte == 0
    }
}

/// The table of an n-state two-symbol machine (Radó 1962): at each pair of a state and a symbol read
/// an entry or none. A pair without an entry halts.
///
/// Tables are compared by the bytes of their texts.
#[derive(Clone, Copy, Debug, PartialEq, Eq, Hash)]
pub struct Table {
    codes: [Code; MAX_ENTRIES],
    states: u8,
}

impl Model for Table {
    ghost use Rattle.machine_text.specs.Packed.{Packed, IsTable};

    ghost Value = { Packed };

    ghost view = { λ a. record { codes = a.codes; states = a.states } };

    ghost invariant = { λ a. IsTable (record { codes = a.codes; states = a.states }) };

    ghost inverse = { λ p. record { codes = p.codes; states = p.states } };
}

impl PartialOrd for Table {
    ghost use Rattle.std.specs.Cmp.{partial_order_from_own_ties};
    ghost use Rattle.std.specs.Ordering.{as_partial_cmp};
    ghost use Rattle.std.specs.Cmp.Rules.{comparing};
    ghost use Rattle.std.proofs.Common.{rules};
    ghost use Rattle.machine_text.specs.Packed.{table_cmp, table_ties};

    ghost partial_cmp = { as_partial_cmp table_cmp };

    ghost laws = { partial_order_from_own_ties (Prim.search (comparing, rules)) table_ties };

    fn partial_cmp(&self, other: &Table) -> Option<Ordering> {
        Some(self.cmp(other))
    }
}

// By hand, since maps of tables compare them all the time: two words in place of a loop over bytes.
impl Ord for Table {
    ghost use Rattle.std.specs.Cmp.Rules.{comparing};
    ghost use Rattle.std.proofs.Common.{rules};
    ghost use Rattle.machine_text.specs.Packed.{table_cmp, table_ties};

    ghost cmp = { table_cmp };

    ghost total = { Prim.search (comparing, rules) };

    ghost matches_partial_cmp = { Prim.search (comparing, rules) };

    ghost matches_eq = { table_ties };

    fn cmp(&self, other: &Table) -> Ordering {
        let first = self.first_word().cmp(&other.first_word());
        first.then(self.last_word().cmp(&other.last_word()))
    }
}

impl Table {
    ghost use Rattle.machine_text.specs.Packed.{IsTable, entry_of, filled, with_entry, empty_table, holes};
    ghost use Rattle.machine_text.specs.declared.table.Sym.{Sym as Symbol};
    ghost use Rattle.machine_text.specs.Text.{table_of, text_of};

    /// The table of n states in which each pair is undefined.
    pub fn empty(n: u8) -> Table
        requires some { 1 ≤ n }
        requires limit { n ≤ state_limit }
        ensures states { result.states ≡ n }
        ensures entries { (q : ℕ) (s : Symbol) → entry_of result q s ≡ None }
        ensures table { result ≡ empty_table n }
    {
        Table {
            codes: [Code::UNDEFINED; MAX_ENTRIES],
            states: n,
        }
    }

    /// How many states the table has.
    pub fn states(&self) -> u8
        ensures states { result ≡ self.now.states }
        ensures table { IsTable self.now }
    {
        self.states
    }

    /// The table that a text names in the bbchallenge standard format, or the leftmost fault. A halting
    /// entry is written `---`, or with the letter `Z` or `H` for its next state, and is read as undefined.
    pub fn parse(text: &[u8]) -> Result<Table, TextFault>
        ensures { result ≡ table_of text.now }
    {
        let Some(states) = grammar::states_in(text) else {
            return Err(TextFault::BadLength);
        };
        match grammar::codes_named(states, text) {
            Some(codes) => Ok(Table { codes, states }),
            None => Err(grammar::leftmost_fault(states, text)),
        }
    }

    /// The table's text, written into `buf`: the rows of its states with `_` between them, an undefined
    /// entry as `---`. Parsing it gives the table again.
    pub fn text<'a>(&self, buf: &'a mut [u8; TEXT_BYTES]) -> &'a [u8]
        ensures text { result.now ≡ text_of self.now }
        ensures limit { TEXT_BYTES ≡ text_byte_limit }
        ensures length { length result.now + 1 ≡ 7 * self.now.states }
        ensures no_halting_letter { EachIndex result.now (λ k. (slice_index result.now k ≢ 72)
            × (slice_index result.now k ≢ 90)) }
        ensures parses { table_of result.now ≡ Ok self.now }
    {
        buf.fill(b'_');
        for row in 0..self.states as usize {
            grammar::put_entry(self.codes[2 * row].entry(), 7 * row, buf);
            grammar::put_entry(self.codes[2 * row + 1].entry(), 7 * row + 3, buf);
        }
        &buf[..7 * self.states as usize - 1]
    }

    /// The entry at a state of the table and a symbol; none where the pair halts.
    #[inline]
    #[tactic(auto, unfolding(crate::specs::Packed::entry_of))]
    pub fn get(&self, q: State, s: Sym) -> Option<Entry>
        requires { q.0 < self.now.states }
        ensures entry { result ≡ entry_of self.now q.0 s }
        ensures next { IfSome result (λ e. e.next.0 < self.now.states) }
    {
        self.codes[pair_place(q, s)].entry()
    }

    /// The table with this entry at a pair, in place of what was there, and all others as they are.
    pub fn filled(&self, q: State, s: Sym, e: Entry) -> Table
        requires at { q.0 < self.now.states }
        requires next { e.next.0 < self.now.states }
        ensures states { result.states ≡ self.now.states }
        ensures entries { (p : ℕ) (r : Symbol) → entry_of result p r ≡ filled (entry_of self.now) q.0 s e p r }
        ensures table { result ≡ with_entry self.now q.0 s e }
    {
        let mut codes = self.codes;
        codes[pair_place(q, s)] = Code::of(Some(e));
        Table {
            codes,
            states: self.states,
        }
    }

    /// How many pairs have no entry.
    pub fn undefined_count(&self) -> u8
        ensures count { result ≡ holes self.now.states (entry_of self.now) }
        ensures all { result ≤ 2 * self.now.states }
    {
        undefined_among(&self.codes[..2 * self.states as usize]) as u8
    }

    // The first eight codes as one number, in whose order they are.
    #[inline]
    fn first_word(&self) -> u64
        ensures word { result ≡ word_of (take 8 self.now.codes) }
        ensures table { IsTable self.now }
    {
        let codes = &self.codes;
        u64::from_be_bytes([
            codes[0].byte(),
            codes[1].byte(),
            codes[2].byte(),
            codes[3].byte(),
            codes[4].byte(),
            codes[5].byte(),
            codes[6].byte(),
            codes[7].byte(),
        ])
    }

    // The other codes and the number of states likewise. The eighth code is in both words, so that each of
    // them can be read at once.
    #[inline]
    fn last_word(&self) -> u64
        ensures { result ≡ word_of (drop 7 self.now.codes ++ self.now.states ∷ []) }
    {
        let codes = &self.codes;
        u64::from_be_bytes([
            codes[7].byte(),
            codes[8].byte(),
            codes[9].byte(),
            codes[10].byte(),
            codes[11].byte(),
            codes[12].byte(),
            codes[13].byte(),
            self.states,
        ])
    }
}

// How many of the codes are those of no entry.
fn undefined_among(codes: &[Code]) -> usize
    ensures count { result ≡ count_by (λ k. k == 0) codes.now }
    ensures all { result ≤ length codes.now }
{
    codes.iter().filter(|code| code.is_undefined()).count()
}

// The place of a pair among the codes.
#[inline]
fn pair_place(q: State, s: Sym) -> usize
    ensures { result ≡ pair_place q.0 s }
{
    2 * q.0 as usize + s as usize
}
