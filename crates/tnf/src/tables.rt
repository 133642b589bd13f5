// The tables of a tree, which states a table uses, and whether it names them in order.
ghost use Rattle.std.specs.Prelude.{◌≡◌, ℕ, ◌+◌, ◌<◌, ◌≤◌, ◌↔◌, ◌||◌, ◌==◌, true, false, IsTrue, length, take, map, slice_index_or, count_by, EachIndex, ◌*◌, Contains, AllPairs};
ghost use Rattle.std.specs.List.{range_with_len};
ghost use Rattle.std.specs.Option.{ForSome};
ghost use Rattle.std.specs.Ordering.{nat_cmp};
ghost use Rattle.std.specs.declared.cmp.Ordering.TheVariants.{Less};
ghost use Rattle.std.specs.Cmp.Lexicographic.{slice_cmp};
ghost use Rattle.machine_text.specs.Terms.{entry_of, Packed, empty_table, state_limit, text_of};
ghost use Rattle.law_tree.specs.Terms.{InOrder, is_used, used_count, children_at};
ghost use Rattle.tnf.specs.Children.{IsNumberOfUsed, IsChildAt};
ghost use Rattle.tnf.specs.inside.{is_named};

use crate::child_tables::Children;
use machine_text::{Entry, MAX_STATES, State, Sym, Table};

/// How many states a table uses: A, each state that has an entry, and each state that is a target.
pub fn used(t: &Table) -> u8
    ensures count { result ≡ used_count t.now.states (entry_of t.now) }
    ensures number { IsNumberOfUsed result (entry_of t.now) }
    ensures order { (u : ℕ) → InOrder u (entry_of t.now) → result ≡ u }
    ensures most { result ≤ t.now.states }
{
    count_used(&used_states(t)[..t.states() as usize]) as u8
}

/// Whether a table names its states in order: those that it uses are the first letters.
pub fn in_order(t: &Table) -> bool
    ensures { IsTrue result ↔ ((u : ℕ) × InOrder u (entry_of t.now)) }
{
    let used = used_states(t);
    let used = &used[..t.states() as usize];
    none_used(&used[first_unused(used)..])
}

// Which states a table uses.
fn used_states(t: &Table) -> [bool; MAX_STATES as usize]
    ensures { take t.now.states result ≡ map (is_used t.now.states (entry_of t.now)) (range_with_len 0 t.now.states) }
{
    let mut used = [false; MAX_STATES as usize];
    used[0] = true;
    for q in 0..t.states() {
        mark(&mut used, q, t.get(State(q), Sym::Zero));
        mark(&mut used, q, t.get(State(q), Sym::One));
    }
    used
}

// Marks a state that has an entry, and the target of the entry.
fn mark(used: &mut [bool], q: u8, entry: Option<Entry>)
    requires state { q < length used.old }
    requires target { ForSome entry (λ e. e.next.0 < length used.old) }
    ensures { (x : ℕ) → slice_index_or used.new x false ≡ (slice_index_or used.old x false || is_named q entry x) }
{
    if let Some(e) = entry {
        used[q as usize] = true;
        used[e.next.0 as usize] = true;
    }
}

// How many of the states are used.
fn count_used(used: &[bool]) -> usize
    ensures count { result ≡ count_by (λ is_used. is_used) used.now }
    ensures most { result ≤ length used.now }
{
    used.iter().filter(|is_used| **is_used).count()
}

// Whether none of the states is used.
fn none_used(used: &[bool]) -> bool
    ensures { IsTrue result ↔ EachIndex used.now (λ q. slice_index_or used.now q false ≡ false) }
{
    used.iter().all(|is_used| !*is_used)
}

// The index of the first state that isn't used, or their number where all are.
fn first_unused(used: &[bool]) -> usize
    ensures within { result ≤ length used.now }
    ensures before { (q : ℕ) → q < result → slice_index_or used.now q false ≡ true }
    ensures at { result < length used.now → slice_index_or used.now result false ≡ false }
{
    for (q, is_used) in used.iter().enumerate() {
        if !*is_used {
            return q;
        }
    }
    used.len()
}

/// The root of the tree of n states: the table in which each pair is undefined.
pub fn root(n: u8) -> Table
    requires some { 1 ≤ n }
    requires limit { n ≤ state_limit }
    ensures { result ≡ empty_table n }
{
    Table::empty(n)
}

/// The children of a table that halts on the pair of the state q and the symbol s, in the order of their
/// texts. The pair gets each entry whose next state is used or the first unused one, with both symbols
/// and both directions, and only to the right where the table is empty. There are none where fewer than
/// two pairs are undefined.
///
/// Which pair the run reached is the caller's to say.
pub fn children(t: &Table, q: State, s: Sym) -> Children
    requires { q.0 < t.now.states }
    ensures list { result ≡ children_at t.now q.0 s }
    ensures members { (u : ℕ) (c : Packed) → InOrder u (entry_of t.now) →
        Contains result c ↔ IsChildAt t.now u q.0 s c }
    ensures rising { AllPairs (λ a b. slice_cmp nat_cmp (text_of a) (text_of b) ≡ Less) result }
    ensures most { length result ≤ 4 * t.now.states }
{
    Children::of(t, q, s)
}
