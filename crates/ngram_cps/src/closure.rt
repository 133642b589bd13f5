// Whether three lists hold the blank tape, and no step of a table leaves them.
ghost use Rattle.std.specs.Prelude.{◌≡◌, ◌≤◌, [], ◌∷◌, ◌++◌, length, replicate, ◌↔◌, ◌+◌, ◌-◌, ◌*◌, ◌<◌, IsTrue};
ghost use Rattle.machine_text.specs.Terms.{symbol_byte, state_limit, entry_of, symbol_of};
ghost use Rattle.ngram_cps.specs.Limits.{width_limit};
ghost use Rattle.ngram_cps.specs.inside.{HasWidth, left_after, right_seen, local_right, right_after, left_seen, local_left, FollowsRight, FollowsLeft, StepsRight, StepsLeft, GoesOn, EachGoesOn, HoldBlank};
ghost use Rattle.law_turing.specs.Terms.{IsClosedSet};
ghost use Rattle.ngram_cps.specs.Words.{IsItem, IsLocalText};
ghost use Rattle.ngram_cps.specs.Lists.{IsPositionSet, lists_of};

use crate::fields::Draft;
use crate::ngram::Ngram;
use machine_text::{Dir, Entry, State, Sym, Table};

// The left word after a move to the right, which ends with the written symbol.
pub(crate) fn left_after(g: usize, bytes: &[u8], write: u8) -> Draft
    requires { HasWidth g bytes.now }
    ensures text { result ≡ left_after g bytes.now write }
    ensures size { length result ≡ g }
{
    let mut word = Draft::new();
    word.push_all(&bytes[1..g]);
    word.push(write);
    word
}

// The right word after it, which ends with the symbol that comes into view.
pub(crate) fn right_seen(g: usize, bytes: &[u8], seen: u8) -> Draft
    requires { HasWidth g bytes.now }
    ensures text { result ≡ right_seen g bytes.now seen }
    ensures size { length result ≡ g }
{
    let mut word = Draft::new();
    word.push_all(&bytes[g + 3..2 * g + 2]);
    word.push(seen);
    word
}

// What then stands around the head.
pub(crate) fn local_right(g: usize, bytes: &[u8], write: u8, next: u8, seen: u8) -> Draft
    requires { HasWidth g bytes.now }
    ensures { result ≡ local_right g bytes.now write next seen }
{
    let mut local = left_after(g, bytes, write);
    local.push(next);
    local.push(bytes[g + 2]);
    local.push_all(right_seen(g, bytes, seen).as_slice());
    local
}

// The right word after a move to the left, which begins with the written symbol.
pub(crate) fn right_after(g: usize, bytes: &[u8], write: u8) -> Draft
    requires { HasWidth g bytes.now }
    ensures text { result ≡ right_after g bytes.now write }
    ensures size { length result ≡ g }
{
    let mut word = Draft::new();
    word.push(write);
    word.push_all(&bytes[g + 2..2 * g + 1]);
    word
}

// The left word after it, which begins with the symbol that comes into view.
pub(crate) fn left_seen(g: usize, bytes: &[u8], seen: u8) -> Draft
    requires { HasWidth g bytes.now }
    ensures text { result ≡ left_seen g bytes.now seen }
    ensures size { length result ≡ g }
{
    let mut word = Draft::new();
    word.push(seen);
    word.push_all(&bytes[..g - 1]);
    word
}

// What then stands around the head.
pub(crate) fn local_left(g: usize, bytes: &[u8], write: u8, next: u8, seen: u8) -> Draft
    requires { HasWidth g bytes.now }
    ensures { result ≡ local_left g bytes.now write next seen }
{
    let mut local = left_seen(g, bytes, seen);
    local.push(next);
    local.push(bytes[g - 1]);
    local.push_all(right_after(g, bytes, write).as_slice());
    local
}

// A word of zeros.
pub(crate) fn zeros(g: usize) -> Draft
    requires { g ≤ width_limit }
    ensures { result ≡ replicate g 48 }
{
    let mut word = Draft::new();
    for i in 0..g {
        word.push(b'0');
    }
    word
}

// What stands around the head at the beginning: state A on the blank tape.
pub(crate) fn blank_local(g: usize) -> Draft
    requires { g ≤ width_limit }
    ensures { result ≡ replicate g 48 ++ 65 ∷ 48 ∷ replicate g 48 }
{
    let mut local = zeros(g);
    local.push(b'A');
    local.push(b'0');
    local.push_all(zeros(g).as_slice());
    local
}

// The byte of a symbol.
pub(crate) fn symbol_byte(symbol: Sym) -> u8
    ensures { result ≡ symbol_byte symbol }
{
    match symbol {
        Sym::Zero => b'0',
        Sym::One => b'1',
    }
}

impl Ngram<'_> {
    // Whether the lists are closed under the steps of a table of their number of states.
    pub(crate) fn is_closed(&self, t: &Table) -> bool
        requires { self.now.states ≡ t.now.states }
        ensures { IsTrue result ↔ IsPositionSet (lists_of self.now) t.now }
    {
        if !self.holds_blank() {
            return false;
        }
        self.each_goes_on(t)
    }

    // Whether the blank tape is in the lists.
    fn holds_blank(&self) -> bool
        ensures { IsTrue result ↔ HoldBlank (lists_of self.now) }
    {
        let g = self.width as usize;
        let word = zeros(g);
        if !self.left.contains(word.as_slice()) {
            return false;
        }
        if !self.right.contains(word.as_slice()) {
            return false;
        }
        self.local.contains(blank_local(g).as_slice())
    }

    // Whether each local configuration has a step, which stays in the lists.
    fn each_goes_on(&self, t: &Table) -> bool
        requires { self.now.states ≡ t.now.states }
        ensures { IsTrue result ↔ EachGoesOn (entry_of t.now) (lists_of self.now) self.now.local.count }
    {
        for k in 0..self.local.count {
            if !self.goes_on(t, self.local.item(k)) {
                return false;
            }
        }
        true
    }

    // Whether one has.
    #[tactic(auto, unfolding(crate::specs::inside::GoesOn))]
    fn goes_on(&self, t: &Table, bytes: &[u8]) -> bool
        requires states { self.now.states ≡ t.now.states }
        requires size { length bytes.now ≡ 2 * self.now.width + 2 }
        requires local { IsLocalText self.now.states self.now.width bytes.now }
        ensures { IsTrue result ↔ GoesOn (entry_of t.now) (lists_of self.now) bytes.now }
    {
        let g = self.width as usize;
        let state = State(bytes[g] - b'A');
        let read = symbol_of(bytes[g + 1]);
        let Some(entry) = t.get(state, read) else {
            return false;
        };
        match entry.dir {
            Dir::L => self.steps_left(bytes, entry),
            Dir::R => self.steps_right(bytes, entry),
        }
    }

    fn steps_right(&self, bytes: &[u8], entry: Entry) -> bool
        requires size { length bytes.now ≡ 2 * self.now.width + 2 }
        requires next { entry.next.0 < state_limit }
        ensures { IsTrue result ↔ StepsRight (lists_of self.now) bytes.now entry }
    {
        if !self.leaves_left(bytes, entry) {
            return false;
        }
        if !self.follows_right(bytes, entry, b'0') {
            return false;
        }
        self.follows_right(bytes, entry, b'1')
    }

    fn steps_left(&self, bytes: &[u8], entry: Entry) -> bool
        requires size { length bytes.now ≡ 2 * self.now.width + 2 }
        requires next { entry.next.0 < state_limit }
        ensures { IsTrue result ↔ StepsLeft (lists_of self.now) bytes.now entry }
    {
        if !self.leaves_right(bytes, entry) {
            return false;
        }
        if !self.follows_left(bytes, entry, b'0') {
            return false;
        }
        self.follows_left(bytes, entry, b'1')
    }

    // Whether the left word after a move to the right is in its list.
    fn leaves_left(&self, bytes: &[u8], entry: Entry) -> bool
        requires { length bytes.now ≡ 2 * self.now.width + 2 }
        ensures { IsTrue result ↔ IsItem self.now.width self.now.left.text.now
            (left_after self.now.width bytes.now (symbol_byte entry.write)) }
    {
        self.left.contains(left_after(
            self.width as usize,
            bytes,
            symbol_byte(entry.write),
        ).as_slice())
    }

    // Whether the right word after a move to the left is in its list.
    fn leaves_right(&self, bytes: &[u8], entry: Entry) -> bool
        requires { length bytes.now ≡ 2 * self.now.width + 2 }
        ensures { IsTrue result ↔ IsItem self.now.width self.now.right.text.now
            (right_after self.now.width bytes.now (symbol_byte entry.write)) }
    {
        self.right.contains(right_after(
            self.width as usize,
            bytes,
            symbol_byte(entry.write),
        ).as_slice())
    }

    // Whether what stands around the head after a move to the right is in its list, if the right word with
    // the symbol that comes into view is.
    fn follows_right(&self, bytes: &[u8], entry: Entry, seen: u8) -> bool
        requires size { length bytes.now ≡ 2 * self.now.width + 2 }
        requires next { entry.next.0 < state_limit }
        ensures { IsTrue result ↔ FollowsRight (lists_of self.now) bytes.now entry seen }
    {
        let g = self.width as usize;
        if !self.right.contains(right_seen(g, bytes, seen).as_slice()) {
            return true;
        }
        let next = b'A' + entry.next.0;
        self.local.contains(local_right(g, bytes, symbol_byte(entry.write), next, seen).as_slice())
    }

    // Whether what follows by a move to the left is there.
    fn follows_left(&self, bytes: &[u8], entry: Entry, seen: u8) -> bool
        requires size { length bytes.now ≡ 2 * self.now.width + 2 }
        requires next { entry.next.0 < state_limit }
        ensures { IsTrue result ↔ FollowsLeft (lists_of self.now) bytes.now entry seen }
    {
        let g = self.width as usize;
        if !self.left.contains(left_seen(g, bytes, seen).as_slice()) {
            return true;
        }
        let next = b'A' + entry.next.0;
        self.local.contains(local_left(g, bytes, symbol_byte(entry.write), next, seen).as_slice())
    }
}

// The symbol of a byte.
fn symbol_of(byte: u8) -> Sym
    ensures { result ≡ symbol_of (byte - 48) }
{
    if byte <= b'0' { Sym::Zero } else { Sym::One }
}
