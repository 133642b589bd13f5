// The least closed position set of a table.
ghost use Rattle.std.specs.Prelude.{◌<◌, IfSome};
ghost use Rattle.machine_text.specs.Terms.{state_limit};

use crate::words::{Arrival, Chain, Link, Member, WORD_COUNT, Width, opposite};
use kind_evidence::NoMemory;
use machine_text::{Dir, Entry, Sym, Table};
use std::alloc::Global;

// A set of small numbers. It keeps room for the greatest that was ever in it.
#[derive(Drop)]
pub(crate) struct BitSet {
    words: Vec<u64>,
}

impl BitSet {
    // The empty set. Takes no memory.
    pub fn new(alloc: Global) -> BitSet {
        BitSet {
            words: Vec::new(alloc),
        }
    }

    pub fn contains(&self, number: usize) -> bool {
        match self.words.get(number / 64) {
            Some(word) => word >> (number % 64) & 1 == 1,
            None => false,
        }
    }

    // Puts a number in.
    pub fn insert(&mut self, number: usize) -> Result<(), NoMemory> {
        let place = number / 64;
        if self.words.len() <= place {
            self.words.resize(place + 1, 0)?;
        }
        self.words[place] |= 1 << (number % 64);
        Ok(())
    }

    // Takes a number out.
    pub fn remove(&mut self, number: usize) {
        if let Some(word) = self.words.get_mut(number / 64) {
            *word &= !(1 << (number % 64));
        }
    }
}

// The members that were found, each once.
#[derive(Drop)]
pub(crate) struct Members {
    found: Vec<Member>,
    numbers: BitSet,
}

impl Members {
    // No members. Takes no memory.
    pub fn new(alloc: Global) -> Members {
        Members {
            found: Vec::new(alloc),
            numbers: BitSet::new(alloc),
        }
    }

    // Takes all members away, in time in proportion to their number.
    pub fn clear(&mut self) {
        for member in &self.found {
            self.numbers.remove(member.number());
        }
        self.found.clear();
    }

    // Adds a member, if it isn't there yet.
    pub fn add(&mut self, member: Member) -> Result<(), NoMemory> {
        let number = member.number();
        if !self.numbers.contains(number) {
            self.found.push(member)?;
            self.numbers.insert(number)?;
        }
        Ok(())
    }

    pub fn count(&self) -> usize {
        self.found.len()
    }

    // The member that was found after so many others.
    pub fn get(&self, place: usize) -> Option<Member> {
        self.found.get(place).copied()
    }

    // The members, sorted as their texts are.
    pub fn sorted(&mut self) -> &[Member] {
        self.found.sort_unstable();
        &self.found
    }
}

// The words that may stand on a side, and the heads that have arrived there.
#[derive(Drop)]
pub(crate) struct Side {
    at: Dir,
    words: [bool; WORD_COUNT],
    arrivals: Vec<Link>,
    // Where the last arrival with each rest of a word stands.
    last: [Option<usize>; WORD_COUNT],
}

impl Side {
    // The left or the right side, with nothing there. Takes no memory.
    pub fn new(alloc: Global, at: Dir) -> Side {
        Side {
            at,
            words: [false; WORD_COUNT],
            arrivals: Vec::new(alloc),
            last: [None; WORD_COUNT],
        }
    }

    // Takes all words and arrivals away.
    pub fn clear(&mut self) {
        self.words = [false; WORD_COUNT];
        for link in &self.arrivals {
            self.last[link.arrival.rest as usize] = None;
        }
        self.arrivals.clear();
    }

    // Whether a word may stand there.
    pub fn holds(&self, word: u8) -> bool {
        self.words[word as usize]
    }

    // Lets a word stand there, and adds the members of the arrivals that waited for it.
    pub fn let_in(
        &mut self,
        width: Width,
        word: u8,
        members: &mut Members,
    ) -> Result<(), NoMemory> {
        if self.holds(word) {
            return Ok(());
        }
        self.words[word as usize] = true;
        for arrival in self.waiting(width.without(word, self.at)) {
            members.add(arrival.member(self.at, word))?;
        }
        Ok(())
    }

    // Adds the members of an arrival for the words that may stand there by now, and lets it wait for others.
    pub fn arrive(
        &mut self,
        width: Width,
        arrival: Arrival,
        members: &mut Members,
    ) -> Result<(), NoMemory> {
        for symbol in [Sym::Zero, Sym::One] {
            let word = width.with(arrival.rest, self.at, symbol);
            if self.holds(word) {
                members.add(arrival.member(self.at, word))?;
            }
        }
        self.keep(arrival)
    }

    fn keep(&mut self, arrival: Arrival) -> Result<(), NoMemory> {
        let place = self.arrivals.len();
        let earlier = self.last[arrival.rest as usize];
        self.arrivals.push(Link { arrival, earlier })?;
        self.last[arrival.rest as usize] = Some(place);
        Ok(())
    }

    // The arrivals with a rest of a word.
    fn waiting(&self, rest: u8) -> Chain<'_> {
        Chain {
            links: &self.arrivals,
            last: self.last[rest as usize],
        }
    }
}

// The least set of a width that holds the blank tape and that no step of a table leaves. Its memory is kept
// from table to table.
#[derive(Drop)]
pub(crate) struct LeastSet {
    pub left: Side,
    pub right: Side,
    pub members: Members,
}

impl LeastSet {
    // Takes no memory.
    pub fn new(alloc: Global) -> LeastSet {
        LeastSet {
            left: Side::new(alloc, Dir::L),
            right: Side::new(alloc, Dir::R),
            members: Members::new(alloc),
        }
    }

    // Computes the set, and tells whether it could: not where a member halts, nor where there are more members
    // than the limit.
    //
    // A member is stepped once, which makes one arrival. An arrival is looked at when it is made, and once
    // more for each of its two words that is let in later; it has at most two members. So there are at most
    // twice as many members as the limit, and one, and all takes time in proportion to them.
    pub fn close(&mut self, t: &Table, width: Width, limit: usize) -> Result<bool, NoMemory> {
        self.begin(width)?;
        for place in 0..limit {
            let Some(member) = self.members.get(place) else {
                return Ok(true);
            };
            let Some(entry) = entry_at(t, member) else {
                return Ok(false);
            };
            self.step(width, member, entry)?;
        }
        Ok(self.members.count() <= limit)
    }

    // The blank tape alone.
    fn begin(&mut self, width: Width) -> Result<(), NoMemory> {
        self.left.clear();
        self.right.clear();
        self.members.clear();
        self.left.let_in(width, 0, &mut self.members)?;
        self.right.let_in(width, 0, &mut self.members)?;
        self.members.add(Member::blank())
    }

    // Adds what a step of a member asks for.
    fn step(&mut self, width: Width, member: Member, entry: Entry) -> Result<(), NoMemory>
        requires { entry.next.0 < state_limit }
    {
        let dir = entry.dir;
        let back = opposite(dir);
        let (word_behind, word_ahead) = member.words(dir);
        let behind = width.with(width.without(word_behind, back), dir, entry.write);
        let arrival = Arrival {
            state: entry.next,
            read: width.end(word_ahead, back),
            behind,
            rest: width.without(word_ahead, back),
        };
        match dir {
            Dir::L => {
                self.right.let_in(width, behind, &mut self.members)?;
                self.left.arrive(width, arrival, &mut self.members)
            }
            Dir::R => {
                self.left.let_in(width, behind, &mut self.members)?;
                self.right.arrive(width, arrival, &mut self.members)
            }
        }
    }
}

// The entry of a table at the pair of a member; none where it halts, or isn't a pair of the table.
fn entry_at(t: &Table, member: Member) -> Option<Entry>
    ensures { IfSome result (λ e. e.next.0 < state_limit) }
{
    if member.state.0 < t.states() {
        t.get(member.state, member.read)
    } else {
        None
    }
}
