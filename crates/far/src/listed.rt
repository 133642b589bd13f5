// Two automata, the second by lists, and the evidence that they fit a table.
ghost use Rattle.std.specs.Prelude.{◌≡◌, ◌+◌, ◌≤◌, IsTrue, is_some, length, decimal};
ghost use Rattle.machine_text.specs.Terms.{state_limit};
ghost use Rattle.far.specs.Limits.{listed_size_limit, listed_byte_limit};
ghost use Rattle.far.specs.ListedTexts.{automata_in};

use crate::limits::{MAX_LISTED_BYTES, MAX_LISTED_SIZE};
use crate::listed_unpacked::Unpacked;
use crate::numbers::are_texts;
use itoa::Buffer;
use kind_evidence::{Evidence, NoMemory, Refused, Verdict};
use machine_text::{Dir, Table};
use std::alloc::Global;

/// The claim that two automata fit a table, by which it never halts. The first, with the states 0 to `size` - 1,
/// reads the half tape behind the head, from far away towards the head; the side says which way is ahead. The
/// states of the second are pairs of a state of the first and a machine state, and one halt state; its edges are
/// listed, and a state that isn't listed has edges to all. The numbers are texts, borrowed, and unpacked where they
/// are checked. The automata are made for tables of so many states, and fit no other.
#[derive(Clone, Copy, Debug, PartialEq, Eq)]
pub struct Listed<'a> {
    pub(crate) states: u8,
    pub(crate) side: Dir,
    pub(crate) size: u16,
    pub(crate) delta: &'a [u8],
    pub(crate) rows: &'a [u8],
    pub(crate) keep: &'a [u8],
    ghost limits: { (1 ≤ states) × (states ≤ state_limit) × (1 ≤ size) × (size ≤ listed_size_limit) },
    ghost short: { length (decimal size) + length delta.now + length rows.now + length keep.now
        ≤ listed_byte_limit states },
    ghost given: { IsTrue (is_some (automata_in states side size delta.now rows.now keep.now)) },
}

impl<'a> Listed<'a> {
    ghost use Rattle.std.specs.Prelude.{◌↔◌, None, IfSome, IfNone, IfOk};
    ghost use Rattle.far.specs.Kind.{AreListedTexts};
    ghost use Rattle.far.specs.Claims.{AreTextsOf, texts_of};
    ghost use Rattle.far.specs.ListedTexts.{listed_texts};

    /// Whether the first automaton may have this size: from 1 to `MAX_LISTED_SIZE`.
    pub fn is_size(size: u64) -> bool
        ensures { IsTrue result ↔ ((1 ≤ size) × (size ≤ listed_size_limit)) }
    {
        1 <= size && size <= MAX_LISTED_SIZE as u64
    }

    /// Whether a record of such texts, for a table of so many states, has at most 65,000 bytes in all.
    pub fn are_short(states: u8, size: u16, delta: &[u8], rows: &[u8], keep: &[u8]) -> bool
        requires { states ≤ state_limit }
        ensures { IsTrue result ↔ (length (decimal size) + length delta.now + length rows.now + length keep.now
            ≤ listed_byte_limit states) }
    {
        let most = MAX_LISTED_BYTES - 7 * states as usize - digits_of(size);
        delta.len() <= most
            && rows.len() <= most - delta.len()
            && keep.len() <= most - delta.len() - rows.len()
    }

    /// The automata that three texts give, for tables of so many states: where the first one goes, the edges of the
    /// second, and what is kept. None where a text isn't such numbers. Takes no memory.
    pub fn new(
        states: u8,
        side: Dir,
        size: u16,
        delta: &'a [u8],
        rows: &'a [u8],
        keep: &'a [u8],
    ) -> Option<Listed<'a>>
        requires states { (1 ≤ states) × (states ≤ state_limit) }
        requires size { (1 ≤ size) × (size ≤ listed_size_limit) }
        requires short { length (decimal size) + length delta.now + length rows.now + length keep.now
            ≤ listed_byte_limit states }
        ensures some { IfSome result (λ e. texts_of e ≡ listed_texts states side size delta.now rows.now keep.now) }
        ensures given { IfSome result (λ e. IsTrue
            (is_some (automata_in states side size delta.now rows.now keep.now))) }
        ensures none { IfNone result (automata_in states side size delta.now rows.now keep.now ≡ None) }
    {
        if !are_texts(states, side, size, delta, rows, keep) {
            return None;
        }
        Some(Listed {
            states,
            side,
            size,
            delta,
            rows,
            keep,
        })
    }

    /// How many states the tables have for which the automata are made.
    pub fn states(&self) -> u8
        ensures states { result ≡ (texts_of self.now).states }
        ensures within { (1 ≤ result) × (result ≤ state_limit) }
        ensures writable { AreListedTexts (texts_of self.now) }
    {
        self.states
    }

    /// Which way is ahead.
    pub fn side(&self) -> Dir
        ensures { result ≡ (texts_of self.now).side }
    {
        self.side
    }

    /// How many states the first automaton has.
    pub fn size(&self) -> u16
        ensures size { result ≡ (texts_of self.now).size }
        ensures within { (1 ≤ result) × (result ≤ listed_size_limit) }
    {
        self.size
    }

    /// Where the first automaton goes, as text: from state q on the symbol s, number 2q + s.
    pub fn delta(&self) -> &'a [u8]
        ensures { result.now ≡ (texts_of self.now).delta }
    {
        self.delta
    }

    /// The edges of the second automaton, as text: from (q, f), whose number is j = q times `states` + f, on the
    /// symbol r, list number 2j + r: `-` to all, `.` to none, or the numbers of those to which they go.
    pub fn rows(&self) -> &'a [u8]
        ensures { result.now ≡ (texts_of self.now).rows }
    {
        self.rows
    }

    /// The states of the second automaton that are kept, as text.
    pub fn keep(&self) -> &'a [u8]
        ensures { result.now ≡ (texts_of self.now).keep }
    {
        self.keep
    }

    /// Whether the automata are those of a table.
    pub fn holds(&self, alloc: Global, t: &Table) -> Result<bool, NoMemory>
        ensures { IfOk result (λ holds. IsTrue holds ↔ AreTextsOf (texts_of self.now) t.now) }
    {
        let read = Unpacked::of_texts(
            alloc,
            self.states,
            self.side,
            self.size,
            self.delta,
            self.rows,
            self.keep,
        )?;
        match read {
            Some(numbers) => numbers.hold(alloc, t),
            // Never so: the texts were tested when the claim was made.
            None => Ok(false),
        }
    }
}

// How many digits a number has.
fn digits_of(number: u16) -> usize
    ensures digits { result ≡ length (decimal number) }
    ensures few { result ≤ 40 }
{
    let mut digits = Buffer::new();
    digits.format(u64::from(number)).len()
}

impl Evidence for Listed<'_> {
    ghost use Rattle.kind_evidence.specs.declared.verdicts.Verdict.TheVariants.{Never};
    ghost use Rattle.far.specs.Kind.{listed_kind};
    ghost use Rattle.far.specs.Claims.{texts_of};

    ghost meaning = { λ e. listed_kind.meaning (texts_of e) };

    ghost shows = { λ e p. Never };

    fn check(&self, alloc: Global, t: &Table) -> Result<Verdict, Refused> {
        // The proof needs that the texts are within their limits.
        let _ = self.states();
        if self.holds(alloc, t)? {
            Ok(Verdict::Never)
        } else {
            Err(Refused::Fails)
        }
    }

    ghost law = { λ e. listed_kind.law (texts_of e) };
}
