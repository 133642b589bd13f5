// Two automata, and the evidence that they fit a table.
ghost use Rattle.std.specs.Prelude.{◌≡◌, ◌≤◌};
ghost use Rattle.machine_text.specs.Terms.{state_limit};
ghost use Rattle.far.specs.Limits.{size_limit};
ghost use Rattle.far.specs.Texts.{AreAutomata, AreSized, AreTexts};

use crate::unpacked::Unpacked;
use kind_evidence::{Evidence, Refused, Verdict};
use machine_text::{Dir, Table};
use std::alloc::Global;

/// The claim that two automata fit a table, by which it never halts. The first, with the states 0 to `size` - 1,
/// reads the half tape behind the head, from far away towards the head; the side says which way is ahead. The
/// states of the second are pairs of a state of the first and a machine state, and one halt state. The numbers of
/// the automata are texts, borrowed, and unpacked where they are checked. The automata are made for tables of so
/// many states, and fit no other.
#[derive(Clone, Copy, Debug, PartialEq, Eq)]
pub struct Far<'a> {
    pub(crate) states: u8,
    pub(crate) side: Dir,
    pub(crate) size: u8,
    pub(crate) delta: &'a [u8],
    pub(crate) rows: &'a [u8],
    pub(crate) keep: &'a [u8],
    ghost limits: { (1 ≤ states) × (states ≤ state_limit) × (1 ≤ size) × (size ≤ size_limit) },
    ghost texts: { AreTexts states size delta.now rows.now keep.now },
}

impl<'a> Far<'a> {
    ghost use Rattle.std.specs.Prelude.{◌↔◌, IsTrue, IfSome, IfNone};
    ghost use Rattle.far.specs.Texts.{automata_by, delta_text, rows_text, hex_text, AreAutomataOf};
    ghost use Rattle.far.specs.Claims.{automata_of};

    /// The automata that three texts give, for tables of so many states: where the first one goes, digit by digit;
    /// the edges of the second, and what is kept, in hexadecimal. None where a text isn't such numbers. Takes no
    /// memory.
    pub fn new(
        states: u8,
        side: Dir,
        size: u8,
        delta: &'a [u8],
        rows: &'a [u8],
        keep: &'a [u8],
    ) -> Option<Far<'a>>
        requires states { (1 ≤ states) × (states ≤ state_limit) }
        requires size { (1 ≤ size) × (size ≤ size_limit) }
        ensures some { IfSome result (λ e. automata_of e ≡ automata_by states side size delta.now rows.now keep.now) }
        ensures texts { IfSome result (λ e. AreTexts states size delta.now rows.now keep.now) }
        ensures none { IfNone result (AreTexts states size delta.now rows.now keep.now → ⊥) }
    {
        let _ = Unpacked::of_texts(states, side, size, delta, rows, keep)?;
        Some(Far {
            states,
            side,
            size,
            delta,
            rows,
            keep,
        })
    }

    /// How many states the tables have for which the automata are made.
    pub fn states(&self) -> u8
        ensures states { result ≡ (automata_of self.now).states }
        ensures within { (1 ≤ result) × (result ≤ state_limit) }
        ensures numbers { AreAutomata (automata_of self.now) }
        ensures limits { AreSized (automata_of self.now) }
    {
        self.states
    }

    /// Which way is ahead.
    pub fn side(&self) -> Dir
        ensures { result ≡ (automata_of self.now).side }
    {
        self.side
    }

    /// How many states the first automaton has.
    pub fn size(&self) -> u8
        ensures size { result ≡ (automata_of self.now).size }
        ensures within { (1 ≤ result) × (result ≤ size_limit) }
    {
        self.size
    }

    /// Where the first automaton goes, as text: from state q on the symbol s, number 2q + s, a digit each.
    pub fn delta(&self) -> &'a [u8]
        ensures { result.now ≡ delta_text (automata_of self.now).delta }
    {
        self.delta
    }

    /// The edges of the second automaton, as text: from (q, f), whose number is j = q times `states` + f, on the
    /// symbol r, number 2j + r. In a set a bit stands for the state of its number; the halt state is the last.
    pub fn rows(&self) -> &'a [u8]
        ensures { result.now ≡ rows_text (automata_of self.now).rows }
    {
        self.rows
    }

    /// The states of the second automaton that are kept, as text.
    pub fn keep(&self) -> &'a [u8]
        ensures { result.now ≡ hex_text (automata_of self.now).keep }
    {
        self.keep
    }

    /// Whether the automata are those of a table. Takes no memory.
    pub fn holds(&self, t: &Table) -> bool
        ensures { IsTrue result ↔ AreAutomataOf (automata_of self.now) t.now }
    {
        match Unpacked::of_texts(
            self.states,
            self.side,
            self.size,
            self.delta,
            self.rows,
            self.keep,
        ) {
            Some(numbers) => numbers.hold(t),
            // Never comes: the texts were read before.
            None => false,
        }
    }
}

impl Evidence for Far<'_> {
    ghost use Rattle.kind_evidence.specs.declared.verdicts.Verdict.TheVariants.{Never};
    ghost use Rattle.far.specs.Claims.{automata_of};
    ghost use Rattle.far.specs.Kind.{far_kind};

    ghost meaning = { λ e. far_kind.meaning (automata_of e) };

    ghost shows = { λ e p. Never };

    fn check(&self, alloc: Global, t: &Table) -> Result<Verdict, Refused> {
        // The proof needs that the numbers are those of automata, within their limits.
        let _ = self.states();
        if self.holds(t) {
            Ok(Verdict::Never)
        } else {
            Err(Refused::Fails)
        }
    }

    ghost law = { λ e. far_kind.law (automata_of e) };
}
