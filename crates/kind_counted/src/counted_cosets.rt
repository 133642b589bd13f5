// Counted automata with their cosets, and the evidence that they stand for a table.
ghost use Rattle.kind_counted.specs.Kind.{AreCosetTexts};
ghost use Rattle.kind_counted.specs.OwnedCosets.{texts_given};

use crate::form::Refused as Failed;
use crate::limits::MAX_COSET_BYTES;
use crate::texts_given::TextsGiven;
use kind_evidence::{Evidence, Refused, Verdict};
use machine_text::Table;
use std::alloc::Global;
use text::FieldFault;

/// The claim that two counted automata and cosets stand for a table, by which it never halts. The automata read the
/// two half tapes, each from far away towards the head, and count how often some of their transitions are taken; what
/// can stand around the head comes with a coset of a lattice, in which the counts lie (equations as in Karr 1976,
/// congruences as in Granger 1991; with one weight bbchallenge's MITMWFAR). The numbers are texts, borrowed, and read
/// where they are checked. The claim is made for tables of so many states, and for no others. Where a number over 2^31
/// comes up when it is judged, it is `TooWide`, though it may stand.
#[derive(Clone, Copy, Debug, PartialEq, Eq)]
pub struct CountedCosets<'a> {
    pub(crate) texts: TextsGiven<'a>,
    ghost are: { AreCosetTexts (texts_given texts) },
}

impl<'a> CountedCosets<'a> {
    ghost use Rattle.std.specs.Prelude.{◌≡◌, ◌+◌, ◌≤◌, ◌↔◌, IsTrue, Err, OnOk, length};
    ghost use Rattle.machine_text.specs.Terms.{state_limit};
    ghost use Rattle.text.specs.Terms.{made_of};
    ghost use Rattle.kind_counted.specs.Kind.{coset_texts, AreCosetsOf, cosets_by};
    ghost use Rattle.kind_counted.specs.CountedCosets.{coset_texts_of};
    ghost use Rattle.kind_counted.specs.Limits.{coset_byte_limit, count_limit};

    /// The claim that three texts make, for tables of so many states, where the left and the right automaton have so
    /// many counts. It is `TooLong` where the texts together have over `MAX_COSET_BYTES`, `BadList` where they are no
    /// such texts. Takes no memory.
    pub fn new(
        states: u8,
        left_counts: u8,
        right_counts: u8,
        left: &'a [u8],
        right: &'a [u8],
        cosets: &'a [u8],
    ) -> Result<CountedCosets<'a>, FieldFault>
        requires states { (1 ≤ states) × (states ≤ state_limit) }
        requires counts { left_counts + right_counts ≤ count_limit }
        ensures { made_of coset_texts_of result ≡
            cosets_by (coset_texts states left_counts right_counts left.now right.now cosets.now) }
    {
        if !CountedCosets::are_short(left, right, cosets) {
            return Err(FieldFault::TooLong);
        }
        let texts = TextsGiven {
            states,
            left_counts,
            right_counts,
            left,
            right,
            cosets,
        };
        if !texts.are_read() {
            return Err(FieldFault::BadList);
        }
        Ok(CountedCosets { texts })
    }

    // Whether three texts together are within `MAX_COSET_BYTES`.
    fn are_short(left: &[u8], right: &[u8], cosets: &[u8]) -> bool
        ensures { IsTrue result ↔ (length left.now + length right.now + length cosets.now ≤ coset_byte_limit) }
    {
        left.len() <= MAX_COSET_BYTES
            && right.len() <= MAX_COSET_BYTES - left.len()
            && cosets.len() <= MAX_COSET_BYTES - left.len() - right.len()
    }

    // Whether the counted automata are of a table. Reads the texts into memory.
    fn judged(&self, alloc: Global, t: &Table) -> Result<(), Refused>
        ensures stands { OnOk result (AreCosetsOf (coset_texts_of self.now) t.now) }
        ensures fails { result ≡ Err Refused.Fails → AreCosetsOf (coset_texts_of self.now) t.now → ⊥ }
        ensures long { result ≡ Err Refused.TooLong → ⊥ }
        ensures seen { result ≡ Err Refused.NotSeen → ⊥ }
    {
        if t.states() != self.texts.states {
            return Err(Refused::Fails);
        }
        match self.texts.read(alloc)? {
            Some(counted) => match counted.check(alloc, t) {
                Ok(()) => Ok(()),
                Err(Failed::Fails) => Err(Refused::Fails),
                Err(Failed::TooLarge) => Err(Refused::TooWide),
                Err(Failed::NoMemory) => Err(Refused::NoMemory),
            },
            // Never: the texts were tested before.
            None => Err(Refused::Fails),
        }
    }
}

impl Evidence for CountedCosets<'_> {
    ghost use Rattle.kind_evidence.specs.declared.verdicts.Verdict.TheVariants.{Never};
    ghost use Rattle.kind_counted.specs.Kind.{counted_kind};
    ghost use Rattle.kind_counted.specs.CountedCosets.{coset_texts_of};

    ghost meaning = { λ e. counted_kind.meaning (coset_texts_of e) };

    ghost shows = { λ e p. Never };

    fn check(&self, alloc: Global, t: &Table) -> Result<Verdict, Refused> {
        // The proof needs that the texts are within their limits.
        let _ = &self.texts;
        self.judged(alloc, t)?;
        Ok(Verdict::Never)
    }

    ghost law = { λ e. counted_kind.law (coset_texts_of e) };
}
