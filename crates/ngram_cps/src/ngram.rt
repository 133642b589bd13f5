// Three lists, the evidence that they are a closed position set, and such as keep their own text.
ghost use Rattle.std.specs.Prelude.{◌≡◌, ◌+◌, ◌*◌, ◌≤◌, length, take, drop};
ghost use Rattle.machine_text.specs.Terms.{state_limit};
ghost use Rattle.ngram_cps.specs.Limits.{width_limit, list_byte_limit};
ghost use Rattle.ngram_cps.specs.Words.{AreWords, AreLocals, IsListing};

use crate::limits::{MAX_LIST_BYTES, MAX_WIDTH};
use crate::lists::{Listing, local_list, word_list};
use kind_evidence::{Evidence, NoMemory, Refused, Verdict};
use machine_text::Table;
use std::alloc::Global;

/// The claim that three lists are a closed position set of a table, by which it never halts: words of
/// `width` symbols that may stand on the left and on the right of a head, and local configurations, which are
/// a left word, a state's letter, the symbol read and a right word (`0A00`). They are texts, sorted by bytes,
/// borrowed and looked up where they stand. They are made for tables of so many states, and hold of no other.
#[derive(Clone, Copy, Debug, PartialEq, Eq)]
pub struct Ngram<'a> {
    pub(crate) states: u8,
    pub(crate) width: u8,
    pub(crate) left: Listing<'a>,
    pub(crate) right: Listing<'a>,
    pub(crate) local: Listing<'a>,
    ghost limits: { (1 ≤ width) × (width ≤ width_limit) × (states ≤ state_limit) },
    ghost short: { length left.text.now + length right.text.now + length local.text.now ≤ list_byte_limit },
    ghost widths: { (left.width ≡ width) × (right.width ≡ width) × (local.width ≡ 2 * width + 2) },
    ghost left_words: { AreWords width left.count left.text.now },
    ghost right_words: { AreWords width right.count right.text.now },
    ghost locals: { AreLocals states width local.count local.text.now },
}

impl<'a> Ngram<'a> {
    ghost use Rattle.std.specs.Prelude.{◌↔◌, IsTrue, IfSome, IfNone};
    ghost use Rattle.ngram_cps.specs.Lists.{lists, AreLists, AreWithin, IsPositionSet, lists_of};

    /// Whether words may have this width: from 1 to `MAX_WIDTH`.
    pub fn is_width(width: u64) -> bool
        ensures { IsTrue result ↔ ((1 ≤ width) × (width ≤ width_limit)) }
    {
        1 <= width && width <= MAX_WIDTH as u64
    }

    /// Whether three lists together are within `MAX_LIST_BYTES`.
    pub fn are_short(left: &[u8], right: &[u8], local: &[u8]) -> bool
        ensures { IsTrue result ↔ (length left.now + length right.now + length local.now ≤ list_byte_limit) }
    {
        left.len() <= MAX_LIST_BYTES
            && right.len() <= MAX_LIST_BYTES - left.len()
            && local.len() <= MAX_LIST_BYTES - left.len() - right.len()
    }

    /// The lists that three texts are, for tables of so many states; none where one of them isn't a list of
    /// its kind. Takes no memory.
    pub fn new(
        states: u8,
        width: u8,
        left: &'a [u8],
        right: &'a [u8],
        local: &'a [u8],
    ) -> Option<Ngram<'a>>
        requires states { (1 ≤ states) × (states ≤ state_limit) }
        requires width { (1 ≤ width) × (width ≤ width_limit) }
        requires short { length left.now + length right.now + length local.now ≤ list_byte_limit }
        ensures some { IfSome result (λ e. lists_of e ≡ lists states width left.now right.now local.now) }
        ensures lists { IfSome result (λ e. AreLists (lists states width left.now right.now local.now)) }
        ensures none { IfNone result (AreLists (lists states width left.now right.now local.now) → ⊥) }
    {
        let left = word_list(left, width)?;
        let right = word_list(right, width)?;
        let local = local_list(local, states, width)?;
        Some(Ngram {
            states,
            width,
            left,
            right,
            local,
        })
    }

    /// How many states the tables have for which the lists are made.
    pub fn states(&self) -> u8
        ensures states { result ≡ (lists_of self.now).states }
        ensures lists { AreLists (lists_of self.now) }
        ensures within { AreWithin (lists_of self.now) }
    {
        self.states
    }

    /// How many symbols a word has.
    pub fn width(&self) -> u8
        ensures width { result ≡ (lists_of self.now).width }
        ensures within { (1 ≤ result) × (result ≤ width_limit) }
    {
        self.width
    }

    /// The words on the left of a head, as text.
    pub fn left(&self) -> &'a [u8]
        ensures { result.now ≡ (lists_of self.now).left }
    {
        self.left.text
    }

    /// The words on the right.
    pub fn right(&self) -> &'a [u8]
        ensures { result.now ≡ (lists_of self.now).right }
    {
        self.right.text
    }

    /// The local configurations.
    pub fn local(&self) -> &'a [u8]
        ensures { result.now ≡ (lists_of self.now).local }
    {
        self.local.text
    }

    /// Whether the lists are a closed position set of a table. Takes no memory.
    pub fn holds(&self, t: &Table) -> bool
        ensures { IsTrue result ↔ IsPositionSet (lists_of self.now) t.now }
    {
        self.states == t.states() && self.is_closed(t)
    }
}

impl Evidence for Ngram<'_> {
    ghost use Rattle.kind_evidence.specs.declared.verdicts.Verdict.TheVariants.{Never};
    ghost use Rattle.ngram_cps.specs.Kind.{ngram_kind};
    ghost use Rattle.ngram_cps.specs.Lists.{lists_of};

    ghost meaning = { λ e. ngram_kind.meaning (lists_of e) };

    ghost shows = { λ e p. Never };

    fn check(&self, alloc: Global, t: &Table) -> Result<Verdict, Refused> {
        // The proof needs that the lists are lists, within their limits.
        let _ = self.states();
        if self.holds(t) {
            Ok(Verdict::Never)
        } else {
            Err(Refused::Fails)
        }
    }

    ghost law = { λ e. ngram_kind.law (lists_of e) };
}

/// An `Ngram` with a text of its own, for lists that are kept longer than the text from which they come: one
/// text with the three lists one behind the other, and no comma between them.
#[derive(Debug, Drop, PartialEq, Eq)]
pub struct OwnedNgram {
    text: Vec<u8>,
    left_len: u16,
    right_len: u16,
    left_count: u16,
    right_count: u16,
    local_count: u16,
    states: u8,
    width: u8,
    ghost limits: { (1 ≤ width) × (width ≤ width_limit) × (states ≤ state_limit) },
    ghost short: { (left_len + right_len ≤ length text.items) × (length text.items ≤ list_byte_limit) },
    ghost left_listing: { IsListing width left_count (take left_len text.items) },
    ghost right_listing: { IsListing width right_count (take right_len (drop left_len text.items)) },
    ghost local_listing: { IsListing (2 * width + 2) local_count (drop right_len (drop left_len text.items)) },
    ghost left_words: { AreWords width left_count (take left_len text.items) },
    ghost right_words: { AreWords width right_count (take right_len (drop left_len text.items)) },
    ghost locals: { AreLocals states width local_count (drop right_len (drop left_len text.items)) },
}

impl OwnedNgram {
    ghost use Rattle.std.specs.Prelude.{IfOk};
    ghost use Rattle.ngram_cps.specs.Lists.{lists_of, owned_lists};

    /// A copy of the lists.
    pub fn of(alloc: Global, e: &Ngram) -> Result<OwnedNgram, NoMemory>
        ensures { IfOk result (λ o. owned_lists o ≡ lists_of e.now) }
    {
        let Ngram {
            states,
            width,
            left,
            right,
            local,
        } = *e;
        let len = left.text.len() + right.text.len() + local.text.len();
        let mut text = Vec::with_capacity(alloc, len)?;
        text.extend_from_slice(left.text)?;
        text.extend_from_slice(right.text)?;
        text.extend_from_slice(local.text)?;
        Ok(OwnedNgram {
            text,
            left_len: left.text.len() as u16,
            right_len: right.text.len() as u16,
            left_count: left.small_count(),
            right_count: right.small_count(),
            local_count: local.small_count(),
            states,
            width,
        })
    }

    /// The lists, lent. Takes no memory, and looks at no byte.
    pub fn lent(&self) -> Ngram<'_>
        ensures { lists_of result ≡ owned_lists self.now }
    {
        let (left, others) = self.text.split_at(self.left_len as usize);
        let (right, local) = others.split_at(self.right_len as usize);
        let width = self.width as usize;
        Ngram {
            states: self.states,
            width: self.width,
            left: Listing {
                text: left,
                width,
                count: self.left_count as usize,
            },
            right: Listing {
                text: right,
                width,
                count: self.right_count as usize,
            },
            local: Listing {
                text: local,
                width: 2 * width + 2,
                count: self.local_count as usize,
            },
        }
    }
}
