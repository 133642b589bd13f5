// Automata that keep their own texts.
ghost use Rattle.std.specs.Prelude.{◌≡◌, ◌+◌, ◌*◌, ◌≤◌, length, IsTrue, is_some, take, drop, decimal};
ghost use Rattle.machine_text.specs.Terms.{state_limit};
ghost use Rattle.far.specs.Limits.{size_limit, listed_size_limit, listed_byte_limit};
ghost use Rattle.far.specs.Texts.{owned_delta, owned_rows, owned_keep, AreTexts};
ghost use Rattle.far.specs.ListedTexts.{automata_in};

use crate::far::Far;
use crate::least_edges::LeastEdges;
use crate::listed::Listed;
use crate::numbers::{append_delta, append_hex, append_rows};
use crate::unpacked::Unpacked;
use find_automata::Automaton;
use kind_evidence::NoMemory;
use machine_text::{Dir, Table};
use std::alloc::Global;

/// A `Far` with a text of its own, for automata that are kept longer than the text from which they come: one text with
/// the three texts one behind another, and nothing between them.
#[derive(Debug, Drop)]
pub struct OwnedFar {
    text: Vec<u8>,
    row_bytes: usize,
    states: u8,
    side: Dir,
    size: u8,
    ghost limits: { (1 ≤ states) × (states ≤ state_limit) × (1 ≤ size) × (size ≤ size_limit) },
    ghost room: { 2 * size + row_bytes ≤ length text.items },
    ghost texts: { AreTexts states size (owned_delta size text.items) (owned_rows size row_bytes text.items)
        (owned_keep size row_bytes text.items) },
}

impl OwnedFar {
    ghost use Rattle.std.specs.Prelude.{IfOk, IfSome};
    ghost use Rattle.far.specs.Texts.{AreAutomataOf};
    ghost use Rattle.far.specs.Claims.{automata_of, owned_automata};
    ghost use Rattle.far.specs.inside.Unpacked.{unpacked_of};

    /// A copy of a claim.
    pub fn of(alloc: Global, e: &Far) -> Result<OwnedFar, NoMemory>
        ensures { IfOk result (λ o. owned_automata o ≡ automata_of e.now) }
    {
        let Far {
            states,
            side,
            size,
            delta,
            rows,
            keep,
        } = *e;
        let mut text = Vec::with_capacity(alloc, delta.len() + rows.len() + keep.len())?;
        text.extend_from_slice(delta)?;
        text.extend_from_slice(rows)?;
        text.extend_from_slice(keep)?;
        Ok(OwnedFar {
            text,
            row_bytes: rows.len(),
            states,
            side,
            size,
        })
    }

    // The claim that numbers make, as text.
    pub(crate) fn of_numbers(alloc: Global, numbers: &Unpacked) -> Result<OwnedFar, NoMemory>
        ensures { IfOk result (λ o. owned_automata o ≡ unpacked_of numbers.now) }
    {
        let delta = numbers.delta();
        let mut text = Vec::new(alloc);
        append_delta(delta, &mut text)?;
        append_rows(numbers.rows(), &mut text)?;
        let row_bytes = text.len() - delta.len();
        append_hex(numbers.keep, &mut text)?;
        Ok(OwnedFar {
            text,
            row_bytes,
            states: numbers.states,
            side: numbers.side,
            size: numbers.size,
        })
    }

    /// The automata of a first one and the least second one that goes with it, if they are those of a table and of no
    /// more states than this.
    pub fn of_first(
        alloc: Global,
        first: &Automaton,
        t: &Table,
        most: u8,
    ) -> Result<Option<OwnedFar>, NoMemory>
        ensures found { IfOk result (λ o. IfSome o (λ e. AreAutomataOf (owned_automata e) t.now)) }
        ensures size { IfOk result (λ o. IfSome o (λ e. (owned_automata e).size ≤ most)) }
    {
        let edges = LeastEdges::new(t, first.side, first.size, first.delta);
        let Some(automata) = edges.automata() else {
            return Ok(None);
        };
        if automata.size > most || !automata.hold(t) {
            return Ok(None);
        }
        Ok(Some(OwnedFar::of_numbers(alloc, &automata)?))
    }

    /// The claim, lent. Takes no memory, and looks at no byte.
    pub fn lent(&self) -> Far<'_>
        ensures { automata_of result ≡ owned_automata self.now }
    {
        let (delta, others) = self.text.split_at(2 * self.size as usize);
        let (rows, keep) = others.split_at(self.row_bytes);
        Far {
            states: self.states,
            side: self.side,
            size: self.size,
            delta,
            rows,
            keep,
        }
    }
}

/// A `Listed` with a text of its own, for automata that are kept longer than the text from which they come: one text
/// with the three texts one behind another, and nothing between them.
#[derive(Debug, Drop)]
pub struct OwnedListed {
    text: Vec<u8>,
    delta_bytes: u16,
    row_bytes: u16,
    states: u8,
    side: Dir,
    size: u16,
    ghost limits: { (1 ≤ states) × (states ≤ state_limit) × (1 ≤ size) × (size ≤ listed_size_limit) },
    ghost room: { (delta_bytes + row_bytes ≤ length text.items)
        × (length (decimal size) + length text.items ≤ listed_byte_limit states) },
    ghost given: { IsTrue (is_some (automata_in states side size (take delta_bytes text.items)
        (take row_bytes (drop delta_bytes text.items)) (drop row_bytes (drop delta_bytes text.items)))) },
}

impl OwnedListed {
    ghost use Rattle.std.specs.Prelude.{IfOk};
    ghost use Rattle.far.specs.Claims.{texts_of, owned_texts};

    /// A copy of a claim.
    pub fn of(alloc: Global, e: &Listed) -> Result<OwnedListed, NoMemory>
        ensures { IfOk result (λ o. owned_texts o ≡ texts_of e.now) }
    {
        let Listed {
            states,
            side,
            size,
            delta,
            rows,
            keep,
        } = *e;
        let len = delta.len() + rows.len() + keep.len();
        let mut text = Vec::with_capacity(alloc, len)?;
        text.extend_from_slice(delta)?;
        text.extend_from_slice(rows)?;
        text.extend_from_slice(keep)?;
        Ok(OwnedListed {
            text,
            delta_bytes: delta.len() as u16,
            row_bytes: rows.len() as u16,
            states,
            side,
            size,
        })
    }

    /// The claim, lent. Takes no memory, and looks at no byte.
    pub fn lent(&self) -> Listed<'_>
        ensures { texts_of result ≡ owned_texts self.now }
    {
        let (delta, others) = self.text.split_at(self.delta_bytes as usize);
        let (rows, keep) = others.split_at(self.row_bytes as usize);
        Listed {
            states: self.states,
            side: self.side,
            size: self.size,
            delta,
            rows,
            keep,
        }
    }
}
