// Lists as the fields of a record, and the texts of a set.
ghost use Rattle.std.specs.Prelude.{◌≡◌, ◌+◌, ◌<◌, ◌≤◌, [], ◌∷◌, ◌++◌, length, take, List, ℕ, Some, None, OnOk, IfOk, IfErr};
ghost use Rattle.machine_text.specs.Terms.{state_limit};
ghost use Rattle.text.specs.Terms.{decimal_value, spaced, made_of};
ghost use Rattle.ngram_cps.specs.Kind.{width_in, lists_by, ngram_by, ngram_fields};
ghost use Rattle.ngram_cps.specs.Limits.{width_limit};
ghost use Rattle.ngram_cps.specs.Lists.{lists, AreLists, AreWithin, lists_of};

use crate::closure::symbol_byte;
use crate::least_set::{LeastSet, Side};
use crate::ngram::Ngram;
use crate::words::{Member, Width};
use kind_evidence::NoMemory;
use std::alloc::Global;
use std::marker::Model;
use text::{FieldFault, Parts, append_field, append_number_field, end_of, next_field, number_in};

// Up to 18 bytes: a local configuration of the greatest width. It stands where it is made, and takes no memory.
#[derive(Drop)]
pub(crate) struct Draft {
    bytes: [u8; 18],
    len: usize,
}

impl Model for Draft {
    ghost Value = { List ℕ };

    ghost view = { λ a. take a.len a.bytes };

    ghost invariant = { λ a. a.len ≤ 18 };
}

impl Draft {
    pub fn new() -> Draft
        ensures { result ≡ [] }
    {
        Draft {
            bytes: [0; 18],
            len: 0,
        }
    }

    pub fn push(&mut self, byte: u8)
        requires { length self.old < 18 }
        ensures { self.new ≡ self.old ++ byte ∷ [] }
    {
        self.bytes[self.len] = byte;
        self.len += 1;
    }

    pub fn push_all(&mut self, part: &[u8])
        requires { length self.old + length part.now ≤ 18 }
        ensures { self.new ≡ self.old ++ part.now }
    {
        for byte in part {
            self.push(*byte);
        }
    }

    pub fn as_slice(&self) -> &[u8]
        ensures { result.now ≡ self.now }
    {
        &self.bytes[..self.len]
    }
}

// The three lists of a set as texts. Their memory is kept from set to set.
#[derive(Drop)]
pub(crate) struct ListTexts {
    pub left: Vec<u8>,
    pub right: Vec<u8>,
    pub local: Vec<u8>,
}

impl ListTexts {
    // Takes no memory.
    pub fn new(alloc: Global) -> ListTexts {
        ListTexts {
            left: Vec::new(alloc),
            right: Vec::new(alloc),
            local: Vec::new(alloc),
        }
    }

    // Writes the lists of a set of a width.
    pub fn write(&mut self, set: &mut LeastSet, width: Width) -> Result<(), NoMemory> {
        write_words(&mut self.left, &set.left, width)?;
        write_words(&mut self.right, &set.right, width)?;
        write_members(&mut self.local, set.members.sorted(), width)
    }
}

// Writes the words of a side.
fn write_words(text: &mut Vec<u8>, side: &Side, width: Width) -> Result<(), NoMemory> {
    text.clear();
    for word in 0..=width.greatest() {
        if side.holds(word) {
            push_comma(text)?;
            push_word(text, word, width)?;
        }
    }
    Ok(())
}

// Writes members in their order.
fn write_members(text: &mut Vec<u8>, members: &[Member], width: Width) -> Result<(), NoMemory> {
    text.clear();
    for member in members {
        push_comma(text)?;
        push_word(text, member.left, width)?;
        text.push(b'A' + member.state.0)?;
        text.push(symbol_byte(member.read))?;
        push_word(text, member.right, width)?;
    }
    Ok(())
}

// A comma, where an item stands before.
fn push_comma(text: &mut Vec<u8>) -> Result<(), NoMemory> {
    if !text.is_empty() {
        text.push(b',')?;
    }
    Ok(())
}

fn push_word(text: &mut Vec<u8>, word: u8, width: Width) -> Result<(), NoMemory> {
    for place in (0..width.symbols).rev() {
        text.push(if word >> place & 1 == 0 { b'0' } else { b'1' })?;
    }
    Ok(())
}

impl<'a> Ngram<'a> {
    /// The claim that the fields of a record make, for a table of so many states: `g L R C`. Takes no memory.
    pub fn read(states: u8, mut fields: Parts<'a>) -> Result<Ngram<'a>, FieldFault>
        requires { (1 ≤ states) × (states ≤ state_limit) }
        ensures { made_of lists_of result ≡ ngram_by states fields.entry }
    {
        let width = next_field(&mut fields)?;
        let left = next_field(&mut fields)?;
        let right = next_field(&mut fields)?;
        let local = next_field(&mut fields)?;
        end_of(fields)?;
        let width = width_from(width)?;
        lists_from(states, width, left, right, local)
    }

    /// Appends the fields of a record, each behind a space. Where memory is refused, a beginning of them.
    pub fn append_fields(&self, out: &mut Vec<u8>) -> Result<(), NoMemory>
        ensures ok { OnOk result (out.new.items ≡ out.old.items ++ spaced (ngram_fields (lists_of self.now))) }
        ensures writable { OnOk result (AreLists (lists_of self.now) × AreWithin (lists_of self.now)) }
        ensures kept { take (length out.old.items) out.new.items ≡ out.old.items }
    {
        // The proof needs that the lists are lists, within their limits.
        let _ = self.states();
        append_number_field(u64::from(self.width), out)?;
        append_field(self.left.text, out)?;
        append_field(self.right.text, out)?;
        append_field(self.local.text, out)
    }
}

// The width that a field names.
fn width_from(field: &[u8]) -> Result<u8, FieldFault>
    ensures ok { IfOk result (λ g. (width_in (decimal_value field.now) ≡ Some g) × (1 ≤ g) × (g ≤ width_limit)) }
    ensures err { IfErr result (λ fault. (fault ≡ FieldFault.BadNumber) × (width_in (decimal_value field.now) ≡ None)) }
{
    let width = number_in(field)?;
    if Ngram::is_width(width) {
        Ok(width as u8)
    } else {
        Err(FieldFault::BadNumber)
    }
}

// The lists of a width that three texts are, for tables of so many states.
fn lists_from<'a>(
    states: u8,
    width: u8,
    left: &'a [u8],
    right: &'a [u8],
    local: &'a [u8],
) -> Result<Ngram<'a>, FieldFault>
    requires states { (1 ≤ states) × (states ≤ state_limit) }
    requires width { (1 ≤ width) × (width ≤ width_limit) }
    ensures { made_of lists_of result ≡ lists_by (lists states width left.now right.now local.now) }
{
    if !Ngram::are_short(left, right, local) {
        return Err(FieldFault::TooLong);
    }
    match Ngram::new(states, width, left, right, local) {
        Some(evidence) => Ok(evidence),
        None => Err(FieldFault::BadList),
    }
}
