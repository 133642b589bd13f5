// Automata with listed edges as the fields of a record, and their numbers, read from their texts.
ghost use Rattle.std.specs.Prelude.{◌≡◌, ◌<◌, ◌++◌, ◌∷◌, [], length, get_or, IfOk, OnOk, OnErr, ◌+◌, ◌≤◌, ◌^◌, IfSome, Some, None, option_map, if◌then◌else◌, true, take};
ghost use Rattle.text.specs.Terms.{parts_of, spaced, made_of};
ghost use Rattle.far.specs.ListedTexts.{number_in, next_low, numbers_in, row_in, rows_in, listed_texts};
ghost use Rattle.machine_text.specs.Terms.{state_limit};
ghost use Rattle.far.specs.Kind.{texts_by, listed_by, listed_fields, AreListedTexts};
ghost use Rattle.far.specs.Limits.{listed_size_limit};
ghost use Rattle.far.specs.Claims.{texts_of};

use crate::fields::{append_texts, size_in};
use crate::limits::MAX_LISTED_SIZE;
use crate::listed::Listed;
use kind_evidence::{NoMemory, side_of};
use machine_text::Dir;
use std::alloc::Global;
use std::marker::Model;
use text::{FieldFault, Parts, decimal_value, end_of, next_field};

// The items of all lists, and where in them each list starts; the last start is the end.
#[derive(Drop)]
pub(crate) struct Lists {
    starts: Vec<usize>,
    items: Vec<u16>,
}

impl Model for Lists {
    ghost use Rattle.std.specs.Prelude.{List, ℕ};
    ghost use Rattle.far.specs.inside.Reading.{lists_between, AreStarts};

    ghost Value = { List (List ℕ) };

    ghost view = { λ a. lists_between a.starts.items a.items.items };

    ghost invariant = { λ a. AreStarts a.starts.items a.items.items };
}

impl Lists {
    // No list.
    pub fn new(alloc: Global) -> Result<Lists, NoMemory>
        ensures { IfOk result (λ lists. lists ≡ []) }
    {
        let mut starts = Vec::new(alloc);
        starts.push(0)?;
        Ok(Lists {
            starts,
            items: Vec::new(alloc),
        })
    }

    // How many there are.
    #[tactic(auto, using(crate::proofs::Listing::lists_length))]
    pub fn len(&self) -> usize
        ensures { result ≡ length self.now }
    {
        self.starts.len() - 1
    }

    // One of the lists.
    #[tactic(auto, using(crate::proofs::Listing::lists_length))]
    pub fn get(&self, k: usize) -> &[u16]
        requires { k < length self.now }
        ensures { result.now ≡ get_or self.now k [] }
    {
        let from = self.starts[k];
        let to = self.starts[k + 1];
        &self.items[from..to]
    }

    // One more.
    pub fn push(&mut self, list: &[u16]) -> Result<(), NoMemory>
        ensures ok { OnOk result (self.new ≡ self.old ++ list.now ∷ []) }
        ensures err { OnErr result (self.new ≡ self.old) }
    {
        self.starts.reserve(1)?;
        self.items.extend_from_slice(list)?;
        self.starts.push(self.items.len())?;
        Ok(())
    }
}

// The number that a text is, from one number on and below another.
#[tactic(auto, unfolding(crate::specs::ListedTexts::number_in))]
pub(crate) fn number_in(text: &[u8], low: u16, limit: u16) -> Option<u16>
    ensures number { result ≡ number_in low limit text.now }
    ensures below { IfSome result (λ n. n < limit) }
{
    let number = decimal_value(text)?;
    if number < u64::from(low) {
        return None;
    }
    if number >= u64::from(limit) {
        return None;
    }
    Some(number as u16)
}

// Where the next number may begin.
pub(crate) fn next_low(rising: bool, number: u16) -> u16
    requires { number + 1 < 2 ^ 16 }
    ensures { result ≡ next_low rising number }
{
    if rising { number + 1 } else { 0 }
}

// The numbers that parts of a text are, in the place of those that stood there. Whether they are numbers.
fn read_numbers(
    mut parts: Parts<'_>,
    rising: bool,
    limit: u16,
    numbers: &mut Vec<u16>,
) -> Result<bool, NoMemory>
    ensures { IfOk result (λ fine. numbers_in rising 0 limit parts.entry
        ≡ (if fine then Some numbers.new.items else None)) }
{
    numbers.clear();
    let mut low = 0;
    'parts: while let Some(part) = parts.next() {
        match number_in(part, low, limit) {
            Some(number) => {
                numbers.push(number)?;
                low = next_low(rising, number);
            }
            None => return Ok(false),
        }
    }
    Ok(true)
}

// The numbers of a text that has commas between them.
pub(crate) fn numbers_of(
    alloc: Global,
    text: &[u8],
    rising: bool,
    limit: u16,
) -> Result<Option<Vec<u16>>, NoMemory>
    ensures { IfOk result (λ numbers. option_map (λ n. n.items) numbers
        ≡ numbers_in rising 0 limit (parts_of 44 text.now)) }
{
    let mut numbers = Vec::new(alloc);
    if read_numbers(Parts::of(b',', text), rising, limit, &mut numbers)? {
        Ok(Some(numbers))
    } else {
        Ok(None)
    }
}

// The edges of a state on a symbol, in the place of those that stood there.
#[tactic(auto, unfolding(crate::specs::ListedTexts::row_in))]
fn read_row(text: &[u8], last: u16, row: &mut Vec<u16>) -> Result<bool, NoMemory>
    ensures { IfOk result (λ fine. row_in last text.now ≡ (if fine then Some row.new.items else None)) }
{
    if text == b"-".as_slice() {
        row.clear();
        row.push(last)?;
        return Ok(true);
    }
    if text == b".".as_slice() {
        row.clear();
        return Ok(true);
    }
    read_numbers(Parts::of(b'.', text), true, last, row)
}

// The edges of all states.
pub(crate) fn rows_of(alloc: Global, text: &[u8], last: u16) -> Result<Option<Lists>, NoMemory>
    ensures { IfOk result (λ rows. rows ≡ rows_in last (parts_of 44 text.now)) }
{
    let mut rows = Lists::new(alloc)?;
    let mut row = Vec::new(alloc);
    let mut parts = Parts::of(b',', text);
    'parts: while let Some(part) = parts.next() {
        if !read_row(part, last, &mut row)? {
            return Ok(None);
        }
        rows.push(&row)?;
    }
    Ok(Some(rows))
}

impl<'a> Listed<'a> {
    /// The claim that the fields of a record make, for a table of so many states: `side m delta rows keep`. Takes
    /// no memory.
    pub fn read(states: u8, mut fields: Parts<'a>) -> Result<Listed<'a>, FieldFault>
        requires { (1 ≤ states) × (states ≤ state_limit) }
        ensures { made_of texts_of result ≡ listed_by states fields.entry }
    {
        let side = next_field(&mut fields)?;
        let size = next_field(&mut fields)?;
        let delta = next_field(&mut fields)?;
        let rows = next_field(&mut fields)?;
        let keep = next_field(&mut fields)?;
        end_of(fields)?;
        let side = side_of(side).ok_or(FieldFault::BadNumber)?;
        let size = size_in(size, u64::from(MAX_LISTED_SIZE))? as u16;
        texts_from(states, side, size, delta, rows, keep)
    }

    /// Appends the fields of a record, each behind a space: they read back as the same texts (`listed_automata_are_a_kind`).
    /// Where memory is refused, a beginning of them.
    pub fn append_fields(&self, out: &mut Vec<u8>) -> Result<(), NoMemory>
        ensures ok { OnOk result (out.new.items ≡ out.old.items ++ spaced (listed_fields (texts_of self.now))) }
        ensures writable { OnOk result (AreListedTexts (texts_of self.now)) }
        ensures kept { take (length out.old.items) out.new.items ≡ out.old.items }
    {
        append_texts(
            self.side,
            u64::from(self.size),
            self.delta,
            self.rows,
            self.keep,
            out,
        )
    }
}

// The automata of a size that three texts give, for tables of so many states.
fn texts_from<'a>(
    states: u8,
    side: Dir,
    size: u16,
    delta: &'a [u8],
    rows: &'a [u8],
    keep: &'a [u8],
) -> Result<Listed<'a>, FieldFault>
    requires states { (1 ≤ states) × (states ≤ state_limit) }
    requires size { (1 ≤ size) × (size ≤ listed_size_limit) }
    ensures { made_of texts_of result ≡ texts_by (listed_texts states side size delta.now rows.now keep.now) }
{
    if !Listed::are_short(states, size, delta, rows, keep) {
        return Err(FieldFault::TooLong);
    }
    match Listed::new(states, side, size, delta, rows, keep) {
        Some(evidence) => Ok(evidence),
        None => Err(FieldFault::BadList),
    }
}
