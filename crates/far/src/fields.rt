// Automata as the fields of a record, and numbers in hexadecimal.
ghost use Rattle.std.specs.Prelude.{◌≡◌, ◌++◌, ◌∷◌, [], ◌≤◌, Some, None, OnOk, IfOk, IfErr, decimal, length, take, ◌+◌, ◌-◌, ◌*◌, ◌/◌, ◌^◌, ◌<◌, ◌≢◌, IfSome, IfNone, slice_index, drop};
ghost use Rattle.machine_text.specs.Terms.{state_limit};
ghost use Rattle.kind_evidence.specs.Terms.{side_text};
ghost use Rattle.text.specs.Terms.{decimal_value, spaced, made_of};
ghost use Rattle.far.specs.Texts.{AreAutomata, AreSized, hex_glyph, hex_value, hex_text, hex_worth, IsDigit, IsHex};
ghost use Rattle.far.specs.Claims.{automata_of};
ghost use Rattle.far.specs.Kind.{size_in, numbers_by, far_by, far_fields};
ghost use Rattle.far.specs.Limits.{size_limit, pair_limit, word_bits};

use crate::far::Far;
use crate::limits::{MAX_SIZE, Set};
use kind_evidence::{NoMemory, side_of, side_text};
use machine_text::Dir;
use text::{FieldFault, Parts, append_field, append_number_field, end_of, next_field, number_in};

impl<'a> Far<'a> {
    /// The claim that the fields of a record make, for a table of so many states: `side m delta rows keep`. Takes
    /// no memory.
    pub fn read(states: u8, mut fields: Parts<'a>) -> Result<Far<'a>, FieldFault>
        requires { (1 ≤ states) × (states ≤ state_limit) }
        ensures { made_of automata_of result ≡ far_by states fields.entry }
    {
        let side = next_field(&mut fields)?;
        let size = next_field(&mut fields)?;
        let delta = next_field(&mut fields)?;
        let rows = next_field(&mut fields)?;
        let keep = next_field(&mut fields)?;
        end_of(fields)?;
        let side = side_of(side).ok_or(FieldFault::BadNumber)?;
        let size = size_in(size, u64::from(MAX_SIZE))? as u8;
        numbers_from(states, side, size, delta, rows, keep)
    }
}

impl Far<'_> {
    /// Appends the fields of a record, each behind a space: they read back as the same automata (`automata_are_a_kind`).
    /// Where memory is refused, a beginning of them.
    pub fn append_fields(&self, out: &mut Vec<u8>) -> Result<(), NoMemory>
        ensures ok { OnOk result (out.new.items ≡ out.old.items ++ spaced (far_fields (automata_of self.now))) }
        ensures writable { OnOk result (AreAutomata (automata_of self.now) × AreSized (automata_of self.now)) }
        ensures kept { take (length out.old.items) out.new.items ≡ out.old.items }
    {
        // The proof needs that the numbers are those of automata, within their limits.
        let _ = self.states();
        append_texts(
            self.side(),
            u64::from(self.size()),
            self.delta(),
            self.rows(),
            self.keep(),
            out,
        )
    }
}

// Appends a side, a size and the texts of automata, each behind a space.
pub(crate) fn append_texts(
    side: Dir,
    size: u64,
    delta: &[u8],
    rows: &[u8],
    keep: &[u8],
    out: &mut Vec<u8>,
) -> Result<(), NoMemory>
    ensures ok { OnOk result (out.new.items ≡ out.old.items
        ++ spaced (side_text side ∷ (decimal size ∷ (delta.now ∷ (rows.now ∷ (keep.now ∷ [])))))) }
    ensures kept { take (length out.old.items) out.new.items ≡ out.old.items }
{
    append_field(side_text(side), out)?;
    append_number_field(size, out)?;
    append_field(delta, out)?;
    append_field(rows, out)?;
    append_field(keep, out)
}

// The size of automata that a field names, up to the largest.
pub(crate) fn size_in(field: &[u8], most: u64) -> Result<u64, FieldFault>
    ensures ok { IfOk result (λ m. (size_in most (decimal_value field.now) ≡ Some m) × (1 ≤ m) × (m ≤ most)) }
    ensures err { IfErr result (λ fault. (fault ≡ FieldFault.BadNumber)
        × (size_in most (decimal_value field.now) ≡ None)) }
{
    let size = number_in(field)?;
    if 1 <= size && size <= most {
        Ok(size)
    } else {
        Err(FieldFault::BadNumber)
    }
}

// The automata of a size that three texts give, for tables of so many states.
fn numbers_from<'a>(
    states: u8,
    side: Dir,
    size: u8,
    delta: &'a [u8],
    rows: &'a [u8],
    keep: &'a [u8],
) -> Result<Far<'a>, FieldFault>
    requires states { (1 ≤ states) × (states ≤ state_limit) }
    requires size { (1 ≤ size) × (size ≤ size_limit) }
    ensures { made_of automata_of result ≡ numbers_by states side size delta.now rows.now keep.now }
{
    match Far::new(states, side, size, delta, rows, keep) {
        Some(evidence) => Ok(evidence),
        None => Err(FieldFault::BadList),
    }
}

// The most digits of a number in which a set is kept.
pub(crate) const MAX_DIGITS: usize = Set::BITS as usize / 4;

// The number below a limit of which a text is the hexadecimal form: in lower case, without leading zeros.
pub(crate) fn hex_number(text: &[u8], limit: Set) -> Option<Set>
    requires { limit ≤ 2 ^ (pair_limit + 1) }
    ensures some { IfSome result (λ n. (n ≡ hex_worth text.now) × IsHex limit text.now) }
    ensures none { IfNone result (IsHex limit text.now → ⊥) }
{
    if text.is_empty() {
        return None;
    }
    if text[0] == b'0' {
        zero_in(text, limit)
    } else {
        positive_in(text, limit)
    }
}

// The number 0, where a text that begins with its digit is its form.
fn zero_in(text: &[u8], limit: Set) -> Option<Set>
    requires some { 0 < length text.now }
    requires zero { slice_index text.now 0 ≡ 48 }
    ensures some { IfSome result (λ n. (n ≡ hex_worth text.now) × IsHex limit text.now) }
    ensures none { IfNone result (IsHex limit text.now → ⊥) }
{
    if text.len() > 1 {
        return None;
    }
    if limit == 0 {
        return None;
    }
    Some(0)
}

// The number whose digits a text has, of which the first is no zero.
fn positive_in(text: &[u8], limit: Set) -> Option<Set>
    requires limit { limit ≤ 2 ^ (pair_limit + 1) }
    requires some { 0 < length text.now }
    requires positive { slice_index text.now 0 ≢ 48 }
    ensures some { IfSome result (λ n. (n ≡ hex_worth text.now) × IsHex limit text.now) }
    ensures none { IfNone result (IsHex limit text.now → ⊥) }
{
    let mut number: Set = 0;
    for byte in text {
        number = 16 * number + Set::from(hex_digit(*byte, 16)?);
        if number >= limit {
            return None;
        }
    }
    if number >= limit { None } else { Some(number) }
}

// The number below a limit whose digit a byte is.
pub(crate) fn hex_digit(byte: u8, limit: u8) -> Option<u8>
    requires { limit ≤ 16 }
    ensures some { IfSome result (λ d. (d ≡ hex_value byte) × IsDigit limit byte) }
    ensures none { IfNone result (IsDigit limit byte → ⊥) }
{
    let digit = hex_value(byte);
    if digit >= limit {
        return None;
    }
    if hex_glyph(digit) != byte {
        return None;
    }
    Some(digit)
}

// What a digit is worth.
fn hex_value(byte: u8) -> u8
    ensures { result ≡ hex_value byte }
{
    if byte < 58 {
        byte.saturating_sub(b'0')
    } else {
        byte.saturating_sub(b'a' - 10)
    }
}

// A digit that is worth so much.
pub(crate) fn hex_glyph(digit: u8) -> u8
    requires { digit < 16 }
    ensures { result ≡ hex_glyph digit }
{
    if digit < 10 {
        b'0' + digit
    } else {
        b'a' - 10 + digit
    }
}

// A number's text, written into the end of `buf`.
pub(crate) fn hex_text(number: Set, buf: &mut [u8; MAX_DIGITS]) -> &[u8]
    ensures { result.now ≡ hex_text number }
{
    if number == 0 {
        return b"0";
    }
    let mut rest = number;
    let mut at = MAX_DIGITS;
    'digits: while rest > 0 {
        at -= 1;
        buf[at] = hex_glyph((rest % 16) as u8);
        rest /= 16;
    }
    behind(buf, at)
}

// What stands from a place on.
fn behind(buf: &[u8; MAX_DIGITS], at: usize) -> &[u8]
    requires { at ≤ word_bits / 4 }
    ensures { result.now ≡ drop at buf.now }
{
    &buf[at..]
}
