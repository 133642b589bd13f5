// The fields of a record, read from the parts of a text, and written; numbers in decimal.
ghost use Rattle.std.specs.Prelude.{◌≡◌, ◌+◌, ◌-◌, ◌*◌, ◌++◌, ◌^◌, ◌<◌, ◌≤◌, IfSome, IfNone, OnOk, OnErr, decimal, ◌≢◌, ◌∷◌, [], ℕ, List, All, length, take, Some, None, IfOk, IfErr};
ghost use Rattle.text.specs.Fields.{decimal_value, worth_of, IsField, spaced, parts_of};

use crate::parts::Parts;
use itoa::Buffer;
use std::alloc::AllocError as NoMemory;

/// The number of which a text is the decimal form: no sign, no leading zero, and at most 64 bits.
#[tactic(auto, unfolding(crate::specs::Fields::decimal_value))]
pub fn decimal_value(text: &[u8]) -> Option<u64>
    ensures { result ≡ decimal_value text.now }
{
    let number = worth_of(text)?;
    let mut buffer = Buffer::new();
    if buffer.format(number).as_bytes() == text {
        Some(number)
    } else {
        None
    }
}

/// Appends a number in decimal. Where memory is refused, `out` is as it was.
pub fn append_number(n: u64, out: &mut Vec<u8>) -> Result<(), NoMemory>
    ensures ok { OnOk result (out.new.items ≡ out.old.items ++ decimal n) }
    ensures err { OnErr result (out.new.items ≡ out.old.items) }
{
    let mut buffer = Buffer::new();
    out.extend_from_slice(buffer.format(n).as_bytes())
}

// What a row of digits is worth, where that has at most 64 bits.
fn worth_of(text: &[u8]) -> Option<u64>
    ensures some { IfSome result (λ n. n ≡ worth_of text.now) }
    ensures none { IfNone result (2 ^ 64 ≤ worth_of text.now) }
{
    let mut number: u64 = 0;
    for byte in text {
        number = with_digit(number, *byte)?;
    }
    Some(number)
}

// A number with one more digit behind it, where that has at most 64 bits.
fn with_digit(number: u64, byte: u8) -> Option<u64>
    ensures some { IfSome result (λ n. n ≡ 10 * number + (byte - 48)) }
    ensures none { IfNone result (2 ^ 64 ≤ 10 * number + (byte - 48)) }
{
    let digit = u64::from(byte.saturating_sub(b'0'));
    match number.checked_mul(10) {
        Some(tens) => tens.checked_add(digit),
        None => None,
    }
}

/// Why the fields of a record aren't those of its kind. Their number is judged first, then each field from left to
/// right.
#[derive(Clone, Copy, Debug, PartialEq, Eq)]
pub enum FieldFault {
    /// There is no kind with these fields: one is missing, or left over.
    BadKind,
    /// A field is no number, or no side.
    BadNumber,
    /// A field is no list of its kind.
    BadList,
    /// The lists are longer than they may be.
    TooLong,
}

/// The next field, which has to be there.
pub fn next_field<'a>(fields: &mut Parts<'a>) -> Result<&'a [u8], FieldFault>
    ensures ok { IfOk result (λ field. fields.old ≡ field.now ∷ fields.new) }
    ensures err { IfErr result (λ fault. (fault ≡ FieldFault.BadKind) × (fields.old ≡ [])) }
{
    match fields.next() {
        Some(field) => Ok(field),
        None => Err(FieldFault::BadKind),
    }
}

/// Behind the last field stands no other.
pub fn end_of(mut fields: Parts<'_>) -> Result<(), FieldFault>
    ensures ok { OnOk result (fields.entry ≡ []) }
    ensures err { IfErr result (λ fault. (fault ≡ FieldFault.BadKind) × (field : List ℕ) × (left : List (List ℕ))
        × (fields.entry ≡ field ∷ left)) }
{
    match fields.next() {
        Some(_) => Err(FieldFault::BadKind),
        None => Ok(()),
    }
}

/// The number that a field is, of at most 64 bits.
pub fn number_in(field: &[u8]) -> Result<u64, FieldFault>
    ensures ok { IfOk result (λ number. decimal_value field.now ≡ Some number) }
    ensures err { IfErr result (λ fault. (fault ≡ FieldFault.BadNumber) × (decimal_value field.now ≡ None)) }
{
    match decimal_value(field) {
        Some(number) => Ok(number),
        None => Err(FieldFault::BadNumber),
    }
}

/// Appends a space and a field. Where memory is refused, a beginning of them.
pub fn append_field(field: &[u8], out: &mut Vec<u8>) -> Result<(), NoMemory>
    ensures ok { OnOk result (out.new.items ≡ out.old.items ++ 32 ∷ field.now) }
    ensures kept { take (length out.old.items) out.new.items ≡ out.old.items }
{
    out.extend_from_slice(b" ")?;
    out.extend_from_slice(field)
}

/// Appends a space and a number. Where memory is refused, a beginning of them.
pub fn append_number_field(number: u64, out: &mut Vec<u8>) -> Result<(), NoMemory>
    ensures ok { OnOk result (out.new.items ≡ out.old.items ++ 32 ∷ decimal number) }
    ensures kept { take (length out.old.items) out.new.items ≡ out.old.items }
{
    out.extend_from_slice(b" ")?;
    append_number(number, out)
}

/// Fields that are written behind a kind are read again as its parts, and are on one line. A number of 64 bits is a
/// field.
pub fn fields_are_parts()
    ensures parts { (kind : List ℕ) (fields : List (List ℕ)) → IsField kind → All IsField fields
        → parts_of 32 (kind ++ spaced fields) ≡ kind ∷ fields }
    ensures line { (fields : List (List ℕ)) → All IsField fields → All (λ byte. byte ≢ 10) (spaced fields) }
    ensures number { (n : ℕ) → n < 2 ^ 64 → IsField (decimal n) }
{}
