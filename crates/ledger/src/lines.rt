// Lines of a ledger's text that come in pieces, and the line of a record.
ghost use Rattle.std.specs.Prelude.{◌≡◌, ◌+◌, ◌++◌, ◌∷◌, ◌<◌, [], length, take, ◌↔◌, List, ℕ, Some, IsTrue, OnOk, OnErr, option_map};
ghost use Rattle.ledger.specs.Limits.{header_byte_limit};
ghost use Rattle.ledger.specs.Loading.{record_start};
ghost use Rattle.machine_text.specs.Terms.{Packed};
ghost use Rattle.cert.specs.Terms.{shown_by, claim_of, recorded, scored, unscored, with_score};
ghost use Rattle.ledger.specs.LedgerText.{ledger_line};

use crate::header::Format;
use cert::{Certificate, MAX_RECORD_BYTES, Record};
use kind_evidence::{NoMemory, Verdict};
use std::alloc::Global;
use std::marker::Model;

/// How many bytes of a first line are kept: more than a header has.
const MAX_HEADER_BYTES: usize = 64;

/// A first line, as far as it has come: no more of its bytes than show whether it is a header. It takes no memory.
#[derive(Drop)]
pub(crate) struct HeaderLine {
    buffer: [u8; MAX_HEADER_BYTES],
    len: usize,
}

impl Model for HeaderLine {
    ghost use Rattle.std.specs.Prelude.{ℕ, List, ◌≤◌, take};
    ghost use Rattle.ledger.specs.Limits.{header_byte_limit};

    ghost Value = { List ℕ };

    ghost view = { λ a. take a.len a.buffer };

    ghost invariant = { λ a. a.len ≤ header_byte_limit };
}

impl HeaderLine {
    /// At its beginning.
    pub fn new() -> HeaderLine
        ensures { result ≡ [] }
    {
        HeaderLine {
            buffer: [0; MAX_HEADER_BYTES],
            len: 0,
        }
    }

    /// Takes more bytes of the line.
    pub fn add(&mut self, more: &[u8])
        ensures { self.new ≡ take header_byte_limit (self.old ++ more.now) }
    {
        let part = &more[..more.len().min(self.room())];
        for byte in part {
            self.push(*byte);
        }
    }

    /// What is kept of it.
    pub fn bytes(&self) -> &[u8]
        ensures { result.now ≡ self.now }
    {
        &self.buffer[..self.len]
    }

    // How many more of its bytes are kept.
    fn room(&self) -> usize
        ensures { result + length self.now ≡ header_byte_limit }
    {
        MAX_HEADER_BYTES - self.len
    }

    // Takes one more byte.
    fn push(&mut self, byte: u8)
        requires { length self.old < header_byte_limit }
        ensures { self.new ≡ self.old ++ byte ∷ [] }
    {
        self.buffer[self.len] = byte;
        self.len += 1;
    }
}

/// A line of records, as far as it has come: its bytes, or only that there are more than a record has.
#[derive(Drop)]
pub(crate) struct LineStart {
    bytes: Vec<u8>,
    overlong: bool,
}

impl Model for LineStart {
    ghost use Rattle.std.specs.Prelude.{ℕ, List, ◌≤◌, length, if◌then◌else◌, Option, Some, None};
    ghost use Rattle.cert.specs.Terms.{record_byte_limit};

    ghost Value = { Option (List ℕ) };

    ghost view = { λ a. if a.overlong then None else Some a.bytes.items };

    ghost invariant = { λ a. length a.bytes.items ≤ record_byte_limit };
}

impl LineStart {
    /// At the beginning of a line.
    pub fn new(alloc: Global) -> LineStart
        ensures { result ≡ Some [] }
    {
        LineStart {
            bytes: Vec::new(alloc),
            overlong: false,
        }
    }

    /// Takes more bytes of the line.
    pub fn add(&mut self, more: &[u8]) -> Result<(), NoMemory>
        ensures ok { OnOk result ((line : List ℕ) → self.old ≡ record_start line
            → self.new ≡ record_start (line ++ more.now)) }
        ensures err { OnErr result (self.new ≡ self.old) }
    {
        if self.overlong {
            return Ok(());
        }
        if more.len() <= MAX_RECORD_BYTES - self.bytes.len() {
            self.bytes.extend_from_slice(more)?;
        } else {
            self.overlong = true;
            self.bytes.clear();
        }
        Ok(())
    }

    /// The line as far as it has come; none where it is too long.
    pub fn line(&self) -> Option<&[u8]>
        ensures { option_map (λ line. line.now) result ≡ self.now }
    {
        if self.overlong {
            None
        } else {
            Some(&self.bytes)
        }
    }

    /// Whether nothing of the line has come.
    pub fn is_empty(&self) -> bool
        ensures { IsTrue result ↔ (self.now ≡ Some []) }
    {
        !self.overlong && self.bytes.is_empty()
    }

    /// Begins the next line.
    pub fn begin(&mut self)
        ensures { self.new ≡ Some [] }
    {
        self.bytes.clear();
        self.overlong = false;
    }
}

/// Appends the line of a record in a version, with its newline; where memory is refused, a beginning of it.
pub(crate) fn append_in(format: Format, r: &Record, out: &mut Vec<u8>) -> Result<(), NoMemory>
    ensures ok { OnOk result (out.new.items ≡ out.old.items ++ (ledger_line format (recorded r.now) ++ (10 ∷ []))) }
    ensures kept { take (length out.old.items) out.new.items ≡ out.old.items }
{
    match format {
        Format::One => write_unscored(r, out)?,
        Format::Two => r.write_text(out)?,
    }
    out.extend_from_slice(b"\n")
}

/// Appends the line of a record as it is held, with the score of the verdict that its certificate was found to show.
pub(crate) fn append_scored(
    format: Format,
    r: &Record,
    shown: Option<Verdict>,
    out: &mut Vec<u8>,
) -> Result<(), NoMemory>
    requires { shown ≡ shown_by (claim_of r.now.certificate) r.now.table }
    ensures ok { OnOk result (out.new.items ≡ out.old.items
        ++ (ledger_line format (with_score (recorded r.now)) ++ (10 ∷ []))) }
    ensures kept { take (length out.old.items) out.new.items ≡ out.old.items }
{
    let held = Record {
        table: r.table,
        certificate: scored(&r.certificate, shown),
    };
    append_in(format, &held, out)
}

fn scored<'a>(certificate: &Certificate<'a>, shown: Option<Verdict>) -> Certificate<'a>
    ensures { (p : Packed) → shown ≡ shown_by (claim_of certificate.now) p
        → claim_of result ≡ scored p (claim_of certificate.now) }
{
    match (*certificate, shown) {
        (Certificate::Halts(evidence), Some(Verdict::Halts { ones, .. })) => {
            Certificate::Halts(evidence.with_ones(ones))
        }
        (other, _) => other,
    }
}

// Appends the text of a record without a score.
fn write_unscored(r: &Record, out: &mut Vec<u8>) -> Result<(), NoMemory>
    ensures ok { OnOk result (out.new.items ≡ out.old.items ++ ledger_line Format.One (recorded r.now)) }
    ensures kept { take (length out.old.items) out.new.items ≡ out.old.items }
{
    let unscored = Record {
        table: r.table,
        certificate: unscored(&r.certificate),
    };
    unscored.write_text(out)
}

fn unscored<'a>(certificate: &Certificate<'a>) -> Certificate<'a>
    ensures { claim_of result ≡ unscored (claim_of certificate.now) }
{
    match *certificate {
        Certificate::Halts(evidence) => Certificate::Halts(evidence.without_ones()),
        other => other,
    }
}
