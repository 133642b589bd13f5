// Records, borrowed and owned, and why a text is no record.
ghost use Rattle.std.specs.Prelude.{◌≡◌, ◌++◌, take, drop, length, Ok, OnOk, OnErr, IfOk};
ghost use Rattle.machine_text.specs.Terms.{IsTable, text_of};
ghost use Rattle.cert.specs.Claim.{IsWritable, IsMadeFor};
ghost use Rattle.cert.specs.Grammar.{record_of, record_text, record_with};
ghost use Rattle.cert.specs.Kinds.{read_as, recorded, claim_of};
ghost use Rattle.text.specs.Terms.{made_of};
ghost use Rattle.cert.specs.Certified.{GetsOnes, GetsScore};

use crate::certificate::{Certificate, OwnedCertificate};
use crate::judgement::records_parse_back;
use crate::limits::MAX_RECORD_BYTES;
use kind_evidence::{NoMemory, Refused};
use machine_text::{TEXT_BYTES, Table, TextFault};
use run::HaltsIn;
use std::alloc::Global;
use std::error::Error;
use std::fmt;
use text::{FieldFault, Parts, next_field};

/// A table with a certificate.
#[derive(Clone, Copy, Debug, PartialEq, Eq)]
pub struct Record<'a> {
    pub table: Table,
    pub certificate: Certificate<'a>,
}

/// A record that keeps its own texts.
#[derive(Drop, Debug)]
pub struct OwnedRecord {
    pub table: Table,
    pub certificate: OwnedCertificate,
}

impl<'a> Record<'a> {
    #[tactic(auto, unfolding(crate::specs::Grammar::record_of))]
    /// The record of a text: a table, a kind and its fields, with one space between each two.
    pub fn parse(text: &'a [u8]) -> Result<Record<'a>, RecordFault>
        ensures { read_as result ≡ record_of text.now }
    {
        if text.len() > MAX_RECORD_BYTES {
            return Err(RecordFault::TooLong);
        }
        let mut parts = Parts::of(b' ', text);
        let first = next_field(&mut parts)?;
        match Table::parse(first) {
            Ok(table) => with_certificate(table, Certificate::read(table.states(), parts)),
            Err(fault) => Err(RecordFault::BadTable(fault)),
        }
    }
}

impl Record<'_> {
    /// Appends the record's text, which reads back as the record where lists and automata are made for tables of as many
    /// states as this one has. Where memory is refused, `out` is as it was.
    pub fn write_text(&self, out: &mut Vec<u8>) -> Result<(), NoMemory>
        ensures ok { OnOk result (out.new.items ≡ out.old.items ++ record_text (recorded self.now)) }
        ensures reads_back { OnOk result (IsMadeFor (claim_of self.now.certificate) self.now.table.states
            → record_of (drop (length out.old.items) out.new.items) ≡ Ok (recorded self.now)) }
        ensures err { OnErr result (out.new.items ≡ out.old.items) }
    {
        records_parse_back();
        let len = out.len();
        match self.append_text(out) {
            Ok(()) => Ok(()),
            Err(fault) => {
                out.truncate(len);
                Err(fault)
            }
        }
    }

    // Appends the text, which reads back since the table is one and the claim is writable; where memory is refused, a
    // beginning of it.
    #[tactic(auto, unfolding(crate::specs::Grammar::record_text))]
    fn append_text(&self, out: &mut Vec<u8>) -> Result<(), NoMemory>
        ensures ok { OnOk result (out.new.items ≡ out.old.items ++ record_text (recorded self.now)) }
        ensures table { OnOk result (IsTable self.now.table) }
        ensures writable { OnOk result (IsWritable (claim_of self.now.certificate)) }
        ensures kept { take (length out.old.items) out.new.items ≡ out.old.items }
    {
        // The proof needs that the table is one.
        let _ = self.table.states();
        append_table(&self.table, out)?;
        out.extend_from_slice(b" ")?;
        self.certificate.append_text(out)
    }
}

impl OwnedRecord {
    ghost use Rattle.cert.specs.Kinds.{owned_recorded};

    /// The record, lent.
    pub fn lent(&self) -> Record<'_>
        ensures { recorded result ≡ owned_recorded self.now }
    {
        Record {
            table: self.table,
            certificate: self.certificate.lent(),
        }
    }
}

// The record of a table and its certificate.
fn with_certificate(
    table: Table,
    certificate: Result<Certificate<'_>, FieldFault>,
) -> Result<Record<'_>, RecordFault>
    ensures { read_as result ≡ record_with table (made_of claim_of certificate.entry) }
{
    match certificate {
        Ok(certificate) => Ok(Record { table, certificate }),
        Err(fault) => Err(RecordFault::from(fault)),
    }
}

/// Why a text is no record. The length is judged first, then the table, the kind with the number of its
/// fields, and each field from left to right.
#[derive(Clone, Copy, Debug, PartialEq, Eq)]
pub enum RecordFault {
    /// What stands before the first space is no table.
    BadTable(TextFault),
    /// There is no kind, no such kind, or another number of fields than it has.
    BadKind,
    /// A field is no number.
    BadNumber,
    /// A field is no list of its kind.
    BadList,
    /// The text is longer than `MAX_RECORD_BYTES`.
    TooLong,
}

impl RecordFault {
    ghost use Rattle.cert.specs.Grammar.{record_fault_number};

    /// The refusal number: 301 to 305.
    pub fn number(&self) -> u16
        ensures { result ≡ record_fault_number self.now }
    {
        match self {
            RecordFault::BadTable(_) => 301,
            RecordFault::BadKind => 302,
            RecordFault::BadNumber => 303,
            RecordFault::BadList => 304,
            RecordFault::TooLong => 305,
        }
    }
}

impl fmt::Display for RecordFault {
    ghost use Rattle.std.specs.Prelude.{Some};
    ghost use Rattle.cert.specs.Grammar.{record_fault_text};

    ghost output = { λ fault. Some (record_fault_text fault) };

    fn fmt<W: fmt::Write>(&self, f: &mut fmt::Formatter<W>) -> fmt::Result {
        match self {
            RecordFault::BadTable(_) => f.write_str("there is no table before the first space"),
            RecordFault::BadKind => f.write_str("there is no kind of record with these fields"),
            RecordFault::BadNumber => f.write_str("a field is no number or no side"),
            RecordFault::BadList => f.write_str("a field is no list of its kind"),
            RecordFault::TooLong => f.write_str("the record is longer than 65000 bytes"),
        }
    }
}

impl Error for RecordFault {}

impl From<FieldFault> for RecordFault {
    ghost use Rattle.std.specs.Prelude.{◌≡◌};
    ghost use Rattle.cert.specs.Grammar.{fault_of_field};

    ghost from_gives = { λ f e. e ≡ fault_of_field f };

    fn from(fault: FieldFault) -> RecordFault {
        match fault {
            FieldFault::BadKind => RecordFault::BadKind,
            FieldFault::BadNumber => RecordFault::BadNumber,
            FieldFault::BadList => RecordFault::BadList,
            FieldFault::TooLong => RecordFault::TooLong,
        }
    }
}

/// Appends a table's text. Where memory is refused, `out` is as it was.
pub fn append_table(t: &Table, out: &mut Vec<u8>) -> Result<(), NoMemory>
    ensures ok { OnOk result (out.new.items ≡ out.old.items ++ text_of t.now) }
    ensures err { OnErr result (out.new.items ≡ out.old.items) }
{
    let mut buf = [0; TEXT_BYTES];
    out.extend_from_slice(t.text(&mut buf))
}

impl<'a> Record<'a> {
    /// The record, with its table's score where it says that the table halts and that is so; else as it is. Only a
    /// table that is said to halt without a score is run.
    pub fn scored(&self, alloc: Global) -> Result<Record<'a>, NoMemory>
        ensures { IfOk result (λ scored. GetsScore (recorded self.now) (recorded scored)) }
    {
        match self.certificate {
            Certificate::Halts(evidence) => {
                let scored = with_ones(alloc, &self.table, evidence)?;
                Ok(Record {
                    table: self.table,
                    certificate: Certificate::Halts(scored),
                })
            }
            other => Ok(Record {
                table: self.table,
                certificate: other,
            }),
        }
    }
}

// The number of steps in which a table halts, with its score if it is so.
fn with_ones(alloc: Global, t: &Table, evidence: HaltsIn) -> Result<HaltsIn, NoMemory>
    ensures { IfOk result (GetsOnes t.now evidence) }
{
    if evidence.ones.is_some() {
        return Ok(evidence);
    }
    match evidence.halted(alloc, t) {
        Ok(halted) => Ok(evidence.with_ones(halted.ones)),
        Err(Refused::NoMemory) => Err(NoMemory),
        Err(_) => Ok(evidence),
    }
}
