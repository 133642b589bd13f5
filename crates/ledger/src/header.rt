// The first line of a ledger's text with its version, and a ledger as it is written.
ghost use Rattle.std.specs.Prelude.{◌≡◌, ◌↔◌, IsTrue, MatchOption, ◌++◌, ◌∷◌, [], map, take, drop, length, OnOk, OnErr};
ghost use Rattle.cert.specs.Terms.{ending_by, score_by, claim_of};
ghost use Rattle.ledger.specs.LedgerText.{format_number, header_words, may_stand, BeginsAsHeader, BeginsBy, PeekGives, ledger_line, ReadsIn, ledger_text};
ghost use Rattle.machine_text.specs.Terms.{Packed, text_of};
ghost use Rattle.ledger.specs.Loading.{NamesAfter, NamesRoot};
ghost use Rattle.ledger.specs.declared.header.Format.{Format as Version};
ghost use Rattle.ledger.specs.inside.Taking.{HeaderGives, OrderGives};
ghost use Rattle.text.specs.Terms.{joined};
ghost use Rattle.ledger.specs.declared.header.Format.TheVariants.{Two};
ghost use Rattle.ledger.specs.declared.loading.Left.TheVariants.{Nothing};

use crate::board::Board;
use crate::faults::LoadFault;
use crate::laws::ledgers_load_whole;
use crate::lines::append_in;
use crate::selected::Records;
use cert::Certificate;
use kind_evidence::{Ending, NoMemory};
use machine_text::{TEXT_BYTES, Table};
use text::first_line;
use tnf::in_order;

/// The version of a ledger's text, which its header names. It is decided there for all lines.
#[derive(Clone, Copy, Debug, PartialEq, Eq)]
pub enum Format {
    /// A record that says that its table halts stands without its score.
    One,
    /// A record that halts stands with its score.
    Two,
}

impl Format {
    /// The version's number: 1 or 2.
    pub fn number(self) -> u8
        ensures { result ≡ format_number self }
    {
        match self {
            Format::One => 1,
            Format::Two => 2,
        }
    }

    // What a header of this version begins with.
    pub(crate) fn header_words(self) -> &'static [u8]
        ensures { result.now ≡ header_words self }
    {
        match self {
            Format::One => b"bb-ledger 1 ",
            Format::Two => b"bb-ledger 2 ",
        }
    }

    // Whether a certificate may stand in a ledger of this version: with its score, or without.
    pub(crate) fn may_hold(self, certificate: &Certificate) -> bool
        ensures { result ≡ may_stand self (ending_by (claim_of certificate.now)) (score_by (claim_of certificate.now)) }
    {
        match (self, certificate.ending()) {
            (Format::One, _) => certificate.ones().is_none(),
            (Format::Two, Some(Ending::Halts(_))) => certificate.ones().is_some(),
            (Format::Two, Some(Ending::Never)) => true,
            (Format::Two, None) => true,
        }
    }
}

/// What a header says.
#[derive(Clone, Copy)]
pub(crate) struct Header {
    pub format: Format,
    pub root: Table,
}

/// The root that a ledger's text names in its header, in either version; none where the text is torn off within
/// the header.
/// `BadHeader` where the first line is no header with a table that reads, or where the text has no newline
/// and doesn't begin as a header does; `WrongRoot` where the table doesn't name its states in order. It
/// takes no memory.
pub fn peek_root(bytes: &[u8]) -> Result<Option<Table>, LoadFault>
    ensures { PeekGives bytes.now result }
{
    match read_header(bytes) {
        Ok(None) => Ok(None),
        Ok(Some((root, _))) => ordered(root),
        Err(fault) => Err(fault),
    }
}

// A root, where it names its states in order.
fn ordered(root: Table) -> Result<Option<Table>, LoadFault>
    ensures { OrderGives root result }
{
    if in_order(&root) {
        Ok(Some(root))
    } else {
        Err(LoadFault::WrongRoot)
    }
}

/// The root that a header at the beginning of a text names, and what stands behind that line; none where
/// the text is torn off within the header, and `BadHeader` where neither is so.
pub(crate) fn read_header(text: &[u8]) -> Result<Option<(Table, &[u8])>, LoadFault>
    ensures { HeaderGives text.now result }
{
    let Some((line, rest)) = first_line(text) else {
        return if is_begun_header(text) {
            Ok(None)
        } else {
            Err(LoadFault::BadHeader)
        };
    };
    match header_in(line) {
        Some(header) => Ok(Some((header.root, rest))),
        None => Err(LoadFault::BadHeader),
    }
}

/// What a line says that is a header; none where it is none.
pub(crate) fn header_in(line: &[u8]) -> Option<Header>
    ensures { MatchOption result ((format : Version) (root : Packed) → NamesRoot format line.now root → ⊥)
        (λ header. NamesRoot header.format line.now header.root) }
{
    if let Some(root) = root_after(Format::One.header_words(), line) {
        return Some(Header {
            format: Format::One,
            root,
        });
    }
    match root_after(Format::Two.header_words(), line) {
        Some(root) => Some(Header {
            format: Format::Two,
            root,
        }),
        None => None,
    }
}

// The root whose text stands behind these words.
fn root_after(words: &[u8], line: &[u8]) -> Option<Table>
    ensures { MatchOption result ((root : Packed) → NamesAfter words.now line.now root → ⊥)
        (NamesAfter words.now line.now) }
{
    let Some(name) = line.strip_prefix(words) else {
        return None;
    };
    match Table::parse(name) {
        Ok(root) => Some(root),
        Err(_) => None,
    }
}

/// Whether a text is a beginning of the words of a header of either version, or begins with them.
pub(crate) fn is_begun_header(text: &[u8]) -> bool
    ensures { IsTrue result ↔ BeginsAsHeader text.now }
{
    is_begun_by(Format::One.header_words(), text) || is_begun_by(Format::Two.header_words(), text)
}

// Whether a text is a beginning of these words, or begins with them.
fn is_begun_by(words: &[u8], text: &[u8]) -> bool
    ensures { IsTrue result ↔ BeginsBy words.now text.now }
{
    words.starts_with(text) || text.starts_with(words)
}

impl Board {
    /// Appends the board's ledger in version 2, whatever version the board has: a header with the root, and each
    /// record on a line. It loads again whole, with the same root and records. Where memory is refused, `out` is as it
    /// was.
    pub fn write_ledger(&self, out: &mut Vec<u8>) -> Result<(), NoMemory>
        ensures ok { OnOk result (out.new.items ≡ out.old.items ++ ledger_text self.now.root self.now.records) }
        ensures whole { OnOk result (ReadsIn Two self.now.root (drop (length out.old.items) out.new.items)
            self.now.records Nothing) }
        ensures err { OnErr result (out.new.items ≡ out.old.items) }
    {
        ledgers_load_whole();
        // The proof needs that the records are held from the root.
        let _ = self.root();
        let len = out.len();
        match append_ledger(self, out) {
            Ok(()) => Ok(()),
            Err(fault) => {
                out.truncate(len);
                Err(fault)
            }
        }
    }
}

// Appends a ledger; where memory is refused, a beginning of it.
#[tactic(auto, unfolding(crate::specs::LedgerText::ledger_text))]
fn append_ledger(board: &Board, out: &mut Vec<u8>) -> Result<(), NoMemory>
    ensures ok { OnOk result (out.new.items ≡ out.old.items ++ ledger_text board.now.root board.now.records) }
    ensures kept { take (length out.old.items) out.new.items ≡ out.old.items }
{
    append_header(board.root(), out)?;
    append_records(board.records(), out)
}

/// Appends the header of a root in version 2, with its newline; where memory is refused, a beginning of it.
pub fn append_header(root: &Table, out: &mut Vec<u8>) -> Result<(), NoMemory>
    ensures ok { OnOk result (out.new.items ≡ out.old.items ++ (header_words Two ++ text_of root.now ++ (10 ∷ []))) }
    ensures kept { take (length out.old.items) out.new.items ≡ out.old.items }
{
    let mut buf = [0; TEXT_BYTES];
    out.extend_from_slice(Format::Two.header_words())?;
    out.extend_from_slice(root.text(&mut buf))?;
    out.extend_from_slice(b"\n")
}

// Appends the lines of records; where memory is refused, a beginning of them.
fn append_records(records: Records<'_>, out: &mut Vec<u8>) -> Result<(), NoMemory>
    ensures ok { OnOk result (out.new.items ≡ out.old.items ++ joined (map (ledger_line Two) records.entry)) }
    ensures kept { take (length out.old.items) out.new.items ≡ out.old.items }
{
    for r in records {
        append_in(Format::Two, &r, out)?;
    }
    Ok(())
}
