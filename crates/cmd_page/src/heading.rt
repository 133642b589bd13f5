// What a page is of, what it is made from, and what it counts beside its report.
ghost use Rattle.std.specs.Prelude.{◌≡◌, ◌++◌, OnOk, length, slice_index};
ghost use Rattle.cmd_page.specs.Page.{ledgers_html, origin_html, program_html, sum_html, version_html};
ghost use Rattle.cmd_page.specs.Census.{census_numbers, comma, counts_json, item_json, kind_json, kinds_json, left_json, numbers_json, rest_json};

use crate::census::Census;
use crate::shell::append_escaped;
use crate::sums::append_hex;
use cmd_options::LETTERS;
use kind_evidence::NoMemory;
use ledger::Left;
use std::marker::Model;
use text::append_number;

/// What a page is of, and what it is made from, so that it can be cited.
#[derive(Drop)]
pub struct Heading<'a> {
    /// The title, which may have any bytes.
    pub title: &'a str,
    /// The program that makes it.
    pub maker: Maker<'a>,
    /// The SHA-256 of what the page is of.
    pub ledgers: LedgerSum,
}

impl<'a> Model for Heading<'a> {
    ghost use Rattle.cmd_page.specs.Page.{Headed};

    ghost Value = { Headed };

    ghost view = { λ h. record {
      title = h.title.now;
      version = h.maker.version.now;
      program = h.maker.sum;
      ledgers = h.ledgers;
    } };
}

/// A program that makes pages.
#[derive(Clone, Copy, Debug)]
pub struct Maker<'a> {
    /// The version.
    pub version: &'a str,
    /// The SHA-256 of its own bytes; none where they can't be read.
    pub sum: Option<[u8; 32]>,
}

/// The SHA-256 of what a page is of.
#[derive(Clone, Copy, Debug)]
pub enum LedgerSum {
    /// Of no ledger, as on a page of records.
    NoLedger,
    /// Of the bytes of a ledger.
    Ledger([u8; 32]),
    /// Of the list of a folder's ledgers.
    Folder([u8; 32]),
}

// About the version of the program.
const MADE_BY: &[u8] = b"<tr><th scope='row'>Made by</th><td>bb ";

const MADE_BY_END: &[u8] = b"</td></tr>\n";

// About the name and the digits of a sum.
const ROW: &[u8] = b"<tr><th scope='row'>";

const SUM: &[u8] = b"</th><td><code>";

const SUM_END: &[u8] = b"</code></td></tr>\n";

// Appends the rows that say what a page is made from.
#[tactic(auto, unfolding(crate::specs::Page::origin_html))]
pub(crate) fn append_origin(heading: &Heading<'_>, out: &mut Vec<u8>) -> Result<(), NoMemory>
    ensures { OnOk result (out.new.items ≡ out.old.items ++ origin_html heading.now) }
{
    append_version(heading.maker.version, out)?;
    append_program(heading.maker.sum, out)?;
    append_ledgers(heading.ledgers, out)
}

// Appends the row of the program's version.
#[tactic(auto, unfolding(crate::specs::Page::version_html))]
fn append_version(version: &str, out: &mut Vec<u8>) -> Result<(), NoMemory>
    ensures { OnOk result (out.new.items ≡ out.old.items ++ version_html version.now) }
{
    out.extend_from_slice(MADE_BY)?;
    append_escaped(version.as_bytes(), out)?;
    out.extend_from_slice(MADE_BY_END)
}

// Appends the row of the program's sum, where it is known.
#[tactic(auto, unfolding(crate::specs::Page::program_html))]
fn append_program(sum: Option<[u8; 32]>, out: &mut Vec<u8>) -> Result<(), NoMemory>
    ensures { OnOk result (out.new.items ≡ out.old.items ++ program_html sum) }
{
    match sum {
        Some(sum) => append_sum(b"SHA-256 of the program", &sum, out),
        None => Ok(()),
    }
}

// Appends the row of the sum of what the page is of, where it is known.
#[tactic(auto, unfolding(crate::specs::Page::ledgers_html))]
fn append_ledgers(sum: LedgerSum, out: &mut Vec<u8>) -> Result<(), NoMemory>
    ensures { OnOk result (out.new.items ≡ out.old.items ++ ledgers_html sum) }
{
    match sum {
        LedgerSum::NoLedger => Ok(()),
        LedgerSum::Ledger(sum) => append_sum(b"SHA-256 of the ledger", &sum, out),
        LedgerSum::Folder(sum) => append_sum(b"SHA-256 of the list of its ledgers", &sum, out),
    }
}

// Appends the row of a sum.
#[tactic(auto, unfolding(crate::specs::Page::sum_html))]
fn append_sum(name: &[u8], sum: &[u8; 32], out: &mut Vec<u8>) -> Result<(), NoMemory>
    ensures { OnOk result (out.new.items ≡ out.old.items ++ sum_html name.now sum.now) }
{
    out.extend_from_slice(ROW)?;
    out.extend_from_slice(name)?;
    out.extend_from_slice(SUM)?;
    append_hex(sum, out)?;
    out.extend_from_slice(SUM_END)
}

// Appends the object of a census, and of what wasn't kept of a ledger.
#[tactic(auto, unfolding(crate::specs::Census::counts_json))]
pub(crate) fn append_counts(census: &Census, left: &Left, out: &mut Vec<u8>) -> Result<(), NoMemory>
    ensures { OnOk result (out.new.items ≡ out.old.items ++ counts_json (census_numbers census.now) left.now) }
{
    out.extend_from_slice(b"{\"entries\":[")?;
    append_numbers(&census.entries, out)?;
    out.extend_from_slice(b"],\"left\":")?;
    append_left(left, out)?;
    append_rest(census, out)
}

// Appends the members behind those.
#[tactic(auto, unfolding(crate::specs::Census::rest_json))]
fn append_rest(census: &Census, out: &mut Vec<u8>) -> Result<(), NoMemory>
    ensures { OnOk result (out.new.items ≡ out.old.items ++ rest_json (census_numbers census.now)) }
{
    out.extend_from_slice(b",\"steps\":[")?;
    append_numbers(&census.steps, out)?;
    out.extend_from_slice(b"]")?;
    append_kinds(&census.kinds, out)?;
    out.extend_from_slice(b"}\n")
}

// Appends from which line on a ledger isn't kept, or null.
fn append_left(left: &Left, out: &mut Vec<u8>) -> Result<(), NoMemory>
    ensures { OnOk result (out.new.items ≡ out.old.items ++ left_json left.now) }
{
    match left {
        Left::Nothing => out.extend_from_slice(b"null"),
        Left::From { line, .. } => append_number(*line, out),
    }
}

// Appends numbers, with a comma between two.
fn append_numbers(numbers: &[u64], out: &mut Vec<u8>) -> Result<(), NoMemory>
    ensures { OnOk result (out.new.items
        ≡ out.old.items ++ numbers_json (length numbers.now) (slice_index numbers.now)) }
{
    for k in 0..numbers.len() {
        append_item(k, numbers[k], out)?;
    }
    Ok(())
}

// Appends the number at a place.
#[tactic(auto, unfolding(crate::specs::Census::item_json))]
fn append_item(place: usize, n: u64, out: &mut Vec<u8>) -> Result<(), NoMemory>
    ensures { OnOk result (out.new.items ≡ out.old.items ++ item_json place n) }
{
    append_comma(place, out)?;
    append_number(n, out)
}

// Appends a comma, except before the first.
fn append_comma(place: usize, out: &mut Vec<u8>) -> Result<(), NoMemory>
    ensures { OnOk result (out.new.items ≡ out.old.items ++ comma place) }
{
    if place == 0 {
        return Ok(());
    }
    out.extend_from_slice(b",")
}

// Appends how many there are of each kind, by its letter.
fn append_kinds(kinds: &[u64; 256], out: &mut Vec<u8>) -> Result<(), NoMemory>
    ensures { OnOk result (out.new.items ≡ out.old.items ++ kinds_json (slice_index kinds.now)) }
{
    for letter in LETTERS {
        append_kind(*letter, kinds[*letter as usize], out)?;
    }
    Ok(())
}

// Appends how many there are of the kind of a letter.
#[tactic(auto, unfolding(crate::specs::Census::kind_json))]
fn append_kind(letter: u8, n: u64, out: &mut Vec<u8>) -> Result<(), NoMemory>
    ensures { OnOk result (out.new.items ≡ out.old.items ++ kind_json letter n) }
{
    out.extend_from_slice(b",\"")?;
    out.push(letter)?;
    out.extend_from_slice(b"\":")?;
    append_number(n, out)
}
