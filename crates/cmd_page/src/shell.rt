// A page's texts, put together, and texts in HTML.
ghost use Rattle.std.specs.Prelude.{◌≡◌, ◌++◌, OnOk, List, ℕ, Contains};
ghost use Rattle.cmd_page.specs.Page.{embedded, entity, escaped, inner_byte, front_html, opening_html, page_html, policy, told_html, EndsText};
ghost use Rattle.cmd_page.specs.Census.{census_numbers, counts_json};

use crate::census::Census;
use crate::heading::{Heading, append_counts, append_origin};
use crate::look::{COUNTS, HEADING, JSON, LINES, LOOK, PAGE_START, REPORT};
use crate::page::page_of;
use crate::picture::PICTURE;
use crate::script::{REPORT_SCRIPT, TOOLS};
use cmd_ledgers::{ReportForm, Told};
use kind_evidence::NoMemory;
use ledger::Left;
use std::alloc::Global;
use std::io::{self, Write};

/// A report as a page, of records that were counted.
#[derive(Drop)]
pub(crate) struct Page<'a> {
    /// What it is of.
    pub(crate) heading: &'a Heading<'a>,
    /// How many records there are.
    pub(crate) census: &'a Census,
}

impl ReportForm for Page<'_> {
    ghost use Rattle.cmd_page.specs.Census.{census_numbers};
    ghost use Rattle.cmd_page.specs.Page.{IsPageWith};

    type Made = Vec<u8>;

    ghost is_text = { λ page. IsPageWith (census_numbers page.census.now) page.heading.now };

    ghost bytes = { λ page. page.items };

    fn make(&self, alloc: Global, told: Told, left: &Left) -> Result<Vec<u8>, NoMemory> {
        page_of(alloc, self.heading, self.census, told, left)
    }

    fn write<W: Write>(&self, made: Vec<u8>, answers: &mut W) -> io::Result<()> {
        answers.write_all(&made)
    }
}

/// Appends a text as it stands in HTML, whatever its bytes.
pub(crate) fn append_escaped(text: &[u8], out: &mut Vec<u8>) -> Result<(), NoMemory>
    ensures { OnOk result (out.new.items ≡ out.old.items ++ escaped text.now) }
{
    for byte in text {
        append_entity(*byte, out)?;
    }
    Ok(())
}

// Appends what stands for a byte.
#[tactic(auto, unfolding(crate::specs::Page::entity))]
fn append_entity(byte: u8, out: &mut Vec<u8>) -> Result<(), NoMemory>
    ensures { OnOk result (out.new.items ≡ out.old.items ++ entity byte) }
{
    match byte {
        b'"' => out.extend_from_slice(b"&quot;"),
        b'&' => out.extend_from_slice(b"&amp;"),
        b'\'' => out.extend_from_slice(b"&#39;"),
        b'<' => out.extend_from_slice(b"&lt;"),
        b'>' => out.extend_from_slice(b"&gt;"),
        _ => Ok(out.push(byte)?),
    }
}

/// Appends JSON as it stands within a page, where it says the same, and no tag or comment begins.
pub(crate) fn append_embedded(json: &[u8], out: &mut Vec<u8>) -> Result<(), NoMemory>
    ensures { OnOk result (out.new.items ≡ out.old.items ++ embedded json.now) }
{
    for byte in json {
        append_inner(*byte, out)?;
    }
    Ok(())
}

// Appends what stands for a byte of JSON.
#[tactic(auto, unfolding(crate::specs::Page::inner_byte))]
fn append_inner(byte: u8, out: &mut Vec<u8>) -> Result<(), NoMemory>
    ensures { OnOk result (out.new.items ≡ out.old.items ++ inner_byte byte) }
{
    match byte {
        b'&' => out.extend_from_slice(b"\\u0026"),
        b'<' => out.extend_from_slice(b"\\u003c"),
        _ => Ok(out.push(byte)?),
    }
}

// What a browser may do for the page.
#[tactic(auto, unfolding(crate::specs::Page::policy))]
fn policy() -> &'static [u8]
    ensures { result.now ≡ policy }
{
    b"<meta http-equiv='Content-Security-Policy' content=\"default-src 'none';style-src 'unsafe-inline';\
script-src 'unsafe-inline';base-uri 'none';form-action 'none'\">\n"
}

// Appends the beginning of a page under a title, of any bytes, up to the end of its heading.
#[tactic(auto, unfolding(crate::specs::Page::opening_html))]
pub(crate) fn append_opening(title: &[u8], out: &mut Vec<u8>) -> Result<(), NoMemory>
    ensures { OnOk result (out.new.items ≡ out.old.items ++ opening_html title.now) }
{
    append_front(out)?;
    append_escaped(title, out)?;
    out.extend_from_slice(HEADING)?;
    append_escaped(title, out)
}

// Appends what stands before a title.
#[tactic(auto, unfolding(crate::specs::Page::front_html))]
fn append_front(out: &mut Vec<u8>) -> Result<(), NoMemory>
    ensures { OnOk result (out.new.items ≡ out.old.items ++ front_html) }
{
    out.extend_from_slice(PAGE_START)?;
    out.extend_from_slice(policy())?;
    out.extend_from_slice(LOOK)?;
    out.extend_from_slice(PICTURE)?;
    out.extend_from_slice(TOOLS)
}

// Appends the page of a report, of these lines and of this JSON, under a heading.
#[tactic(auto, unfolding(crate::specs::Page::page_html))]
pub(crate) fn append_page(
    heading: &Heading<'_>,
    lines: &[u8],
    json: &[u8],
    census: &Census,
    left: &Left,
    out: &mut Vec<u8>,
) -> Result<(), NoMemory>
    ensures { OnOk result (out.new.items ≡ out.old.items ++ page_html heading.now lines.now json.now
        (counts_json (census_numbers census.now) left.now)) }
{
    append_opening(heading.title.as_bytes(), out)?;
    out.extend_from_slice(REPORT)?;
    append_origin(heading, out)?;
    out.extend_from_slice(LINES)?;
    append_escaped(lines, out)?;
    append_told(json, census, left, out)
}

// Appends what the script reads, and the script.
#[tactic(auto, unfolding(crate::specs::Page::told_html))]
fn append_told(json: &[u8], census: &Census, left: &Left, out: &mut Vec<u8>) -> Result<(), NoMemory>
    ensures { OnOk result (out.new.items ≡ out.old.items
        ++ told_html json.now (counts_json (census_numbers census.now) left.now)) }
{
    out.extend_from_slice(JSON)?;
    append_embedded(json, out)?;
    out.extend_from_slice(COUNTS)?;
    append_counts(census, left, out)?;
    out.extend_from_slice(REPORT_SCRIPT)
}

/// A text that is escaped has no byte that begins or ends a tag or ends what is quoted, and nothing is lost: two texts
/// that are escaped alike are one.
pub fn escaped_is_plain()
    ensures plain { (text : List ℕ) (byte : ℕ) → EndsText byte → Contains (escaped text) byte → ⊥ }
    ensures one { (a b : List ℕ) → escaped a ≡ escaped b → a ≡ b }
{}

/// In JSON that stands within a page there is no `<`, with which each tag and each comment begins, `</script` among them.
pub fn embedded_begins_no_tag()
    ensures { (json : List ℕ) → Contains (embedded json) 60 → ⊥ }
{}
