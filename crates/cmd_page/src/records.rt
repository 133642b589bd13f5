// The page of a stream of records.
ghost use Rattle.std.specs.Prelude.{◌≡◌, ◌⊎◌, ◌++◌, ◌∷◌, [], List, ℕ, IfErr, IfOk};
ghost use Rattle.cmd_lines.specs.Terms.{lent};
ghost use Rattle.cmd_json.specs.Terms.{number_behind};
ghost use Rattle.cmd_page.specs.Page.{SaysEmbedded, WritesRecords, records_head_html, records_heading};

use crate::heading::{Heading, LedgerSum, Maker, append_origin};
use crate::look::{RECORD_LINES, RECORDS};
use crate::script::RECORDS_SCRIPT;
use crate::shell::{append_embedded, append_opening};
use cmd_json::explain_json_line;
use cmd_lines::{PIECE_BYTES, Sayer, say_lines};
use cmd_options::{Ended, Outcome};
use kind_evidence::NoMemory;
use std::alloc::Global;
use std::io::{Read, Write};

/// Reads a record a line and writes one page with an object of JSON for each, as `bb explain --json` prints it, under a
/// title of any bytes. An object is written as soon as its piece of the stream was taken; a last line without newline is
/// read too. A line that is refused has an object too, which says so, and makes the outcome that something was refused.
pub fn record_page_for<R: Read, W: Write>(
    alloc: Global,
    title: &str,
    maker: &Maker<'_>,
    input: &mut R,
    answers: &mut W,
) -> Result<Outcome, Ended>
    ensures ok { IfOk result (WritesRecords (records_heading title.now maker.now.version.now maker.now.sum)
        (R.remaining input.old) (R.remaining input.new) (W.contents answers.old) (W.contents answers.new)) }
    ensures err { IfErr result (λ e. (e ≡ Ended.NoMemory) ⊎ (e ≡ Ended.Stream)) }
{
    let heading = Heading {
        title,
        maker: *maker,
        ledgers: LedgerSum::NoLedger,
    };
    let head = head_of(alloc, &heading)?;
    answers.write_all(&head)?;
    let objects = Objects { alloc, lines: 0 };
    let (outcome, _) = say_lines(alloc, objects, PIECE_BYTES, input, answers)?;
    answers.write_all(RECORDS_SCRIPT)?;
    Ok(outcome)
}

// What stands before the objects: what the page is made by.
fn head_of(alloc: Global, heading: &Heading<'_>) -> Result<Vec<u8>, NoMemory>
    ensures { IfOk result (λ html. html.items ≡ records_head_html heading.now) }
{
    let mut html = Vec::new(alloc);
    append_opening(heading.title.as_bytes(), &mut html)?;
    html.extend_from_slice(RECORDS)?;
    append_origin(heading, &mut html)?;
    html.extend_from_slice(RECORD_LINES)?;
    Ok(html)
}

#[derive(Drop)]
struct Objects {
    alloc: Global,
    // how many lines there were
    lines: u64,
}

impl Sayer for Objects {
    ghost use Rattle.std.specs.Prelude.{◌≡◌};
    ghost use Rattle.cmd_options.specs.declared.ended.Ended.TheVariants.{NoMemory as WantsMemory};
    ghost use Rattle.cmd_json.specs.Terms.{SaysNumbered};
    ghost use Rattle.cmd_page.specs.Page.{SaysEmbedded};

    ghost takes = { λ old line o new said. SaysNumbered SaysEmbedded old.lines line o new.lines said };

    ghost ends = { λ e. e ≡ WantsMemory };

    fn take_line(&mut self, line: Option<&[u8]>, said: &mut Vec<u8>) -> Result<Outcome, Ended> {
        self.lines = number_behind(self.lines);
        Ok(append_object(self.alloc, self.lines, line, said)?)
    }
}

// Appends the object of the line of this number, which is none where it was too long, with a newline.
fn append_object(
    alloc: Global,
    number: u64,
    line: Option<&[u8]>,
    out: &mut Vec<u8>,
) -> Result<Outcome, NoMemory>
    ensures { IfOk result (λ o. (object : List ℕ) × SaysEmbedded number (lent line.entry) o object
        × (out.new.items ≡ out.old.items ++ object ++ 10 ∷ [])) }
{
    let mut object = Vec::new(alloc);
    let outcome = explain_json_line(alloc, number, line, &mut object)?;
    append_embedded(&object, out)?;
    Ok(outcome)
}

// The number of the line behind so many.
fn number_behind(lines: u64) -> u64
    ensures { result ≡ number_behind lines }
{
    if lines < u64::MAX { lines + 1 } else { lines }
}
