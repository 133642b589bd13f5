// The page of a board, of a ledger and of a folder.
ghost use Rattle.std.specs.Prelude.{◌≡◌, ◌++◌, List, ℕ, IfOk, ◌⊎◌, IfErr, OnOk, ◌^◌, ◌<◌, None, length};
ghost use Rattle.std.specs.Vec.Iter.{into_iter_items};
ghost use Rattle.std.specs.Io.KnownBytes.{Appends};
ghost use Rattle.machine_text.specs.Terms.{Packed};
ghost use Rattle.cert.specs.Terms.{Recorded};
ghost use Rattle.cmd_ledgers.specs.Terms.{IsToldOf, WritesLedger, AreFirstBytes};
ghost use Rattle.cmd_page.specs.Census.{census_numbers};
ghost use Rattle.cmd_page.specs.Page.{IsPageWith, ledger_heading, IsPage, TellsFolder};
ghost use Rattle.sha2.specs.Sha256.{sha256};
ghost use Rattle.ledger.specs.Terms.{Contents};
ghost use Rattle.totals.specs.Terms.{joined_with, IsWhole};
ghost use Rattle.cmd_parts.specs.Terms.{finds_at, WarnsFirst};
ghost use Rattle.cmd_options.specs.Terms.{PrintsNothing};

use crate::census::{Census, Counting, census_of};
use crate::heading::{Heading, LedgerSum, Maker};
use crate::shell::{Page, append_page};
use crate::sums::{list_sum, load_summed};
use cmd_json::LinesOrJson;
use cmd_ledgers::{AsLines, ReportForm, Told, outcome_by, write_report};
use cmd_options::{Ended, Outcome, Stopped};
use cmd_parts::{PartLedgers, PartsAt, gather, open_tables, tell_whole};
use files::Files;
use kind_evidence::NoMemory;
use ledger::{Board, Left};
use machine_text::Table;
use std::alloc::Global;
use std::io::{Read, Write};
use std::vec::IntoIter;
use totals::Whole;

// Makes the page of what is counted and told.
pub(crate) fn page_of(
    alloc: Global,
    heading: &Heading<'_>,
    census: &Census,
    told: Told,
    left: &Left,
) -> Result<Vec<u8>, NoMemory>
    ensures { IfOk result (λ page. (root : Packed) (rs : List Recorded) → IsToldOf root rs told
        → IsPageWith (census_numbers census.now) heading.now root rs left.now page.items) }
{
    let (told, again) = twice(alloc, told)?;
    let lines = text_in(alloc, &AsLines, told, left)?;
    let json = text_in(alloc, &LinesOrJson::Json, again, left)?;
    let mut page = Vec::new(alloc);
    append_page(heading, &lines, &json, census, left, &mut page)?;
    Ok(page)
}

// The text of a report in a form.
fn text_in<P: ReportForm>(
    alloc: Global,
    form: &P,
    told: Told,
    left: &Left,
) -> Result<Vec<u8>, NoMemory>
    ensures { IfOk result (λ text. (root : Packed) (rs : List Recorded) → IsToldOf root rs told
        → P.is_text form.now root rs left.now text.items) }
{
    let made = form.make(alloc, told, left)?;
    let mut text = Vec::new(alloc);
    match form.write(made, &mut text) {
        Ok(()) => Ok(text),
        Err(_) => Err(NoMemory),
    }
}

// What is told, twice.
fn twice(alloc: Global, told: Told) -> Result<(Told, Told), NoMemory>
    ensures { IfOk result (λ both. (root : Packed) (rs : List Recorded) → IsToldOf root rs told
        → IsToldOf root rs both.0 × IsToldOf root rs both.1) }
{
    let Told {
        root,
        status,
        tally,
        champions,
        ones_champions,
        holdouts,
    } = told;
    let champions = copies(alloc, champions)?;
    let ones_champions = copies(alloc, ones_champions)?;
    let holdouts = copies(alloc, holdouts)?;
    let first = Told {
        root,
        status,
        tally,
        champions: champions.0,
        ones_champions: ones_champions.0,
        holdouts: holdouts.0,
    };
    let second = Told {
        root,
        status,
        tally,
        champions: champions.1,
        ones_champions: ones_champions.1,
        holdouts: holdouts.1,
    };
    Ok((first, second))
}

// The tables that are left, twice.
fn copies(
    alloc: Global,
    tables: IntoIter<Table>,
) -> Result<(IntoIter<Table>, IntoIter<Table>), NoMemory>
    ensures first { IfOk result (λ both. into_iter_items both.0 ≡ into_iter_items tables) }
    ensures second { IfOk result (λ both. into_iter_items both.1 ≡ into_iter_items tables) }
{
    let mut first = Vec::new(alloc);
    for table in tables {
        first.push(table)?;
    }
    let second = Vec::from_slice(alloc, &first)?;
    Ok((first.into_iter(), second.into_iter()))
}

// Writes the page of a board under a heading, and says what wasn't kept of its ledger. Where memory is refused, nothing was
// written.
pub(crate) fn write_page<W: Write>(
    alloc: Global,
    heading: &Heading<'_>,
    board: &Board,
    left: &Left,
    answers: &mut W,
) -> Result<(), Ended>
    ensures ok { OnOk result ((text : List ℕ) × IsPage heading.now board.now.root board.now.records left.now text
        × Appends (W.contents answers.old) (W.contents answers.new) text) }
    ensures err { IfErr result (λ e. ((e ≡ Ended.NoMemory) × (answers.new ≡ answers.old)) ⊎ (e ≡ Ended.Stream)) }
{
    let census = census_of(board);
    let page = Page {
        heading,
        census: &census,
    };
    write_report(alloc, &page, board, left, answers)
}

/// Writes the page of the ledger that a reader has in its first bytes, up to a limit, under a title, with the SHA-256 of these
/// very bytes, which are read once: accepted where the board is complete and all was kept. Answers what is left as well.
pub fn write_ledger_page<R: Read, W: Write>(
    alloc: Global,
    title: &str,
    maker: &Maker<'_>,
    from: &mut R,
    limit: u64,
    answers: &mut W,
) -> Result<(Outcome, Left), Stopped>
    ensures ok { IfOk result (λ r. (text : List ℕ) × AreFirstBytes (R.remaining from.old) limit text
        × WritesLedger (IsPage (ledger_heading title.now maker.now.version.now maker.now.sum (sha256 text))) text
        r.0 r.1 (W.contents answers.old) (W.contents answers.new)) }
    ensures err { IfErr result (λ e. (e ≡ Stopped.Ended Ended.Stream) ⊎ (answers.new ≡ answers.old)) }
{
    let (board, left, sum) = load_summed(alloc, from, limit)?;
    let heading = Heading {
        title,
        maker: *maker,
        ledgers: LedgerSum::Ledger(sum),
    };
    write_page(alloc, &heading, &board, &left, answers)?;
    Ok((outcome_by(board.status(), &left), left))
}

// Writes the page of the trunk in a folder and of the parts beside it, under a title, with the SHA-256 of the list of its
// ledgers, which are read once more for that. What is wrong with the trunk or a part is said on `faults` behind its path,
// as `join_parts` has it, and so is what it answers.
pub(crate) fn write_folder_page<S: PartLedgers, W: Write, E: Write>(
    alloc: Global,
    maker: &Maker<'_>,
    title: &str,
    folder: &str,
    parts: &S,
    answers: &mut W,
    faults: &mut E,
) -> Result<Outcome, Ended>
    ensures tells { IfOk result (TellsFolder title.now maker.now.version.now maker.now.sum (S.finds parts.now)
        folder.now (W.contents answers.old) (W.contents answers.new) (E.contents faults.old) (E.contents faults.new)) }
    ensures silent { IfErr result (λ e. PrintsNothing e (W.contents answers.old) (W.contents answers.new)) }
    ensures warned { IfErr result (WarnsFirst (S.finds parts.now) folder.now (E.contents faults.old)
        (E.contents faults.new)) }
{
    let mut counting = Counting {
        census: Census::new(),
    };
    let (whole, is_sound) = gather(alloc, folder, parts, &mut counting, faults)?;
    count_fits(&whole);
    let roots = open_tables(alloc, whole.trunk())?;
    let sum = list_sum(alloc, folder, parts, &roots)?;
    let heading = Heading {
        title,
        maker: *maker,
        ledgers: LedgerSum::Folder(sum),
    };
    let page = Page {
        heading: &heading,
        census: &counting.census,
    };
    tell_whole(alloc, &page, &whole, is_sound, answers)
}

// All records of a whole are no more than 64 bits count.
fn count_fits(whole: &Whole)
    ensures { (parts : List Contents) → IsWhole whole.now parts
        → length (joined_with whole.now.trunk.records parts) < 2 ^ 64 }
{
    let _tally = whole.tally();
}

/// Writes the page of the trunk in a folder of a host's files and of the parts beside it, under a title, with the SHA-256
/// of the list of its ledgers, which are read once more for that. What is wrong with the trunk or a part is said on `faults`
/// behind its path, as `join_parts` has it, and so is what it answers.
pub fn folder_page_at<H: Files, W: Write, E: Write>(
    alloc: Global,
    maker: &Maker<'_>,
    title: &str,
    folder: &str,
    host: &H,
    answers: &mut W,
    faults: &mut E,
) -> Result<Outcome, Ended>
    ensures tells { IfOk result (TellsFolder title.now maker.now.version.now maker.now.sum (finds_at (H.holds host.now))
        folder.now (W.contents answers.old) (W.contents answers.new) (E.contents faults.old)
        (E.contents faults.new)) }
    ensures silent { IfErr result (λ e. PrintsNothing e (W.contents answers.old) (W.contents answers.new)) }
    ensures warned { IfErr result (WarnsFirst (finds_at (H.holds host.now)) folder.now (E.contents faults.old)
        (E.contents faults.new)) }
{
    let parts = PartsAt {
        host,
        written: None,
    };
    write_folder_page(alloc, maker, title, folder, &parts, answers, faults)
}
