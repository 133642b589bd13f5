// `bb draw`: tables in, one picture or a file for each out.
ghost use Rattle.std.specs.Prelude.{◌≡◌, IfErr, IfNone, IfOk, IfSome, ℕ, List, OnOk, Option, ◌++◌, ◌∷◌, [], string_bytes};
ghost use Rattle.cmd_options.specs.Terms.{PrintsNothing};
ghost use Rattle.cmd_lines.specs.Terms.{EndsSaying, WritesFirst, IsSaidToFirst, TakesStream, fault_text, lent};
ghost use Rattle.cmd_show.specs.Drawn.{DrawsFiles, DrawsFirstLines, DrawsFirst, EndsPicture, PicksFirst, PutsFile, PicksTable, WritesPicture, table_asked, AnswersAsked, DrawsLine, DrawsTable, drawn_text, named_path, picture_path};
ghost use Rattle.cmd_show.specs.Shown.{EndsDrawing};
ghost use Rattle.wire.specs.Terms.{grown};
ghost use Rattle.files.specs.Terms.{IsBlank, IsKept, IsToldStill};

use crate::show::table_asked;
use crate::view::picture_of;
use cert::{RecordFault, append_table};
use cmd_lines::{PIECE_BYTES, Sayer, append_fault, say_lines};
use cmd_options::{Drawing, Ended, LedgerFile, Outcome, ended_by, told};
use files::Files;
use machine_text::{TEXT_BYTES, Table};
use std::alloc::Global;
use std::io::{Read, Write};
use tape::NoMemory;
use wire::append_all;

/// Reads a table or a record a line, and draws a space-time picture of each table: in a folder, where one is asked for, as
/// `draw_files` does; else of the first alone, to `answers`, as `draw_first` does, and no file changes. What a failed stream
/// or file or refused memory ends is said on `faults`: then what was said to the first lines is all that was, in full where
/// memory was refused.
pub fn cmd_draw<H: Files, R: Read, W: Write, E: Write>(
    alloc: Global,
    drawing: &Drawing<'_>,
    host: &mut H,
    input: &mut R,
    answers: &mut W,
    faults: &mut E,
) -> Outcome
    ensures first { IfNone drawing.now.out (EndsPicture (R.remaining input.old) (R.remaining input.new)
        (W.contents answers.old) (W.contents answers.new) (E.contents faults.old) (E.contents faults.new) result) }
    ensures files { IfSome drawing.now.out (λ folder. EndsSaying
        (DrawsFiles H.tells_same H.holds folder.now host.old (R.remaining input.old) (R.remaining input.new)
        (W.contents answers.old) (W.contents answers.new))
        (DrawsFirstLines H.tells_same H.holds folder.now host.old (R.remaining input.old)
        (R.remaining input.new)) (W.contents answers.old) (W.contents answers.new) result) }
    ensures stays { IfNone drawing.now.out (host.new ≡ host.old) }
{
    told(
        draw_asked(alloc, drawing, host, input, answers, faults),
        faults,
    )
}

// Draws as `cmd_draw` does, but answers what ends it early, and doesn't say it.
fn draw_asked<H: Files, R: Read, W: Write, E: Write>(
    alloc: Global,
    drawing: &Drawing<'_>,
    host: &mut H,
    input: &mut R,
    answers: &mut W,
    faults: &mut E,
) -> Result<Outcome, Ended>
    ensures first { IfOk result (λ o. IfNone drawing.now.out
        (DrawsFirst (R.remaining input.old) (R.remaining input.new) (W.contents answers.old)
        (W.contents answers.new) (E.contents faults.old) (E.contents faults.new) o)) }
    ensures files { IfOk result (λ o. IfSome drawing.now.out
        (λ folder. DrawsFiles H.tells_same H.holds folder.now host.old (R.remaining input.old)
        (R.remaining input.new) (W.contents answers.old) (W.contents answers.new) o)) }
    ensures first_picks { IfErr result (λ e. IfNone drawing.now.out (WritesFirst (PicksFirst (R.remaining input.old)
        (R.remaining input.new)) (E.contents faults.old) (E.contents faults.new) e)) }
    ensures silent { IfErr result (λ e. IfNone drawing.now.out
        (PrintsNothing e (W.contents answers.old) (W.contents answers.new))) }
    ensures first_files { IfErr result (λ e. IfSome drawing.now.out (λ folder. WritesFirst (DrawsFirstLines H.tells_same
        H.holds folder.now host.old (R.remaining input.old) (R.remaining input.new))
        (W.contents answers.old) (W.contents answers.new) e)) }
    ensures stays { IfNone drawing.now.out (host.new ≡ host.old) }
    ensures err { IfErr result EndsDrawing }
{
    match drawing.out {
        Some(folder) => draw_files(alloc, drawing, folder, host, input, answers),
        None => draw_first(alloc, drawing, input, answers, faults),
    }
}

// Puts a file of these bytes at a path, in place of what is there if that is to be replaced.
pub(crate) fn put_file<H: Files>(
    host: &mut H,
    path: &str,
    replace: bool,
    bytes: &[u8],
) -> Result<(), Ended>
    ensures ok { OnOk result (PutsFile (H.tells_same host.old) path.now bytes.now (H.holds host.old)
        (H.holds host.new)) }
    ensures still { IsToldStill (H.tells_same host.old) (H.tells_same host.new) }
    ensures err { IfErr result (λ e. EndsDrawing e × IsKept (H.holds host.old) (H.holds host.new)) }
{
    let made = made_of(host, path, replace, bytes)?;
    match host.put(made, path) {
        Ok(()) => Ok(()),
        Err(fault) => Err(ended_by(&fault, Ended::File)),
    }
}

// A file of these bytes that is to be put at a path.
fn made_of<H: Files>(host: &H, path: &str, replace: bool, bytes: &[u8]) -> Result<H::Made, Ended>
    ensures ok { IfOk result (λ made. (begun : Option (List ℕ)) × IsBlank begun
        × (H.Made.text made ≡ grown begun bytes.now)) }
    ensures err { IfErr result EndsDrawing }
{
    let mut made = match host.make(&LedgerFile::at(path), replace, &[]) {
        Ok(made) => made,
        Err(fault) => return Err(ended_by(&fault, Ended::File)),
    };
    match append_all(&mut made, bytes) {
        Ok(()) => Ok(made),
        Err(_) => Err(Ended::File),
    }
}

// What is said to a table that is one too many.
const ANOTHER_TABLE: &[u8] = b"refused 306\n";

/// The table of the first line that asked for one.
#[derive(Drop)]
pub struct First {
    pub table: Option<Table>,
}

impl Sayer for First {
    ghost use Rattle.cmd_show.specs.Drawn.{Picks};
    ghost use Rattle.cmd_show.specs.Shown.{EndsDrawing};

    ghost takes = { Picks };

    ghost ends = { EndsDrawing };

    fn take_line(&mut self, line: Option<&[u8]>, said: &mut Vec<u8>) -> Result<Outcome, Ended> {
        match table_asked(line) {
            Ok(t) => Ok(self.pick(t, said)?),
            Err(fault) => {
                append_fault_line(fault, said)?;
                Ok(Outcome::Refused)
            }
        }
    }
}

impl First {
    // Keeps a table, or says that it is one too many.
    fn pick(&mut self, t: Table, said: &mut Vec<u8>) -> Result<Outcome, NoMemory>
        ensures { IfOk result (λ o. (more : List ℕ) × PicksTable t self.old.table o self.new.table more
            × (said.new.items ≡ said.old.items ++ more)) }
    {
        if self.table.is_some() {
            said.extend_from_slice(ANOTHER_TABLE)?;
            return Ok(Outcome::Refused);
        }
        self.table = Some(t);
        Ok(Outcome::Accepted)
    }
}

// Appends a fault of a line's text, with a newline.
fn append_fault_line(fault: RecordFault, said: &mut Vec<u8>) -> Result<(), NoMemory>
    ensures { OnOk result (said.new.items ≡ said.old.items ++ fault_text fault ++ 10 ∷ []) }
{
    append_fault(fault, said)?;
    said.extend_from_slice(b"\n")
}

/// Reads a table or a record a line, to the end, and then writes the picture of the first table. What is wrong with another
/// line, and that a table is one too many, is said on `faults`, as the lines come. Where that ends early, no picture is
/// written, and what was said is what is said to the first lines, in full unless a stream failed.
pub fn draw_first<R: Read, W: Write, E: Write>(
    alloc: Global,
    drawing: &Drawing<'_>,
    input: &mut R,
    answers: &mut W,
    faults: &mut E,
) -> Result<Outcome, Ended>
    ensures ok { IfOk result (DrawsFirst (R.remaining input.old) (R.remaining input.new)
        (W.contents answers.old) (W.contents answers.new) (E.contents faults.old) (E.contents faults.new)) }
    ensures first { IfErr result (WritesFirst (PicksFirst (R.remaining input.old) (R.remaining input.new))
        (E.contents faults.old) (E.contents faults.new)) }
    ensures silent { IfErr result (λ e. PrintsNothing e (W.contents answers.old) (W.contents answers.new)) }
    ensures err { IfErr result EndsDrawing }
{
    let (outcome, first) = say_lines(alloc, First { table: None }, PIECE_BYTES, input, faults)?;
    write_picture(alloc, drawing, first.table, answers)?;
    Ok(outcome)
}

// Writes the picture of a table, if there is one.
fn write_picture<W: Write>(
    alloc: Global,
    drawing: &Drawing<'_>,
    table: Option<Table>,
    answers: &mut W,
) -> Result<(), Ended>
    ensures ok { OnOk result (WritesPicture table (W.contents answers.old) (W.contents answers.new)) }
    ensures silent { IfErr result (λ e. PrintsNothing e (W.contents answers.old) (W.contents answers.new)) }
    ensures err { IfErr result EndsDrawing }
{
    let Some(t) = table else {
        return Ok(());
    };
    let picture = picture_of(alloc, &t, drawing)?;
    answers.write_all(&picture)?;
    Ok(())
}

// How many bytes are read at once: of a few tables, so that each is answered before many others are drawn.
const FEW_BYTES: usize = 64;

/// Reads a table or a record a line, and makes the picture of each table a file of a folder, under the table's text. It
/// answers a line with what became of it, as soon as it has. Where that ends early, what was printed is the answers to the
/// first lines, in full unless a stream failed.
pub fn draw_files<H: Files, R: Read, W: Write>(
    alloc: Global,
    drawing: &Drawing<'_>,
    folder: &str,
    host: &mut H,
    input: &mut R,
    answers: &mut W,
) -> Result<Outcome, Ended>
    ensures ok { IfOk result (DrawsFiles H.tells_same H.holds folder.now host.old (R.remaining input.old)
        (R.remaining input.new) (W.contents answers.old) (W.contents answers.new)) }
    ensures first { IfErr result (WritesFirst (DrawsFirstLines H.tells_same H.holds folder.now host.old
        (R.remaining input.old) (R.remaining input.new)) (W.contents answers.old) (W.contents answers.new)) }
    ensures err { IfErr result EndsDrawing }
{
    match host.make_folder(folder) {
        Ok(()) => draw_within(alloc, drawing, folder, host, input, answers),
        Err(fault) => Err(ended_by(&fault, Ended::File)),
    }
}

// Draws as `draw_files` does, in a folder that is there.
fn draw_within<H: Files, R: Read, W: Write>(
    alloc: Global,
    drawing: &Drawing<'_>,
    folder: &str,
    host: &mut H,
    input: &mut R,
    answers: &mut W,
) -> Result<Outcome, Ended>
    ensures ok { IfOk result (λ o. (last : H)
        × TakesStream (DrawsLine H.tells_same H.holds folder.now) host.old last (R.remaining input.old)
        (R.remaining input.new) (W.contents answers.old) (W.contents answers.new) o) }
    ensures first { IfErr result (WritesFirst (IsSaidToFirst (DrawsLine H.tells_same H.holds folder.now)
        host.old (R.remaining input.old) (R.remaining input.new)) (W.contents answers.old) (W.contents answers.new)) }
    ensures err { IfErr result EndsDrawing }
{
    let pictures = Pictures {
        alloc,
        drawing,
        folder,
        host,
    };
    let (outcome, _) = say_lines(alloc, pictures, FEW_BYTES, input, answers)?;
    Ok(outcome)
}

// The pictures of a folder, which are drawn so.
#[derive(Drop)]
struct Pictures<'a, H> {
    alloc: Global,
    drawing: &'a Drawing<'a>,
    folder: &'a str,
    host: &'a mut H,
}

impl<H: Files> Sayer for Pictures<'_, H> {
    ghost use Rattle.cmd_show.specs.Drawn.{DrawsLine};
    ghost use Rattle.cmd_show.specs.inside.{TakesBy};
    ghost use Rattle.cmd_show.specs.Shown.{EndsDrawing};

    ghost takes = { TakesBy (λ p. p.folder.now) (λ p. p.host.now) (DrawsLine H.tells_same H.holds) };

    ghost ends = { EndsDrawing };

    fn take_line(&mut self, line: Option<&[u8]>, said: &mut Vec<u8>) -> Result<Outcome, Ended> {
        let outcome = self.answer(line, said)?;
        said.extend_from_slice(b"\n")?;
        Ok(outcome)
    }
}

impl<H: Files> Pictures<'_, H> {
    // Draws the table of a line, and appends the answer.
    fn answer(&mut self, line: Option<&[u8]>, said: &mut Vec<u8>) -> Result<Outcome, Ended>
        ensures stays { self.new.folder ≡ self.old.folder }
        ensures still { IsToldStill (H.tells_same self.old.host.now) (H.tells_same self.new.host.now) }
        ensures ok { IfOk result (λ o. (answer : List ℕ)
            × AnswersAsked (H.tells_same self.old.host.now) self.old.folder.now
            (H.holds self.old.host.now) (table_asked (lent line.entry)) o (H.holds self.new.host.now) answer
            × (said.new.items ≡ said.old.items ++ answer)) }
        ensures err { IfErr result EndsDrawing }
    {
        match table_asked(line) {
            Ok(t) => {
                self.draw(&t)?;
                append_drawn(&t, said)?;
                Ok(Outcome::Accepted)
            }
            Err(fault) => {
                append_fault(fault, said)?;
                Ok(Outcome::Refused)
            }
        }
    }

    // Puts the picture of a table in the folder.
    fn draw(&mut self, t: &Table) -> Result<(), Ended>
        ensures stays { self.new.folder ≡ self.old.folder }
        ensures still { IsToldStill (H.tells_same self.old.host.now) (H.tells_same self.new.host.now) }
        ensures ok { OnOk result (DrawsTable (H.tells_same self.old.host.now) self.old.folder.now
            t.now (H.holds self.old.host.now) (H.holds self.new.host.now)) }
        ensures err { IfErr result EndsDrawing }
    {
        let picture = picture_of(self.alloc, t, self.drawing)?;
        let path = picture_path(self.alloc, self.folder, t)?;
        put_file(self.host, &path, self.drawing.replace, &picture)
    }
}

// Appends that the picture of a table is drawn.
fn append_drawn(t: &Table, out: &mut Vec<u8>) -> Result<(), NoMemory>
    ensures { OnOk result (out.new.items ≡ out.old.items ++ drawn_text t.now) }
{
    append_table(t, out)?;
    out.extend_from_slice(b" drawn")
}

// The path of the picture of a table in a folder.
fn picture_path(alloc: Global, folder: &str, t: &Table) -> Result<String, NoMemory>
    ensures { IfOk result (λ path. string_bytes path ≡ picture_path folder.now t.now) }
{
    // The proof needs that it is a table.
    let _ = t.states();
    let mut buffer = [0; TEXT_BYTES];
    match str::from_utf8(t.text(&mut buffer)) {
        Ok(name) => named_path(alloc, folder, name),
        Err(_) => unreachable!(),
    }
}

// The path of a picture in a folder.
fn named_path(alloc: Global, folder: &str, name: &str) -> Result<String, NoMemory>
    ensures { IfOk result (λ path. string_bytes path ≡ named_path folder.now name.now) }
{
    let mut path = String::new(alloc);
    path.push_str(folder)?;
    path.push_str("/")?;
    path.push_str(name)?;
    path.push_str(".svg")?;
    Ok(path)
}
