// `bb look`: lines that are answered by a ledger, or by a folder of a trunk and its parts.
ghost use Rattle.std.specs.Prelude.{◌≡◌, ◌++◌, List, ℕ, IfOk, IsTrue, OnOk, ◌∷◌, [], map, IfErr, false, true};
ghost use Rattle.std.specs.Io.KnownBytes.{Appends};
ghost use Rattle.std.specs.Vec.Iter.{into_iter_items};
ghost use Rattle.cmd_lines.specs.Terms.{lent, WritesFirst};
ghost use Rattle.cmd_parts.specs.Look.{SaysOfLine, SaysByFolder, SaysByPart, PrintsAt, PrintsOfFolder, AnswersByFolder, AnswersFirstBy, AnswersLines};
ghost use Rattle.cmd_parts.specs.inside.Joining.{HoldsPartOf, IsFound, IsSamePlace, KeepsPart};
ghost use Rattle.text.specs.Terms.{joined};
ghost use Rattle.machine_text.specs.Terms.{text_of};
ghost use Rattle.cmd_parts.specs.AtPaths.{finds_at};

use crate::answer::{append_by_board, append_unknown, refuse, root_above, table_of_line};
use crate::folder::trunk_path;
use crate::part_files::{board_at, part_at};
use crate::{Nowhere, PartLedgers, PartsAt, gather};
use cert::append_table;
use cmd_lines::{PIECE_BYTES, Sayer, say_lines};
use cmd_options::{Ended, Looking, Outcome};
use files::Files;
use kind_evidence::NoMemory;
use ledger::{Board, Holdouts};
use machine_text::Table;
use std::alloc::Global;
use std::io::{Read, Write};

// The board of a ledger.
#[derive(Drop)]
pub(crate) struct LedgerLook {
    pub board: Board,
}

impl Sayer for LedgerLook {
    ghost use Rattle.std.specs.Prelude.{◌≡◌};
    ghost use Rattle.cmd_options.specs.declared.ended.Ended.TheVariants.{NoMemory as WantsMemory};
    ghost use Rattle.cmd_parts.specs.Look.{SaysByBoard, SaysOfLine, SaysWith};

    ghost takes = { λ old line o new said. (new.board ≡ old.board)
        × SaysWith (SaysOfLine (SaysByBoard old.board)) line o said };

    ghost ends = { λ e. e ≡ WantsMemory };

    fn take_line(&mut self, line: Option<&[u8]>, said: &mut Vec<u8>) -> Result<Outcome, Ended> {
        let outcome = match table_of_line(line) {
            Ok(table) => append_by_board(&self.board, &table, said)?,
            Err(fault) => refuse(fault, said)?,
        };
        said.extend_from_slice(b"\n")?;
        Ok(outcome)
    }
}

// The trunk in a folder, and the part that was loaded last.
#[derive(Drop)]
pub(crate) struct FolderLook<'a, S> {
    pub alloc: Global,
    pub parts: &'a S,
    pub folder: &'a str,
    pub trunk: Board,
    pub part: Option<Board>,
}

impl<S: PartLedgers> Sayer for FolderLook<'_, S> {
    ghost use Rattle.std.specs.Prelude.{◌≡◌, ⊤};
    ghost use Rattle.cmd_parts.specs.inside.Joining.{LooksIn};

    ghost takes = { λ old line o new said. (new.parts.now ≡ old.parts.now) × (new.folder.now ≡ old.folder.now)
        × (new.trunk ≡ old.trunk)
        × LooksIn (S.finds old.parts.now) old.folder.now old.trunk old.part line o new.part said };

    ghost ends = { λ e. ⊤ };

    fn take_line(&mut self, line: Option<&[u8]>, said: &mut Vec<u8>) -> Result<Outcome, Ended> {
        let outcome = self.answer(line, said)?;
        said.extend_from_slice(b"\n")?;
        Ok(outcome)
    }
}

impl<S: PartLedgers> FolderLook<'_, S> {
    // Appends what is said to a line, without a newline.
    fn answer(&mut self, line: Option<&[u8]>, out: &mut Vec<u8>) -> Result<Outcome, Ended>
        ensures place { OnOk result (IsSamePlace self.old.parts.now self.old.folder.now self.old.trunk
            self.new.parts.now self.new.folder.now self.new.trunk) }
        ensures kept { OnOk result (KeepsPart (S.finds self.old.parts.now) self.old.folder.now self.old.part
            → KeepsPart (S.finds self.old.parts.now) self.old.folder.now self.new.part) }
        ensures says { IfOk result (λ o. (answer : List ℕ)
            × (KeepsPart (S.finds self.old.parts.now) self.old.folder.now self.old.part
            → SaysOfLine (SaysByFolder (S.finds self.old.parts.now) self.old.folder.now self.old.trunk)
            (lent line.entry) o answer) × (out.new.items ≡ out.old.items ++ answer)) }
    {
        match table_of_line(line) {
            Ok(table) => self.look_up(&table, out),
            Err(fault) => Ok(refuse(fault, out)?),
        }
    }

    // Appends what is said of a table.
    fn look_up(&mut self, t: &Table, out: &mut Vec<u8>) -> Result<Outcome, Ended>
        ensures place { OnOk result (IsSamePlace self.old.parts.now self.old.folder.now self.old.trunk
            self.new.parts.now self.new.folder.now self.new.trunk) }
        ensures kept { OnOk result (KeepsPart (S.finds self.old.parts.now) self.old.folder.now self.old.part
            → KeepsPart (S.finds self.old.parts.now) self.old.folder.now self.new.part) }
        ensures says { IfOk result (λ o. (answer : List ℕ)
            × (KeepsPart (S.finds self.old.parts.now) self.old.folder.now self.old.part
            → SaysByFolder (S.finds self.old.parts.now) self.old.folder.now self.old.trunk t.now o answer)
            × (out.new.items ≡ out.old.items ++ answer)) }
    {
        if self.trunk.is_recorded(t) {
            return Ok(append_by_board(&self.trunk, t, out)?);
        }
        match root_above(&self.trunk, t) {
            Some(root) => {
                self.bring(&root)?;
                Ok(append_by_part(&self.part, t, out)?)
            }
            None => Ok(append_unknown(t, out)?),
        }
    }

    // Makes the part of a root the one that is kept, or none where it can't be had.
    fn bring(&mut self, root: &Table) -> Result<(), Ended>
        ensures place { OnOk result (IsSamePlace self.old.parts.now self.old.folder.now self.old.trunk
            self.new.parts.now self.new.folder.now self.new.trunk) }
        ensures found { OnOk result (KeepsPart (S.finds self.old.parts.now) self.old.folder.now self.old.part
            → IsFound (S.finds self.old.parts.now) self.old.folder.now root.now self.new.part) }
    {
        if !has_root(&self.part, root) {
            self.part = part_at(self.alloc, self.parts, self.folder, root)?;
        }
        Ok(())
    }
}

// Whether a part is there that has this root.
fn has_root(part: &Option<Board>, root: &Table) -> bool
    ensures { IsTrue result → HoldsPartOf part.now root.now }
{
    match part {
        Some(part) => *part.root() == *root,
        None => false,
    }
}

// Appends what is said of a table by the part that it belongs to; without that it is unknown.
fn append_by_part(part: &Option<Board>, t: &Table, out: &mut Vec<u8>) -> Result<Outcome, NoMemory>
    ensures { IfOk result (λ o. (answer : List ℕ) × SaysByPart part.now t.now o answer
        × (out.new.items ≡ out.old.items ++ answer)) }
{
    match part {
        Some(part) => append_by_board(part, t, out),
        None => append_unknown(t, out),
    }
}

// Prints the holdouts of the ledger at a path, or of the folder there.
pub(crate) fn print_at<S: PartLedgers, W: Write, E: Write>(
    alloc: Global,
    path: &str,
    parts: &S,
    answers: &mut W,
    faults: &mut E,
) -> Result<Outcome, Ended>
    ensures { IfOk result (PrintsAt (S.finds parts.now) path.now (W.contents answers.old) (W.contents answers.new)
        (E.contents faults.old) (E.contents faults.new)) }
{
    if parts.is_folder(path) {
        return print_of_folder(alloc, path, parts, answers, faults);
    }
    match board_at(alloc, parts, path) {
        Ok(board) => {
            print_holdouts(alloc, board.holdouts()?, answers)?;
            Ok(Outcome::Accepted)
        }
        Err(ended) => Err(ended),
    }
}

// Prints those of the folder at a path. What is wrong with its trunk and parts is said on `faults`.
fn print_of_folder<S: PartLedgers, W: Write, E: Write>(
    alloc: Global,
    path: &str,
    parts: &S,
    answers: &mut W,
    faults: &mut E,
) -> Result<Outcome, Ended>
    ensures { IfOk result (λ o. (o ≡ Outcome.Accepted) × PrintsOfFolder (S.finds parts.now) path.now
        (W.contents answers.old) (W.contents answers.new) (E.contents faults.old) (E.contents faults.new)) }
{
    let (whole, _) = gather(alloc, path, parts, &mut Nowhere, faults)?;
    let (_, _, holdouts) = whole.champions_and_holdouts()?;
    print_holdouts(alloc, holdouts, answers)?;
    Ok(Outcome::Accepted)
}

// Prints tables, a line each.
fn print_holdouts<W: Write>(alloc: Global, holdouts: Holdouts, answers: &mut W) -> Result<(), Ended>
    ensures { OnOk result (Appends (W.contents answers.old) (W.contents answers.new)
        (joined (map text_of (into_iter_items holdouts)))) }
{
    let mut line = Vec::new(alloc);
    for table in holdouts {
        print_line(&table, &mut line, answers)?;
    }
    Ok(())
}

// Prints a table, whose line is made in place of another one.
fn print_line<W: Write>(t: &Table, line: &mut Vec<u8>, answers: &mut W) -> Result<(), Ended>
    ensures { OnOk result (Appends (W.contents answers.old) (W.contents answers.new) (text_of t.now ++ 10 ∷ [])) }
{
    line.clear();
    append_table(t, line)?;
    line.extend_from_slice(b"\n")?;
    answers.write_all(line)?;
    Ok(())
}

/// Reads tables, a line each, and says to each what the ledger at a path has recorded of it: its record, that it is open,
/// or that it is unknown. Of a folder, what its trunk has no record of is looked for in the part that it
/// belongs to. For holdouts no line is read: those of all are printed, and what is wrong with
/// the parts of a folder is said on `faults`. Errors: `File` where nothing can be read, `BadHeader` and `WrongRoot` where a
/// ledger, or the trunk, has no root in order, `NoMemory`, `Stream`: then what was printed is the answers to the first lines,
/// in full unless a stream failed.
pub fn look_at<H: Files, R: Read, W: Write, E: Write>(
    alloc: Global,
    looking: &Looking<'_>,
    host: &H,
    input: &mut R,
    answers: &mut W,
    faults: &mut E,
) -> Result<Outcome, Ended>
    ensures lines { looking.now.holdouts ≡ false → IfOk result (AnswersLines (finds_at (H.holds host.now))
        looking.now.path.now (R.remaining input.old) (R.remaining input.new)
        (W.contents answers.old) (W.contents answers.new)) }
    ensures first { looking.now.holdouts ≡ false → IfErr result (WritesFirst
        (AnswersFirstBy (finds_at (H.holds host.now)) looking.now.path.now (R.remaining input.old)
        (R.remaining input.new)) (W.contents answers.old) (W.contents answers.new)) }
    ensures holdouts { looking.now.holdouts ≡ true → IfOk result (PrintsAt (finds_at (H.holds host.now))
        looking.now.path.now (W.contents answers.old) (W.contents answers.new)
        (E.contents faults.old) (E.contents faults.new)) }
{
    let parts = PartsAt {
        host,
        written: None,
    };
    look_in(alloc, looking, &parts, input, answers, faults)
}

/// Looks as `look_at` does, where ledgers are read by their paths.
pub fn look_in<S: PartLedgers, R: Read, W: Write, E: Write>(
    alloc: Global,
    looking: &Looking<'_>,
    parts: &S,
    input: &mut R,
    answers: &mut W,
    faults: &mut E,
) -> Result<Outcome, Ended>
    ensures lines { looking.now.holdouts ≡ false → IfOk result (AnswersLines (S.finds parts.now) looking.now.path.now
        (R.remaining input.old) (R.remaining input.new) (W.contents answers.old) (W.contents answers.new)) }
    ensures first { looking.now.holdouts ≡ false → IfErr result (WritesFirst (AnswersFirstBy (S.finds parts.now)
        looking.now.path.now (R.remaining input.old) (R.remaining input.new))
        (W.contents answers.old) (W.contents answers.new)) }
    ensures holdouts { looking.now.holdouts ≡ true → IfOk result (PrintsAt (S.finds parts.now) looking.now.path.now
        (W.contents answers.old) (W.contents answers.new) (E.contents faults.old) (E.contents faults.new)) }
{
    if looking.holdouts {
        print_at(alloc, looking.path, parts, answers, faults)
    } else {
        answer_at(alloc, looking.path, parts, input, answers)
    }
}

// Answers lines by the ledger at a path, or by the folder there.
fn answer_at<S: PartLedgers, R: Read, W: Write>(
    alloc: Global,
    path: &str,
    parts: &S,
    input: &mut R,
    answers: &mut W,
) -> Result<Outcome, Ended>
    ensures ok { IfOk result (AnswersLines (S.finds parts.now) path.now (R.remaining input.old)
        (R.remaining input.new) (W.contents answers.old) (W.contents answers.new)) }
    ensures first { IfErr result (WritesFirst (AnswersFirstBy (S.finds parts.now) path.now (R.remaining input.old)
        (R.remaining input.new)) (W.contents answers.old) (W.contents answers.new)) }
{
    if parts.is_folder(path) {
        return answer_in_folder(alloc, path, parts, input, answers);
    }
    match board_at(alloc, parts, path) {
        Ok(board) => {
            let (outcome, _) = say_lines(alloc, LedgerLook { board }, PIECE_BYTES, input, answers)?;
            Ok(outcome)
        }
        Err(ended) => Err(ended),
    }
}

// Answers lines by the trunk and the parts in a folder.
fn answer_in_folder<S: PartLedgers, R: Read, W: Write>(
    alloc: Global,
    folder: &str,
    parts: &S,
    input: &mut R,
    answers: &mut W,
) -> Result<Outcome, Ended>
    ensures ok { IfOk result (AnswersByFolder (S.finds parts.now) folder.now (R.remaining input.old)
        (R.remaining input.new) (W.contents answers.old) (W.contents answers.new)) }
    ensures first { IfErr result (WritesFirst (AnswersFirstBy (S.finds parts.now) folder.now (R.remaining input.old)
        (R.remaining input.new)) (W.contents answers.old) (W.contents answers.new)) }
{
    let path = trunk_path(alloc, folder)?;
    let trunk = board_at(alloc, parts, &path)?;
    let look = FolderLook {
        alloc,
        parts,
        folder,
        trunk,
        part: None,
    };
    let (outcome, _) = say_lines(alloc, look, PIECE_BYTES, input, answers)?;
    Ok(outcome)
}
