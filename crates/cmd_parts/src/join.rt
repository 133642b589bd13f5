// `bb join`: a trunk and the parts of its tree, told of as one ledger would be that holds the records of all.
ghost use Rattle.std.specs.Prelude.{◌≡◌, ◌⊎◌, [], ℕ, Contains, IfErr, IfNone, IfOk, IfSome, List, Ok, OnOk, Option, Result, false};
ghost use Rattle.std.specs.Io.KnownBytes.{Appends};
ghost use Rattle.ledger.specs.Terms.{Contents, IsOpenOn, AreAll};
ghost use Rattle.ledger.specs.declared.loading.Left.TheVariants.{Nothing};
ghost use Rattle.cmd_options.specs.declared.ended.Outcome.{Outcome as Outcomes};
ghost use Rattle.cmd_options.specs.declared.ended.Ended.{Ended as Ends};
ghost use Rattle.cmd_options.specs.Terms.{EndsTold, PrintsNothing};
ghost use Rattle.cmd_ledgers.specs.Terms.{IsToldOf};
ghost use Rattle.wire.specs.Terms.{grown};
ghost use Rattle.totals.specs.Terms.{joined_with, AddGives, IsWhole};
ghost use Rattle.files.specs.Terms.{IsBlank, IsKeptBut};
ghost use Rattle.cmd_parts.specs.AtPaths.{JoinsAt, CollectsAt, finds_at};
ghost use Rattle.cmd_parts.specs.Settle.{path_within};
ghost use Rattle.cmd_parts.specs.Join.{IsMet, IsMetAs, IsMetIn, IsReadAt, TellsAll, TellsParts, WarnsFirst, ended_by, is_silent, left_line, line_behind, record_lines, IsGathered, IsSpared};
ghost use Rattle.cmd_parts.specs.inside.{AreAdded, AreOthers, CountsMore, MeetsPart, SaysMet};

use crate::folder::{TRUNK, part_path, path_within};
use crate::part_files::{Collector, Nowhere, OneLedger, PartLedgers, PartsAt, Written};
use cmd_ledgers::{ReportForm, Told, load_from, outcome_by, write_told};
use cmd_options::{Ended, Joining, Outcome, Stopped, ended_by, told};
use files::{Files, Opened, lock_ledger, made_for, put_at};
use kind_evidence::NoMemory;
use ledger::{Board, Left, Status};
use machine_text::Table;
use std::alloc::Global;
use std::io::{Read, Write};
use text::append_number;
use totals::{PartFault, Whole};

/// Prints the report of the trunk in a folder and of the parts beside it, in a form: the report of one ledger that
/// holds the records of all. Where that is asked for, it writes that ledger too, in a new file beside it, `.new`, which
/// is put in its place once the last part was judged; a ledger of the folder itself is refused for that before anything
/// is written. A part that isn't there counts as an open table. What is wrong with a part is said on `faults` behind
/// its path, and what is kept of it counts. Accepted where the report says complete and nothing was wrong. What ends
/// the command early is said on `faults` too.
pub fn cmd_join<H: Files, P: ReportForm, W: Write, E: Write>(
    alloc: Global,
    form: &P,
    joining: &Joining<'_>,
    host: &mut H,
    answers: &mut W,
    faults: &mut E,
) -> Outcome
    ensures alone { IfNone joining.now.out ((ended : Result Outcomes Ends) × (warned : Option (List ℕ))
        × JoinsAt (P.is_text form.now) joining.now.folder.now (H.holds host.old) (H.holds host.new)
        (W.contents answers.old) (W.contents answers.new) (E.contents faults.old) warned ended
        × EndsTold ended warned (E.contents faults.new) result) }
    ensures into { IfSome joining.now.out (λ out. (ended : Result Outcomes Ends) × (warned : Option (List ℕ))
        × CollectsAt (P.is_text form.now) (H.locks out.now) (H.tells_same host.old) joining.now.folder.now out.now
        (H.holds host.old) (H.holds host.new)
        (W.contents answers.old) (W.contents answers.new) (E.contents faults.old) warned ended
        × EndsTold ended warned (E.contents faults.new) result) }
{
    told(join_at(alloc, form, joining, host, answers, faults), faults)
}

// Joins as `cmd_join` does, but answers what ends it early, and doesn't say it.
fn join_at<H: Files, P: ReportForm, W: Write, E: Write>(
    alloc: Global,
    form: &P,
    joining: &Joining<'_>,
    host: &mut H,
    answers: &mut W,
    faults: &mut E,
) -> Result<Outcome, Ended>
    ensures alone { IfNone joining.now.out (JoinsAt (P.is_text form.now) joining.now.folder.now (H.holds host.old)
        (H.holds host.new)
        (W.contents answers.old) (W.contents answers.new) (E.contents faults.old) (E.contents faults.new) result) }
    ensures into { IfSome joining.now.out (λ out. CollectsAt (P.is_text form.now) (H.locks out.now)
        (H.tells_same host.old) joining.now.folder.now out.now
        (H.holds host.old) (H.holds host.new) (W.contents answers.old) (W.contents answers.new)
        (E.contents faults.old) (E.contents faults.new) result) }
{
    match joining.out {
        Some(out) => join_into(
            alloc,
            form,
            joining.folder,
            out,
            joining.replace,
            host,
            answers,
            faults,
        ),
        None => join_alone(alloc, form, joining.folder, host, answers, faults),
    }
}

// The report alone.
fn join_alone<H: Files, P: ReportForm, W: Write, E: Write>(
    alloc: Global,
    form: &P,
    folder: &str,
    host: &H,
    answers: &mut W,
    faults: &mut E,
) -> Result<Outcome, Ended>
    ensures { JoinsAt (P.is_text form.now) folder.now (H.holds host.now) (H.holds host.now)
        (W.contents answers.old) (W.contents answers.new) (E.contents faults.old) (E.contents faults.new) result }
{
    let parts = PartsAt {
        host,
        written: None,
    };
    join_parts(alloc, form, folder, &parts, &mut Nowhere, answers, faults)
}

/// Prints the report of the trunk in a folder and of the parts beside it, in a form, and puts the one ledger of all at a
/// path, locked, once all were read; in place of what is there, if that is to be replaced. Where that ends early nothing has
/// changed at any path.
pub fn join_into<H: Files, P: ReportForm, W: Write, E: Write>(
    alloc: Global,
    form: &P,
    folder: &str,
    out: &str,
    replace: bool,
    host: &mut H,
    answers: &mut W,
    faults: &mut E,
) -> Result<Outcome, Ended>
    ensures others { IsKeptBut (H.tells_same host.old) out.now (H.holds host.old) (H.holds host.new) }
    ensures joins { CollectsAt (P.is_text form.now) (H.locks out.now) (H.tells_same host.old) folder.now out.now
        (H.holds host.old) (H.holds host.new)
        (W.contents answers.old) (W.contents answers.new) (E.contents faults.old) (E.contents faults.new) result }
{
    let _lock = lock_ledger(host, out)?;
    let (made, outcome) = joined(alloc, form, folder, out, replace, host, answers, faults)?;
    put_at(host, made, out)?;
    Ok(outcome)
}

// The one ledger of all, which stands nowhere yet.
fn joined<H: Files, P: ReportForm, W: Write, E: Write>(
    alloc: Global,
    form: &P,
    folder: &str,
    out: &str,
    replace: bool,
    host: &H,
    answers: &mut W,
    faults: &mut E,
) -> Result<(H::Made, Outcome), Ended>
    ensures spared { OnOk result (IsSpared (H.tells_same host.now out.now) (finds_at (H.holds host.now)) folder.now) }
    ensures ok { IfOk result (λ j. (begun : Option (List ℕ)) × IsBlank begun
        × TellsAll (P.is_text form.now) (finds_at (H.holds host.now)) folder.now begun (H.Made.text j.0)
        (W.contents answers.old) (W.contents answers.new) (E.contents faults.old) (E.contents faults.new) j.1) }
    ensures silent { IfErr result (λ e. PrintsNothing e (W.contents answers.old) (W.contents answers.new)) }
    ensures warned { IfErr result (WarnsFirst (finds_at (H.holds host.now)) folder.now (E.contents faults.old)
        (E.contents faults.new)) }
{
    let mut one = OneLedger {
        ledger: made_for(host, out, replace, &[])?,
    };
    let removed = host.removed_by(&one.ledger)?;
    let name = removed.as_deref();
    let outcome = join_beside(
        alloc, form, folder, out, name, host, &mut one, answers, faults,
    )?;
    Ok((one.ledger, outcome))
}

// Joins parts where the one ledger is written at a path, and a name may be removed for that.
fn join_beside<'a, H: Files, P: ReportForm, C: Collector, W: Write, E: Write>(
    alloc: Global,
    form: &P,
    folder: &str,
    out: &'a str,
    removed: Option<&'a str>,
    host: &'a H,
    collector: &mut C,
    answers: &mut W,
    faults: &mut E,
) -> Result<Outcome, Ended>
    ensures spared { OnOk result (IsSpared (H.tells_same host.now out.now) (finds_at (H.holds host.now)) folder.now) }
    ensures ok { IfOk result (TellsAll (P.is_text form.now) (finds_at (H.holds host.now)) folder.now
        (C.text collector.old) (C.text collector.new) (W.contents answers.old) (W.contents answers.new)
        (E.contents faults.old) (E.contents faults.new)) }
    ensures silent { IfErr result (λ e. PrintsNothing e (W.contents answers.old) (W.contents answers.new)) }
    ensures warned { IfErr result (WarnsFirst (finds_at (H.holds host.now)) folder.now (E.contents faults.old)
        (E.contents faults.new)) }
{
    let parts = PartsAt {
        host,
        written: Some(Written { out, removed }),
    };
    join_parts(alloc, form, folder, &parts, collector, answers, faults)
}

/// Prints the report of the trunk in a folder and of its parts, and collects the one ledger of all. The parts are those
/// of the trunk's open tables, in the order of their texts. What is wrong with the trunk or a part is said on `faults`
/// behind its path. Accepted where the report says complete and nothing was wrong. Where it ends early no report is
/// printed, and what was said stays said, in whole lines, unless a stream failed.
pub fn join_parts<S: PartLedgers, P: ReportForm, C: Collector, W: Write, E: Write>(
    alloc: Global,
    form: &P,
    folder: &str,
    parts: &S,
    collector: &mut C,
    answers: &mut W,
    faults: &mut E,
) -> Result<Outcome, Ended>
    ensures spared { OnOk result (IsSpared (S.tells_written parts.now) (S.finds parts.now) folder.now) }
    ensures tells { IfOk result (TellsAll (P.is_text form.now) (S.finds parts.now) folder.now
        (C.text collector.old) (C.text collector.new) (W.contents answers.old) (W.contents answers.new)
        (E.contents faults.old) (E.contents faults.new)) }
    ensures silent { IfErr result (λ e. PrintsNothing e (W.contents answers.old) (W.contents answers.new)) }
    ensures warned { IfErr result (WarnsFirst (S.finds parts.now) folder.now (E.contents faults.old)
        (E.contents faults.new)) }
{
    let (whole, is_sound) = gather(alloc, folder, parts, collector, faults)?;
    tell_whole(alloc, form, &whole, is_sound, answers)
}

/// Judges the trunk in a folder and the parts beside it as `join_parts` does, and answers the whole of them and whether
/// nothing is wrong with them. What is wrong with the trunk or a part is said on `faults` behind its path.
pub fn gather<S: PartLedgers, C: Collector, E: Write>(
    alloc: Global,
    folder: &str,
    parts: &S,
    collector: &mut C,
    faults: &mut E,
) -> Result<(Whole, bool), Ended>
    ensures spared { OnOk result (IsSpared (S.tells_written parts.now) (S.finds parts.now) folder.now) }
    ensures ok { IfOk result (λ gathered. IsGathered (S.finds parts.now) folder.now gathered.0 gathered.1
        (C.text collector.old) (C.text collector.new) (E.contents faults.old) (E.contents faults.new)
        (C.counts collector.new)) }
    ensures err { IfErr result (WarnsFirst (S.finds parts.now) folder.now (E.contents faults.old)
        (E.contents faults.new)) }
{
    let path = path_within(alloc, folder, TRUNK)?;
    let (trunk, left) = trunk_at(alloc, parts, &path)?;
    let roots = open_tables(alloc, &trunk)?;
    spare(alloc, parts, folder, &path, &roots)?;
    let is_kept = says_left(alloc, &path, &left, faults)?;
    collector.begin(alloc, &trunk)?;
    let mut whole = Whole::of(alloc, trunk)?;
    let are_sound = add_parts(alloc, parts, folder, &roots, &mut whole, collector, faults)?;
    Ok((whole, is_kept && are_sound))
}

// Refuses to write over the trunk or one of the parts of these roots.
fn spare<S: PartLedgers>(
    alloc: Global,
    parts: &S,
    folder: &str,
    trunk: &str,
    roots: &[Table],
) -> Result<(), Ended>
    ensures trunk { OnOk result (S.tells_written parts.now trunk.now false) }
    ensures parts { OnOk result (AreOthers (S.tells_written parts.now) folder.now roots.now) }
{
    if parts.is_written(trunk)? {
        return Err(Ended::OutInFolder);
    }
    for root in roots {
        if parts.is_written(&part_path(alloc, folder, root)?)? {
            return Err(Ended::OutInFolder);
        }
    }
    Ok(())
}

// Adds the parts of these roots, and answers whether all are there and sound.
fn add_parts<S: PartLedgers, C: Collector, E: Write>(
    alloc: Global,
    parts: &S,
    folder: &str,
    roots: &[Table],
    whole: &mut Whole,
    collector: &mut C,
    faults: &mut E,
) -> Result<bool, Ended>
    requires all { AreAll (IsOpenOn whole.old.trunk) roots.now }
    requires none { IsWhole whole.old [] }
    ensures ok { IfOk result (λ sound. AreAdded
        (S.finds parts.now) folder.now roots.now whole.old.trunk whole.new sound (C.text collector.old)
        (C.text collector.new) (E.contents faults.old) (E.contents faults.new)
        (C.counts collector.old) (C.counts collector.new)) }
    ensures err { IfErr result (λ e. SaysMet (S.finds parts.now) folder.now roots.now (E.contents faults.old)
        (E.contents faults.new) ⊎ (e ≡ Ended.Stream)) }
{
    let mut are_sound = true;
    for root in roots {
        if !join_part(alloc, parts, folder, root, whole, collector, faults)? {
            are_sound = false;
        }
    }
    Ok(are_sound)
}

/// Prints the report of a whole in a form. Accepted where that says complete and nothing is wrong with its parts. Where
/// memory is refused, nothing was printed.
pub fn tell_whole<P: ReportForm, W: Write>(
    alloc: Global,
    form: &P,
    whole: &Whole,
    is_sound: bool,
    answers: &mut W,
) -> Result<Outcome, Ended>
    ensures ok { IfOk result (λ o. (parts : List Contents) → IsWhole whole.now parts
        → TellsParts (P.is_text form.now) whole.now.trunk parts is_sound (W.contents answers.old)
        (W.contents answers.new) o) }
    ensures err { IfErr result (λ e. PrintsNothing e (W.contents answers.old) (W.contents answers.new)) }
{
    let status = whole.status();
    write_told(alloc, form, told_of(whole)?, &Left::Nothing, answers)?;
    Ok(outcome_of(status, is_sound))
}

// Accepted where the whole is complete and sound.
fn outcome_of(status: Status, is_sound: bool) -> Outcome
    ensures { result ≡ ended_by status is_sound }
{
    if is_sound {
        outcome_by(status, &Left::Nothing)
    } else {
        Outcome::Refused
    }
}

// The board of the trunk's ledger, which has to be there, and what of it wasn't kept.
fn trunk_at<S: PartLedgers>(alloc: Global, parts: &S, path: &str) -> Result<(Board, Left), Ended>
    ensures { IfOk result (λ l. IsReadAt (S.finds parts.now) path.now l.0 l.1) }
{
    match parts.open(path)? {
        Some(mut file) => match load_from(alloc, &mut file.reader, file.length) {
            Ok(loaded) => Ok(loaded),
            Err(Stopped::Failed(fault)) => Err(ended_by(&fault, Ended::File)),
            Err(Stopped::Ended(ended)) => Err(ended),
        },
        None => Err(Ended::File),
    }
}

/// The open tables of a trunk, in the order of their texts.
pub fn open_tables(alloc: Global, trunk: &Board) -> Result<Vec<Table>, NoMemory>
    ensures { IfOk result (λ roots. AreAll (IsOpenOn trunk.now) roots.items) }
{
    let mut roots = Vec::new(alloc);
    for root in trunk.open() {
        roots.push(*root)?;
    }
    Ok(roots)
}

// Adds the part of a root, and answers whether it is there and sound.
fn join_part<S: PartLedgers, C: Collector, E: Write>(
    alloc: Global,
    parts: &S,
    folder: &str,
    root: &Table,
    whole: &mut Whole,
    collector: &mut C,
    faults: &mut E,
) -> Result<bool, Ended>
    requires { IsOpenOn whole.old.trunk root.now × (Contains whole.old.roots root.now → ⊥) }
    ensures ok { IfOk result (λ sound. MeetsPart (IsMet
        (S.finds parts.now) folder.now root.now) sound whole.old whole.new (C.text collector.old)
        (C.text collector.new) (E.contents faults.old) (E.contents faults.new)
        (C.counts collector.old) (C.counts collector.new)) }
    ensures err { IfErr result (λ e. PrintsNothing e (E.contents faults.old) (E.contents faults.new)) }
{
    let path = part_path(alloc, folder, root)?;
    match parts.open(&path)? {
        Some(file) => add_read(alloc, file, &path, root, whole, collector, faults),
        None => says(alloc, &path, b"missing", faults),
    }
}

// Adds what is read of a part.
fn add_read<F: Read + Drop, C: Collector, E: Write>(
    alloc: Global,
    mut file: Opened<F>,
    path: &str,
    root: &Table,
    whole: &mut Whole,
    collector: &mut C,
    faults: &mut E,
) -> Result<bool, Ended>
    requires { IsOpenOn whole.old.trunk root.now × (Contains whole.old.roots root.now → ⊥) }
    ensures ok { IfOk result (λ sound. MeetsPart (IsMetIn
        (F.remaining file.reader) file.length path.now root.now) sound whole.old whole.new (C.text collector.old)
        (C.text collector.new) (E.contents faults.old) (E.contents faults.new)
        (C.counts collector.old) (C.counts collector.new)) }
    ensures err { IfErr result (λ e. PrintsNothing e (E.contents faults.old) (E.contents faults.new)) }
{
    match load_from(alloc, &mut file.reader, file.length) {
        Ok((part, left)) => {
            add_loaded(alloc, &part, &left, path, root, whole, collector, faults)
        }
        Err(Stopped::Ended(Ended::BadHeader)) => says(alloc, path, b"refused 404", faults),
        Err(Stopped::Ended(Ended::WrongRoot)) => says(alloc, path, b"refused 405", faults),
        Err(Stopped::Ended(ended)) => Err(ended),
        Err(Stopped::Failed(fault)) => Err(ended_by(&fault, Ended::File)),
    }
}

// Adds what is loaded of a part, where it has this root.
fn add_loaded<C: Collector, E: Write>(
    alloc: Global,
    part: &Board,
    left: &Left,
    path: &str,
    root: &Table,
    whole: &mut Whole,
    collector: &mut C,
    faults: &mut E,
) -> Result<bool, Ended>
    requires { IsOpenOn whole.old.trunk root.now × (Contains whole.old.roots root.now → ⊥) }
    ensures ok { IfOk result (λ sound. MeetsPart
        (IsMetAs part.now left.now path.now root.now) sound whole.old whole.new (C.text collector.old)
        (C.text collector.new) (E.contents faults.old) (E.contents faults.new)
        (C.counts collector.old) (C.counts collector.new)) }
    ensures err { IfErr result (λ e. PrintsNothing e (E.contents faults.old) (E.contents faults.new)) }
{
    if *part.root() != *root {
        return says(alloc, path, b"refused 406", faults);
    }
    add(alloc, part, whole, collector)?;
    says_left(alloc, path, left, faults)
}

// Adds a part's board.
fn add<C: Collector>(
    alloc: Global,
    part: &Board,
    whole: &mut Whole,
    collector: &mut C,
) -> Result<(), Ended>
    requires { IsOpenOn whole.old.trunk part.now.root × (Contains whole.old.roots part.now.root → ⊥) }
    ensures { OnOk result (AddGives whole.old part.now (Ok tt) whole.new
        × (C.text collector.new ≡ grown (C.text collector.old) (record_lines part.now.records))
        × CountsMore (C.counts collector.old) (C.counts collector.new) part.now.records) }
{
    match whole.add(part) {
        Ok(()) => collector.add(alloc, part),
        Err(PartFault::NoMemory) => Err(Ended::NoMemory),
        // the trunk leaves its root open, and no part with that was added before
        Err(PartFault::NotOpen) | Err(PartFault::AddedBefore) => unreachable!(),
    }
}

// Says behind a path which line wasn't kept, where there is one, and answers whether all was.
fn says_left<E: Write>(
    alloc: Global,
    path: &str,
    left: &Left,
    faults: &mut E,
) -> Result<bool, Ended>
    ensures ok { IfOk result (λ sound. (sound ≡ is_silent (left_line path.now left.now))
        × Appends (E.contents faults.old) (E.contents faults.new) (left_line path.now left.now)) }
    ensures err { IfErr result (λ e. PrintsNothing e (E.contents faults.old) (E.contents faults.new)) }
{
    match left {
        Left::Nothing => Ok(true),
        Left::From { line, .. } => {
            let mut told = Vec::new(alloc);
            told.extend_from_slice(b"left ")?;
            append_number(*line, &mut told)?;
            says(alloc, path, &told, faults)
        }
    }
}

// Says behind a path what is wrong there; so all isn't sound.
fn says<E: Write>(alloc: Global, path: &str, what: &[u8], faults: &mut E) -> Result<bool, Ended>
    ensures ok { IfOk result (λ sound. (sound ≡ false)
        × Appends (E.contents faults.old) (E.contents faults.new) (line_behind path.now what.now)) }
    ensures err { IfErr result (λ e. PrintsNothing e (E.contents faults.old) (E.contents faults.new)) }
{
    let mut line = Vec::new(alloc);
    line.extend_from_slice(path.as_bytes())?;
    line.extend_from_slice(b": ")?;
    line.extend_from_slice(what)?;
    line.extend_from_slice(b"\n")?;
    faults.write_all(&line)?;
    Ok(false)
}

// What a report tells of a trunk and the parts that were added.
fn told_of(whole: &Whole) -> Result<Told, NoMemory>
    ensures { IfOk result (λ told. (parts : List Contents) → IsWhole whole.now parts
        → IsToldOf whole.now.trunk.root (joined_with whole.now.trunk.records parts) told) }
{
    let (champions, ones_champions, holdouts) = whole.champions_and_holdouts()?;
    Ok(Told {
        root: *whole.root(),
        status: whole.status(),
        tally: whole.tally(),
        champions,
        ones_champions,
        holdouts,
    })
}
