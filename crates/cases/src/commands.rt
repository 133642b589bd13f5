// The commands of rows, each by the function that does it, over given streams and files.
use crate::mem_files::MemFiles;
use cmd_json::LinesOrJson;
use cmd_ledgers::{cmd_carry, cmd_merge, cmd_report, cmd_report_stream, cmd_retry};
use cmd_lines::{Reader, TableText, cmd_check, cmd_decide};
use cmd_nodes::{NoLedger, Run, cmd_coord, cmd_run};
use cmd_options::{
    Beginning, Carrying, Ended, LedgerFile, Merging, Options, Outcome, Reporting, Retrying, Search,
    Settling,
};
use files::{Files, Opened, Progress, held_at, ledger_at};
use find_search::decider_for;
use lease_core::Worker;
use ledger::Board;
use std::alloc::Global;
use std::io;

// Nobody is told how far it is.
#[derive(Drop)]
struct Untold;

impl Progress for Untold {
    fn tell(&mut self, _board: &Board) {}
}

/// Standard input, and what is written to both outputs.
#[derive(Drop)]
pub struct Streams<'a> {
    pub input: &'a [u8],
    pub answers: Vec<u8>,
    pub faults: Vec<u8>,
}

/// Does what is asked for; none where no row asks for that.
pub fn done(
    alloc: Global,
    asked: &Options<'_>,
    files: &mut MemFiles,
    streams: &mut Streams<'_>,
) -> Result<Option<Outcome>, Ended> {
    let outcome = match asked {
        Options::Check(_) => checked(alloc, streams),
        Options::Decide(deciding) => decided(alloc, &deciding.search, streams)?,
        Options::Report(reporting) => reported(alloc, reporting, files, streams),
        Options::Retry(retrying) => retried(alloc, retrying, files, streams)?,
        Options::Merge(merging) => merged(alloc, *merging, files, streams),
        Options::Carry(carrying) => carried(alloc, *carrying, files, streams),
        Options::Coord {
            beginning,
            ledger: Some(file),
            listening: None,
        } => coordinated(alloc, *beginning, *file, files, streams)?,
        Options::Run {
            settling,
            ledger: None,
        } => ran(alloc, settling, streams)?,
        Options::Explain(_)
        | Options::Show(_)
        | Options::Tables(_)
        | Options::Coord { .. }
        | Options::CoordPart(_)
        | Options::Work(_)
        | Options::Run { .. }
        | Options::Loop { .. }
        | Options::Walk(_)
        | Options::Mend(_)
        | Options::Split(_)
        | Options::Settle(_)
        | Options::Join(_)
        | Options::Look(_)
        | Options::Draw(_)
        | Options::Page(_) => return Ok(None),
    };
    Ok(Some(outcome))
}

fn checked(alloc: Global, streams: &mut Streams<'_>) -> Outcome {
    let (input, faults) = (&mut streams.input, &mut streams.faults);
    cmd_check(alloc, Reader::Script, input, &mut streams.answers, faults)
}

fn decided(
    alloc: Global,
    search: &Search<'_>,
    streams: &mut Streams<'_>,
) -> Result<Outcome, Ended> {
    let mut decider = decider_for(alloc, None, search)?;
    Ok(cmd_decide(
        alloc,
        Reader::Script,
        TableText::Standard,
        &mut decider,
        &mut streams.input,
        &mut streams.answers,
        &mut streams.faults,
    ))
}

fn retried(
    alloc: Global,
    retrying: &Retrying<'_>,
    files: &mut MemFiles,
    streams: &mut Streams<'_>,
) -> Result<Outcome, Ended> {
    let mut decider = decider_for(alloc, None, &retrying.search)?;
    Ok(cmd_retry(
        alloc,
        retrying.file,
        files,
        &mut decider,
        &mut Untold,
        &mut streams.answers,
        &mut streams.faults,
    ))
}

fn reported(
    alloc: Global,
    reporting: &Reporting<'_>,
    files: &MemFiles,
    streams: &mut Streams<'_>,
) -> Outcome {
    let form = LinesOrJson::of(reporting.json);
    let (answers, faults) = (&mut streams.answers, &mut streams.faults);
    if reporting.file == "-" {
        let input = &mut streams.input;
        return cmd_report_stream(alloc, &form, reporting.why, input, answers, faults);
    }
    let path = reporting.file;
    cmd_report(alloc, &form, reporting.why, path, files, answers, faults)
}

fn merged(
    alloc: Global,
    merging: Merging<'_>,
    files: &mut MemFiles,
    streams: &mut Streams<'_>,
) -> Outcome {
    let (answers, faults) = (&mut streams.answers, &mut streams.faults);
    cmd_merge(alloc, merging, files, answers, faults)
}

fn carried(
    alloc: Global,
    carrying: Carrying<'_>,
    files: &mut MemFiles,
    streams: &mut Streams<'_>,
) -> Outcome {
    let (answers, faults) = (&mut streams.answers, &mut streams.faults);
    cmd_carry(alloc, carrying, files, answers, faults)
}

fn coordinated(
    alloc: Global,
    beginning: Beginning,
    file: LedgerFile<'_>,
    files: &mut MemFiles,
    streams: &mut Streams<'_>,
) -> Result<Outcome, Ended> {
    // What `options` promises.
    if beginning.states < 1 || beginning.states > 7 {
        return Err(Ended::NoMemory);
    }
    let held = held_at(files, file.path);
    let mut ledger = ledger_at(files, &file)?;
    let outcome = cmd_coord(
        alloc,
        beginning,
        held,
        &mut ledger,
        &mut streams.input,
        &mut streams.answers,
        &mut streams.faults,
    );
    files.close(file.path, ledger);
    Ok(outcome)
}

fn ran(
    alloc: Global,
    settling: &Settling<'_>,
    streams: &mut Streams<'_>,
) -> Result<Outcome, Ended> {
    if settling.states < 1 || settling.states > 7 {
        return Err(Ended::NoMemory);
    }
    let mut workers = Vec::new(alloc);
    for id in 1..=u32::from(settling.workers) {
        let finders = decider_for(alloc, None, &settling.search)?;
        let (worker, _) = Worker::over(alloc, id, b"", finders);
        if workers.push(worker).is_err() {
            return Err(Ended::NoMemory);
        }
    }
    let form = LinesOrJson::of(settling.json);
    let run = Run {
        settling,
        form: &form,
        workers,
    };
    let held = Ok(Opened {
        length: 0,
        reader: io::empty(),
    });
    Ok(cmd_run(
        alloc,
        run,
        held,
        &mut NoLedger,
        &mut Untold,
        &mut streams.answers,
        &mut streams.faults,
    ))
}
