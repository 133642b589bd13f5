// From what clap made of the words to the options.
ghost use Rattle.std.specs.Prelude.{◌≡◌, ◌≤◌, IfOk, IfSome, codes};
ghost use Rattle.cmd_options.specs.Terms.{AreWithinRanges, IsSettling, IsWithinRange};
ghost use Rattle.cmd_words.specs.Asked.{AsksFor, AsksFile, AsksSaving, AsksSearch, AsksSettling, IsArgument, IsFlag, IsLedger, IsNumber, IsNumberIf, IsNumberOr, IsTextIf, IsWrittenAt, rows_found};

use crate::arguments::*;
use crate::coordinating::coord_options;
use crate::line_fault::LineFault;
use crate::words::{Flag, Text, number_read};
use clap::ArgMatches;
use cmd_options::{
    COUNT, Carrying, Checking, DEPTH, Deciding, Drawing, Durability, Explaining, FAR, GRAM,
    Joining, LedgerFile, LedgerSettling, Listing, Looking, Mending, Merging, Number, Options,
    Paging, RULES, Reporting, Retrying, Saving, Search, Settling, Showing, Splitting, WORDS,
    Walking, Working,
};

// In place of a path: standard input.
const STANDARD_INPUT: &str = "-";

// What the command of a name asks for. A function of its own: one that owns clap's matches, with so many ways out, would take
// long to prove.
pub(crate) fn asked<'a>(name: &str, command: &ArgMatches<'a>) -> Result<Options<'a>, LineFault>
    ensures within { IfOk result AreWithinRanges }
    ensures asked { IfOk result (AsksFor name.now (rows_found command.now)) }
{
    match name {
        "check" => Ok(check_options(command)),
        "decide" => decide_options(command),
        "explain" => explain_options(command),
        "show" => show_options(command),
        "tables" => tables_options(command),
        "coord" => coord_options(command),
        "work" => work_options(command),
        "run" => run_options(command),
        "walk" => walk_options(command),
        "loop" => loop_options(command),
        "retry" => retry_options(command),
        "merge" => Ok(merge_options(command)),
        "carry" => Ok(carry_options(command)),
        "mend" => Ok(mend_options(command)),
        "split" => split_options(command),
        "settle" => settle_options(command),
        "join" => join_options(command),
        "look" => Ok(look_options(command)),
        "draw" => draw_options(command),
        "page" => Ok(page_options(command)),
        "report" => Ok(report_options(command)),
        _ => Err(LineFault::NoSuchCommand),
    }
}

// How far to search.
fn search_of<'a>(matches: &ArgMatches<'a>) -> Result<Search<'a>, LineFault>
    ensures within { IfOk result IsWithinRange }
    ensures asked { IfOk result (AsksSearch (rows_found matches.now)) }
{
    Ok(Search {
        known: known_of(matches)?,
        steps: number_of(matches, STEPS)?,
        depth: number_of(matches, DEPTH)?,
        gram: number_of(matches, GRAM)?,
        far: number_of(matches, FAR)?,
        words: number_of(matches, WORDS)?,
        count: number_of(matches, COUNT)?,
        rules: number_of(matches, RULES)?,
        hard: flag_of(matches, HARD),
        long_run: number_or(matches, LONG_RUN, LONG_RUN.most)?,
    })
}

// The file of records that are looked up first, if there is one.
fn known_of<'a>(matches: &ArgMatches<'a>) -> Result<Option<&'a str>, LineFault>
    ensures { IfOk result (IsTextIf (rows_found matches.now) (codes "known")) }
{
    match text_of(matches, KNOWN) {
        Some("-") => Err(LineFault::KnownFromInput),
        known => Ok(known),
    }
}

// The number of an option.
pub(crate) fn number_of(matches: &ArgMatches<'_>, number: Number) -> Result<u64, LineFault>
    ensures within { IfOk result (λ given. (number.least ≤ given) × (given ≤ number.most)) }
    ensures given { IfOk result (IsNumber (rows_found matches.now) number.name.now) }
{
    match given_number(matches, number.name) {
        Some(given) if number.least <= given && given <= number.most => Ok(given),
        _ => Err(LineFault::OutOfRange(number)),
    }
}

// The number that an option has, within its range or not.
fn given_number(matches: &ArgMatches<'_>, name: &str) -> Option<u64>
    ensures { IfSome result (IsNumber (rows_found matches.now) name.now) }
{
    let word = matches.get_str(name)?;
    number_read(word)
}

// The number of an option that may be left out.
fn number_if_given(matches: &ArgMatches<'_>, number: Number) -> Result<Option<u64>, LineFault>
    ensures within { IfOk result (λ given. IfSome given (λ given. (number.least ≤ given) × (given ≤ number.most))) }
    ensures given { IfOk result (IsNumberIf (rows_found matches.now) number.name.now) }
{
    if matches.get_str(number.name).is_none() {
        return Ok(None);
    }
    Ok(Some(number_of(matches, number)?))
}

// The number of an option, or, where it is left out or the command has no such option, another one within its range.
fn number_or(matches: &ArgMatches<'_>, number: Number, other: u64) -> Result<u64, LineFault>
    requires { (number.least ≤ other) × (other ≤ number.most) }
    ensures within { IfOk result (λ given. (number.least ≤ given) × (given ≤ number.most)) }
    ensures given { IfOk result (IsNumberOr (rows_found matches.now) number.name.now other) }
{
    Ok(number_if_given(matches, number)?.unwrap_or(other))
}

// The text of an option, if it is given.
pub(crate) fn text_of<'a>(matches: &ArgMatches<'a>, text: Text) -> Option<&'a str>
    ensures { IsTextIf (rows_found matches.now) text.name.now result }
{
    matches.get_str(text.name)
}

// The text of an argument. clap has refused words without it.
fn argument_of<'a>(matches: &ArgMatches<'a>, text: Text) -> &'a str
    ensures { IsArgument (rows_found matches.now) text.name.now result }
{
    text_of(matches, text).unwrap_or_default()
}

// Whether an option without a value is given.
pub(crate) fn flag_of(matches: &ArgMatches<'_>, flag: Flag) -> bool
    ensures { IsFlag (rows_found matches.now) flag.name.now result }
{
    matches.get_flag(flag.name)
}

// The ledger that is kept, if one is.
pub(crate) fn ledger_of<'a>(matches: &ArgMatches<'a>) -> Option<LedgerFile<'a>>
    ensures { IsLedger (rows_found matches.now) result }
{
    let path = text_of(matches, LEDGER)?;
    Some(written_of(matches, path))
}

// The ledger that the argument names.
fn file_of<'a>(matches: &ArgMatches<'a>) -> LedgerFile<'a>
    ensures { AsksFile (rows_found matches.now) result }
{
    written_of(matches, argument_of(matches, FILE))
}

// The ledger at a path, as it is to be written.
pub(crate) fn written_of<'a>(matches: &ArgMatches<'a>, path: &'a str) -> LedgerFile<'a>
    ensures { IsWrittenAt (rows_found matches.now) (Some path.entry.now) result }
{
    let durability = if flag_of(matches, SYNC) {
        Durability::Disk
    } else {
        Durability::System
    };
    LedgerFile { path, durability }
}

fn check_options<'a>(check: &ArgMatches<'a>) -> Options<'a>
    ensures within { AreWithinRanges result }
    ensures asked { AsksFor (codes "check") (rows_found check.now) result }
{
    Options::Check(Checking {
        json: flag_of(check, LINE_JSON),
        why: flag_of(check, RECORD_WHY),
    })
}

fn decide_options<'a>(decide: &ArgMatches<'a>) -> Result<Options<'a>, LineFault>
    ensures within { IfOk result AreWithinRanges }
    ensures asked { IfOk result (AsksFor (codes "decide") (rows_found decide.now)) }
{
    Ok(Options::Decide(Deciding {
        search: search_of(decide)?,
        json: flag_of(decide, LINE_JSON),
        keep: flag_of(decide, KEEP),
        run: number_if_given(decide, RUN_ALONE)?,
        progress: flag_of(decide, PROGRESS),
    }))
}

fn explain_options<'a>(explain: &ArgMatches<'a>) -> Result<Options<'a>, LineFault>
    ensures within { IfOk result AreWithinRanges }
    ensures asked { IfOk result (AsksFor (codes "explain") (rows_found explain.now)) }
{
    Ok(Options::Explain(Explaining {
        json: flag_of(explain, EXPLAIN_JSON),
        dot: flag_of(explain, DOT),
        run: number_if_given(explain, SEEN)?,
    }))
}

fn show_options<'a>(show: &ArgMatches<'a>) -> Result<Options<'a>, LineFault>
    ensures within { IfOk result AreWithinRanges }
    ensures asked { IfOk result (AsksFor (codes "show") (rows_found show.now)) }
{
    Ok(Options::Show(Showing {
        from: number_of(show, FROM)?,
        steps: number_of(show, SHOWN)?,
        every: number_of(show, EVERY)?,
        fold: flag_of(show, FOLD),
        align: flag_of(show, ALIGN),
    }))
}

fn tables_options<'a>(tables: &ArgMatches<'a>) -> Result<Options<'a>, LineFault>
    ensures within { IfOk result AreWithinRanges }
    ensures asked { IfOk result (AsksFor (codes "tables") (rows_found tables.now)) }
{
    Ok(Options::Tables(Listing {
        normal: flag_of(tables, NORMAL),
        steps: number_of(tables, RUN_STEPS)?,
        records: flag_of(tables, WITH_RECORDS),
    }))
}

fn work_options<'a>(work: &ArgMatches<'a>) -> Result<Options<'a>, LineFault>
    ensures within { IfOk result AreWithinRanges }
    ensures asked { IfOk result (AsksFor (codes "work") (rows_found work.now)) }
{
    Ok(Options::Work(Working {
        connect: text_of(work, CONNECT),
        token: text_of(work, WORK_TOKEN),
        tries: number_of(work, TRIES)?,
        first_id: first_id_of(work)?,
        workers: number_of(work, IDS)? as u8,
        ledger: ledger_of(work),
        search: search_of(work)?,
    }))
}

// The id of the first worker, where one is given.
fn first_id_of(work: &ArgMatches<'_>) -> Result<Option<u32>, LineFault>
    ensures within { IfOk result (λ id. IfSome id (λ id. id ≤ 4294967232)) }
    ensures given { IfOk result (IsNumberIf (rows_found work.now) (codes "id")) }
{
    match number_if_given(work, ID)? {
        Some(id) => Ok(Some(id as u32)),
        None => Ok(None),
    }
}

fn run_options<'a>(run: &ArgMatches<'a>) -> Result<Options<'a>, LineFault>
    ensures within { IfOk result AreWithinRanges }
    ensures asked { IfOk result (AsksFor (codes "run") (rows_found run.now)) }
{
    let lose = number_if_given(run, LOSE)?;
    Ok(Options::Run {
        settling: settling_of(run, lose)?,
        ledger: ledger_of(run),
    })
}

fn loop_options<'a>(over_sockets: &ArgMatches<'a>) -> Result<Options<'a>, LineFault>
    ensures within { IfOk result AreWithinRanges }
    ensures asked { IfOk result (AsksFor (codes "loop") (rows_found over_sockets.now)) }
{
    Ok(Options::Loop {
        settling: settling_of(over_sockets, None)?,
        ledger: ledger_of(over_sockets),
    })
}

// How a tree is settled, where so many frames are lost.
fn settling_of<'a>(matches: &ArgMatches<'a>, lose: Option<u64>) -> Result<Settling<'a>, LineFault>
    requires { IfSome lose (λ every. (2 ≤ every) × (every ≤ 1000)) }
    ensures within { IfOk result (λ settling. IsSettling settling × (settling.lose ≡ lose)) }
    ensures asked { IfOk result (AsksSettling (rows_found matches.now)) }
{
    Ok(Settling {
        states: number_of(matches, STATES)? as u8,
        workers: number_of(matches, WORKERS)? as u8,
        lose,
        rounds: number_of(matches, ROUNDS)?,
        search: search_of(matches)?,
        json: flag_of(matches, JSON),
        progress: flag_of(matches, PROGRESS),
    })
}

fn walk_options<'a>(walk: &ArgMatches<'a>) -> Result<Options<'a>, LineFault>
    ensures within { IfOk result AreWithinRanges }
    ensures asked { IfOk result (AsksFor (codes "walk") (rows_found walk.now)) }
{
    Ok(Options::Walk(Walking {
        states: number_of(walk, STATES)? as u8,
        root: text_of(walk, ROOT),
        saving: saving_of(walk)?,
        search: search_of(walk)?,
        json: flag_of(walk, JSON),
        progress: flag_of(walk, PROGRESS),
    }))
}

// Where records that took long to find are saved, if they are.
fn saving_of<'a>(walk: &ArgMatches<'a>) -> Result<Option<Saving<'a>>, LineFault>
    ensures within { IfOk result (λ saving. IfSome saving (λ saving. saving.dear ≤ 100000000)) }
    ensures asked { IfOk result (AsksSaving (rows_found walk.now)) }
{
    let dear = number_of(walk, DEAR)?;
    match text_of(walk, SAVE) {
        Some(path) => Ok(Some(Saving { path, dear })),
        None => Ok(None),
    }
}

fn retry_options<'a>(retry: &ArgMatches<'a>) -> Result<Options<'a>, LineFault>
    ensures within { IfOk result AreWithinRanges }
    ensures asked { IfOk result (AsksFor (codes "retry") (rows_found retry.now)) }
{
    Ok(Options::Retry(Retrying {
        file: file_of(retry),
        search: search_of(retry)?,
        progress: flag_of(retry, PROGRESS),
    }))
}

fn merge_options<'a>(merge: &ArgMatches<'a>) -> Options<'a>
    ensures within { AreWithinRanges result }
    ensures asked { AsksFor (codes "merge") (rows_found merge.now) result }
{
    Options::Merge(Merging {
        first: argument_of(merge, FIRST),
        second: argument_of(merge, SECOND),
        out: argument_of(merge, MERGED),
        replace: flag_of(merge, REPLACE),
        progress: flag_of(merge, PROGRESS),
    })
}

fn carry_options<'a>(carry: &ArgMatches<'a>) -> Options<'a>
    ensures within { AreWithinRanges result }
    ensures asked { AsksFor (codes "carry") (rows_found carry.now) result }
{
    Options::Carry(Carrying {
        ledger: argument_of(carry, OLD),
        out: argument_of(carry, CARRIED),
        replace: flag_of(carry, REPLACE),
        progress: flag_of(carry, PROGRESS),
    })
}

fn mend_options<'a>(mend: &ArgMatches<'a>) -> Options<'a>
    ensures within { AreWithinRanges result }
    ensures asked { AsksFor (codes "mend") (rows_found mend.now) result }
{
    Options::Mend(Mending {
        ledger: argument_of(mend, DAMAGED),
        out: argument_of(mend, MENDED),
        replace: flag_of(mend, REPLACE),
        progress: flag_of(mend, PROGRESS),
    })
}

fn split_options<'a>(split: &ArgMatches<'a>) -> Result<Options<'a>, LineFault>
    ensures within { IfOk result AreWithinRanges }
    ensures asked { IfOk result (AsksFor (codes "split") (rows_found split.now)) }
{
    Ok(Options::Split(Splitting {
        states: number_of(split, STATES)? as u8,
        folder: argument_of(split, FOLDER),
        filled: number_of(split, FILLED)? as u8,
        search: search_of(split)?,
        progress: flag_of(split, PROGRESS),
    }))
}

fn settle_options<'a>(settle: &ArgMatches<'a>) -> Result<Options<'a>, LineFault>
    ensures within { IfOk result AreWithinRanges }
    ensures asked { IfOk result (AsksFor (codes "settle") (rows_found settle.now)) }
{
    Ok(Options::Settle(LedgerSettling {
        file: file_of(settle),
        search: search_of(settle)?,
        progress: flag_of(settle, PROGRESS),
    }))
}

fn join_options<'a>(join: &ArgMatches<'a>) -> Result<Options<'a>, LineFault>
    ensures within { IfOk result AreWithinRanges }
    ensures asked { IfOk result (AsksFor (codes "join") (rows_found join.now)) }
{
    let joining = Joining {
        folder: argument_of(join, JOIN_READ),
        out: text_of(join, JOINED),
        replace: flag_of(join, JOINED_REPLACE),
        json: flag_of(join, JSON),
        progress: flag_of(join, PROGRESS),
    };
    if joining.folder == STANDARD_INPUT && joining.out.is_some() {
        return Err(LineFault::LedgerOfStream);
    }
    Ok(Options::Join(joining))
}

fn look_options<'a>(look: &ArgMatches<'a>) -> Options<'a>
    ensures within { AreWithinRanges result }
    ensures asked { AsksFor (codes "look") (rows_found look.now) result }
{
    Options::Look(Looking {
        path: argument_of(look, LOOKED),
        holdouts: flag_of(look, HOLDOUTS),
        progress: flag_of(look, PROGRESS),
    })
}

fn draw_options<'a>(draw: &ArgMatches<'a>) -> Result<Options<'a>, LineFault>
    ensures within { IfOk result AreWithinRanges }
    ensures asked { IfOk result (AsksFor (codes "draw") (rows_found draw.now)) }
{
    Ok(Options::Draw(Drawing {
        from: number_of(draw, FROM)?,
        steps: number_if_given(draw, DRAWN)?,
        rows: number_of(draw, ROWS)?,
        width: number_of(draw, WIDTH)?,
        columns: number_of(draw, COLUMNS)?,
        square: number_of(draw, SQUARE)?,
        height: number_if_given(draw, HEIGHT)?,
        out: text_of(draw, PICTURES),
        replace: flag_of(draw, DRAWN_REPLACE),
    }))
}

fn page_options<'a>(page: &ArgMatches<'a>) -> Options<'a>
    ensures within { AreWithinRanges result }
    ensures asked { AsksFor (codes "page") (rows_found page.now) result }
{
    // No ledger is named exactly where --table is given: clap has refused both and neither.
    Options::Page(Paging {
        ledger: text_of(page, PAGED),
        title: text_of(page, TITLE),
        progress: flag_of(page, PROGRESS),
    })
}

fn report_options<'a>(report: &ArgMatches<'a>) -> Options<'a>
    ensures within { AreWithinRanges result }
    ensures asked { AsksFor (codes "report") (rows_found report.now) result }
{
    Options::Report(Reporting {
        file: argument_of(report, READ),
        json: flag_of(report, JSON),
        why: flag_of(report, LEDGER_WHY),
        progress: flag_of(report, PROGRESS),
    })
}
