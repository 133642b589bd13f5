// What a command line asks for, pictures among it.
use crate::writing::LedgerFile;

/// Which picture is drawn of each table.
#[derive(Clone, Copy, Debug, PartialEq, Eq)]
pub struct Drawing<'a> {
    /// The time of the first row: so many steps from the blank tape.
    pub from: u64,
    /// How many steps are drawn from there on; none where as many as make one row each.
    pub steps: Option<u64>,
    /// The most rows, 1 at least: where there are more steps, only every so many-th is drawn.
    pub rows: u64,
    /// How many cells are drawn, with the first head in the middle; 0 where those are that the head visits.
    pub width: u64,
    /// The most columns, 1 at least: where more cells are drawn, as many neighbours share a column as make it so.
    pub columns: u64,
    /// The most pixels that a cell is wide and high: 1 at least.
    pub square: u64,
    /// The most pixels that the picture is high; none where cells are squares.
    pub height: Option<u64>,
    /// The folder in which the pictures are files; none where one picture is drawn, to standard output.
    pub out: Option<&'a str>,
    /// Whether a picture that is there already is replaced; else a file is only made where none is.
    pub replace: bool,
}

/// What a command line asks for: a command, with its files and options under their names.
#[derive(Clone, Copy, Debug, PartialEq, Eq)]
pub enum Options<'a> {
    /// `bb check [--json] [--why]`
    Check(Checking),
    /// `bb decide [--json] [--keep] [--run K] [--progress] [--known FILE] [--steps K] [--depth D] [--gram G] [--far M]
    /// [--words W] [--count C] [--rules R] [--hard]`
    Decide(Deciding<'a>),
    /// `bb explain [--json] [--dot] [--run K]`
    Explain(Explaining),
    /// `bb show [--from T] [--steps K] [--every E] [--fold] [--align]`
    Show(Showing),
    /// `bb tables [--normal] [--steps K] [--records]`
    Tables(Listing),
    /// `bb coord N [--ledger FILE] [--sync] [--era E] [--listen ADDR [--token FILE] [--open] [--per-address K]
    /// [--accept-holdouts] [--json] [--progress]]`
    Coord {
        /// How a coordinator is begun.
        beginning: Beginning,
        /// The ledger; none where it is kept in memory.
        ledger: Option<LedgerFile<'a>>,
        /// Where it listens for workers; none where their frames come on standard input.
        listening: Option<Listening<'a>>,
    },
    /// `bb coord FILE --listen ADDR` and the options of `bb coord N` but `--ledger`
    CoordPart(PartCoordinating<'a>),
    /// `bb work [--connect ADDR [--token FILE] [--tries T]] [--id I] [--ids K] [--ledger FILE] [--sync]` and the options
    /// of a search of `decide`
    Work(Working<'a>),
    /// `bb run N [--workers W] [--ledger FILE] [--sync] [--lose K] [--rounds R] [--json] [--progress]` and the
    /// options of a search of `decide`
    Run {
        /// How the tree is settled.
        settling: Settling<'a>,
        /// The coordinator's ledger; none where it is kept in memory.
        ledger: Option<LedgerFile<'a>>,
    },
    /// `bb loop N` and the options of `run` but `--lose`
    Loop {
        /// How the tree is settled; no frame is lost.
        settling: Settling<'a>,
        /// The coordinator's ledger; none where it is kept in memory.
        ledger: Option<LedgerFile<'a>>,
    },
    /// `bb walk N [--root TABLE] [--save FILE [--dear K]] [--long-run K] [--json] [--progress]` and the options of a search of `decide`
    Walk(Walking<'a>),
    /// `bb retry FILE [--sync] [--progress]` and the options of a search of `decide`
    Retry(Retrying<'a>),
    /// `bb merge A B OUT [--replace] [--progress]`
    Merge(Merging<'a>),
    /// `bb carry IN OUT [--replace] [--progress]`
    Carry(Carrying<'a>),
    /// `bb mend IN OUT [--replace] [--progress]`
    Mend(Mending<'a>),
    /// `bb split N DIR [--filled D] [--progress]` and the options of a search of `decide`
    Split(Splitting<'a>),
    /// `bb settle FILE [--sync] [--progress]` and the options of a search of `decide`
    Settle(LedgerSettling<'a>),
    /// `bb join DIR [--json] [--ledger OUT [--replace]] [--progress]`
    Join(Joining<'a>),
    /// `bb look PATH [--holdouts] [--progress]`
    Look(Looking<'a>),
    /// `bb draw [--from T] [--steps K] [--rows R] [--width W] [--columns C] [--square P] [--height H]
    /// [--out DIR [--replace]]`
    Draw(Drawing<'a>),
    /// `bb page FILE [--title TITLE] [--progress]` or `bb page --table [--title TITLE]`
    Page(Paging<'a>),
    /// `bb report FILE [--json] [--why] [--progress]`
    Report(Reporting<'a>),
}

/// What is said of records that are judged.
#[derive(Clone, Copy, Debug, PartialEq, Eq)]
pub struct Checking {
    /// Whether each answer is an object of JSON.
    pub json: bool,
    /// Whether it is said in words what is right where a record is wrong.
    pub why: bool,
}

/// How records of given tables are looked for.
#[derive(Clone, Copy, Debug, PartialEq, Eq)]
pub struct Deciding<'a> {
    /// How far certificates are searched for.
    pub search: Search<'a>,
    /// Whether each answer is an object of JSON.
    pub json: bool,
    /// Whether the table of an answer is printed as it came.
    pub keep: bool,
    /// The most steps of its run, where a table is run alone: 1 to 10,000,000,000. None where all that `search` asks for is
    /// done.
    pub run: Option<u64>,
    /// Whether to tell on standard error, while it goes on, how far it is.
    pub progress: bool,
}

/// What is said in words of records that are judged.
#[derive(Clone, Copy, Debug, PartialEq, Eq)]
pub struct Explaining {
    /// Whether each answer is an object of JSON.
    pub json: bool,
    /// Whether the automata of a record are drawn, in the language of Graphviz, in place of words.
    pub dot: bool,
    /// Tables without a certificate are run for so many steps at most, and it is said what was seen: 1 to 10,000,000,000. None
    /// where they aren't run.
    pub run: Option<u64>,
}

/// How the holdouts of a ledger are tried again.
#[derive(Clone, Copy, Debug, PartialEq, Eq)]
pub struct Retrying<'a> {
    /// The ledger.
    pub file: LedgerFile<'a>,
    /// How far certificates are searched for.
    pub search: Search<'a>,
    /// Whether to tell on standard error, while it goes on, how far it is.
    pub progress: bool,
}

/// How the report of a ledger is printed.
#[derive(Clone, Copy, Debug, PartialEq, Eq)]
pub struct Reporting<'a> {
    /// The ledger's path, or `-`: it is read from standard input.
    pub file: &'a str,
    /// Whether to print the report as JSON.
    pub json: bool,
    /// Whether to say why the first line that isn't kept isn't.
    pub why: bool,
    /// Whether to tell on standard error, while it goes on, how far it is.
    pub progress: bool,
}

/// Which page is made.
#[derive(Clone, Copy, Debug, PartialEq, Eq)]
pub struct Paging<'a> {
    /// The path of a ledger or of a folder of a trunk and its parts, or `-`: a ledger is read from standard input. None where
    /// records are, a line each, and the page is of these.
    pub ledger: Option<&'a str>,
    /// What the page is called; none where it is called by what it is of.
    pub title: Option<&'a str>,
    /// Whether to tell on standard error, while it goes on, how far it is.
    pub progress: bool,
}

/// Which configurations of a table's run are shown, and how.
#[derive(Clone, Copy, Debug, PartialEq, Eq)]
pub struct Showing {
    /// The time of the first: so many steps from the blank tape.
    pub from: u64,
    /// How many steps are shown from there on.
    pub steps: u64,
    /// So many steps are between one that is shown and the next: 1 or more.
    pub every: u64,
    /// Whether runs of equal words are folded, as in `1^12 (01)^5`.
    pub fold: bool,
    /// Whether each row begins at the same cell, with blanks as `.`.
    pub align: bool,
}

/// How tables are taken from a text of any form.
#[derive(Clone, Copy, Debug, PartialEq, Eq)]
pub struct Listing {
    /// Whether tables are renamed and mirrored into the form that their runs ask for.
    pub normal: bool,
    /// The most steps of such a run.
    pub steps: u64,
    /// Whether the records of tables are kept behind them.
    pub records: bool,
}

/// The paths of two ledgers that are merged, and of the one that is written.
#[derive(Clone, Copy, Debug, PartialEq, Eq)]
pub struct Merging<'a> {
    /// The ledger whose records come first.
    pub first: &'a str,
    /// The ledger whose records are then offered.
    pub second: &'a str,
    /// The ledger that is written; it may be one of the two.
    pub out: &'a str,
    /// Whether what is at the path of the ledger that is written is replaced; else a ledger is only written where none is.
    pub replace: bool,
    /// Whether to tell on standard error, while it goes on, how far it is.
    pub progress: bool,
}

/// The paths of a ledger of either version and of the one that is written, of version 2.
#[derive(Clone, Copy, Debug, PartialEq, Eq)]
pub struct Carrying<'a> {
    /// The ledger that is read.
    pub ledger: &'a str,
    /// The ledger that is written; it may be the same.
    pub out: &'a str,
    /// Whether what is at the path of the ledger that is written is replaced; else a ledger is only written where none is.
    pub replace: bool,
    /// Whether to tell on standard error, while it goes on, how far it is.
    pub progress: bool,
}

/// The paths of a damaged ledger and of the one that is written, of version 2.
#[derive(Clone, Copy, Debug, PartialEq, Eq)]
pub struct Mending<'a> {
    /// The path of the ledger that is read, or `-`: it is read from standard input.
    pub ledger: &'a str,
    /// The ledger that is written; it may be the same.
    pub out: &'a str,
    /// Whether what is at the path of the ledger that is written is replaced; else a ledger is only written where none is.
    pub replace: bool,
    /// Whether to tell on standard error, while it goes on, how far it is.
    pub progress: bool,
}

/// How a ledger is settled.
#[derive(Clone, Copy, Debug, PartialEq, Eq)]
pub struct LedgerSettling<'a> {
    /// The ledger.
    pub file: LedgerFile<'a>,
    /// How far certificates are searched for.
    pub search: Search<'a>,
    /// Whether to tell on standard error, while it goes on, how far it is.
    pub progress: bool,
}

/// How a tree is walked in one process, without a ledger.
#[derive(Clone, Copy, Debug, PartialEq, Eq)]
pub struct Walking<'a> {
    /// How many states the machines have: 1 to 7.
    pub states: u8,
    /// The text of the table below which the tree is walked; none where it is the whole tree.
    pub root: Option<&'a str>,
    /// Where records are saved that were dear to find; none where none are.
    pub saving: Option<Saving<'a>>,
    /// How far certificates are searched for.
    pub search: Search<'a>,
    /// Whether to print the report as JSON.
    pub json: bool,
    /// Whether to tell on standard error, while it goes on, how far it is.
    pub progress: bool,
}

/// Where records are saved that were dear to find.
#[derive(Clone, Copy, Debug, PartialEq, Eq)]
pub struct Saving<'a> {
    /// The path of the file to which they are appended.
    pub path: &'a str,
    /// A record that says more steps than these is dear, whichever search found it: 0 to 100,000,000.
    pub dear: u64,
}

/// How a tree is cut into a trunk and parts.
#[derive(Clone, Copy, Debug, PartialEq, Eq)]
pub struct Splitting<'a> {
    /// How many states the machines have: 1 to 7.
    pub states: u8,
    /// The folder in which the trunk's ledger and those of the parts stand.
    pub folder: &'a str,
    /// A table with fewer filled entries is decided in the trunk; any other is the root of a part: 0 to 14.
    pub filled: u8,
    /// How far certificates are searched for in the trunk.
    pub search: Search<'a>,
    /// Whether to tell on standard error, while it goes on, how far it is.
    pub progress: bool,
}

/// What is said of a trunk and its parts together.
#[derive(Clone, Copy, Debug, PartialEq, Eq)]
pub struct Joining<'a> {
    /// The folder of the trunk and the parts.
    pub folder: &'a str,
    /// The path of the one ledger that is written of all; none where none is.
    pub out: Option<&'a str>,
    /// Whether what is at the path of the ledger that is written is replaced; else a ledger is only written where none is.
    pub replace: bool,
    /// Whether to print the report as JSON.
    pub json: bool,
    /// Whether to tell on standard error, while it goes on, how far it is.
    pub progress: bool,
}

/// Where tables are looked up.
#[derive(Clone, Copy, Debug, PartialEq, Eq)]
pub struct Looking<'a> {
    /// The path of a ledger, or of a folder of a trunk and its parts.
    pub path: &'a str,
    /// Whether the holdouts are printed, in place of what is recorded of given tables.
    pub holdouts: bool,
    /// Whether to tell on standard error, while it goes on, how far it is.
    pub progress: bool,
}

/// What is known before certificates are searched for, and how far they are.
#[derive(Clone, Copy, Debug, PartialEq, Eq)]
pub struct Search<'a> {
    /// The file of records that were found elsewhere, which are looked up first; none where there is none.
    pub known: Option<&'a str>,
    /// The steps of each finder that runs tables, and the budget: 1 to 100,000,000.
    pub steps: u64,
    /// The depth of backward reasoning: 0 to 1,000.
    pub depth: u64,
    /// The greatest width of words in position sets: 0 to 8, where 0 asks for none.
    pub gram: u64,
    /// The most states of the first automaton of two: 0 to 16, where 0 asks for none.
    pub far: u64,
    /// How many stages of first automata that are made from words are tried: 0 to 11, where 0 asks for none.
    pub words: u64,
    /// The most counts of counted automata: 0 to 12, where 0 asks for none.
    pub count: u64,
    /// How often a run is looked at for rules with induction: 0 to 7, where 0 asks for none.
    pub rules: u64,
    /// Whether it goes by stages of its own, from cheap searches to dear ones, which `steps` scales; of the other numbers
    /// `long_run` alone is used then.
    pub hard: bool,
    /// The most steps of the stage of `hard` that looks for halting alone: 1 to 100,000,000.
    pub long_run: u64,
}

/// How a coordinator is begun.
#[derive(Clone, Copy, Debug, PartialEq, Eq)]
pub struct Beginning {
    /// How many states the machines have: 1 to 7.
    pub states: u8,
    /// The number by which its leases are told from those of an earlier run: 1 or more.
    pub era: u64,
}

/// How a coordinator goes on with the ledger of a part of a tree.
#[derive(Clone, Copy, Debug, PartialEq, Eq)]
pub struct PartCoordinating<'a> {
    /// The ledger of the part: its header names the root.
    pub file: LedgerFile<'a>,
    /// The number by which its leases are told from those of an earlier run: 1 or more.
    pub era: u64,
    /// How it serves workers.
    pub listening: Listening<'a>,
}

/// How a coordinator serves workers that connect with it.
#[derive(Clone, Copy, Debug, PartialEq, Eq)]
pub struct Listening<'a> {
    /// Where it listens: `HOST:PORT`, a port of 127.0.0.1, or the path of a socket file, which has a `/`.
    pub address: &'a str,
    /// The file of the token that workers have to have; none where anyone may come.
    pub token: Option<&'a str>,
    /// How many connections may come from one address over TCP: 1 to 1,000.
    pub per_address: u64,
    /// Whether records of holdouts are taken without a token too.
    pub accept_holdouts: bool,
    /// Whether to print the report at the end as JSON.
    pub json: bool,
    /// Whether to tell on standard error, while it goes on, how far it is.
    pub progress: bool,
}

/// How a process works for a coordinator.
#[derive(Clone, Copy, Debug, PartialEq, Eq)]
pub struct Working<'a> {
    /// Where the coordinator listens: `HOST:PORT`, a port of 127.0.0.1, or the path of a socket file, which has a `/`. None
    /// where its frames come on standard input, and those to it go to standard output.
    pub connect: Option<&'a str>,
    /// The file of the token that the coordinator has to have; none where it may be any.
    pub token: Option<&'a str>,
    /// How often in a row it is tried to connect: 1 to 1,000,000.
    pub tries: u64,
    /// The id of the first worker, the others have those that follow: at most 4,294,967,232. None where it is drawn by the
    /// clock.
    pub first_id: Option<u32>,
    /// How many workers the process is: 1 to 64.
    pub workers: u8,
    /// The ledger of a single worker, or what the names of those of several begin with; none where they are kept in memory.
    pub ledger: Option<LedgerFile<'a>>,
    /// How far each worker searches for certificates.
    pub search: Search<'a>,
}

/// How a tree is settled by a coordinator and workers in one process.
#[derive(Clone, Copy, Debug, PartialEq, Eq)]
pub struct Settling<'a> {
    /// How many states the machines have: 1 to 7.
    pub states: u8,
    /// How many workers there are: 1 to 64.
    pub workers: u8,
    /// Of the first 1,000 frames in each direction of each worker's link every so many-th is lost, 2 to
    /// 1,000; or none is.
    pub lose: Option<u64>,
    /// The most rounds: 1 to 1,000,000,000.
    pub rounds: u64,
    /// How far each worker searches for certificates.
    pub search: Search<'a>,
    /// Whether to print the report as JSON.
    pub json: bool,
    /// Whether to tell on standard error, while it goes on, how far it is.
    pub progress: bool,
}
