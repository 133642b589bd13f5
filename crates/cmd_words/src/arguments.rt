// The arguments and options.
pub(crate) use rows::*;

#[rattlefmt::skip]
mod rows {
    use crate::words::{Flag, Text};
    use cmd_options::{Number, REACH_NAMES, ranged};

    pub(crate) const STATES: Number = ranged! { name: "N", value: None, least: 1, most: 7, default: None,
        help: "How many states the machines have" };
    pub(crate) const COORDINATED: Text = Text { name: "N|FILE", value: None,
        help: "How many states the machines have, 1 to 7; with --listen also the ledger of a part, without --ledger" };
    pub(crate) const WORKERS: Number = ranged! { name: "workers", value: Some("W"), least: 1, most: 64,
        default: Some("2"), help: "How many workers there are; all run on one processor (contrib/ uses more)" };
    pub(crate) const LOSE: Number = ranged! { name: "lose", value: Some("K"), least: 2, most: 1_000, default: None,
        help: "Lose every K-th of the first 1,000 frames, in each direction of each link" };
    pub(crate) const ROUNDS: Number = ranged! { name: "rounds", value: Some("R"), least: 1, most: 1_000_000_000,
        default: Some("1000000"), help: "Stop after so many rounds" };
    pub(crate) const ERA: Number = ranged! { name: "era", value: Some("E"), least: 1, most: u64::MAX,
        default: Some("1"), help: "Distinguishes this run's leases from those of an earlier one" };
    pub(crate) const TRIES: Number = ranged! { name: "tries", value: Some("T"), least: 1, most: 1_000_000,
        default: Some("20"), help: "Give up after so many failed tries in a row to connect" };
    pub(crate) const PER_ADDRESS: Number = ranged! { name: "per-address", value: Some("K"), least: 1, most: 1_000,
        default: Some("100"), help: "Take so many connections from one address, over TCP" };
    pub(crate) const ID: Number = ranged! { name: "id", value: Some("I"), least: 0, most: 4_294_967_232, default: None,
        help: "The id of the first worker; without it one is drawn by the clock" };
    pub(crate) const IDS: Number = ranged! { name: "ids", value: Some("K"), least: 1, most: 64,
        default: Some("16"), help: "How many workers this process is, whose frames go over one stream" };
    pub(crate) const FILLED: Number = ranged! { name: "filled", value: Some("D"), least: 0, most: 14,
        default: Some("4"), help: "Decide the tables with fewer filled entries, leave the others to the parts" };
    pub(crate) const DEAR: Number = ranged! { name: "dear", value: Some("K"), least: 0, most: 100_000_000,
        default: Some("1000"), help: "With --save, append each record of more than K steps too" };
    pub(crate) const STEPS: Number = ranged! { name: "steps", value: Some("K"), least: 1, most: 100_000_000,
        default: Some("1000"), help: "The most steps of a search's run; scales the stages of --hard" };
    pub(crate) const LONG_RUN: Number = ranged! { name: "long-run", value: Some("K"), least: 1, most: 100_000_000,
        default: None, help: "With --hard, look for a late halt in K steps at most (default 100000000)" };
    pub(crate) const FROM: Number = ranged! { name: "from", value: Some("T"), least: 0, most: 100_000_000,
        default: Some("0"), help: "Begin at this time" };
    pub(crate) const DRAWN: Number = ranged! { name: "steps", value: Some("K"), least: 0, most: 100_000_000,
        default: None, help: "Draw so many steps from there on (default one less than --rows)" };
    pub(crate) const ROWS: Number = ranged! { name: "rows", value: Some("R"), least: 1, most: 10_000,
        default: Some("500"), help: "The most rows" };
    pub(crate) const WIDTH: Number = ranged! { name: "width", value: Some("W"), least: 0, most: 1_000_000,
        default: Some("0"), help: "How many cells, the first head in the middle; 0 for those it visits" };
    pub(crate) const COLUMNS: Number = ranged! { name: "columns", value: Some("C"), least: 1, most: 100_000,
        default: Some("1000"), help: "The most columns; where there are more cells, neighbours share one" };
    pub(crate) const SQUARE: Number = ranged! { name: "square", value: Some("P"), least: 1, most: 1_000,
        default: Some("16"), help: "The most pixels that a cell is wide and high" };
    pub(crate) const HEIGHT: Number = ranged! { name: "height", value: Some("H"), least: 1, most: 65_535,
        default: None, help: "The most pixels that the picture is high (without it cells are squares)" };
    pub(crate) const SHOWN: Number = ranged! { name: "steps", value: Some("K"), least: 0, most: 100_000_000,
        default: Some("100"), help: "Show so many steps from there on" };
    pub(crate) const EVERY: Number = ranged! { name: "every", value: Some("E"), least: 1, most: 100_000_000,
        default: Some("1"), help: "Show every E-th configuration" };
    // As far as a record of a late halt may say.
    pub(crate) const RUN_ALONE: Number = ranged! { name: "run", value: Some("K"), least: 1, most: 10_000_000_000,
        default: None, help: "Look for halting and for loops alone, in K steps at most" };
    pub(crate) const SEEN: Number = ranged! { name: "run", value: Some("K"), least: 1, most: 10_000_000_000,
        default: None, help: "Of a table without a certificate, say what is seen in K steps" };
    pub(crate) const RUN_STEPS: Number = ranged! { name: "steps", value: Some("K"), least: 0, most: 100_000_000,
        default: Some("1000000"), help: "With --normal, run a table for so many steps at most" };

    pub(crate) const LINES: Text = Text { name: "LINE", value: None,
        help: "A table or a record, in quotes where it has spaces; without any, and without --input, standard input" };
    // A table alone is what is decided.
    pub(crate) const TABLE_LINES: Text = Text {
        help: "A table; without any, and without --input, standard input", ..LINES };
    pub(crate) const RECORD_LINES: Text = Text {
        help: "A record, in quotes; without any, and without --input, standard input", ..LINES };
    pub(crate) const INPUT: Text = Text { name: "input", value: Some("FILE"),
        help: "Read the lines of this file (of standard input where it is `-`)" };
    pub(crate) const FILE: Text = Text { name: "FILE", value: None, help: "The ledger file" };
    pub(crate) const READ: Text = Text { name: "FILE", value: None,
        help: "The ledger file, or `-` for standard input" };
    pub(crate) const PAGED: Text = Text { name: "FILE", value: None,
        help: "The ledger file, the folder of a trunk and its parts, or `-` for a ledger on standard input" };
    pub(crate) const FOLDER: Text = Text { name: "DIR", value: None, help: "The folder of the trunk and the parts" };
    pub(crate) const JOIN_READ: Text = Text { name: "DIR", value: None,
        help: "The folder of the trunk and the parts, or `-` for a stream of them on standard input" };
    pub(crate) const LOOKED: Text = Text { name: "PATH", value: None,
        help: "The ledger file, or the folder of a trunk and its parts" };
    pub(crate) const FIRST: Text = Text { name: "A", value: None, help: "The ledger whose records come first" };
    pub(crate) const SECOND: Text = Text { name: "B", value: None, help: "The other ledger" };
    pub(crate) const MERGED: Text = Text { name: "OUT", value: None,
        help: "The ledger file that is written" };
    pub(crate) const OLD: Text = Text { name: "IN", value: None, help: "The ledger file, of either version" };
    pub(crate) const CARRIED: Text = Text { name: "OUT", value: None,
        help: "The ledger file that is written" };
    pub(crate) const DAMAGED: Text = Text { name: "IN", value: None,
        help: "The ledger file, of either version, or `-` for standard input" };
    pub(crate) const MENDED: Text = Text { name: "OUT", value: None,
        help: "The ledger file that is written" };
    pub(crate) const LEDGER: Text = Text { name: "ledger", value: Some("FILE"),
        help: "The ledger file, which is created where it isn't there; without it none is kept" };
    pub(crate) const ROOT: Text = Text { name: "root", value: Some("TABLE"),
        help: "Walk the tree below this table alone" };
    pub(crate) const SAVE: Text = Text { name: "save", value: Some("FILE"),
        help: "Append the records that took long to find to this file, for --known" };
    pub(crate) const LISTEN: Text = Text { name: "listen", value: Some("ADDR"),
        help: "Serve workers at HOST:PORT, at a port of 127.0.0.1, or at a socket file (its path has a `/`)" };
    pub(crate) const TOKEN: Text = Text { name: "token", value: Some("FILE"),
        help: "Take only workers that show the token in this file, of 16 bytes or more" };
    pub(crate) const WORK_TOKEN: Text = Text { name: "token", value: Some("FILE"),
        help: "Show the token in this file, and work for no coordinator that doesn't" };
    pub(crate) const CONNECT: Text = Text { name: "connect", value: Some("TO"),
        help: "The coordinator's HOST:PORT, port of 127.0.0.1, or socket file (its path has a `/`)" };
    pub(crate) const WORK_LEDGER: Text = Text { name: "ledger", value: Some("FILE"),
        help: "The ledger file of one worker; of several FILE.1, FILE.2 and so on; without it none are kept" };
    pub(crate) const JOINED: Text = Text { name: "ledger", value: Some("OUT"), help: "Write the one ledger too" };
    pub(crate) const PICTURES: Text = Text { name: "out", value: Some("DIR"),
        help: "Make a file of each picture, DIR/TABLE.svg" };
    pub(crate) const TITLE: Text = Text { name: "title", value: Some("TITLE"), help: "What the page is called" };
    pub(crate) const KNOWN: Text = Text { name: "known", value: Some("FILE"),
        help: "Look for the record of a table in this file first; it is judged like any other" };

    pub(crate) const SYNC: Flag = Flag { name: "sync", needs: &[], excludes: &[],
        help: "Wait until each line of the ledger is on the disk, against a power cut" };
    // Where the ledger is an option.
    pub(crate) const LEDGER_SYNC: Flag = Flag { needs: &["ledger"], ..SYNC };
    // The stages say themselves how far they look.
    pub(crate) const HARD: Flag = Flag { name: "hard", needs: &[], excludes: REACH_NAMES,
        help: "Go by stages, from quick searches to long ones; --steps scales them (1000000: some hours a table)" };
    pub(crate) const JSON: Flag = Flag { name: "json", needs: &[], excludes: &[], help: "Print the report as JSON" };
    // Without `listen` there is no report.
    pub(crate) const SERVED_JSON: Flag = Flag { needs: &["listen"], ..JSON };
    pub(crate) const OPEN: Flag = Flag { name: "open", needs: &["listen"], excludes: &["token"],
        help: "Take anyone, also from other computers" };
    pub(crate) const ACCEPT_HOLDOUTS: Flag = Flag { name: "accept-holdouts", needs: &["listen"], excludes: &[],
        help: "Take holdouts of workers without a token too" };
    pub(crate) const LINE_JSON: Flag = Flag { name: "json", needs: &[], excludes: &[],
        help: "Print an object of JSON for each line" };
    pub(crate) const WHY: Flag = Flag { name: "why", needs: &[], excludes: &[],
        help: "Say on standard error, in words, all that is said at a terminal, also where it isn't one" };
    pub(crate) const RECORD_WHY: Flag = Flag { help: "Say on standard error, in words, what is wrong with a record", ..WHY };
    pub(crate) const LINE_WHY: Flag = Flag { help: "Say on standard error, in words, why a line is refused", ..WHY };
    pub(crate) const LEDGER_WHY: Flag = Flag {
        help: "Say on standard error why the first line that isn't kept isn't", ..WHY };
    pub(crate) const LENIENT: Flag = Flag { name: "lenient", needs: &[], excludes: &[],
        help: "Take a CR at a line's end, and pass over blank lines and comments, lines that begin with #" };
    pub(crate) const FOLD: Flag = Flag { name: "fold", needs: &[], excludes: &[],
        help: "Fold words that repeat, as in 1^12 (01)^5" };
    pub(crate) const ALIGN: Flag = Flag { name: "align", needs: &[], excludes: &["fold"],
        help: "Begin each row at the same cell, with a `.` for a cell that is blank" };
    // An answer in JSON has the table as it came.
    pub(crate) const KEEP: Flag = Flag { name: "keep", needs: &[], excludes: &["json"],
        help: "Print the table of each answer as it came" };
    // What is seen of a run is said in words alone.
    pub(crate) const EXPLAIN_JSON: Flag = Flag { excludes: &["run"], ..LINE_JSON };
    pub(crate) const DOT: Flag = Flag { name: "dot", needs: &[], excludes: &["json", "run"],
        help: "Print the automata of each record in the language of Graphviz, in place of words" };
    pub(crate) const NORMAL: Flag = Flag { name: "normal", needs: &[], excludes: &[],
        help: "Name the states as the run reaches them, and mirror a table whose first move is to the left" };
    // A certificate is of the table as it stands.
    pub(crate) const WITH_RECORDS: Flag = Flag { name: "records", needs: &[], excludes: &["normal"],
        help: "Keep the record that follows a table" };
    pub(crate) const TABLE: Flag = Flag { name: "table", needs: &[], excludes: &[],
        help: "Read records on standard input, a line each, in place of a ledger" };
    pub(crate) const HOLDOUTS: Flag = Flag { name: "holdouts", needs: &[], excludes: &[],
        help: "Print the tables that are recorded without a verdict, and read no lines" };
    pub(crate) const PROGRESS: Flag = Flag { name: "progress", needs: &[], excludes: &[],
        help: "Show the progress on standard error, a line a second, also where that isn't a terminal" };
    pub(crate) const REPLACE: Flag = Flag { name: "replace", needs: &[], excludes: &[],
        help: "Replace the file that OUT is already" };
    // Where the ledger is an option, or the folder of pictures.
    pub(crate) const JOINED_REPLACE: Flag = Flag { needs: &["ledger"], ..REPLACE };
    pub(crate) const DRAWN_REPLACE: Flag = Flag { needs: &["out"], help: "Replace pictures that are in DIR already", ..REPLACE };
    pub(crate) const SERVED_PROGRESS: Flag = Flag { needs: &["listen"], ..PROGRESS };
}
