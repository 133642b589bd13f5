// The commands, a row each.
use crate::arguments::*;
use crate::help::{
    CARRY, COORD, DECIDE, DRAW, EXPLAIN, JOIN, LOOK, LOOP, MEND, MERGE, PAGE, RECORDS, REPORT,
    RETRY, RUN, SETTLE, SHOW, SPLIT, TABLES, WALK, WORK,
};
use crate::words::Argument::{self, Flag, Number, Text, TextUnless, TextWith, Texts};

/// A command with its arguments and options, in the order in which help has them.
pub(crate) struct CommandWords {
    pub(crate) name: &'static str,
    /// What it does.
    pub(crate) about: &'static str,
    /// What the long help says last.
    pub(crate) after_help: &'static str,
    pub(crate) arguments: &'static [Argument],
    /// Whether the options of a search for certificates follow.
    pub(crate) searches: bool,
}

/// The options of a search for certificates: those before the options of the kinds, and those after them.
pub(crate) const SEARCH: [Argument; 2] = [Text(KNOWN), Number(STEPS)];

pub(crate) const SEARCH_BY_STAGES: [Argument; 1] = [Flag(HARD)];

#[rattlefmt::skip]
pub(crate) const COMMANDS: [CommandWords; 21] = [
    CommandWords { name: "check", searches: false, after_help: RECORDS,
        about: "Checks records, one a line, and prints an answer to each.",
        arguments: &[Texts(RECORD_LINES, "input"), Text(INPUT), Flag(LENIENT), Flag(LINE_JSON), Flag(RECORD_WHY)] },
    CommandWords { name: "decide", searches: true, after_help: DECIDE,
        about: "Reads tables, one a line, and prints a record of each.",
        arguments: &[Texts(TABLE_LINES, "input"), Text(INPUT), Flag(LENIENT), Flag(LINE_JSON), Flag(KEEP), Number(RUN_ALONE),
            Flag(PROGRESS), Flag(LINE_WHY)] },
    CommandWords { name: "explain", searches: false, after_help: EXPLAIN,
        about: "Checks records, one a line, and says in words what each check has shown.",
        arguments: &[Texts(RECORD_LINES, "input"), Text(INPUT), Flag(LENIENT), Flag(EXPLAIN_JSON), Flag(DOT), Number(SEEN),
            Flag(LINE_WHY)] },
    CommandWords { name: "show", searches: false, after_help: SHOW,
        about: "Reads tables or records, one a line, and prints their runs as text.",
        arguments: &[Texts(LINES, "input"), Text(INPUT), Flag(LENIENT), Number(FROM), Number(SHOWN), Number(EVERY), Flag(FOLD),
            Flag(ALIGN), Flag(LINE_WHY)] },
    CommandWords { name: "draw", searches: false, after_help: DRAW,
        about: "Reads tables or records, one a line, and draws their runs as SVG.",
        arguments: &[Texts(LINES, "input"), Text(INPUT), Flag(LENIENT), Number(FROM), Number(DRAWN), Number(ROWS), Number(WIDTH),
            Number(COLUMNS), Number(SQUARE), Number(HEIGHT), Text(PICTURES), Flag(DRAWN_REPLACE), Flag(LINE_WHY)] },
    CommandWords { name: "tables", searches: false, after_help: TABLES,
        about: "Reads any text on standard input, and prints the tables in it, a line each.",
        arguments: &[Flag(NORMAL), Number(RUN_STEPS), Flag(WITH_RECORDS), Flag(WHY)] },
    CommandWords { name: "run", searches: true, after_help: RUN,
        about: "Settles the tree of all machines of N states in this process, and prints the report.",
        arguments: &[Number(STATES), Number(WORKERS), Text(LEDGER), Flag(LEDGER_SYNC), Number(LOSE), Number(ROUNDS),
            Flag(JSON), Flag(PROGRESS), Flag(WHY)] },
    CommandWords { name: "walk", searches: true, after_help: WALK,
        about: "Settles the tree of all machines of N states in one walk, without a ledger, and prints the report.",
        arguments: &[Number(STATES), Text(ROOT), Text(SAVE), Number(DEAR), Number(LONG_RUN), Flag(JSON), Flag(PROGRESS), Flag(WHY)] },
    CommandWords { name: "loop", searches: true, after_help: LOOP,
        about: "Does what `bb run` does, with sockets between the coordinator and its workers.",
        arguments: &[Number(STATES), Number(WORKERS), Text(LEDGER), Flag(LEDGER_SYNC), Number(ROUNDS), Flag(JSON),
            Flag(PROGRESS), Flag(WHY)] },
    CommandWords { name: "report", searches: false, after_help: REPORT,
        about: "Prints the report of a ledger.",
        arguments: &[Text(READ), Flag(JSON), Flag(LEDGER_WHY), Flag(PROGRESS)] },
    CommandWords { name: "page", searches: false, after_help: PAGE,
        about: "Prints the report of a ledger, or what records show, as one HTML page with pictures.",
        arguments: &[TextUnless(PAGED, "table"), Flag(TABLE), Text(TITLE), Flag(PROGRESS), Flag(WHY)] },
    CommandWords { name: "look", searches: false, after_help: LOOK,
        about: "Reads tables on standard input, one a line, and prints their records in a ledger, or in a tree in parts.",
        arguments: &[Text(LOOKED), Flag(HOLDOUTS), Flag(PROGRESS), Flag(LINE_WHY)] },
    CommandWords { name: "retry", searches: true, after_help: RETRY,
        about: "Tries the holdouts of a ledger again, and prints its report.",
        arguments: &[Text(FILE), Flag(SYNC), Flag(PROGRESS), Flag(WHY)] },
    CommandWords { name: "split", searches: true, after_help: SPLIT,
        about: "Cuts the tree of all machines of N states into a trunk and parts, ledgers of their own.",
        arguments: &[Number(STATES), Text(FOLDER), Number(FILLED), Flag(PROGRESS), Flag(WHY)] },
    CommandWords { name: "settle", searches: true, after_help: SETTLE,
        about: "Decides the open tables of a ledger, until none is open.",
        arguments: &[Text(FILE), Flag(SYNC), Flag(PROGRESS), Flag(WHY)] },
    CommandWords { name: "join", searches: false, after_help: JOIN,
        about: "Prints the report of a trunk and its parts together, as of one ledger that holds all.",
        arguments: &[Text(JOIN_READ), Flag(JSON), Text(JOINED), Flag(JOINED_REPLACE), Flag(PROGRESS), Flag(WHY)] },
    CommandWords { name: "coord", searches: false, after_help: COORD,
        about: "Answers workers: frames on standard input, a line each, and frames on standard output; or those that connect.",
        arguments: &[Text(COORDINATED), Text(LISTEN), TextWith(TOKEN, "listen"), Flag(OPEN), Number(PER_ADDRESS), Flag(ACCEPT_HOLDOUTS),
            Text(LEDGER), Flag(SYNC), Number(ERA), Flag(SERVED_JSON), Flag(SERVED_PROGRESS), Flag(WHY)] },
    CommandWords { name: "work", searches: true, after_help: WORK,
        about: "Works for a coordinator: looks for the records of the tables that it grants.",
        arguments: &[Text(CONNECT), TextWith(WORK_TOKEN, "connect"), Number(TRIES), Number(ID), Number(IDS), Text(WORK_LEDGER), Flag(LEDGER_SYNC), Flag(WHY)] },
    CommandWords { name: "merge", searches: false, after_help: MERGE,
        about: "Writes the ledger of what two ledgers hold together.",
        arguments: &[Text(FIRST), Text(SECOND), Text(MERGED), Flag(REPLACE), Flag(PROGRESS), Flag(WHY)] },
    CommandWords { name: "carry", searches: false, after_help: CARRY,
        about: "Writes a ledger as one of version 2, with the scores of the tables that halt.",
        arguments: &[Text(OLD), Text(CARRIED), Flag(REPLACE), Flag(PROGRESS), Flag(WHY)] },
    CommandWords { name: "mend", searches: false, after_help: MEND,
        about: "Writes what can be kept of a damaged ledger, whichever line is damaged.",
        arguments: &[Text(DAMAGED), Text(MENDED), Flag(REPLACE), Flag(PROGRESS), Flag(WHY)] },
];
