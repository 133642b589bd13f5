// What help says of the program and of each command.

// The groups in which help lists the commands, and how each ends.
pub(crate) const PROGRAM: &str = "The commands are for
  records of single machines: check decide explain show draw tables
  whole trees: run walk loop report page look retry
  trees in parts: split settle join
  many computers: coord work
  ledger files: merge carry mend

A number can be written as 1000000, 1_000_000 or 1e6.
Exit status: 0 all accepted; 1 something was refused; 2 a wrong command line; 3 out of memory; 4 a stream or a file
failed, which standard error names. It says too why a ledger was refused, and what was cut off one.";

/// What the short help of each command says last.
pub(crate) const BRIEF: &str = "bb COMMAND --help says more.";

pub(crate) const REPORT: &str =
    "A ledger is the line `bb-ledger 2 TABLE`, which names the root of a tree, and then records, one a
line; `bb-ledger 1 TABLE` begins one of version 1, whose records of the kind H have no score. Each record is
judged again. The first line that can't be taken isn't kept, and neither are the lines after it.
A file is read as far as it went when it was opened, standard input (`-`) to its end; a file of that name is
`./-`.

The report has these lines
  root TABLE
  status working     tables are open: neither recorded nor below a table without a record
  status holdouts    none is open, but some are recorded without a verdict
  status complete    neither
  nodes N            records and open tables together
  halting N          tables recorded as halting
  never N            tables recorded as never halting
  holdouts N         tables recorded without a verdict
  open N             open tables
  best K             the greatest recorded number of steps, or `none`
  champion TABLE     a line for each table recorded with that number
  ones S             the greatest score, the ones on the tape after the halting step, or `none`
  ones_champion TABLE   a line for each table with that score
  holdout TABLE      a line for each holdout
  left LINE          the number of the first line that wasn't kept, where there is one

With --json it is one object and a newline: best (a number or null), champions, halting, holdout_tables,
holdouts, never, nodes, ones (a number or null), ones_champions, open, root, status. It doesn't say what
wasn't kept; the status is the same.

Standard error shows the progress: at a terminal on one line that is written over, with --progress a line a second.

With --why standard error says why the first line that isn't kept isn't: `line N isn't kept: NUMBER, WORDS`,
without a number where it is torn off or repeated.

Exit status: 0 the report says complete, and all was kept; 1 it doesn't, or the ledger was refused
(`refused 404` no header with a readable table, `refused 405` its table doesn't name its states in order);
2 a wrong command line; 3 out of memory (`refused memory`); 4 the file couldn't be read (`refused 605`)
or a stream failed (`refused 603`).";

pub(crate) const COORD: &str =
    "A frame is a line; docs/FORMATS.md has the messages. A worker that asks (`ASK ID`) is granted the first open
table that no other worker has; a record that it sends (`REC RECORD`) is judged, appended to the ledger where
it is new, and then acknowledged. Over standard input there is no clock: a lease ends where its worker asks again
or is done.

With --listen workers connect (`bb work --connect ADDR`), 1,000 at most; a lease that isn't renewed ends after a
minute. When the tree is settled, the workers stop, and the report is printed, as by `bb report`. Standard error shows
the progress: at a terminal on one line that is written over, elsewhere with --progress, a line a second. Frames aren't
encrypted. With --token workers and coordinator show one another that they have the same token, before any frame.
Without it anyone who reaches ADDR can connect, so an address that other computers reach is refused (`refused 607`),
except with --open. Nobody can make a verdict false, since each record is judged here. docs/CLUSTER.md has more.

  bb coord 4 --listen 127.0.0.1:7007 --ledger four.ledger
  bb work --connect 127.0.0.1:7007 --hard

With FILE in place of N it goes on with that ledger: with one of `bb split`, say, whose header names the root of a
part. So several coordinators share a tree, and `bb join` adds up what they have. FILE has to be there, and it needs
--listen.

ADDR is HOST:PORT, a port alone of 127.0.0.1, or the path of a socket file, which has a `/`; with port 0 standard
error says which port it is. A socket file at which nobody listens is replaced; anything else that is there stays
(`refused 603`). The coordinator disconnects a worker that sends what no worker sends: a line that is no message, a
record that is refused, or a holdout (TABLE U) without --token or --accept-holdouts. It also disconnects a worker whose
first line doesn't come within 10 seconds, and one that sends nothing for an hour. Where 1,000 are connected, the one
that was silent longest, for a minute at least, makes room for another. Standard error says who is turned away and
why; at a terminal, or with --why, also who connects, and why a worker is gone.

The token is what FILE holds, without a newline at its end. Once no table is open the coordinator goes on until all
workers are gone, or for 5 seconds. SIGINT and SIGTERM end it at once; what was acknowledged is in the ledger.

Exit status: 0 at the end the board is complete; 1 it isn't, or the ledger was refused
(`refused 404` no header with a readable table, `refused 405` another root); 2 a wrong command line, or an address at
which anyone could come (`refused 607`); 3 out of memory (`refused memory`); 4 a stream or the listening failed
(`refused 603`), or the ledger did (`refused 604`), or another process writes it (`refused 606`), or the token couldn't
be read or has fewer than 16 bytes (`refused 605`).";

pub(crate) const WORK: &str =
    "Frames of the coordinator come on standard input, a line each, and frames to it go to standard output; with --connect
both go over a connection. Each worker of the process asks for a table, looks for the records of its tree as
`bb decide` does, and sends them; the coordinator judges them. Several workers share the process and the stream, so
that no time is lost waiting for answers. Where a connection is lost, or can't be made, it is tried again, after 1, 2,
4 seconds and so on, up to a minute.

  bb work --connect coordinator.example:7007 --hard
  bb work --connect /tmp/bb.socket --id 17 --ids 16

A try has failed too where something answers that isn't a coordinator, or doesn't show the token of --token. After
--tries failures in a row, 20 by default, the process ends. Standard error says why a try failed, and at a terminal
where it connects. SIGINT and SIGTERM end it at once. What wasn't sent by then is found again later, or is in a ledger
of the worker's own. With several workers --ledger FILE means FILE.1, FILE.2 and so on.

Exit status: 0 the tree is settled; 1 a ledger was refused (`refused 404` no header with a readable table,
`refused 405` its table doesn't name its states in order); 2 a wrong command line; 3 out of memory (`refused memory`);
4 the stream ended or failed before that, or the connection couldn't be made (`refused 603`), or a ledger failed
(`refused 604`), or another process writes it (`refused 606`), or known records or the token couldn't be read, or the
token has fewer than 16 bytes (`refused 605`).";

pub(crate) const RUN: &str =
    "A coordinator grants tables to workers; each looks for certificates as `bb decide` does, and the coordinator
judges what they send. At the end comes the report, as by `bb report`. It is the same however many workers
there are and whatever frames are lost. With --ledger a run that was stopped goes on where it was.
Standard error shows the progress, as of `bb report`.

All workers run in this process, on one processor. To use all processors, cut the tree into parts by `bb split`, and
settle them by `contrib/parallel.sh DIR`; or let `contrib/tree.sh N DIR` split, settle and join.

The workers have the ids 1, 2 and so on, and keep no ledgers; the coordinator's leases have the era 1. In a round the
coordinator has a tick; each worker in its turn gets time to work eight times, and a tick; its frames go to the
coordinator, and the answers come back. Rounds end where nothing is open, or after --rounds. The progress is Knuth's
estimate (1975) of how much is settled: a root weighs one, the children of a table share its weight evenly.

Exit status: 0 the report says complete; 1 it doesn't, or the ledger was refused (`refused 404` no header
with a readable table, `refused 405` another root); 2 a wrong command line; 3 out of memory
(`refused memory`); 4 the ledger failed (`refused 604`), or a stream did (`refused 603`), or another process writes
the ledger (`refused 606`), or known records couldn't be read (`refused 605`).";

pub(crate) const WALK: &str =
    "The tables of the tree are decided in depth first order: a certificate is looked for as `bb decide` does, and judged
once. No record is kept, and so no ledger: only numbers of tables, the champions and the holdouts are kept. At the end
comes the report, as by `bb report`, the same as that of `bb run` where all is settled. It takes little memory, however
large the tree is: 16 bytes for each holdout, and what the searches take. A walk that was stopped begins from scratch.

With --root TABLE, a table of N states, only the tree below that table is walked. The report says `root TABLE`; its
best is S(N) where TABLE has no entries.

With --long-run K and --hard a halt that no other stage finds is looked for in K steps at most, in place of
100,000,000: so a walk takes less time, and may leave tables that halt late.

With --save FILE the records that took long to find are appended to FILE, each as soon as it is found: those that other
searches than runs and backward reasoning found, with --hard those of later stages than the eighth, and those of more
than --dear steps. What was looked up isn't appended. A last line of FILE that has no newline gets one first. A ledger
is refused. The next walk gets FILE by --known.

All is done in this process, on one processor; `contrib/walk.sh N` uses all. Standard error shows the progress: at a
terminal on one line that is written over, elsewhere with --progress, a line a second.

Exit status: 0 the report says complete; 1 it doesn't, or the root is refused (`refused 405`: it isn't a table of N
states that names its states in order); 2 a wrong command line; 3 out of memory (`refused memory`); 4 a stream failed
(`refused 603`), the file of records couldn't be written (`refused 604`), known records couldn't be read
(`refused 605`), or another process writes the file of records (`refused 606`).";

pub(crate) const LOOP: &str =
    "As `bb run`, except that the frames of each worker go over a connection of its own on 127.0.0.1, at most 4,096
bytes at a time, and that none is lost. The report is the same.

Exit status: as of `bb run`; 4 also where a socket failed (`refused 603`). The ledger can be used after that, by
`bb run --ledger` too.";

pub(crate) const RETRY: &str =
    "Holdouts are tables that are recorded without a verdict. Each is looked at again, as by `bb decide`, and a
record with a verdict is appended to FILE. What follows the last line that can be kept is cut off first; it is kept in
FILE.cut, except for a torn last line, as standard error says, and `bb mend` reads it.
What becomes open below a settled table stays open: `bb run --ledger FILE` goes on with it.
Standard error shows the progress, as of `bb report`.

Holdouts are looked at in the order of their texts as they stood at the start. FILE has to be there.

Exit status: 0 the report says complete; 1 it doesn't, or the ledger was refused (`refused 404` no header
with a readable table, `refused 405` its table doesn't name its states in order); 2 a wrong command line;
3 out of memory (`refused memory`); 4 the file failed (`refused 604`), or a stream did (`refused 603`), or another
process writes it (`refused 606`), or known records couldn't be read (`refused 605`).";

pub(crate) const MERGE: &str =
    "Both ledgers are of one tree. OUT gets the records of A, each holdout that B settles settled in its place,
and then those of B for tables that A has no record of. Each record is judged again. Then comes the line
`merged R open O holdouts H`: how many records, open tables and holdouts there are; and `left LINE`, as by
`bb report`, of the first of the two of which not all could be kept.

A is read and judged before B is opened, and both before OUT is touched. Where OUT is a file already that isn't empty,
or a link, it stays, and the command ends (`refused 604`), except with --replace: OUT may then be A or B too. The ledger
is written to a new file beside the one that OUT leads to, OUT.new, which takes its place once it is on the disk; links
stay; after a failure the new file is left. A file OUT.new that is there already is removed first; where it leads to A
or B, the new file is OUT.new.new. A device is written over. Standard error shows the progress, as of `bb report`.

Exit status: 0 all was kept; 1 it wasn't, or a ledger was refused (`refused 404` no header with a readable
table, `refused 405` the tables of the two headers differ, or one isn't in order); 2 a wrong command line;
3 out of memory (`refused memory`); 4 a file couldn't be read (`refused 605`) or written (`refused 604`),
or a stream failed (`refused 603`), or another process writes OUT (`refused 606`).";

pub(crate) const CARRY: &str =
    "A ledger of version 1 has `H k` for a table that halts in k steps, one of version 2 `H k s`, with s ones on the
tape then. Each record of IN is judged again, and OUT gets all that are kept, each halting one with its score. Then
comes the line `carried R halting H`: how many records there are, and how many of them say that their table
halts; and `left LINE`, as by `bb report`, where not all of IN could be kept.

OUT is written as by `bb merge`, once IN was read to its end.

Exit status: 0 all was kept; 1 it wasn't, or the ledger was refused (`refused 404` no header with a readable
table, `refused 405` its table doesn't name its states in order); 2 a wrong command line; 3 out of memory
(`refused memory`); 4 a file couldn't be read (`refused 605`) or written (`refused 604`), or a stream failed
(`refused 603`), or another process writes OUT (`refused 606`).";

pub(crate) const MEND: &str =
    "Each line of IN after its header is read by itself, in order, and OUT gets the records that are taken, as a ledger of
version 2. So a damaged line costs itself and the tables below its own, and none of the lines after it. Then comes the
line `mended R dropped D`: how many records OUT has, and how many lines weren't taken.
Commands that cut a damaged ledger keep what they cut off in a file beside it, FILE.cut.

  bb mend damaged.ledger whole.ledger
  cat FILE FILE.cut | bb mend - whole.ledger

OUT is written as by `bb merge`, once IN was read to its end. A line of either version is taken; a holdout that a
later line settles is settled in its place; a last line without a newline is read too. Lines are dropped that are
damaged or empty, whose certificate doesn't stand, or whose table has a record already.

Exit status: 0 each line was taken; 1 one wasn't, or the ledger was refused (`refused 404` no header with a readable
table, `refused 405` its table doesn't name its states in order); 2 a wrong command line; 3 out of memory
(`refused memory`); 4 a file couldn't be read (`refused 605`) or written (`refused 604`), or a stream failed
(`refused 603`), or another process writes OUT (`refused 606`).";

pub(crate) const DRAW: &str =
    "Time goes downwards, a row for each time, cells to the right; ones are dark, the head has the colour of its state, and
a line beneath the last row says that the machine halts with its next step. Where there are more steps than rows, only
every so many-th is drawn; where there are more cells than columns, neighbours share one, which is dark where more than
half of them hold a one, and pale where some do. The whole first picture goes to standard output, and a table after the
first is refused (`refused 306`); with --out each table has a file, and its line the answer `TABLE drawn`.

  bb draw 1RB1LB_1LA--- > champion.svg
  bb draw --out pictures --input tables.txt

Lines are arguments (after `--` where one begins with `-`), or in the file of --input, or else on standard input. Of K
steps, for R rows, every E-th time is drawn, where E is one more than the whole part of K/R; a run that halts ends with
its last time. Of W cells, for C columns, each column has W/C of them, rounded up, and the last what is left. With
--width W the first head is in column W/2, rounded down, from 0 on; with --from a run that halts before begins at its
last time. --square is reduced until the picture is at most 1,000 pixels wide; --height makes rows as high as it
allows. A record's certificate isn't judged. With --out the folder is made where it isn't there; a picture is made
beside its place and put there. One that is there already, or a link, stays, and ends the command (`refused 605`),
except with --replace; so does a picture that can't be written. `contrib/png` makes a PNG of `bb show --align`.

Exit status: 0 each line was a table or a record, and one at most without --out; 1 a line was refused; 2 a wrong
command line; 3 out of memory (`refused memory`); 4 a stream failed (`refused 603`), or a picture couldn't be written
(`refused 605`).";

pub(crate) const PAGE: &str =
    "The page needs no server and loads nothing: how the tree stands, how many records there are of each kind and by how
many entries are filled, the champions with pictures of their runs, and the holdouts, in a table that can be searched
and sorted; and what a tree shows that is complete. The ledger is read as by `bb report`. FILE may be a folder that
`bb split` made: its page is that of all its ledgers together, which are read as by `bb join`.

With --table records are read on standard input, a line each, in place of a ledger. For each record the page has its
verdict, its certificate, what that says in words, and a button that draws its run. With --title the page has that
title. Standard error shows the progress, as of `bb report`.

  bb page four.ledger --title 'Four states' > four.html
  bb decide --hard < tables.txt | bb page --table > tables.html

It has the first eight champions with pictures of some 240 rows and at most 320 columns, a bar for each kind's share,
and a plot of steps with a bar for each power of two, both scales logarithmic; what would be empty isn't there. It
says what made it: the version, the SHA-256 of the program, and that of the ledger; of a folder the sum of the list of
its ledgers (`cd DIR && LC_ALL=C sha256sum *.ledger | sha256sum`). Without a script all holdouts are there; with one
500 at first, with search and sorting, #TABLE for a row, and a button for the first 10,000 steps of a run. A holdout's
text is a link to bbchallenge.org; nothing is loaded before a reader follows it. With --table a refused line has a
section too.

Exit status: as that of `bb report`, and with --table as that of `bb check`.";

pub(crate) const SPLIT: &str =
    "DIR/trunk.ledger is the trunk, a ledger from the root: it holds all tables with fewer than D filled entries. Each other
table that is open then is the root of a part, DIR/TABLE.ledger, which begins with no record. `bb settle` settles a
part, on any machine and in any order, and goes on where it was stopped; `bb join DIR` prints the report of all
together. In a folder that is there already only what is missing is added. Then comes the line `trunk R parts P`: how
many records the trunk has, and how many parts there are. To use all processors, settle the parts by
`contrib/parallel.sh DIR`, as many at once as there are processors; or let `contrib/tree.sh N DIR` split, settle and
join. Standard error shows the progress: at a terminal on one line that is written over, elsewhere with --progress, a
line a second.

A part that is there already, with as many bytes as its header or more, is left as it is. The open tables with few
filled entries are decided in rounds, each in the order of their texts; a record without a verdict is appended too.

Exit status: 0 trunk and parts are there; 1 the trunk was refused (`refused 404` no header with a readable table,
`refused 405` another root), or a table with fewer than D filled entries has a part (`refused 407`); 2 a wrong
command line; 3 out of memory (`refused memory`); 4 a file failed (`refused 604`), or a stream did (`refused 603`), or
another process writes the trunk (`refused 606`), or known records couldn't be read (`refused 605`).";

pub(crate) const SETTLE: &str =
    "The first open table in the order of the texts is looked at, as by `bb decide`, and its record is appended, until none
is open. What follows the last line that can be kept is cut off first; it is kept in FILE.cut, except for a torn last
line, as standard error says, and `bb mend` reads it. The command can be stopped at any time, and goes on where it was.
At the end comes the line `settled R holdouts H`: how many records were added, and how many tables of the ledger are
recorded without a verdict. Standard error shows the progress: at a terminal on one line that is written over,
elsewhere with --progress, a line a second.

FILE has to be there.

Exit status: 0 no table is open, with or without holdouts; 1 the ledger was refused (`refused 404` no header with a
readable table, `refused 405` its table doesn't name its states in order); 2 a wrong command line; 3 out of memory
(`refused memory`); 4 the file failed (`refused 604`), or a stream did (`refused 603`), or another process writes it
(`refused 606`), or known records couldn't be read (`refused 605`).";

pub(crate) const JOIN: &str =
    "The report is that of one ledger with the records of the trunk and of all parts, byte for byte. A part that isn't there
counts as an open table. Standard error says what is wrong with a part, after its path: `missing`, `left LINE` as by
`bb report`, `refused 404` no header with a readable table, `refused 405` its table doesn't name its states in order,
`refused 406` its root is another table than its name says. Its records count as far as they are kept. With --ledger
the one ledger is written too; it must be none of the folder's (`refused 408`), and replaces a file only with --replace.

Standard input (`-`) is read to its end: the trunk's ledger first, and then those of its parts, one after the other in
any order. Standard error says what is wrong with a part, after its root: `missing`, `left LINE`, `added before` where
a part with that root came already, `not under the trunk`; or, where it has no root, after its number in the stream
(`refused 404`, `refused 405`). A folder of that name is `./-`.

Standard error shows the progress, as of `bb report`.

One part is in memory at a time; parts are looked for under the trunk's open tables, and other files don't count. A
trunk that can't be read is `refused 605`, one without a root `refused 404`. The one ledger has the trunk's lines, and
then those of the parts in the order of their roots; it is written as by `bb merge`, once the last part was judged, and
not with `-`. An OUT that is the trunk or a part, under any name, is refused, and so is one where the trunk or a part
is a link to OUT.new.

Exit status: 0 the report says complete, and all was kept; 1 it doesn't, or a ledger was refused; 2 a wrong command
line; 3 out of memory (`refused memory`); 4 a file couldn't be read (`refused 605`) or written (`refused 604`), or a
stream failed (`refused 603`), or another process writes the one ledger (`refused 606`).";

pub(crate) const LOOK: &str = "  $ bb run 2 --ledger two.ledger | grep best
  best 6
  $ echo 1RB1LB_1LA--- | bb look two.ledger
  1RB1LB_1LA--- H 6 4

The answer to a table is its record, or `TABLE open` where it has none yet, or `TABLE unknown` where it isn't in the
tree. In a folder that `bb split` made, the record of a table is looked for in the part that it belongs to, which is
judged then; where that part isn't there, its tables are unknown. A line that is no table is refused as by `bb decide`.

A table is looked for as it stands in its line. A tree holds one form of each machine: its states are named as its run
reaches them, and its first move is to the right. So a table that is mirrored, or names its states in another way, is
unknown. `bb tables --normal` before it brings tables into that form:

  bb tables --normal < list.txt | bb look five

With --holdouts no lines are read: the tables that are recorded without a verdict are printed, in the order of their
texts, those of all parts of a folder.

In a folder the trunk is loaded once, and a part when its tables are asked for; the last part is kept. Nothing is
written. Standard error shows the progress, as of `bb report`. With --holdouts standard error says what is wrong with
a folder, as by `bb join`.

Exit status: 0 each table has a record; 1 one has none, or a line or a ledger was refused; 2 a wrong command line; 3
out of memory (`refused memory`); 4 a file couldn't be read (`refused 605`), or a stream failed (`refused 603`).";

pub(crate) const DECIDE: &str = "  $ bb decide 1RB1LB_1LA---
  1RB1LB_1LA--- H 6 4
  $ bb decide 0RB0LA_0LB--- | bb check
  0RB0LA_0LB--- never

Lines are arguments (after `--` where one begins with `-`), or in the file of --input, or else on standard input.
A line is a table in the bbchallenge standard format. Its record has the first certificate that is
found and stands, looked for in this order: that it halts, a cycle, a translated cycle, backward
reasoning, a closed position set, finite automata, automata from words, counted automata,
rules with induction; or `U`, undecided.
With --known the file's record of the table comes before all that, where it stands. Standard error says at the end how
many of the file's lines were refused, and which was the first.
A text that is no table gets the answer `refused 301` with its fault, as by `bb check`, and a line over 65,536 bytes
`refused 305`.

With --json each answer is an object, as by `bb check --json`, with the record as the member `record` in place of
`ones` and `steps`.
Standard error shows the progress, as of `bb report`.

With --run the numbers of a search and --hard aren't used; a table with no pair that halts still gets `B 0` where its
run comes to no loop. A halt after more than 100,000,000 steps is a record L; loops are looked for within 10,000,000
steps at most. Words of n-grams are tried by width from 1 on, automata by stages (docs/FINDERS.md); --count is of both
sides together. --hard has its own stages, and can't be given with --depth, --gram, --far, --words, --count or --rules.
With --hard --steps scales the stages: with a thousand times the default, 1000000, a table that none of them settles
takes some hours. The file of --known is read once, before anything else; one with lines, none of which is a record, is
refused. Its lines can be in any order; for each table the first counts that is a record of it and claims something. A
record that doesn't stand is forgotten, and the search goes on. At a terminal standard error names the first line that
is a record, at the end.

Exit status: 0 each line was a table; 1 some wasn't; 2 a wrong command line; 3 out of memory
(`refused memory` on standard error); 4 a stream failed (`refused 603`), or known records couldn't be
read (`refused 605`).";

pub(crate) const RECORDS: &str = "  $ bb check '1RB1LB_1LA--- H 6 4' '0RB---_0LA--- C 0 2'
  1RB1LB_1LA--- halts 6 ones 4
  0RB---_0LA--- never

Lines are arguments (after `--` where one begins with `-`), or in the file of --input, or else on standard input.
A record is a table in the bbchallenge standard format, a space and a certificate:
  H k         it halts in k steps (the halting step counts); k up to 100,000,000
  H k s       so it does, and with s ones on its tape then (the halting step writes one)
  L k s       the same of a halt that comes late; k above 100,000,000 and up to 10,000,000,000
  C i j       the configurations at the times i and j are equal; j up to 10,000,000
  T i j side  they are equal up to a shift of the tape to that side (L or R), except for cells behind it that the
              head no longer reads
  B d         it does d steps, and no configuration at all halts after exactly d; d up to 1,000
  N g L R C   no step leaves these words of g symbols on the left and on the right of the head, and these
              local configurations; g from 1 to 8, each list sorted and joined by commas, and the three
              together up to 49,152 bytes
  F side m delta rows keep
              two automata, by which the run never comes to a halt; the first has m states, from 1 to 16, and
              goes where the digits of delta say; rows and keep are sets of states of the second, in hexadecimal
  A side m delta rows keep
              the same with m from 1 to 4,096 and numbers in decimal, joined by commas: where the first goes; of each
              state of the second and symbol `-` for edges to all, `.` for none, or a list joined by dots; and what is
              kept
  W i j left right cosets
              two automata, one for each half tape, that count some of their transitions, i and j counts, together up
              to 52; and for each local configuration the coset in which the counts lie
  R rules family first begin next loop
              rules between forms of tape, each proved by a script of steps, equations and rules before it, or by
              induction; and scripts by which the run comes to the forms of a family again and again; up to 49,152 bytes
  P           the table is one of eight of five states that have a proof of their own; of one of them, Skelet 1, the
              run is followed until it repeats, which takes half a minute and 80 megabytes
  U           nothing is claimed
An entry to Z or H, as in 1RB1LB_1LA0RZ, is an undefined entry, as `---` is: it halts. What it would write doesn't
matter, and the score counts a one there (1RB1LB_1LA0RZ H 6 4 is right).

An answer is one of
  TABLE halts K      the certificate stands: the table halts in K steps
  TABLE halts K ones S   so it does, and with S ones on its tape then
  TABLE never        the certificate stands: the table never halts
  TABLE undecided    nothing was claimed
  refused 201        the certificate doesn't stand
  refused 202        it asks for more than its limit
  refused 203        its check gets too large: more than 65,536 paths to a halting pair, or a number over 2^31
  refused 204        its run isn't seen to repeat, so nothing is known of the table (P of Skelet 1 alone)
  refused 301 F P    no table: its fault is F (101 length, 102 bar, 103 symbol, 104 direction,
                     105 state), at place P
  refused 302        no such kind, or another number of fields
  refused 303        no number, no side, or a g, an m or a number of counts that isn't in its range
  refused 304        no list
  refused 305        the line is too long, or the lists are

With --json each answer is an object on a line of its own, its members in the order of their names and no space between
them. Where 1RB1LB_1LA--- H 7 4 is the third line, its object is, in one line,
  {\"code\":201,\"kind\":\"H\",\"line\":3,\"meaning\":\"it doesn't hold for the table\",\"ones\":null,
  \"steps\":null,\"table\":\"1RB1LB_1LA---\",\"text\":\"1RB1LB_1LA--- H 7 4\",\"verdict\":\"refused\"}
`text` is the line and `line` its number; `verdict` is halts, never, undecided or refused; `steps` and `ones` are
null where the answer has no such number, `code` and `meaning` where the line is accepted, `kind` and `table` where it
is no record. With --why the words are in the object too, and not on standard error.

With --why standard error says why each refused line is refused, as `line N: WORDS`. For a halting record with a wrong
number it says in how many steps the table halts, where that is within 100,000,000, or of a record L in the steps that
it says, and such a line costs a run of as many steps. At a terminal standard error names the first line that is a
table alone, at the end.

Exit status: 0 all accepted; 1 a line was refused; 2 a wrong command line; 3 out of memory
(`refused memory` on standard error); 4 a stream failed (`refused 603`).";

pub(crate) const EXPLAIN: &str =
    "Prints for each line the answer of `bb check`; then, for a record that stands, what its check has shown, in words; and
then an empty line. With --json each line has an object, that of `bb check --json` with the words as the member
`words`. With --dot the automata of a record of the kinds F, A and W are printed in the language of Graphviz instead,
a graph each, and all else is a comment. With --run K a table without a certificate (a record with U, or a table alone)
is run for K steps: when it halts is said, or which cells it visits and how they grow, with its first configurations.

  bb explain '1RB1LB_1LA--- H 6 4'

Exit status: as that of `bb check`.";

pub(crate) const SHOW: &str =
    "The table; then a line for each time: the time, and the tape from the first to the last cell that holds a one or
has the head, with the state's letter and `>` before the head's cell. A run that halts ends with its last configuration
and `halts K ones S`.

  bb show 1RB1LB_1LA--- --steps 10 --fold

Lines are arguments (after `--` where one begins with `-`), or in the file of --input, or else on standard input.
Two spaces are between the time and the tape. The last configuration of a run that halts is always shown. With --fold a
word of at most 16 symbols that is repeated three times or more on one side of the head is written `1^4` or `(01)^3`,
the shortest first. With --align each line has the cells that the head visits up to the last time that is asked for, a
blank one as `.`, and each time is as long as that one. A line that is neither a table nor a record is refused as by
`bb check`.

Exit status: 0 each line was a table or a record; 1 a line was refused; 2 a wrong command line; 3 out of memory
(`refused memory`); 4 a stream failed (`refused 603`).";

pub(crate) const TABLES: &str =
    "Each table in a text of any form (comments, links, CSV, CR LF) is printed once, where it comes first. Standard error
says at the end how many lines had no table, and how many tables had come before.

With --records the record that follows a table is kept. A certificate is of the table as it stands, so --normal can't
be given with it.

  bb tables < list.txt | bb decide --hard
  bb tables --records < list.txt | bb check

A word is a longest row of the characters 0 to 9, A to Z, `_` and `-`; Z and H read as undefined. A line over 65,536
bytes is passed over. Standard error says `passed over: lines without a table L, doubles D`, where either isn't 0;
nothing of it is refused.
With --normal states that the run doesn't reach in --steps steps come last, in their old order, and entries that it
doesn't use are renamed and mirrored with the others; doubles are left out after that. With --records a line that is a
record, except for white space at its ends, is printed as it is; of any other line the tables are printed.

Exit status: 0; 2 a wrong command line; 3 out of memory (`refused memory`); 4 a stream failed (`refused 603`).";
