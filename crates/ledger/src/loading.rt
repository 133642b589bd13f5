// A ledger's text as it is loaded, in pieces or from a reader, and what it has come to.
ghost use Rattle.std.specs.Prelude.{◌≡◌, ◌+◌, ◌++◌, ◌∷◌, ℕ, List, [], length, IfErr, IfOk, OnOk, OnErr, ◌<◌, ◌^◌};
ghost use Rattle.machine_text.specs.Terms.{entry_of};
ghost use Rattle.law_tree.specs.Terms.{InOrder};
ghost use Rattle.text.specs.Terms.{HasNoNewline};
ghost use Rattle.ledger.specs.LedgerText.{LoadGives};
ghost use Rattle.ledger.specs.Loading.{IsStageOf, NamesRoot, header_start, StandsAfter, IsFed, IsStopped};
ghost use Rattle.ledger.specs.declared.header.Format.{Format as Version};
ghost use Rattle.ledger.specs.declared.header.Format.TheVariants.{Two};
ghost use Rattle.ledger.specs.inside.Taking.{StageEnds, StageGrows, StageStops, IsHeaded};
ghost use Rattle.ledger.specs.Reading.{FeedsAll, StopsReading};

use crate::board::Board;
use crate::body::Body;
use crate::faults::{LoadFault, OfferFault};
use crate::header::{header_in, is_begun_header};
use crate::lines::HeaderLine;
use cert::RecordFault;
use kind_evidence::NoMemory;
use machine_text::Table;
use std::alloc::Global;
use std::fmt;
use std::io::{self, Read};
use std::marker::Model;
use text::first_line;

/// What of a ledger's text wasn't kept.
#[derive(Clone, Copy, Debug, PartialEq, Eq)]
pub enum Left {
    /// Every byte was kept.
    Nothing,
    /// A line and all that follows it.
    From {
        /// The number of the line; that of the header is 1.
        line: u64,
        /// How many bytes were kept, which are those before the line.
        kept: u64,
        /// Why the line wasn't kept.
        why: Unkept,
    },
}

/// Why a line of a ledger's text wasn't kept.
#[derive(Clone, Copy, Debug, PartialEq, Eq)]
pub enum Unkept {
    /// The text ends before the line's newline.
    Torn,
    /// The line isn't the text of a record.
    Unread(RecordFault),
    /// The record wasn't taken, and not because memory was refused.
    Unfit(OfferFault),
    /// The table of the record has a verdict, or is a holdout and no verdict is offered.
    Repeated,
}

impl Left {
    ghost use Rattle.ledger.specs.LedgerText.{IsTornLeft};

    /// What is left of a text that is torn off within its header: all of it.
    pub fn of_torn(text: &[u8]) -> Left
        ensures { IsTornLeft text.now result }
    {
        if text.is_empty() {
            Left::Nothing
        } else {
            Left::From {
                line: 1,
                kept: 0,
                why: Unkept::Torn,
            }
        }
    }
}

impl fmt::Display for Unkept {
    ghost use Rattle.std.specs.Prelude.{Some};
    ghost use Rattle.ledger.specs.Faults.{unkept_text};

    ghost output = { λ why. Some (unkept_text why) };

    fn fmt<W: fmt::Write>(&self, f: &mut fmt::Formatter<W>) -> fmt::Result {
        match self {
            Unkept::Torn => f.write_str("the line has no end"),
            Unkept::Unread(fault) => fault.fmt(f),
            Unkept::Unfit(fault) => fault.fmt(f),
            Unkept::Repeated => f.write_str("the table is recorded already"),
        }
    }
}

/// Memory was refused while a piece was fed.
#[derive(Clone, Copy, Debug, PartialEq, Eq)]
pub struct FeedStop {
    /// How many bytes of the piece were taken; the others may be fed again.
    pub taken: usize,
}

/// What a text has come to.
#[derive(Drop)]
pub(crate) enum Stage {
    /// The first line isn't finished.
    Header(HeaderLine),
    /// The text has the header of the root.
    Records(Body),
    /// The text is no ledger of the root, whatever follows.
    Refused(LoadFault),
}

/// Takes more bytes of a line.
pub(crate) fn add(root: &Table, stage: &mut Stage, part: &[u8]) -> Result<(), NoMemory>
    requires { HasNoNewline part.now }
    ensures ok { OnOk result (StageGrows root.now stage.old part.now stage.new) }
    ensures err { OnErr result ((stage.new ≡ stage.old)
        × ((text : List ℕ) → IsStageOf root.now text stage.old → IsHeaded root.now text)) }
{
    match stage {
        Stage::Header(line) => {
            line.add(part);
            Ok(())
        }
        Stage::Records(body) => body.add(part),
        Stage::Refused(_) => Ok(()),
    }
}

/// Takes the last part of a line, and the line; with its newline the text has so many bytes.
pub(crate) fn end_line(
    alloc: Global,
    root: &Table,
    stage: &mut Stage,
    part: &[u8],
    after: u64,
) -> Result<(), FeedStop>
    requires root { (u : ℕ) × InOrder u (entry_of root.now) }
    requires part { HasNoNewline part.now }
    ensures ok { OnOk result (StageEnds root.now stage.old part.now after stage.new) }
    ensures stopped { IfErr result (λ stop. StageStops root.now stage.old part.now stop.taken stage.new) }
{
    match stage {
        Stage::Header(line) => {
            line.add(part);
            match ended(alloc, root, line.bytes(), after) {
                Ok(next) => {
                    *stage = next;
                    Ok(())
                }
                Err(_) => Err(FeedStop { taken: part.len() }),
            }
        }
        Stage::Records(body) => body.end_line(part, after),
        Stage::Refused(_) => Ok(()),
    }
}

/// The board of a text that ends here, and what of it wasn't kept.
pub(crate) fn finish(alloc: Global, root: Table, stage: Stage) -> Result<(Board, Left), LoadFault>
    requires root { (u : ℕ) × InOrder u (entry_of root) }
    ensures { (text : List ℕ) → IsStageOf root text stage → LoadGives root text result }
{
    match stage {
        Stage::Header(line) => torn(alloc, root, line.bytes()),
        Stage::Records(body) => Ok(body.finish()),
        Stage::Refused(fault) => Err(fault),
    }
}

// Behind a first line, of which this is kept: the text has so many bytes.
fn ended(alloc: Global, root: &Table, line: &[u8], after: u64) -> Result<Stage, NoMemory>
    requires { (u : ℕ) × InOrder u (entry_of root.now) }
    ensures ok { IfOk result (λ next. (text : List ℕ) → length text + 1 ≡ after → HasNoNewline text
        → line.now ≡ header_start text
        → IsStageOf root.now (text ++ 10 ∷ []) next) }
    ensures err { OnErr result ((format : Version) × NamesRoot format line.now root.now) }
{
    let Some(header) = header_in(line) else {
        return Ok(Stage::Refused(LoadFault::BadHeader));
    };
    if header.root != *root {
        return Ok(Stage::Refused(LoadFault::WrongRoot));
    }
    let board = empty_board(alloc, *root)?;
    let board = board.in_format(header.format);
    Ok(Stage::Records(Body::new(alloc, board, after)))
}

// The board of a text without a newline, of which this is kept: a new one, whatever was begun of its header.
fn torn(alloc: Global, root: Table, line: &[u8]) -> Result<(Board, Left), LoadFault>
    requires { (u : ℕ) × InOrder u (entry_of root) }
    ensures { (text : List ℕ) → HasNoNewline text → line.now ≡ header_start text → LoadGives root text result }
{
    if is_begun_header(line) {
        let board = empty_board(alloc, root)?;
        return Ok((board, Left::of_torn(line)));
    }
    Err(LoadFault::BadHeader)
}

// A board without records, of a root that names its states in order.
fn empty_board(alloc: Global, root: Table) -> Result<Board, NoMemory>
    requires { (u : ℕ) × InOrder u (entry_of root) }
    ensures { IfOk result (λ board. board ≡ record { root = root; records = []; format = Two }) }
{
    // the root is in order, so what is refused is memory
    Board::new(alloc, root).map_err(|_| NoMemory)
}

/// Loads the ledger of a root from the pieces of its text, wherever that is cut. It keeps the board, and of a line
/// that isn't finished no more than a record has; of what follows a line that isn't kept it keeps nothing.
#[derive(Drop)]
pub struct Loader {
    alloc: Global,
    root: Table,
    bytes: u64,
    stage: Stage,
}

impl Model for Loader {
    ghost use Rattle.std.specs.Prelude.{ℕ};
    ghost use Rattle.machine_text.specs.Terms.{entry_of};
    ghost use Rattle.law_tree.specs.Terms.{InOrder};
    ghost use Rattle.ledger.specs.Loading.{Loading};

    ghost Value = { Loading };

    ghost view = { λ a. record { root = a.root; bytes = a.bytes; stage = a.stage } };

    ghost invariant = { λ a. (u : ℕ) × InOrder u (entry_of a.root) };
}

impl Loader {
    /// Before the first byte of the ledger of a root. The root must name its states in order.
    pub fn new(alloc: Global, root: Table) -> Loader
        requires { (u : ℕ) × InOrder u (entry_of root) }
        ensures root { result.root ≡ root }
        ensures stands { StandsAfter result [] }
    {
        Loader {
            alloc,
            root,
            bytes: 0,
            stage: Stage::Header(HeaderLine::new()),
        }
    }

    /// How many bytes it was fed.
    pub fn bytes(&self) -> u64
        ensures { result ≡ self.now.bytes }
    {
        self.bytes
    }

    /// Takes a piece of the text behind what it was fed. It stops where memory is refused, which never is for a text
    /// without the root's header: what wasn't taken may be fed again.
    pub fn feed(&mut self, piece: &[u8]) -> Result<(), FeedStop>
        requires { self.old.bytes + length piece.now < 2 ^ 64 }
        ensures ok { OnOk result (IsFed self.old piece.now self.new) }
        ensures stopped { IfErr result (λ stop. IsStopped self.old piece.now stop self.new) }
    {
        let mut rest = piece;
        while let Some((line, after)) = first_line(rest) {
            if let Err(stop) = self.end_line(line) {
                let taken = piece.len() - rest.len() + stop.taken;
                return Err(FeedStop { taken });
            }
            rest = after;
        }
        match self.add(rest) {
            Ok(()) => Ok(()),
            Err(stop) => {
                let taken = piece.len() - rest.len() + stop.taken;
                Err(FeedStop { taken })
            }
        }
    }

    /// The board of the text that it was fed, and what of it wasn't kept: what `Board::load` gives for that text.
    pub fn finish(self) -> Result<(Board, Left), LoadFault>
        ensures { (text : List ℕ) → StandsAfter self text → LoadGives self.root text result }
    {
        finish(self.alloc, self.root, self.stage)
    }

    // Takes more bytes of a line.
    fn add(&mut self, part: &[u8]) -> Result<(), FeedStop>
        requires bytes { self.old.bytes + length part.now < 2 ^ 64 }
        requires part { HasNoNewline part.now }
        ensures ok { OnOk result (IsFed self.old part.now self.new) }
        ensures stopped { IfErr result (λ stop. IsStopped self.old part.now stop self.new) }
    {
        match add(&self.root, &mut self.stage, part) {
            Ok(()) => {
                self.bytes += part.len() as u64;
                Ok(())
            }
            Err(_) => Err(FeedStop { taken: 0 }),
        }
    }

    // Takes the last part of a line, with its newline.
    fn end_line(&mut self, part: &[u8]) -> Result<(), FeedStop>
        requires bytes { self.old.bytes + length part.now + 1 < 2 ^ 64 }
        requires part { HasNoNewline part.now }
        ensures ok { OnOk result (IsFed self.old (part.now ++ (10 ∷ [])) self.new) }
        ensures stopped { IfErr result (λ stop. IsStopped self.old (part.now ++ (10 ∷ [])) stop self.new) }
    {
        let after = self.bytes + part.len() as u64 + 1;
        match end_line(self.alloc, &self.root, &mut self.stage, part, after) {
            Ok(()) => {
                self.bytes = after;
                Ok(())
            }
            Err(stop) => {
                self.bytes += stop.taken as u64;
                Err(stop)
            }
        }
    }
}

impl Board {
    /// The board of a ledger's text, and what of the text wasn't kept: the records are those of its lines
    /// up to the first that isn't whole, doesn't read or can't be taken. The header's version decides what
    /// lines read, and is the board's. A text that is torn off within its header has no records, and version 2.
    ///
    /// The root must name its states in order. `BadHeader` where the first line is no header with a table
    /// that reads, or where the text has no newline and doesn't begin as a header does; `WrongRoot` where
    /// the header is of another root; `NoMemory` where memory was refused.
    pub fn load(alloc: Global, root: Table, bytes: &[u8]) -> Result<(Board, Left), LoadFault>
        requires { (u : ℕ) × InOrder u (entry_of root) }
        ensures { LoadGives root bytes.now result }
    {
        let mut loader = Loader::new(alloc, root);
        match loader.feed(bytes) {
            Ok(()) => loader.finish(),
            Err(_) => Err(LoadFault::NoMemory),
        }
    }
}

// How many bytes are read at once, at most.
const PIECE_BYTES: usize = 4_096;

/// Why a ledger wasn't read to its end.
#[derive(Debug, Drop)]
pub enum ReadStop {
    /// A read failed.
    Failed(io::Error),
    /// Memory was refused while a piece was fed that had been read.
    NoMemory,
}

impl Loader {
    /// Takes the text behind what it was fed from a reader: so many bytes of it, or all that it has where these are
    /// fewer. A piece of it is in memory at a time. It stops where a read fails, and where memory is refused, as `feed`
    /// does.
    pub fn feed_from<R: Read>(&mut self, from: &mut R, limit: u64) -> Result<(), ReadStop>
        requires { self.old.bytes + limit < 2 ^ 64 }
        ensures ok { OnOk result (FeedsAll self.old (R.remaining from.old) limit self.new (R.remaining from.new)) }
        ensures stopped { IfErr result (λ stop. StopsReading self.old (R.remaining from.old) limit stop self.new
            (R.remaining from.new)) }
    {
        let mut buf = [0; PIECE_BYTES];
        let mut left = limit;
        'pieces: while left > 0 {
            let room = left.min(PIECE_BYTES as u64) as usize;
            let piece = &mut buf[..room];
            let count = match from.read(piece) {
                Ok(count) => count,
                Err(fault) => return Err(ReadStop::Failed(fault)),
            };
            if count == 0 {
                return Ok(());
            }
            match self.feed(&piece[..count]) {
                Ok(()) => left -= count as u64,
                Err(_) => return Err(ReadStop::NoMemory),
            }
        }
        Ok(())
    }
}
