// What stands behind the header of a text that is loaded in pieces.
ghost use Rattle.std.specs.Prelude.{◌≡◌, ◌++◌, ℕ, List, [], None, Some, IfErr, IfOk, Ok, OnOk, OnErr, option_map};
ghost use Rattle.machine_text.specs.Terms.{Packed};
ghost use Rattle.cert.specs.Terms.{read_as};
ghost use Rattle.text.specs.Terms.{HasNoNewline};
ghost use Rattle.ledger.specs.LedgerText.{ledger_record, LineGives, LoadGives};
ghost use Rattle.ledger.specs.Loading.{IsBodyOf, record_start};
ghost use Rattle.ledger.specs.inside.Taking.{BodyEnds, BodyGrows, BodyStops, GoesBehind, IsHeaded, LineTaken};

use crate::board::Board;
use crate::faults::{OfferFault, Taken};
use crate::header::Format;
use crate::lines::LineStart;
use crate::loading::{FeedStop, Left, Unkept};
use cert::{Record, RecordFault};
use kind_evidence::NoMemory;
use std::alloc::Global;

/// The lines behind a header, up to one that isn't kept.
#[derive(Drop)]
pub(crate) struct Body {
    board: Board,
    // of the line that isn't finished; that of the header is 1
    number: u64,
    // how many bytes of the text stand before that line
    before: u64,
    line: LineStart,
    // what is left of the text from a line on that wasn't kept
    left: Option<Left>,
}

impl Body {
    /// Behind a header of so many bytes, with an empty board.
    pub fn new(alloc: Global, board: Board, before: u64) -> Body
        ensures { result ≡ record { board = board; number = 2; before = before; line = Some []; left = None } }
    {
        Body {
            board,
            number: 2,
            before,
            line: LineStart::new(alloc),
            left: None,
        }
    }

    /// Takes more bytes of a line.
    pub fn add(&mut self, part: &[u8]) -> Result<(), NoMemory>
        requires { HasNoNewline part.now }
        ensures ok { OnOk result (BodyGrows self.old part.now self.new) }
        ensures err { OnErr result ((self.new ≡ self.old)
            × ((root : Packed) (text : List ℕ) → IsBodyOf root text self.old → IsHeaded root text)) }
    {
        if self.left.is_some() {
            return Ok(());
        }
        self.line.add(part)
    }

    /// Takes the last part of a line, and the line; with its newline the text has so many bytes.
    pub fn end_line(&mut self, part: &[u8], after: u64) -> Result<(), FeedStop>
        requires { HasNoNewline part.now }
        ensures ok { OnOk result (BodyEnds self.old part.now after self.new) }
        ensures stopped { IfErr result (λ stop. BodyStops self.old part.now stop.taken self.new) }
    {
        if self.left.is_some() {
            return Ok(());
        }
        if self.line.is_empty() {
            // the line stands whole in this part
            return match self.take_whole(part, after) {
                Ok(()) => Ok(()),
                Err(_) => Err(FeedStop { taken: 0 }),
            };
        }
        let Ok(()) = self.line.add(part) else {
            return Err(FeedStop { taken: 0 });
        };
        match self.take_begun(after) {
            Ok(()) => Ok(()),
            Err(_) => Err(FeedStop { taken: part.len() }),
        }
    }

    /// The board, and what is left of the text that ends here.
    pub fn finish(self) -> (Board, Left)
        ensures { (root : Packed) (text : List ℕ) → IsBodyOf root text self → LoadGives root text (Ok result) }
    {
        let left = self.left_at_end();
        (self.board, left)
    }

    // What is left of the text where it ends here.
    fn left_at_end(&self) -> Left
        ensures { (root : Packed) (text : List ℕ) → IsBodyOf root text self.now
            → LoadGives root text (Ok (self.now.board, result)) }
    {
        if let Some(left) = self.left {
            return left;
        }
        if self.line.is_empty() {
            return Left::Nothing;
        }
        Left::From {
            line: self.number,
            kept: self.before,
            why: Unkept::Torn,
        }
    }

    // Takes a line where nothing of it has come before.
    fn take_whole(&mut self, line: &[u8], after: u64) -> Result<(), NoMemory>
        requires empty { self.old.line ≡ Some [] }
        requires before { self.old.left ≡ None }
        ensures ok { OnOk result (LineTaken self.old line.now after self.new) }
        ensures err { OnErr result (self.new ≡ self.old) }
    {
        let why = take_line(&mut self.board, line)?;
        self.go_on(why, after);
        Ok(())
    }

    // Takes the line that has come.
    fn take_begun(&mut self, after: u64) -> Result<(), NoMemory>
        requires { self.old.left ≡ None }
        ensures ok { OnOk result ((line : List ℕ) → self.old.line ≡ record_start line
            → LineTaken self.old line after self.new) }
        ensures err { OnErr result (self.new ≡ self.old) }
    {
        let why = take_start(&mut self.board, self.line.line())?;
        self.line.begin();
        self.go_on(why, after);
        Ok(())
    }

    // Goes on behind a line that was taken, or stops at one that wasn't.
    fn go_on(&mut self, why: Option<Unkept>, after: u64)
        requires { self.old.left ≡ None }
        ensures goes_on { GoesBehind self.old why after self.new }
        ensures board { self.new.board ≡ self.old.board }
        ensures line { self.new.line ≡ self.old.line }
    {
        match why {
            None => {
                // it counts no further than there are bytes
                self.number = self.number.saturating_add(1);
                self.before = after;
            }
            Some(why) => {
                self.left = Some(Left::From {
                    line: self.number,
                    kept: self.before,
                    why,
                });
            }
        }
    }
}

// Takes the record of a line of which this is kept; none where it is too long for a record.
fn take_start(board: &mut Board, start: Option<&[u8]>) -> Result<Option<Unkept>, NoMemory>
    ensures gives { IfOk result (λ why. (line : List ℕ)
        → option_map (λ kept. kept.now) start.entry ≡ record_start line →
        LineGives board.old.format board.old.root board.old.records line why board.new.records) }
    ensures root { board.new.root ≡ board.old.root }
    ensures format { board.new.format ≡ board.old.format }
    ensures err { OnErr result (board.new ≡ board.old) }
{
    match start {
        Some(line) => take_line(board, line),
        None => Ok(Some(Unkept::Unread(RecordFault::TooLong))),
    }
}

// Takes the record of a line, or says why it isn't kept; then the board is as it was.
fn take_line(board: &mut Board, line: &[u8]) -> Result<Option<Unkept>, NoMemory>
    ensures gives { IfOk result (λ why. LineGives board.old.format board.old.root board.old.records line.now why
        board.new.records) }
    ensures root { board.new.root ≡ board.old.root }
    ensures format { board.new.format ≡ board.old.format }
    ensures err { OnErr result (board.new ≡ board.old) }
{
    let record = match parse_line(board.version(), line) {
        Ok(record) => record,
        Err(fault) => return Ok(Some(Unkept::Unread(fault))),
    };
    match board.offer(&record) {
        Ok(Taken::New) => Ok(None),
        Ok(Taken::Settled) => Ok(None),
        Ok(Taken::Known) => Ok(Some(Unkept::Repeated)),
        Err(OfferFault::NoMemory) => Err(NoMemory),
        Err(fault) => Ok(Some(Unkept::Unfit(fault))),
    }
}

// The record of a line in a version; `BadKind` where it has no score but has to have it, or has one but mustn't.
fn parse_line(format: Format, line: &[u8]) -> Result<Record<'_>, RecordFault>
    ensures { read_as result ≡ ledger_record format line.now }
{
    match Record::parse(line) {
        Ok(record) if format.may_hold(&record.certificate) => Ok(record),
        Ok(_) => Err(RecordFault::BadKind),
        Err(fault) => Err(fault),
    }
}
