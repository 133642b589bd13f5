// Messages, as they are read and written, and why a frame is none.
ghost use Rattle.std.specs.Prelude.{◌≡◌, ◌<◌, ◌^◌, ◌∷◌, [], ◌++◌, take, length, decimal, codes, Ok, OnOk, OnErr, option_map};
ghost use Rattle.machine_text.specs.Terms.{IsTable, text_of, table_of};
ghost use Rattle.cert.specs.Terms.{IsMadeFor, record_of, record_text, claim_of, recorded};
ghost use Rattle.wire.specs.Message.{IsMadeForItsTable, message_of, message_text, said, read_table, ask_in, grant_in, rec_in, ack_in, later_in, done_in, message_with, message_alone, message_in, decoded};
ghost use Rattle.wire.specs.inside.{IsReadable};

use cert::{Record, append_table};
use kind_evidence::NoMemory;
use machine_text::Table;
use std::error::Error;
use std::fmt;
use text::{MAX_LINE_BYTES, append_number, cut_at, decimal_value};

/// What a coordinator and its workers say to one another. Each is one line, a frame and a newline.
#[derive(Clone, Copy, Debug, PartialEq, Eq)]
pub enum Msg<'a> {
    /// `ASK id`: the worker of this id asks for a table.
    Ask { id: u32 },
    /// `GRANT era lease table`: it gets this one, under a lease of this era.
    Grant { era: u64, lease: u64, table: Table },
    /// `REC record`: a worker hands in a record.
    Rec(Record<'a>),
    /// `ACK table`: the coordinator holds a record of this table.
    Ack(Table),
    /// `LATER table`: the worker is to keep its record of this table; `LATER`: no table is free now.
    Later(Option<Table>),
    /// `DONE era lease`: the worker has done with what it was granted.
    Done { era: u64, lease: u64 },
    /// `STOP`: nothing is left to do.
    Stop,
}

/// Why a frame is no message. Its length is judged first.
#[derive(Clone, Copy, Debug, PartialEq, Eq)]
pub enum MsgFault {
    /// The frame is not the text of a message.
    BadMessage,
    /// The frame is longer than text's `MAX_LINE_BYTES`.
    TooLong,
}

impl MsgFault {
    ghost use Rattle.wire.specs.Message.{message_fault_number};

    /// The refusal number: 601 or 602.
    pub fn number(&self) -> u16
        ensures { result ≡ message_fault_number self.now }
    {
        match self {
            MsgFault::BadMessage => 601,
            MsgFault::TooLong => 602,
        }
    }
}

impl fmt::Display for MsgFault {
    ghost use Rattle.std.specs.Prelude.{Some};
    ghost use Rattle.wire.specs.Message.{message_fault_text};

    ghost output = { λ fault. Some (message_fault_text fault) };

    fn fmt<W: fmt::Write>(&self, f: &mut fmt::Formatter<W>) -> fmt::Result {
        match self {
            MsgFault::BadMessage => f.write_str("the frame is no message"),
            MsgFault::TooLong => f.write_str("the frame is longer than 65536 bytes"),
        }
    }
}

impl Error for MsgFault {}

/// Appends the message's text and a newline. The text reads back as the message, where the lists of a record
/// are made for tables of as many states as its table has. Where memory is refused, `out` is as it was.
pub fn encode(m: &Msg<'_>, out: &mut Vec<u8>) -> Result<(), NoMemory>
    ensures ok { OnOk result (out.new.items ≡ out.old.items ++ message_text (said m.now) ++ (10 ∷ [])) }
    ensures reads_back { OnOk result (IsMadeForItsTable (said m.now)
        → message_of (message_text (said m.now)) ≡ Ok (said m.now)) }
    ensures err { OnErr result (out.new.items ≡ out.old.items) }
{
    let len = out.len();
    match append_line(m, out) {
        Ok(()) => Ok(()),
        Err(fault) => {
            out.truncate(len);
            Err(fault)
        }
    }
}

// Appends the text and a newline; where memory is refused, a beginning of them.
fn append_line(m: &Msg<'_>, out: &mut Vec<u8>) -> Result<(), NoMemory>
    ensures ok { OnOk result (out.new.items ≡ out.old.items ++ message_text (said m.now) ++ (10 ∷ [])) }
    ensures readable { OnOk result (IsMadeForItsTable (said m.now) → IsReadable (said m.now)) }
    ensures kept { take (length out.old.items) out.new.items ≡ out.old.items }
{
    append_message(m, out)?;
    out.extend_from_slice(b"\n")
}

// Appends the text; where memory is refused, a beginning of it. What was written reads back.
#[tactic(auto, unfolding(crate::specs::Message::message_text))]
fn append_message(m: &Msg<'_>, out: &mut Vec<u8>) -> Result<(), NoMemory>
    ensures ok { OnOk result (out.new.items ≡ out.old.items ++ message_text (said m.now)) }
    ensures readable { OnOk result (IsMadeForItsTable (said m.now) → IsReadable (said m.now)) }
    ensures kept { take (length out.old.items) out.new.items ≡ out.old.items }
{
    match m {
        Msg::Ask { id } => {
            out.extend_from_slice(b"ASK ")?;
            append_number(u64::from(*id), out)
        }
        Msg::Grant { era, lease, table } => {
            out.extend_from_slice(b"GRANT ")?;
            append_lease(*era, *lease, out)?;
            out.extend_from_slice(b" ")?;
            append_named(table, out)
        }
        Msg::Rec(record) => {
            out.extend_from_slice(b"REC ")?;
            append_record(record, out)
        }
        Msg::Ack(table) => {
            out.extend_from_slice(b"ACK ")?;
            append_named(table, out)
        }
        Msg::Later(Some(table)) => {
            out.extend_from_slice(b"LATER ")?;
            append_named(table, out)
        }
        Msg::Later(None) => out.extend_from_slice(b"LATER"),
        Msg::Done { era, lease } => {
            out.extend_from_slice(b"DONE ")?;
            append_lease(*era, *lease, out)
        }
        Msg::Stop => out.extend_from_slice(b"STOP"),
    }
}

// Appends the text of a record, which reads back as it.
fn append_record(r: &Record<'_>, out: &mut Vec<u8>) -> Result<(), NoMemory>
    ensures ok { OnOk result (out.new.items ≡ out.old.items ++ record_text (recorded r.now)) }
    ensures reads_back { OnOk result (IsMadeFor (claim_of r.now.certificate) r.now.table.states
        → record_of (record_text (recorded r.now)) ≡ Ok (recorded r.now)) }
    ensures err { OnErr result (out.new.items ≡ out.old.items) }
{
    r.write_text(out)
}

// Appends the text of a table, which is one.
fn append_named(t: &Table, out: &mut Vec<u8>) -> Result<(), NoMemory>
    ensures ok { OnOk result (out.new.items ≡ out.old.items ++ text_of t.now) }
    ensures table { IsTable t.now }
    ensures err { OnErr result (out.new.items ≡ out.old.items) }
{
    // The proof needs that the table is one.
    let _ = t.states();
    append_table(t, out)
}

// Appends the name of a lease: its era and its number.
fn append_lease(era: u64, lease: u64, out: &mut Vec<u8>) -> Result<(), NoMemory>
    ensures ok { OnOk result (out.new.items ≡ out.old.items ++ decimal era ++ codes " " ++ decimal lease) }
    ensures bits { (era < 2 ^ 64) × (lease < 2 ^ 64) }
    ensures kept { take (length out.old.items) out.new.items ≡ out.old.items }
{
    append_number(era, out)?;
    out.extend_from_slice(b" ")?;
    append_number(lease, out)
}

/// The message that a frame is; its record is lent from the frame.
#[tactic(auto, unfolding(crate::specs::Message::message_of))]
pub fn decode(frame: &[u8]) -> Result<Msg<'_>, MsgFault>
    ensures { decoded result ≡ message_of frame.now }
{
    if frame.len() > MAX_LINE_BYTES {
        return Err(MsgFault::TooLong);
    }
    match message_in(frame) {
        Some(message) => Ok(message),
        None => Err(MsgFault::BadMessage),
    }
}

// A word, alone or with a text behind a space.
fn message_in(frame: &[u8]) -> Option<Msg<'_>>
    ensures { option_map said result ≡ message_in frame.now }
{
    match cut_at(b' ', frame) {
        Some((word, text)) => message_with(word, text),
        None => message_alone(frame),
    }
}

fn message_with<'a>(word: &[u8], text: &'a [u8]) -> Option<Msg<'a>>
    ensures { option_map said result ≡ message_with word.now text.now }
{
    if word == b"ASK".as_slice() {
        ask_in(text)
    } else if word == b"GRANT".as_slice() {
        grant_in(text)
    } else if word == b"REC".as_slice() {
        rec_in(text)
    } else if word == b"ACK".as_slice() {
        ack_in(text)
    } else if word == b"LATER".as_slice() {
        later_in(text)
    } else if word == b"DONE".as_slice() {
        done_in(text)
    } else {
        None
    }
}

fn message_alone(word: &[u8]) -> Option<Msg<'static>>
    ensures { option_map said result ≡ message_alone word.now }
{
    if word == b"LATER".as_slice() {
        Some(Msg::Later(None))
    } else if word == b"STOP".as_slice() {
        Some(Msg::Stop)
    } else {
        None
    }
}

// `id`
fn ask_in(text: &[u8]) -> Option<Msg<'static>>
    ensures { option_map said result ≡ ask_in text.now }
{
    match u32::try_from(decimal_value(text)?) {
        Ok(id) => Some(Msg::Ask { id }),
        Err(_) => None,
    }
}

// `era lease table`
fn grant_in(text: &[u8]) -> Option<Msg<'static>>
    ensures { option_map said result ≡ grant_in text.now }
{
    let (era, rest) = cut_at(b' ', text)?;
    let (lease, table) = cut_at(b' ', rest)?;
    Some(Msg::Grant {
        era: decimal_value(era)?,
        lease: decimal_value(lease)?,
        table: table_in(table)?,
    })
}

// `record`
fn rec_in(text: &[u8]) -> Option<Msg<'_>>
    ensures { option_map said result ≡ rec_in text.now }
{
    match Record::parse(text) {
        Ok(record) => Some(Msg::Rec(record)),
        Err(_) => None,
    }
}

// `table`
fn ack_in(text: &[u8]) -> Option<Msg<'static>>
    ensures { option_map said result ≡ ack_in text.now }
{
    Some(Msg::Ack(table_in(text)?))
}

// `table`
fn later_in(text: &[u8]) -> Option<Msg<'static>>
    ensures { option_map said result ≡ later_in text.now }
{
    Some(Msg::Later(Some(table_in(text)?)))
}

// `era lease`
fn done_in(text: &[u8]) -> Option<Msg<'static>>
    ensures { option_map said result ≡ done_in text.now }
{
    let (era, lease) = cut_at(b' ', text)?;
    Some(Msg::Done {
        era: decimal_value(era)?,
        lease: decimal_value(lease)?,
    })
}

fn table_in(text: &[u8]) -> Option<Table>
    ensures { result ≡ read_table (table_of text.now) }
{
    match Table::parse(text) {
        Ok(table) => Some(table),
        Err(_) => None,
    }
}
