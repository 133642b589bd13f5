// `bb tables`: a text in, the tables among its words out.
ghost use Rattle.std.specs.Prelude.{◌≡◌, ◌∷◌, ◌<◌, not, length, IfSome, position, ◌⊎◌, IfErr, [], ◌++◌, ℕ, List, map, min, IfOk, OnOk};
ghost use Rattle.std.specs.List.{list_any};
ghost use Rattle.cmd_lines.specs.Listed.{columns, is_comma, is_word_byte, words, Found, IsFoundIn, IsInForm, ListsFirst, ListsTables, alone, of_record, same_packed, table_in, tables_of_column, tables_of_line, tables_of_word};
ghost use Rattle.cmd_lines.specs.inside.{columns_left, words_left, ListsFor, found_if};
ghost use Rattle.indexmap.specs.IndexSet.{insert_key};
ghost use Rattle.cmd_lines.specs.Lines.{lent};
ghost use Rattle.run.specs.Terms.{run_step_limit};
ghost use Rattle.cert.specs.Terms.{recorded};
ghost use Rattle.cmd_lines.specs.Stream.{EndsSaying, WritesFirst};

use crate::normal::normal_form;
use crate::{PIECE_BYTES, Sayer, read_line, say_lines};
use cert::{Record, append_table};
use cmd_options::{Ended, Listing, Outcome, told};
use indexmap::IndexSet;
use kind_evidence::NoMemory;
use machine_text::{Table, TextFault};
use std::alloc::Global;
use std::io::{Read, Write};
use text::append_number;

// Whether words are made of a byte.
fn is_word_byte(byte: u8) -> bool
    ensures { result ≡ is_word_byte byte }
{
    (48 <= byte && byte <= 57)
        || (65 <= byte && byte <= 90)
        || byte == 45
        || byte == 95
        || byte == 44
}

// The first word of a text, which may be empty, and what stands behind it and one more byte; nothing does where it ends.
pub(crate) fn cut_word(text: &[u8]) -> (&[u8], Option<&[u8]>)
    ensures words { words text.now ≡ result.0.now ∷ words_left result.1 }
    ensures shorter { IfSome result.1 (λ rest. length rest.now < length text.now) }
{
    match end_of_word(text) {
        Some(at) => (&text[..at], Some(&text[at + 1..])),
        None => (text, None),
    }
}

// The place of the first byte that isn't one of a word.
fn end_of_word(text: &[u8]) -> Option<usize>
    ensures place { result ≡ position (λ b. not (is_word_byte b)) text.now }
    ensures within { IfSome result (λ at. at < length text.now) }
{
    text.iter().position(|byte| !is_word_byte(*byte))
}

// The first column of a word, and what stands behind it and its comma; nothing does where the word ends.
pub(crate) fn cut_column(word: &[u8]) -> (&[u8], Option<&[u8]>)
    ensures columns { columns word.now ≡ result.0.now ∷ columns_left result.1 }
    ensures shorter { IfSome result.1 (λ rest. length rest.now < length word.now) }
{
    match end_of_column(word) {
        Some(at) => (&word[..at], Some(&word[at + 1..])),
        None => (word, None),
    }
}

// The place of the first comma.
fn end_of_column(word: &[u8]) -> Option<usize>
    ensures place { result ≡ position is_comma word.now }
    ensures within { IfSome result (λ at. at < length word.now) }
{
    word.iter().position(|byte| *byte == b',')
}

// How many lines had no table, and how many tables had come before.
#[derive(Clone, Copy, Drop)]
pub(crate) struct Passed {
    pub(crate) lines: u64,
    pub(crate) doubles: u64,
}

impl Passed {
    // Says what was passed over, on a line; nothing where nothing was.
    pub(crate) fn tell<E: Write>(self, alloc: Global, faults: &mut E) -> Result<(), Ended>
        ensures { IfErr result (λ e. (e ≡ Ended.NoMemory) ⊎ (e ≡ Ended.Stream)) }
    {
        if self.lines > 0 || self.doubles > 0 {
            let told = self.sentence(alloc)?;
            faults.write_all(&told)?;
        }
        Ok(())
    }

    fn sentence(self, alloc: Global) -> Result<Vec<u8>, NoMemory> {
        let mut told = Vec::new(alloc);
        told.extend_from_slice(b"passed over: lines without a table ")?;
        append_number(self.lines, &mut told)?;
        told.extend_from_slice(b", doubles ")?;
        append_number(self.doubles, &mut told)?;
        told.extend_from_slice(b"\n")?;
        Ok(told)
    }
}

// How long a row of a table is. Where commas stand between rows, none of them is a table of one state.
const ROW_BYTES: usize = 6;

/// Reads a text of any form, and prints the tables in it in the standard form, a line each, where they come first: renamed
/// and mirrored as their runs ask for, if that is wanted; and a line that is a record, apart from white space at its ends,
/// as it stands, if records are kept. How many lines had none, and how many tables had come before, is
/// said on `faults` at the end, and what a failed stream or refused memory ends: then what was printed is what is found in
/// the first lines, in full where memory was refused.
pub fn cmd_tables<R: Read, W: Write, E: Write>(
    alloc: Global,
    listing: &Listing,
    input: &mut R,
    answers: &mut W,
    faults: &mut E,
) -> Outcome
    ensures { EndsSaying (λ o. (o ≡ Outcome.Accepted) × ListsTables listing.now (R.remaining input.old)
        (R.remaining input.new) (W.contents answers.old) (W.contents answers.new))
        (ListsFirst listing.now (R.remaining input.old) (R.remaining input.new)) (W.contents answers.old)
        (W.contents answers.new) result }
{
    told(list_tables(alloc, listing, input, answers, faults), faults)
}

// Lists as `cmd_tables` does, but answers what ends it early, and doesn't say it.
fn list_tables<R: Read, W: Write, E: Write>(
    alloc: Global,
    listing: &Listing,
    input: &mut R,
    answers: &mut W,
    faults: &mut E,
) -> Result<Outcome, Ended>
    ensures ok { IfOk result (λ o. (o ≡ Outcome.Accepted) × ListsTables listing.now (R.remaining input.old)
        (R.remaining input.new) (W.contents answers.old) (W.contents answers.new)) }
    ensures first { IfErr result (WritesFirst (ListsFirst listing.now (R.remaining input.old) (R.remaining input.new))
        (W.contents answers.old) (W.contents answers.new)) }
    ensures err { IfErr result (λ e. (e ≡ Ended.NoMemory) ⊎ (e ≡ Ended.Stream)) }
{
    let lister = Lister {
        form: Form {
            alloc,
            listing: *listing,
        },
        came: IndexSet::new(alloc),
        passed: Passed {
            lines: 0,
            doubles: 0,
        },
    };
    let (outcome, lister) = say_lines(alloc, lister, PIECE_BYTES, input, answers)?;
    lister.passed.tell(alloc, faults)?;
    Ok(outcome)
}

// In which form tables are printed, which ones came, and what was passed over.
#[derive(Drop)]
struct Lister {
    form: Form,
    came: IndexSet<Table>,
    passed: Passed,
}

impl Sayer for Lister {
    ghost use Rattle.std.specs.Prelude.{◌≡◌};
    ghost use Rattle.cmd_options.specs.declared.ended.Ended.TheVariants.{NoMemory as WantsMemory};
    ghost use Rattle.cmd_lines.specs.inside.{ListsLine};

    ghost takes = { ListsLine (λ l. l.form.listing) (λ l. l.came.keys) };

    ghost ends = { λ e. e ≡ WantsMemory };

    fn take_line(&mut self, line: Option<&[u8]>, said: &mut Vec<u8>) -> Result<Outcome, Ended> {
        let count = list_line(&self.form, line, &mut self.came, said)?;
        if count.tables == 0 {
            self.passed.lines = self.passed.lines.saturating_add(1);
        }
        self.passed.doubles = self.passed.doubles.saturating_add(count.doubles);
        Ok(Outcome::Accepted)
    }
}

// The form in which tables are printed.
#[derive(Drop)]
struct Form {
    alloc: Global,
    listing: Listing,
}

impl Form {
    // What is printed of a table.
    fn of(&self, t: &Table) -> Result<Table, NoMemory>
        ensures { IfOk result (IsInForm self.now.listing.normal (min self.now.listing.steps run_step_limit) t.now) }
    {
        if self.listing.normal {
            normal_form(self.alloc, t, self.listing.steps)
        } else {
            Ok(*t)
        }
    }

    // The record that a line is, where records are kept.
    fn record_in<'a>(&self, line: Option<&'a [u8]>) -> Option<Record<'a>>
        ensures { IsFoundIn self.now.listing.records (lent line.entry)
            (found_if result (tables_of_line (lent line.entry))) }
    {
        if !self.listing.records {
            return None;
        }
        let text = line?;
        match read_line(Some(text.trim_ascii())) {
            Ok(record) => Some(record),
            Err(_) => None,
        }
    }
}

// How many tables a line has, and how many of them came before.
#[derive(Clone, Copy, Drop)]
struct Count {
    tables: u64,
    doubles: u64,
}

// Appends what a line has, which is none where it was too long: the record that it is, or the tables in it, where they come
// first.
fn list_line(
    form: &Form,
    line: Option<&[u8]>,
    came: &mut IndexSet<Table>,
    said: &mut Vec<u8>,
) -> Result<Count, Ended>
    ensures ok { OnOk result ((found : List Found) × IsFoundIn form.now.listing.records (lent line.entry) found
        × (more : List ℕ) × ListsFor form.now.listing came.old.keys found came.new.keys more
        × (said.new.items ≡ said.old.items ++ more)) }
    ensures err { IfErr result (λ e. e ≡ Ended.NoMemory) }
{
    match form.record_in(line) {
        Some(record) => list_record(form, &record, came, said),
        None => list_tables_in(form, line, came, said),
    }
}

// Appends a record whose table comes first.
fn list_record(
    form: &Form,
    r: &Record<'_>,
    came: &mut IndexSet<Table>,
    said: &mut Vec<u8>,
) -> Result<Count, Ended>
    ensures ok { OnOk result ((more : List ℕ) × ListsFor form.now.listing came.old.keys
        (of_record (recorded r.now) ∷ []) came.new.keys more × (said.new.items ≡ said.old.items ++ more)) }
    ensures err { IfErr result (λ e. e ≡ Ended.NoMemory) }
{
    if !put_first(&r.table, came)? {
        return Ok(Count {
            tables: 1,
            doubles: 1,
        });
    }
    r.write_text(said)?;
    said.extend_from_slice(b"\n")?;
    Ok(Count {
        tables: 1,
        doubles: 0,
    })
}

// Appends the tables in a line that come first.
fn list_tables_in(
    form: &Form,
    line: Option<&[u8]>,
    came: &mut IndexSet<Table>,
    said: &mut Vec<u8>,
) -> Result<Count, Ended>
    ensures ok { OnOk result ((more : List ℕ) × ListsFor form.now.listing came.old.keys
        (map alone (tables_of_line (lent line.entry))) came.new.keys more
        × (said.new.items ≡ said.old.items ++ more)) }
    ensures err { IfErr result (λ e. e ≡ Ended.NoMemory) }
{
    let mut left = line;
    let mut count = Count {
        tables: 0,
        doubles: 0,
    };
    'words: while let Some(text) = left {
        let (word, rest) = cut_word(text);
        list_word(form, word, came, &mut count, said)?;
        left = rest;
    }
    Ok(count)
}

// Appends the tables in a word that come first.
fn list_word(
    form: &Form,
    word: &[u8],
    came: &mut IndexSet<Table>,
    count: &mut Count,
    said: &mut Vec<u8>,
) -> Result<(), Ended>
    ensures ok { OnOk result ((more : List ℕ) × ListsFor form.now.listing came.old.keys
        (map alone (tables_of_word word.now)) came.new.keys more × (said.new.items ≡ said.old.items ++ more)) }
    ensures err { IfErr result (λ e. e ≡ Ended.NoMemory) }
{
    let mut left = Some(word);
    let mut is_behind_row = false;
    'columns: while let Some(text) = left {
        let (column, rest) = cut_column(text);
        list_column(form, is_behind_row, column, came, count, said)?;
        is_behind_row = column.len() == ROW_BYTES;
        left = rest;
    }
    Ok(())
}

// Appends a column that is a table and comes first.
fn list_column(
    form: &Form,
    is_behind_row: bool,
    column: &[u8],
    came: &mut IndexSet<Table>,
    count: &mut Count,
    said: &mut Vec<u8>,
) -> Result<(), Ended>
    ensures ok { OnOk result ((more : List ℕ) × ListsFor form.now.listing came.old.keys
        (map alone (tables_of_column is_behind_row column.now)) came.new.keys more
        × (said.new.items ≡ said.old.items ++ more)) }
    ensures err { IfErr result (λ e. e ≡ Ended.NoMemory) }
{
    let Ok(t) = table_of(is_behind_row, column) else {
        return Ok(());
    };
    count.tables = count.tables.saturating_add(1);
    let t = form.of(&t)?;
    if !put_first(&t, came)? {
        count.doubles = count.doubles.saturating_add(1);
        return Ok(());
    }
    append_table(&t, said)?;
    said.extend_from_slice(b"\n")?;
    Ok(())
}

// The table that a column is.
fn table_of(is_behind_row: bool, column: &[u8]) -> Result<Table, TextFault>
    ensures { table_in result ≡ tables_of_column is_behind_row column.now }
{
    if is_behind_row && column.len() == ROW_BYTES {
        return Err(TextFault::BadLength);
    }
    Table::parse(column)
}

// Puts a table among those that came, and answers whether it is the first.
fn put_first(t: &Table, came: &mut IndexSet<Table>) -> Result<bool, Ended>
    ensures ok { IfOk result (λ first. (first ≡ not (list_any (same_packed t.now) came.old.keys))
        × (came.new.keys ≡ insert_key same_packed came.old.keys t.now)) }
    ensures err { IfErr result (λ e. e ≡ Ended.NoMemory) }
{
    match came.insert(*t) {
        Ok(first) => Ok(first),
        Err(_) => Err(Ended::NoMemory),
    }
}
