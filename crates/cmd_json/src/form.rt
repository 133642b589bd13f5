// A report as lines or as JSON, numbers of lines, and texts of bytes as JSON.
ghost use Rattle.std.specs.Prelude.{◌≡◌, ◌++◌, ◌∷◌, [], ◌%◌, IfOk, OnOk, encode_utf8_all, string_bytes};
ghost use Rattle.cmd_json.specs.Forms.{form_of};
ghost use Rattle.cmd_json.specs.Objects.{number_behind, ascii, ascii_character, hex_digit, hex_digits, text_value};
ghost use Rattle.serde_json.specs.View.{view};

use crate::report::told_text;
use cmd_ledgers::{AsLines, LineReport, ReportForm, Told};
use kind_evidence::NoMemory;
use ledger::Left;
use serde_json::Value;
use std::alloc::Global;
use std::io::{self, Write};

/// A form of which a command line says whether it is JSON.
#[derive(Clone, Copy, Debug, PartialEq, Eq, Drop)]
pub enum LinesOrJson {
    /// As lines.
    Lines,
    /// As one JSON object, which doesn't say what wasn't kept of a ledger.
    Json,
}

impl LinesOrJson {
    /// JSON where that is asked for, otherwise lines.
    pub fn of(json: bool) -> LinesOrJson
        ensures { result ≡ form_of json }
    {
        if json {
            LinesOrJson::Json
        } else {
            LinesOrJson::Lines
        }
    }
}

/// A report that is made, in one of the forms.
#[derive(Drop)]
pub enum Made {
    /// As lines.
    Lines(LineReport),
    /// As JSON.
    Json(Vec<u8>),
}

impl ReportForm for LinesOrJson {
    ghost use Rattle.cmd_json.specs.Forms.{IsText, bytes_of};

    type Made = Made;

    ghost is_text = { IsText };

    ghost bytes = { bytes_of };

    fn make(&self, alloc: Global, told: Told, left: &Left) -> Result<Made, NoMemory> {
        match self {
            LinesOrJson::Lines => Ok(Made::Lines(AsLines.make(alloc, told, left)?)),
            LinesOrJson::Json => Ok(Made::Json(told_text(alloc, told)?)),
        }
    }

    fn write<W: Write>(&self, made: Made, answers: &mut W) -> io::Result<()> {
        match made {
            Made::Lines(lines) => AsLines.write(lines, answers),
            Made::Json(text) => answers.write_all(&text),
        }
    }
}

/// The number of the line behind so many.
pub(crate) fn number_behind(lines: u64) -> u64
    ensures { result ≡ number_behind lines }
{
    if lines < u64::MAX { lines + 1 } else { lines }
}

/// A text whose characters are these bytes.
pub(crate) fn text_value(alloc: Global, bytes: &[u8]) -> Result<Value, NoMemory>
    ensures { IfOk result (λ text. view text ≡ text_value bytes.now) }
{
    let text = characters(alloc, bytes)?;
    Ok(Value::from(text))
}

fn characters(alloc: Global, bytes: &[u8]) -> Result<String, NoMemory>
    ensures { IfOk result (λ text. string_bytes text ≡ encode_utf8_all bytes.now) }
{
    let mut text = String::new(alloc);
    for byte in bytes {
        text.push(char::from(*byte))?;
    }
    Ok(text)
}

/// Appends a text, with an escape in place of each character that isn't ASCII.
pub(crate) fn append_ascii(text: &str, out: &mut Vec<u8>) -> Result<(), NoMemory>
    ensures { OnOk result (out.new.items ≡ out.old.items ++ ascii text.now) }
{
    for c in text.chars() {
        append_character(c, out)?;
    }
    Ok(())
}

fn append_character(c: char, out: &mut Vec<u8>) -> Result<(), NoMemory>
    ensures { OnOk result (out.new.items ≡ out.old.items ++ ascii_character c) }
{
    let number = u32::from(c);
    if number < 128 {
        out.push(number as u8)?;
        Ok(())
    } else {
        out.extend_from_slice(b"\\u")?;
        append_hex(number, out)
    }
}

// Appends a number in four hexadecimal digits.
fn append_hex(number: u32, out: &mut Vec<u8>) -> Result<(), NoMemory>
    ensures { OnOk result (out.new.items ≡ out.old.items ++ hex_digits number) }
{
    out.push(hex_digit(number / 4096))?;
    out.push(hex_digit(number / 256))?;
    out.push(hex_digit(number / 16))?;
    out.push(hex_digit(number))?;
    Ok(())
}

// The last hexadecimal digit of a number.
fn hex_digit(number: u32) -> u8
    ensures { result ≡ hex_digit number }
{
    let digit = (number % 16) as u8;
    if digit < 10 {
        b'0' + digit
    } else {
        b'a' + (digit - 10)
    }
}
