// The rows of a file, one after another: a command, and what has to come of it.
use crate::commands::{Streams, done};
use crate::mem_files::MemFiles;
use cmd_options::{Ended, Options, Outcome};
use cmd_words::{LineFault, options};
use std::alloc::{AllocError as NoMemory, Global};
use std::io::{self, Write};

// Where a line of text goes.
#[derive(Clone, Copy, Drop)]
enum Place {
    File,
    Input,
    Answers,
    Faults,
}

/// What a file holds.
#[derive(Drop)]
pub struct FileText {
    pub path: String,
    pub text: Vec<u8>,
}

/// A command of a row, and what has to come of it.
#[derive(Drop)]
pub struct Row {
    alloc: Global,
    // the words, between spaces
    pub words: String,
    pub input: Vec<u8>,
    pub answers: Vec<u8>,
    pub faults: Vec<u8>,
    pub status: u8,
    /// What files hold then; before the first command, what they hold at first.
    pub files: Vec<FileText>,
    /// What the words ask for, where the row says that in place of what comes of it.
    pub asked: Option<String>,
    last: Place,
}

impl Row {
    pub fn new(alloc: Global) -> Row {
        Row {
            alloc,
            words: String::new(alloc),
            input: Vec::new(alloc),
            answers: Vec::new(alloc),
            faults: Vec::new(alloc),
            status: 0,
            files: Vec::new(alloc),
            asked: None,
            last: Place::File,
        }
    }

    /// Takes a line, by its first word; whether it is one of a row.
    pub fn take(&mut self, mark: &str, text: &str) -> Result<bool, NoMemory> {
        match mark {
            "file" => {
                self.files.push(FileText {
                    path: text.to_string(self.alloc)?,
                    text: Vec::new(self.alloc),
                })?;
                self.last = Place::File;
            }
            "|" => return self.append(Place::File, text),
            "<" => return self.append(Place::Input, text),
            ">" => return self.append(Place::Answers, text),
            "!" => return self.append(Place::Faults, text),
            "?" => match text.parse::<u8>() {
                Ok(status) => self.status = status,
                Err(_) => return Ok(false),
            },
            "=" => self.asked = Some(text.to_string(self.alloc)?),
            // Files that are not named are not compared.
            "others" => {}
            "\\" => return Ok(self.drop_newline()),
            _ => return Ok(false),
        }
        Ok(true)
    }

    // Appends a line; whether there is something to append it to.
    fn append(&mut self, place: Place, text: &str) -> Result<bool, NoMemory> {
        self.last = place;
        match self.bytes_at(place) {
            Some(bytes) => {
                bytes.extend_from_slice(text.as_bytes())?;
                bytes.push(b'\n')?;
                Ok(true)
            }
            None => Ok(false),
        }
    }

    // Takes the newline of the last line of text away; whether there was one.
    fn drop_newline(&mut self) -> bool {
        match self.bytes_at(self.last) {
            Some(bytes) => bytes.pop().is_some(),
            None => false,
        }
    }

    fn bytes_at(&mut self, place: Place) -> Option<&mut Vec<u8>> {
        match place {
            Place::File => Some(&mut self.files.last_mut()?.text),
            Place::Input => Some(&mut self.input),
            Place::Answers => Some(&mut self.answers),
            Place::Faults => Some(&mut self.faults),
        }
    }
}

/// The rows of a file while they are played.
#[derive(Drop)]
pub struct Playing<'a> {
    alloc: Global,
    name: &'a str,
    files: MemFiles,
    // the command whose lines are read; before the first, the files of a case
    row: Row,
    commands: usize,
    differing: usize,
}

impl<'a> Playing<'a> {
    pub fn new(alloc: Global, name: &'a str) -> Playing<'a> {
        Playing {
            alloc,
            name,
            files: MemFiles::new(alloc),
            row: Row::new(alloc),
            commands: 0,
            differing: 0,
        }
    }

    /// Plays the rows of a text, and says how many commands there were and which differ; whether all are as they should be.
    pub fn play<W: Write>(&mut self, text: &str, out: &mut W) -> io::Result<bool> {
        for (place, line) in text.lines().enumerate() {
            let number = place.saturating_add(1);
            if !self.take(line, number, out)? {
                writeln!(out, "{}:{number}: no line of a row", self.name)?;
                return Ok(false);
            }
        }
        self.end(0, out)?;
        let (name, commands, differing) = (self.name, self.commands, self.differing);
        writeln!(
            out,
            "{name}: {commands} commands, {differing} of them differ"
        )?;
        Ok(differing == 0 && commands > 0)
    }

    // Takes a line; whether it is one of a row.
    fn take<W: Write>(&mut self, line: &str, number: usize, out: &mut W) -> io::Result<bool> {
        let (mark, text) = line.split_once(' ').unwrap_or((line, ""));
        match mark {
            "" | "#" => Ok(true),
            "case" => {
                self.end(number, out)?;
                self.files = MemFiles::new(self.alloc);
                Ok(true)
            }
            "$" => {
                self.end(number, out)?;
                self.row.words.push_str(text)?;
                Ok(true)
            }
            _ => Ok(self.row.take(mark, text)?),
        }
    }

    // Plays the command that was read, before the line of a number; the files of a case are laid out.
    fn end<W: Write>(&mut self, number: usize, out: &mut W) -> io::Result<()> {
        let row = std::mem::replace(&mut self.row, Row::new(self.alloc));
        if row.words.is_empty() {
            for file in &row.files {
                self.files.put_text(&file.path, &file.text)?;
            }
            return Ok(());
        }
        self.commands = self.commands.saturating_add(1);
        if let Some(what) = self.differs(&row)? {
            self.differing = self.differing.saturating_add(1);
            writeln!(
                out,
                "{}:{number}: {} differs before this line",
                self.name, what
            )?;
        }
        Ok(())
    }

    // What of a command is otherwise than its row says.
    fn differs(&mut self, row: &Row) -> Result<Option<&'static str>, NoMemory> {
        let mut words = Vec::new(self.alloc);
        for word in row.words.split(' ') {
            words.push(word)?;
        }
        let asked = options(self.alloc, &words);
        if let Some(wanted) = &row.asked {
            let found = asked_text(self.alloc, &asked)?;
            return Ok((found.as_str() != wanted.as_str()).then_some("what is asked for"));
        }
        let mut streams = Streams {
            input: &row.input,
            answers: Vec::new(self.alloc),
            faults: Vec::new(self.alloc),
        };
        let ended = match &asked {
            Ok(asked) => done(self.alloc, asked, &mut self.files, &mut streams),
            Err(_) => Ok(None),
        };
        Ok(self.compared(row, ended, &streams))
    }

    fn compared(
        &self,
        row: &Row,
        ended: Result<Option<Outcome>, Ended>,
        streams: &Streams<'_>,
    ) -> Option<&'static str> {
        match ended {
            Ok(Some(outcome)) if outcome.status() == row.status => {}
            _ => return Some("the exit status"),
        }
        if streams.answers != row.answers {
            return Some("standard output");
        }
        if streams.faults != row.faults {
            return Some("standard error");
        }
        for file in &row.files {
            if self.files.text_at(&file.path) != Some(file.text.as_slice()) {
                return Some("a file");
            }
        }
        None
    }
}

// What words ask for, or what they are refused for.
fn asked_text(alloc: Global, asked: &Result<Options<'_>, LineFault>) -> Result<String, NoMemory> {
    match asked {
        Ok(asked) => format!(in alloc; "{asked:?}"),
        Err(LineFault::PathForNumber(_)) => "a path where a number belongs".to_string(alloc),
        Err(_) => "nothing".to_string(alloc),
    }
}
