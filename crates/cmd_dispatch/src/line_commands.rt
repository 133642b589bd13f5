// The commands over lines: `bb check`, `bb decide`, `bb explain`, `bb show`, `bb tables`, `bb draw` and `bb page`.
ghost use Rattle.std.specs.Prelude.{◌≡◌};
ghost use Rattle.cmd_dispatch.specs.Ledgers.{IsBehindSlash, IsNameAt, IsTitle, IsWithoutSlash, PagesAt, PagesLedger, PagesPath, PagesRead, PagesStream};
ghost use Rattle.cmd_options.specs.Terms.{AreWithinRanges};
ghost use Rattle.cmd_dispatch.specs.Lines.{input_of, output_of, DecidesLines, form_asked, reach_of};
ghost use Rattle.cmd_ledgers.specs.Terms.{AreFirstBytes};

use crate::host::{Commands, Environment, Host, KnownRecords};
use crate::ledger_commands::STANDARD_INPUT;
use crate::manner::{Manner, Source as Reads};
use crate::obeying::{obeyed, tell_reason};
use crate::streams::Shared;
use crate::walk_command::Late;
use cert::Decider;
use cmd_explain::{check_why_for, cmd_explain, explain_dot_for, explain_run_for};
use cmd_json::{check_json_for, decide_json_for, explain_json_for};
use cmd_lines::{Reader, TableText, cmd_check, cmd_decide, cmd_tables};
use cmd_options::{
    Checking, Deciding, Drawing, Ended, Explaining, Listing, NoMemory, Options, Outcome, Paging,
    Search, Showing, VERSION, ended_by,
};
use cmd_page::{Maker, folder_page_at, record_page_for, write_ledger_page};
use cmd_show::{cmd_draw, cmd_show};
use cmd_words::{CommandLine, Source};
use files::Files;
use find_search::decider_for;
use std::alloc::Global;
use std::io::{Read, Write};
use system::{CountedDecider, Storage, Work};

// The title that is asked for, or else this.
pub(crate) fn title_of<'a>(asked: Option<&'a str>, otherwise: &'a str) -> &'a str
    ensures { IsTitle asked.entry otherwise.now result.now }
{
    match asked {
        Some(title) => title,
        None => otherwise,
    }
}

// The name of the file or the folder at a path: a page that is published doesn't tell where it stood.
pub(crate) fn name_at(path: &str) -> &str
    ensures { IsNameAt path.now result.now }
{
    behind_slash(without_slash(path))
}

fn behind_slash(path: &str) -> &str
    ensures { IsBehindSlash path.now result.now }
{
    match path.rsplit_once('/') {
        Some((_, name)) => name,
        None => path,
    }
}

fn without_slash(path: &str) -> &str
    ensures { IsWithoutSlash path.now result.now }
{
    match path.strip_suffix('/') {
        Some(plain) => plain,
        None => path,
    }
}

// Does what a line asks for, over its lines.
pub(crate) fn obeyed_by_source<S: Environment + Storage, R: Read, W: Write, E: Write>(
    alloc: Global,
    line: &CommandLine<'_>,
    system: &S,
    input: &mut R,
    answers: &mut W,
    faults: &mut E,
) -> Outcome
    requires { AreWithinRanges line.now.asked }
{
    match &line.source {
        Source::Standard => {
            if Manner::of(&line.asked).source == Reads::Lines {
                system.tell_waiting();
            }
            obeyed(alloc, line, system, input, answers, faults)
        }
        Source::File(path) => obeyed_in_file(alloc, line, path, system, answers, faults),
        Source::Lines(lines) => match text_of(alloc, lines) {
            Ok(text) => obeyed(alloc, line, system, &mut text.as_slice(), answers, faults),
            Err(_) => Ended::NoMemory.told(faults),
        },
    }
}

// Over the lines of a file, which has to be there.
fn obeyed_in_file<S: Environment + Storage, W: Write, E: Write>(
    alloc: Global,
    line: &CommandLine<'_>,
    path: &str,
    system: &S,
    answers: &mut W,
    faults: &mut E,
) -> Outcome
    requires { AreWithinRanges line.now.asked }
{
    match system.files().open_to_end(path) {
        Ok(mut file) => obeyed(alloc, line, system, &mut file.reader, answers, faults),
        Err(fault) => {
            let outcome = ended_by(&fault, Ended::File).told(faults);
            tell_reason(system, outcome, &Shared::of(faults));
            outcome
        }
    }
}

// Lines as a text.
fn text_of(alloc: Global, lines: &[&str]) -> Result<Vec<u8>, NoMemory> {
    let mut text = Vec::new(alloc);
    for line in lines {
        text.extend_from_slice(line.as_bytes())?;
        text.push(b'\n')?;
    }
    Ok(text)
}

impl<S: Environment, H: Files, R: Read, W: Write, E: Write> Host<'_, S, H, R, W, E> {
    // `bb check`, with `--json` or `--why` or without.
    pub(crate) fn check(&mut self, checking: Checking) -> Result<Outcome, Ended>
        ensures { ⟦<Self as Commands>⟧.does (Options.Check checking) self.old self.new result }
    {
        if checking.json {
            return check_json_for(self.alloc, checking.why, &mut self.input, &mut self.answers);
        }
        if checking.why {
            return check_why_for(
                self.alloc,
                &mut self.input,
                &mut self.answers,
                &mut self.faults,
            );
        }
        let reader = reader_of(self.system);
        Ok(cmd_check(
            self.alloc,
            reader,
            &mut self.input,
            &mut self.answers,
            &mut self.faults,
        ))
    }

    // `bb decide`; how many tables are decided is told where that is wanted.
    pub(crate) fn decide(
        &mut self,
        known: KnownRecords<'_>,
        deciding: &Deciding<'_>,
    ) -> Result<Outcome, Ended>
        ensures { ⟦<Self as Commands>⟧.does (Options.Decide deciding.now) self.old self.new result }
    {
        let mut finders = decider_for(self.alloc, known, &reach_of(deciding))?;
        let mut late = Late::new(self.alloc)?;
        let progress = self.progress(deciding.progress, Work::Tables);
        let mut decider = CountedDecider::new(&mut finders, progress);
        let ended = self.decided(deciding, &mut decider, &mut late);
        decider.end();
        let outcome = ended?;
        Ok(late.say(outcome, &mut self.faults))
    }

    // `bb explain`: as JSON, as graphs, with what is seen of runs, or in words alone.
    pub(crate) fn explain(&mut self, explaining: Explaining) -> Result<Outcome, Ended>
        ensures { ⟦<Self as Commands>⟧.does (Options.Explain explaining) self.old self.new result }
    {
        let alloc = self.alloc;
        if explaining.json {
            return explain_json_for(alloc, &mut self.input, &mut self.answers);
        }
        if explaining.dot {
            return explain_dot_for(alloc, &mut self.input, &mut self.answers);
        }
        match explaining.run {
            Some(steps) => explain_run_for(alloc, steps, &mut self.input, &mut self.answers),
            None => Ok(cmd_explain(alloc, &mut self.input, &mut self.answers, &mut self.faults)),
        }
    }

    // `bb show`.
    pub(crate) fn show(&mut self, showing: &Showing) -> Result<Outcome, Ended>
        ensures { ⟦<Self as Commands>⟧.does (Options.Show showing.now) self.old self.new result }
    {
        Ok(cmd_show(
            self.alloc,
            showing,
            &mut self.input,
            &mut self.answers,
            &mut self.faults,
        ))
    }

    // `bb tables`.
    pub(crate) fn tables(&mut self, listing: &Listing) -> Result<Outcome, Ended>
        ensures { ⟦<Self as Commands>⟧.does (Options.Tables listing.now) self.old self.new result }
    {
        Ok(cmd_tables(
            self.alloc,
            listing,
            &mut self.input,
            &mut self.answers,
            &mut self.faults,
        ))
    }

    // Decides lines, with `--json` or without; what is to be said at the end is kept.
    fn decided<D: Decider>(
        &mut self,
        deciding: &Deciding<'_>,
        decider: &mut D,
        late: &mut Late,
    ) -> Result<Outcome, Ended>
        ensures files { self.new.files ≡ self.old.files }
        ensures lines { DecidesLines D.answers deciding.now.json deciding.now.keep
            (input_of R.remaining self.old self.new) (output_of W.contents E.contents self.old self.new) result }
    {
        if deciding.json {
            return decide_json_for(self.alloc, decider, &mut self.input, &mut self.answers);
        }
        Ok(cmd_decide(
            self.alloc,
            reader_of(self.system),
            form_asked(deciding.keep),
            decider,
            &mut self.input,
            &mut self.answers,
            &mut late.words,
        ))
    }
}

// How far certificates are searched for: as it is asked for, or, where tables are run alone, by runs of so many steps.
fn reach_of<'a>(deciding: &Deciding<'a>) -> Search<'a>
    ensures { result ≡ reach_of deciding.now }
{
    let Some(steps) = deciding.run else {
        return deciding.search;
    };
    Search {
        known: deciding.search.known,
        steps,
        depth: 0,
        gram: 0,
        far: 0,
        words: 0,
        count: 0,
        rules: 0,
        hard: false,
        long_run: deciding.search.long_run,
    }
}

// How the tables of answers are printed.
fn form_asked(keep: bool) -> TableText
    ensures { result ≡ form_asked keep }
{
    if keep {
        TableText::AsItCame
    } else {
        TableText::Standard
    }
}

// Who reads what is said on standard error.
fn reader_of<S: Environment>(system: &S) -> Reader {
    if system.tells_terminal() {
        Reader::Person
    } else {
        Reader::Script
    }
}

impl<S: Environment, H: Files, R: Read, W: Write, E: Write> Host<'_, S, H, R, W, E> {
    // `bb draw`.
    pub(crate) fn draw(&mut self, drawing: &Drawing<'_>) -> Result<Outcome, Ended>
        ensures { ⟦<Self as Commands>⟧.does (Options.Draw drawing.now) self.old self.new result }
    {
        Ok(cmd_draw(
            self.alloc,
            drawing,
            &mut self.files,
            &mut self.input,
            &mut self.answers,
            &mut self.faults,
        ))
    }

    // `bb page`, of the ledger at a path, or of the records of the input.
    pub(crate) fn page(&mut self, paging: &Paging<'_>) -> Result<Outcome, Ended>
        ensures { ⟦<Self as Commands>⟧.does (Options.Page paging.now) self.old self.new result }
    {
        match paging.ledger {
            None => {
                let maker = self.maker();
                let title = title_of(paging.title, "Records");
                record_page_for(
                    self.alloc,
                    title,
                    &maker,
                    &mut self.input,
                    &mut self.answers,
                )
            }
            Some(path) => self.page_read(paging, path),
        }
    }

    // Of the ledger on the input, or at a path.
    fn page_read(&mut self, paging: &Paging<'_>, path: &str) -> Result<Outcome, Ended>
        ensures files { self.new.files ≡ self.old.files }
        ensures pages { PagesRead (H.holds self.old.files) paging.now path.now
            (input_of R.remaining self.old self.new) (output_of W.contents E.contents self.old self.new) result }
    {
        if path == STANDARD_INPUT {
            return self.page_stream(paging);
        }
        self.page_path(paging, path)
    }

    // On the input.
    fn page_stream(&mut self, paging: &Paging<'_>) -> Result<Outcome, Ended>
        ensures files { self.new.files ≡ self.old.files }
        ensures pages { PagesStream paging.now (input_of R.remaining self.old self.new)
            (output_of W.contents E.contents self.old self.new) result }
    {
        let maker = self.maker();
        let title = title_of(paging.title, "standard input");
        page_of(
            self.alloc,
            &maker,
            title,
            &mut self.input,
            u64::MAX,
            Ended::Stream,
            &mut self.answers,
        )
    }

    // At a path.
    fn page_path(&mut self, paging: &Paging<'_>, path: &str) -> Result<Outcome, Ended>
        ensures files { self.new.files ≡ self.old.files }
        ensures pages { PagesPath (H.holds self.old.files) paging.now path.now
            (output_of W.contents E.contents self.old self.new) result }
    {
        let maker = self.maker();
        let name = name_at(path);
        let title = title_of(paging.title, name);
        self.tell_reading(paging.progress, &[path]);
        let ended = self.page_at(&maker, path, title);
        self.system.end_reading();
        ended
    }

    // Of the folder or the file at a path.
    fn page_at(&mut self, maker: &Maker<'_>, path: &str, title: &str) -> Result<Outcome, Ended>
        ensures files { self.new.files ≡ self.old.files }
        ensures pages { PagesAt maker.now.version.now (H.holds self.old.files) path.now title.now
            (output_of W.contents E.contents self.old self.new) result }
    {
        if self.files.is_folder(path) {
            let (answers, faults) = (&mut self.answers, &mut self.faults);
            return folder_page_at(self.alloc, maker, title, path, &self.files, answers, faults);
        }
        let mut file = match self.files.open_to_end(path) {
            Ok(file) => file,
            Err(fault) => return Err(ended_by(&fault, Ended::File)),
        };
        page_of(
            self.alloc,
            maker,
            title,
            &mut file.reader,
            file.length,
            Ended::File,
            &mut self.answers,
        )
    }

    // By which program pages are made.
    fn maker(&self) -> Maker<'static>
        ensures { result.version.now ≡ VERSION.now }
    {
        Maker {
            version: VERSION,
            sum: self.system.program_sum(),
        }
    }
}

// Of the ledger that a reader has in its first bytes; where a read fails, that ends the command so.
fn page_of<R: Read, W: Write>(
    alloc: Global,
    maker: &Maker<'_>,
    title: &str,
    from: &mut R,
    limit: u64,
    otherwise: Ended,
    answers: &mut W,
) -> Result<Outcome, Ended>
    ensures { PagesLedger maker.now.version.now (AreFirstBytes (R.remaining from.old) limit) title.now
        (W.contents answers.old) (W.contents answers.new) result }
{
    match write_ledger_page(alloc, title, maker, from, limit, answers) {
        Ok((outcome, _)) => Ok(outcome),
        Err(stopped) => Err(stopped.ended(otherwise)),
    }
}
