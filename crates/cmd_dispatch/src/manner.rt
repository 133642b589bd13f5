// What of a command matters to what is said beside its answers.
use cmd_options::Options;

// Which lines a command reads on standard input.
#[derive(Clone, Copy, Debug, PartialEq, Eq)]
pub(crate) enum Lines {
    // None, or such as it says something of itself.
    Others,
    // Tables.
    Tables,
    // Tables and records.
    Asked,
    // Tables and records, of which one is drawn.
    One,
    // A text of any form.
    Any,
    // Records, each of which is explained.
    Explained,
}

// Where a command has what it reads from.
#[derive(Clone, Copy, Debug, PartialEq, Eq)]
pub(crate) enum Source {
    // Lines of standard input.
    Lines,
    // A ledger that may be standard input.
    LedgerOrInput,
    // Several ledgers, which may be standard input.
    LedgersOrInput,
    // A ledger.
    Ledger,
}

// A command.
#[derive(Clone, Copy, Debug)]
pub(crate) struct Manner {
    pub name: &'static str,
    pub source: Source,
    pub lines: Lines,
}

impl Manner {
    // The manner of the command that is asked for.
    pub fn of(asked: &Options<'_>) -> Manner {
        Manner {
            name: name_of(asked),
            source: source_of(asked),
            lines: lines_of(asked),
        }
    }
}

// The word of a command, with what stands behind it where it reads standard input.
fn name_of(asked: &Options<'_>) -> &'static str {
    match asked {
        Options::Check(_) => "check",
        Options::Decide(_) => "decide",
        Options::Explain(_) => "explain",
        Options::Show(_) => "show",
        Options::Tables(_) => "tables",
        Options::Draw(_) => "draw",
        Options::Page(paging) if paging.ledger.is_none() => "page --table",
        Options::Page(_) => "page -",
        Options::Report(_) => "report -",
        Options::Mend(_) => "mend - OUT",
        Options::Join(_) => "join -",
        Options::Look(_) => "look PATH",
        Options::Settle(_) => "settle",
        Options::Coord { .. }
        | Options::CoordPart(_)
        | Options::Work(_)
        | Options::Run { .. }
        | Options::Walk(_)
        | Options::Loop { .. }
        | Options::Retry(_)
        | Options::Merge(_)
        | Options::Carry(_)
        | Options::Split(_) => "",
    }
}

fn source_of(asked: &Options<'_>) -> Source {
    match asked {
        Options::Page(paging) if paging.ledger.is_none() => Source::Lines,
        Options::Look(looking) if looking.holdouts => Source::Ledger,
        Options::Page(_) | Options::Report(_) | Options::Mend(_) => Source::LedgerOrInput,
        Options::Join(_) => Source::LedgersOrInput,
        Options::Check(_)
        | Options::Decide(_)
        | Options::Explain(_)
        | Options::Show(_)
        | Options::Tables(_)
        | Options::Draw(_)
        | Options::Look(_) => Source::Lines,
        Options::Coord { .. }
        | Options::CoordPart(_)
        | Options::Work(_)
        | Options::Run { .. }
        | Options::Walk(_)
        | Options::Loop { .. }
        | Options::Retry(_)
        | Options::Merge(_)
        | Options::Carry(_)
        | Options::Split(_)
        | Options::Settle(_) => Source::Ledger,
    }
}

// An object of JSON says itself why its line is refused.
fn lines_of(asked: &Options<'_>) -> Lines {
    match asked {
        Options::Decide(deciding) if !deciding.json => Lines::Tables,
        Options::Look(looking) if !looking.holdouts => Lines::Tables,
        Options::Show(_) => Lines::Asked,
        Options::Draw(drawing) if drawing.out.is_some() => Lines::Asked,
        Options::Draw(_) => Lines::One,
        Options::Explain(explaining) if !explaining.json && explaining.run.is_none() => {
            Lines::Explained
        },
        Options::Tables(_) => Lines::Any,
        Options::Check(_)
        | Options::Decide(_)
        | Options::Explain(_)
        | Options::Look(_)
        | Options::Page(_)
        | Options::Report(_)
        | Options::Mend(_)
        | Options::Join(_)
        | Options::Coord { .. }
        | Options::CoordPart(_)
        | Options::Work(_)
        | Options::Run { .. }
        | Options::Walk(_)
        | Options::Loop { .. }
        | Options::Retry(_)
        | Options::Merge(_)
        | Options::Carry(_)
        | Options::Split(_)
        | Options::Settle(_) => Lines::Others,
    }
}
