// The options of `bb coord`.
ghost use Rattle.std.specs.Prelude.{◌≡◌, ◌≤◌, IfOk, IfSome, codes};
ghost use Rattle.clap.specs.Words.{first_of};
ghost use Rattle.cmd_options.specs.Terms.{AreWithinRanges, IsBeginning, IsListening};
ghost use Rattle.cmd_words.specs.Asked.{AsksFor, AsksListeningIf, IsNumber, IsStates, rows_found};

use crate::arguments::{
    ACCEPT_HOLDOUTS, COORDINATED, ERA, JSON, LEDGER, LISTEN, OPEN, PER_ADDRESS, PROGRESS, SYNC,
    TOKEN,
};
use crate::line_fault::LineFault;
use crate::reading::{flag_of, ledger_of, number_of, text_of, written_of};
use crate::words::is_reachable;
use clap::ArgMatches;
use cmd_options::{Beginning, Listening, Options, PartCoordinating};

// Of a whole tree where the first word is a number, else of a part.
pub(crate) fn coord_options<'a>(coord: &ArgMatches<'a>) -> Result<Options<'a>, LineFault>
    ensures within { IfOk result AreWithinRanges }
    ensures asked { IfOk result (AsksFor (codes "coord") (rows_found coord.now)) }
{
    let listening = listening_of(coord, number_of(coord, PER_ADDRESS)?);
    if !flag_of(coord, OPEN) && lets_anyone_in(&listening) {
        return Err(LineFault::OpenToAll);
    }
    let era = number_of(coord, ERA)?;
    let Some(word) = text_of(coord, COORDINATED) else {
        return Err(LineFault::NoTree);
    };
    match word.parse::<u8>() {
        Ok(states) if 1 <= states && states <= 7 => tree_options(
            coord,
            Beginning { states, era },
            listening,
        ),
        _ => part_options(coord, word, era, listening),
    }
}

// A coordinator of a whole tree.
fn tree_options<'a>(
    coord: &ArgMatches<'a>,
    beginning: Beginning,
    listening: Option<Listening<'a>>,
) -> Result<Options<'a>, LineFault>
    requires within { IsBeginning beginning × IfSome listening IsListening }
    requires states { IsStates (rows_found coord.now) (codes "N|FILE") beginning.states }
    requires era { IsNumber (rows_found coord.now) (codes "era") beginning.era }
    requires listening { AsksListeningIf (rows_found coord.now) listening }
    ensures within { IfOk result AreWithinRanges }
    ensures asked { IfOk result (AsksFor (codes "coord") (rows_found coord.now)) }
{
    let ledger = ledger_of(coord);
    if flag_of(coord, SYNC) && ledger.is_none() {
        return Err(LineFault::SyncOfNothing);
    }
    Ok(Options::Coord {
        beginning,
        ledger,
        listening,
    })
}

// A coordinator that goes on with a ledger. Its name isn't a number, so that one beyond the range is no file.
fn part_options<'a>(
    coord: &ArgMatches<'a>,
    path: &'a str,
    era: u64,
    listening: Option<Listening<'a>>,
) -> Result<Options<'a>, LineFault>
    requires within { (1 ≤ era) × IfSome listening IsListening }
    requires path { first_of (codes "N|FILE") (rows_found coord.now) ≡ Some path.now }
    requires era { IsNumber (rows_found coord.now) (codes "era") era }
    requires listening { AsksListeningIf (rows_found coord.now) listening }
    ensures within { IfOk result AreWithinRanges }
    ensures asked { IfOk result (AsksFor (codes "coord") (rows_found coord.now)) }
{
    match listening {
        Some(listening) if text_of(coord, LEDGER).is_none() && !is_number(path) => {
            Ok(Options::CoordPart(PartCoordinating {
                file: written_of(coord, path),
                era,
                listening,
            }))
        }
        _ => Err(LineFault::NoTree),
    }
}

// Whether a word is of digits alone.
fn is_number(word: &str) -> bool {
    word.bytes().all(|byte| byte.is_ascii_digit())
}

// How a coordinator listens, if it does.
fn listening_of<'a>(coord: &ArgMatches<'a>, per_address: u64) -> Option<Listening<'a>>
    requires within { (1 ≤ per_address) × (per_address ≤ 1000) }
    requires given { IsNumber (rows_found coord.now) (codes "per-address") per_address }
    ensures within { IfSome result IsListening }
    ensures asked { AsksListeningIf (rows_found coord.now) result }
{
    let token = text_of(coord, TOKEN);
    Some(Listening {
        address: text_of(coord, LISTEN)?,
        token,
        per_address,
        accept_holdouts: flag_of(coord, ACCEPT_HOLDOUTS),
        json: flag_of(coord, JSON),
        progress: flag_of(coord, PROGRESS),
    })
}

// Whether other computers reach a coordinator that asks for no token.
fn lets_anyone_in(listening: &Option<Listening<'_>>) -> bool {
    match listening {
        Some(listening) => listening.token.is_none() && is_reachable(listening.address),
        None => false,
    }
}
