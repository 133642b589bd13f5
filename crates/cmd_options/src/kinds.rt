// The kinds of certificates, as users see them: the one table of them in the program.
ghost use Rattle.std.specs.Prelude.{◌≡◌};
ghost use Rattle.cmd_options.specs.Kinds.{kind_label};

use crate::ranged;
use crate::version::Number;

/// The letters of the kinds, in the order in which a page has them (`kind_letters`).
pub const LETTERS: &[u8] = b"HLCTBNFAWRPU";

/// What a page calls the kind of a letter, as HTML: the letter and a name. Nothing for another letter.
pub fn kind_label(letter: u8) -> &'static [u8]
    ensures { result.now ≡ kind_label letter }
{
    match letter {
        b'H' => b"<code>H</code> halting",
        b'L' => b"<code>L</code> halting late",
        b'C' => b"<code>C</code> cycler",
        b'T' => b"<code>T</code> translated cycler",
        b'B' => b"<code>B</code> backward reasoning",
        b'N' => b"<code>N</code> n-gram CPS",
        b'F' => b"<code>F</code> finite automata reduction (FAR)",
        b'A' => b"<code>A</code> finite automata reduction, edges listed",
        b'W' => b"<code>W</code> counted automata",
        b'R' => b"<code>R</code> rules with induction",
        b'P' => b"<code>P</code> proof of its own",
        b'U' => b"<code>U</code> holdout",
        _ => b"",
    }
}

/// How far backward reasoning goes.
#[rattlefmt::skip]
pub const DEPTH: Number = ranged! { name: "depth", value: Some("D"), least: 0, most: 1_000, default: Some("20"),
    help: "Greatest depth of backward reasoning" };

/// How wide the words in closed position sets are.
#[rattlefmt::skip]
pub const GRAM: Number = ranged! { name: "gram", value: Some("G"), least: 0, most: 8, default: Some("3"),
    help: "Greatest width of words in closed position sets (n-gram CPS); 0 for none" };

/// How large automata are.
#[rattlefmt::skip]
pub const FAR: Number = ranged! { name: "far", value: Some("M"), least: 0, most: 16, default: Some("2"),
    help: "Most states of a first automaton, in finite automata reduction; 0 for none" };

/// How many stages of automata from words there are.
#[rattlefmt::skip]
pub const WORDS: Number = ranged! { name: "words", value: Some("W"), least: 0, most: 11, default: Some("0"),
    help: "Stages of automata from words, in finite automata reduction; 0 for none" };

/// How many counts automata that count have.
#[rattlefmt::skip]
pub const COUNT: Number = ranged! { name: "count", value: Some("C"), least: 0, most: 12, default: Some("0"),
    help: "Most counts of counted automata; 0 for none" };

/// How often the run is looked at for rules.
#[rattlefmt::skip]
pub const RULES: Number = ranged! { name: "rules", value: Some("R"), least: 0, most: 7, default: Some("0"),
    help: "Tries to find rules with induction; 0 for none" };

/// The options that say how far the certificates of a kind are searched for, in the order in which help has them.
pub const REACHES: [Number; 6] = [DEPTH, GRAM, FAR, WORDS, COUNT, RULES];

/// The names of the options that say how far certificates are searched for.
pub const REACH_NAMES: &[&str] = &["depth", "gram", "far", "words", "count", "rules"];
