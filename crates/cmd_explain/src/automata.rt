// `bb explain --dot`: records in, their automata in the language of Graphviz out.
ghost use Rattle.std.specs.Prelude.{◌+◌, ◌*◌, ◌<◌, length, ◌≡◌, ◌⊎◌, ◌∷◌, [], ◌++◌, List, ℕ, IfErr, IfOk, OnOk};
ghost use Rattle.cert.specs.Terms.{read_as, recorded};
ghost use Rattle.cmd_lines.specs.Terms.{Answers, AnswersRecord, fault_text, AnswersFirst, WritesFirst, AnswersStream, lent};
ghost use Rattle.cmd_explain.specs.Explained.{IsDrawn, SaysDrawn, comment};

use crate::closed_sets::{CountedFields, far_targets, part_cells};
use cert::{Certificate, Record, RecordFault, append_table};
use cmd_lines::{PIECE_BYTES, Sayer, answer_record, append_fault, read_line, say_lines};
use cmd_options::{Ended, Outcome};
use kind_counted::CountedCosets;
use kind_evidence::NoMemory;
use machine_text::Table;
use std::alloc::Global;
use std::io::{Read, Write};
use text::append_number;

/// Appends the graph of an automaton whose nodes' names begin so, by where each of its states goes on 0 and on 1. A point
/// leads to the state in which it starts, which is 0.
pub(crate) fn append_automaton(
    name: &str,
    targets: &[Vec<u8>],
    out: &mut Vec<u8>,
) -> Result<(), NoMemory> {
    append_start(name, out)?;
    for state in 0..targets.len() / 2 {
        append_state(name, state, targets, out)?;
    }
    Ok(())
}

fn append_start(name: &str, out: &mut Vec<u8>) -> Result<(), NoMemory> {
    out.extend_from_slice(b"  ")?;
    out.extend_from_slice(name.as_bytes())?;
    out.extend_from_slice(b"start [shape=point];\n  ")?;
    out.extend_from_slice(name.as_bytes())?;
    out.extend_from_slice(b"start -> ")?;
    out.extend_from_slice(name.as_bytes())?;
    out.extend_from_slice(b"0;\n")
}

// Appends a state and its edges.
fn append_state(
    name: &str,
    state: usize,
    targets: &[Vec<u8>],
    out: &mut Vec<u8>,
) -> Result<(), NoMemory>
    requires { 2 * state + 1 < length targets.now }
{
    append_node(name, state, out)?;
    out.extend_from_slice(b";\n")?;
    append_edge(name, state, "0", &targets[2 * state], out)?;
    append_edge(name, state, "1", &targets[2 * state + 1], out)
}

fn append_node(name: &str, state: usize, out: &mut Vec<u8>) -> Result<(), NoMemory> {
    out.extend_from_slice(b"  ")?;
    out.extend_from_slice(name.as_bytes())?;
    append_number(state as u64, out)
}

// Appends the edge of a transition, where there is one, with its symbol, and behind that the letter of its count.
fn append_edge(
    name: &str,
    state: usize,
    symbol: &str,
    target: &[u8],
    out: &mut Vec<u8>,
) -> Result<(), NoMemory> {
    if target == b"-".as_slice() {
        return Ok(());
    }
    let (number, count) = number_and_count(target);
    append_node(name, state, out)?;
    out.extend_from_slice(b" -> ")?;
    out.extend_from_slice(name.as_bytes())?;
    out.extend_from_slice(number)?;
    out.extend_from_slice(b" [label=\"")?;
    out.extend_from_slice(symbol.as_bytes())?;
    if !count.is_empty() {
        out.extend_from_slice(b" ")?;
    }
    out.extend_from_slice(count)?;
    out.extend_from_slice(b"\"];\n")
}

// A target's number, and the letter of its count behind it, where it has one.
fn number_and_count(target: &[u8]) -> (&[u8], &[u8]) {
    let len = target.len();
    if len > 0 && target[len - 1] >= b'A' {
        (&target[..len - 1], &target[len - 1..])
    } else {
        (target, b"")
    }
}

/// The graph of a certificate of a table, or a comment that it has no automaton. Of finite automata reduction the first
/// automaton is drawn, from which and the table the second one follows; of counted automata the left and the right one.
pub(crate) fn graph_of(
    alloc: Global,
    t: &Table,
    certificate: &Certificate,
) -> Result<Vec<u8>, NoMemory> {
    let mut edges = Vec::new(alloc);
    match certificate {
        Certificate::Far(e) => append_automaton("", &far_targets(alloc, e)?, &mut edges)?,
        Certificate::Listed(e) => append_automaton("", &part_cells(alloc, e.delta())?, &mut edges)?,
        Certificate::Counted(e) => append_both(alloc, e, &mut edges)?,
        Certificate::Halts(_)
        | Certificate::Cycle(_)
        | Certificate::Translated(_)
        | Certificate::Backward(_)
        | Certificate::Ngram(_)
        | Certificate::Rules(_)
        | Certificate::Named(_)
        | Certificate::Undecided => return no_graph(alloc, t, certificate.letter()),
    }
    named_graph(alloc, t, &edges)
}

fn append_both(alloc: Global, e: &CountedCosets, out: &mut Vec<u8>) -> Result<(), NoMemory> {
    let mut text = Vec::new(alloc);
    e.append_fields(&mut text)?;
    let fields = CountedFields::of(&text);
    append_automaton("left_", &part_cells(alloc, fields.left)?, out)?;
    append_automaton("right_", &part_cells(alloc, fields.right)?, out)
}

// A graph has a table's text as its name.
fn named_graph(alloc: Global, t: &Table, edges: &[u8]) -> Result<Vec<u8>, NoMemory> {
    let mut graph = Vec::from_slice(alloc, b"digraph \"")?;
    append_table(t, &mut graph)?;
    graph.extend_from_slice(b"\" {\n")?;
    graph.extend_from_slice(edges)?;
    graph.extend_from_slice(b"}")?;
    Ok(graph)
}

// A record without automata is told in a comment, with the letter of its kind.
fn no_graph(alloc: Global, t: &Table, kind: &[u8]) -> Result<Vec<u8>, NoMemory> {
    let mut comment = Vec::from_slice(alloc, b"// ")?;
    append_table(t, &mut comment)?;
    comment.extend_from_slice(b" ")?;
    comment.extend_from_slice(kind)?;
    comment.extend_from_slice(b": no automaton")?;
    Ok(comment)
}

/// Reads a record a line and prints its automata in the language of Graphviz: a graph each, or a comment where a record has
/// none or is refused. Where that ends early, what was printed is what is said to the first lines, in full unless a stream
/// failed.
pub fn explain_dot_for<R: Read, W: Write>(
    alloc: Global,
    input: &mut R,
    answers: &mut W,
) -> Result<Outcome, Ended>
    ensures ok { IfOk result (AnswersStream SaysDrawn (R.remaining input.old) (R.remaining input.new)
        (W.contents answers.old) (W.contents answers.new)) }
    ensures first { IfErr result (WritesFirst (AnswersFirst SaysDrawn (R.remaining input.old)
        (R.remaining input.new)) (W.contents answers.old) (W.contents answers.new)) }
    ensures err { IfErr result (λ e. (e ≡ Ended.NoMemory) ⊎ (e ≡ Ended.Stream)) }
{
    let (outcome, _) = say_lines(alloc, Drawer { alloc }, PIECE_BYTES, input, answers)?;
    Ok(outcome)
}

#[derive(Drop)]
struct Drawer {
    alloc: Global,
}

impl Sayer for Drawer {
    ghost use Rattle.std.specs.Prelude.{◌≡◌};
    ghost use Rattle.cmd_options.specs.declared.ended.Ended.TheVariants.{NoMemory as WantsMemory};
    ghost use Rattle.cmd_explain.specs.Explained.{SaysDrawn};
    ghost use Rattle.cmd_lines.specs.Terms.{SaysAnswer};

    ghost takes = { SaysAnswer SaysDrawn };

    ghost ends = { λ e. e ≡ WantsMemory };

    fn take_line(&mut self, line: Option<&[u8]>, said: &mut Vec<u8>) -> Result<Outcome, Ended> {
        Ok(draw_line(self.alloc, line, said)?)
    }
}

// Appends what is drawn of a line, which is none where it was too long, with a newline.
fn draw_line(alloc: Global, line: Option<&[u8]>, out: &mut Vec<u8>) -> Result<Outcome, NoMemory>
    ensures { IfOk result (λ o. (answer : List ℕ) × SaysDrawn (lent line.entry) o answer
        × (out.new.items ≡ out.old.items ++ answer ++ 10 ∷ [])) }
{
    let outcome = draw_read(alloc, &read_line(line), out)?;
    out.push(b'\n')?;
    Ok(outcome)
}

// Appends what is drawn of what was read.
fn draw_read(
    alloc: Global,
    read: &Result<Record<'_>, RecordFault>,
    out: &mut Vec<u8>,
) -> Result<Outcome, NoMemory>
    ensures { IfOk result (λ o. (first drawn : List ℕ) × Answers (read_as read.now) o first × IsDrawn o first drawn
        × (out.new.items ≡ out.old.items ++ drawn)) }
{
    match read {
        Ok(record) => draw_record(alloc, record, out),
        Err(fault) => {
            append_fault_comment(*fault, out)?;
            Ok(Outcome::Refused)
        }
    }
}

// Appends a fault as a comment.
fn append_fault_comment(fault: RecordFault, out: &mut Vec<u8>) -> Result<(), NoMemory>
    ensures { OnOk result (out.new.items ≡ out.old.items ++ comment (fault_text fault)) }
{
    out.extend_from_slice(b"// ")?;
    append_fault(fault, out)
}

// Appends what is drawn of a record.
fn draw_record(alloc: Global, r: &Record, out: &mut Vec<u8>) -> Result<Outcome, NoMemory>
    ensures { IfOk result (λ o. (first drawn : List ℕ) × AnswersRecord (recorded r.now) o first × IsDrawn o first drawn
        × (out.new.items ≡ out.old.items ++ drawn)) }
{
    let mut first = Vec::new(alloc);
    let Some(_) = answer_record(alloc, r, &mut first)? else {
        append_comment(&first, out)?;
        return Ok(Outcome::Refused);
    };
    let graph = graph_of(alloc, &r.table, &r.certificate)?;
    out.extend_from_slice(&graph)?;
    Ok(Outcome::Accepted)
}

// Appends a text as a comment.
fn append_comment(text: &[u8], out: &mut Vec<u8>) -> Result<(), NoMemory>
    ensures { OnOk result (out.new.items ≡ out.old.items ++ comment text.now) }
{
    out.extend_from_slice(b"// ")?;
    out.extend_from_slice(text)
}
