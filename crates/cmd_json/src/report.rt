// The report of a board as JSON, and the values of which it is made.
ghost use Rattle.std.specs.Prelude.{◌≡◌, IfOk, codes, ◌++◌, List, ℕ, ◌≤◌, OnOk, OnErr};
ghost use Rattle.std.specs.Vec.Iter.{into_iter_items};
ghost use Rattle.serde_json.specs.View.{view};
ghost use Rattle.cmd_ledgers.specs.Terms.{status_name, IsToldOf};
ghost use Rattle.cmd_json.specs.Forms.{greatest_value, table_value, tables_value, object_of, report_value, IsJsonReport, IsTreeJson, JsonTellsRado};
ghost use Rattle.machine_text.specs.Terms.{state_limit, Packed, empty_table};
ghost use Rattle.law_tree.specs.Terms.{IsComplete};
ghost use Rattle.cert.specs.Terms.{Recorded};
ghost use Rattle.ledger.specs.Terms.{mark_in};

use cmd_ledgers::{Told, status_name};
use kind_evidence::NoMemory;
use ledger::{Board, Champions, Holdouts, Status, Tally};
use machine_text::{TEXT_BYTES, Table};
use serde_json::{Value, json};
use std::alloc::Global;
use std::vec::IntoIter;

// The object that is reported.
pub(crate) fn report_value(
    alloc: Global,
    root: &Table,
    status: Status,
    tally: &Tally,
    champions: Champions,
    ones_champions: Champions,
    holdouts: Holdouts,
) -> Result<Value, NoMemory>
    ensures { IfOk result (λ report. view report
        ≡ report_value root.now (status_name status) tally.now (into_iter_items champions)
        (into_iter_items ones_champions) (into_iter_items holdouts)) }
{
    let mut champions = tables_value(alloc, champions)?;
    let mut ones_champions = tables_value(alloc, ones_champions)?;
    let mut holdouts = tables_value(alloc, holdouts)?;
    let mut root = table_value(alloc, root)?;
    object_of(
        alloc,
        &mut root,
        status,
        tally,
        &mut champions,
        &mut ones_champions,
        &mut holdouts,
    )
}

// Makes an object of values that are taken out of their places, so that where memory is refused the object alone
// is let go, and not what isn't in it yet.
fn object_of(
    alloc: Global,
    root: &mut Value,
    status: Status,
    tally: &Tally,
    champions: &mut Value,
    ones_champions: &mut Value,
    holdouts: &mut Value,
) -> Result<Value, NoMemory>
    ensures { IfOk result (λ report. view report
        ≡ object_of (view root.old) (status_name status) tally.now (view champions.old) (view ones_champions.old)
        (view holdouts.old)) }
{
    json!(in alloc; {
        "best": greatest_value(tally.best),
        "champions": champions.take(),
        "halting": tally.halting,
        "holdout_tables": holdouts.take(),
        "holdouts": tally.holdouts,
        "never": tally.never,
        "nodes": tally.nodes,
        "ones": greatest_value(tally.ones),
        "ones_champions": ones_champions.take(),
        "open": tally.open_count,
        "root": root.take(),
        "status": status_name(status)
    })
}

// The texts of tables, in their order.
fn tables_value(alloc: Global, tables: IntoIter<Table>) -> Result<Value, NoMemory>
    ensures { IfOk result (λ texts. view texts ≡ tables_value (into_iter_items tables)) }
{
    let mut texts = Vec::new(alloc);
    for table in tables {
        texts.push(table_value(alloc, &table)?)?;
    }
    Ok(Value::Array(texts))
}

// The text of a table.
#[tactic(auto, using(crate::proofs::JsonAnswers::text_is_utf8))]
fn table_value(alloc: Global, t: &Table) -> Result<Value, NoMemory>
    ensures { IfOk result (λ text. view text ≡ table_value t.now) }
{
    let mut buf = [0; TEXT_BYTES];
    // Nothing is lost: the text of a table is ASCII. The proof needs that it is a table.
    let _ = t.states();
    let text = String::from_utf8_lossy(alloc, t.text(&mut buf))?;
    Ok(Value::from(text))
}

// A greatest number, or null.
fn greatest_value(greatest: Option<u64>) -> Value
    ensures { view result ≡ greatest_value greatest }
{
    match greatest {
        Some(greatest) => Value::from(greatest),
        None => Value::Null,
    }
}

/// Appends the report of a board as one JSON object, without a space and with its members in the order of
/// their names, and a newline. `best` is the greatest recorded number of steps, or null, and `ones` the greatest recorded
/// score, or null; `champions`, `ones_champions` and `holdout_tables` are in the order of their texts. The text of a
/// complete board is a function of its root alone; where that root is the empty table of n states, `best` is S(n) and
/// `ones` is Σ(n) (Radó 1962). Where memory is refused, `out` is as it was.
pub fn report_json(alloc: Global, board: &Board, out: &mut Vec<u8>) -> Result<(), NoMemory>
    ensures ok { OnOk result ((text : List ℕ) × IsJsonReport board.now.root board.now.records text
        × (out.new.items ≡ out.old.items ++ text)) }
    ensures complete { OnOk result (IsComplete board.now.root (mark_in board.now.records) →
        (text : List ℕ) × IsTreeJson board.now.root text × (out.new.items ≡ out.old.items ++ text)) }
    ensures rado { OnOk result (IsComplete board.now.root (mark_in board.now.records) → (n : ℕ) → 1 ≤ n
        → n ≤ state_limit →
        board.now.root ≡ empty_table n → (text : List ℕ) × JsonTellsRado n text
        × (out.new.items ≡ out.old.items ++ text)) }
    ensures err { OnErr result (out.new.items ≡ out.old.items) }
{
    // The proof needs that it is a board.
    let _ = board.root();
    let text = report_text(alloc, board)?;
    out.extend_from_slice(&text)
}

// The text of the report.
fn report_text(alloc: Global, board: &Board) -> Result<Vec<u8>, NoMemory>
    ensures { IfOk result (λ text. IsJsonReport board.now.root board.now.records text.items) }
{
    told_text(alloc, Told::of(board)?)
}

// The text of the report of what is told.
pub(crate) fn told_text(alloc: Global, told: Told) -> Result<Vec<u8>, NoMemory>
    ensures { IfOk result (λ text. (root : Packed) (rs : List Recorded) → IsToldOf root rs told
        → IsJsonReport root rs text.items) }
{
    let Told {
        root,
        status,
        tally,
        champions,
        ones_champions,
        holdouts,
    } = told;
    let report = report_value(
        alloc,
        &root,
        status,
        &tally,
        champions,
        ones_champions,
        holdouts,
    )?;
    let mut text = report.to_vec(alloc)?;
    text.push(b'\n')?;
    Ok(text)
}
