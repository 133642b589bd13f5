// `bb walk`: a tree is walked, and its report written.
ghost use Rattle.std.specs.Prelude.{◌≡◌, ◌≤◌, ℕ, List, [], Option, Result, IfOk, IfErr};
ghost use Rattle.machine_text.specs.Terms.{state_limit, empty_table};
ghost use Rattle.cmd_options.specs.Terms.{EndsTold};
ghost use Rattle.cmd_options.specs.declared.ended.Ended.{Ended as Ends};
ghost use Rattle.cmd_options.specs.declared.ended.Outcome.{Outcome as Outcomes};
ghost use Rattle.cmd_ledgers.specs.Terms.{TellsTree};
ghost use Rattle.cmd_parts.specs.Settle.{IsWalkedBoard, TellsWalk, WalksTree};
ghost use Rattle.cmd_parts.specs.inside.{IsOfAnswers, IsToldOfWalk};

use cert::Decider;
use cmd_ledgers::{ReportForm, Told, outcome_by, write_told};
use cmd_options::{Ended, Outcome, told};
use files::Progress;
use kind_evidence::NoMemory;
use ledger::{BoardFault, Left};
use machine_text::Table;
use std::alloc::Global;
use std::io::Write;
use totals::Walk;

// So many tables are walked before it is told how far it is.
const TABLES_BETWEEN: u64 = 1_024;

/// Walks the tree of a root to its end, asks the decider for each table, once, and prints the report in a form: that of a
/// board which would hold all its records, on which no table is open. Accepted where that board is complete. What ends the
/// command early is said on `faults`: a root that doesn't name its states in order, refused memory, which a number that
/// would need more than 64 bits is too, and a stream that failed.
#[tactic(auto, using(cmd_ledgers::proofs::TreeReports::tells))]
pub fn cmd_walk<P: ReportForm, D: Decider, T: Progress, W: Write, E: Write>(
    alloc: Global,
    form: &P,
    root: Table,
    decider: &mut D,
    progress: &mut T,
    answers: &mut W,
    faults: &mut E,
) -> Outcome
    // Of the tree of n states, as `bb run` does.
    ensures tells { (n : ℕ) → 1 ≤ n → n ≤ state_limit → root ≡ empty_table n →
        TellsTree (P.is_text form.now) n (IsWalkedBoard D D.answers) (W.contents answers.old) (W.contents answers.new)
        result }
    // Of the tree below any table.
    ensures below { TellsWalk (P.is_text form.now) root (IsWalkedBoard D D.answers) (W.contents answers.old)
        (W.contents answers.new) result }
    ensures ends { (ended : Result Outcomes Ends) × (said : Option (List ℕ))
        × WalksTree (P.is_text form.now) root (IsWalkedBoard D D.answers) (W.contents answers.old)
        (W.contents answers.new) ended
        × EndsTold ended said (E.contents faults.new) result }
{
    told(
        walk_tree(alloc, form, root, decider, progress, answers),
        faults,
    )
}

// Walks as `cmd_walk` does, but answers what ends it early, and doesn't say it.
fn walk_tree<P: ReportForm, D: Decider, T: Progress, W: Write>(
    alloc: Global,
    form: &P,
    root: Table,
    decider: &mut D,
    progress: &mut T,
    answers: &mut W,
) -> Result<Outcome, Ended>
    ensures { WalksTree (P.is_text form.now) root (IsWalkedBoard D D.answers) (W.contents answers.old)
        (W.contents answers.new) result }
{
    let walk = walked(alloc, root, decider, progress)?;
    let told = told_of(&walk)?;
    let status = walk.status();
    write_told(alloc, form, told, &Left::Nothing, answers)?;
    Ok(outcome_by(status, &Left::Nothing))
}

// The walk of the tree of a root, at its end: no table is ahead. More tables than 64 bits count are refused memory.
fn walked<D: Decider, T: Progress>(
    alloc: Global,
    root: Table,
    decider: &mut D,
    progress: &mut T,
) -> Result<Walk, Ended>
    ensures answers { IfOk result (IsOfAnswers D D.answers root) }
    ensures done { IfOk result (λ walk. walk.ahead ≡ []) }
{
    let mut walk = match Walk::new(alloc, root) {
        Ok(walk) => walk,
        Err(BoardFault::NotInOrder) => return Err(Ended::WrongRoot),
        Err(_) => return Err(Ended::NoMemory),
    };
    for _ in 0..u64::MAX {
        if walk.is_done() {
            return Ok(walk);
        }
        walk.walk(decider, TABLES_BETWEEN)?;
        progress.tell_walk(walk.root(), walk.ahead(), &walk.tally());
    }
    Err(Ended::NoMemory)
}

// What a report tells of a walk.
fn told_of(walk: &Walk) -> Result<Told, NoMemory>
    ensures { IfOk result (IsToldOfWalk walk.now) }
{
    let (champions, ones_champions, holdouts) = walk.champions_and_holdouts()?;
    Ok(Told {
        root: *walk.root(),
        status: walk.status(),
        tally: walk.tally(),
        champions,
        ones_champions,
        holdouts,
    })
}
