// The normal form of a table by its run: mirrored, or with other names of states.
ghost use Rattle.std.specs.Prelude.{◌≡◌, ℕ, ◌<◌, ◌≤◌, Some, None, IfSome, ◌↔◌, suc, min, IfOk, IfNone};
ghost use Rattle.machine_text.specs.declared.table.Sym.{Sym as Symbol};
ghost use Rattle.machine_text.specs.Terms.{entry_of};
ghost use Rattle.law_turing.specs.Terms.{opposite, start, HaltsWith};
ghost use Rattle.cmd_lines.specs.inside.{FitsForm, changed, lowered, raised, put_entry};
ghost use Rattle.run.specs.Terms.{run_step_limit};
ghost use Rattle.cmd_lines.specs.Listed.{ComesFirstTo, IsInNormalForm, IsNormalForm, StaysBelow, facing_right};

use machine_text::{Dir, Entry, State, Sym, Table};
use run::{MAX_RUN_STEPS, NoMemory, Runner, Step};
use std::alloc::Global;

// What is done to a table.
#[derive(Clone, Copy)]
pub(crate) enum Change {
    // Each move goes the other way.
    Mirrored,
    // The state is named `low`, which isn't above it, and those from there on up to it are named one higher.
    Lowered { low: u8, state: u8 },
}

// The table that a change makes of another.
pub(crate) fn table_changed(t: &Table, change: Change) -> Table
    requires { FitsForm change t.now.states }
    ensures states { result.states ≡ t.now.states }
    ensures entries { (q : ℕ) (s : Symbol) → entry_of result q s ≡ changed change (entry_of t.now) q s }
{
    let mut new = Table::empty(t.states());
    for q in 0..t.states() {
        let state = State(q);
        new = with_entry(&new, state, Sym::Zero, change.entry(t, state, Sym::Zero));
        new = with_entry(&new, state, Sym::One, change.entry(t, state, Sym::One));
    }
    new
}

// The table with an entry at a pair, if there is one.
fn with_entry(t: &Table, q: State, s: Sym, entry: Option<Entry>) -> Table
    requires at { q.0 < t.now.states }
    requires next { IfSome entry (λ e. e.next.0 < t.now.states) }
    ensures states { result.states ≡ t.now.states }
    ensures entries { (p : ℕ) (r : Symbol) → entry_of result p r ≡ put_entry (entry_of t.now) q.0 s entry p r }
{
    match entry {
        Some(e) => t.filled(q, s, e),
        None => *t,
    }
}

impl Change {
    // The entry of the changed table at a pair.
    fn entry(self, t: &Table, q: State, s: Sym) -> Option<Entry>
        requires at { q.0 < t.now.states }
        requires change { FitsForm self t.now.states }
        ensures entry { result ≡ changed self (entry_of t.now) q.0 s }
        ensures next { IfSome result (λ e. e.next.0 < t.now.states) }
    {
        match self {
            Change::Mirrored => {
                let e = t.get(q, s)?;
                Some(Entry {
                    dir: opposite(e.dir),
                    ..e
                })
            }
            Change::Lowered { low, state } => {
                let e = t.get(State(raised(low, state, q.0)), s)?;
                Some(Entry {
                    next: State(lowered(low, state, e.next.0)),
                    ..e
                })
            }
        }
    }
}

fn opposite(dir: Dir) -> Dir
    ensures { result ≡ opposite dir }
{
    match dir {
        Dir::L => Dir::R,
        Dir::R => Dir::L,
    }
}

// The new name of a state, where another one is lowered.
fn lowered(low: u8, state: u8, q: u8) -> u8
    requires { low ≤ state }
    ensures { result ≡ lowered low state q }
{
    if q == state {
        low
    } else if low <= q && q < state {
        q + 1
    } else {
        q
    }
}

// The old name of a state.
fn raised(low: u8, state: u8, q: u8) -> u8
    requires { low ≤ state }
    ensures { result ≡ raised low state q }
{
    if q == low {
        state
    } else if low < q && q <= state {
        q - 1
    } else {
        q
    }
}

/// A table mirrored where its first move is to the left, and its states named in the order in which its run comes to them
/// in at most so many steps, and in `MAX_RUN_STEPS`: the others are the last, in their old order. So it runs as the table
/// does, and is the table itself where that is in this form.
pub fn normal_form(alloc: Global, t: &Table, steps: u64) -> Result<Table, NoMemory>
    ensures form { IfOk result (λ new. IsNormalForm (min steps run_step_limit) t.now new) }
    ensures same { IfOk result (λ new. IsInNormalForm (min steps run_step_limit) t.now → new ≡ t.now) }
    ensures alike { IfOk result (λ new. (k s : ℕ) → HaltsWith (entry_of t.now) k s ↔ HaltsWith (entry_of new) k s) }
{
    let steps = steps.min(MAX_RUN_STEPS);
    let states = t.states();
    let mut form = facing_right(t);
    let mut runner = Runner::new(alloc, form)?;
    for named in 1..states {
        // Opens the invariant of the table.
        let _ = form.states();
        // Each table that is renamed runs from the start: the names are given early in most runs.
        runner.restart(form);
        match first_from(&mut runner, named, steps)? {
            Some(state) => {
                form = table_changed(
                    &form,
                    Change::Lowered {
                        low: named,
                        state: state.0,
                    },
                )
            }
            None => return Ok(form),
        }
    }
    // Opens the invariant of the table: there are no more states to name.
    let _ = form.states();
    Ok(form)
}

// The table, mirrored where its first move is to the left.
fn facing_right(t: &Table) -> Table
    ensures states { result.states ≡ t.now.states }
    ensures entries { (q : ℕ) (s : Symbol) → entry_of result q s ≡ facing_right (entry_of t.now) q s }
{
    // Opens the invariant of the table: it has a first state.
    let _ = t.states();
    match t.get(State(0), Sym::Zero) {
        Some(e) if e.dir == Dir::L => table_changed(t, Change::Mirrored),
        _ => *t,
    }
}

// The first state from `named` on to which a run that begins comes in so many steps, if it comes to one.
fn first_from(runner: &mut Runner, named: u8, steps: u64) -> Result<Option<State>, NoMemory>
    requires begins { runner.old.steps ≡ 0 }
    requires limit { steps ≤ run_step_limit }
    ensures some { IfOk result (λ o. IfSome o (λ q. (named ≤ q.0) × (q.0 < runner.old.table.states)
        × ComesFirstTo (entry_of runner.old.table) steps named q.0)) }
    ensures none { IfOk result (λ o. IfNone o (StaysBelow (entry_of runner.old.table) (suc steps) named)) }
{
    // Opens the invariant of the runner.
    let _ = runner.steps();
    'steps: while runner.state().0 < named {
        if runner.steps() >= steps {
            return Ok(None);
        }
        match runner.step()? {
            Step::Went => {}
            Step::Halts { .. } => return Ok(None),
        }
    }
    Ok(Some(runner.state()))
}
