// The paths of each depth, counted, unless there are more than backward reasoning goes through.
ghost use Rattle.std.specs.Prelude.{◌≡◌, ◌+◌, ◌-◌, ◌*◌, ◌<◌, ◌≤◌, ℕ, length, slice_index, slice_index_or, vec_len, IfOk, OnOk, OnErr, None};
ghost use Rattle.machine_text.specs.Terms.{IsTable};
ghost use Rattle.backward.specs.Limits.{depth_limit};
ghost use Rattle.backward.specs.inside.{known_about, HasRoom, CountsOn, Exceeds, AreWidths, HasTooMany, Counted};

use crate::chains::{Chains, pair_at, place_before};
use crate::limits::MAX_PATHS;
use machine_text::{State, Sym, Table};
use std::alloc::Global;
use tape::NoMemory;

/// Some depth has more than `MAX_PATHS` paths.
#[derive(Clone, Copy, Debug, PartialEq, Eq)]
pub(crate) struct TooWide;

// Depths to which the paths are counted first, where half as far again is asked for. Each path is followed to the
// last depth before the next one is looked at, so a depth that is too wide would be found late.
const FIRST_DEPTHS: [u64; 4] = [16, 64, 256, 512];

/// Counts the paths of a table, depth by depth. Its memory is kept for the next table.
#[derive(Drop)]
pub(crate) struct PathCounter {
    // What is known of the cells about the head, for the one path that is being followed.
    cells: Vec<Option<Sym>>,
    /// The number of paths of each depth, from depth 0 on.
    pub counts: Vec<u64>,
}

impl PathCounter {
    /// A counter without counts.
    pub fn new(alloc: Global) -> PathCounter
        ensures { vec_len result.counts ≡ 0 }
    {
        PathCounter {
            cells: Vec::new(alloc),
            counts: Vec::new(alloc),
        }
    }

    /// Counts the paths of the depths 0 to `depth`, unless one of these has more than `MAX_PATHS`.
    pub fn count(&mut self, table: &Table, depth: u64) -> Result<Result<(), TooWide>, NoMemory>
        requires { depth ≤ depth_limit }
        ensures counted { IfOk result (λ counted. Counted table.now depth counted self.new.counts.items) }
        ensures table { IfOk result (λ _. IsTable table.now) }
    {
        let chains = Chains::of(table);
        for first in FIRST_DEPTHS {
            if first + first / 2 <= depth && self.count_once(&chains, first)?.is_err() {
                return Ok(Err(TooWide));
            }
        }
        self.count_once(&chains, depth)
    }

    // Counts the paths of the depths up to one, with no look at lesser depths first.
    fn count_once(&mut self, chains: &Chains, depth: u64) -> Result<Result<(), TooWide>, NoMemory>
        requires { depth ≤ depth_limit }
        ensures counted { IfOk result (λ counted. Counted chains.now depth counted self.new.counts.items) }
        ensures table { IfOk result (λ _. IsTable chains.now) }
    {
        let depth = depth as usize;
        self.cells.clear();
        self.cells.resize(2 * depth + 1, None)?;
        self.counts.clear();
        self.counts.resize(depth + 1, 0)?;
        Ok(count_all(chains, &mut self.cells, &mut self.counts))
    }
}

// Counts all the paths of a table, as deep as there are counts, which are 0. No cell is known, and there are
// as many on both sides of the middle one as there are depths below 0.
fn count_all(chains: &Chains, cells: &mut [Option<Sym>], counts: &mut [u64]) -> Result<(), TooWide>
    requires some { 0 < length counts.old }
    requires size { length cells.old + 1 ≡ 2 * length counts.old }
    requires unknown { (x : ℕ) → slice_index_or cells.old x None ≡ None }
    requires zeros { (k : ℕ) → slice_index counts.old k ≡ 0 }
    ensures widths { OnOk result (AreWidths chains.now counts.new) }
    ensures wide { OnErr result (HasTooMany chains.now (length counts.old)) }
    ensures table { IsTable chains.now }
{
    let head = counts.len() - 1;
    for place in 0..chains.places() {
        let pair = pair_at(place);
        if chains.table().get(pair.state, pair.symbol).is_some() {
            continue;
        }
        cells[head] = Some(pair.symbol);
        count_on(chains, cells, counts, 0, pair.state, head)?;
    }
    Ok(())
}

// Counts a path that needs these cells about the head, and all the paths that go further back than it, each
// at its depth. After `TooWide` neither the cells nor the counts are as they were.
fn count_on(
    chains: &Chains,
    cells: &mut [Option<Sym>],
    counts: &mut [u64],
    depth: usize,
    state: State,
    head: usize,
) -> Result<(), TooWide>
    requires depth { depth < length counts.old }
    requires state { state.0 < chains.now.states }
    requires room { HasRoom (length cells.old) head (length counts.old - (depth + 1)) }
    ensures cells { OnOk result (cells.new ≡ cells.old) }
    ensures counts { OnOk result
        (CountsOn chains.now depth (known_about cells.old state.0 head) counts.old counts.new) }
    ensures wide { OnErr result (Exceeds chains.now depth (known_about cells.old state.0 head) counts.old) }
{
    if counts[depth] >= MAX_PATHS {
        return Err(TooWide);
    }
    counts[depth] += 1;
    if depth + 1 == counts.len() {
        return Ok(());
    }
    let mut place = chains.first(state);
    'places: while place < chains.places() {
        let pair = pair_at(place);
        place = chains.next(place);
        let Some(earlier) = place_before(pair, chains.table(), cells, state, head) else {
            continue;
        };
        let behind = cells[earlier];
        cells[earlier] = Some(pair.symbol);
        count_on(chains, cells, counts, depth + 1, pair.state, earlier)?;
        cells[earlier] = behind;
    }
    Ok(())
}
