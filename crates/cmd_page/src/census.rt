// How many records there are of each kind, of tables with so many entries, and of tables that halt in so many steps.
ghost use Rattle.std.specs.Prelude.{◌≡◌, ℕ, ◌+◌, ◌-◌, ◌^◌, ◌<◌, ◌==◌, if◌then◌else◌, slice_index, length, IsTrue};
ghost use Rattle.cert.specs.Terms.{claim_of};
ghost use Rattle.cmd_page.specs.Census.{AreMore, entry_count, halts_from, letter_of, reaches};
ghost use Rattle.cmd_page.specs.inside.{IsCensus};

use cert::Certificate;
use cmd_options::Ended;
use cmd_parts::Collector;
use ledger::{Board, Records};
use machine_text::Table;
use std::alloc::Global;

/// Counts the records of a trunk and of each part that counts. There is no one ledger of them.
#[derive(Drop)]
pub struct Counting {
    pub census: Census,
}

impl Collector for Counting {
    ghost use Rattle.std.specs.Prelude.{None};
    ghost use Rattle.cmd_page.specs.Census.{HasCounted};

    ghost text = { λ counting. None };

    ghost counts = { λ counting rs. HasCounted rs counting.census };

    fn begin(&mut self, _alloc: Global, trunk: &Board) -> Result<(), Ended> {
        self.census = Census::new();
        self.census.add(trunk);
        Ok(())
    }

    fn add(&mut self, _alloc: Global, part: &Board) -> Result<(), Ended> {
        self.census.add(part);
        Ok(())
    }
}

/// How many records there are: of each kind, by its letter; of tables with so many entries, by that number; and of tables
/// that halt in 2^k steps or more and in fewer than 2^(k + 1), by k.
#[derive(Drop)]
pub struct Census {
    pub kinds: [u64; 256],
    pub entries: [u64; 15],
    pub steps: [u64; 64],
}

impl Census {
    ghost use Rattle.std.specs.Prelude.{[], ◌++◌, List};
    ghost use Rattle.cert.specs.Terms.{Recorded};
    ghost use Rattle.cmd_page.specs.Census.{HasCounted};

    /// Of no record.
    pub fn new() -> Census
        ensures { HasCounted [] result }
    {
        Census {
            kinds: [0; 256],
            entries: [0; 15],
            steps: [0; 64],
        }
    }

    /// Counts a board's records too. A number that 64 bits don't hold is the greatest that they do.
    pub fn add(&mut self, board: &Board)
        ensures { (rs : List Recorded) → HasCounted rs self.old → HasCounted (rs ++ board.now.records) self.new }
    {
        let more = census_of(board);
        add_up(&mut self.kinds, &more.kinds);
        add_up(&mut self.entries, &more.entries);
        add_up(&mut self.steps, &more.steps);
    }
}

// Adds numbers to others, place by place.
fn add_up(counts: &mut [u64], more: &[u64])
    requires { length more.now ≡ length counts.old }
    ensures length { length counts.new ≡ length counts.old }
    ensures sums { AreMore (length counts.old) counts.old (slice_index more.now) counts.new }
{
    for k in 0..more.len() {
        counts[k] = counts[k].saturating_add(more[k]);
    }
}

// The census of a board's records.
pub(crate) fn census_of(board: &Board) -> Census
    ensures { IsCensus board.now.records result }
{
    // The proof needs how many records there can be.
    let _ = board.tally();
    count_records(board.records())
}

// The census of some records.
fn count_records(records: Records<'_>) -> Census
    requires { length records < 2 ^ 64 }
    ensures { IsCensus records.entry result }
{
    let mut kinds = [0; 256];
    let mut entries = [0; 15];
    let mut steps = [0; 64];
    for r in records {
        count_up(&mut kinds, letter_of(&r.certificate));
        count_up(&mut entries, entry_count(&r.table) as usize);
        count_steps(&mut steps, &r.certificate);
    }
    Census {
        kinds,
        entries,
        steps,
    }
}

// One more at the power of two that a table's steps reach, where it halts.
fn count_steps(counts: &mut [u64], certificate: &Certificate<'_>)
    requires length { length counts.old ≡ 64 }
    requires room { (k : ℕ) → k < 64 → IsTrue (halts_from k (claim_of certificate.now))
        → slice_index counts.old k < 2 ^ 64 - 1 }
    ensures { (k : ℕ) → k < 64 → slice_index counts.new k
        ≡ slice_index counts.old k + (if halts_from k (claim_of certificate.now) then 1 else 0) }
{
    match certificate {
        Certificate::Halts(e) => count_power(counts, e.steps),
        _ => {}
    }
}

// One more at the power of two that a number reaches.
fn count_power(counts: &mut [u64], n: u64)
    requires length { length counts.old ≡ 64 }
    requires room { (k : ℕ) → k < 64 → IsTrue (reaches k n) → slice_index counts.old k < 2 ^ 64 - 1 }
    ensures { (k : ℕ) → k < 64 → slice_index counts.new k
        ≡ slice_index counts.old k + (if reaches k n then 1 else 0) }
{
    match n.checked_ilog2() {
        Some(k) => count_up(counts, k as usize),
        None => {}
    }
}

// One more at a place.
fn count_up(counts: &mut [u64], place: usize)
    requires within { place < length counts.old }
    requires room { slice_index counts.old place < 2 ^ 64 - 1 }
    ensures { (k : ℕ) → slice_index counts.new k ≡ slice_index counts.old k + (if place == k then 1 else 0) }
{
    counts[place] += 1;
}

// The letter of a certificate's kind.
fn letter_of(certificate: &Certificate<'_>) -> usize
    ensures letter { result ≡ letter_of (claim_of certificate.now) }
    ensures byte { result < 256 }
{
    certificate.letter()[0] as usize
}

// How many of a table's pairs have an entry.
#[tactic(auto, using(crate::proofs::PageLaws::entries_and_holes))]
fn entry_count(t: &Table) -> u8
    ensures count { result ≡ entry_count t.now }
    ensures few { result < 15 }
{
    2 * t.states() - t.undefined_count()
}
