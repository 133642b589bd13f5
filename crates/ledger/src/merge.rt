// Two boards of one root, joined, and offers with the line that a ledger gains by them.
ghost use Rattle.std.specs.Prelude.{◌≡◌};
ghost use Rattle.cert.specs.Terms.{IsShownBy, recorded};
ghost use Rattle.ledger.specs.LedgerText.{OffersLine};
ghost use Rattle.ledger.specs.Offers.{IsJudged, KeepsTree};
ghost use Rattle.ledger.specs.inside.Waiting.{IsFooting, IsJudgedSo};
ghost use Rattle.ledger.specs.Merging.{MergeGives};

use crate::board::Board;
use crate::faults::{MergeFault, OfferFault, Taken};
use crate::lines::append_scored;
use crate::places::Footing;
use crate::stored_record::{Judging, judged_as};
use cert::{Judged, Record, standing_claims_are_true};
use law_tree::{child_is_table, one_true_verdict};

impl Board {
    /// Offers a record as `offer` does; where it is taken, its line in the board's version is appended, with its newline:
    /// with the score in version 2, whether the record came with it or not. The line is there before the board changes, so
    /// nothing is refused once it has. Else `out` is as it was.
    pub fn offer_line(&mut self, r: &Record, out: &mut Vec<u8>) -> Result<Taken, OfferFault>
        ensures { OffersLine (recorded r.now) result self.old out.old.items self.new out.new.items }
    {
        self.put_line(r, Judging::Due, out)
    }

    /// Offers a record that was judged, as a decider answers it with what it shows, as `offer_line` does: nothing is run
    /// again.
    pub fn offer_judged_line(
        &mut self,
        r: &Record,
        judged: Judged,
        out: &mut Vec<u8>,
    ) -> Result<Taken, OfferFault>
        requires { IsShownBy (recorded r.now) judged }
        ensures { OffersLine (recorded r.now) result self.old out.old.items self.new out.new.items }
    {
        self.put_line(r, Judging::Seen(judged), out)
    }

    // Offers a record and appends its line, by whether the record is yet to be judged.
    fn put_line(
        &mut self,
        r: &Record,
        judging: Judging,
        out: &mut Vec<u8>,
    ) -> Result<Taken, OfferFault>
        requires { IsJudgedSo judging (recorded r.now) }
        ensures { OffersLine (recorded r.now) result self.old out.old.items self.new out.new.items }
    {
        if r.table.states() != self.root().states() {
            return Err(OfferFault::WrongSize);
        }
        match self.footing(r) {
            Footing::Known => Ok(Taken::Known),
            Footing::Elsewhere => Err(OfferFault::NotOpen),
            footing @ Footing::Waiting(_) => {
                let judged = judged_as(self.alloc(), r, judging)?;
                self.put_judged(footing, r, judged, out)
            }
        }
    }

    // Offers a record that is judged and stands there, and appends its line.
    fn put_judged(
        &mut self,
        footing: Footing,
        r: &Record,
        judged: Judged,
        out: &mut Vec<u8>,
    ) -> Result<Taken, OfferFault>
        requires due { IsJudged self.old.root self.old.records (recorded r.now) }
        requires size { r.now.table.states ≡ self.old.root.states }
        requires footing { IsFooting self.old.root self.old.records (recorded r.now) footing }
        requires judged { IsJudgedSo (Judging.Seen judged) (recorded r.now) }
        ensures { OffersLine (recorded r.now) result self.old out.old.items self.new out.new.items }
    {
        let len = out.len();
        let Ok(()) = append_scored(self.version(), r, judged.verdict, out) else {
            out.truncate(len);
            return Err(OfferFault::NoMemory);
        };
        let answer = self.put_at(footing, r, Judging::Seen(judged));
        match answer {
            Ok(Taken::New | Taken::Settled) => {}
            Ok(Taken::Known) | Err(_) => out.truncate(len),
        }
        answer
    }
}

impl Board {
    /// Offers the records of another board, in their order. Then the tables with a verdict are those of
    /// either board, with the same verdict; the holdouts are those of either board that have a verdict in
    /// neither. So it doesn't matter for these which of two boards is merged into the other. A complete board
    /// stays as it is.
    ///
    /// `WrongRoot` where the roots differ; then nothing has changed. `NoMemory` where memory was refused;
    /// then a beginning of the other's records was offered, and the same call may be repeated.
    pub fn merge(&mut self, other: &Board) -> Result<(), MergeFault>
        ensures gives { MergeGives self.old other.now result self.new }
        ensures kept { KeepsTree self.old self.new }
    {
        child_is_table();
        standing_claims_are_true();
        one_true_verdict();
        if *self.root() != *other.root() {
            return Err(MergeFault::WrongRoot);
        }
        for r in other.records() {
            // the other board holds it, so it is certified
            if let Err(fault) = self.offer_certified(&r) {
                match fault {
                    OfferFault::NoMemory => return Err(MergeFault::NoMemory),
                    // its certificate stood there, and its parent is recorded here by now
                    _ => unreachable!(),
                }
            }
        }
        Ok(())
    }
}
