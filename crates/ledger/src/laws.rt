// What is true of all ledgers: laws over the definitions, each the contract of a function without a body.
ghost use Rattle.std.specs.Prelude.{◌≡◌, ◌↔◌, ◌⊎◌, ℕ, List, [], ◌∷◌, ◌++◌, take, Option, Some, Result, Ok, IsSome};
ghost use Rattle.machine_text.specs.Terms.{Packed, IsTable, entry_of};
ghost use Rattle.law_turing.specs.Terms.{HaltsAt, Never};
ghost use Rattle.law_tree.specs.Terms.{Scores, IsComplete, InTableTree};
ghost use Rattle.kind_evidence.specs.declared.verdicts.Ending.TheVariants.{Halts};
ghost use Rattle.cert.specs.Terms.{Recorded, ending_by, with_score};
ghost use Rattle.ledger.specs.declared.loading.Left.{Left as LeftOver};
ghost use Rattle.ledger.specs.declared.loading.Left.TheVariants.{Nothing, From};
ghost use Rattle.ledger.specs.declared.loading.Unkept.{Unkept as WhyUnkept};
ghost use Rattle.ledger.specs.declared.faults.Taken.{Taken as Answer};
ghost use Rattle.ledger.specs.declared.faults.OfferFault.{OfferFault as Fault};
ghost use Rattle.ledger.specs.Offers.{OfferGives};
ghost use Rattle.ledger.specs.Records.{claim_in, mark_in, Contents, IsBoard, IsBoardOf};
ghost use Rattle.ledger.specs.Merging.{IsMerged};
ghost use Rattle.ledger.specs.Tally.{AreAll, HaltsAfter, HasOnes, IsChampion, IsNeverHalting, IsOnesChampion, IsTally, IsTreeTally, IsTreeChampion, IsTreeOnesChampion};
ghost use Rattle.ledger.specs.declared.counts.Tally.{Tally as Counted};
ghost use Rattle.ledger.specs.LedgerText.{ledger_line, ledger_record, HasHeader, IsLedgerOf, IsTaken, ReadsAs, ReadsIn, ledger_text};
ghost use Rattle.ledger.specs.declared.header.Format.TheVariants.{One, Two};
ghost use Rattle.ledger.specs.Lists.{AreKept, Offer, AreOffered, answered, held as held_of, BeginsToOverflow, ReadsAsFirst, IsLongest};

/// After any list of offers to an empty board its records are those held of the fit ones among the offered
/// records, except for those for which memory was refused, and for some whose check may overflow.
pub fn offers_are_held()
    ensures { (root : Packed) (offers : List Offer) (rs : List Recorded) → IsTable root → AreOffered root [] offers rs →
        (kept : List Recorded) × AreKept root [] (answered offers) kept × (rs ≡ held_of kept) }
{}

/// Where an offer is answered `Ok`, the record's table has a record on the board then.
pub fn answered_records_are_held()
    ensures { (root : Packed) (old new : List Recorded) (r : Recorded) (taken : Answer) →
        OfferGives root old r (Ok taken) new → IsSome (claim_in new r.table) }
{}

/// A line that reads in both versions reads as the same record, which doesn't say that its table halts: so no line of a
/// record that does stands in ledgers of both.
pub fn versions_read_apart()
    ensures { (line : List ℕ) (r other : Recorded) → ledger_record One line ≡ Ok r → ledger_record Two line ≡ Ok other →
        (r ≡ other) × ((k : ℕ) → ending_by r.claim ≡ Some (Halts k) → ⊥) }
{}

/// The ledger that is written of a board reads in version 2 as its records, and every byte of it is kept.
pub fn ledgers_load_whole()
    ensures { (root : Packed) (rs : List Recorded) → IsBoardOf root rs
        → ReadsIn Two root (ledger_text root rs) rs Nothing }
{}

/// A text reads as one root only, in one version, and as one list of records, unless one of two readings ends before a
/// record whose check may overflow.
pub fn ledgers_read_as_one()
    ensures records { (root other : Packed) (text : List ℕ) (rs others : List Recorded) (left more : LeftOver)
        → IsTable root →
        (reads : ReadsAs root text rs left) → (same : ReadsAs other text others more) → (root ≡ other)
        × ((rs ≡ others) ⊎ (BeginsToOverflow reads.header.format reads.keeps.rest
        ⊎ BeginsToOverflow same.header.format same.keeps.rest)) }
    ensures version { (root other : Packed) (text : List ℕ) (rs others : List Recorded) (left more : LeftOver) →
        (reads : ReadsAs root text rs left) → (same : ReadsAs other text others more)
        → reads.header.format ≡ same.header.format }
{}

/// The lines of a text that are kept are the longest list of whole lines behind its header of which each
/// reads as a record that is fit in its turn, unless the check of the next one may overflow.
pub fn ledgers_read_longest()
    ensures { (root : Packed) (text : List ℕ) (rs : List Recorded) (left : LeftOver) → IsTable root →
        (reads : ReadsAs root text rs left) → IsLongest reads.header.format root reads.body reads.keeps.lines rs }
{}

/// A ledger of a board, all its bytes kept, with the line of one more record behind it, in its version, reads as the
/// records that there are once that is taken.
pub fn ledgers_grow()
    ensures { (b : Contents) (text : List ℕ) (r : Recorded) (new : List Recorded) → IsBoard b → IsLedgerOf b text →
        IsTaken b.root b.records r new → ReadsIn b.format b.root
        (text ++ (ledger_line b.format (with_score r) ++ (10 ∷ []))) new Nothing }
{}

/// The bytes that are kept of a text read as the same records in the same version, and all of them are kept.
pub fn kept_bytes_load()
    ensures { (root : Packed) (text : List ℕ) (rs : List Recorded) (line kept : ℕ) (why : WhyUnkept) →
        (reads : ReadsAs root text rs (From line kept why))
        → ReadsIn reads.header.format root (take kept text) rs Nothing }
{}

/// A beginning of a text that reads as records, cut anywhere behind its header, reads as the records of the
/// first of its lines.
pub fn beginnings_load()
    ensures { (root : Packed) (text start tail body : List ℕ) (rs : List Recorded) (left : LeftOver) →
        (reads : ReadsAs root text rs left) → text ≡ start ++ tail → HasHeader start root body →
        ReadsAsFirst root start reads.keeps.lines }
{}

/// Merged in either order, two lists of records say the same of each table: the same verdict, that it is a
/// holdout, or nothing. So the same tables are open.
pub fn merges_agree()
    ensures { (a b first second : List Recorded) (t : Packed) → IsMerged a b first → IsMerged b a second
        → mark_in first t ≡ mark_in second t }
{}

/// Complete is final: no offer changes the records of a complete board.
pub fn complete_is_final()
    ensures { (root : Packed) (old new : List Recorded) (r : Recorded) (answer : Result Answer Fault)
        → IsComplete root (mark_in old) →
        OfferGives root old r answer new → new ≡ old }
{}

/// A complete board holds the tree of its root: recorded as halting are the tables of the tree that halt, with
/// their numbers of steps and their scores, and as never halting those that never do. So its tally and its champions are
/// those of the tree.
pub fn complete_boards_hold_the_tree()
    ensures halting { (b : Contents) (t : Packed) (k : ℕ) → IsBoard b → IsComplete b.root (mark_in b.records) →
        HaltsAfter b.records k t ↔ (InTableTree b.root t × HaltsAt (entry_of t) k) }
    ensures never { (b : Contents) (t : Packed) → IsBoard b → IsComplete b.root (mark_in b.records) →
        IsNeverHalting b.records t ↔ (InTableTree b.root t × Never (entry_of t)) }
    ensures tally { (b : Contents) (tally : Counted) → IsBoard b → IsComplete b.root (mark_in b.records) →
        IsTally b.root b.records tally → IsTreeTally b.root tally }
    ensures champions { (b : Contents) (best : Option ℕ) (tables : List Packed) → IsBoard b
        → IsComplete b.root (mark_in b.records) →
        AreAll (IsChampion b.records best) tables → AreAll (IsTreeChampion b.root best) tables }
    ensures scores { (b : Contents) (t : Packed) (s : ℕ) → IsBoard b → IsComplete b.root (mark_in b.records) →
        HasOnes b.records s t ↔ (InTableTree b.root t × Scores (entry_of t) s) }
    ensures ones_champions { (b : Contents) (ones : Option ℕ) (tables : List Packed) → IsBoard b
        → IsComplete b.root (mark_in b.records) →
        AreAll (IsOnesChampion b.records ones) tables → AreAll (IsTreeOnesChampion b.root ones) tables }
{}

/// A tree has one tally, and one list of its champions by steps and of those by scores.
pub fn trees_are_told_once()
    ensures tally { (root : Packed) (a b : Counted) → IsTreeTally root a → IsTreeTally root b → a ≡ b }
    ensures champions { (root : Packed) (best : Option ℕ) (xs ys : List Packed) →
        AreAll (IsTreeChampion root best) xs → AreAll (IsTreeChampion root best) ys → xs ≡ ys }
    ensures ones_champions { (root : Packed) (ones : Option ℕ) (xs ys : List Packed) →
        AreAll (IsTreeOnesChampion root ones) xs → AreAll (IsTreeOnesChampion root ones) ys → xs ≡ ys }
{}
