// What is true of all walks, and of all trunks and parts: laws over the definitions, each the contract of a function without a
// body.
ghost use Rattle.std.specs.Prelude.{◌≡◌, ◌≢◌, ◌↔◌, ◌⊎◌, ℕ, List, [], ◌∷◌, ◌++◌, Contains, Option, Some, None};
ghost use Rattle.machine_text.specs.Terms.{Packed, IsTable};
ghost use Rattle.law_tree.specs.Terms.{Mark as WhatIsRecorded, IsOpen, IsClosed, IsComplete, Holdout, InTableTree};
ghost use Rattle.cert.specs.Terms.{Recorded};
ghost use Rattle.ledger.specs.Terms.{mark_in, IsHeld, IsHoldout, Contents, AreAll, IsChampion, IsOnesChampion, IsStatus, IsTally};
ghost use Rattle.ledger.specs.declared.faults.Status.{Status as HowItStands};
ghost use Rattle.ledger.specs.declared.counts.Tally.{Tally as Counted};
ghost use Rattle.totals.specs.Totals.{totals_with, with_part, AreParts, IsPartOf, joined_with, Walked as WhatIsWalked, IsWalked};

/// A walk of the subtree of the table that comes next, put in its place, is one walk, that tells of the records of both: what
/// is ahead of it comes in the table's place, and its totals come to the others.
pub fn walks_are_put_together()
    ensures { (w p : WhatIsWalked) (rs ps : List Recorded) (below : List Packed) →
        IsWalked w rs → w.ahead ≡ below ++ (p.root ∷ []) → IsWalked p ps →
        IsWalked (record { root = w.root; ahead = below ++ p.ahead; totals = totals_with w.totals p.totals })
        (rs ++ ps) }
{}

/// A trunk's records and a part's behind them are held from the trunk's root. Open by both are the tables that are open by
/// the trunk, but for the part's root, and those that are open by the part; recorded is what either records, and no table
/// is recorded by both. So their tally is the sums, but that the part's root is counted as open by the trunk already. A
/// table of the part's tree is closed just where the part says so.
pub fn parts_are_held()
    ensures held { (root r : Packed) (rs ps : List Recorded) → IsTable root → IsHeld root rs → IsPartOf root rs r ps
        → IsHeld root (rs ++ ps) }
    ensures left_open { (root r t : Packed) (rs ps : List Recorded) → IsTable root → IsHeld root rs
        → IsPartOf root rs r ps →
        IsOpen root (mark_in (rs ++ ps)) t ↔ ((IsOpen root (mark_in rs) t × (t ≢ r)) ⊎ IsOpen r (mark_in ps) t) }
    ensures once { (root r t : Packed) (rs ps : List Recorded) → IsTable root → IsHeld root rs → IsPartOf root rs r ps →
        IsOpen root (mark_in rs) t → IsOpen r (mark_in ps) t → t ≡ r }
    ensures marks { (root r t : Packed) (rs ps : List Recorded) (m : WhatIsRecorded) → IsTable root → IsHeld root rs
        → IsPartOf root rs r ps →
        (mark_in (rs ++ ps) t ≡ Some m) ↔ ((mark_in rs t ≡ Some m) ⊎ (mark_in ps t ≡ Some m)) }
    ensures apart { (root r t : Packed) (rs ps : List Recorded) → IsTable root → IsHeld root rs
        → IsPartOf root rs r ps →
        (mark_in rs t ≡ None) ⊎ (mark_in ps t ≡ None) }
    ensures tally { (root r : Packed) (rs ps : List Recorded) (a b : Counted) → IsTable root → IsHeld root rs
        → IsPartOf root rs r ps →
        IsTally root rs a → IsTally r ps b → IsTally root (rs ++ ps) (with_part a b) }
    ensures closed { (root r t : Packed) (rs ps : List Recorded) → IsTable root → IsHeld root rs → IsPartOf root rs r ps
        → InTableTree r t →
        IsClosed root (mark_in (rs ++ ps)) t ↔ IsClosed r (mark_in ps) t }
{}

/// A trunk and any number of parts are held together: recorded is what one of them records, and open is
/// what the trunk leaves open and is no part's root, and what a part leaves open. So where each open table of the trunk is
/// the root of a part, the trunk has no holdout and each part is complete, all together are complete. In whichever order
/// the parts come, all together say the same of each table.
pub fn many_parts_are_held()
    ensures held { (root : Packed) (rs : List Recorded) (parts : List Contents) → IsTable root → IsHeld root rs
        → AreParts root rs parts →
        IsHeld root (joined_with rs parts) }
    ensures marks { (root t : Packed) (rs : List Recorded) (parts : List Contents) (m : WhatIsRecorded) → IsTable root
        → IsHeld root rs → AreParts root rs parts →
        (mark_in (joined_with rs parts) t ≡ Some m)
        ↔ ((mark_in rs t ≡ Some m) ⊎ ((p : Contents) × Contains parts p × (mark_in p.records t ≡ Some m))) }
    ensures left_open { (root t : Packed) (rs : List Recorded) (parts : List Contents) → IsTable root → IsHeld root rs
        → AreParts root rs parts →
        IsOpen root (mark_in (joined_with rs parts)) t
        ↔ ((IsOpen root (mark_in rs) t × ((p : Contents) → Contains parts p → t ≢ p.root))
        ⊎ ((p : Contents) × Contains parts p × IsOpen p.root (mark_in p.records) t)) }
    ensures complete { (root : Packed) (rs : List Recorded) (parts : List Contents) → IsTable root → IsHeld root rs
        → AreParts root rs parts →
        ((t : Packed) → IsOpen root (mark_in rs) t → (p : Contents) × Contains parts p × (t ≡ p.root))
        → ((t : Packed) → IsHoldout rs t → ⊥) →
        ((p : Contents) → Contains parts p → IsComplete p.root (mark_in p.records))
        → IsComplete root (mark_in (joined_with rs parts)) }
    ensures order { (root t : Packed) (rs : List Recorded) (parts others : List Contents) → IsTable root
        → IsHeld root rs → AreParts root rs parts →
        AreParts root rs others → ((p : Contents) → Contains parts p ↔ Contains others p) →
        mark_in (joined_with rs parts) t ≡ mark_in (joined_with rs others) t }
{}

/// Two lists of records that are held from a root and say the same of each table have the same report: the same status, the
/// same tally, and the same champions and holdouts in the same order. So the report of a whole is byte for byte
/// that of any one board that holds all its records, in whichever order they came.
pub fn boards_that_agree_tell_the_same()
    ensures status { (root : Packed) (rs others : List Recorded) (a b : HowItStands) → IsHeld root rs
        → IsHeld root others →
        ((t : Packed) → mark_in rs t ≡ mark_in others t) → IsStatus root rs a → IsStatus root others b → a ≡ b }
    ensures tally { (root : Packed) (rs others : List Recorded) (a b : Counted) → IsHeld root rs → IsHeld root others →
        ((t : Packed) → mark_in rs t ≡ mark_in others t) → IsTally root rs a → IsTally root others b → a ≡ b }
    ensures champions { (rs others : List Recorded) (best : Option ℕ) (xs ys : List Packed) →
        ((t : Packed) → mark_in rs t ≡ mark_in others t) → AreAll (IsChampion rs best) xs
        → AreAll (IsChampion others best) ys → xs ≡ ys }
    ensures ones_champions { (rs others : List Recorded) (ones : Option ℕ) (xs ys : List Packed) →
        ((t : Packed) → mark_in rs t ≡ mark_in others t) → AreAll (IsOnesChampion rs ones) xs
        → AreAll (IsOnesChampion others ones) ys → xs ≡ ys }
    ensures holdouts { (rs others : List Recorded) (xs ys : List Packed) →
        ((t : Packed) → mark_in rs t ≡ mark_in others t) → AreAll (IsHoldout rs) xs → AreAll (IsHoldout others) ys
        → xs ≡ ys }
{}
