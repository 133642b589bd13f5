// What is so of all lists: laws over the definitions, each the contract of a function without a body.
ghost use Rattle.std.specs.Prelude.{◌≤◌, Decides, All};
ghost use Rattle.kind_evidence.specs.Terms.{IsKind};
ghost use Rattle.ngram_cps.specs.Kind.{ngram_kind};
ghost use Rattle.ngram_cps.specs.Lists.{Lists, AreLists, are_lists};

/// The test of three texts answers true exactly where they are lists.
pub fn lists_are_tested()
    ensures { (s : Lists) → Decides (are_lists s) (AreLists s) }
{}

/// Each byte of a list is above the space: so it has neither a space nor a newline.
pub fn list_texts_are_high()
    ensures left { (s : Lists) → AreLists s → All (λ byte. 33 ≤ byte) s.left }
    ensures right { (s : Lists) → AreLists s → All (λ byte. 33 ≤ byte) s.right }
    ensures local { (s : Lists) → AreLists s → All (λ byte. 33 ≤ byte) s.local }
{}

/// Closed position sets are a kind: their fields read back, and where one stands the table never halts.
pub fn position_sets_are_a_kind()
    ensures { IsKind ngram_kind }
{}
