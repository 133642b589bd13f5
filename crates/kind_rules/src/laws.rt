// The law of rules with induction as a kind.
ghost use Rattle.kind_evidence.specs.Terms.{IsKind};
ghost use Rattle.kind_rules.specs.Kind.{rules_kind};

/// Rules with induction are a kind: their fields read back, a record has room for them, and where they stand the table
/// never halts.
pub fn rules_are_a_kind()
    ensures { IsKind rules_kind }
{}
