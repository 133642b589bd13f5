// The law of the kind.
ghost use Rattle.kind_evidence.specs.Terms.{IsKind};
ghost use Rattle.backward.specs.Kind.{backward_kind};

/// Backward reasoning is a kind: its field reads back, and where it stands the table never halts.
pub fn backward_is_a_kind()
    ensures { IsKind backward_kind }
{}
