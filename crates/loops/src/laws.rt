// The laws of the two kinds.
ghost use Rattle.kind_evidence.specs.Terms.{IsKind};
ghost use Rattle.loops.specs.Kinds.{cycle_kind, translated_kind};

/// Cycles are a kind: their fields read back, and where one stands the table never halts.
pub fn cycles_are_a_kind()
    ensures { IsKind cycle_kind }
{}

/// Translated cycles are a kind.
pub fn translated_cycles_are_a_kind()
    ensures { IsKind translated_kind }
{}
