// Laws of the texts of automata.
ghost use Rattle.std.specs.Prelude.{◌≡◌, ◌≤◌, ℕ, List, All, Decides, length};
ghost use Rattle.text.specs.Terms.{spaced};
ghost use Rattle.kind_evidence.specs.Terms.{IsKind};
ghost use Rattle.far.specs.Texts.{Automata, AreAutomata, AreSized, are_texts, AreTexts, automata_by, delta_text, rows_text, hex_text};
ghost use Rattle.far.specs.Kind.{number_fields, far_kind, listed_kind};
ghost use Rattle.far.specs.Limits.{number_byte_limit};

/// The texts of automata's numbers give those numbers again. They hold neither a space nor a newline, and with
/// a space before each they have at most 6,784 bytes.
pub fn texts_read_back()
    ensures texts { (a : Automata) → 1 ≤ a.size → 1 ≤ a.states → AreAutomata a →
        AreTexts a.states a.size (delta_text a.delta) (rows_text a.rows) (hex_text a.keep) }
    ensures same { (a : Automata) → 1 ≤ a.size → 1 ≤ a.states → AreAutomata a →
        automata_by a.states a.side a.size (delta_text a.delta) (rows_text a.rows) (hex_text a.keep) ≡ a }
    ensures short { (a : Automata) → AreSized a → AreAutomata a
        → length (spaced (number_fields a)) ≤ number_byte_limit }
    ensures bytes { (a : Automata) →
        All (λ b. 33 ≤ b) (delta_text a.delta) × All (λ b. 33 ≤ b) (rows_text a.rows)
        × All (λ b. 33 ≤ b) (hex_text a.keep) }
{}

/// The test of three texts answers true exactly where they are those of automata.
pub fn texts_are_tested()
    ensures { (states size : ℕ) (delta rows keep : List ℕ) →
        Decides (are_texts states size delta rows keep) (AreTexts states size delta rows keep) }
{}

/// Automata are a kind: their fields read back, and where they stand the table never halts.
pub fn automata_are_a_kind()
    ensures { IsKind far_kind }
{}

/// Automata with listed edges are a kind: their fields read back, a record has room for them, and where they stand the
/// table never halts.
pub fn listed_automata_are_a_kind()
    ensures { IsKind listed_kind }
{}
