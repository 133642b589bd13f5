// What is true of all tables: laws over the definitions, each the contract of a function without a body.
ghost use Rattle.std.specs.Prelude.{◌≡◌, ℕ, ◌<◌, Option};
ghost use Rattle.std.specs.Ordering.{nat_cmp};
ghost use Rattle.std.specs.Cmp.Lexicographic.{slice_cmp};
ghost use Rattle.machine_text.specs.declared.table.Sym.{Sym as Symbol};
ghost use Rattle.machine_text.specs.declared.table.Entry.{Entry};
ghost use Rattle.machine_text.specs.Packed.{Packed, IsTable, IsMapOf, entry_of, tabulated, filled};
ghost use Rattle.machine_text.specs.Text.{text_of};

use crate::table::Table;

/// A table is its number of states and its map: two tables with as many states and the same entry, or
/// none, at each pair are equal.
pub fn tables_are_maps()
    ensures { (a b : Packed) → IsTable a → IsTable b → a.states ≡ b.states
        → ((q : ℕ) (s : Symbol) → entry_of a q s ≡ entry_of b q s) → a ≡ b }
{}

/// Each map within the limit is that of a table, and the map of a table is within it, with one more entry too.
/// So `Table::filled` and `Table::empty` give the tables of which the definitions speak.
pub fn maps_have_tables()
    ensures table { (n : ℕ) (m : ℕ → Symbol → Option Entry) → IsMapOf n m → IsTable (tabulated n m) }
    ensures map { (n : ℕ) (m : ℕ → Symbol → Option Entry) → IsMapOf n m → (q : ℕ) (s : Symbol) →
        entry_of (tabulated n m) q s ≡ m q s }
    ensures of_table { (p : Packed) → IsTable p → IsMapOf p.states (entry_of p) }
    ensures filled { (n p : ℕ) (m : ℕ → Symbol → Option Entry) (r : Symbol) (e : Entry) → IsMapOf n m →
        p < n → e.next.0 < n → IsMapOf n (filled m p r e) }
{}

/// Tables are in the order of the bytes of their texts.
pub fn order_is_of_texts()
    ensures { (a b : Packed) → IsTable a → IsTable b
        → ⟦<Table as Ord>⟧.cmp a b ≡ slice_cmp nat_cmp (text_of a) (text_of b) }
{}
