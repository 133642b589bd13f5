// The children of a table, one by one.
ghost use Rattle.std.specs.Prelude.{◌≡◌, ◌↔◌, ℕ, ◌*◌, ◌<◌, ◌≤◌, ◌∷◌, Some, Contains, AllPairs, length};
ghost use Rattle.std.specs.Iterator.{YieldsFirst, item_count};
ghost use Rattle.std.specs.Option.{ForSome};
ghost use Rattle.std.specs.Ordering.{nat_cmp};
ghost use Rattle.std.specs.declared.cmp.Ordering.TheVariants.{Less};
ghost use Rattle.std.specs.Cmp.Lexicographic.{slice_cmp};
ghost use Rattle.machine_text.specs.Terms.{Packed, entry_of, text_of};
ghost use Rattle.law_tree.specs.Terms.{InOrder, children_at};
ghost use Rattle.tnf.specs.Children.{IsChildAt};
ghost use Rattle.tnf.specs.inside.{entries_left};

use crate::tables::used;
use machine_text::{Dir, Entry, State, Sym, Table};
use std::marker::Model;

/// An iterator over the children of a table, seen as the list of those that are left. It takes no memory.
#[derive(Clone, Debug, Drop)]
pub struct Children {
    parent: Table,
    state: State,
    symbol: Sym,
    // the entries go to the states below this
    targets: u8,
    // the direction that comes first: R where the table is empty, else L
    first_dir: Dir,
    // the entry of the next child
    next: Option<Entry>,
}

impl Model for Children {
    ghost use Rattle.std.specs.Prelude.{◌<◌, ◌≤◌, List};
    ghost use Rattle.std.specs.Option.{ForSome};
    ghost use Rattle.machine_text.specs.Terms.{Packed};
    ghost use Rattle.tnf.specs.inside.{tables_left};

    ghost Value = { List Packed };

    ghost view = { λ a. tables_left a.parent a.state.0 a.symbol a.targets a.first_dir a.next };

    ghost invariant = { λ a. (a.state.0 < a.parent.states) × (0 < a.targets) × (a.targets ≤ a.parent.states)
        × ForSome a.next (λ e. e.next.0 < a.targets) };
}

impl Children {
    // The children of a table at a pair.
    pub(crate) fn of(parent: &Table, state: State, symbol: Sym) -> Children
        requires { state.0 < parent.now.states }
        ensures list { result ≡ children_at parent.now state.0 symbol }
        ensures members { (u : ℕ) (c : Packed) → InOrder u (entry_of parent.now) →
            Contains result c ↔ IsChildAt parent.now u state.0 symbol c }
        ensures rising { AllPairs (λ a b. slice_cmp nat_cmp (text_of a) (text_of b) ≡ Less) result }
        ensures most { length result ≤ 4 * parent.now.states }
    {
        let undefined = parent.undefined_count();
        let first_dir = if undefined == 2 * parent.states() {
            Dir::R
        } else {
            Dir::L
        };
        let first = Entry {
            write: Sym::Zero,
            dir: first_dir,
            next: State(0),
        };
        Children {
            parent: *parent,
            state,
            symbol,
            targets: parent.states().min(used(parent) + 1),
            first_dir,
            next: if undefined < 2 { None } else { Some(first) },
        }
    }
}

impl Iterator for Children {
    type Item = Table;

    ghost next_gives = { YieldsFirst (λ left. left) };

    ghost remaining = { item_count (λ left. left) };

    fn next(&mut self) -> Option<Table> {
        let entry = self.next?;
        self.next = entry_after(entry, self.targets, self.first_dir);
        Some(self.parent.filled(self.state, self.symbol, entry))
    }
}

// The entry whose text comes next, among those to the states below `targets`: to the next state, in the
// other direction, or writing 1.
fn entry_after(e: Entry, targets: u8, first_dir: Dir) -> Option<Entry>
    requires { e.next.0 < targets }
    ensures left { entries_left targets first_dir (Some e) ≡ e ∷ entries_left targets first_dir result }
    ensures next { ForSome result (λ e. e.next.0 < targets) }
{
    if e.next.0 + 1 < targets {
        return Some(Entry {
            next: State(e.next.0 + 1),
            ..e
        });
    }
    let next = State(0);
    match (e.write, e.dir) {
        (write, Dir::L) => Some(Entry {
            write,
            dir: Dir::R,
            next,
        }),
        (Sym::Zero, Dir::R) => Some(Entry {
            write: Sym::One,
            dir: first_dir,
            next,
        }),
        (Sym::One, Dir::R) => None,
    }
}
