// Whether counted automata stand for a table.
ghost use Rattle.std.specs.Prelude.{◌≡◌, ◌≤◌, length, Some, Err, IfOk, OnErr, IfSome};
ghost use Rattle.machine_text.specs.Terms.{entry_of};
ghost use Rattle.law_turing.specs.Terms.{Never, opposite};
ghost use Rattle.law_machines.specs.Terms.{zeros, IsMember, delta, HasCoset, Remains, Settled, LeadsOn, CountedStand, moved_to, state_on};
ghost use Rattle.kind_counted.specs.Limits.{count_limit};
ghost use Rattle.kind_counted.specs.Automata.{transitions_of, IsCount};
ghost use Rattle.kind_counted.specs.Items.{coset_of, IsFormed};
ghost use Rattle.kind_counted.specs.Certificate.{counted_of};
ghost use Rattle.kind_counted.specs.inside.Judging.{IsUsedTable, coset_by, first_of, end_of, SettlesFrom, AllSettle, HasStep, AllGoOn, StartsInside};

use crate::certificate::{Automaton, CountedAutomata};
use crate::form::{Refused, are_own, keeps_blank};
use crate::item::{Coset, Item};
use crate::limits::MAX_COUNTS;
use crate::points::Points;
use crate::rows::Row;
use crate::used::Used;
use law_machines::{Local, Transition};
use machine_text::{Dir, Entry, State, Sym, Table};
use std::alloc::Global;

// A step to a side: the transition that reads what it writes, and the table's next state.
#[derive(Clone, Copy)]
struct Step {
    side: Dir,
    by: Transition,
    next: State,
}

impl CountedAutomata {
    /// Whether counted automata stand for a table. One for which they do never halts.
    pub fn check(&self, alloc: Global, t: &Table) -> Result<(), Refused>
        ensures stands { IfOk result (λ _. CountedStand (entry_of t.now) (counted_of self.now)) }
        ensures never { IfOk result (λ _. Never (entry_of t.now)) }
        ensures fails { result ≡ Err Refused.Fails → CountedStand (entry_of t.now) (counted_of self.now) → ⊥ }
    {
        self.check_form()?;
        let left = Used::of(alloc, &self.left)?;
        let right = Used::of(alloc, &self.right)?;
        self.check_start()?;
        self.check_items(alloc, t, &left, &right)
    }

    // Whether they are counted automata, whatever the table.
    fn check_form(&self) -> Result<(), Refused>
        ensures formed { IfOk result (λ _. IsFormed (counted_of self.now)) }
        ensures fails { result ≡ Err Refused.Fails → IsFormed (counted_of self.now) → ⊥ }
        ensures no_other { OnErr result (result ≡ Err Refused.Fails) }
    {
        if !keeps_blank(&self.left) {
            return Err(Refused::Fails);
        }
        if !keeps_blank(&self.right) {
            return Err(Refused::Fails);
        }
        if !are_own(&self.left, 0, self.split) {
            return Err(Refused::Fails);
        }
        if !are_own(&self.right, self.split, MAX_COUNTS) {
            return Err(Refused::Fails);
        }
        Ok(())
    }

    // Whether the blank tape is in its coset.
    fn check_start(&self) -> Result<(), Refused>
        ensures starts { IfOk result (λ _. StartsInside (counted_of self.now)) }
        ensures fails { result ≡ Err Refused.Fails → StartsInside (counted_of self.now) → ⊥ }
    {
        let at = Local {
            left: 0,
            state: State(0),
            read: Sym::Zero,
            right: 0,
        };
        match Item::place_of(&self.items, at) {
            Some(i) => check_zeros(&self.items[i].coset),
            None => Err(Refused::Fails),
        }
    }

    // Whether each item goes on.
    fn check_items(
        &self,
        alloc: Global,
        t: &Table,
        left: &Used,
        right: &Used,
    ) -> Result<(), Refused>
        requires left { IsUsedTable (transitions_of self.now.left.states.items) left.now.sets.items }
        requires right { IsUsedTable (transitions_of self.now.right.states.items) right.now.sets.items }
        ensures all { IfOk result
            (λ _. AllGoOn (entry_of t.now) (counted_of self.now) self.now.items.items (length self.now.items.items)) }
        ensures fails { result ≡ Err Refused.Fails →
            AllGoOn (entry_of t.now) (counted_of self.now) self.now.items.items (length self.now.items.items) → ⊥ }
    {
        for item in self.items.iter() {
            self.check_item(alloc, t, left, right, item)?;
        }
        Ok(())
    }

    // Whether what stands around the head of an item has an entry whose step settles.
    fn check_item(
        &self,
        alloc: Global,
        t: &Table,
        left: &Used,
        right: &Used,
        item: &Item,
    ) -> Result<(), Refused>
        requires left { IsUsedTable (transitions_of self.now.left.states.items) left.now.sets.items }
        requires right { IsUsedTable (transitions_of self.now.right.states.items) right.now.sets.items }
        ensures goes_on { IfOk result
            (λ _. HasStep (entry_of t.now) (counted_of self.now) item.now.at (coset_of item.now.coset)) }
        ensures fails { result ≡ Err Refused.Fails →
            HasStep (entry_of t.now) (counted_of self.now) item.now.at (coset_of item.now.coset) → ⊥ }
    {
        if item.at.state.0 >= t.states() {
            return Err(Refused::Fails);
        }
        match t.get(item.at.state, item.at.read) {
            Some(entry) => self.check_step(alloc, left, right, item, entry),
            None => Err(Refused::Fails),
        }
    }

    // Whether the step of an entry settles.
    fn check_step(
        &self,
        alloc: Global,
        left: &Used,
        right: &Used,
        item: &Item,
        entry: Entry,
    ) -> Result<(), Refused>
        requires left { IsUsedTable (transitions_of self.now.left.states.items) left.now.sets.items }
        requires right { IsUsedTable (transitions_of self.now.right.states.items) right.now.sets.items }
        ensures steps { IfOk result
            (λ _. LeadsOn (counted_of self.now) item.now.at
            (coset_of item.now.coset) entry.write entry.next entry.dir) }
        ensures fails { result ≡ Err Refused.Fails →
            LeadsOn (counted_of self.now) item.now.at (coset_of item.now.coset) entry.write entry.next entry.dir → ⊥ }
    {
        match entry.dir {
            Dir::L => {
                self.check_by(
                    alloc,
                    left,
                    item,
                    entry,
                    self.right.get(item.at.right, entry.write),
                )
            }
            Dir::R => {
                self.check_by(
                    alloc,
                    right,
                    item,
                    entry,
                    self.left.get(item.at.left, entry.write),
                )
            }
        }
    }

    // Whether it settles, by the transition of the other side's automaton that reads what it writes.
    fn check_by(
        &self,
        alloc: Global,
        used: &Used,
        item: &Item,
        entry: Entry,
        by: Option<Transition>,
    ) -> Result<(), Refused>
        requires used { IsUsedTable (delta (counted_of self.now) entry.dir) used.now.sets.items }
        requires count { IfSome by (λ t. IsCount t.count) }
        requires by { by ≡ delta (counted_of self.now) (opposite entry.dir)
            (state_on (opposite entry.dir) item.now.at) entry.write }
        ensures steps { IfOk result
            (λ _. LeadsOn (counted_of self.now) item.now.at
            (coset_of item.now.coset) entry.write entry.next entry.dir) }
        ensures fails { result ≡ Err Refused.Fails →
            LeadsOn (counted_of self.now) item.now.at (coset_of item.now.coset) entry.write entry.next entry.dir → ⊥ }
    {
        match by {
            Some(by) => self.check_side(
                alloc,
                used,
                item,
                Step {
                    side: entry.dir,
                    by,
                    next: entry.next,
                },
            ),
            None => Err(Refused::Fails),
        }
    }

    // Whether it settles whichever symbol had been read last.
    fn check_side(&self, alloc: Global, used: &Used, item: &Item, step: Step) -> Result<(), Refused>
        requires used { IsUsedTable (delta (counted_of self.now) step.side) used.now.sets.items }
        requires by { IsCount step.by.count }
        ensures settles { IfOk result
            (λ _. AllSettle (counted_of self.now) item.now.at (coset_of item.now.coset) step.side step.by step.next) }
        ensures fails { result ≡ Err Refused.Fails →
            AllSettle (counted_of self.now) item.now.at (coset_of item.now.coset) step.side step.by step.next → ⊥ }
    {
        for q in 0..self.on(step.side).states.len() {
            self.check_from(alloc, used, item, step, q, Sym::Zero)?;
            self.check_from(alloc, used, item, step, q, Sym::One)?;
        }
        Ok(())
    }

    // Whether it settles where one symbol had been read last from one state.
    fn check_from(
        &self,
        alloc: Global,
        used: &Used,
        item: &Item,
        step: Step,
        q: usize,
        b: Sym,
    ) -> Result<(), Refused>
        requires used { IsUsedTable (delta (counted_of self.now) step.side) used.now.sets.items }
        requires by { IsCount step.by.count }
        ensures settles { IfOk result
            (λ _. SettlesFrom (counted_of self.now) item.now.at
            (coset_of item.now.coset) step.side step.by step.next q b) }
        ensures fails { result ≡ Err Refused.Fails →
            SettlesFrom (counted_of self.now) item.now.at (coset_of item.now.coset) step.side step.by step.next q b →
            ⊥ }
    {
        match self.on(step.side).get(q, b) {
            Some(last) => {
                if last.to != state_on(step.side, &item.at) {
                    return Ok(());
                }
                self.check_last(alloc, used, item, step, q, b, last)
            }
            None => Ok(()),
        }
    }

    // Whether it settles where it was read by this transition.
    fn check_last(
        &self,
        alloc: Global,
        used: &Used,
        item: &Item,
        step: Step,
        q: usize,
        b: Sym,
        last: Transition,
    ) -> Result<(), Refused>
        requires used { IsUsedTable (delta (counted_of self.now) step.side) used.now.sets.items }
        requires by { IsCount step.by.count }
        requires last { IsCount last.count }
        ensures settled { IfOk result
            (λ _. Settled (Remains (counted_of self.now) (coset_of item.now.coset) step.side step.by last q)
            (HasCoset (counted_of self.now) (moved_to step.side step.by.to step.next b q))) }
        ensures fails { result ≡ Err Refused.Fails →
            Settled (Remains (counted_of self.now) (coset_of item.now.coset) step.side step.by last q)
            (HasCoset (counted_of self.now) (moved_to step.side step.by.to step.next b q)) → ⊥ }
    {
        let points = Points::moved(alloc, &item.coset, step.by.count, last.count)?;
        match points.kept(
            alloc,
            used,
            q,
            self.first_of(step.side),
            self.end_of(step.side),
        ) {
            Ok(points) => self.check_left(
                &points,
                moved_to(step.side, step.by.to, step.next, b, q),
            ),
            Err(Refused::Fails) => Ok(()),
            Err(Refused::TooLarge) => Err(Refused::TooLarge),
            Err(Refused::NoMemory) => Err(Refused::NoMemory),
        }
    }

    // Whether points settle.
    fn check_left(&self, points: &Points, next: Local) -> Result<(), Refused>
        ensures settled { IfOk result
            (λ _. Settled (IsMember (coset_by points.now.base points.now.rows.items))
            (HasCoset (counted_of self.now) next)) }
        ensures fails { result ≡ Err Refused.Fails →
            Settled (IsMember (coset_by points.now.base points.now.rows.items))
            (HasCoset (counted_of self.now) next) → ⊥ }
    {
        if points.is_negative() {
            return Ok(());
        }
        match Item::place_of(&self.items, next) {
            Some(i) => points.check_within(&self.items[i].coset),
            None => Err(Refused::Fails),
        }
    }

    // The automaton of a side.
    fn on(&self, side: Dir) -> &Automaton
        ensures { transitions_of result.now.states.items ≡ delta (counted_of self.now) side }
    {
        match side {
            Dir::L => &self.left,
            Dir::R => &self.right,
        }
    }

    // The first count of the automaton of a side, and the first that is none of it any more.
    fn first_of(&self, side: Dir) -> usize
        ensures first { result ≡ first_of self.now.split side }
        ensures range { result ≤ self.now.split }
    {
        match side {
            Dir::L => 0,
            Dir::R => self.split,
        }
    }

    fn end_of(&self, side: Dir) -> usize
        ensures end { result ≡ end_of self.now.split side }
        ensures range { self.now.split ≤ result }
        ensures limit { result ≤ count_limit }
    {
        match side {
            Dir::L => self.split,
            Dir::R => MAX_COUNTS,
        }
    }
}

// Whether the point of zeros is in a coset.
fn check_zeros(k: &Coset) -> Result<(), Refused>
    ensures member { IfOk result (λ _. IsMember (coset_of k.now) zeros) }
    ensures fails { result ≡ Err Refused.Fails → IsMember (coset_of k.now) zeros → ⊥ }
{
    Row::sum_to(&k.rows, &k.base)
}

// The state of the automaton of a side.
fn state_on(side: Dir, at: &Local) -> usize
    ensures { result ≡ state_on side at.now }
{
    match side {
        Dir::L => at.left,
        Dir::R => at.right,
    }
}

// What stands around the head after a move to a side.
fn moved_to(side: Dir, to: usize, state: State, read: Sym, from: usize) -> Local
    ensures { result ≡ moved_to side to state read from }
{
    match side {
        Dir::L => Local {
            left: from,
            state,
            read,
            right: to,
        },
        Dir::R => Local {
            left: to,
            state,
            read,
            right: from,
        },
    }
}
