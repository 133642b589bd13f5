// Scripts, move by move.
ghost use Rattle.std.specs.Prelude.{◌≡◌, ◌+◌, ◌&&◌, Some, IfOk, IfErr, nat_le, length, map, option_map};
ghost use Rattle.law_induction.specs.Terms.{rule_at, grouped_at, again_by, done, done_within, all_done, half_block_limit, all_forms};
ghost use Rattle.kind_rules.specs.Views.{Yields, form_in, rule_in, group_in, setting_in};

use crate::form::{Form, Rule};
use crate::limits::{MAX_BLOCKS, MAX_STEPS};
use crate::sides::{is_at_end, sides};
use crate::texts_given::ProvedRule;
use law_induction::{Equation, Exponent, Exponents, Move};
use machine_text::{Dir, Table};
use std::alloc::{AllocError as NoMemory, AllocFailed, Global};

/// Why a check ends early.
#[derive(Clone, Copy, Drop)]
pub(crate) enum Stop {
    /// The certificate doesn't stand.
    Fails,
    /// Memory was refused.
    NoMemory,
}

impl From<NoMemory> for Stop {
    ghost use Rattle.std.specs.Prelude.{◌≡◌};
    ghost use Rattle.kind_rules.specs.declared.running.Stop.TheVariants.{NoMemory};

    ghost from_gives = { λ _ e. e ≡ NoMemory };

    fn from(_: NoMemory) -> Stop {
        Stop::NoMemory
    }
}

impl<T: Drop> From<AllocFailed<T>> for Stop {
    ghost use Rattle.std.specs.Prelude.{◌≡◌};
    ghost use Rattle.kind_rules.specs.declared.running.Stop.TheVariants.{NoMemory};

    ghost from_gives = { λ _ e. e ≡ NoMemory };

    fn from(_: AllocFailed<T>) -> Stop {
        Stop::NoMemory
    }
}

/// What a script may use: a table, the earlier groups of rules, the rules of the group that is being proved by induction,
/// the one of them that is being proved, and which ends are open.
#[derive(Clone, Copy)]
pub(crate) struct Setting<'t, 'r, 'a> {
    pub table: &'t Table,
    pub groups: &'r [Vec<ProvedRule>],
    pub group: &'a [ProvedRule],
    pub again: Option<&'a Rule>,
    pub open_left: bool,
    pub open_right: bool,
}

// A rule by its number; where they are fewer, its number behind them.
fn earlier<'r>(groups: &'r [Vec<ProvedRule>], k: u32) -> Result<&'r Rule, usize>
    ensures found { IfOk result (λ r. rule_at (all_forms (map group_in groups.now)) k ≡ Some (rule_in r.now)) }
    ensures behind { IfErr result (λ rest. length (all_forms (map group_in groups.now)) + rest ≡ k) }
{
    let mut rest = k as usize;
    for group in groups {
        if rest < group.len() {
            return Ok(&group[rest].rule);
        }
        rest -= group.len();
    }
    Err(rest)
}

// A rule of the group that is being proved, by its number.
#[tactic(auto, unfolding(law_induction::specs::Scripts::grouped_at))]
fn grouped<'a>(s: &Setting<'_, '_, 'a>, k: u32) -> Option<&'a Rule>
    ensures { grouped_at (length (setting_in s.now).rules) (setting_in s.now).group k
        ≡ option_map (λ r. rule_in r.now) result }
{
    match earlier(s.groups, k) {
        Ok(_) => None,
        Err(rest) => {
            if rest >= s.group.len() {
                return None;
            }
            Some(&s.group[rest].rule)
        }
    }
}

// The variable a for itself.
fn again_by(b: Exponent, c: Exponent, d: Exponent) -> Exponents
    ensures { result ≡ again_by b c d }
{
    let a = Exponent {
        ones: 0,
        a: 1,
        b: 0,
        c: 0,
        d: 0,
    };
    Exponents { a, b, c, d }
}

impl Form {
    ghost use Rattle.law_induction.specs.declared.scripts.Move.TheVariants.{Steps, Use, Again, Together, Forth, Back};

    // Steps, where there are no more than may be.
    #[tactic(auto, unfolding(law_induction::specs::Scripts::done, law_induction::specs::Words::step_limit))]
    fn few_steps(&mut self, alloc: Global, s: &Setting<'_, '_, '_>, n: u32) -> Result<(), Stop>
        ensures { Yields (λ _. form_in self.new) (done (setting_in s.now) (Steps n) (form_in self.old)) result }
    {
        if n > MAX_STEPS {
            return Err(Stop::Fails);
        }
        self.steps(alloc, s.table, n)
    }

    // An earlier rule.
    #[tactic(auto, unfolding(law_induction::specs::Scripts::done))]
    fn use_earlier(
        &mut self,
        alloc: Global,
        s: &Setting<'_, '_, '_>,
        k: u32,
        by: &Exponents,
    ) -> Result<(), Stop>
        ensures { Yields (λ _. form_in self.new) (done (setting_in s.now) (Use k by.now) (form_in self.old)) result }
    {
        let Ok(rule) = earlier(s.groups, k) else {
            return Err(Stop::Fails);
        };
        self.use_rule(alloc, rule, by, s.open_left, s.open_right)
    }

    // The rule that is being proved.
    #[tactic(auto, unfolding(law_induction::specs::Scripts::done))]
    fn use_again(
        &mut self,
        alloc: Global,
        s: &Setting<'_, '_, '_>,
        b: Exponent,
        c: Exponent,
        d: Exponent,
    ) -> Result<(), Stop>
        ensures { Yields (λ _. form_in self.new) (done (setting_in s.now) (Again b c d) (form_in self.old)) result }
    {
        let Some(rule) = s.again else {
            return Err(Stop::Fails);
        };
        self.use_rule(alloc, rule, &again_by(b, c, d), s.open_left, s.open_right)
    }

    // A rule that is proved together with it.
    #[tactic(auto, unfolding(law_induction::specs::Scripts::done))]
    fn use_together(
        &mut self,
        alloc: Global,
        s: &Setting<'_, '_, '_>,
        k: u32,
        b: Exponent,
        c: Exponent,
        d: Exponent,
    ) -> Result<(), Stop>
        ensures { Yields (λ _. form_in self.new) (done (setting_in s.now) (Together k b c d) (form_in self.old))
            result }
    {
        let Some(rule) = grouped(s, k) else {
            return Err(Stop::Fails);
        };
        self.use_rule(alloc, rule, &again_by(b, c, d), s.open_left, s.open_right)
    }

    // An equation, from its left side to its right one.
    #[tactic(auto, unfolding(law_induction::specs::Scripts::done))]
    fn forth(
        &mut self,
        alloc: Global,
        s: &Setting<'_, '_, '_>,
        side: Dir,
        place: u32,
        e: Equation,
    ) -> Result<(), Stop>
        ensures { Yields (λ _. form_in self.new) (done (setting_in s.now) (Forth side place e) (form_in self.old))
            result }
    {
        let both = sides(alloc, e)?;
        self.rewrite(
            alloc,
            s,
            side,
            place,
            is_at_end(e),
            &both.before,
            &both.after,
        )
    }

    // And from its right side to its left one.
    #[tactic(auto, unfolding(law_induction::specs::Scripts::done))]
    fn back(
        &mut self,
        alloc: Global,
        s: &Setting<'_, '_, '_>,
        side: Dir,
        place: u32,
        e: Equation,
    ) -> Result<(), Stop>
        ensures { Yields (λ _. form_in self.new) (done (setting_in s.now) (Back side place e) (form_in self.old))
            result }
    {
        let both = sides(alloc, e)?;
        self.rewrite(
            alloc,
            s,
            side,
            place,
            is_at_end(e),
            &both.after,
            &both.before,
        )
    }

    // One move.
    #[tactic(auto, unfolding(law_induction::specs::Scripts::done))]
    fn go(&mut self, alloc: Global, s: &Setting<'_, '_, '_>, x: Move) -> Result<(), Stop>
        ensures { Yields (λ _. form_in self.new) (done (setting_in s.now) x (form_in self.old)) result }
    {
        match x {
            Move::Steps(n) => self.few_steps(alloc, s, n),
            Move::Turn => self.turn(alloc),
            Move::Use(k, by) => self.use_earlier(alloc, s, k, &by),
            Move::Again(b, c, d) => self.use_again(alloc, s, b, c, d),
            Move::Together(k, b, c, d) => self.use_together(alloc, s, k, b, c, d),
            Move::Forth(side, place, e) => self.forth(alloc, s, side, place, e),
            Move::Back(side, place, e) => self.back(alloc, s, side, place, e),
        }
    }

    // Whether it isn't too long.
    #[tactic(auto, unfolding(law_induction::specs::Words::half_block_limit))]
    fn is_small(&self) -> bool
        ensures { result ≡ (nat_le (length self.now.left.items) half_block_limit
            && nat_le (length self.now.right.items) half_block_limit) }
    {
        self.left.len() <= MAX_BLOCKS && self.right.len() <= MAX_BLOCKS
    }

    // One move, from a form that isn't too long.
    #[tactic(auto, unfolding(law_induction::specs::Scripts::done_within, law_induction::specs::Scripts::small))]
    fn go_within(&mut self, alloc: Global, s: &Setting<'_, '_, '_>, x: Move) -> Result<(), Stop>
        ensures { Yields (λ _. form_in self.new) (done_within (setting_in s.now) x (form_in self.old)) result }
    {
        if !self.is_small() {
            return Err(Stop::Fails);
        }
        self.go(alloc, s, x)
    }

    // A whole script.
    #[tactic(auto, unfolding(law_induction::specs::Scripts::all_done, law_induction::specs::Scripts::small))]
    pub(crate) fn go_all(
        &mut self,
        alloc: Global,
        s: &Setting<'_, '_, '_>,
        moves: &[Move],
    ) -> Result<(), Stop>
        ensures { Yields (λ _. form_in self.new) (all_done (setting_in s.now) moves.now (form_in self.old)) result }
    {
        for x in moves {
            self.go_within(alloc, s, *x)?;
        }
        if self.is_small() {
            Ok(())
        } else {
            Err(Stop::Fails)
        }
    }
}
