// The check of rules with induction.
ghost use Rattle.std.specs.Prelude.{◌≡◌, ◌+◌, ◌<◌, [], Some, map, nat_le, is_some, IfSome, IfNone};
ghost use Rattle.machine_text.specs.Terms.{entry_of};
ghost use Rattle.law_induction.specs.Terms.{has_step, move_steps, steps_in, all_steps_limit, all_steps, base_steps, steps_of_all, steps_of_groups, script_leads, leads_from, leads_by, form_by, forms_of, all_forms, with_a, blank_form, is_proved_by, each_proved, by_induction, may_be_group, is_group_proved, are_proved, is_certificate};
ghost use Rattle.kind_rules.specs.Views.{Meets, form_in, rule_in, proved_in, group_in, setting_in, certificate_of};

use crate::form::{Form, Rule};
use crate::limits::MAX_ALL_STEPS;
use crate::running::{Setting, Stop};
use crate::texts_given::{ProvedRule, Unpacked};
use law_induction::{Exponent, Exponents, Move};
use machine_text::{Dir, Table};
use std::alloc::Global;

// Whether a script leads from one form to another.
#[tactic(auto, unfolding(law_induction::specs::Rules::script_leads))]
fn leads(
    alloc: Global,
    s: &Setting<'_, '_, '_>,
    moves: &[Move],
    from: Form,
    to: &Form,
) -> Result<(), Stop>
    ensures { Meets (script_leads (setting_in s.now) moves.now (form_in from) (form_in to.now)) result }
{
    let mut form = from;
    form.go_all(alloc, s, moves)?;
    if form.is(to) {
        Ok(())
    } else {
        Err(Stop::Fails)
    }
}

// Whether it leads from one of a rule's forms to the other, with others in place of the variables.
#[tactic(auto, unfolding(law_induction::specs::Rules::leads_by))]
fn leads_by(
    alloc: Global,
    s: &Setting<'_, '_, '_>,
    by: &Exponents,
    moves: &[Move],
    rule: &Rule,
) -> Result<(), Stop>
    ensures { Meets (leads_by (setting_in s.now) by.now moves.now (rule_in rule.now)) result }
{
    let from = rule.from.by(alloc, by)?;
    let to = rule.to.by(alloc, by)?;
    leads(alloc, s, moves, from, &to)
}

// Others in place of a alone.
fn with_a(a: Exponent) -> Exponents
    ensures { result ≡ with_a a }
{
    Exponents {
        a,
        b: Exponent {
            ones: 0,
            a: 0,
            b: 1,
            c: 0,
            d: 0,
        },
        c: Exponent {
            ones: 0,
            a: 0,
            b: 0,
            c: 1,
            d: 0,
        },
        d: Exponent {
            ones: 0,
            a: 0,
            b: 0,
            c: 0,
            d: 1,
        },
    }
}

// Whether a rule of a group is proved.
#[tactic(auto, unfolding(law_induction::specs::Rules::is_proved_by))]
fn check_rule(
    alloc: Global,
    t: &Table,
    before: &[Vec<ProvedRule>],
    group: &[ProvedRule],
    proved: &ProvedRule,
) -> Result<(), Stop>
    ensures { Meets (is_proved_by (entry_of t.now) (all_forms (map group_in before.now))
        (forms_of (map proved_in group.now)) (proved_in proved.now).rule (proved_in proved.now).base
        (proved_in proved.now).script) result }
{
    let rule = &proved.rule;
    let s = Setting {
        table: t,
        groups: before,
        group: &[],
        again: None,
        open_left: rule.open_left,
        open_right: rule.open_right,
    };
    match &proved.base {
        None => {
            let from = rule.from.copied(alloc)?;
            leads(alloc, &s, &proved.script, from, &rule.to)
        }
        Some(base) => {
            let zero = Exponent {
                ones: 0,
                a: 0,
                b: 0,
                c: 0,
                d: 0,
            };
            leads_by(alloc, &s, &with_a(zero), base, rule)?;
            let next = Exponent {
                ones: 1,
                a: 1,
                b: 0,
                c: 0,
                d: 0,
            };
            let s = Setting {
                table: t,
                groups: before,
                group,
                again: Some(rule),
                open_left: rule.open_left,
                open_right: rule.open_right,
            };
            leads_by(alloc, &s, &with_a(next), &proved.script, rule)
        }
    }
}

// Whether each rule of a group is.
#[tactic(auto, unfolding(law_induction::specs::Rules::each_proved))]
fn check_each(
    alloc: Global,
    t: &Table,
    before: &[Vec<ProvedRule>],
    group: &[ProvedRule],
) -> Result<(), Stop>
    ensures { Meets (each_proved (entry_of t.now) (all_forms (map group_in before.now))
        (forms_of (map proved_in group.now)) (map proved_in group.now)) result }
{
    for proved in group {
        check_rule(alloc, t, before, group, proved)?;
    }
    Ok(())
}

// Whether each has a proof by induction.
fn by_induction(group: &[ProvedRule]) -> bool
    ensures { result ≡ by_induction (map proved_in group.now) }
{
    for proved in group {
        if proved.base.is_none() {
            return false;
        }
    }
    true
}

// Whether rules may be proved together: if they are more than one, each by induction.
fn may_be_group(group: &[ProvedRule]) -> bool
    ensures { result ≡ may_be_group (map proved_in group.now) }
{
    group.len() == 1 || by_induction(group)
}

// Whether the rules of a group are proved by those before it.
#[tactic(auto, unfolding(law_induction::specs::Rules::is_group_proved))]
fn check_group(
    alloc: Global,
    t: &Table,
    before: &[Vec<ProvedRule>],
    group: &[ProvedRule],
) -> Result<(), Stop>
    ensures { Meets (is_group_proved (entry_of t.now) (all_forms (map group_in before.now))
        (map proved_in group.now)) result }
{
    if !may_be_group(group) {
        return Err(Stop::Fails);
    }
    check_each(alloc, t, before, group)
}

// Whether all groups are proved.
#[tactic(auto, unfolding(law_induction::specs::Rules::are_proved))]
fn check_groups(alloc: Global, t: &Table, groups: &[Vec<ProvedRule>]) -> Result<(), Stop>
    ensures { Meets (are_proved (entry_of t.now) [] (map group_in groups.now)) result }
{
    for k in 0..groups.len() {
        check_group(alloc, t, &groups[..k], &groups[k])?;
    }
    Ok(())
}

// Whether a script has a step.
#[tactic(auto, unfolding(law_induction::specs::Scripts::has_step))]
fn has_step(moves: &[Move]) -> bool
    ensures { result ≡ has_step moves.now }
{
    for x in moves {
        if let Move::Steps(n) = *x {
            if n > 0 {
                return true;
            }
        }
    }
    false
}

// How many steps of the machine a move has.
fn steps_of(x: Move) -> u32
    ensures { result ≡ move_steps x }
{
    match x {
        Move::Steps(n) => n,
        Move::Turn
        | Move::Use(..)
        | Move::Again(..)
        | Move::Together(..)
        | Move::Forth(..)
        | Move::Back(..) => 0,
    }
}

// How many of so many steps are left behind a script; none where it has more.
fn left_behind(moves: &[Move], most: u32) -> Option<u32>
    ensures some { IfSome result (λ left. left + steps_in moves.now ≡ most) }
    ensures none { IfNone result (most < steps_in moves.now) }
{
    let mut left = most;
    for x in moves {
        left = left.checked_sub(steps_of(*x))?;
    }
    Some(left)
}

// How many are left behind the scripts of a rule.
fn left_behind_rule(proved: &ProvedRule, most: u32) -> Option<u32>
    ensures some { IfSome result (λ left. left + (base_steps (proved_in proved.now).base
        + steps_in proved.now.script.items) ≡ most) }
    ensures none { IfNone result (most < base_steps (proved_in proved.now).base + steps_in proved.now.script.items) }
{
    let left = match &proved.base {
        Some(base) => left_behind(base, most)?,
        None => most,
    };
    left_behind(&proved.script, left)
}

// And behind those of a group.
fn left_behind_all(rules: &[ProvedRule], most: u32) -> Option<u32>
    ensures some { IfSome result (λ left. left + steps_of_all (map proved_in rules.now) ≡ most) }
    ensures none { IfNone result (most < steps_of_all (map proved_in rules.now)) }
{
    let mut left = most;
    for proved in rules {
        left = left_behind_rule(proved, left)?;
    }
    Some(left)
}

// And behind those of all groups.
fn left_behind_groups(groups: &[Vec<ProvedRule>], most: u32) -> Option<u32>
    ensures some { IfSome result (λ left. left + steps_of_groups (map group_in groups.now) ≡ most) }
    ensures none { IfNone result (most < steps_of_groups (map group_in groups.now)) }
{
    let mut left = most;
    for group in groups {
        left = left_behind_all(group, left)?;
    }
    Some(left)
}

impl Unpacked {
    // Whether the run comes to the form at first.
    fn check_begin(&self, alloc: Global, s: &Setting<'_, '_, '_>) -> Result<(), Stop>
        ensures { Meets (leads_from (setting_in s.now) self.now.begin.items (Some blank_form)
            (form_by self.now.first (form_in self.now.family))) result }
    {
        let blank = Form {
            left: Vec::new(alloc),
            state: 0,
            heading: Dir::R,
            right: Vec::new(alloc),
        };
        let first = self.family.by(alloc, &self.first)?;
        leads(alloc, s, &self.begin, blank, &first)
    }

    // Whether it comes there again.
    fn check_again(&self, alloc: Global, s: &Setting<'_, '_, '_>) -> Result<(), Stop>
        ensures { Meets (leads_from (setting_in s.now) self.now.again.items (Some (form_in self.now.family))
            (form_by self.now.next (form_in self.now.family))) result }
    {
        let family = self.family.copied(alloc)?;
        let next = self.family.by(alloc, &self.next)?;
        leads(alloc, s, &self.again, family, &next)
    }

    // How many of the steps that a certificate may have are left; none where it has more.
    #[tactic(auto, unfolding(law_induction::specs::Words::all_steps_limit))]
    fn steps_left(&self) -> Option<u32>
        ensures { is_some result ≡ nat_le (all_steps (certificate_of self.now)) all_steps_limit }
    {
        let left = left_behind_groups(&self.groups, MAX_ALL_STEPS)?;
        let left = left_behind(&self.begin, left)?;
        left_behind(&self.again, left)
    }

    // Whether it is a certificate of a table.
    #[tactic(auto, unfolding(law_induction::specs::Rules::is_certificate))]
    pub(crate) fn judge(&self, alloc: Global, t: &Table) -> Result<(), Stop>
        ensures { Meets (is_certificate (entry_of t.now) (certificate_of self.now)) result }
    {
        if self.steps_left().is_none() {
            return Err(Stop::Fails);
        }
        check_groups(alloc, t, &self.groups)?;
        let s = Setting {
            table: t,
            groups: &self.groups,
            group: &[],
            again: None,
            open_left: false,
            open_right: false,
        };
        self.check_begin(alloc, &s)?;
        self.check_again(alloc, &s)?;
        if has_step(&self.again) {
            Ok(())
        } else {
            Err(Stop::Fails)
        }
    }
}
