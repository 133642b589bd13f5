// The texts of rules.
ghost use Rattle.std.specs.Prelude.{◌≡◌, ◌∷◌, [], IfOk, is_some, option_map};
ghost use Rattle.text.specs.Terms.{parts_of};
ghost use Rattle.law_induction.specs.Terms.{RuleForm};
ghost use Rattle.kind_rules.specs.Texts.{end_from, ends_from, rule_form_from, proved_from, rule_of_parts, rule_from};
ghost use Rattle.kind_rules.specs.Views.{ends_of, rule_in, proved_in};

use crate::form::Rule;
use crate::form_text::{is_form, read_form};
use crate::move_text::{is_script, read_script};
use crate::texts_given::ProvedRule;
use std::alloc::{AllocError as NoMemory, Global};
use text::Parts;

// Whether the ends of a rule are open.
#[derive(Clone, Copy)]
pub(crate) struct OpenEnds {
    pub left: bool,
    pub right: bool,
}

// Whether an end is open, by its letter.
fn end_from(b: u8) -> Option<bool>
    ensures { result ≡ end_from b }
{
    match b {
        b'o' => Some(true),
        b'b' => Some(false),
        _ => None,
    }
}

#[tactic(auto, unfolding(crate::specs::Texts::ends_from))]
fn ends_from(text: &[u8]) -> Option<OpenEnds>
    ensures { option_map ends_of result ≡ ends_from text.now }
{
    if text.len() != 2 {
        return None;
    }
    let left = end_from(text[0])?;
    let right = end_from(text[1])?;
    Some(OpenEnds { left, right })
}

// Whether three texts are those of a rule without its proof.
#[tactic(auto, unfolding(crate::specs::Texts::rule_form_from))]
fn is_rule_form(states: u8, ends: &[u8], from: &[u8], to: &[u8]) -> bool
    ensures { result ≡ is_some (rule_form_from states ends.now from.now to.now) }
{
    if ends_from(ends).is_none() {
        return false;
    }
    if !is_form(states, from) {
        return false;
    }
    is_form(states, to)
}

// The rule that three texts are.
#[tactic(auto, unfolding(crate::specs::Texts::rule_form_from))]
fn read_rule_form(
    alloc: Global,
    states: u8,
    ends: &[u8],
    from: &[u8],
    to: &[u8],
) -> Result<Option<Rule>, NoMemory>
    ensures { IfOk result (λ rule. option_map rule_in rule ≡ rule_form_from states ends.now from.now to.now) }
{
    let Some(ends) = ends_from(ends) else {
        return Ok(None);
    };
    let Some(from) = read_form(alloc, states, from)? else {
        return Ok(None);
    };
    let Some(to) = read_form(alloc, states, to)? else {
        return Ok(None);
    };
    Ok(Some(Rule {
        open_left: ends.left,
        open_right: ends.right,
        from,
        to,
    }))
}

// Whether parts are the scripts of a proof: one, or two.
fn are_scripts(mut parts: Parts<'_>) -> bool
    ensures { (rule : RuleForm) → result ≡ is_some (proved_from rule parts.entry) }
{
    let Some(first) = parts.next() else {
        return false;
    };
    let Some(second) = parts.next() else {
        return is_script(first);
    };
    if parts.next().is_some() {
        return false;
    }
    if !is_script(first) {
        return false;
    }
    is_script(second)
}

// The rule with the scripts that parts are.
fn read_proved(
    alloc: Global,
    rule: Rule,
    mut parts: Parts<'_>,
) -> Result<Option<ProvedRule>, NoMemory>
    ensures { IfOk result (λ proved. option_map proved_in proved ≡ proved_from (rule_in rule) parts.entry) }
{
    let Some(first) = parts.next() else {
        return Ok(None);
    };
    let Some(second) = parts.next() else {
        return read_plain(alloc, rule, first);
    };
    if parts.next().is_some() {
        return Ok(None);
    }
    read_induction(alloc, rule, first, second)
}

// A rule with one script.
fn read_plain(alloc: Global, rule: Rule, script: &[u8]) -> Result<Option<ProvedRule>, NoMemory>
    ensures { IfOk result (λ proved. option_map proved_in proved ≡ proved_from (rule_in rule) (script.now ∷ [])) }
{
    let Some(script) = read_script(alloc, script)? else {
        return Ok(None);
    };
    Ok(Some(ProvedRule {
        rule,
        base: None,
        script,
    }))
}

// A rule with two scripts.
fn read_induction(
    alloc: Global,
    rule: Rule,
    base: &[u8],
    script: &[u8],
) -> Result<Option<ProvedRule>, NoMemory>
    ensures { IfOk result (λ proved. option_map proved_in proved ≡ proved_from (rule_in rule)
        (base.now ∷ (script.now ∷ []))) }
{
    let Some(base) = read_script(alloc, base)? else {
        return Ok(None);
    };
    let Some(script) = read_script(alloc, script)? else {
        return Ok(None);
    };
    Ok(Some(ProvedRule {
        rule,
        base: Some(base),
        script,
    }))
}

// Whether a text is that of a rule with its proof.
#[tactic(auto, unfolding(crate::specs::Texts::rule_from))]
pub(crate) fn is_rule(states: u8, text: &[u8]) -> bool
    ensures { result ≡ is_some (rule_from states text.now) }
{
    let mut parts = Parts::of(b':', text);
    let Some(ends) = parts.next() else {
        return false;
    };
    let Some(from) = parts.next() else {
        return false;
    };
    let Some(to) = parts.next() else {
        return false;
    };
    if !is_rule_form(states, ends, from, to) {
        return false;
    }
    are_scripts(parts)
}

// The rule with its proof that a text is.
#[tactic(auto, unfolding(crate::specs::Texts::rule_from))]
pub(crate) fn read_rule(
    alloc: Global,
    states: u8,
    text: &[u8],
) -> Result<Option<ProvedRule>, NoMemory>
    ensures { IfOk result (λ proved. option_map proved_in proved ≡ rule_from states text.now) }
{
    let mut parts = Parts::of(b':', text);
    let Some(ends) = parts.next() else {
        return Ok(None);
    };
    let Some(from) = parts.next() else {
        return Ok(None);
    };
    let Some(to) = parts.next() else {
        return Ok(None);
    };
    let Some(rule) = read_rule_form(alloc, states, ends, from, to)? else {
        return Ok(None);
    };
    read_proved(alloc, rule, parts)
}
