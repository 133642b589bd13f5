// What is told of rules with induction, as people write them.
use crate::forms::{form_text, given_text, is_never, value_text, value_unless_none};
use kind_evidence::NoMemory;
use kind_rules::{Form, ProvedRule, Rules, Unpacked};
use law_induction::{Exponent, Exponents, Move};
use std::alloc::Global;

/// The words for rules with induction.
pub(crate) fn rule_words(alloc: Global, e: &Rules) -> Result<String, NoMemory> {
    let certificate = e.unpacked(alloc)?;
    let rules = group_lines(alloc, &certificate.groups)?;
    let family = family_line(alloc, &certificate)?;
    let first = first_line(alloc, &certificate)?;
    format!(in alloc;
        "Rules with induction: from the first form of a line the run comes to the second one, whatever n, m, k and j are.\n\
         {rules}{family}{first}So it comes to forms of H again and again, and never halts."
    )
}

fn group_lines(alloc: Global, groups: &[Vec<ProvedRule>]) -> Result<String, NoMemory> {
    let mut text = String::new(alloc);
    let mut before: usize = 0;
    for group in groups {
        text.push_str(&rule_lines(alloc, before, group)?)?;
        before = before.saturating_add(group.len());
    }
    Ok(text)
}

// The rules of a group, behind so many: those that are proved together with the one above have `&` before them.
fn rule_lines(alloc: Global, before: usize, group: &[ProvedRule]) -> Result<String, NoMemory> {
    let mut text = String::new(alloc);
    for (k, proved) in group.iter().enumerate() {
        if k > 0 {
            text.push_str("& ")?;
        }
        text.push_str(&rule_line(alloc, before.saturating_add(k), proved)?)?;
    }
    Ok(text)
}

// A rule with its proof.
fn rule_line(alloc: Global, number: usize, proved: &ProvedRule) -> Result<String, NoMemory> {
    let rule = &proved.rule;
    let from = form_text(alloc, rule.open_left, rule.open_right, &rule.from)?;
    let to = form_text(alloc, rule.open_left, rule.open_right, &rule.to)?;
    let base = base_text(alloc, &proved.base)?;
    let proof = proof_text(alloc, &proved.script)?;
    format!(in alloc; "x{number} : {from} -> {to} :{base}{proof}\n")
}

fn base_text(alloc: Global, base: &Option<Vec<Move>>) -> Result<String, NoMemory> {
    match base {
        None => Ok(String::new(alloc)),
        Some(moves) => {
            let proof = proof_text(alloc, moves)?;
            format!(in alloc; " induct n :{proof} |")
        }
    }
}

// How the run comes from a form of the family to the next one.
fn family_line(alloc: Global, c: &Unpacked) -> Result<String, NoMemory> {
    let family = form_text(alloc, false, false, &c.family)?;
    let next = next_text(alloc, &c.next_form(alloc)?)?;
    let proof = proof_text(alloc, &c.again)?;
    format!(in alloc; "H : {family} -> {next} :{proof}\n")
}

fn next_text(alloc: Global, form: &Option<Form>) -> Result<String, NoMemory> {
    match form {
        None => Ok(String::new(alloc)),
        Some(form) => form_text(alloc, false, false, form),
    }
}

// How it comes to the family.
fn first_line(alloc: Global, c: &Unpacked) -> Result<String, NoMemory> {
    let n = value_text(alloc, "n", c.first.a)?;
    let m = value_unless_none(alloc, "m", c.first.b)?;
    let k = value_unless_none(alloc, "k", c.first.c)?;
    let j = value_unless_none(alloc, "j", c.first.d)?;
    let proof = proof_text(alloc, &c.begin)?;
    format!(in alloc;
        "From the blank tape the run comes to the first form of H with{n}{m}{k}{j}:{proof}\n"
    )
}

// A number of steps.
fn steps_text(alloc: Global, steps: u128) -> Result<String, NoMemory> {
    if steps == 0 {
        return Ok(String::new(alloc));
    }
    format!(in alloc; " {steps}")
}

// The rule that is being proved.
fn again_text(alloc: Global, b: Exponent, c: Exponent, d: Exponent) -> Result<String, NoMemory> {
    if is_never(b) && is_never(c) && is_never(d) {
        return String::from_str(alloc, " ih");
    }
    let given = given_text(alloc, &for_same(b, c, d))?;
    format!(in alloc; " ih{given}")
}

// The variable a for itself.
fn for_same(b: Exponent, c: Exponent, d: Exponent) -> Exponents {
    let a = Exponent {
        ones: 0,
        a: 1,
        b: 0,
        c: 0,
        d: 0,
    };
    Exponents { a, b, c, d }
}

// A rule by its number.
fn use_text(alloc: Global, rule: u32, by: &Exponents) -> Result<String, NoMemory> {
    let given = given_text(alloc, by)?;
    format!(in alloc; " x{rule}{given}")
}

// What is written at a move behind so many steps.
fn move_text(alloc: Global, steps: u128, x: &Move) -> Result<String, NoMemory> {
    let before = steps_text(alloc, steps)?;
    match *x {
        Move::Steps(_) | Move::Forth(..) | Move::Back(..) => Ok(String::new(alloc)),
        Move::Turn => format!(in alloc; "{before} t"),
        Move::Use(rule, by) => {
            let used = use_text(alloc, rule, &by)?;
            format!(in alloc; "{before}{used}")
        }
        Move::Together(rule, b, c, d) => {
            let used = use_text(alloc, rule, &for_same(b, c, d))?;
            format!(in alloc; "{before}{used}")
        }
        Move::Again(b, c, d) => {
            let again = again_text(alloc, b, c, d)?;
            format!(in alloc; "{before}{again}")
        }
    }
}

// How many steps are still to be written behind a move.
fn steps_behind(steps: u128, x: &Move) -> u128 {
    match *x {
        Move::Steps(more) => steps.saturating_add(u128::from(more)),
        Move::Turn | Move::Use(..) | Move::Again(..) | Move::Together(..) => 0,
        Move::Forth(..) | Move::Back(..) => steps,
    }
}

/// A proof by one script: its steps and the rules that it uses, each behind a space.
pub(crate) fn proof_text(alloc: Global, moves: &[Move]) -> Result<String, NoMemory> {
    let mut text = String::new(alloc);
    let mut steps: u128 = 0;
    for x in moves {
        text.push_str(&move_text(alloc, steps, x)?)?;
        steps = steps_behind(steps, x);
    }
    text.push_str(&steps_text(alloc, steps)?)?;
    Ok(text)
}
