// The texts of rules with induction, as they are given, and unpacked.
ghost use Rattle.std.specs.Prelude.{◌≡◌};
ghost use Rattle.kind_rules.specs.RuleTexts.{are_high};

use crate::form::{Form, Rule};
use crate::form_text::{are_groups, is_form, read_form, read_groups};
use crate::limits::MAX_RULE_BYTES;
use crate::move_text::{is_script, read_script};
use crate::numbers::four_from;
use crate::running::Stop;
use law_induction::{Exponents, Move};
use std::alloc::{AllocError as NoMemory, Global};
use text::Parts;

// How many states the tables have for which they are made; the texts of the rules, of the family, of its exponents at
// first, of the script that leads there, of the exponents that come next, and of the script that leads to those.
#[derive(Clone, Copy, Debug, PartialEq, Eq)]
pub(crate) struct TextsGiven<'a> {
    pub states: u8,
    pub rules: &'a [u8],
    pub family: &'a [u8],
    pub first: &'a [u8],
    pub begin: &'a [u8],
    pub next: &'a [u8],
    pub again: &'a [u8],
}

// Whether each byte is above the space.
fn are_high(text: &[u8]) -> bool
    ensures { result ≡ are_high text.now }
{
    for b in text {
        if *b <= b' ' {
            return false;
        }
    }
    true
}

impl TextsGiven<'_> {
    ghost use Rattle.std.specs.Prelude.{◌≡◌, ◌≤◌, ◌↔◌, IfOk, IsTrue, is_some, nat_le, option_map};
    ghost use Rattle.kind_rules.specs.Limits.{rules_byte_limit};
    ghost use Rattle.kind_rules.specs.RuleTexts.{all_high, rule_bytes, certificate_in, given_by, rule_texts_given};
    ghost use Rattle.kind_rules.specs.Views.{certificate_of};

    // How many of the bytes that the texts may have together are left; none where they are longer.
    fn room_left(&self) -> Option<usize>
        ensures { is_some result ≡ nat_le (rule_bytes (rule_texts_given self.now)) rules_byte_limit }
    {
        let left = (MAX_RULE_BYTES - 5).checked_sub(self.rules.len())?;
        let left = left.checked_sub(self.family.len())?;
        let left = left.checked_sub(self.first.len())?;
        let left = left.checked_sub(self.begin.len())?;
        let left = left.checked_sub(self.next.len())?;
        left.checked_sub(self.again.len())
    }

    // Whether the texts together are within `MAX_RULE_BYTES`.
    pub fn are_short(&self) -> bool
        ensures { IsTrue result ↔ (rule_bytes (rule_texts_given self.now) ≤ rules_byte_limit) }
    {
        self.room_left().is_some()
    }

    // Whether each text is a field.
    #[tactic(auto, unfolding(crate::specs::RuleTexts::all_high))]
    fn are_fields(&self) -> bool
        ensures { result ≡ all_high (rule_texts_given self.now) }
    {
        are_high(self.rules)
            && are_high(self.family)
            && are_high(self.first)
            && are_high(self.begin)
            && are_high(self.next)
            && are_high(self.again)
    }

    // Whether each text is of its grammar.
    #[tactic(auto, unfolding(crate::specs::RuleTexts::certificate_in))]
    fn give(&self) -> bool
        ensures { result ≡ is_some (certificate_in (rule_texts_given self.now)) }
    {
        if !are_groups(self.states, self.rules) {
            return false;
        }
        if !is_form(self.states, self.family) {
            return false;
        }
        if four_from(Parts::of(b'.', self.first)).is_none() {
            return false;
        }
        if !is_script(self.begin) {
            return false;
        }
        if four_from(Parts::of(b'.', self.next)).is_none() {
            return false;
        }
        is_script(self.again)
    }

    // Whether the texts give a certificate. Takes no memory.
    #[tactic(auto, unfolding(crate::specs::RuleTexts::given_by))]
    pub fn are_read(&self) -> bool
        ensures { result ≡ is_some (given_by (rule_texts_given self.now)) }
    {
        if !self.are_fields() {
            return false;
        }
        self.give()
    }

    // The certificate that the texts give; none where they give none.
    #[tactic(auto, unfolding(crate::specs::RuleTexts::certificate_in))]
    fn unpacked(&self, alloc: Global) -> Result<Option<Unpacked>, NoMemory>
        ensures { IfOk result (λ read. option_map certificate_of read ≡ certificate_in (rule_texts_given self.now)) }
    {
        let Some(groups) = read_groups(alloc, self.states, self.rules)? else {
            return Ok(None);
        };
        let Some(family) = read_form(alloc, self.states, self.family)? else {
            return Ok(None);
        };
        let Some(first) = four_from(Parts::of(b'.', self.first)) else {
            return Ok(None);
        };
        let Some(begin) = read_script(alloc, self.begin)? else {
            return Ok(None);
        };
        let Some(next) = four_from(Parts::of(b'.', self.next)) else {
            return Ok(None);
        };
        let Some(again) = read_script(alloc, self.again)? else {
            return Ok(None);
        };
        Ok(Some(Unpacked {
            groups,
            family,
            first,
            begin,
            next,
            again,
        }))
    }

    // The certificate that the texts give, where each is a field.
    #[tactic(auto, unfolding(crate::specs::RuleTexts::given_by))]
    pub fn read(&self, alloc: Global) -> Result<Option<Unpacked>, NoMemory>
        ensures { IfOk result (λ read. option_map certificate_of read ≡ given_by (rule_texts_given self.now)) }
    {
        if !self.are_fields() {
            return Ok(None);
        }
        self.unpacked(alloc)
    }
}

/// A rule with its proof: a script; or by induction on the variable a a script for 0, and one for a + 1.
#[derive(Drop)]
pub struct ProvedRule {
    pub rule: Rule,
    pub base: Option<Vec<Move>>,
    pub script: Vec<Move>,
}

/// The rules, in groups of those that are proved together; the form that the run comes to again and again; its numbers at
/// first, and how the run comes there; what stands in place of its variables when it comes there next, and how it does.
#[derive(Drop)]
pub struct Unpacked {
    pub groups: Vec<Vec<ProvedRule>>,
    pub family: Form,
    pub first: Exponents,
    pub begin: Vec<Move>,
    pub next: Exponents,
    pub again: Vec<Move>,
}

impl Unpacked {
    ghost use Rattle.std.specs.Prelude.{◌≡◌, IfOk, option_map};
    ghost use Rattle.law_induction.specs.Terms.{form_by};
    ghost use Rattle.kind_rules.specs.Views.{form_in};

    /// The form to which the run comes next, where no number of it is too large.
    pub fn next_form(&self, alloc: Global) -> Result<Option<Form>, NoMemory>
        ensures { IfOk result (λ f. option_map form_in f ≡ form_by self.now.next (form_in self.now.family)) }
    {
        match self.family.by(alloc, &self.next) {
            Ok(form) => Ok(Some(form)),
            Err(Stop::Fails) => Ok(None),
            Err(Stop::NoMemory) => Err(NoMemory),
        }
    }
}
