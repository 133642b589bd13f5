// Rules with induction, the evidence that they keep a table from halting, and such as keep their own texts.
ghost use Rattle.std.specs.Prelude.{◌+◌, ◌≤◌, length};
ghost use Rattle.kind_rules.specs.RuleTexts.{AreRuleTexts, rule_texts_given, texts_in};

use crate::running::Stop;
use crate::texts_given::{TextsGiven, Unpacked};
use kind_evidence::{Evidence, NoMemory, Refused, Verdict};
use machine_text::Table;
use std::alloc::Global;
use text::{FieldFault, Parts, append_field, end_of, next_field};

/// The claim that a table's run comes to the forms of a family again and again, by which it never halts: rules between
/// forms of tape, with words that are repeated as often as variables say, each proved by a script of steps, equations and
/// earlier rules, or by induction; the family with its exponents at first, the script that leads there from the blank
/// tape, the exponents that come next, and the script that leads to them. The texts are borrowed, and read where they
/// are checked. The claim is made for tables of so many states, and for no others.
#[derive(Clone, Copy, Debug, PartialEq, Eq)]
pub struct Rules<'a> {
    pub(crate) texts: TextsGiven<'a>,
    ghost are: { AreRuleTexts (rule_texts_given texts) },
}

impl<'a> Rules<'a> {
    ghost use Rattle.std.specs.Prelude.{◌≡◌, ◌++◌, ◌≤◌, IfOk, OnOk, Some, length, take};
    ghost use Rattle.machine_text.specs.Terms.{state_limit};
    ghost use Rattle.text.specs.Terms.{made_of, spaced};
    ghost use Rattle.kind_rules.specs.Kind.{rules_by, rule_texts_by, rule_fields};
    ghost use Rattle.kind_rules.specs.RuleTexts.{AreRulesOf, given_by};
    ghost use Rattle.kind_rules.specs.Claims.{rule_texts_of};
    ghost use Rattle.kind_rules.specs.Views.{certificate_of};

    // The claim that texts make. It is `TooLong` where they are over `MAX_RULE_BYTES`, `BadList` where they are no such
    // texts.
    fn of(texts: TextsGiven<'a>) -> Result<Rules<'a>, FieldFault>
        requires { (1 ≤ texts.states) × (texts.states ≤ state_limit) }
        ensures { made_of rule_texts_of result ≡ rules_by (rule_texts_given texts.entry) }
    {
        if !texts.are_short() {
            return Err(FieldFault::TooLong);
        }
        if !texts.are_read() {
            return Err(FieldFault::BadList);
        }
        Ok(Rules { texts })
    }

    /// The claim that the fields of a record make, for a table of so many states: `rules family first begin next loop`.
    /// Takes no memory.
    pub fn read(states: u8, mut fields: Parts<'a>) -> Result<Rules<'a>, FieldFault>
        requires { (1 ≤ states) × (states ≤ state_limit) }
        ensures { made_of rule_texts_of result ≡ rule_texts_by states fields.entry }
    {
        let rules = next_field(&mut fields)?;
        let family = next_field(&mut fields)?;
        let first = next_field(&mut fields)?;
        let begin = next_field(&mut fields)?;
        let next = next_field(&mut fields)?;
        let again = next_field(&mut fields)?;
        end_of(fields)?;
        Rules::of(TextsGiven {
            states,
            rules,
            family,
            first,
            begin,
            next,
            again,
        })
    }

    /// Appends the fields of a record, each behind a space: they read back as the same texts (`rules_are_a_kind`). Where
    /// memory is refused, a beginning of them.
    pub fn append_fields(&self, out: &mut Vec<u8>) -> Result<(), NoMemory>
        ensures ok { OnOk result (out.new.items ≡ out.old.items ++ spaced (rule_fields (rule_texts_of self.now))) }
        ensures writable { OnOk result (AreRuleTexts (rule_texts_of self.now)) }
        ensures kept { take (length out.old.items) out.new.items ≡ out.old.items }
    {
        append_field(self.texts.rules, out)?;
        append_field(self.texts.family, out)?;
        append_field(self.texts.first, out)?;
        append_field(self.texts.begin, out)?;
        append_field(self.texts.next, out)?;
        append_field(self.texts.again, out)
    }

    /// The certificate that the texts give, read into memory.
    pub fn unpacked(&self, alloc: Global) -> Result<Unpacked, NoMemory>
        ensures { IfOk result (λ c. given_by (rule_texts_of self.now) ≡ Some (certificate_of c)) }
    {
        match self.texts.read(alloc)? {
            Some(unpacked) => Ok(unpacked),
            // The texts were tested before.
            None => unreachable!(),
        }
    }

    // Whether the rules are a certificate of a table. Reads the texts into memory.
    fn judged(&self, alloc: Global, t: &Table) -> Result<(), Stop>
        ensures stands { OnOk result (AreRulesOf (rule_texts_of self.now) t.now) }
        ensures fails { result ≡ Err Stop.Fails → AreRulesOf (rule_texts_of self.now) t.now → ⊥ }
    {
        if t.states() != self.texts.states {
            return Err(Stop::Fails);
        }
        self.unpacked(alloc)?.judge(alloc, t)
    }
}

impl Evidence for Rules<'_> {
    ghost use Rattle.kind_evidence.specs.declared.verdicts.Verdict.TheVariants.{Never};
    ghost use Rattle.kind_rules.specs.Kind.{rules_kind};
    ghost use Rattle.kind_rules.specs.Claims.{rule_texts_of};

    ghost meaning = { λ e. rules_kind.meaning (rule_texts_of e) };

    ghost shows = { λ e p. Never };

    fn check(&self, alloc: Global, t: &Table) -> Result<Verdict, Refused> {
        // The proof needs that the texts are within their limits.
        let _ = &self.texts;
        match self.judged(alloc, t) {
            Ok(()) => Ok(Verdict::Never),
            Err(Stop::Fails) => Err(Refused::Fails),
            Err(Stop::NoMemory) => Err(Refused::NoMemory),
        }
    }

    ghost law = { λ e. rules_kind.law (rule_texts_of e) };
}

/// A `Rules` with a text of its own, for a claim that is kept longer than the text from which it comes: one text with
/// the six texts one behind another, and nothing between them.
#[derive(Debug, Drop)]
pub struct OwnedRules {
    text: Vec<u8>,
    rule_bytes: u16,
    family_bytes: u16,
    first_bytes: u16,
    begin_bytes: u16,
    next_bytes: u16,
    states: u8,
    ghost room: { rule_bytes + family_bytes + first_bytes + begin_bytes + next_bytes ≤ length text.items },
    ghost are: { AreRuleTexts (texts_in states rule_bytes family_bytes first_bytes begin_bytes next_bytes text.items) },
}

impl OwnedRules {
    ghost use Rattle.std.specs.Prelude.{◌≡◌, IfOk};
    ghost use Rattle.kind_rules.specs.Claims.{owned_rule_texts};
    ghost use Rattle.kind_rules.specs.Claims.{rule_texts_of};

    /// A copy of a claim.
    #[tactic(auto, using(crate::proofs::RuleLaws::texts_joined, crate::proofs::RuleLaws::room_joined))]
    pub fn of(alloc: Global, e: &Rules) -> Result<OwnedRules, NoMemory>
        ensures { IfOk result (λ o. owned_rule_texts o ≡ rule_texts_of e.now) }
    {
        let TextsGiven {
            states,
            rules,
            family,
            first,
            begin,
            next,
            again,
        } = e.texts;
        let mut text = Vec::new(alloc);
        text.extend_from_slice(rules)?;
        text.extend_from_slice(family)?;
        text.extend_from_slice(first)?;
        text.extend_from_slice(begin)?;
        text.extend_from_slice(next)?;
        text.extend_from_slice(again)?;
        Ok(OwnedRules {
            text,
            rule_bytes: rules.len() as u16,
            family_bytes: family.len() as u16,
            first_bytes: first.len() as u16,
            begin_bytes: begin.len() as u16,
            next_bytes: next.len() as u16,
            states,
        })
    }

    /// The claim, lent. Takes no memory, and looks at no byte.
    #[tactic(auto, unfolding(crate::specs::RuleTexts::texts_in))]
    pub fn lent(&self) -> Rules<'_>
        ensures { rule_texts_of result ≡ owned_rule_texts self.now }
    {
        let (rules, rest) = self.text.split_at(self.rule_bytes as usize);
        let (family, rest) = rest.split_at(self.family_bytes as usize);
        let (first, rest) = rest.split_at(self.first_bytes as usize);
        let (begin, rest) = rest.split_at(self.begin_bytes as usize);
        let (next, again) = rest.split_at(self.next_bytes as usize);
        Rules {
            texts: TextsGiven {
                states: self.states,
                rules,
                family,
                first,
                begin,
                next,
                again,
            },
        }
    }
}
