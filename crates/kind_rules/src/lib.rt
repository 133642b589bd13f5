//! Rules with induction: evidence that a table never halts, as law_induction says. The check here accepts just the
//! certificates. `specs/Texts` says how rules are written, `RuleTexts` and `Claims` what a claim's texts give, `Kind`
//! what the rules mean as evidence, `Views` what structs say and steps answer, `Limits` how large all may be.
#![tactic(auto)]

mod form;
mod form_text;
mod judging;
mod laws;
mod limits;
mod move_text;
mod numbers;
mod rule_text;
mod rules;
mod running;
mod sides;
mod stepping;
mod texts_given;

pub use form::{Form, Rule};
pub use laws::rules_are_a_kind;
pub use limits::MAX_RULE_BYTES;
pub use numbers::symbols_of;
pub use rules::{OwnedRules, Rules};
pub use texts_given::{ProvedRule, Unpacked};
