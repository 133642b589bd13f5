// The texts of blocks, forms and groups of rules.
ghost use Rattle.std.specs.Prelude.{◌≡◌, ◌<◌, [], Some, None, IfOk, IfSome, is_some, length, option_map, position, map};
ghost use Rattle.text.specs.Terms.{parts_of};
ghost use Rattle.kind_rules.specs.Texts.{block_from, blocks_from, half_from, form_state_from, heading_from, is_capital, form_at, form_from, rules_of_parts, group_from, groups_of_parts, groups_from};
ghost use Rattle.kind_rules.specs.Views.{form_in, proved_in, group_in};

use crate::form::Form;
use crate::limits::MAX_FORM_BYTES;
use crate::numbers::{times_from, word_from};
use crate::rule_text::{is_rule, read_rule};
use crate::sides::once;
use crate::texts_given::ProvedRule;
use law_induction::Block;
use machine_text::Dir;
use std::alloc::{AllocError as NoMemory, Global};
use text::Parts;

// The block that a text is.
#[tactic(auto, unfolding(crate::specs::Texts::block_from))]
fn block_from(text: &[u8]) -> Option<Block>
    ensures { result ≡ block_from text.now }
{
    let mut parts = Parts::of(b'^', text);
    let word = word_from(parts.next()?)?;
    let Some(times) = parts.next() else {
        return Some(Block {
            word,
            times: once(),
        });
    };
    let times = times_from(times)?;
    if parts.next().is_some() {
        return None;
    }
    if times == once() {
        None
    } else {
        Some(Block { word, times })
    }
}

// Whether parts are blocks.
fn are_blocks(mut parts: Parts<'_>) -> bool
    ensures { result ≡ is_some (blocks_from parts.entry) }
{
    'parts: while let Some(part) = parts.next() {
        if block_from(part).is_none() {
            return false;
        }
    }
    true
}

// The blocks that parts are.
fn read_blocks(alloc: Global, mut parts: Parts<'_>) -> Result<Option<Vec<Block>>, NoMemory>
    ensures { IfOk result (λ blocks. option_map (λ l. l.items) blocks ≡ blocks_from parts.entry) }
{
    let mut blocks = Vec::new(alloc);
    'parts: while let Some(part) = parts.next() {
        match block_from(part) {
            Some(block) => blocks.push(block)?,
            None => return Ok(None),
        }
    }
    Ok(Some(blocks))
}

// Whether a text is that of a half tape.
#[tactic(auto, unfolding(crate::specs::Texts::half_from))]
fn is_half(text: &[u8]) -> bool
    ensures { result ≡ is_some (half_from text.now) }
{
    if text.is_empty() {
        return true;
    }
    are_blocks(Parts::of(b'.', text))
}

// The half tape that a text is.
#[tactic(auto, unfolding(crate::specs::Texts::half_from))]
fn read_half(alloc: Global, text: &[u8]) -> Result<Option<Vec<Block>>, NoMemory>
    ensures { IfOk result (λ half. option_map (λ l. l.items) half ≡ half_from text.now) }
{
    if text.is_empty() {
        return Ok(Some(Vec::new(alloc)));
    }
    read_blocks(alloc, Parts::of(b'.', text))
}

// The table's state that a letter names, if it is one of so many.
#[tactic(auto, unfolding(crate::specs::Texts::form_state_from))]
fn state_from(states: u8, letter: u8) -> Option<u8>
    ensures { result ≡ form_state_from states letter }
{
    let state = letter.saturating_sub(b'A');
    if state < states { Some(state) } else { None }
}

// The half tape to which a bracket points.
fn heading_from(b: u8) -> Option<Dir>
    ensures { result ≡ heading_from b }
{
    match b {
        b'<' => Some(Dir::L),
        b'>' => Some(Dir::R),
        _ => None,
    }
}

// The first place of a capital.
fn capital_place(text: &[u8]) -> Option<usize>
    ensures place { result ≡ position is_capital text.now }
    ensures within { IfSome result (λ at. at < length text.now) }
{
    text.iter().position(|b| b'A' <= *b && *b <= b'Z')
}

// Whether a text is that of a form, where its capital stands at a place.
#[tactic(auto, unfolding(crate::specs::Texts::form_at))]
fn is_form_at(states: u8, text: &[u8], at: usize) -> bool
    requires { at < length text.now }
    ensures { result ≡ is_some (form_at states text.now at) }
{
    if !is_half(&text[..at]) {
        return false;
    }
    if state_from(states, text[at]).is_none() {
        return false;
    }
    if at + 1 >= text.len() {
        return false;
    }
    if heading_from(text[at + 1]).is_none() {
        return false;
    }
    is_half(&text[at + 2..])
}

// Whether a text is that of a form, of a table with so many states.
#[tactic(auto, unfolding(crate::specs::Texts::form_from))]
pub(crate) fn is_form(states: u8, text: &[u8]) -> bool
    ensures { result ≡ is_some (form_from states text.now) }
{
    if text.len() > MAX_FORM_BYTES {
        return false;
    }
    match capital_place(text) {
        Some(at) => is_form_at(states, text, at),
        None => false,
    }
}

// The form that a text is, where its capital stands at a place.
#[tactic(auto, unfolding(crate::specs::Texts::form_at))]
fn read_form_at(alloc: Global, states: u8, text: &[u8], at: usize) -> Result<Option<Form>, NoMemory>
    requires { at < length text.now }
    ensures { IfOk result (λ form. option_map form_in form ≡ form_at states text.now at) }
{
    let Some(left) = read_half(alloc, &text[..at])? else {
        return Ok(None);
    };
    let Some(state) = state_from(states, text[at]) else {
        return Ok(None);
    };
    if at + 1 >= text.len() {
        return Ok(None);
    }
    let Some(heading) = heading_from(text[at + 1]) else {
        return Ok(None);
    };
    let Some(right) = read_half(alloc, &text[at + 2..])? else {
        return Ok(None);
    };
    Ok(Some(Form {
        left,
        state,
        heading,
        right,
    }))
}

// The form that a text is, of a table with so many states.
#[tactic(auto, unfolding(crate::specs::Texts::form_from))]
pub(crate) fn read_form(alloc: Global, states: u8, text: &[u8]) -> Result<Option<Form>, NoMemory>
    ensures { IfOk result (λ form. option_map form_in form ≡ form_from states text.now) }
{
    if text.len() > MAX_FORM_BYTES {
        return Ok(None);
    }
    match capital_place(text) {
        Some(at) => read_form_at(alloc, states, text, at),
        None => Ok(None),
    }
}

// Whether parts are rules.
fn are_rule_parts(states: u8, mut parts: Parts<'_>) -> bool
    ensures { result ≡ is_some (rules_of_parts states parts.entry) }
{
    'parts: while let Some(part) = parts.next() {
        if !is_rule(states, part) {
            return false;
        }
    }
    true
}

// The rules that parts are.
fn read_rule_parts(
    alloc: Global,
    states: u8,
    mut parts: Parts<'_>,
) -> Result<Option<Vec<ProvedRule>>, NoMemory>
    ensures { IfOk result (λ rules. option_map group_in rules ≡ rules_of_parts states parts.entry) }
{
    let mut rules = Vec::new(alloc);
    'parts: while let Some(part) = parts.next() {
        match read_rule(alloc, states, part)? {
            Some(rule) => rules.push(rule)?,
            None => return Ok(None),
        }
    }
    Ok(Some(rules))
}

// Whether a text is that of rules that are proved together.
#[tactic(auto, unfolding(crate::specs::Texts::group_from))]
fn is_group(states: u8, text: &[u8]) -> bool
    ensures { result ≡ is_some (group_from states text.now) }
{
    are_rule_parts(states, Parts::of(b'&', text))
}

// The rules that are proved together.
#[tactic(auto, unfolding(crate::specs::Texts::group_from))]
fn read_group(alloc: Global, states: u8, text: &[u8]) -> Result<Option<Vec<ProvedRule>>, NoMemory>
    ensures { IfOk result (λ group. option_map group_in group ≡ group_from states text.now) }
{
    read_rule_parts(alloc, states, Parts::of(b'&', text))
}

// Whether parts are groups.
fn are_group_parts(states: u8, mut parts: Parts<'_>) -> bool
    ensures { result ≡ is_some (groups_of_parts states parts.entry) }
{
    'parts: while let Some(part) = parts.next() {
        if !is_group(states, part) {
            return false;
        }
    }
    true
}

// The groups that parts are.
fn read_group_parts(
    alloc: Global,
    states: u8,
    mut parts: Parts<'_>,
) -> Result<Option<Vec<Vec<ProvedRule>>>, NoMemory>
    ensures { IfOk result (λ groups. option_map (λ l. map group_in l.items) groups
        ≡ groups_of_parts states parts.entry) }
{
    let mut groups = Vec::new(alloc);
    'parts: while let Some(part) = parts.next() {
        match read_group(alloc, states, part)? {
            Some(group) => groups.push(group)?,
            None => return Ok(None),
        }
    }
    Ok(Some(groups))
}

// Whether a text is that of groups of rules.
#[tactic(auto, unfolding(crate::specs::Texts::groups_from))]
pub(crate) fn are_groups(states: u8, text: &[u8]) -> bool
    ensures { result ≡ is_some (groups_from states text.now) }
{
    if text == b"-".as_slice() {
        return true;
    }
    are_group_parts(states, Parts::of(b';', text))
}

// The groups that a text is.
#[tactic(auto, unfolding(crate::specs::Texts::groups_from))]
pub(crate) fn read_groups(
    alloc: Global,
    states: u8,
    text: &[u8],
) -> Result<Option<Vec<Vec<ProvedRule>>>, NoMemory>
    ensures { IfOk result (λ groups. option_map (λ l. map group_in l.items) groups ≡ groups_from states text.now) }
{
    if text == b"-".as_slice() {
        return Ok(Some(Vec::new(alloc)));
    }
    read_group_parts(alloc, states, Parts::of(b';', text))
}
