//! Values that are lists: rules, groups of records, entries.
ghost use Rattle.std.specs.Prelude.{◌≡◌, ◌==◌, ◌&&◌, not, [], length, if◌then◌else◌, codes, is_some, option_map};
ghost use Rattle.value_words.specs.Fields.{is_whole_list};
ghost use Rattle.value_words.specs.Lists as spec;
ghost use Rattle.value_words.specs.Plain.{or_nothing};
ghost use Rattle.value_words.specs.Rules as rule;
ghost use Rattle.report_lines.specs.Pieces as piece;
ghost use Rattle.report_lines.specs.Pieces.{Tells};

use crate::codes::{CONDITIONS, METHODS, OUTCOMES};
use crate::fields::next_entry;
use crate::phrases::{FAIL, GO_ON, NO_RULE, UNKNOWN_CONDITION, UNKNOWN_METHOD};
use crate::plain::number_in;
use ber_tlv::{Tag, tag_bytes};
use report_lines::{WordLines, outcome_reference, verification_reference, word_of};

/// In place of a method: no rule was performed.
const NO_METHOD: u8 = 0x3f;

/// Tells the method of the low six bits.
fn tell_method(out: &mut WordLines, method: u8)
    ensures { Tells out.old out.new (rule.method_words method) }
{
    match word_of(&METHODS, u32::from(method % 64)) {
        Some(word) => out.text(word),
        None => out.text(UNKNOWN_METHOD),
    }
}

/// The word of a condition of cardholder verification.
fn condition_word(condition: u32) -> Option<&'static [u8]>
    ensures { option_map (λ word. word.now) result ≡ rule.condition_word condition }
{
    word_of(&CONDITIONS, condition)
}

/// Tells when a method is used.
fn tell_condition(out: &mut WordLines, condition: u8)
    ensures { Tells out.old out.new (rule.condition_words condition) }
{
    match condition_word(u32::from(condition)) {
        Some(word) => out.text(word),
        None => {
            out.text(UNKNOWN_CONDITION);
            out.hex(&[condition]);
            out.text(b")");
        }
    }
}

/// Tells a method of cardholder verification, and when it is used (EMV 4.3 Book 3 Annex C3).
pub fn tell_rule(out: &mut WordLines, method: u8, condition: u8)
    ensures { Tells out.old out.new (rule.rule_words method condition) }
{
    tell_method(out, method);
    out.text(b", ");
    tell_condition(out, condition);
}

/// Tells a rule in a line of its own at this level, and what follows where it is unsuccessful.
fn tell_rule_line(out: &mut WordLines, level: u8, method: u8, condition: u8)
    ensures { Tells out.old out.new (spec.rule_line level method condition) }
{
    out.line(level);
    out.hex(&[method, condition]);
    out.text(b" ");
    tell_rule(out, method, condition);
    tell_unsuccessful(out, method / 64 % 2 == 1);
}

/// Tells what follows where a rule is unsuccessful.
fn tell_unsuccessful(out: &mut WordLines, goes_on: bool)
    ensures { Tells out.old out.new (spec.unsuccessful_words goes_on) }
{
    if goes_on {
        out.text(GO_ON);
    } else {
        out.text(FAIL);
    }
}

/// Tells the rules behind the two amounts, each in a line at this level.
fn tell_rules(out: &mut WordLines, rules: &[u8], level: u8)
    ensures { Tells out.old out.new (spec.rules_words level rules.now) }
{
    let mut left = rules;
    while let [method, condition, rest @ ..] = left {
        tell_rule_line(out, level, *method, *condition);
        left = rest;
    }
}

/// Tells a list of methods of cardholder verification: its two amounts, and its rules below.
pub fn tell_methods(out: &mut WordLines, value: &[u8], level: u8) -> bool
    ensures words { Tells out.old out.new (or_nothing (spec.methods_words level value.now)) }
    ensures told { result ≡ is_some (spec.methods_words level value.now) }
{
    if value.len() % 2 != 0 {
        return false;
    }
    let Some((amounts, rules)) = value.split_at_checked(8) else {
        return false;
    };
    tell_amounts(out, amounts);
    tell_rules(out, rules, level);
    true
}

/// Tells the two amounts.
fn tell_amounts(out: &mut WordLines, amounts: &[u8])
    ensures { length amounts.now ≡ 8 → Tells out.old out.new (spec.amounts_words amounts.now) }
{
    if let Some((first, second)) = amounts.split_at_checked(4) {
        out.text(b"X ");
        out.number(number_in(first));
        out.text(b", Y ");
        out.number(number_in(second));
    }
}

/// Tells the word of an outcome, where it has one.
fn tell_outcome(out: &mut WordLines, word: Option<&'static [u8]>)
    ensures { Tells out.old out.new (spec.outcome_words (option_map (λ w. w.now) word.entry)) }
{
    if let Some(word) = word {
        out.text(b": ");
        out.text(word);
    }
}

/// Tells the rule of cardholder verification that was performed, and its outcome, and where they stand; 3F in place of a
/// method says that none was (EMV 4.3 Book 4 Annex A4).
#[tactic(auto, unfolding(crate::specs::Lists::performed_rule))]
pub fn tell_performed_rule(out: &mut WordLines, method: u8, condition: u8, outcome: u8)
    ensures { Tells out.old out.new (spec.performed_rule method condition outcome) }
{
    if method == NO_METHOD {
        out.text(NO_RULE);
        out.reference(verification_reference(method, outcome));
    } else {
        tell_rule(out, method, condition);
        out.reference(verification_reference(method, outcome));
        tell_outcome(out, word_of(&OUTCOMES, u32::from(outcome)));
        out.reference_of(outcome_reference(u32::from(outcome)));
    }
}

/// Tells the result of cardholder verification (EMV 4.3 Book 4 Annex A4).
pub fn tell_method_result(out: &mut WordLines, value: &[u8]) -> bool
    ensures words { Tells out.old out.new (or_nothing (spec.method_result_words value.now)) }
    ensures told { result ≡ is_some (spec.method_result_words value.now) }
{
    match value {
        [method, condition, outcome] => {
            out.hex(value);
            out.text(b", ");
            tell_performed_rule(out, *method, *condition, *outcome);
            true
        }
        _ => false,
    }
}

/// Tells one group of records.
fn tell_group(out: &mut WordLines, file: u8, first: u8, last: u8, offline: u8)
    ensures { Tells out.old out.new (spec.group_words file first last offline) }
{
    out.text(b"file ");
    out.number(u64::from(file / 8));
    out.text(b" records ");
    out.number(u64::from(first));
    out.text(b" to ");
    out.number(u64::from(last));
    tell_offline(out, offline);
}

/// Tells how many records of a group are for offline data authentication, where some are.
fn tell_offline(out: &mut WordLines, offline: u8)
    ensures { Tells out.old out.new (spec.offline_records_words offline) }
{
    if offline != 0 {
        out.text(b" (");
        out.number(u64::from(offline));
        out.text(b" for offline data authentication)");
    }
}

/// Tells a comma before what follows, where something does.
fn tell_comma(out: &mut WordLines, rest: &[u8])
    ensures { Tells out.old out.new (spec.comma_before rest.now) }
{
    if !rest.is_empty() {
        out.text(b", ");
    }
}

/// Tells groups, four bytes each.
fn tell_groups(out: &mut WordLines, groups: &[u8])
    ensures { Tells out.old out.new (spec.groups_words groups.now) }
{
    let mut left = groups;
    while let [file, first, last, offline, rest @ ..] = left {
        tell_group(out, *file, *first, *last, *offline);
        tell_comma(out, rest);
        left = rest;
    }
}

/// Tells the groups of an application file locator (EMV 4.3 Book 3 section 10.2).
pub fn tell_locator(out: &mut WordLines, value: &[u8]) -> bool
    ensures words { Tells out.old out.new (or_nothing (spec.locator_words value.now)) }
    ensures told { result ≡ is_some (spec.locator_words value.now) }
{
    if value.is_empty() || value.len() % 4 != 0 {
        return false;
    }
    tell_groups(out, value);
    true
}

/// Whether bytes are a data object list.
fn is_list(list: &[u8]) -> bool
    ensures { result ≡ (is_whole_list list.now && not (length list.now == 0)) }
{
    let mut left = list;
    while let Some((_, _, rest)) = next_entry(left) {
        left = rest;
    }
    left.is_empty() && !list.is_empty()
}

/// Tells an entry of a data object list: its tag and its length.
fn tell_entry(out: &mut WordLines, tag: Tag, count: usize)
    ensures { Tells out.old out.new (spec.entry_words (tag.0, count)) }
{
    out.hex(&tag_bytes(tag));
    out.text(b":");
    out.number(count as u64);
}

/// Tells a blank before the next entry, where others were told before.
fn tell_blank(out: &mut WordLines, told: bool)
    ensures { Tells out.old out.new (if told then piece.text (codes " ") else []) }
{
    if told {
        out.text(b" ");
    }
}

/// Tells the entries of bytes, each as its tag and its length.
fn tell_entries(out: &mut WordLines, list: &[u8])
    ensures { Tells out.old out.new (spec.entries_words list.now) }
{
    let mut told = false;
    let mut left = list;
    while let Some((tag, count, rest)) = next_entry(left) {
        tell_blank(out, told);
        tell_entry(out, tag, count);
        told = true;
        left = rest;
    }
}

/// Tells the entries of a data object list, each as its tag and its length.
pub fn tell_list(out: &mut WordLines, value: &[u8]) -> bool
    ensures words { Tells out.old out.new (or_nothing (spec.list_words value.now)) }
    ensures told { result ≡ is_some (spec.list_words value.now) }
{
    if !is_list(value) {
        return false;
    }
    tell_entries(out, value);
    true
}
