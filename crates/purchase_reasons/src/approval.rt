//! The tests of an offline approval (docs/proof/profile.md, CARD-20), in words.
ghost use Rattle.std.specs.Prelude.{◌≡◌, ◌+◌, nat_le};
ghost use Rattle.purchase_reasons.specs.Approval as spec;
ghost use Rattle.report_lines.specs.Pieces.{Tells};

use crate::limits::Limits;
use issuer_reasons::{Wanted, tell_currency};
use message_words::cards::Counters;
use report_lines::WordLines;

/// What is known of an application as it decides.
#[derive(Clone, Copy)]
pub struct Facts {
    /// Its counters, by the card's last power line.
    pub counters: Option<Counters>,
    /// Its limits.
    pub limits: Option<Limits>,
    /// What is to be approved.
    pub wanted: Option<Wanted>,
}

/// The sum in the second currency and its limit.
fn second_sum_and_limit(counters: &Counters, limits: &Limits, currency: u64) -> Option<(u64, u64)>
    ensures { result ≡ spec.second_sum_and_limit counters.now limits.now currency limits.now.second_currency }
{
    match limits.second_currency {
        Some(second) => {
            if second == currency {
                Some((counters.second.unwrap_or(0), limits.second_sum))
            } else {
                None
            }
        }
        None => None,
    }
}

/// The sum of the offline approvals in a currency, and its limit; `None` where the application has another
/// currency.
fn sum_and_limit(counters: &Counters, limits: &Limits, currency: u64) -> Option<(u64, u64)>
    ensures { result ≡ spec.sum_and_limit counters.now limits.now currency }
{
    if currency == limits.currency {
        Some((counters.sum, limits.sum))
    } else {
        second_sum_and_limit(counters, limits, currency)
    }
}

/// Whether the sum with the amount stays within the limit.
fn is_sum_within(sum: u64, amount: u64, limit: u64) -> bool
    ensures { result ≡ nat_le (sum + amount) limit }
{
    amount <= limit && sum <= limit - amount
}

/// Tells whether something is within its limit.
fn tell_within(out: &mut WordLines, is_within: bool)
    ensures { Tells out.old out.new (spec.within_or_above is_within) }
{
    if is_within {
        out.text(b"within the limit ");
    } else {
        out.text(b"above the limit ");
    }
}

/// Tells whether something is within its limit, and the limit.
fn tell_limit(out: &mut WordLines, is_within: bool, limit: u64)
    ensures { Tells out.old out.new (spec.within_words is_within limit) }
{
    tell_within(out, is_within);
    out.number(limit);
}

/// Tells the test of the number of offline approvals.
fn tell_count(out: &mut WordLines, count: u64, limit: u64)
    ensures { Tells out.old out.new (spec.count_words count limit) }
{
    out.text(b"; offline approvals ");
    out.number(count);
    out.text(b" + 1 are ");
    tell_limit(out, count < limit, limit);
}

/// Tells the test of their sum.
fn tell_sum(out: &mut WordLines, sum: u64, amount: u64, limit: u64)
    ensures { Tells out.old out.new (spec.sum_words sum amount limit) }
{
    out.text(b"; their sum ");
    out.number(sum);
    out.text(b" + ");
    out.number(amount);
    out.text(b" is ");
    tell_limit(out, is_sum_within(sum, amount, limit), limit);
}

/// Tells the test of the number, where all tests are told or it failed.
fn tell_count_test(out: &mut WordLines, all: bool, count: u64, limit: u64)
    ensures { Tells out.old out.new (spec.count_test all count limit) }
{
    if all || count >= limit {
        tell_count(out, count, limit);
    }
}

/// Tells the test of the sum, where all tests are told or it failed.
fn tell_known_sum(out: &mut WordLines, all: bool, sum: u64, amount: u64, limit: u64)
    ensures { Tells out.old out.new (spec.known_sum_test all sum amount limit) }
{
    if all || !is_sum_within(sum, amount, limit) {
        tell_sum(out, sum, amount, limit);
    }
}

/// Tells that a currency is none of the application's.
fn tell_other_currency(out: &mut WordLines, currency: u64)
    ensures { Tells out.old out.new (spec.other_currency_words currency) }
{
    out.text(b"; the currency ");
    tell_currency(out, currency);
    out.text(b" is none of its own");
}

/// Tells the test of the sum, or that there is none of the currency.
fn tell_sum_test(out: &mut WordLines, all: bool, found: Option<(u64, u64)>, wanted: &Wanted)
    ensures { Tells out.old out.new (spec.sum_test all found wanted.now) }
{
    match found {
        Some((sum, limit)) => tell_known_sum(out, all, sum, wanted.amount, limit),
        None => tell_other_currency(out, wanted.currency),
    }
}

/// Whether the last issuer authentication failed.
fn has_failed(counters: &Counters) -> bool
    ensures { result ≡ spec.has_failed_authentication counters.now }
{
    counters.flags / 2 % 2 == 1
}

/// Tells that the last issuer authentication failed, where it did.
fn tell_failed(out: &mut WordLines, counters: &Counters)
    ensures { Tells out.old out.new (spec.authentication_test counters.now) }
{
    if has_failed(counters) {
        out.text(b"; its last issuer authentication failed");
    }
}

/// Tells the tests of an offline approval: all of them, or those that failed.
fn tell_tests(out: &mut WordLines, all: bool, counters: &Counters, limits: &Limits, wanted: &Wanted)
    ensures { Tells out.old out.new (spec.tests_words all counters.now limits.now wanted.now) }
{
    tell_failed(out, counters);
    tell_count_test(out, all, counters.count, limits.count);
    let found = sum_and_limit(counters, limits, wanted.currency);
    tell_sum_test(out, all, found, wanted);
}

/// Tells which tests are left, where no limit is known.
fn tell_left(out: &mut WordLines, failed: bool)
    ensures { Tells out.old out.new (spec.left_words failed) }
{
    if failed {
        out.text(b": its last issuer authentication failed");
    } else {
        out.text(b": one of its limits, or the currency");
    }
}

/// Tells what the application had counted, where no limit is known, and which tests may have failed.
fn tell_counted(out: &mut WordLines, all: bool, counters: &Counters)
    ensures { Tells out.old out.new (spec.counted_words all counters.now) }
{
    out.text(b"; it had counted offline approvals ");
    out.number(counters.count);
    out.text(b", sum ");
    out.number(counters.sum);
    if !all {
        tell_left(out, has_failed(counters));
    }
}

/// Tells the tests as far as the amount is known.
fn tell_by_wanted(
    out: &mut WordLines,
    all: bool,
    counters: &Counters,
    limits: &Limits,
    wanted: Option<Wanted>,
)
    ensures { Tells out.old out.new (spec.by_wanted all counters.now limits.now wanted) }
{
    match wanted {
        Some(wanted) => tell_tests(out, all, counters, limits, &wanted),
        None => tell_counted(out, all, counters),
    }
}

/// Tells the tests as far as the limits are known.
fn tell_by_limits(out: &mut WordLines, all: bool, counters: &Counters, facts: &Facts)
    ensures { Tells out.old out.new (spec.by_known_limits all counters.now facts.now.limits facts.now.wanted) }
{
    match facts.limits {
        Some(limits) => tell_by_wanted(out, all, counters, &limits, facts.wanted),
        None => tell_counted(out, all, counters),
    }
}

/// Tells the tests of an offline approval, all of them or those that failed, as far as they are known.
pub(crate) fn tell_approval(out: &mut WordLines, all: bool, facts: &Facts)
    ensures { Tells out.old out.new (spec.offline_approval_words all facts.now) }
{
    if let Some(counters) = facts.counters {
        tell_by_limits(out, all, &counters, facts);
    }
}
