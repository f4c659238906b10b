//! Why a card made a cryptogram, in words.
ghost use Rattle.std.specs.Prelude.{◌≡◌, ◌+◌, ◌≤◌, ◌++◌};
ghost use Rattle.arrayvec.specs.ArrayVec.{array_vec_len};
ghost use Rattle.card_words.specs.ReasonText as spec;

use crate::decision::{how, kind, which};
use crate::state::{field, truth};
use card_app::{Reason, Resting};
use report_text::Text;
use report_text::pieces::{append, hex_or_dash};

/// Which GENERATE AC.
fn generation(out: &mut Text, second: &Option<Resting>)
    requires { array_vec_len out.old + 20 ≤ 8192 }
    ensures text { out.new.items ≡ out.old.items ++ spec.generation_text second.now }
    ensures len { array_vec_len out.new ≤ array_vec_len out.old + 20 }
{
    match second {
        None => append(out, b"why ac first"),
        Some(_) => append(out, b"why ac second"),
    }
}

/// On what a second cryptogram rests.
#[tactic(auto, unfolding(crate::specs::ReasonText::resting_text))]
fn resting(out: &mut Text, second: &Option<Resting>)
    requires { array_vec_len out.old + 80 ≤ 8192 }
    ensures text { out.new.items ≡ out.old.items ++ spec.resting_text second.now }
    ensures len { array_vec_len out.new ≤ array_vec_len out.old + 80 }
{
    let Some(rest) = second else {
        return;
    };
    append(out, b" rests");
    how(out, rest.how);
    append(out, b" declined ");
    truth(out, rest.declined);
    append(out, b" issuer_auth ");
    truth(out, rest.issuer_auth);
}

/// What was asked and made.
#[tactic(auto, unfolding(crate::specs::ReasonText::made_text))]
fn made(out: &mut Text, reason: &Reason)
    requires { array_vec_len out.old + 200 ≤ 8192 }
    ensures text { out.new.items ≡ out.old.items ++ spec.made_text reason.now }
    ensures len { array_vec_len out.new ≤ array_vec_len out.old + 200 }
{
    generation(out, &reason.second);
    field(out, b" app ", u64::from(reason.app));
    append(out, b" asked");
    kind(out, reason.asked);
    append(out, b" made");
    kind(out, reason.made);
    resting(out, &reason.second);
}

/// Whether the card is blocked, whether an issuer authentication failed, and the currency.
#[tactic(auto, unfolding(crate::specs::ReasonText::barred_text))]
fn barred(out: &mut Text, reason: &Reason)
    requires { array_vec_len out.old + 80 ≤ 8192 }
    ensures text { out.new.items ≡ out.old.items ++ spec.barred_text reason.now }
    ensures len { array_vec_len out.new ≤ array_vec_len out.old + 80 }
{
    append(out, b" blocked ");
    truth(out, reason.blocked);
    append(out, b" auth_failed ");
    truth(out, reason.auth_failed);
    append(out, b" currency ");
    hex_or_dash(out, &reason.currency);
    append(out, b" own");
    which(out, reason.which);
}

/// The number of offline approvals and its limit.
#[tactic(auto, unfolding(crate::specs::ReasonText::counted_text))]
fn counted(out: &mut Text, reason: &Reason)
    requires { array_vec_len out.old + 120 ≤ 8192 }
    ensures text { out.new.items ≡ out.old.items ++ spec.counted_text reason.now }
    ensures len { array_vec_len out.new ≤ array_vec_len out.old + 120 }
{
    field(out, b" count ", u64::from(reason.count));
    field(out, b" count_limit ", u64::from(reason.count_limit));
}

/// Their sum, the amount, and the sum's limit.
#[tactic(auto, unfolding(crate::specs::ReasonText::summed_text))]
fn summed(out: &mut Text, reason: &Reason)
    requires { array_vec_len out.old + 200 ≤ 8192 }
    ensures text { out.new.items ≡ out.old.items ++ spec.summed_text reason.now }
    ensures len { array_vec_len out.new ≤ array_vec_len out.old + 200 }
{
    field(out, b" sum ", reason.sum);
    field(out, b" amount ", reason.amount);
    field(out, b" sum_limit ", reason.sum_limit);
}

/// The line of a reason, where there is one, in place of what the text held.
#[tactic(auto, unfolding(crate::specs::ReasonText::why_text))]
pub fn tell_reason(out: &mut Text, reason: &Option<Reason>)
    ensures { out.new.items ≡ spec.why_text reason.now }
{
    out.clear();
    let Some(reason) = reason else {
        return append(out, b"?\n");
    };
    made(out, reason);
    barred(out, reason);
    counted(out, reason);
    summed(out, reason);
    append(out, b"\n");
}
