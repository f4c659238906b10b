//! Steps, causes and endings in words.
ghost use Rattle.std.specs.Prelude.{◌≡◌, ◌+◌, ◌≤◌, ◌++◌, length, decimal};
ghost use Rattle.arrayvec.specs.ArrayVec.{array_vec_len};
ghost use Rattle.hex.specs.Hex.{encode_lower};
ghost use Rattle.ber_tlv.specs.Written.{tag_bytes};
ghost use Rattle.report_text.specs.Words.{step_word, cause_text, ending_text, side_word};

use crate::Text;
use crate::pieces::{append, hex, number, tag, two_bytes};
use emv_dict::{Cause, Ending, Step};

#[tactic(auto, unfolding(crate::specs::Words::step_word))]
fn step_word(step: Step) -> &'static [u8]
    ensures word { result.now ≡ step_word step }
    ensures short { length result.now ≤ 12 }
{
    match step {
        Step::Power => b"power",
        Step::Select => b"select",
        Step::Initiate => b"initiate",
        Step::Read => b"read",
        Step::Verify => b"verify",
        Step::Risk => b"risk",
        Step::First => b"first",
        Step::Authenticate => b"authenticate",
        Step::Second => b"second",
        Step::Script => b"script",
    }
}

/// A word and a tag.
fn word_and_tag(out: &mut Text, word: &[u8], named: ber_tlv::Tag)
    requires { array_vec_len out.old + length word.now + 6 ≤ 8192 }
    ensures text { out.new.items ≡ out.old.items ++ (word.now ++ encode_lower (tag_bytes named.0)) }
    ensures len { array_vec_len out.new ≤ array_vec_len out.old + length word.now + 6 }
{
    append(out, word);
    tag(out, named);
}

/// A word and a number in decimal.
fn word_and_number(out: &mut Text, word: &[u8], named: u64)
    requires { array_vec_len out.old + length word.now + 40 ≤ 8192 }
    ensures text { out.new.items ≡ out.old.items ++ (word.now ++ decimal named) }
    ensures len { array_vec_len out.new ≤ array_vec_len out.old + length word.now + 40 }
{
    append(out, word);
    number(out, named);
}

/// A word and bytes in hexadecimal.
fn word_and_bytes(out: &mut Text, word: &[u8], named: &[u8])
    requires few { length named.now ≤ 2 }
    requires room { array_vec_len out.old + length word.now + 4 ≤ 8192 }
    ensures text { out.new.items ≡ out.old.items ++ (word.now ++ encode_lower named.now) }
    ensures len { array_vec_len out.new ≤ array_vec_len out.old + length word.now + 4 }
{
    append(out, word);
    hex(out, named);
}

/// Why a payment ended.
#[tactic(auto, unfolding(crate::specs::Words::cause_text))]
fn cause(out: &mut Text, cause: Cause)
    requires { array_vec_len out.old + 60 ≤ 8192 }
    ensures text { out.new.items ≡ out.old.items ++ cause_text cause }
    ensures len { array_vec_len out.new ≤ array_vec_len out.old + 60 }
{
    match cause {
        Cause::NoCandidate => append(out, b"no-candidate"),
        Cause::CardBlocked => append(out, b"card-blocked"),
        Cause::Answer => append(out, b"answer"),
        Cause::Status(status) => word_and_bytes(out, b"status ", &status.to_be_bytes()),
        Cause::Coding(place) => word_and_number(out, b"coding ", place as u64),
        Cause::Repeated(named) => word_and_tag(out, b"repeated ", named),
        Cause::Missing(named) => word_and_tag(out, b"missing ", named),
        Cause::Value(named) => word_and_tag(out, b"value ", named),
        Cause::Afl(group) => word_and_number(out, b"afl ", u64::from(group)),
        Cause::Dol(named) => word_and_tag(out, b"dol ", named),
        Cause::TooMuch => append(out, b"too-much"),
        Cause::Kind(information) => word_and_bytes(out, b"kind ", &[information]),
    }
}

/// How a payment ended.
#[tactic(auto, unfolding(crate::specs::Words::ending_text))]
pub(crate) fn ending(out: &mut Text, ending: Ending)
    requires { array_vec_len out.old + 100 ≤ 8192 }
    ensures text { out.new.items ≡ out.old.items ++ ending_text ending }
    ensures len { array_vec_len out.new ≤ array_vec_len out.old + 100 }
{
    match ending {
        Ending::Approved { online } => {
            append(out, b"approved ");
            append(out, side_word(online));
        }
        Ending::Declined { online } => {
            append(out, b"declined ");
            append(out, side_word(online));
        }
        Ending::Terminated(step, why) => {
            append(out, b"terminated ");
            append(out, step_word(step));
            append(out, b" ");
            cause(out, why);
        }
        Ending::CutOff(step) => {
            append(out, b"cut ");
            append(out, step_word(step));
        }
    }
}

fn side_word(online: bool) -> &'static [u8]
    ensures word { result.now ≡ side_word online }
    ensures short { length result.now ≤ 7 }
{
    if online { b"online" } else { b"offline" }
}
