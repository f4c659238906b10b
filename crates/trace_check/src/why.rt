//! The line that tells why a terminal's last question about a cryptogram is of its kind.
ghost use Rattle.std.specs.Prelude.{◌≡◌, ◌+◌, ◌≤◌, ◌++◌, length};
ghost use Rattle.arrayvec.specs.ArrayVec.{array_vec_len};
ghost use Rattle.kernel.specs.Dialogue.{kind_for as kind_of_code};
ghost use Rattle.trace_check.specs.QuestionText as spec;

use crate::question::{Basis, Question};
use action_analysis::Codes;
use emv_dict::Kind;
use report_text::Text;
use report_text::pieces::{append, hex_or_dash, number};

/// A kind of cryptogram.
fn kind(out: &mut Text, kind: Kind)
    requires { array_vec_len out.old + 4 ≤ 8192 }
    ensures text { out.new.items ≡ out.old.items ++ spec.kind_word kind }
    ensures len { array_vec_len out.new ≤ array_vec_len out.old + 4 }
{
    match kind {
        Kind::Aac => append(out, b"aac"),
        Kind::Tc => append(out, b"tc"),
        Kind::Arqc => append(out, b"arqc"),
    }
}

/// An action code: whose it is, which one, and its bytes.
#[tactic(auto, unfolding(crate::specs::QuestionText::code_text))]
fn code(out: &mut Text, owner: &[u8], name: &[u8], bytes: &[u8])
    requires owner { length owner.now ≤ 10 }
    requires name { length name.now ≤ 8 }
    requires few { length bytes.now ≤ 5 }
    requires room { array_vec_len out.old + 40 ≤ 8192 }
    ensures text { out.new.items ≡ out.old.items ++ spec.code_text owner.now name.now bytes.now }
    ensures len { array_vec_len out.new ≤ array_vec_len out.old + 40 }
{
    append(out, owner);
    append(out, name);
    hex_or_dash(out, bytes);
}

/// The three codes of the issuer, or of the terminal.
#[tactic(auto, unfolding(crate::specs::QuestionText::codes_text))]
fn all_codes(out: &mut Text, owner: &[u8], codes: Codes)
    requires owner { length owner.now ≤ 10 }
    requires room { array_vec_len out.old + 120 ≤ 8192 }
    ensures text { out.new.items ≡ out.old.items ++ spec.codes_text owner.now codes }
    ensures len { array_vec_len out.new ≤ array_vec_len out.old + 120 }
{
    code(out, owner, b"denial ", &codes.denial);
    code(out, owner, b"online ", &codes.online);
    code(out, owner, b"default ", &codes.fallback);
}

/// The terminal's type and its results.
#[tactic(auto, unfolding(crate::specs::QuestionText::results_text))]
fn results(out: &mut Text, basis: &Basis)
    requires { array_vec_len out.old + 80 ≤ 8192 }
    ensures text { out.new.items ≡ out.old.items ++ spec.results_text basis.now }
    ensures len { array_vec_len out.new ≤ array_vec_len out.old + 80 }
{
    append(out, b" type ");
    number(out, u64::from(basis.terminal_type));
    append(out, b" tvr ");
    hex_or_dash(out, &basis.tvr);
}

/// The first question for this kind.
#[tactic(auto, unfolding(crate::specs::QuestionText::first_text))]
fn first(out: &mut Text, basis: &Basis, wanted: Kind)
    requires { array_vec_len out.old + 400 ≤ 8192 }
    ensures text { out.new.items ≡ out.old.items ++ spec.first_text basis.now wanted }
    ensures len { array_vec_len out.new ≤ array_vec_len out.old + 400 }
{
    append(out, b"why first kind ");
    kind(out, wanted);
    results(out, basis);
    all_codes(out, b" issuer_", basis.issuer);
    all_codes(out, b" terminal_", basis.terminal);
}

/// The kind that a reply's code asks for: 00 approves.
fn kind_for(code: [u8; 2]) -> Kind
    ensures { result ≡ kind_of_code code }
{
    if code == *b"00" { Kind::Tc } else { Kind::Aac }
}

/// The second question, by the code of a reply.
#[tactic(auto, unfolding(crate::specs::QuestionText::replied_text))]
fn replied(out: &mut Text, code: [u8; 2])
    requires { array_vec_len out.old + 60 ≤ 8192 }
    ensures text { out.new.items ≡ out.old.items ++ spec.replied_text code }
    ensures len { array_vec_len out.new ≤ array_vec_len out.old + 60 }
{
    append(out, b"why second kind ");
    kind(out, kind_for(code));
    append(out, b" code ");
    hex_or_dash(out, &code);
}

/// The second question for this kind, where the terminal was unable to go online.
#[tactic(auto, unfolding(crate::specs::QuestionText::unable_text))]
fn unable(out: &mut Text, basis: &Basis, wanted: Kind)
    requires { array_vec_len out.old + 200 ≤ 8192 }
    ensures text { out.new.items ≡ out.old.items ++ spec.unable_text basis.now wanted }
    ensures len { array_vec_len out.new ≤ array_vec_len out.old + 200 }
{
    append(out, b"why second kind ");
    kind(out, wanted);
    results(out, basis);
    code(out, b" issuer_", b"default ", &basis.issuer.fallback);
    code(out, b" terminal_", b"default ", &basis.terminal.fallback);
}

/// A question, with what its kind rests on.
fn asked(out: &mut Text, question: &Question)
    requires { array_vec_len out.old + 400 ≤ 8192 }
    ensures text { out.new.items ≡ out.old.items ++ spec.asked_text question.now }
    ensures len { array_vec_len out.new ≤ array_vec_len out.old + 400 }
{
    match question {
        Question::First(basis, wanted) => first(out, basis, *wanted),
        Question::Replied(code) => replied(out, *code),
        Question::Unable(basis, wanted) => unable(out, basis, *wanted),
    }
}

/// The line of a question, where there is one, in place of what the text held.
pub fn tell_question(question: Option<Question>, out: &mut Text)
    ensures { out.new.items ≡ spec.question_text question }
{
    out.clear();
    let Some(question) = question else {
        return append(out, b"?\n");
    };
    asked(out, &question);
    append(out, b"\n");
}
